//! Reading a whole text.
ghost use Rattle.std.specs.Prelude.{◌≡◌, Some, IfOk};
ghost use Rattle.workload_text.specs.View.{lines_of};
ghost use Rattle.workload_text.specs.Grammar.{Spells};
ghost use Rattle.workload_text.specs.Refusals.{refusal};
ghost use Rattle.workload_text.specs.Accepted.{IsRunnable};
ghost use Rattle.workload_text.specs.Answers.{IfRefused, AreMapNumbers};

use crate::cut::next_line;
use crate::limits::MOST_TEXT_BYTES;
use crate::reading::Reading;
use crate::refusal::{TextFault, TextKind};
use crate::workload::Parsed;
use std::alloc::Global;

/// The workload that a text spells, or the first bad line with the first kind that applies to it.
///
/// It goes over the text once and keeps none of it: names, paths and stored bytes are copied out.
pub fn parse(alloc: Global, bytes: &[u8]) -> Result<Parsed, TextFault>
    ensures spelt { IfOk result (λ p. Spells bytes.now (lines_of p.workload)) }
    ensures runnable { IfOk result (λ p. IsRunnable (lines_of p.workload)) }
    ensures numbered { IfOk result (λ p. AreMapNumbers bytes.now p.map_lines.items) }
    ensures refused { IfRefused result (λ line kind. refusal bytes.now ≡ Some (record { line = line; kind = kind })) }
{
    if bytes.len() > MOST_TEXT_BYTES {
        return Err(TextFault::Refused {
            line: 0,
            kind: TextKind::Long,
        });
    }
    let mut reading = Reading::new(alloc);
    let mut number = 1;
    let mut rest = bytes;
    while !rest.is_empty() {
        let Some((line, behind)) = next_line(rest) else {
            return Err(TextFault::Refused {
                line: number,
                kind: TextKind::Unended,
            });
        };
        match reading.take(number, line) {
            Ok(()) => {}
            Err(fault) => return Err(fault.at(number)),
        }
        rest = behind;
        number += 1;
    }
    let parsed = reading.finish()?;
    Ok(parsed)
}
