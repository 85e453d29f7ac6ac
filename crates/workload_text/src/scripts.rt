//! Reading a `script` line.
ghost use Rattle.std.specs.Prelude.{◌≡◌, ◌≤◌, length, map, IsTrue, ◌↔◌};
ghost use Rattle.std.specs.Str.{bytes_eq};
ghost use Rattle.std.specs.List.{list_any};
ghost use Rattle.workload_text.specs.Reading.{read_script};
ghost use Rattle.workload_text.specs.InsideState.{script_name, TakesBy, Begun, IsSound, said_by};

use crate::field::is_name;
use crate::limits::MOST_SCRIPTS;
use crate::reading::{Reading, refused};
use crate::refusal::{LineFault, TextKind};
use crate::workload::Script;
use page_base::{Bytes, List};

fn is_among(scripts: &[Script], name: &[u8]) -> bool
    ensures { result ≡ list_any (bytes_eq name.now) (map script_name scripts.now) }
{
    for i in 0..scripts.len() {
        if name == scripts[i].name.as_slice() {
            return true;
        }
    }
    false
}

impl Reading {
    fn is_taken(&self, name: &[u8]) -> bool
        ensures { result ≡ list_any (bytes_eq name.now) (said_by self.now).scripts }
    {
        if is_among(self.scripts.as_slice(), name) {
            return true;
        }
        match &self.current {
            None => false,
            Some(script) => name == script.name.as_slice(),
        }
    }

    /// No further script may begin.
    fn is_full(&self) -> bool
        requires { Begun self.now.current self.now.scripts.items }
        ensures { IsTrue result ↔ (MOST_SCRIPTS ≤ length (said_by self.now).scripts) }
    {
        self.current.is_some() && self.scripts.len() >= MOST_SCRIPTS - 1
    }

    #[tactic(auto, unfolding(crate::specs::Reading::read_script))]
    pub(crate) fn begin(&mut self, name: &[u8]) -> Result<(), LineFault>
        requires { IsSound self.old }
        ensures { TakesBy self.old self.new (λ s. read_script s name.now) result }
    {
        if !is_name(name) {
            return refused(TextKind::Name);
        }
        if self.is_taken(name) {
            return refused(TextKind::Double);
        }
        if self.is_full() {
            return refused(TextKind::Many);
        }
        let script = Script {
            name: Bytes::from_slice(self.alloc, name)?,
            commands: List::new(self.alloc),
        };
        if let Some(last) = self.current.take() {
            self.scripts.push(last)?;
        }
        self.current = Some(script);
        Ok(())
    }
}
