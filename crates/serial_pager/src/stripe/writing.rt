//! Flushing a stripe.
ghost use Rattle.std.specs.Prelude.{◌≡◌, ◌+◌, ◌≤◌, ◌^◌, length, OnOk, IfErr};
ghost use Rattle.serial_pager.specs.Rests.{ClosesSame, IsAtRest};
ghost use Rattle.serial_pager.specs.Seen.{fixed_of};
ghost use Rattle.serial_pager.specs.Writings.{WritesAll, WritesUpTo};
ghost use Rattle.serial_pager.specs.Goings.{Did};

use crate::fault::PageFault;
use crate::laws::model_laws;
use crate::stripe::SerialStripe;
use page_model::{Cause, Journal};
use store_trait::Store;

impl<S: Store, J: Journal> SerialStripe<S, J> {
    /// Writes the dirty pages, each once, in rising order of region and page. The first failed write ends it: that page and those
    /// behind it are dirty still. The pages stay resident.
    pub fn flush(&mut self, scratch: &mut [u8]) -> Result<(), PageFault>
        requires rest { IsAtRest self.old.core }
        requires few { self.old.core.events + 2 ^ 22 ≤ 2 ^ 62 }
        requires scratch { length scratch.old ≡ self.old.core.setup.page_size }
        ensures rest { IsAtRest self.new.core }
        ensures fixed { fixed_of J.made_with self.new ≡ fixed_of J.made_with self.old }
        ensures few { self.new.core.events ≤ self.old.core.events + 2 ^ 22 }
        ensures closes { ClosesSame self.old.core self.new.core }
        ensures ok { OnOk result (Did 0 J.has_noted WritesAll self.old self.new) }
        ensures err { IfErr result (λ f. Did 0 J.has_noted (WritesUpTo f) self.old self.new) }
    {
        model_laws();
        let mut last = None;
        'pages: while let Some(key) = self.stripe.next_dirty(last) {
            match self.write_out(scratch, key, Cause::Flush) {
                Ok(()) => {}
                Err(fault) => return Err(fault),
            }
            last = Some(key);
        }
        Ok(())
    }
}
