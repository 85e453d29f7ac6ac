//! Why a call of this crate is refused.
ghost use Rattle.std.specs.Prelude.{◌≡◌};

use crate::pass::Seated;
use crate::stands::Stands;
use thiserror::Error;

/// There is no lock. The value comes back.
#[derive(Drop)]
pub enum NewFault<T> {
    /// More than `MOST_SEATS` passes were asked for.
    TooManySeats { value: T },
    OutOfMemory { value: T },
}

/// The pass has made all its holds: what a call answers that wanted to make one more.
#[derive(Clone, Copy, Debug, PartialEq, Eq, Error)]
#[error("the pass has made all its holds")]
pub struct PassSpent;

/// The pass has no further pass to split off.
#[derive(Clone, Copy, Debug, PartialEq, Eq, Error)]
#[error("the pass has no further pass to split off")]
pub struct NoSpare;

/// A pass of a lock over values `T` that got no hold.
pub type Spent<'a, T> = SpentPass<'a, T, <T as Stands>::Entry>;

/// A pass of a lock over values `T` with entries `E` that got no hold, since it has made all its holds. It is as it was.
#[derive(Drop)]
pub struct SpentPass<'a, T, E> {
    pub pass: &'a mut Seated<T, E>,
}

impl<'a, T, E> SpentPass<'a, T, E> {
    /// Lets the pass go as it is.
    pub fn fault(self) -> PassSpent
        ensures { self.exit.0.now ≡ self.entry.pass.now }
    {
        let SpentPass { pass: _ } = self;
        PassSpent
    }
}
