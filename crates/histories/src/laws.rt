//! Laws of histories over any type of entries. Each function does nothing: its contract is the law, and a caller calls it
//! where its proof needs the law.
ghost use Rattle.histories.specs.Relations.{CallsOfBoth, CallsOfOne, GoesOnIsOrder, ShorterGoesOn, FirstIsPrefix, SameCallsAreOthers, OthersKeepCalls};
ghost use Rattle.histories.specs.Relations.{GrowingAddsUp, GrownKnows, NewStays, OneLater, AloneIsOwn};

/// The calls of two stretches are those of the later before those of the earlier.
pub fn calls_of_both<E>()
    ensures { CallsOfBoth E }
{}

/// Entries made by one owner are its calls.
pub fn calls_of_one<E>()
    ensures { CallsOfOne E }
{}

/// A history goes on to itself and to each longer one, and that is an order.
pub fn goes_on_is_order<E>()
    ensures { GoesOnIsOrder E }
{}

/// Two histories that go on to one are a shorter and a longer part of it.
pub fn shorter_goes_on<E>()
    ensures { ShorterGoesOn E }
{}

/// A history that went on to another is that one's prefix of its length.
pub fn first_is_prefix<E>()
    ensures { FirstIsPrefix E }
{}

/// An owner whose calls stayed the same made no entry in between.
pub fn same_calls_are_others<E>()
    ensures { SameCallsAreOthers E }
{}

/// Entries of others keep an owner's calls.
pub fn others_keep_calls<E>()
    ensures { OthersKeepCalls E }
{}

/// Own entries add up over stretches of a history.
pub fn growing_adds_up<E>()
    ensures { GrowingAddsUp E }
{}

/// A history that grew goes on from the old one, and its new calls are the own entries.
pub fn grown_knows<E>()
    ensures { GrownKnows E }
{}

/// What is new past a later part of a history is new past an earlier one, and stays new.
pub fn new_stays<E>()
    ensures { NewStays E }
{}

/// The entries in between are told by the old and the new history.
pub fn one_later<E>()
    ensures { OneLater E }
{}

/// Where nobody else makes an entry, a history grows by the own ones alone.
pub fn alone_is_own<E>()
    ensures { AloneIsOwn E }
{}
