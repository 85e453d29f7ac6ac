//! Each event keeps a stripe standing for its history. Each function does nothing: its contract says that the pure step of a
//! core that stands for a history stands for that history with the event's entry, where the event's condition holds. The
//! statements and the conditions stand in `specs/Events.antt`, and what is known of readers and trips in `specs/Readers.antt`.
ghost use Rattle.page_model.specs.Events.{FreshStands, LoadStands, SaveStands, RaiseStands, HintStands, StartReadStands, FilledStands, ReadFailedStands};
ghost use Rattle.page_model.specs.Events.{OpenPageStands, DropRaiseStands, StartWriteStands, WrittenStands, WriteFailedStands, EvictStands, ClosingStands, UnmappedStands};
ghost use Rattle.page_model.specs.Readers.{ReadersAgree, PagesShow, WhysAgree, PicksKnow, FlushKnows, ServiceKnows, StartsOpen};

use page_base::laws::least_is_first;

/// A stripe that has just been made stands for no entry.
pub fn fresh_stands()
    ensures { FreshStands }
{}

/// A load that hits.
pub fn load_stands()
    ensures { LoadStands }
{}

/// A store that hits.
pub fn save_stands()
    ensures { SaveStands }
{}

/// A fault that is raised.
pub fn raise_stands()
    ensures { RaiseStands }
{}

/// A hint, whatever it is answered.
pub fn hint_stands()
    ensures { HintStands }
{}

/// A read that starts.
pub fn start_read_stands()
    ensures { StartReadStands }
{}

/// A read that ends well.
pub fn filled_stands()
    ensures { FilledStands }
{}

/// A read that fails.
pub fn read_failed_stands()
    ensures { ReadFailedStands }
{}

/// A protected page that is opened.
pub fn open_page_stands()
    ensures { OpenPageStands }
{}

/// A stale fault that is dropped.
pub fn drop_raise_stands()
    ensures { DropRaiseStands }
{}

/// A write that starts.
pub fn start_write_stands()
    ensures { StartWriteStands }
{}

/// A write that ends well.
pub fn written_stands()
    ensures { WrittenStands }
{}

/// A write that fails.
pub fn write_failed_stands()
    ensures { WriteFailedStands }
{}

/// A page that is evicted.
pub fn evict_stands()
    ensures { EvictStands }
{}

/// A region that begins to close.
pub fn closing_stands()
    ensures { ClosingStands }
{}

/// A region that is unmapped.
pub fn unmapped_stands()
    ensures { UnmappedStands }
{}

/// A stripe's readers answer what its history says.
pub fn readers_agree()
    ensures { ReadersAgree }
{}

/// What the pages of a stripe show, of whatever key.
pub fn pages_show()
    ensures { PagesShow }
{}

/// A pending fault, and a read that is out, are for the page's last raise.
pub fn whys_agree()
    ensures { WhysAgree }
{}

/// What is known of the page that may leave, and of a region's oldest page.
pub fn picks_know()
    ensures { PicksKnow }
{}

/// What is known of the page that a flush writes next.
pub fn flush_knows()
    ensures { FlushKnows }
{
    least_is_first();
}

/// What is known of the next service, of a lane that is home, and of a trip that is out.
pub fn service_knows()
    ensures { ServiceKnows }
{}

/// A trip that starts is open.
pub fn starts_open()
    ensures { StartsOpen }
{}
