//! A journal that can be read.
use page_base::Key;
use page_model::{Journal, Note};
use std::alloc::Global;

/// One entry of a history. `number` is the first byte's place of an access, the place of the start of what a write has written,
/// the count of a failure, and else 0; `last` is the last byte of an access or a write, and else 0. An entry of a whole region has
/// `NO_PAGE`.
#[derive(Clone, Copy, Debug, PartialEq, Eq)]
pub struct Row {
    pub owner: u32,
    pub word: &'static str,
    pub region: u16,
    pub page: u32,
    pub number: u64,
    pub last: u8,
}

/// The page of an entry that has none.
pub const NO_PAGE: u32 = u32::MAX;

impl Row {
    /// An entry of a page of the first region, by owner 0, without a number.
    pub fn of(word: &'static str, page: u32) -> Row {
        Row {
            owner: 0,
            word,
            region: 0,
            page,
            number: 0,
            last: 0,
        }
    }

    /// The same in another region.
    pub fn region(self, region: u16) -> Row {
        Row { region, ..self }
    }

    /// The same with a number.
    pub fn number(self, number: u64) -> Row {
        Row { number, ..self }
    }

    /// The same with a last byte.
    pub fn last(self, last: u8) -> Row {
        Row { last, ..self }
    }
}

/// A journal that keeps each entry as a row.
#[derive(Drop)]
pub struct Rows {
    rows: Vec<Row>,
}

impl Rows {
    /// No row yet.
    pub fn new(alloc: Global) -> Rows {
        Rows {
            rows: Vec::new(alloc),
        }
    }

    /// The rows, the oldest first.
    pub fn as_slice(&self) -> &[Row] {
        self.rows.as_slice()
    }
}

impl Journal for Rows {
    type Made = ();

    // it is read by hand, so it may stand for any history
    ghost has_noted = { λ j h. Unit {0} };

    ghost made_with = { λ j. record {} };

    fn note(&mut self, owner: u32, note: &Note<'_>) {
        let row = Row {
            owner,
            ..told(note)
        };
        let _ = self.rows.push(row);
    }
}

fn of_page(word: &'static str, key: &Key) -> Row {
    Row::of(word, key.page).region(key.region)
}

fn of_region(word: &'static str, region: u16) -> Row {
    Row::of(word, NO_PAGE).region(region)
}

fn of_bytes(word: &'static str, key: &Key, number: u64, bytes: &[u8]) -> Row {
    let last = match bytes.last() {
        Some(byte) => *byte,
        None => 0,
    };
    of_page(word, key).number(number).last(last)
}

fn told(note: &Note<'_>) -> Row {
    match note {
        Note::Load { key, place, bytes } => of_bytes("load", key, u64::from(*place), bytes),
        Note::Save { key, place, bytes } => of_bytes("save", key, u64::from(*place), bytes),
        Note::Written { key, at, bytes } => of_bytes("written", key, *at, bytes),
        Note::ReadFailed { key, n } => of_page("read failed", key).number(*n),
        Note::WriteFailed { key, n } => of_page("write failed", key).number(*n),
        Note::Raised { key, .. } => of_page("raised", key),
        Note::StartRead { key } => of_page("start read", key),
        Note::Filled { key } => of_page("filled", key),
        Note::Opened { key } => of_page("opened", key),
        Note::Dropped { key } => of_page("dropped", key),
        Note::StartWrite { key, .. } => of_page("start write", key),
        Note::Evicted { key, .. } => of_page("evicted", key),
        Note::Hint { key, .. } => of_page("hint", key),
        Note::Closing { region } => of_region("closing", *region),
        Note::Unmapped { region } => of_region("unmapped", *region),
    }
}
