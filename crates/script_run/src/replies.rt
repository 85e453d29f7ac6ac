//! The replies of a run.
//!
//! All room is taken before the first line runs: nothing here takes memory.
ghost use Rattle.std.specs.Prelude.{◌≡◌, ◌+◌, ◌*◌, ◌<◌, ◌≤◌, ◌++◌, [], length, sum, codes, vec_len, IfOk};
ghost use Rattle.hex.specs.Hex.{encode_lower};
ghost use Rattle.std.specs.Prelude.{true, false};
ghost use Rattle.std.specs.Fmt.{decimal};
ghost use Rattle.workload_text.specs.declared.limits.TheConstants.{MOST_ACCESS_BYTES, MOST_LOADED_BYTES};
ghost use Rattle.script_run.specs.declared.rooms.TheConstants.{FAULT_ROOM, SCRIPT_ROOM, LOAD_ROOM};
ghost use Rattle.script_run.specs.Serial.{load_reply};
ghost use Rattle.script_run.specs.Replies.{fault_reply};

use page_base::{Bytes, OutOfMemory};
use std::alloc::Global;
use workload_text::MOST_ACCESS_BYTES;

/// The text so far, and the number and the sum of the bytes that it shows as loaded.
#[derive(Drop)]
pub(crate) struct Replies {
    pub(crate) text: Bytes,
    pub(crate) loaded: u64,
    pub(crate) sum: u64,
    pub(crate) faulted: bool,
    digits: Vec<u8>,
    ghost few: { loaded ≤ MOST_LOADED_BYTES },
    ghost bytes: { sum ≤ 255 * loaded },
    ghost wide: { vec_len digits ≡ 2 * MOST_ACCESS_BYTES },
}

/// Adds up the values of some bytes.
fn sum_of(bytes: &[u8]) -> u64
    requires { length bytes.now ≤ MOST_ACCESS_BYTES }
    ensures value { result ≡ sum bytes.now }
    ensures small { result ≤ 255 * length bytes.now }
{
    let mut total = 0u64;
    for byte in bytes {
        total += u64::from(*byte);
    }
    total
}

/// Appends the bytes in hex; `digits` is scratch.
fn put_hex(text: &mut Bytes, digits: &mut [u8], bytes: &[u8])
    requires digits { 2 * length bytes.now ≤ length digits.old }
    requires room { 2 * length bytes.now ≤ text.old.spare }
    ensures items { text.new.items ≡ text.old.items ++ encode_lower bytes.now }
    ensures spare { text.new.spare + 2 * length bytes.now ≡ text.old.spare }
{
    let digits = &mut digits[..2 * bytes.len()];
    match hex::encode_to_slice(bytes, digits) {
        Ok(()) => text.put_all(digits),
        Err(_) => unreachable!(),
    }
}

/// Appends a number in decimal.
fn put_decimal(text: &mut Bytes, number: u64)
    requires room { length (decimal number) ≤ text.old.spare }
    ensures items { text.new.items ≡ text.old.items ++ decimal number }
    ensures spare { text.new.spare + length (decimal number) ≡ text.old.spare }
{
    let mut buffer = itoa::Buffer::new();
    text.put_all(buffer.format(number).as_bytes());
}

impl Replies {
    /// No reply yet, and room for so many bytes of them.
    pub(crate) fn with_room(alloc: Global, room: usize) -> Result<Replies, OutOfMemory>
        ensures empty { IfOk result (λ r. r.text.items ≡ []) }
        ensures room { IfOk result (λ r. room ≤ r.text.spare) }
        ensures loaded { IfOk result (λ r. r.loaded ≡ 0) }
        ensures sum { IfOk result (λ r. r.sum ≡ 0) }
        ensures faulted { IfOk result (λ r. r.faulted ≡ false) }
    {
        let mut text = Bytes::new(alloc);
        text.reserve(room)?;
        match vec![in alloc; 0u8; 2 * MOST_ACCESS_BYTES] {
            Ok(digits) => Ok(Replies {
                text,
                loaded: 0,
                sum: 0,
                faulted: false,
                digits,
            }),
            Err(_) => Err(OutOfMemory),
        }
    }

    pub(crate) fn into_text(self) -> Bytes
        ensures { result ≡ self.text }
    {
        self.text
    }

    pub(crate) fn script(&mut self, name: &[u8])
        requires room { length name.now + SCRIPT_ROOM ≤ self.old.text.spare }
        ensures text { self.new.text.items ≡ self.old.text.items ++ (codes "script " ++ (name.now ++ codes "\n")) }
        ensures spare { self.old.text.spare ≤ self.new.text.spare + (length name.now + SCRIPT_ROOM) }
        ensures loaded { self.new.loaded ≡ self.old.loaded }
        ensures sum { self.new.sum ≡ self.old.sum }
        ensures faulted { self.new.faulted ≡ self.old.faulted }
    {
        self.text.put_all(b"script ");
        self.text.put_all(name);
        self.text.put(b'\n');
    }

    pub(crate) fn ok(&mut self)
        requires room { 3 ≤ self.old.text.spare }
        ensures text { self.new.text.items ≡ self.old.text.items ++ codes "ok\n" }
        ensures spare { self.old.text.spare ≤ self.new.text.spare + 3 }
        ensures loaded { self.new.loaded ≡ self.old.loaded }
        ensures sum { self.new.sum ≡ self.old.sum }
        ensures faulted { self.new.faulted ≡ self.old.faulted }
    {
        self.text.put_all(b"ok\n");
    }

    pub(crate) fn unmapped(&mut self)
        requires room { 9 ≤ self.old.text.spare }
        ensures text { self.new.text.items ≡ self.old.text.items ++ codes "unmapped\n" }
        ensures spare { self.old.text.spare ≤ self.new.text.spare + 9 }
        ensures loaded { self.new.loaded ≡ self.old.loaded }
        ensures sum { self.new.sum ≡ self.old.sum }
        ensures faulted { self.new.faulted ≡ self.old.faulted }
    {
        self.text.put_all(b"unmapped\n");
    }

    /// A fault of a page of the region of this name, with the count of the page's lane.
    pub(crate) fn fault(&mut self, name: &[u8], page: u32, count: u64)
        requires room { length name.now + FAULT_ROOM ≤ self.old.text.spare }
        ensures text { self.new.text.items ≡ self.old.text.items ++ fault_reply name.now page count }
        ensures spare { self.old.text.spare ≤ self.new.text.spare + (length name.now + FAULT_ROOM) }
        ensures loaded { self.new.loaded ≡ self.old.loaded }
        ensures sum { self.new.sum ≡ self.old.sum }
        ensures faulted { self.new.faulted ≡ true }
    {
        self.text.put_all(b"fault ");
        self.text.put_all(name);
        self.text.put(b' ');
        put_decimal(&mut self.text, u64::from(page));
        self.text.put(b' ');
        put_decimal(&mut self.text, count);
        self.text.put(b'\n');
        self.faulted = true;
    }

    pub(crate) fn load(&mut self, bytes: &[u8])
        requires short { length bytes.now ≤ MOST_ACCESS_BYTES }
        requires few { self.old.loaded + length bytes.now ≤ MOST_LOADED_BYTES }
        requires room { 2 * length bytes.now + LOAD_ROOM ≤ self.old.text.spare }
        ensures text { self.new.text.items ≡ self.old.text.items ++ load_reply bytes.now }
        ensures spare { self.old.text.spare ≤ self.new.text.spare + (2 * length bytes.now + LOAD_ROOM) }
        ensures loaded { self.new.loaded ≡ self.old.loaded + length bytes.now }
        ensures sum { self.new.sum ≡ self.old.sum + sum bytes.now }
        ensures faulted { self.new.faulted ≡ self.old.faulted }
    {
        if bytes.is_empty() {
            self.text.put_all(b"load\n");
            return;
        }
        self.text.put_all(b"load ");
        put_hex(&mut self.text, self.digits.as_mut_slice(), bytes);
        self.text.put(b'\n');
        self.loaded += bytes.len() as u64;
        self.sum += sum_of(bytes);
    }
}
