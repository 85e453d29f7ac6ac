//! Readers of single fields: each accepts the one spelling that the grammar prints.
ghost use Rattle.std.specs.Prelude.{◌≡◌, ◌<◌, ◌≤◌, ◌*◌, ◌^◌, true, length, IsTrue, ◌↔◌, IfOk, IfSome, IfNone};
ghost use Rattle.std.specs.Str.Parse.{AllDigits, digits_value};
ghost use Rattle.std.specs.Option.{option_map};
ghost use Rattle.std.specs.List.{list_all};
ghost use Rattle.workload_text.specs.Grammar.{is_name, is_name_byte, is_path, is_path_byte, is_component};
ghost use Rattle.workload_text.specs.InsideFields.{IsPlain};
ghost use Rattle.workload_text.specs.Reading.{number_of, bytes_of, mode_of, is_hex, is_hex_digit, hex_digit_value, hex_pairs};

use crate::limits::{MOST_ACCESS_BYTES, MOST_NAME_BYTES, MOST_PATH_BYTES};
use page_base::{Bytes, OutOfMemory};
use std::alloc::Global;

/// One byte at least, and no `0` in front of others.
fn is_plain(field: &[u8]) -> bool
    ensures { IsTrue result ↔ IsPlain field.now }
{
    field.len() == 1 || (field.len() > 1 && field[0] != b'0')
}

/// The value of decimal digits, where there is nothing else and a `u64` holds it.
fn digits(field: &[u8]) -> Option<u64>
    ensures some { IfSome result (λ n. AllDigits 10 field.now × (n ≡ digits_value 10 field.now)) }
    ensures none { IfNone result (AllDigits 10 field.now → 2 ^ 64 ≤ digits_value 10 field.now) }
{
    let mut value = 0u64;
    for c in field {
        if *c < b'0' || *c > b'9' {
            return None;
        }
        let Some(tens) = value.checked_mul(10) else {
            return None;
        };
        let Some(more) = tens.checked_add(u64::from(*c - b'0')) else {
            return None;
        };
        value = more;
    }
    Some(value)
}

/// The number that a field spells in its one way, without a sign or a zero in front, where it is in the range.
pub fn number(field: &[u8], least: u64, most: u64) -> Option<u64>
    ensures value { result ≡ number_of least most field.now }
    ensures small { IfSome result (λ n. n ≤ most) }
{
    if !is_plain(field) {
        return None;
    }
    let Some(n) = digits(field) else {
        return None;
    };
    if n < least || n > most {
        return None;
    }
    Some(n)
}

fn is_name_byte(c: u8) -> bool
    ensures { result ≡ is_name_byte c }
{
    (b'A' <= c && c <= b'Z') || (b'a' <= c && c <= b'z') || (b'0' <= c && c <= b'9') || c == b'_'
}

pub fn is_name(field: &[u8]) -> bool
    ensures { result ≡ is_name field.now }
{
    if field.len() < 1 || field.len() > MOST_NAME_BYTES {
        return false;
    }
    for c in field {
        if !is_name_byte(*c) {
            return false;
        }
    }
    true
}

fn is_path_byte(c: u8) -> bool
    ensures { result ≡ is_path_byte c }
{
    is_name_byte(c) || c == b'.' || c == b'-'
}

fn are_path_bytes(part: &[u8]) -> bool
    ensures { result ≡ list_all is_path_byte part.now }
{
    part.iter().all(|c| is_path_byte(*c))
}

fn is_component(part: &[u8]) -> bool
    ensures { result ≡ is_component part.now }
{
    1 <= part.len() && are_path_bytes(part) && part != b".".as_slice() && part != b"..".as_slice()
}

/// Components with one `/` between, at most `MOST_PATH_BYTES`.
pub fn is_path(field: &[u8]) -> bool
    ensures { result ≡ is_path field.now }
{
    field.len() <= MOST_PATH_BYTES && field.split(|c| *c == b'/').all(|part| is_component(part))
}

#[tactic(auto, unfolding(crate::specs::Reading::mode_of))]
pub fn mode(field: &[u8]) -> Option<bool>
    ensures { result ≡ mode_of field.now }
{
    if field == b"rw".as_slice() {
        return Some(true);
    }
    if field == b"ro".as_slice() {
        return Some(false);
    }
    None
}

fn is_hex_digit(c: u8) -> bool
    ensures { result ≡ is_hex_digit c }
{
    (b'0' <= c && c <= b'9') || (b'a' <= c && c <= b'f')
}

fn hex_digit_value(c: u8) -> u8
    requires { is_hex_digit c ≡ true }
    ensures value { result ≡ hex_digit_value c }
    ensures small { result < 16 }
{
    if c <= b'9' { c - b'0' } else { c - b'a' + 10 }
}

// No early exit, so that the loop is one over whole vectors of bytes.
fn all_hex_digits(field: &[u8]) -> bool
    ensures { result ≡ list_all is_hex_digit field.now }
{
    let mut all = true;
    for c in field {
        all = all & is_hex_digit(*c);
    }
    all
}

fn is_hex(field: &[u8]) -> bool
    ensures { result ≡ is_hex field.now }
{
    field.len() % 2 == 0
        && 2 <= field.len()
        && field.len() <= 2 * MOST_ACCESS_BYTES
        && all_hex_digits(field)
}

fn decode(field: &[u8], out: &mut [u8])
    requires digits { list_all is_hex_digit field.now ≡ true }
    requires fits { length field.now ≡ 2 * length out.old }
    ensures { out.new ≡ hex_pairs field.now }
{
    'bytes: for i in 0..out.len() {
        out[i] = 16 * hex_digit_value(field[2 * i]) + hex_digit_value(field[2 * i + 1]);
    }
}

/// The bytes that a field spells, in memory of their own.
#[tactic(auto, unfolding(crate::specs::Reading::bytes_of))]
pub fn hex_bytes(alloc: Global, field: &[u8]) -> Result<Option<Bytes>, OutOfMemory>
    ensures value { IfOk result (λ o. option_map (λ b. b.items) o ≡ bytes_of field.now) }
    ensures few { IfOk result (λ o. IfSome o (λ b. length b.items ≤ MOST_ACCESS_BYTES)) }
{
    if !is_hex(field) {
        return Ok(None);
    }
    let Ok(mut kept) = vec![in alloc; 0u8; field.len() / 2] else {
        return Err(OutOfMemory);
    };
    decode(field, kept.as_mut_slice());
    Ok(Some(Bytes::from_vec(kept)))
}
