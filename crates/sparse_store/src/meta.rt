//! The metadata of a sparse store: its size and the length of one file, as a text of three lines.
//!
//! What must stay true when this file is changed: a reader goes on as long as what stands there may be the beginning of a
//! metadata text, so that the byte that is named is the first with which none goes on.
ghost use Rattle.std.specs.Prelude.{◌≡◌, ◌≤◌, ◌+◌, ◌++◌, ◌/◌, ◌⊎◌, ◌<◌, take, drop, length, IfOk, IfErr, IfSome, IfNone};
ghost use Rattle.std.specs.Str.Parse.{AllDigits, digits_value};
ghost use Rattle.sparse_store.specs.declared.meta.TheConstants.{META_ROOM, MOST_META_NUMBER};
ghost use Rattle.sparse_store.specs.Metas.{meta_text, IsMeta, IsBadMeta};
ghost use Rattle.sparse_store.specs.InsideMetas.{StopsAt, EndsDigits, NoNumber, Numbered, LabelledNumber, NoLabelledNumber};

use thiserror::Error;

/// The greatest size of a store, and the greatest length of its files, in bytes.
pub const MOST_META_NUMBER: u64 = 9_999_999_999_999;
/// The bytes of the longest metadata text.
pub const META_ROOM: usize = 52;

/// The size of a store and the length of one file, in bytes.
#[derive(Clone, Copy, Debug, PartialEq, Eq)]
pub struct Meta {
    pub size: u64,
    pub file: u64,
}

/// No metadata: `byte` is the number of its first bytes with which a metadata text begins, as many as there are.
#[derive(Clone, Copy, Debug, Drop, Error, PartialEq, Eq)]
#[error("metadata goes wrong at byte {byte}")]
pub struct BadMeta {
    pub byte: u32,
}

/// The value of the digits that stand here, and how many they are.
#[derive(Clone, Copy)]
struct Digits {
    value: u64,
    count: usize,
}

/// A number, and what stands behind it.
#[derive(Clone, Copy)]
struct Labelled<'a> {
    value: u64,
    rest: &'a [u8],
}

/// What stands behind the label; where it doesn't stand here whole, the number of its bytes that do.
fn behind<'a>(bytes: &'a [u8], label: &[u8]) -> Result<&'a [u8], usize>
    ensures ok { IfOk result (λ rest. bytes.now ≡ label.now ++ rest.now) }
    ensures err { IfErr result (λ n. StopsAt bytes.now label.now n) }
{
    for (n, byte) in label.iter().enumerate() {
        if n == bytes.len() || bytes[n] != *byte {
            return Err(n);
        }
    }
    Ok(&bytes[label.len()..])
}

/// As many digits as stand here while their value has one digit more.
fn read_digits(bytes: &[u8]) -> Digits
    ensures within { result.count ≤ length bytes.now }
    ensures all { AllDigits 10 (take result.count bytes.now) }
    ensures value { result.value ≡ digits_value 10 (take result.count bytes.now) }
    ensures most { result.value ≤ MOST_META_NUMBER }
    ensures ends { (MOST_META_NUMBER / 10 < result.value) ⊎ EndsDigits (drop result.count bytes.now) }
{
    let mut value = 0u64;
    for (count, byte) in bytes.iter().enumerate() {
        if value > MOST_META_NUMBER / 10 || *byte < b'0' || *byte > b'9' {
            return Digits { value, count };
        }
        value = value * 10 + u64::from(*byte - b'0');
    }
    Digits {
        value,
        count: bytes.len(),
    }
}

/// The number that stands here, in its one spelling.
fn read_number(bytes: &[u8]) -> Option<Digits>
    ensures within { IfSome result (λ d. d.count ≤ length bytes.now) }
    ensures some { IfSome result (λ d. Numbered bytes.now d.value (drop d.count bytes.now)) }
    ensures none { IfNone result (NoNumber bytes.now) }
{
    if bytes.is_empty() || bytes[0] == b'0' {
        return None;
    }
    let read = read_digits(bytes);
    if read.count == 0 { None } else { Some(read) }
}

/// The number behind the label; where there is none, how many bytes go with a label and a number.
fn read_labelled<'a>(bytes: &'a [u8], label: &[u8]) -> Result<Labelled<'a>, usize>
    ensures ok { IfOk result (λ l. LabelledNumber bytes.now label.now l.value l.rest.now) }
    ensures err { IfErr result (λ n. NoLabelledNumber bytes.now label.now n) }
{
    let rest = match behind(bytes, label) {
        Ok(rest) => rest,
        Err(n) => return Err(n),
    };
    match read_number(rest) {
        Some(read) => Ok(Labelled {
            value: read.value,
            rest: &rest[read.count..],
        }),
        None => Err(label.len()),
    }
}

/// The refusal of a text that goes wrong so many bytes into what is left of it.
fn bad(bytes: &[u8], left: &[u8], more: usize) -> BadMeta
    requires left { length left.now ≤ length bytes.now }
    requires small { length bytes.now + more ≤ length left.now + 52 }
    ensures { result.byte + length left.now ≡ length bytes.now + more }
{
    BadMeta {
        byte: (bytes.len() - left.len() + more) as u32,
    }
}

/// Reads the metadata that is the whole of `bytes`, or names the first byte with which no metadata goes on.
pub fn read_meta(bytes: &[u8]) -> Result<Meta, BadMeta>
    ensures text { IfOk result (λ m. bytes.now ≡ meta_text m) }
    ensures meta { IfOk result (λ m. IsMeta m) }
    ensures bad { IfErr result (λ e. IsBadMeta bytes.now e.byte) }
{
    let size = match read_labelled(bytes, b"umap-sparse 1\nsize ".as_slice()) {
        Ok(size) => size,
        Err(n) => return Err(bad(bytes, bytes, n)),
    };
    let file = match read_labelled(size.rest, b"\nfile ".as_slice()) {
        Ok(file) => file,
        Err(n) => return Err(bad(bytes, size.rest, n)),
    };
    let rest = match behind(file.rest, b"\n".as_slice()) {
        Ok(rest) => rest,
        Err(n) => return Err(bad(bytes, file.rest, n)),
    };
    if !rest.is_empty() {
        return Err(bad(bytes, rest, 0));
    }
    Ok(Meta {
        size: size.value,
        file: file.value,
    })
}

/// Writes a piece of a text behind its first `at` bytes, and answers where it ends.
fn put(out: &mut [u8], at: usize, piece: &[u8]) -> usize
    requires room { at + length piece.now ≤ length out.old }
    ensures end { result ≡ at + length piece.now }
    ensures written { take result out.new ≡ take at out.old ++ piece.now }
    ensures size { length out.new ≡ length out.old }
{
    let end = at + piece.len();
    out[at..end].copy_from_slice(piece);
    end
}

/// Writes the metadata text, and answers how long it is.
pub fn write_meta(meta: Meta, out: &mut [u8; META_ROOM]) -> usize
    requires meta { IsMeta meta }
    ensures text { take result out.new ≡ meta_text meta }
    ensures within { result ≤ META_ROOM }
{
    let mut size = itoa::Buffer::new();
    let mut file = itoa::Buffer::new();
    let mut end = put(out, 0, b"umap-sparse 1\nsize ".as_slice());
    end = put(out, end, size.format(meta.size).as_bytes());
    end = put(out, end, b"\nfile ".as_slice());
    end = put(out, end, file.format(meta.file).as_bytes());
    put(out, end, b"\n".as_slice())
}
