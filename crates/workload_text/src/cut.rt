//! Cutting: a text into lines at line feeds, a line into fields at spaces, over the input and with
//! no copy of it.
//!
//! A field is looked for when a form asks for it, so a line is walked once, up to where it is refused.
ghost use Rattle.std.specs.Prelude.{◌≡◌, ◌<◌, [], ◌∷◌, length, IfSome, MatchOption, Some, None};
ghost use Rattle.std.specs.List.{slice_split, list_any};
ghost use Rattle.workload_text.specs.Grammar.{is_silent};
ghost use Rattle.workload_text.specs.Reading.{is_line_feed, is_empty, one_of, two_of, three_of, four_of};
ghost use Rattle.workload_text.specs.InsideCuts.{fields_left};

/// The first line and what stands behind its line feed.
pub fn next_line<'a>(text: &'a [u8]) -> Option<(&'a [u8], &'a [u8])>
    ensures shorter { IfSome result (λ l. length l.1.now < length text.now) }
    ensures parts { MatchOption result
        (slice_split is_line_feed text.now ≡ text.now ∷ [])
        (λ l. slice_split is_line_feed text.now ≡ l.0.now ∷ slice_split is_line_feed l.1.now) }
{
    match memchr::memchr(b'\n', text) {
        None => None,
        Some(end) => Some((&text[..end], &text[end + 1..])),
    }
}

/// Whether a line says nothing.
pub fn is_silent(line: &[u8]) -> bool
    ensures { result ≡ is_silent line.now }
{
    line.len() == 0 || line[0] == b'#'
}

/// The first field of what is left of a line, and what is left behind it.
pub fn next_field<'a>(left: Option<&'a [u8]>) -> Option<(&'a [u8], Option<&'a [u8]>)>
    ensures { MatchOption result
        (fields_left left.entry ≡ [])
        (λ f. fields_left left.entry ≡ f.0.now ∷ fields_left f.1) }
{
    let text = left?;
    match memchr::memchr(b' ', text) {
        Some(end) => Some((&text[..end], Some(&text[end + 1..]))),
        None => Some((text, None)),
    }
}

/// The one field that is left, which isn't empty.
pub fn one<'a>(left: Option<&'a [u8]>) -> Option<&'a [u8]>
    ensures { MatchOption result
        (one_of (fields_left left.entry) ≡ None)
        (λ f. one_of (fields_left left.entry) ≡ Some f.now) }
{
    let (a, left) = next_field(left)?;
    match next_field(left) {
        Some(_) => None,
        None => if a.is_empty() { None } else { Some(a) },
    }
}

/// The two fields that are left, none of them empty.
pub fn two<'a>(left: Option<&'a [u8]>) -> Option<(&'a [u8], &'a [u8])>
    ensures { MatchOption result
        (two_of (fields_left left.entry) ≡ None)
        (λ f. two_of (fields_left left.entry) ≡ Some (f.0.now, f.1.now)) }
{
    let (a, left) = next_field(left)?;
    let (b, left) = next_field(left)?;
    match next_field(left) {
        Some(_) => None,
        None => if a.is_empty() || b.is_empty() {
            None
        } else {
            Some((a, b))
        },
    }
}

/// The three fields that are left, none of them empty.
pub fn three<'a>(left: Option<&'a [u8]>) -> Option<(&'a [u8], &'a [u8], &'a [u8])>
    ensures { MatchOption result
        (three_of (fields_left left.entry) ≡ None)
        (λ f. three_of (fields_left left.entry) ≡ Some (f.0.now, f.1.now, f.2.now)) }
{
    let (a, left) = next_field(left)?;
    let (b, left) = next_field(left)?;
    let (c, left) = next_field(left)?;
    match next_field(left) {
        Some(_) => None,
        None => if a.is_empty() || b.is_empty() || c.is_empty() {
            None
        } else {
            Some((a, b, c))
        },
    }
}

/// The four fields that are left, none of them empty.
pub fn four<'a>(left: Option<&'a [u8]>) -> Option<(&'a [u8], &'a [u8], &'a [u8], &'a [u8])>
    ensures { MatchOption result
        (four_of (fields_left left.entry) ≡ None)
        (λ f. four_of (fields_left left.entry) ≡ Some (f.0.now, f.1.now, f.2.now, f.3.now)) }
{
    let (a, left) = next_field(left)?;
    let (b, left) = next_field(left)?;
    let (c, left) = next_field(left)?;
    let (d, left) = next_field(left)?;
    match next_field(left) {
        Some(_) => None,
        None => if a.is_empty() || b.is_empty() || c.is_empty() || d.is_empty() {
            None
        } else {
            Some((a, b, c, d))
        },
    }
}

/// Whether one of the fields that are left is empty.
pub fn has_empty_field(left: Option<&[u8]>) -> bool
    ensures { result ≡ list_any is_empty (fields_left left.entry) }
{
    match left {
        None => false,
        Some(text) => text.split(|c| *c == b' ').any(|field| field.is_empty()),
    }
}
