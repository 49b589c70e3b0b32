//! Where a byte of a file stands: its line and its column, and the line itself.
//!
//! The main function is [`spot_of`].
ghost use Rattle.std.specs.Prelude.{◌≡◌, ◌<◌, ◌≤◌, ◌+◌, ◌-◌, ◌↔◌, length, slice_range, IsNone, IfSome};
ghost use Rattle.std.specs.Prelude.{count_by, reverse};
ghost use Rattle.std.specs.List.{position};
ghost use Rattle.xsap_refusals.specs.Lines.{is_feed, feeds_before, since_feed, until_feed, from_feed, to_feed};

/// A place in a file: its line and its column, in bytes, both from 1, and the line without its line feed.
#[derive(Clone, Copy, Debug)]
pub struct FileSpot<'a> {
    pub line: usize,
    pub column: usize,
    pub text: &'a [u8],
}

/// Where a byte stands, the first being 0. The place behind the last byte has a spot too, and one beyond has none.
pub fn spot_of(bytes: &[u8], at: usize) -> Option<FileSpot<'_>>
    ensures beyond { IsNone result ↔ (length bytes.now < at) }
    // The line is by one above the number of line feeds before the place.
    ensures line { IfSome result (λ spot. spot.line ≡ feeds_before bytes.now at + 1) }
    // The column is the distance from the last line feed before the place.
    ensures column { IfSome result (λ spot. spot.column ≡ from_feed bytes.now at + 1) }
    // The line reaches from that line feed to the next one.
    ensures text { IfSome result (λ spot. spot.text.now ≡ slice_range bytes.now (at - from_feed bytes.now at) (at + to_feed bytes.now at)) }
{
    if at > bytes.len() {
        return None;
    }
    let (before, after) = bytes.split_at(at);
    let column = since_feed(before);
    let end = at + until_feed(after);
    Some(FileSpot {
        line: feeds(before) + 1,
        column: column + 1,
        text: &bytes[at - column..end],
    })
}

/// How many line feeds these are.
fn feeds(bytes: &[u8]) -> usize
    ensures value { result ≡ count_by is_feed bytes.now }
    ensures bound { result ≤ length bytes.now }
{
    bytes.iter().filter(|byte| **byte == b'\n').count()
}

/// How many bytes stand behind the last line feed.
fn since_feed(bytes: &[u8]) -> usize
    ensures value { result ≡ since_feed bytes.now }
    ensures bound { result ≤ length bytes.now }
{
    let place = last_feed(bytes);
    place.unwrap_or(bytes.len())
}

/// How many bytes stand before the first line feed.
pub(crate) fn until_feed(bytes: &[u8]) -> usize
    ensures value { result ≡ until_feed bytes.now }
    ensures bound { result ≤ length bytes.now }
{
    let place = first_feed(bytes);
    place.unwrap_or(bytes.len())
}

/// The place of the first line feed, from 0.
fn first_feed(bytes: &[u8]) -> Option<usize>
    ensures value { result ≡ position is_feed bytes.now }
    ensures bound { IfSome result (λ place. place < length bytes.now) }
{
    bytes.iter().position(|byte| *byte == b'\n')
}

/// The place of the last line feed, from 0 at the end.
fn last_feed(bytes: &[u8]) -> Option<usize>
    ensures value { result ≡ position is_feed (reverse bytes.now) }
    ensures bound { IfSome result (λ place. place < length bytes.now) }
{
    bytes.iter().rev().position(|byte| *byte == b'\n')
}
