//! What counts of bytes after which others may come.

ghost use Rattle.std.specs.Prelude.{◌≡◌, ◌≤◌, ◌==◌, drop, length, position, take};
ghost use Rattle.cx_script.specs.Unended.{settled_text, is_long_header, unended, whole_lines};

use crate::lines::{first_line, without_return};
use crate::split::byte_place;
use cx_base::MAX_HEADER_LENGTH;

const LINE_FEED: u8 = b'\n';

// How far after the start the next line feed is.
fn feed_from(bytes: &[u8], start: usize) -> Option<usize>
    requires { start ≤ length bytes.now }
    ensures { result ≡ position (λ b. b == 10) (drop start bytes.now) }
{
    byte_place(&bytes[start..], LINE_FEED)
}

// How many bytes the whole lines have.
fn whole_length(bytes: &[u8]) -> usize
    ensures within { result ≤ length bytes.now }
    ensures whole { take result bytes.now ≡ whole_lines bytes.now }
    ensures last { drop result bytes.now ≡ unended bytes.now }
{
    let mut start = 0;
    while let Some(place) = feed_from(bytes, start) {
        start += place + 1;
    }
    start
}

/// What counts of bytes after which others may come, where a line has at most `most` bytes: the whole lines, which are ended
/// by a line feed, and the last one too where it is longer already.
#[tactic(auto, unfolding(crate::specs::Unended::settled_text))]
pub fn settled_text(bytes: &[u8], most: usize) -> &[u8]
    ensures { result.now ≡ settled_text most bytes.now }
{
    let (whole, last) = bytes.split_at(whole_length(bytes));
    if without_return(last).len() > most {
        bytes
    } else {
        whole
    }
}

/// Whether the lines of a header that hasn't ended have more than 16,384 bytes, each with a line feed in place of a carriage
/// return and a line feed.
#[tactic(auto, unfolding(crate::specs::Unended::is_long_header))]
pub fn is_long_header(bytes: &[u8]) -> bool
    ensures { result ≡ is_long_header bytes.now }
{
    let mut rest = bytes;
    let mut room = MAX_HEADER_LENGTH;
    while let Some((line, behind)) = first_line(rest) {
        if line.len() >= room {
            return true;
        }
        room -= line.len() + 1;
        rest = behind;
    }
    false
}
