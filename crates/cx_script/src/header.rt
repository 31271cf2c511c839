//! The header of a schedule.

ghost use Rattle.std.specs.Prelude.{◌≡◌, IfOk, option_map};
ghost use Rattle.cx_script.specs.Header.{is_rule, header_and_rest};

use crate::lines::without_return;
use crate::place::is;
use crate::split::{first_part, or_empty};
use cx_base::{MAX_HEADER_LENGTH, NoMemory};
use std::alloc::Global;

const LINE_FEED: u8 = b'\n';

fn is_rule(line: &[u8]) -> bool
    ensures { result ≡ is_rule line.now }
{
    is(line, "---")
}

/// The header's text and the bytes after the line `---` that ends it, or None where there is no such line or the text is
/// longer than 16,384 bytes. The text is the lines before that one, each without a carriage return at its end and with a line
/// feed.
#[tactic(auto, unfolding(crate::specs::Header::header_and_rest))]
pub fn split_header(alloc: Global, bytes: &[u8]) -> Result<Option<(Vec<u8>, &[u8])>, NoMemory>
    ensures { IfOk result
        (λ split. option_map (λ p. (p.0.items, p.1.now)) split ≡ header_and_rest bytes.now) }
{
    let mut header = Vec::new(alloc);
    let mut rest = Some(bytes);
    while let Some(parts) = rest {
        let (part, behind) = first_part(parts, LINE_FEED);
        let line = without_return(part);
        if is_rule(line) {
            return Ok(Some((header, or_empty(behind))));
        }
        header.extend_from_slice(line)?;
        header.push(LINE_FEED)?;
        if header.len() > MAX_HEADER_LENGTH {
            return Ok(None);
        }
        rest = behind;
    }
    Ok(None)
}
