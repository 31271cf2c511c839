//! The lines of a text.

ghost use Rattle.std.specs.Prelude.{◌≡◌, ◌∷◌, ◌<◌, ◌≤◌, ◌==◌, [], length, position, IfNone, IfSome, get_or};
ghost use Rattle.std.specs.List.{slice_split};
ghost use Rattle.std.specs.Option.{option_copied, unwrap_or};
ghost use Rattle.std.specs.Str.Lines.{strip_carriage_return};
ghost use Rattle.cx_script.specs.Lines.{lines_of};
ghost use Rattle.cx_script.specs.Words.{parts_of};

const LINE_FEED: u8 = b'\n';

fn without_return(part: &[u8]) -> &[u8]
    ensures { result.now ≡ strip_carriage_return part.now }
{
    match part {
        [line @ .., b'\r'] => line,
        _ => part,
    }
}

fn feed_place(bytes: &[u8]) -> Option<usize>
    ensures { result ≡ position (λ b. b == 10) bytes.now }
{
    bytes.iter().position(|byte| *byte == LINE_FEED)
}

// What is before the first line feed, and what after it, or None where there is none.
fn first_part(bytes: &[u8]) -> (&[u8], Option<&[u8]>)
    ensures parts { slice_split (λ b. b == 10) bytes.now
        ≡ result.0.now ∷ parts_of 10 (option_copied result.1) }
    ensures shorter { IfSome result.1 (λ rest. length rest.now < length bytes.now) }
{
    match feed_place(bytes) {
        Some(place) => (&bytes[..place], Some(&bytes[place + 1..])),
        None => (bytes, None),
    }
}

fn or_empty(rest: Option<&[u8]>) -> &[u8]
    ensures { result.now ≡ unwrap_or (option_copied rest.entry) [] }
{
    rest.unwrap_or(&[])
}

/// The first line of a text, and what comes after it, or None at the end.
pub fn next_line(bytes: &[u8]) -> Option<(&[u8], &[u8])>
    ensures none { IfNone result (lines_of bytes.now ≡ []) }
    ensures some { IfSome result (λ p. lines_of bytes.now ≡ p.0.now ∷ lines_of p.1.now) }
    ensures shorter { IfSome result (λ p. length p.1.now < length bytes.now) }
{
    if bytes.is_empty() {
        return None;
    }
    let (part, behind) = first_part(bytes);
    Some((without_return(part), or_empty(behind)))
}

/// How many lines a text has.
pub fn count_lines(bytes: &[u8]) -> u64
    ensures lines { result ≡ length (lines_of bytes.now) }
    ensures inside { result ≤ length bytes.now }
{
    let mut rest = bytes;
    let mut count = 0;
    while let Some((_, behind)) = next_line(rest) {
        count += 1;
        rest = behind;
    }
    count
}

/// The line of a text at a place, counted from 0; an empty one behind its end.
pub fn line_at(bytes: &[u8], place: u64) -> &[u8]
    ensures { result.now ≡ get_or (lines_of bytes.now) place [] }
{
    let mut rest = bytes;
    let mut left = place;
    while let Some((line, behind)) = next_line(rest) {
        if left == 0 {
            return line;
        }
        left -= 1;
        rest = behind;
    }
    &[]
}
