//! Words between blanks, and the parts of a word round a byte.

ghost use Rattle.std.specs.Prelude.{◌≡◌, ◌==◌, ◌∷◌, ◌<◌, [], false, length, slice_index, position, IfNone, IfSome, not};
ghost use Rattle.std.specs.Option.{option_copied, unwrap_or};
ghost use Rattle.std.specs.List.{before_first, after_first, slice_split};
ghost use Rattle.cx_script.specs.Words.{is_blank, words_of, parts_of};

fn is_blank(byte: u8) -> bool
    ensures { result ≡ is_blank byte }
{
    byte == b' ' || byte == b'\t'
}

fn word_start(line: &[u8]) -> Option<usize>
    ensures { result ≡ position (λ b. not (is_blank b)) line.now }
{
    line.iter().position(|byte| !is_blank(*byte))
}

fn word_end(line: &[u8]) -> Option<usize>
    ensures { result ≡ position is_blank line.now }
{
    line.iter().position(|byte| is_blank(*byte))
}

// A line from its first word on, or None where it has no word.
fn trimmed(line: &[u8]) -> Option<&[u8]>
    ensures none { IfNone result (words_of line.now ≡ []) }
    ensures same { IfSome result (λ from. words_of from.now ≡ words_of line.now) }
    ensures letter { IfSome result (λ from. is_blank (slice_index from.now 0) ≡ false) }
    ensures some { IfSome result (λ from. 0 < length from.now) }
{
    let start = word_start(line)?;
    Some(&line[start..])
}

/// The first word of a line, and what comes after it, or None where the line has no word.
pub fn first_word(line: &[u8]) -> Option<(&[u8], &[u8])>
    ensures none { IfNone result (words_of line.now ≡ []) }
    ensures some { IfSome result (λ p. words_of line.now ≡ p.0.now ∷ words_of p.1.now) }
{
    let from = trimmed(line)?;
    match word_end(from) {
        Some(end) => Some((&from[..end], &from[end..])),
        None => Some((from, &[])),
    }
}

/// Where the first such byte is.
pub fn byte_place(word: &[u8], at: u8) -> Option<usize>
    ensures { result ≡ position (λ b. b == at) word.now }
{
    word.iter().position(|byte| *byte == at)
}

/// What is before the first such byte of a word and what after it: the whole word and nothing where there is none.
pub fn parted(word: &[u8], at: u8) -> (&[u8], &[u8])
    ensures front { result.0.now ≡ before_first (λ b. b == at) word.now }
    ensures back { result.1.now ≡ after_first (λ b. b == at) word.now }
{
    match byte_place(word, at) {
        Some(place) => (&word[..place], &word[place + 1..]),
        None => (word, &[]),
    }
}

/// The first of the parts round such bytes, and what comes after it, or None where there is no such byte.
pub fn first_part(bytes: &[u8], at: u8) -> (&[u8], Option<&[u8]>)
    ensures parts { slice_split (λ b. b == at) bytes.now
        ≡ result.0.now ∷ parts_of at (option_copied result.1) }
    ensures shorter { IfSome result.1 (λ rest. length rest.now < length bytes.now) }
{
    match byte_place(bytes, at) {
        Some(place) => (&bytes[..place], Some(&bytes[place + 1..])),
        None => (bytes, None),
    }
}

/// What is left, or nothing.
pub fn or_empty(rest: Option<&[u8]>) -> &[u8]
    ensures { result.now ≡ unwrap_or (option_copied rest.entry) [] }
{
    rest.unwrap_or(&[])
}
