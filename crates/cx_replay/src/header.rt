//! The header of an input is read, line by line.

ghost use Rattle.std.specs.Prelude.{◌≡◌, ◌∷◌, ◌++◌, [], OnOk};
ghost use Rattle.cx_base.specs.Faults.{Rises};
ghost use Rattle.cx_replay.specs.declared.header.HeaderEnd.TheVariants as end;
ghost use Rattle.cx_replay.specs.Streamed.{Joins, ReadsHeader};
ghost use Rattle.cx_script.specs.Header.{is_rule};

use cx_base::{MAX_HEADER_LENGTH, NoMemory};
use cx_edge::{Lines, Next, Source};

/// The result of reading a header.
#[derive(Clone, Copy)]
pub enum HeaderEnd {
    /// The line that ends it was read.
    Whole,
    /// So it was, and nothing comes after it.
    Alone,
    /// It is too long, or the input ended before that line.
    Bad,
    /// A read failed before.
    Failed,
    NoMemory,
}

// What a line of a header is.
#[derive(Clone, Copy)]
enum Joined {
    // The one that ends it.
    Rule,
    // Another one, which is put after those before.
    Line,
    // So it is, and the header is too long.
    Long,
    NoMemory,
}

fn is_rule(line: &[u8]) -> bool
    ensures { result ≡ is_rule line.now }
{
    line == "---".as_bytes()
}

// Puts a line with a line feed at the end of a text.
fn put_line(text: &mut Vec<u8>, line: &[u8]) -> Result<(), NoMemory>
    ensures { OnOk result (text.new.items ≡ text.old.items ++ (line.now ++ 10 ∷ [])) }
{
    text.extend_from_slice(line)?;
    text.push(b'\n')?;
    Ok(())
}

fn join(text: &mut Vec<u8>, line: &[u8]) -> Joined
    ensures { Joins line.now text.old.items text.new.items result }
{
    if is_rule(line) {
        return Joined::Rule;
    }
    match put_line(text, line) {
        Ok(()) if text.len() > MAX_HEADER_LENGTH => Joined::Long,
        Ok(()) => Joined::Line,
        Err(NoMemory) => Joined::NoMemory,
    }
}

/// Reads the lines of a header up to the one that ends it, and puts each of them with a line feed after the others.
pub fn read_header<S: Source>(lines: &mut Lines, input: &mut S, text: &mut Vec<u8>) -> HeaderEnd
    requires none_buffered { lines.old.buffered ≡ [] }
    requires no_text { text.old.items ≡ [] }
    ensures reads { ReadsHeader (S.left input.old) (S.left input.new) lines.new.buffered
        text.new.items result }
    ensures cause { result ≡ end.Failed → Rises (S.faults input.old) (S.faults input.new) }
    ensures still { (result ≡ end.Failed → ⊥) → S.faults input.new ≡ S.faults input.old }
{
    loop {
        match lines.next(input, MAX_HEADER_LENGTH) {
            Next::Line => match join(text, lines.text()) {
                Joined::Rule => return HeaderEnd::Whole,
                Joined::Line => {}
                Joined::Long => return HeaderEnd::Bad,
                Joined::NoMemory => return HeaderEnd::NoMemory,
            },
            Next::Last => {
                let last = lines.text();
                if is_rule(last) {
                    return HeaderEnd::Alone;
                }
                return HeaderEnd::Bad;
            }
            Next::End => return HeaderEnd::Bad,
            Next::Long => return HeaderEnd::Bad,
            Next::Failed => return HeaderEnd::Failed,
        }
    }
}
