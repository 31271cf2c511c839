//! An input is checked, and what is wrong with it is said.

ghost use Rattle.std.specs.Prelude.{◌≡◌, IfOk};
ghost use Rattle.cx_edge.specs.Sink.{SaysText};
ghost use Rattle.cx_explain.specs.Checking.{Checks, SaysFinding};
ghost use Rattle.cx_explain.specs.Saying.{finding_text};

use crate::finding::Finding;
use crate::judging::{Unjudged, read_finding};
use crate::saying::put_finding;
use cx_base::{NoMemory, Status};
use cx_edge::{Sink, Source, write_all};
use std::alloc::Global;

// The line of a finding.
fn line_of(alloc: Global, name: &[u8], finding: &Finding) -> Result<Vec<u8>, NoMemory>
    ensures { IfOk result (λ text. text.items ≡ finding_text name.now finding.now) }
{
    let mut text = Vec::new(alloc);
    put_finding(alloc, &mut text, name, finding)?;
    Ok(text)
}

fn say<E: Sink>(err: &mut E, text: &[u8])
    ensures { SaysText (E.taken err.old) (E.taken err.new) (E.faults err.old)
        (E.faults err.new) text.now }
{
    let _written = write_all(err, text);
}

// Says what was found.
fn say_finding<E: Sink>(alloc: Global, name: &[u8], finding: &Finding, err: &mut E) -> Status
    ensures { SaysFinding name.now finding.now (E.taken err.old) (E.taken err.new)
        (E.faults err.old) (E.faults err.new) result }
{
    match line_of(alloc, name, finding) {
        Ok(text) => {
            say(err, &text);
            Status::BadInput {
                line: finding.number(),
            }
        }
        Err(NoMemory) => Status::NoMemory,
    }
}

/// Reads an input to its end, which a node gets, or a replay, and writes what is wrong with it to `err`, whose failing
/// never changes the status: the first bad line in the file of this name, as `FILE:LINE:COLUMN: ` and the rule that is
/// broken. Nothing is written where no line is bad (`Done`), a read failed or memory ran out.
///
/// The bad line is that of a replay, or of a node. Of an input that is longer than any good one the first 68,000,000 bytes
/// are looked at.
pub fn check<S: Source, E: Sink>(
    alloc: Global,
    node: bool,
    name: &[u8],
    source: &mut S,
    err: &mut E,
) -> Status
    ensures { Checks node name.now (S.left source.old) (S.left source.new) (E.taken err.old)
        (E.taken err.new) (E.faults err.old) (E.faults err.new) result }
{
    match read_finding(alloc, node, source) {
        Ok(Some(finding)) => say_finding(alloc, name, &finding, err),
        Ok(None) => Status::Done,
        Err(Unjudged::ReadFault) => Status::ReadFault,
        Err(Unjudged::NoMemory) => Status::NoMemory,
    }
}
