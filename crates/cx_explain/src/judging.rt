//! An input is read and judged.

ghost use Rattle.std.specs.Prelude.{◌≡◌, Err, IfOk, None, Ok};
ghost use Rattle.cx_base.specs.Faults.{Rises};
ghost use Rattle.cx_edge.specs.Source.{GetsAll};
ghost use Rattle.cx_explain.specs.Finding.{FindingState, found_of};
ghost use Rattle.cx_explain.specs.Judging.{ReadsFinding};

use crate::finding::{Finding, explain};
use cx_base::NoMemory;
use cx_edge::{ReadAll, Source, read_all};
use std::alloc::Global;

// More bytes than an input has none of whose lines is bad.
const LIMIT: usize = 68_000_000;

/// Why nothing is known of an input.
#[derive(Clone, Copy, Debug, PartialEq, Eq)]
pub enum Unjudged {
    /// A read failed, or it is longer than any good input, and no line of what was read is bad.
    ReadFault,
    NoMemory,
}

fn explained(alloc: Global, node: bool, bytes: &[u8]) -> Result<Option<Finding>, Unjudged>
    ensures { IfOk result (λ found. found ≡ found_of node bytes.now) }
{
    match explain(alloc, node, bytes) {
        Ok(found) => Ok(found),
        Err(NoMemory) => Err(Unjudged::NoMemory),
    }
}

// What is found of the beginning of an input that is too long to be good.
fn explained_part(alloc: Global, node: bool, bytes: &[u8]) -> Result<Finding, Unjudged>
    ensures { IfOk result (λ found. found_of node bytes.now ≡ Some found) }
{
    match explained(alloc, node, bytes)? {
        Some(finding) => Ok(finding),
        None => Err(Unjudged::ReadFault),
    }
}

/// Reads an input to its end, and finds what is wrong with it for a node, or for a replay. Of one that is longer than any
/// good input the first 68,000,000 bytes are judged.
pub fn read_finding<S: Source>(
    alloc: Global,
    node: bool,
    source: &mut S,
) -> Result<Option<Finding>, Unjudged>
    ensures { ReadsFinding node (S.left source.old) (S.left source.new) result }
{
    match read_all(alloc, source, LIMIT) {
        ReadAll::Whole(bytes) => explained(alloc, node, &bytes),
        ReadAll::TooLong(bytes) => match explained_part(alloc, node, &bytes) {
            Ok(finding) => Ok(Some(finding)),
            Err(why) => Err(why),
        },
        ReadAll::Failed(_) => Err(Unjudged::ReadFault),
        ReadAll::NoMemory => Err(Unjudged::NoMemory),
    }
}
