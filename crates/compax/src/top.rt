//! All that the program does, over what it is handed.

ghost use Rattle.std.specs.Prelude.{◌≡◌, [], map, string_bytes};
ghost use Rattle.cx_edge.specs.Sink.{SaysText};
ghost use Rattle.cx_node.specs.Serving.{outside};
ghost use Rattle.compax.specs.Answer.{IsTopAnswer, IsLawfulAnswer};
ghost use Rattle.compax.specs.Line.{line_of};
ghost use Rattle.compax.specs.Words.{said};

use crate::line::write_line;
use crate::words::{Invocation, said};
use cx_base::Status;
use cx_edge::{Depot, Link, Sink, Source};
use cx_node::serve;
use cx_replay::{replay, run_gen};
use std::alloc::{AllocError, Global};

// Does what the words say.
fn answer<S: Source, W: Sink, L: Link, D: Depot>(
    alloc: Global,
    words: &[String],
    input: &mut S,
    out: &mut W,
    link: &mut L,
    depot: &mut D,
) -> Status
    requires lent { D.out depot.old ≡ [] }
    ensures answered { IsTopAnswer (said (map string_bytes words.now))
        (outside S.Source L.Link D.Depot W.Sink input.old link.old depot.old out.old)
        (outside S.Source L.Link D.Depot W.Sink input.new link.new depot.new out.new) result }
    ensures given_back { D.out depot.new ≡ [] }
{
    let invocation = match said(alloc, words) {
        Ok(Some(invocation)) => invocation,
        Ok(None) => return Status::BadWords,
        Err(AllocError) => return Status::NoMemory,
    };
    match invocation {
        Invocation::Replay => replay(alloc, input, out),
        Invocation::Generate { seed, count } => run_gen(alloc, seed, u64::from(count), out),
        Invocation::Node {
            turns,
            tend,
            window,
            recording,
            roles,
        } => serve(
            alloc,
            roles.as_slice(),
            turns,
            tend,
            window,
            recording,
            input,
            link,
            depot,
            out,
        ),
    }
}

/// Does what the words say, the first of which is the program's name: `replay` reads a schedule from the source, and writes the
/// trace and the summary of its run to `out`; `gen SEED COUNT` runs COUNT events that are made from a seed, and writes a
/// short summary; `node --turns N --tend N --window W ROLE..` hosts these roles over the link and the depot, with the requests
/// of the source, and writes the answers, or with `--record` its run as a schedule. The line of the status goes to `err`, whose
/// failing never changes the status.
///
/// `BadWords` comes exactly where the words say none of these, and then nothing is read or written, and where a role of a node
/// isn't in the cluster of its header, or a node is to record and lacks a role of that cluster. Every other status is the
/// command's own, and out of memory. The run of a schedule is lawful: no slot has two chosen values, each replica's values begin
/// one command list, every answer is that list's, and reads are fresh. A role or a port that is bound already is a fault of the
/// link. The depot must have no store out, and has none out at the end.
pub fn top<S: Source, W: Sink, E: Sink, L: Link, D: Depot>(
    alloc: Global,
    words: &[String],
    input: &mut S,
    out: &mut W,
    err: &mut E,
    link: &mut L,
    depot: &mut D,
) -> Status
    requires lent { D.out depot.old ≡ [] }
    ensures answered { IsTopAnswer (said (map string_bytes words.now))
        (outside S.Source L.Link D.Depot W.Sink input.old link.old depot.old out.old)
        (outside S.Source L.Link D.Depot W.Sink input.new link.new depot.new out.new) result }
    ensures given_back { D.out depot.new ≡ [] }
    ensures lawful { IsLawfulAnswer (said (map string_bytes words.now)) (S.left input.old)
        (S.left input.new) }
    ensures line { SaysText (E.taken err.old) (E.taken err.new) (E.faults err.old)
        (E.faults err.new) (line_of result) }
{
    let status = answer(alloc, words, input, out, link, depot);
    write_line(err, &status);
    status
}
