//! The lines of the datagrams that were sent.

ghost use Rattle.std.specs.Prelude.{◌≡◌, ◌++◌, OnErr, OnOk, drop, length, slice_get, take};
ghost use Rattle.cx_replay.specs.Sending.{sent_line_text};
ghost use Rattle.cx_trace.specs.Trace.{datagrams_text};

use cx_base::NoMemory;
use cx_history::Sent;
use cx_msg::Spelled;
use cx_trace::datagram_into;
use std::alloc::Global;

// Appends the line of the datagram of a number, and nothing where it wasn't sent.
fn line_into(alloc: Global, sent: &Sent, number: u64, text: &mut Vec<u8>) -> Result<(), NoMemory>
    ensures ok { OnOk result
        (text.new.items ≡ text.old.items ++ sent_line_text number (slice_get sent.now number)) }
    ensures err { OnErr result (text.new.items ≡ text.old.items) }
{
    match sent.spelled(number)? {
        None => Ok(()),
        Some(bytes) => datagram_into(alloc, number, &Spelled::new(bytes.as_slice()), text),
    }
}

/// Appends the lines of the datagrams from a number on. An `Err` may append a part.
pub fn lines_into(
    alloc: Global,
    sent: &Sent,
    first: u64,
    text: &mut Vec<u8>,
) -> Result<(), NoMemory>
    ensures ok { OnOk result
        (text.new.items ≡ text.old.items ++ datagrams_text first (drop first sent.now)) }
    ensures err { OnErr result (take (length text.old.items) text.new.items ≡ text.old.items) }
{
    for number in first..sent.len() {
        line_into(alloc, sent, number, text)?;
    }
    Ok(())
}
