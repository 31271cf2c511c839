//! What commands, reads and sessions are answered, as text.

ghost use Rattle.std.specs.Prelude.{◌≡◌, ◌++◌, length, take, OnErr, OnOk};
ghost use Rattle.cx_trace.specs.Reply.{reply_text, found_text};
ghost use Rattle.cx_trace.specs.Trace.{answer_line, read_line};

use crate::pieces::{put, put_answered, put_number};
use cx_base::{NoMemory, Reply, Text};

fn put_reply(text: &mut Vec<u8>, reply: &Reply) -> Result<(), NoMemory>
    ensures ok { OnOk result (text.new.items ≡ text.old.items ++ reply_text reply.now) }
    ensures err { OnErr result (take (length text.old.items) text.new.items ≡ text.old.items) }
{
    match reply {
        Reply::Okay => put(text, b"ok"),
        Reply::Was(old) => {
            put(text, b"was ")?;
            put(text, old.as_bytes())
        }
        Reply::Absent => put(text, b"none"),
        Reply::Len(length) => {
            put(text, b"len ")?;
            put_number(text, u64::from(*length))
        }
        Reply::Full => put(text, b"full"),
    }
}

fn put_found(text: &mut Vec<u8>, found: &Option<Text>) -> Result<(), NoMemory>
    ensures ok { OnOk result (text.new.items ≡ text.old.items ++ found_text found.now) }
    ensures err { OnErr result (take (length text.old.items) text.new.items ≡ text.old.items) }
{
    match found {
        None => put(text, b"none"),
        Some(value) => {
            put(text, b"is ")?;
            put(text, value.as_bytes())
        }
    }
}

// The line of a client's answer.
#[tactic(auto, unfolding(crate::specs::Trace::answer_line))]
pub fn put_answer(
    text: &mut Vec<u8>,
    client: u16,
    seq: u64,
    at: u64,
    reply: &Reply,
) -> Result<(), NoMemory>
    ensures ok { OnOk result
        (text.new.items ≡ text.old.items ++ answer_line client seq at (reply_text reply.now)) }
    ensures err { OnErr result (take (length text.old.items) text.new.items ≡ text.old.items) }
{
    put(text, b"answer ")?;
    put_answered(text, client, seq)?;
    put(text, b" at ")?;
    put_number(text, at)?;
    put(text, b" ")?;
    put_reply(text, reply)?;
    put(text, b"\n")
}

// The line of what a client's read or session found.
#[tactic(auto, unfolding(crate::specs::Trace::read_line))]
pub fn put_read(
    text: &mut Vec<u8>,
    client: u16,
    seq: u64,
    mark: u64,
    found: &Option<Text>,
) -> Result<(), NoMemory>
    ensures ok { OnOk result
        (text.new.items ≡ text.old.items ++ read_line client seq mark (found_text found.now)) }
    ensures err { OnErr result (take (length text.old.items) text.new.items ≡ text.old.items) }
{
    put(text, b"read ")?;
    put_answered(text, client, seq)?;
    put(text, b" at ")?;
    put_number(text, mark)?;
    put(text, b" ")?;
    put_found(text, found)?;
    put(text, b"\n")
}
