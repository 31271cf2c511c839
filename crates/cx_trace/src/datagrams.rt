//! The lines of datagrams.

ghost use Rattle.std.specs.Prelude.{◌≡◌, ◌++◌, codes, decimal, length, take, OnErr, OnOk};
ghost use Rattle.cx_base.specs.Role.{role_text};
ghost use Rattle.cx_trace.specs.Trace.{datagram_text, head_text, named_text, is_answer_name, client_text_of, told_text};

use crate::pieces::{put, put_hex, put_number, put_role, undo_part};
use crate::replies::{put_answer, put_read};
use cx_base::{NoMemory, RoleId};
use cx_letter::{Datagram, Msg};
use cx_msg::Spelled;
use std::alloc::Global;

/// Appends what a message tells the client that gets it: the line of an answer, and nothing of another kind. An `Err` may
/// append a part.
pub fn put_told(text: &mut Vec<u8>, client: u16, msg: &Msg) -> Result<(), NoMemory>
    ensures ok { OnOk result (text.new.items ≡ text.old.items ++ told_text client msg.now) }
    ensures err { OnErr result (take (length text.old.items) text.new.items ≡ text.old.items) }
{
    match msg {
        Msg::Answer { seq, at, reply } => put_answer(text, client, *seq, *at, reply),
        Msg::ReadAnswer { seq, mark, found } => put_read(text, client, *seq, *mark, found),
        _ => Ok(()),
    }
}

// Whether messages of this name tell the client that gets them something.
fn is_answer_name(name: &str) -> bool
    ensures { result ≡ is_answer_name name.now }
{
    name == "Answer" || name == "ReadAnswer"
}

// What a datagram that was read tells the client that gets it.
fn put_told_of(text: &mut Vec<u8>, datagram: &Datagram) -> Result<(), NoMemory>
    ensures ok { OnOk result (text.new.items ≡ text.old.items ++ client_text_of datagram.now) }
    ensures err { OnErr result (take (length text.old.items) text.new.items ≡ text.old.items) }
{
    put_told(text, datagram.to().index, datagram.msg())
}

// What a datagram tells the client that gets it. Only an answer's body is read.
fn put_told_by(alloc: Global, text: &mut Vec<u8>, spelled: &Spelled<'_>) -> Result<(), NoMemory>
    ensures ok { OnOk result (text.new.items ≡ text.old.items ++ client_text_of spelled.now) }
    ensures err { OnErr result (take (length text.old.items) text.new.items ≡ text.old.items) }
{
    if !is_answer_name(spelled.name()) {
        return Ok(());
    }
    let datagram = spelled.datagram(alloc)?;
    put_told_of(text, &datagram)
}

// A number, as the line of a datagram begins with it.
fn put_numbered(text: &mut Vec<u8>, n: u64) -> Result<(), NoMemory>
    ensures ok { OnOk result
        (text.new.items ≡ text.old.items ++ (codes "+" ++ decimal n ++ codes " ")) }
    ensures err { OnErr result (take (length text.old.items) text.new.items ≡ text.old.items) }
{
    put(text, b"+")?;
    put_number(text, n)?;
    put(text, b" ")
}

// A role, and what separates it from the next word.
fn put_party(text: &mut Vec<u8>, role: RoleId) -> Result<(), NoMemory>
    ensures ok { OnOk result (text.new.items ≡ text.old.items ++ (role_text role ++ codes " ")) }
    ensures err { OnErr result (take (length text.old.items) text.new.items ≡ text.old.items) }
{
    put_role(text, role)?;
    put(text, b" ")
}

// A name, and what separates it from the next word.
fn put_name(text: &mut Vec<u8>, name: &str) -> Result<(), NoMemory>
    ensures ok { OnOk result (text.new.items ≡ text.old.items ++ (name.now ++ codes " ")) }
    ensures err { OnErr result (take (length text.old.items) text.new.items ≡ text.old.items) }
{
    put(text, name.as_bytes())?;
    put(text, b" ")
}

// A number, two roles and a name, as the line of a datagram begins with them.
fn put_named(
    text: &mut Vec<u8>,
    n: u64,
    from: RoleId,
    to: RoleId,
    name: &str,
) -> Result<(), NoMemory>
    ensures ok { OnOk result (text.new.items ≡ text.old.items ++ named_text n from to name.now) }
    ensures err { OnErr result (take (length text.old.items) text.new.items ≡ text.old.items) }
{
    put_numbered(text, n)?;
    put_party(text, from)?;
    put_party(text, to)?;
    put_name(text, name)
}

// The line of a datagram up to its body.
fn put_head(text: &mut Vec<u8>, n: u64, spelled: &Spelled<'_>) -> Result<(), NoMemory>
    ensures ok { OnOk result (text.new.items ≡ text.old.items ++ head_text n spelled.now) }
    ensures err { OnErr result (take (length text.old.items) text.new.items ≡ text.old.items) }
{
    put_named(text, n, spelled.from(), spelled.to(), spelled.name())
}

#[tactic(auto, unfolding(crate::specs::Trace::datagram_text))]
fn put_datagram(
    alloc: Global,
    text: &mut Vec<u8>,
    n: u64,
    spelled: &Spelled<'_>,
) -> Result<(), NoMemory>
    ensures ok { OnOk result (text.new.items ≡ text.old.items ++ datagram_text n spelled.now) }
    ensures err { OnErr result (take (length text.old.items) text.new.items ≡ text.old.items) }
{
    put_head(text, n, spelled)?;
    put_hex(text, spelled.body())?;
    put(text, b"\n")?;
    put_told_by(alloc, text, spelled)
}

/// Appends the line of a datagram (this project's own format): its number, who sends it, who gets it, its name, and its
/// body in lower hexadecimal; after it, where it answers a client, the line of that answer. An `Err` appends nothing.
pub fn datagram_into(
    alloc: Global,
    n: u64,
    spelled: &Spelled<'_>,
    out: &mut Vec<u8>,
) -> Result<(), NoMemory>
    ensures ok { OnOk result (out.new.items ≡ out.old.items ++ datagram_text n spelled.now) }
    ensures err { OnErr result (out.new.items ≡ out.old.items) }
{
    let length = out.len();
    let done = put_datagram(alloc, out, n, spelled);
    undo_part(done, out, length)
}
