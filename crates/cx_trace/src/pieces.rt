//! Pieces of text, each put at the end of a text.

ghost use Rattle.std.specs.Prelude.{◌≡◌, ◌<◌, ◌++◌, length, take, OnErr, OnOk, decimal};
ghost use Rattle.cx_base.specs.Role.{role, role_text};
ghost use Rattle.cx_trace.specs.Put.{hex, hex_digit};
ghost use Rattle.cx_trace.specs.Trace.{answered_text, request_text, seq_text};

use cx_base::{Kind, NoMemory, RoleId};
use itoa::Buffer;

/// Appends these bytes. An `Err` appends nothing.
pub fn put(text: &mut Vec<u8>, piece: &[u8]) -> Result<(), NoMemory>
    ensures ok { OnOk result (text.new.items ≡ text.old.items ++ piece.now) }
    ensures err { OnErr result (text.new.items ≡ text.old.items) }
{
    text.extend_from_slice(piece)?;
    Ok(())
}

/// What was put after this many bytes of a text is taken away again when out of memory.
pub fn undo_part(
    put: Result<(), NoMemory>,
    text: &mut Vec<u8>,
    length: usize,
) -> Result<(), NoMemory>
    ensures same { result ≡ put }
    ensures ok { OnOk put (text.new.items ≡ text.old.items) }
    ensures err { OnErr put (text.new.items ≡ take length text.old.items) }
{
    if put.is_err() {
        text.truncate(length);
    }
    put
}

/// Appends a number in decimal. An `Err` leaves what stood there in front.
pub fn put_number(text: &mut Vec<u8>, number: u64) -> Result<(), NoMemory>
    ensures ok { OnOk result (text.new.items ≡ text.old.items ++ decimal number) }
    ensures err { OnErr result (take (length text.old.items) text.new.items ≡ text.old.items) }
{
    let mut buffer = Buffer::new();
    put(text, buffer.format(number).as_bytes())
}

/// Appends the name of a role by its kind and its index, which need not fit a role's: a place in a list. An `Err` leaves
/// what stood there in front.
pub fn put_role_at(text: &mut Vec<u8>, kind: Kind, index: u64) -> Result<(), NoMemory>
    ensures ok { OnOk result (text.new.items ≡ text.old.items ++ role_text (role kind index)) }
    ensures err { OnErr result (take (length text.old.items) text.new.items ≡ text.old.items) }
{
    put(text, kind.text().as_bytes())?;
    put(text, b":")?;
    put_number(text, index)?;
    Ok(())
}

/// Appends the name of a role. An `Err` leaves what stood there in front.
pub fn put_role(text: &mut Vec<u8>, role: RoleId) -> Result<(), NoMemory>
    ensures ok { OnOk result (text.new.items ≡ text.old.items ++ role_text role) }
    ensures err { OnErr result (take (length text.old.items) text.new.items ≡ text.old.items) }
{
    put_role_at(text, role.kind, u64::from(role.index))
}

// A request's number, and the floor that it tells, where that isn't the number before.
#[tactic(auto, unfolding(crate::specs::Trace::seq_text))]
fn put_seq(text: &mut Vec<u8>, seq: u64, floor: u64) -> Result<(), NoMemory>
    ensures ok { OnOk result (text.new.items ≡ text.old.items ++ seq_text seq floor) }
    ensures err { OnErr result (take (length text.old.items) text.new.items ≡ text.old.items) }
{
    put_number(text, seq)?;
    if seq.checked_sub(1) == Some(floor) {
        return Ok(());
    }
    put(text, b"/")?;
    put_number(text, floor)
}

/// Appends who asks, the number of the request, and its floor where that isn't the number before. An `Err` leaves what
/// stood there in front.
#[tactic(auto, unfolding(crate::specs::Trace::request_text))]
pub fn put_request(text: &mut Vec<u8>, client: u16, seq: u64, floor: u64) -> Result<(), NoMemory>
    ensures ok { OnOk result (text.new.items ≡ text.old.items ++ request_text client seq floor) }
    ensures err { OnErr result (take (length text.old.items) text.new.items ≡ text.old.items) }
{
    put_role_at(text, Kind::Client, u64::from(client))?;
    put(text, b" ")?;
    put_seq(text, seq, floor)
}

// The request that an answer is for: whose, and its number.
#[tactic(auto, unfolding(crate::specs::Trace::answered_text))]
pub fn put_answered(text: &mut Vec<u8>, client: u16, seq: u64) -> Result<(), NoMemory>
    ensures ok { OnOk result (text.new.items ≡ text.old.items ++ answered_text client seq) }
    ensures err { OnErr result (take (length text.old.items) text.new.items ≡ text.old.items) }
{
    put_role_at(text, Kind::Client, u64::from(client))?;
    put(text, b" ")?;
    put_number(text, seq)
}

fn hex_digit(half: u8) -> u8
    requires { half < 16 }
    ensures { result ≡ hex_digit half }
{
    if half < 10 {
        b'0' + half
    } else {
        b'a' - 10 + half
    }
}

// Two lower hexadecimal digits for each byte.
pub fn put_hex(text: &mut Vec<u8>, bytes: &[u8]) -> Result<(), NoMemory>
    ensures ok { OnOk result (text.new.items ≡ text.old.items ++ hex bytes.now) }
    ensures err { OnErr result (take (length text.old.items) text.new.items ≡ text.old.items) }
{
    for byte in bytes {
        text.push(hex_digit(*byte / 16))?;
        text.push(hex_digit(*byte % 16))?;
    }
    Ok(())
}
