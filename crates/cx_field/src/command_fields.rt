//! The fields of commands, values and replies, read from the start of bytes. The formats are this project's own.

ghost use Rattle.std.specs.Prelude.{◌≡◌, [], ◌∷◌, ◌≤◌, ◌<◌, length, IfOk, IsTrue};
ghost use Rattle.std.specs.List.{list_all};
ghost use Rattle.cx_base.specs.Name.{is_name_byte};
ghost use Rattle.cx_wire.specs.Format as wire;
ghost use Rattle.cx_wire.specs.Format.{◌▷◌};
ghost use Rattle.cx_field.specs.Fields as field;
ghost use Rattle.cx_field.specs.Reading.{Reads, Gives};

use crate::fault::ReadFault;
use crate::fields::seq_from;
use crate::items::list_from;
use crate::lists::CommandItems;
use crate::reader::ByteReader;
use cx_base::{
    Command, Commands, Few, Key, Name, OUTSTANDING, Op, Reply, Text, Value, is_name_byte,
};
use std::alloc::Global;

#[tactic(auto, unfolding(crate::specs::Fields::name_byte))]
fn name_byte_from(reader: &mut ByteReader<'_>) -> Result<u8, ReadFault>
    ensures read { Reads field.name_byte reader.old result reader.new }
    ensures front { IfOk result (λ x. reader.old ≡ x ∷ reader.new) }
    ensures name { IfOk result (λ x. IsTrue (is_name_byte x)) }
{
    let left = reader.left();
    let byte = reader.u8()?;
    if !is_name_byte(byte) {
        return Err(ReadFault::Bad { left });
    }
    Ok(byte)
}

// A floor that is told with a client's number.
#[tactic(auto, unfolding(crate::specs::Fields::floor_below))]
fn floor_below_from(number: u64, reader: &mut ByteReader<'_>) -> Result<u64, ReadFault>
    ensures { Reads (field.floor_below number) reader.old result reader.new }
{
    let left = reader.left();
    let floor = reader.u64()?;
    let below = number.saturating_sub(floor);
    if below < 2 || below > OUTSTANDING {
        return Err(ReadFault::Bad { left });
    }
    Ok(floor)
}

fn key_text_from(reader: &mut ByteReader<'_>) -> Result<(Key, Text), ReadFault>
    ensures { Reads (field.name 32 ▷ field.name 64) reader.old result reader.new }
{
    let key = name_from(reader)?;
    let text = name_from(reader)?;
    Ok((key, text))
}

// An operation of the command with this number, and the floor that is told before its key, if one is.
#[tactic(auto, unfolding(crate::specs::Fields::told_op))]
fn told_op_from(
    floors: bool,
    number: u64,
    reader: &mut ByteReader<'_>,
) -> Result<(Option<u64>, Op), ReadFault>
    ensures { Reads (field.told_op floors number) reader.old result reader.new }
{
    let left = reader.left();
    match reader.u8()? {
        1 => {
            let (key, text) = key_text_from(reader)?;
            Ok((None, Op::Put(key, text)))
        }
        2 => Ok((None, Op::Del(name_from(reader)?))),
        3 => {
            let (key, text) = key_text_from(reader)?;
            Ok((None, Op::App(key, text)))
        }
        4 if floors => {
            let floor = floor_below_from(number, reader)?;
            let (key, text) = key_text_from(reader)?;
            Ok((Some(floor), Op::Put(key, text)))
        }
        5 if floors => {
            let floor = floor_below_from(number, reader)?;
            Ok((Some(floor), Op::Del(name_from(reader)?)))
        }
        6 if floors => {
            let floor = floor_below_from(number, reader)?;
            let (key, text) = key_text_from(reader)?;
            Ok((Some(floor), Op::App(key, text)))
        }
        _ => Err(ReadFault::Bad { left }),
    }
}

/// A key or a text: its length in a byte, 1 to `N`, and its bytes, each one of a name.
#[tactic(auto, unfolding(crate::specs::Fields::name))]
pub fn name_from<const N: usize>(reader: &mut ByteReader<'_>) -> Result<Name<N>, ReadFault>
    ensures { Reads (field.name N) reader.old result reader.new }
{
    let left = reader.left();
    let len = reader.u8()? as usize;
    if len < 1 || len > N {
        return Err(ReadFault::Bad { left });
    }
    let name = name_bytes_from(len, reader)?;
    Ok(Name::new(name))
}

// Whether all bytes are a name's. Each is looked at, whatever the others are, so that many are tested at once.
fn are_name_bytes(bytes: &[u8]) -> bool
    ensures { result ≡ list_all is_name_byte bytes.now }
{
    let mut all = true;
    for byte in bytes {
        all &= is_name_byte(*byte);
    }
    all
}

// The bytes of a name. Where they are refused, the letters one by one tell where the fault lies.
fn name_bytes_from<'a>(count: usize, reader: &mut ByteReader<'a>) -> Result<&'a [u8], ReadFault>
    ensures read { Gives (λ x. x.now) result
        (wire.each_read (λ _. field.name_byte) [] count reader.old) reader.new }
    ensures len { IfOk result (λ x. length x.now ≡ count) }
    ensures names { IfOk result (λ x. IsTrue (list_all is_name_byte x.now)) }
{
    let bytes = reader.bytes();
    if bytes.len() >= count && are_name_bytes(&bytes[..count]) {
        reader.skip(count);
        return Ok(&bytes[..count]);
    }
    for _ in 0..count {
        name_byte_from(reader)?;
    }
    Ok(&bytes[..count])
}

/// A command: its client in two bytes, its number, a byte for its operation (1 put, 2 del, 3 app, with a floor 4 put,
/// 5 del, 6 app), the floor in eight bytes where one is told, and the key and text. A floor that isn't told is the number
/// just below the command's. One that is told is below that, and at most 64 below the command's; a floor may be told only
/// where `floors` says so, else the operations 4 to 6 are out of range.
#[tactic(auto, unfolding(crate::specs::Fields::command_with))]
pub fn command_from(floors: bool, reader: &mut ByteReader<'_>) -> Result<Command, ReadFault>
    ensures { Reads (field.command_with floors) reader.old result reader.new }
{
    let client = reader.u16()?;
    let seq = seq_from(reader)?;
    let (told, op) = told_op_from(floors, seq, reader)?;
    let floor = told.unwrap_or(seq - 1);
    Ok(Command {
        client,
        seq,
        floor,
        op,
    })
}

/// Commands: how many in a byte, 1 to 8, and each, which may tell its floor where `floors` says so.
#[tactic(auto, unfolding(crate::specs::Fields::commands_with))]
pub fn commands_from(
    alloc: Global,
    floors: bool,
    reader: &mut ByteReader<'_>,
) -> Result<Commands, ReadFault>
    ensures { Reads (field.commands_with floors) reader.old result reader.new }
{
    let list = list_from(alloc, &CommandItems { floors }, 1, 8, reader)?;
    Ok(Few::from_vec(list))
}

/// A value: a byte, 0 for none to do or 1 before commands, which may tell their floors where `floors` says so.
#[tactic(auto, unfolding(crate::specs::Fields::value_with))]
pub fn value_from(
    alloc: Global,
    floors: bool,
    reader: &mut ByteReader<'_>,
) -> Result<Value, ReadFault>
    ensures { Reads (field.value_with floors) reader.old result reader.new }
{
    let left = reader.left();
    match reader.u8()? {
        0 => Ok(Value::Noop),
        1 => Ok(Value::Batch(commands_from(alloc, floors, reader)?)),
        _ => Err(ReadFault::Bad { left }),
    }
}

#[tactic(auto, unfolding(crate::specs::Fields::reply_len))]
fn reply_len_from(reader: &mut ByteReader<'_>) -> Result<u8, ReadFault>
    ensures { Reads field.reply_len reader.old result reader.new }
{
    let left = reader.left();
    let len = reader.u8()?;
    if len < 1 || len > 64 {
        return Err(ReadFault::Bad { left });
    }
    Ok(len)
}

/// A reply: a byte, 0 okay, 1 before the text that was, 2 there was none, 3 before a length of 1 to 64, 4 no room.
#[tactic(auto, unfolding(crate::specs::Fields::reply))]
pub fn reply_from(reader: &mut ByteReader<'_>) -> Result<Reply, ReadFault>
    ensures { Reads field.reply reader.old result reader.new }
{
    let left = reader.left();
    match reader.u8()? {
        0 => Ok(Reply::Okay),
        1 => Ok(Reply::Was(name_from(reader)?)),
        2 => Ok(Reply::Absent),
        3 => Ok(Reply::Len(reply_len_from(reader)?)),
        4 => Ok(Reply::Full),
        _ => Err(ReadFault::Bad { left }),
    }
}
