//! Values as the log holds them: a batch of one short command in place, and no vector for it.

ghost use Rattle.std.specs.Prelude.{◌≡◌, ◌+◌, ◌++◌, ◌∷◌, [], ◌≤◌, length, take, IfOk, vec_capacity, vec_len};
ghost use Rattle.std.specs.Option.{IfSome};
ghost use Rattle.cx_base.specs.Name.{IsName};
ghost use Rattle.cx_base.specs.declared.command.Value.TheVariants.{Batch};
ghost use Rattle.cx_rlog.specs.Short.{HasText, command_of};

use cx_base::{Command, Commands, Duplicate, Few, Key, NoMemory, Op, Text, Value, copy_all};
use std::alloc::Global;
use std::marker::Model;
use std::mem::size_of;

/// How many bytes a short command's key and text have together at most.
const ROOM: usize = 19;

/// What a command does.
#[derive(Clone, Copy)]
pub enum Verb {
    Put,
    Del,
    App,
}

/// A command whose key and text are short, and whose floor is the number before its own.
#[derive(Drop)]
pub struct ShortCommand {
    seq: u64,
    client: u16,
    verb: Verb,
    // How many bytes the key has, and how many there are with the text's.
    key: u8,
    end: u8,
    // The key's bytes and then the text's.
    bytes: [u8; ROOM],
}

impl Model for ShortCommand {
    ghost use Rattle.std.specs.Prelude.{take};
    ghost use Rattle.cx_base.specs.declared.command.Command.{Command};
    ghost use Rattle.cx_rlog.specs.Short.{IsShortCommand, command_of};

    ghost Value = { Command };

    ghost view = { λ s. command_of s.client s.seq s.verb s.key (take s.end s.bytes) };

    ghost invariant = { λ s. IsShortCommand s.verb s.key s.end s.bytes };
}

/// Writes one list and then the other at the front of a longer one.
fn lay(bytes: &mut [u8], one: &[u8], other: &[u8])
    requires { length one.now + length other.now ≤ length bytes.old }
    ensures taken { take (length one.now + length other.now) bytes.new ≡ one.now ++ other.now }
    ensures length { length bytes.new ≡ length bytes.old }
{
    let (front, rest) = bytes.split_at_mut(one.len());
    front.copy_from_slice(one);
    rest[..other.len()].copy_from_slice(other);
}

impl ShortCommand {
    /// The command with these parts, where it is short.
    fn of(client: u16, seq: u64, verb: Verb, key: &[u8], text: &[u8]) -> Option<Self>
        requires key { IsName 32 key.now }
        requires text { HasText verb text.now }
        ensures { IfSome result
            (λ short. short ≡ command_of client seq verb (length key.now) (key.now ++ text.now)) }
    {
        let end = key.len() + text.len();
        if end > ROOM {
            return None;
        }
        let mut bytes = [0; ROOM];
        lay(&mut bytes, key, text);
        Some(ShortCommand {
            seq,
            client,
            verb,
            key: key.len() as u8,
            end: end as u8,
            bytes,
        })
    }

    /// The command in place, where it is short.
    fn from_command(command: &Command) -> Option<Self>
        ensures { IfSome result (λ short. short ≡ command.now) }
    {
        let client = command.client;
        let seq = command.seq;
        if command.floor.checked_add(1) != Some(seq) {
            return None;
        }
        match &command.op {
            Op::Put(key, text) => {
                ShortCommand::of(client, seq, Verb::Put, key.as_bytes(), text.as_bytes())
            }
            Op::Del(key) => ShortCommand::of(client, seq, Verb::Del, key.as_bytes(), &[]),
            Op::App(key, text) => {
                ShortCommand::of(client, seq, Verb::App, key.as_bytes(), text.as_bytes())
            }
        }
    }

    /// The command.
    fn command(&self) -> Command
        ensures { result ≡ self.now }
    {
        let all = &self.bytes[..self.end as usize];
        let key = Key::new(&all[..self.key as usize]);
        let text = &all[self.key as usize..];
        let op = match self.verb {
            Verb::Put => Op::Put(key, Text::new(text)),
            Verb::Del => Op::Del(key),
            Verb::App => Op::App(key, Text::new(text)),
        };
        Command {
            client: self.client,
            seq: self.seq,
            floor: self.seq.saturating_sub(1),
            op,
        }
    }
}

/// How a value is held.
#[derive(Drop)]
pub enum Form {
    Noop,
    Short(ShortCommand),
    Long(Commands),
}

/// A value as the log holds it.
#[derive(Drop)]
pub struct Packed {
    form: Form,
}

impl Model for Packed {
    ghost use Rattle.cx_base.specs.declared.command.Value.{Value as Held};
    ghost use Rattle.cx_rlog.specs.Packed.{value_of};

    ghost Value = { Held };

    ghost view = { λ p. value_of p.form };
}

// As many bytes as a value itself has, beside its vector.

// A value in place is no larger than a long one's vector asks for.
const _: () = prove!(size_of::<Packed>() == 40);

/// The one command of a value, where it has one and that is short.
fn only_short(value: &Value) -> Option<ShortCommand>
    ensures { IfSome result (λ short. value.now ≡ Batch (short ∷ [])) }
{
    match value {
        Value::Noop => None,
        Value::Batch(commands) => match commands.as_slice() {
            [command] => ShortCommand::from_command(command),
            _ => None,
        },
    }
}

impl Packed {
    /// A value, held in as few bytes as it needs.
    pub fn hold(value: Value) -> Self
        ensures { result ≡ value }
    {
        if let Some(short) = only_short(&value) {
            return Packed {
                form: Form::Short(short),
            };
        }
        match value {
            Value::Noop => Packed { form: Form::Noop },
            Value::Batch(commands) => Packed {
                form: Form::Long(commands),
            },
        }
    }

    /// The value.
    pub fn value(&self, alloc: Global) -> Result<Value, NoMemory>
        ensures { IfOk result (λ value. value ≡ self.now) }
    {
        match &self.form {
            Form::Noop => Ok(Value::Noop),
            Form::Short(short) => {
                let commands = copy_all(alloc, &[short.command()])?;
                Ok(Value::Batch(Few::from_vec(commands)))
            }
            Form::Long(commands) => Ok(Value::Batch(commands.copy(alloc)?)),
        }
    }
}

impl Duplicate for Packed {
    fn copy(&self, alloc: Global) -> Result<Self, NoMemory> {
        Ok(Packed::hold(self.value(alloc)?))
    }
}

/// Holds values after those that are held.
pub fn hold_all(list: &mut Vec<Packed>, values: Vec<Value>)
    requires { vec_len list.old + vec_len values ≤ vec_capacity list.old }
    ensures items { list.new.items ≡ list.old.items ++ values.items }
    ensures len { vec_len list.new ≡ vec_len list.old + vec_len values }
    ensures capacity { vec_capacity list.new ≡ vec_capacity list.old }
{
    for value in values {
        list.push_reserved(Packed::hold(value));
    }
}

/// Copies of values, held in the same order.
pub fn hold_copies(alloc: Global, values: &[Value]) -> Result<Vec<Packed>, NoMemory>
    ensures { IfOk result (λ list. list.items ≡ values.now) }
{
    let mut list = Vec::with_capacity(alloc, values.len())?;
    for value in values {
        list.push(Packed::hold(value.copy(alloc)?))?;
    }
    Ok(list)
}
