//! Whether two operations, commands or values are the same.

ghost use Rattle.std.specs.Prelude.{◌≡◌};
ghost use Rattle.cx_base.specs.Same.{same_op, same_command, same_commands, same_value};

use crate::command::{Command, Op, Value};

/// Whether two operations are the same.
pub fn same_op(a: &Op, b: &Op) -> bool
    ensures { result ≡ same_op a.now b.now }
{
    match (a, b) {
        (Op::Put(key, text), Op::Put(other, more)) => key == other && text == more,
        (Op::Del(key), Op::Del(other)) => key == other,
        (Op::App(key, text), Op::App(other, more)) => key == other && text == more,
        _ => false,
    }
}

/// Whether two commands are the same.
pub fn same_command(a: &Command, b: &Command) -> bool
    ensures { result ≡ same_command a.now b.now }
{
    a.client == b.client && a.seq == b.seq && a.floor == b.floor && same_op(&a.op, &b.op)
}

fn same_commands(a: &[Command], b: &[Command]) -> bool
    ensures { result ≡ same_commands a.now b.now }
{
    match a {
        [] => match b {
            [] => true,
            [_, ..] => false,
        },
        [first, rest @ ..] => match b {
            [] => false,
            [other, more @ ..] => same_command(first, other) && same_commands(rest, more),
        },
    }
}

/// Whether two values are the same.
pub fn same_value(a: &Value, b: &Value) -> bool
    ensures { result ≡ same_value a.now b.now }
{
    match (a, b) {
        (Value::Noop, Value::Noop) => true,
        (Value::Batch(commands), Value::Batch(others)) => {
            same_commands(commands.as_slice(), others.as_slice())
        }
        _ => false,
    }
}
