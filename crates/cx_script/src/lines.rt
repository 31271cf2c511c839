//! The lines after a header, and their events.

ghost use Rattle.std.specs.Prelude.{◌≡◌, ◌∷◌, ◌++◌, ◌<◌, [], length, IfOk, IfNone, IfSome, OnOk, option_to_list};
ghost use Rattle.std.specs.Str.Lines.{strip_carriage_return};
ghost use Rattle.cx_script.specs.Lines.{lines_of};

use crate::split::{first_part, or_empty};
use cx_base::{Event, NoMemory};
use std::marker::Model;

const LINE_FEED: u8 = b'\n';

/// What was read of a schedule: the events up to the first bad line and its number, or all events.
#[derive(Drop)]
pub struct Schedule {
    events: Vec<Event>,
    bad: Option<u64>,
}

impl Model for Schedule {
    ghost use Rattle.cx_script.specs.Lines.{ParsedLines};

    ghost Value = { ParsedLines };

    ghost view = { λ schedule. record { events = schedule.events.items; bad = schedule.bad } };
}

impl Schedule {
    /// What was read.
    pub fn new(events: Vec<Event>, bad: Option<u64>) -> Self
        ensures { result ≡ record { events = events.items; bad = bad } }
    {
        Schedule { events, bad }
    }

    /// The events, in the order of their lines.
    pub fn events(&self) -> &[Event]
        ensures { result.now ≡ self.now.events }
    {
        &self.events
    }

    /// The first bad line, counted from 1; None where all lines are events, comments or blank.
    pub fn bad(&self) -> Option<u64>
        ensures { result ≡ self.now.bad }
    {
        self.bad
    }
}

/// A part without one carriage return at its end.
pub fn without_return(part: &[u8]) -> &[u8]
    ensures { result.now ≡ strip_carriage_return part.now }
{
    match part {
        [line @ .., b'\r'] => line,
        _ => part,
    }
}

/// The first line of what is left, and what comes after it, or None at the end.
pub fn first_line(bytes: &[u8]) -> Option<(&[u8], &[u8])>
    ensures none { IfNone result (lines_of bytes.now ≡ []) }
    ensures some { IfSome result (λ p. lines_of bytes.now ≡ p.0.now ∷ lines_of p.1.now) }
    ensures shorter { IfSome result (λ p. length p.1.now < length bytes.now) }
{
    if bytes.is_empty() {
        return None;
    }
    let (part, behind) = first_part(bytes, LINE_FEED);
    Some((without_return(part), or_empty(behind)))
}

/// Puts a value at the end of a list, if there is one.
pub fn push_some<T: Copy + Drop>(list: &mut Vec<T>, value: &Option<T>) -> Result<(), NoMemory>
    ensures { OnOk result (list.new.items ≡ list.old.items ++ option_to_list value.now) }
{
    if let Some(value) = value {
        list.push(*value)?;
    }
    Ok(())
}
