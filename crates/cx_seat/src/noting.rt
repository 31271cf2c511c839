//! What a record has of a step: its events, as lines.

ghost use Rattle.std.specs.Prelude.{◌≡◌, ◌++◌, length, option_map, true, OnOk};
ghost use Rattle.std.specs.List.{flat_map};
ghost use Rattle.std.specs.Option.{option_to_list};
ghost use Rattle.cx_course.specs.Course.{has_room_for, own_event, request_by};
ghost use Rattle.cx_course.specs.declared.doing.Doing.TheVariants.{Give};
ghost use Rattle.cx_letter.specs.Letter.{Letter};
ghost use Rattle.cx_seat.specs.Noting.{with_more_lines, shown};
ghost use Rattle.cx_record.specs.Lines.{events_text};
ghost use Rattle.cx_record.specs.Numbers.{has_room};

use cx_base::{Cut, Event, Kind, NoMemory, RoleId};
use cx_course::Doing;
use cx_letter::{Datagram, Input, Msg};
use cx_record::{Recorder, line_into};

// The event that a role's taking of an input is, if it is one.
fn event_given(me: RoleId, number: u64, input: &Input) -> Option<Event>
    ensures { option_to_list result ≡ own_event me (Give number input.now) }
{
    match input {
        Input::Take { .. } => Some(Event::Deliver {
            number,
            cut: Cut::Whole,
        }),
        Input::Tick => (me.kind != Kind::Client).then_some(Event::Tick(me)),
        Input::Order { order } => (me.kind == Kind::Leader).then_some(Event::Order {
            leader: me.index,
            order: *order,
            cut: Cut::Whole,
        }),
    }
}

// The event that a step is of its own, if it is one.
fn own_event(me: RoleId, what: &Doing) -> Option<Event>
    ensures { option_to_list result ≡ own_event me what.now }
{
    match what {
        Doing::Begin => None,
        Doing::Give { number, input } => event_given(me, *number, input),
        Doing::Snap if me.kind == Kind::Replica => Some(Event::Snap {
            role: me,
            cut: Cut::Whole,
        }),
        Doing::Snap => None,
    }
}

// The request that a client sends by a datagram, with the floor that it tells, if it is one.
fn request_by(floor: u64, letter: &Datagram) -> Option<Event>
    ensures { option_to_list result
        ≡ request_by floor letter.now.from letter.now.to letter.now.msg }
{
    let client = letter.from().index;
    let to = letter.to().index;
    match letter.msg() {
        Msg::Submit { command } => Some(Event::Write {
            command: *command,
            batcher: to,
        }),
        Msg::ReadReq { seq, replica, key } => Some(Event::Read {
            client,
            seq: *seq,
            floor,
            reader: to,
            replica: *replica,
            key: *key,
        }),
        Msg::SessRead { seq, key, .. } => Some(Event::Session {
            client,
            seq: *seq,
            floor,
            replica: to,
            key: *key,
        }),
        _ => None,
    }
}

// Adds what is there.
fn keep<T: Copy + Drop>(list: &mut Vec<T>, one: &Option<T>) -> Result<(), NoMemory>
    ensures { OnOk result (list.new.items ≡ list.old.items ++ option_to_list one.now) }
{
    if let Some(one) = one {
        list.push(*one)?;
    }
    Ok(())
}

/// The event that a step is of its own, if it is one, comes in the place of what is there: with it the lines of the step begin, and
/// `Seat::note_requests` adds the others. `NoMemory` comes where the list could not grow.
pub fn note_own(me: RoleId, what: &Doing, events: &mut Vec<Event>) -> Result<(), NoMemory>
    ensures { OnOk result (events.new.items ≡ own_event me what.now) }
{
    events.clear();
    keep(events, &own_event(me, what))?;
    Ok(())
}

/// Adds the requests that a client sends by these datagrams, each with this floor.
pub fn note_requests(
    floor: u64,
    sends: &[Datagram],
    events: &mut Vec<Event>,
) -> Result<(), NoMemory>
    ensures { OnOk result (events.new.items
        ≡ events.old.items
        ++ flat_map (λ (d : Letter). request_by floor d.from d.to d.msg) sends.now) }
{
    for letter in sends {
        keep(events, &request_by(floor, letter))?;
    }
    Ok(())
}

/// Whether the record has room for the lines of these events. Where it hasn't, their step must not be made.
pub fn has_room(recorder: &Recorder, events: &[Event]) -> bool
    ensures { result ≡ has_room (length events.now) recorder.now }
{
    recorder.has_room(events.len() as u64)
}

// Adds the lines of these events.
fn add_lines(events: &[Event], text: &mut Vec<u8>) -> Result<(), NoMemory>
    ensures { OnOk result (text.new.items ≡ text.old.items ++ events_text events.now) }
{
    for event in events {
        line_into(event, text)?;
    }
    Ok(())
}

/// Takes down a step that was made: where the node records, the lines of the step's events come in the place of its role's text, and
/// are counted; else nothing is done. `NoMemory` comes where the text could not grow.
pub fn take_down(
    recorder: &mut Option<Recorder>,
    events: &[Event],
    text: &mut Vec<u8>,
) -> Result<(), NoMemory>
    requires { has_room_for recorder.old events.now ≡ true }
    ensures text { OnOk result (text.new.items ≡ shown recorder.old events.now text.old.items) }
    ensures counted { OnOk result
        (recorder.new ≡ option_map (with_more_lines (length events.now)) recorder.old) }
{
    if let Some(recorder) = recorder {
        text.clear();
        add_lines(events, text)?;
        recorder.count(events.len() as u64);
    }
    Ok(())
}
