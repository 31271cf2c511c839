//! The lines of events.

ghost use Rattle.std.specs.Prelude.{◌≡◌, ◌++◌, length, take, OnErr, OnOk};
ghost use Rattle.cx_trace.specs.Trace.{event_text, happening_text, order_text, reached_text};

use crate::effect::Effect;
use crate::pieces::{put, put_number, put_request, put_role, put_role_at, undo_part};
use cx_base::{Event, Kind, NoMemory, Order, RoleId};

fn put_order(text: &mut Vec<u8>, order: &Order) -> Result<(), NoMemory>
    ensures ok { OnOk result (text.new.items ≡ text.old.items ++ order_text order.now) }
    ensures err { OnErr result (take (length text.old.items) text.new.items ≡ text.old.items) }
{
    match order {
        Order::Lead(_) => put(text, b"lead "),
        Order::Change(_) => put(text, b"change "),
        Order::Collect => put(text, b"collect "),
        Order::Replace(_) => put(text, b"replace "),
        Order::Offer { .. } => put(text, b"offer "),
    }
}

fn put_reached(text: &mut Vec<u8>, who: Option<RoleId>) -> Result<(), NoMemory>
    ensures ok { OnOk result (text.new.items ≡ text.old.items ++ reached_text who) }
    ensures err { OnErr result (take (length text.old.items) text.new.items ≡ text.old.items) }
{
    match who {
        None => Ok(()),
        Some(role) => {
            put(text, b" ")?;
            put_role(text, role)
        }
    }
}

fn put_happening(text: &mut Vec<u8>, event: &Event, who: Option<RoleId>) -> Result<(), NoMemory>
    ensures ok { OnOk result (text.new.items ≡ text.old.items ++ happening_text event.now who) }
    ensures err { OnErr result (take (length text.old.items) text.new.items ≡ text.old.items) }
{
    match event {
        Event::Write { command, .. } => {
            put(text, b"write ")?;
            put_request(text, command.client, command.seq, command.floor)
        }
        Event::Read {
            client,
            seq,
            floor,
            ..
        } => {
            put(text, b"read ")?;
            put_request(text, *client, *seq, *floor)
        }
        Event::Session {
            client,
            seq,
            floor,
            ..
        } => {
            put(text, b"session ")?;
            put_request(text, *client, *seq, *floor)
        }
        Event::Deliver { number, .. } => {
            put(text, b"deliver ")?;
            put_number(text, *number)?;
            put_reached(text, who)
        }
        Event::Tick(role) => {
            put(text, b"tick ")?;
            put_role(text, *role)
        }
        Event::Order { leader, order, .. } => {
            put_order(text, order)?;
            put_role_at(text, Kind::Leader, u64::from(*leader))
        }
        Event::Replace { replacer, .. } => {
            put(text, b"replace ")?;
            put_role_at(text, Kind::Replacer, u64::from(*replacer))
        }
        Event::Offer { replica, .. } => {
            put(text, b"offer ")?;
            put_role_at(text, Kind::Replica, u64::from(*replica))
        }
        Event::Snap { role, .. } => {
            put(text, b"snap ")?;
            put_role(text, *role)
        }
        Event::Crash(role) => {
            put(text, b"crash ")?;
            put_role(text, *role)
        }
        Event::Restart(role) => {
            put(text, b"restart ")?;
            put_role(text, *role)
        }
    }
}

#[tactic(auto, unfolding(crate::specs::Trace::event_text))]
fn put_event(text: &mut Vec<u8>, event: &Event, effect: &Effect) -> Result<(), NoMemory>
    ensures ok { OnOk result (text.new.items ≡ text.old.items ++ event_text event.now effect.now) }
    ensures err { OnErr result (take (length text.old.items) text.new.items ≡ text.old.items) }
{
    put(text, b"@")?;
    put_number(text, effect.event)?;
    put(text, b" ")?;
    put_happening(text, event, effect.who)?;
    put(text, b" ")?;
    put(text, effect.why.text().as_bytes())?;
    put(text, b"\n")
}

/// Appends the line of an event (this project's own format): its number, what happened to whom, and its result. An
/// `Err` appends nothing.
pub fn event_into(event: &Event, effect: &Effect, out: &mut Vec<u8>) -> Result<(), NoMemory>
    ensures ok { OnOk result (out.new.items ≡ out.old.items ++ event_text event.now effect.now) }
    ensures err { OnErr result (out.new.items ≡ out.old.items) }
{
    let length = out.len();
    let done = put_event(out, event, effect);
    undo_part(done, out, length)
}
