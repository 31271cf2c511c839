//! What the types of an event's parts keep. These calls do nothing when they run; they give their caller a fact.

ghost use Rattle.std.specs.Prelude.{◌<◌, ◌^◌};
ghost use Rattle.cx_record.specs.Readable.{HasGrid, HasNames, HasRanges};

use cx_base::{Event, Op, Order};

fn number_fits(number: u64)
    ensures { number < 2 ^ 64 }
{}

fn op_fits(op: &Op)
    ensures { HasNames op.now }
{
    match op {
        Op::Put(key, text) | Op::App(key, text) => {
            let _key = key.as_bytes();
            let _text = text.as_bytes();
        }
        Op::Del(key) => {
            let _key = key.as_bytes();
        }
    }
}

fn order_fits(order: &Order)
    ensures { HasGrid order.now }
{
    match order {
        Order::Lead(grid) | Order::Change(grid) => {
            let _members = grid.members();
        }
        Order::Collect | Order::Replace(_) | Order::Offer { .. } => {}
    }
}

/// Each event has the ranges that its line needs.
pub fn event_fits(event: &Event)
    ensures { HasRanges event.now }
{
    match event {
        Event::Write { command, .. } => {
            number_fits(command.seq);
            op_fits(&command.op);
        }
        Event::Read { seq, key, .. } | Event::Session { seq, key, .. } => {
            number_fits(*seq);
            let _key = key.as_bytes();
        }
        Event::Deliver { number, .. } => number_fits(*number),
        Event::Order { order, .. } => order_fits(order),
        Event::Tick(_)
        | Event::Replace { .. }
        | Event::Offer { .. }
        | Event::Snap { .. }
        | Event::Crash(_)
        | Event::Restart(_) => {}
    }
}
