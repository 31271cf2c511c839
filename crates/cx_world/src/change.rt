//! What an event does to the roles.

ghost use Rattle.std.specs.Prelude.{◌≡◌, ◌&&◌, [], false, IfOk, OnOk, IsTrue, None, Some, option_to_list};
ghost use Rattle.cx_base.specs.Asked.{is_valid_event};
ghost use Rattle.cx_model.specs.Request.{request};
ghost use Rattle.cx_model.specs.World.{act_at, ask, change, come, kept_by};
ghost use Rattle.cx_base.specs.Role.{puts_anew, role};
ghost use Rattle.cx_field.specs.Fields.{mark};
ghost use Rattle.cx_base.specs.declared.role.Kind.TheVariants as kind;
ghost use Rattle.cx_letter.specs.declared.input.Act.TheVariants.{Give, Snap};
ghost use Rattle.cx_world.specs.Heard.{Hears};
ghost use Rattle.cx_world.specs.Seat.{is_snap};
ghost use Rattle.cx_world.specs.World.{AsksAfter, Changes, ChangesAfter};

use crate::heard::Heard;
use crate::seat::{Seat, act_at, snap_at};
use crate::turned::{Changed, Turned};
use cx_acceptor::Acceptor;
use cx_base::{Cut, Event, Kind, NoMemory, Order, RoleId, Why};
use cx_batch::{Batcher, Unbatcher};
use cx_field::Token;
use cx_history::{Events, Sent};
use cx_leader::Leader;
use cx_letter::{Act, Datagram, Input, KeptRecord, read_req, sess_read, submit};
use cx_match::Matchmaker;
use cx_proxy::Proxy;
use cx_reader::Reader;
use cx_replace::Replacer;
use cx_replica::Replica;
use cx_role::Outbox;

/// The roles with their keepers, by kind.
#[derive(Drop)]
pub struct Seats {
    pub batchers: Vec<Seat<Batcher>>,
    pub leaders: Vec<Seat<Leader>>,
    pub proxies: Vec<Seat<Proxy>>,
    pub acceptors: Vec<Seat<Acceptor>>,
    pub matchmakers: Vec<Seat<Matchmaker>>,
    pub replicas: Vec<Seat<Replica>>,
    pub unbatchers: Vec<Seat<Unbatcher>>,
    pub readers: Vec<Seat<Reader>>,
    pub replacers: Vec<Seat<Replacer>>,
}

fn of_role(who: RoleId, turned: Turned) -> Changed
    ensures who { result.who ≡ Some who }
    ensures why { result.why ≡ turned.why }
    ensures kept { option_to_list result.kept ≡ kept_by who turned.kept }
{
    Changed {
        who: Some(who),
        why: turned.why,
        kept: turned.kept.map(|what| KeptRecord { role: who, what }),
    }
}

fn nothing(who: Option<RoleId>, why: Why) -> Changed
    ensures who { result.who ≡ who }
    ensures why { result.why ≡ why }
    ensures kept { result.kept ≡ None }
{
    Changed {
        who,
        why,
        kept: None,
    }
}

// An act at a role, but for a snap of a kind whose lists are put anew. A client hears whatever it is given.
fn act(seats: &mut Seats, who: RoleId, act: &Act, out: &mut Outbox) -> Result<Changed, NoMemory>
    requires empty { out.old.list ≡ [] }
    requires other { (is_snap act.now && puts_anew who.kind) ≡ false }
    ensures { IfOk result
        (λ changed. Changes (λ w. act_at w act.now who) seats.old changed seats.new out.new.list) }
{
    match who.kind {
        Kind::Client => Ok(nothing(Some(who), Why::Heard)),
        Kind::Batcher => {
            let turned = act_at(&mut seats.batchers, who.index, act, out)?;
            Ok(of_role(who, turned))
        }
        Kind::Leader => {
            let turned = act_at(&mut seats.leaders, who.index, act, out)?;
            Ok(of_role(who, turned))
        }
        Kind::Proxy => {
            let turned = act_at(&mut seats.proxies, who.index, act, out)?;
            Ok(of_role(who, turned))
        }
        Kind::Acceptor => {
            let turned = act_at(&mut seats.acceptors, who.index, act, out)?;
            Ok(of_role(who, turned))
        }
        Kind::Matchmaker => {
            let turned = act_at(&mut seats.matchmakers, who.index, act, out)?;
            Ok(of_role(who, turned))
        }
        Kind::Replica => {
            let turned = act_at(&mut seats.replicas, who.index, act, out)?;
            Ok(of_role(who, turned))
        }
        Kind::Unbatcher => {
            let turned = act_at(&mut seats.unbatchers, who.index, act, out)?;
            Ok(of_role(who, turned))
        }
        Kind::Reader => {
            let turned = act_at(&mut seats.readers, who.index, act, out)?;
            Ok(of_role(who, turned))
        }
        Kind::Replacer => {
            let turned = act_at(&mut seats.replacers, who.index, act, out)?;
            Ok(of_role(who, turned))
        }
    }
}

// A role's list is put anew, where its kind does that.
fn snap(seats: &mut Seats, who: RoleId, cut: Cut, out: &mut Outbox) -> Result<Changed, NoMemory>
    requires empty { out.old.list ≡ [] }
    ensures { IfOk result (λ changed. Changes (λ w. act_at w (Snap cut) who) seats.old changed
        seats.new out.new.list) }
{
    match who.kind {
        Kind::Acceptor => {
            let turned = snap_at(&mut seats.acceptors, who.index, cut, out)?;
            Ok(of_role(who, turned))
        }
        Kind::Replica => {
            let turned = snap_at(&mut seats.replicas, who.index, cut, out)?;
            Ok(of_role(who, turned))
        }
        Kind::Reader => {
            let turned = snap_at(&mut seats.readers, who.index, cut, out)?;
            Ok(of_role(who, turned))
        }
        _ => act(seats, who, &Act::Snap { cut }, out),
    }
}

// The datagram of a request goes out; in a session it tells of how many values the client has heard.
#[tactic(auto, unfolding(cx_field::specs::Fields::seq, cx_wire::specs::Format::u64))]
fn send(heard: u64, event: &Event, out: &mut Outbox) -> Result<(), NoMemory>
    requires mark { IsTrue (mark.fits heard) }
    requires empty { out.old.list ≡ [] }
    requires taken { IsTrue (is_valid_event event.now) }
    ensures { OnOk result (out.new.list ≡ request heard event.now) }
{
    match event {
        Event::Write { command, batcher } => {
            out.room(1)?;
            out.push(submit(command.client, *batcher, *command));
        }
        Event::Read {
            client,
            seq,
            reader,
            replica,
            key,
            ..
        } => {
            out.room(1)?;
            out.push(read_req(*client, *reader, *seq, *replica, *key));
        }
        Event::Session {
            client,
            seq,
            replica,
            key,
            ..
        } => {
            out.room(1)?;
            out.push(sess_read(*client, *replica, *seq, heard, *key));
        }
        _ => {}
    }
    Ok(())
}

// A client asks, which has heard of so many values.
fn ask(
    token: Token,
    event: &Event,
    events: &Events,
    heard: u64,
    out: &mut Outbox,
) -> Result<Changed, NoMemory>
    requires mark { IsTrue (mark.fits heard) }
    requires empty { out.old.list ≡ [] }
    requires taken { IsTrue (is_valid_event event.now) }
    ensures { IfOk result (λ changed. AsksAfter (λ w. ask w event.now (Some token)) token.client
        heard events.now changed out.new.list) }
{
    let who = RoleId::new(Kind::Client, token.client);
    if events.is_stale(token, event) {
        return Ok(nothing(Some(who), Why::Stale));
    }
    send(heard, event, out)?;
    Ok(nothing(Some(who), Why::Sent))
}

fn deliver(
    seats: &mut Seats,
    datagram: Datagram,
    cut: Cut,
    out: &mut Outbox,
) -> Result<Changed, NoMemory>
    requires empty { out.old.list ≡ [] }
    ensures { IfOk result (λ changed. Changes (λ w. come w cut (Some datagram)) seats.old changed
        seats.new out.new.list) }
{
    let who = datagram.to();
    let take = Act::Give {
        input: Input::Take { datagram },
        cut,
    };
    act(seats, who, &take, out)
}

fn give(input: Input, cut: Cut) -> Act
    ensures { result ≡ Give input cut }
{
    Act::Give { input, cut }
}

/// One event, which the world takes: what it does to the roles, said of every world that has these seats and histories.
pub fn change(
    seats: &mut Seats,
    sent: &Sent,
    events: &Events,
    heard: &Heard,
    event: &Event,
    out: &mut Outbox,
) -> Result<Changed, NoMemory>
    requires hears { Hears heard.now sent.now events.now }
    requires empty { out.old.list ≡ [] }
    requires taken { IsTrue (is_valid_event event.now) }
    ensures { IfOk result (λ changed. ChangesAfter (λ w. change w event.now) sent.now events.now
        seats.old changed seats.new out.new.list) }
{
    match event {
        Event::Write { command, .. } => {
            let token = Token {
                client: command.client,
                seq: command.seq,
            };
            ask(token, event, events, heard.by(command.client), out)
        }
        Event::Read { client, seq, .. } => {
            let token = Token {
                client: *client,
                seq: *seq,
            };
            ask(token, event, events, heard.by(*client), out)
        }
        Event::Session { client, seq, .. } => {
            let token = Token {
                client: *client,
                seq: *seq,
            };
            ask(token, event, events, heard.by(*client), out)
        }
        Event::Deliver { number, cut } => match sent.get(*number)? {
            None => Ok(nothing(None, Why::Absent)),
            Some(datagram) => deliver(seats, datagram, *cut, out),
        },
        Event::Tick(role) => {
            let tick = give(Input::Tick, Cut::Whole);
            act(seats, *role, &tick, out)
        }
        Event::Order { leader, order, cut } => {
            let who = RoleId::new(Kind::Leader, *leader);
            let order = give(Input::Order { order: *order }, *cut);
            act(seats, who, &order, out)
        }
        Event::Replace { replacer, set, cut } => {
            let who = RoleId::new(Kind::Replacer, *replacer);
            let order = Order::Replace(*set);
            let order = give(Input::Order { order }, *cut);
            act(seats, who, &order, out)
        }
        Event::Offer { replica, to, slot } => {
            let who = RoleId::new(Kind::Replica, *replica);
            let order = Order::Offer {
                to: *to,
                slot: *slot,
            };
            let order = give(Input::Order { order }, Cut::Whole);
            act(seats, who, &order, out)
        }
        Event::Snap { role, cut } => snap(seats, *role, *cut, out),
        Event::Crash(role) => act(seats, *role, &Act::Stop, out),
        Event::Restart(role) => act(seats, *role, &Act::Wake, out),
    }
}
