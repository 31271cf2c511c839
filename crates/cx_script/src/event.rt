//! The event of a line.

ghost use Rattle.std.specs.Prelude.{◌≡◌};
ghost use Rattle.cx_script.specs.Grammar.{write_event, read_event, session_event, deliver_event, grid_order_of, collect_event, snap_event, replace_event, offer_event, server_of, event_of, line_event};

use crate::fault::LineFault;
use crate::place::is;
use crate::split::first_word;
use crate::words::Words;
use cx_base::{Cluster, Command, Cut, Event, Grid, Kind, MAX_LINE_LENGTH, Order, RoleId};

#[tactic(auto, unfolding(crate::specs::Grammar::write_event))]
fn write_event(cluster: &Cluster, mut words: Words) -> Result<Event, LineFault>
    ensures { result ≡ write_event cluster.now words.entry }
{
    let client = words.index(cluster, Kind::Client)?;
    let (seq, floor) = words.seq()?;
    let batcher = words.index(cluster, Kind::Batcher)?;
    let op = words.op()?;
    words.end()?;
    Ok(Event::Write {
        command: Command {
            client,
            seq,
            floor,
            op,
        },
        batcher,
    })
}

#[tactic(auto, unfolding(crate::specs::Grammar::read_event))]
fn read_event(cluster: &Cluster, mut words: Words) -> Result<Event, LineFault>
    ensures { result ≡ read_event cluster.now words.entry }
{
    let client = words.index(cluster, Kind::Client)?;
    let (seq, floor) = words.seq()?;
    let reader = words.index(cluster, Kind::Reader)?;
    let replica = words.index(cluster, Kind::Replica)?;
    let key = words.key()?;
    words.end()?;
    Ok(Event::Read {
        client,
        seq,
        floor,
        reader,
        replica,
        key,
    })
}

#[tactic(auto, unfolding(crate::specs::Grammar::session_event))]
fn session_event(cluster: &Cluster, mut words: Words) -> Result<Event, LineFault>
    ensures { result ≡ session_event cluster.now words.entry }
{
    let client = words.index(cluster, Kind::Client)?;
    let (seq, floor) = words.seq()?;
    let replica = words.index(cluster, Kind::Replica)?;
    let key = words.key()?;
    words.end()?;
    Ok(Event::Session {
        client,
        seq,
        floor,
        replica,
        key,
    })
}

#[tactic(auto, unfolding(crate::specs::Grammar::deliver_event))]
fn deliver_event(mut words: Words) -> Result<Event, LineFault>
    ensures { result ≡ deliver_event words.entry }
{
    let number = words.number()?;
    let cut = words.cut()?;
    Ok(Event::Deliver { number, cut })
}

/// What a leader is ordered about a round: the leader, the grid, and whether it crashes.
#[tactic(auto, unfolding(crate::specs::Grammar::grid_order_of))]
fn round(cluster: &Cluster, mut words: Words) -> Result<(u16, Grid, Cut), LineFault>
    ensures { result ≡ grid_order_of cluster.now words.entry }
{
    let leader = words.index(cluster, Kind::Leader)?;
    let grid = words.grid(cluster)?;
    let cut = words.cut()?;
    Ok((leader, grid, cut))
}

#[tactic(auto, unfolding(crate::specs::Grammar::collect_event))]
fn collect_event(cluster: &Cluster, mut words: Words) -> Result<Event, LineFault>
    ensures { result ≡ collect_event cluster.now words.entry }
{
    let leader = words.index(cluster, Kind::Leader)?;
    words.end()?;
    Ok(Event::Order {
        leader,
        order: Order::Collect,
        cut: Cut::Whole,
    })
}

#[tactic(auto, unfolding(crate::specs::Grammar::snap_event))]
fn snap_event(cluster: &Cluster, mut words: Words) -> Result<Event, LineFault>
    ensures { result ≡ snap_event cluster.now words.entry }
{
    let role = words.snap(cluster)?;
    let cut = words.cut()?;
    Ok(Event::Snap { role, cut })
}

#[tactic(auto, unfolding(crate::specs::Grammar::replace_event))]
fn replace_event(cluster: &Cluster, mut words: Words) -> Result<Event, LineFault>
    ensures { result ≡ replace_event cluster.now words.entry }
{
    let replacer = words.index(cluster, Kind::Replacer)?;
    let set = words.set(cluster)?;
    let cut = words.cut()?;
    Ok(Event::Replace { replacer, set, cut })
}

#[tactic(auto, unfolding(crate::specs::Grammar::offer_event))]
fn offer_event(cluster: &Cluster, mut words: Words) -> Result<Event, LineFault>
    ensures { result ≡ offer_event cluster.now words.entry }
{
    let replica = words.index(cluster, Kind::Replica)?;
    let to = words.other(cluster, Kind::Replica, replica)?;
    let slot = words.slot()?;
    words.end()?;
    Ok(Event::Offer { replica, to, slot })
}

#[tactic(auto, unfolding(crate::specs::Grammar::server_of))]
fn server(cluster: &Cluster, mut words: Words) -> Result<RoleId, LineFault>
    ensures { result ≡ server_of cluster.now words.entry }
{
    let role = words.server(cluster)?;
    words.end()?;
    Ok(role)
}

#[tactic(auto, unfolding(crate::specs::Grammar::event_of))]
fn event(cluster: &Cluster, verb: &[u8], words: Words) -> Result<Event, LineFault>
    ensures { result ≡ event_of cluster.now verb.now words.entry }
{
    if is(verb, "write") {
        write_event(cluster, words)
    } else if is(verb, "read") {
        read_event(cluster, words)
    } else if is(verb, "session") {
        session_event(cluster, words)
    } else if is(verb, "deliver") {
        deliver_event(words)
    } else if is(verb, "tick") {
        Ok(Event::Tick(server(cluster, words)?))
    } else if is(verb, "lead") {
        let (leader, grid, cut) = round(cluster, words)?;
        let order = Order::Lead(grid);
        Ok(Event::Order { leader, order, cut })
    } else if is(verb, "change") {
        let (leader, grid, cut) = round(cluster, words)?;
        let order = Order::Change(grid);
        Ok(Event::Order { leader, order, cut })
    } else if is(verb, "collect") {
        collect_event(cluster, words)
    } else if is(verb, "snap") {
        snap_event(cluster, words)
    } else if is(verb, "replace") {
        replace_event(cluster, words)
    } else if is(verb, "offer") {
        offer_event(cluster, words)
    } else if is(verb, "crash") {
        Ok(Event::Crash(server(cluster, words)?))
    } else if is(verb, "restart") {
        Ok(Event::Restart(server(cluster, words)?))
    } else {
        Err(LineFault::Word)
    }
}

/// The event of a line without its line feed, or its first fault. None exactly for a comment, whose first word begins with
/// `#`, and where there is no word.
///
/// Words are separated by spaces and tabs. The lines, in this project's own language:
///
/// - `write client:C SEQ batcher:B put K T`, the same with `app K T` and with `del K`
/// - `read client:C SEQ reader:R replica:P K`
/// - `session client:C SEQ replica:P K`
/// - `deliver N`, `deliver N torn`, `deliver N kept`
/// - `lead leader:L RxC A,B,..` and `change leader:L RxC A,B,..`, the same with `torn` or `kept`
/// - `collect leader:L`
/// - `snap replica:P`, the same with `torn` or `kept`
/// - `replace replacer:X A,B,..`, the same with `torn` or `kept`
/// - `offer replica:P replica:Q S`, where Q is another replica than P
/// - `tick ROLE`, `crash ROLE` and `restart ROLE`, any role but a client
///
/// Numbers are decimal digits, of 64 bits at most. SEQ is a request's number, at least 1, or its number and its floor, as in
/// `5/3`: the floor is below the number, and at most 64 below it. A number alone has the number before it for a floor. S is a
/// slot, at most 2^40. K is a key and T a text; a grid has R rows and C columns; a set of matchmakers has 2f + 1 of them, its
/// ids strictly rising. Every name lies in the cluster. A line of more than 1,024 bytes is too long, also a comment; else the
/// first word from the left that its place doesn't take names the fault. Sides of a grid that no members fill are refused
/// before the members are looked at.
#[tactic(auto, unfolding(crate::specs::Grammar::line_event))]
pub fn line(cluster: &Cluster, bytes: &[u8]) -> Result<Option<Event>, LineFault>
    ensures { result ≡ line_event cluster.now bytes.now }
{
    if bytes.len() > MAX_LINE_LENGTH {
        return Err(LineFault::Long);
    }
    match first_word(bytes) {
        None => Ok(None),
        Some((verb, _)) if verb.starts_with(b"#") => Ok(None),
        Some((verb, rest)) => Ok(Some(event(cluster, verb, Words::new(rest))?)),
    }
}
