//! The lines of a node: requests alone, the numbers of each client rising.

ghost use Rattle.std.specs.Prelude.{◌≡◌, ◌<◌, ◌++◌, List, IfOk, nat_lt, get_or, length, option_to_list, slice_set, if◌then◌else◌};
ghost use Rattle.cx_base.specs.declared.event.Event.{Event as Happening};
ghost use Rattle.cx_script.specs.Requests.{HasGreatestNumbers, asker, asks, has_slash, request_behind, request_line, requests_of, script_of};

use crate::event::line;
use crate::fault::LineFault;
use crate::lines::{Schedule, first_line, push_some};
use cx_base::{Cluster, Event, Greatest, MAX_LINES, NoMemory};
use std::alloc::Global;

// The client and the number of a request.
fn asker(event: &Event) -> Option<(u16, u64)>
    ensures { result ≡ asker event.now }
{
    match event {
        Event::Write { command, .. } => Some((command.client, command.seq)),
        Event::Read { client, seq, .. } => Some((*client, *seq)),
        Event::Session { client, seq, .. } => Some((*client, *seq)),
        _ => None,
    }
}

// Whether a number is above its client's greatest one, which it then becomes.
fn number_rises(greatest: &mut Greatest, client: u16, seq: u64) -> bool
    requires { client < 64 }
    ensures above { result ≡ nat_lt (get_or greatest.old client 0) seq }
    ensures noted { greatest.new
        ≡ (if result then slice_set greatest.old client seq else greatest.old) }
    ensures clients { length greatest.old ≡ 64 }
{
    let above = greatest.is_above(client, seq);
    greatest.raise(client, seq);
    above
}

fn has_slash(text: &[u8]) -> bool
    ensures { result ≡ has_slash text.now }
{
    text.iter().any(|byte| *byte == b'/')
}

// A line by itself. Its client chooses the floors of its requests, so a line may not tell one.
fn request_line(cluster: &Cluster, text: &[u8]) -> Result<Option<Event>, LineFault>
    ensures { result ≡ request_line cluster.now text.now }
{
    match line(cluster, text)? {
        Some(_) if has_slash(text) => Err(LineFault::Number),
        event => Ok(event),
    }
}

// A line after others, of which the greatest number of each client is known.
fn request(
    cluster: &Cluster,
    greatest: &mut Greatest,
    text: &[u8],
) -> Result<Option<Event>, LineFault>
    ensures request { (before : List Happening) → HasGreatestNumbers before greatest.old
        → result ≡ request_behind before (request_line cluster.now text.now) }
    ensures numbers { (before : List Happening) → HasGreatestNumbers before greatest.old
        → IfOk result (λ event. HasGreatestNumbers (before ++ option_to_list event) greatest.new) }
{
    let Some(event) = request_line(cluster, text)? else {
        return Ok(None);
    };
    match asker(&event) {
        Some((client, seq)) if number_rises(greatest, client, seq) => Ok(Some(event)),
        _ => Err(LineFault::Word),
    }
}

/// What the bytes after a node's header spell: requests. A line ends with a line feed, which the last may lack, and loses one
/// carriage return at its end. Lines count from 1, comments and blank ones too. A line of another kind is bad, one that tells a
/// floor, one whose number isn't above its client's earlier ones, and the 65,536th.
#[tactic(auto, unfolding(crate::specs::Requests::requests_of))]
pub fn read_requests(alloc: Global, cluster: &Cluster, bytes: &[u8]) -> Result<Schedule, NoMemory>
    ensures { IfOk result (λ schedule. schedule ≡ requests_of cluster.now bytes.now) }
{
    let mut events = Vec::new(alloc);
    let mut greatest = Greatest::new();
    let mut rest = bytes;
    let mut number = 0;
    while let Some((text, behind)) = first_line(rest) {
        number += 1;
        let bad = Some(number);
        if number > MAX_LINES {
            return Ok(Schedule::new(events, bad));
        }
        let Ok(event) = request(cluster, &mut greatest, text) else {
            return Ok(Schedule::new(events, bad));
        };
        push_some(&mut events, &event)?;
        rest = behind;
    }
    Ok(Schedule::new(events, None))
}

fn is_of(client: u16, event: &Event) -> bool
    ensures { result ≡ asks client event.now }
{
    match asker(event) {
        Some((other, _)) => other == client,
        None => false,
    }
}

/// The requests of one client, in their order.
pub fn script(alloc: Global, client: u16, events: &[Event]) -> Result<Vec<Event>, NoMemory>
    ensures { IfOk result (λ script. script.items ≡ script_of client events.now) }
{
    let mut script = Vec::new(alloc);
    for event in events {
        if is_of(client, event) {
            script.push(*event)?;
        }
    }
    Ok(script)
}
