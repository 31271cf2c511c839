//! The datagrams of requests.

ghost use Rattle.std.specs.Prelude.{◌≡◌, ◌≤◌, ◌<◌, ◌+◌, ◌++◌, filter, length, map, nat_lt, IsTrue};
ghost use Rattle.std.specs.List.{list_all};
ghost use Rattle.cx_base.specs.Asked.{floor_fits, is_valid_event};
ghost use Rattle.cx_base.specs.Role.{role};
ghost use Rattle.cx_base.specs.declared.event.Event.{Event as Happening};
ghost use Rattle.cx_base.specs.declared.role.Kind.TheVariants as kind;
ghost use Rattle.cx_client.specs.Asking.{shifted};
ghost use Rattle.cx_client.specs.Window.{floor_for, outstanding, request_letters, event_with_floor};
ghost use Rattle.cx_field.specs.Fields as field;
ghost use Rattle.cx_model.specs.Request.{request};
ghost use Rattle.cx_letter.specs.declared.message.Msg.TheVariants as msg;
ghost use Rattle.cx_letter.specs.Letter.{letter};
ghost use Rattle.cx_script.specs.Requests.{number_of, rise_above};

use crate::asking::further;
use crate::window::{first_of, number_of, outstanding};
use cx_base::{Cluster, Command, Event, Op};
use cx_letter::{Datagram, read_req, sess_read, submit};
use cx_role::Outbox;

// A command for a batcher; its numbers are taken by value, so that their range is known.
#[tactic(auto, unfolding(cx_field::specs::Fields::seq, cx_wire::specs::Format::u64))]
fn submission(client: u16, seq: u64, floor: u64, op: Op, batcher: u16) -> Datagram
    requires { IsTrue (floor_fits seq floor) }
    ensures { result ≡ letter (role kind.Client client) (role kind.Batcher batcher)
        (msg.Submit (record { client = client; seq = seq; floor = floor; op = op })) }
{
    submit(
        client,
        batcher,
        Command {
            client,
            seq,
            floor,
            op,
        },
    )
}

// The datagram of a request goes out, so many places further, which tells this floor, or in a session how many values the client has
// heard of.
#[tactic(auto, unfolding(cx_field::specs::Fields::seq, cx_wire::specs::Format::u64))]
fn send(
    event: &Event,
    cluster: &Cluster,
    shift: Option<u32>,
    floor: u64,
    heard: u64,
    out: &mut Outbox,
)
    requires heard { IsTrue (field.mark.fits heard) }
    requires room { 0 < out.old.spare }
    requires taken { IsTrue (is_valid_event (event_with_floor floor event.now)) }
    ensures list { out.new.list ≡ out.old.list
        ++ request heard (event_with_floor floor (shifted cluster.now shift event.now)) }
    ensures spare { out.old.spare ≤ out.new.spare + 1 }
{
    match event {
        Event::Write { command, batcher } => out.push(submission(
            command.client,
            command.seq,
            floor,
            command.op,
            further(shift, *batcher, cluster.batchers),
        )),
        Event::Read {
            client,
            seq,
            reader,
            replica,
            key,
            ..
        } => out.push(read_req(
            *client,
            further(shift, *reader, cluster.readers),
            *seq,
            further(shift, *replica, cluster.replicas),
            *key,
        )),
        Event::Session {
            client,
            seq,
            replica,
            key,
            ..
        } => out.push(sess_read(
            *client,
            further(shift, *replica, cluster.replicas),
            *seq,
            heard,
            *key,
        )),
        _ => {}
    }
}

// The requests whose numbers are above `sent` go out, in their order, so many places further, each telling this floor or this mark.
fn send_above(
    requests: &[Event],
    sent: u64,
    cluster: &Cluster,
    shift: Option<u32>,
    floor: u64,
    heard: u64,
    out: &mut Outbox,
)
    requires heard { IsTrue (field.mark.fits heard) }
    requires room { length requests.now ≤ out.old.spare }
    requires taken { IsTrue (list_all (λ (e : Happening). is_valid_event (event_with_floor floor e))
        requests.now) }
    ensures { out.new.list ≡ out.old.list ++ request_letters heard floor
        (map (shifted cluster.now shift)
        (filter (λ (e : Happening). nat_lt sent (number_of e)) requests.now)) }
{
    for event in requests {
        if sent < number_of(event) {
            send(event, cluster, shift, floor, heard, out);
        }
    }
}

/// The outstanding ones of the requests that are left go out, but for those up to the number `sent`, so many places further, of a client
/// that has heard of so many values.
pub fn send_outstanding(
    left: &[Event],
    window: usize,
    sent: u64,
    cluster: &Cluster,
    shift: Option<u32>,
    heard: u64,
    out: &mut Outbox,
)
    requires heard { IsTrue (field.mark.fits heard) }
    requires rising { IsTrue (rise_above 0 left.now) }
    requires room { window ≤ out.old.spare }
    ensures { out.new.list ≡ out.old.list ++ request_letters heard (floor_for left.now)
        (map (shifted cluster.now shift)
        (filter (λ (e : Happening). nat_lt sent (number_of e)) (outstanding window left.now))) }
{
    let floor = first_of(left).saturating_sub(1);
    send_above(
        outstanding(left, window),
        sent,
        cluster,
        shift,
        floor,
        heard,
        out,
    );
}
