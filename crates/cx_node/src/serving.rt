//! Serving: the input is read, ports are bound, stores are opened, and the node runs.

ghost use Rattle.std.specs.Prelude.{◌≡◌, ◌≤◌, [], ℕ, List, Option, Result, IfOk, IsTrue};
ghost use Rattle.std.specs.List.{All, list_all};
ghost use Rattle.cx_base.specs.declared.role.RoleId.{RoleId};
ghost use Rattle.cx_journal.specs.declared.store.RecordStore.{RecordStore};
ghost use Rattle.cx_model.specs.Names.{names_role};
ghost use Rattle.cx_script.specs.Requests.{IsScript, script_of};
ghost use Rattle.cx_seat.specs.declared.guest.Guest.{Guest};
ghost use Rattle.cx_node.specs.declared.node.RunEnd.{RunEnd};
ghost use Rattle.cx_node.specs.declared.node.Stop.{Stop};
ghost use Rattle.cx_node.specs.Acts.{failed, scene_of};
ghost use Rattle.cx_seat.specs.Guest.{AreReady};
ghost use Rattle.cx_seat.specs.Closing.{AreGivenBack};
ghost use Rattle.cx_node.specs.Hosting.{HostAnswered, Ran, ended_status, hosting, known_first};
ghost use Rattle.cx_node.specs.Hosting.{store_gives, unopened_status};
ghost use Rattle.cx_seat.specs.Opening.{AreApart, lent_to};
ghost use Rattle.cx_node.specs.Serving.{IsNodeAnswer, NodeCompletes, TellsBad, TellsUsed, record_head, outside, outside_read};
ghost use Rattle.cx_node.specs.Serving.{options_of, recorded_header, refused_status};
ghost use Rattle.cx_record.specs.Numbers.{Recorded};
ghost use Rattle.cx_record.specs.Readable.{IsRecordable};

use crate::binding::bind_all;
use crate::input::{Refusal, listen};
use crate::node::{Node, RunEnd, Stop};
use cx_base::{Cluster, Event, NoMemory, RoleId, Status};
use cx_client::ClientOptions;
use cx_course::recorded_runs_follow;
use cx_edge::{Depot, Link, Sink, Source, write_all};
use cx_journal::RecordStore;
use cx_seat::{OpenStop, Seat, close_seats, open_all};
use std::alloc::Global;

// What an input that is refused is answered.
fn refused(refusal: Refusal) -> Status
    ensures { result ≡ refused_status refusal }
{
    match refusal {
        Refusal::NoMemory => Status::NoMemory,
        Refusal::ReadFault => Status::ReadFault,
        Refusal::BadInput { line } => Status::BadInput { line },
        Refusal::BadWords => Status::BadWords,
    }
}

// What is answered where not all roles could be opened.
fn unopened(stop: OpenStop) -> Status
    ensures { result ≡ unopened_status stop }
{
    match stop {
        OpenStop::NoMemory => Status::NoMemory,
        OpenStop::StoreFault { role } => Status::StoreFault { role },
        OpenStop::BadStore { role, at } => Status::BadStore { role, at },
        OpenStop::NotFresh { role } => Status::NotFresh { role },
    }
}

// What a run is answered.
fn ended(end: Result<RunEnd, Stop>) -> Status
    ensures { result ≡ ended_status end }
{
    match end {
        Ok(RunEnd::Done) => Status::Done,
        Ok(RunEnd::Turns) => Status::Turns,
        Err(Stop::NoMemory) => Status::NoMemory,
        Err(Stop::WriteFault) => Status::WriteFault,
        Err(Stop::LinkFault) => Status::LinkFault,
        Err(Stop::StoreFault { role }) => Status::StoreFault { role },
        Err(Stop::RecordFull) => Status::RecordFull,
    }
}

// What a record begins with, where the node is to record: the header, and the line that ends it.
fn record_head(alloc: Global, recording: bool, header: &[u8]) -> Result<Vec<u8>, NoMemory>
    ensures { IfOk result
        (λ text. text.items ≡ record_head (recorded_header recording header.now)) }
{
    let mut text = Vec::new(alloc);
    if recording {
        text.extend_from_slice(header)?;
        text.extend_from_slice(b"---\n")?;
    }
    Ok(text)
}

// Runs the roles, and gives their stores back.
fn run_seats<L: Link, D: Depot, W: Sink>(
    alloc: Global,
    cluster: &Cluster,
    seats: Vec<Seat<RecordStore<D::Store>>>,
    recording: bool,
    turns: u32,
    tend: Option<u32>,
    link: &mut L,
    depot: &mut D,
    out: &mut W,
) -> Status
    requires ready { AreReady cluster.now seats.items }
    requires lent { D.out depot.old ≡ lent_to seats.items }
    ensures ran { (after : List (Guest (RecordStore D.Store))) × (known : Option Recorded)
        × (answer : Result RunEnd Stop) × (result ≡ ended_status answer)
        × Ran (store_gives D.Store.Disk) tend cluster.now turns [] answer
        (scene_of L.Link W.Sink (hosting cluster.now seats.items (known_first recording)) link.old
        out.old) (scene_of L.Link W.Sink (hosting cluster.now after known) link.new out.new)
        (failed L.Link W.Sink link.old out.old) (failed L.Link W.Sink link.new out.new)
        × AreGivenBack D.Depot D.Store.Disk after depot.old depot.new }
    ensures tells_same { D.tells depot.new ≡ D.tells depot.old }
    ensures given_back { D.out depot.new ≡ [] }
{
    match Node::new(alloc, cluster, seats, recording) {
        Ok(mut node) => {
            let end = node.run(turns, tend, link, out);
            close_seats(depot, node.into_seats());
            ended(end)
        }
        Err((NoMemory, seats)) => {
            close_seats(depot, seats);
            Status::NoMemory
        }
    }
}

// The same behind a text that is printed first.
fn run_behind<L: Link, D: Depot, W: Sink>(
    alloc: Global,
    cluster: &Cluster,
    seats: Vec<Seat<RecordStore<D::Store>>>,
    recording: bool,
    text: &[u8],
    turns: u32,
    tend: Option<u32>,
    link: &mut L,
    depot: &mut D,
    out: &mut W,
) -> Status
    requires ready { AreReady cluster.now seats.items }
    requires lent { D.out depot.old ≡ lent_to seats.items }
    ensures ran { (after : List (Guest (RecordStore D.Store))) × (known : Option Recorded)
        × (answer : Result RunEnd Stop) × (result ≡ ended_status answer)
        × Ran (store_gives D.Store.Disk) tend cluster.now turns text.now answer
        (scene_of L.Link W.Sink (hosting cluster.now seats.items (known_first recording)) link.old
        out.old) (scene_of L.Link W.Sink (hosting cluster.now after known) link.new out.new)
        (failed L.Link W.Sink link.old out.old) (failed L.Link W.Sink link.new out.new)
        × AreGivenBack D.Depot D.Store.Disk after depot.old depot.new }
    ensures tells_same { D.tells depot.new ≡ D.tells depot.old }
    ensures given_back { D.out depot.new ≡ [] }
{
    if !write_all(out, text) {
        close_seats(depot, seats);
        return Status::WriteFault;
    }
    run_seats(
        alloc, cluster, seats, recording, turns, tend, link, depot, out,
    )
}

// How hosted clients ask: they ask others where their node tends them.
fn options_of(tend: Option<u32>, window: u8) -> ClientOptions
    ensures { result ≡ options_of tend window }
{
    ClientOptions {
        window,
        others: tend.is_some(),
    }
}

// Hosts the roles over what the input says, which has this header.
fn host<L: Link, D: Depot, W: Sink>(
    alloc: Global,
    recording: bool,
    header: &[u8],
    cluster: &Cluster,
    roles: &[RoleId],
    options: ClientOptions,
    events: &[Event],
    turns: u32,
    tend: Option<u32>,
    link: &mut L,
    depot: &mut D,
    out: &mut W,
) -> Status
    requires named { IsTrue (list_all (λ (r : RoleId). names_role cluster.now r) roles.now) }
    requires distinct { AreApart roles.now }
    requires scripts { (client : ℕ) → IsScript cluster.now client (script_of client events.now) }
    requires recordable { (client : ℕ)
        → All (IsRecordable cluster.now) (script_of client events.now) }
    requires some_window { 1 ≤ options.window }
    requires window { options.window ≤ 64 }
    requires lent { D.out depot.old ≡ [] }
    ensures answered { (left left_after : Option (List ℕ)) (reads reads_after : ℕ)
        → HostAnswered roles.now tend (recorded_header recording header.now) cluster.now options
        events.now turns (outside_read L.Link D.Depot W.Sink left reads link.old depot.old out.old)
        (outside_read L.Link D.Depot W.Sink left_after reads_after link.new depot.new
        out.new) result }
    ensures given_back { D.out depot.new ≡ [] }
{
    recorded_runs_follow();
    if !bind_all(cluster, roles, link) {
        return Status::LinkFault;
    }
    let Ok(text) = record_head(alloc, recording, header) else {
        return Status::NoMemory;
    };
    let mut opened = Vec::new(alloc);
    match open_all(
        alloc,
        cluster,
        roles,
        recording,
        options,
        events,
        depot,
        &mut opened,
    ) {
        Ok(()) => run_behind(
            alloc, cluster, opened, recording, &text, turns, tend, link, depot, out,
        ),
        Err(stop) => {
            close_seats(depot, opened);
            unopened(stop)
        }
    }
}

/// Hosts these roles: the input is read to its end; each role is bound to its port and opened from its store; and
/// they run `turns` turns, or until all hosted clients have finished. With `tend` the node tends them, with at most
/// that many turns from one beat to the next (64 to 65,536 are of use), and clients that ask again ask others. A hosted
/// client has up to `window` of its requests outstanding, 1 to 64. What was bound, sent, printed and kept is exactly the node's run, or a prefix of it
/// where something failed, and every store is given back whatever happens. A role or a port that is bound already is
/// a fault of the link.
///
/// With `recording` the node records its run: it hosts all roles of the cluster, from stores without records, and prints, in the
/// place of what clients are told, the header and the lines of a schedule. At each moment between two steps the model's run of
/// these lines has sent, kept and answered what the node did.
pub fn serve<S: Source, L: Link, D: Depot, W: Sink>(
    alloc: Global,
    roles: &[RoleId],
    turns: u32,
    tend: Option<u32>,
    window: u8,
    recording: bool,
    input: &mut S,
    link: &mut L,
    depot: &mut D,
    out: &mut W,
) -> Status
    requires distinct { AreApart roles.now }
    requires lent { D.out depot.old ≡ [] }
    requires some_window { 1 ≤ window }
    requires window { window ≤ 64 }
    ensures answered { IsNodeAnswer roles.now tend window recording turns
        (outside S.Source L.Link D.Depot W.Sink input.old link.old depot.old out.old)
        (outside S.Source L.Link D.Depot W.Sink input.new link.new depot.new out.new) result }
    ensures complete { NodeCompletes recording roles.now
        (outside S.Source L.Link D.Depot W.Sink input.old link.old depot.old out.old)
        (outside S.Source L.Link D.Depot W.Sink input.new link.new depot.new out.new) result }
    ensures tells_used { TellsUsed recording roles.now
        (outside S.Source L.Link D.Depot W.Sink input.old link.old depot.old out.old)
        (outside S.Source L.Link D.Depot W.Sink input.new link.new depot.new out.new) result }
    ensures tells_bad { TellsBad recording roles.now
        (outside S.Source L.Link D.Depot W.Sink input.old link.old depot.old out.old)
        (outside S.Source L.Link D.Depot W.Sink input.new link.new depot.new out.new) result }
    ensures given_back { D.out depot.new ≡ [] }
{
    match listen(alloc, roles, recording, input) {
        Ok(accepted) => host(
            alloc,
            recording,
            accepted.header.as_bytes(),
            &accepted.cluster,
            roles,
            options_of(tend, window),
            accepted.schedule.events(),
            turns,
            tend,
            link,
            depot,
            out,
        ),
        Err(refusal) => refused(refusal),
    }
}
