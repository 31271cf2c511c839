//! The ports of roles, and the sending of datagrams.

ghost use Rattle.std.specs.Prelude.{◌≡◌, [], ◌∷◌, option_map, OnOk, OnErr};
ghost use Rattle.cx_node.specs.Doing.{HasLinkSent, HasLinkSentPart};
ghost use Rattle.cx_seat.specs.Noting.{noting};
ghost use Rattle.cx_node.specs.Ports.{roles_before, port_of};

use cx_base::{Cluster, Kind, NoMemory, RoleId};
use cx_edge::Link;
use cx_letter::Datagram;
use cx_msg::encode_into;
use cx_record::Recorder;
use cx_role::names_role;
use std::alloc::Global;

// How many roles come before those of a kind.
fn before(cluster: &Cluster, kind: Kind) -> u16
    ensures { result ≡ roles_before cluster.now kind }
{
    let acceptors = cluster.clients + cluster.batchers + cluster.leaders + cluster.proxies;
    let replicas = acceptors + cluster.acceptors + cluster.pool;
    let readers = replicas + cluster.replicas + cluster.unbatchers;
    match kind {
        Kind::Client => 0,
        Kind::Batcher => cluster.clients,
        Kind::Leader => cluster.clients + cluster.batchers,
        Kind::Proxy => cluster.clients + cluster.batchers + cluster.leaders,
        Kind::Acceptor => acceptors,
        Kind::Matchmaker => acceptors + cluster.acceptors,
        Kind::Replica => replicas,
        Kind::Unbatcher => replicas + cluster.replicas,
        Kind::Reader => readers,
        Kind::Replacer => readers + cluster.readers,
    }
}

/// The port of a role: the cluster's first one, and the role's place among all roles, by kind and index.
pub fn port_of(cluster: &Cluster, role: RoleId) -> u16
    ensures { result ≡ port_of cluster.now role }
{
    let first = cluster.base_port.unwrap_or(0);
    first
        .wrapping_add(before(cluster, role.kind))
        .wrapping_add(role.index)
}

// Asks the link to send a datagram as its bytes, unless it is to a role outside the cluster.
fn send_one<L: Link>(
    alloc: Global,
    cluster: &Cluster,
    letter: &Datagram,
    bytes: &mut Vec<u8>,
    link: &mut L,
) -> Result<(), NoMemory>
    ensures sent { OnOk result
        (HasLinkSent cluster.now (letter.now ∷ []) (L.history link.old) (L.history link.new)) }
    ensures nothing { OnErr result (L.history link.new ≡ L.history link.old) }
    ensures still { L.faults link.new ≡ L.faults link.old }
{
    if names_role(cluster, letter.to()) {
        bytes.clear();
        encode_into(alloc, letter, bytes)?;
        // A send that fails is a loss, which the link counts.
        let _ = link.send(letter.from(), port_of(cluster, letter.to()), bytes);
    }
    Ok(())
}

// Where the node records, the datagram gets the next number, before it is sent.
fn number(recorder: &mut Option<Recorder>, letter: &Datagram) -> Result<(), NoMemory>
    ensures { OnOk result (recorder.new ≡ option_map (noting (letter.now ∷ [])) recorder.old) }
{
    if let Some(recorder) = recorder {
        recorder.note(letter)?;
    }
    Ok(())
}

/// Asks the link to send these datagrams, in order, each as its bytes, and notes each before, where the node records. One that the
/// link loses is lost. Out of memory, the first ones were sent.
pub fn send_all<L: Link>(
    alloc: Global,
    cluster: &Cluster,
    letters: &[Datagram],
    recorder: &mut Option<Recorder>,
    bytes: &mut Vec<u8>,
    link: &mut L,
) -> Result<(), NoMemory>
    ensures sent { OnOk result
        (HasLinkSent cluster.now letters.now (L.history link.old) (L.history link.new)) }
    ensures part { OnErr result
        (HasLinkSentPart cluster.now letters.now (L.history link.old) (L.history link.new)) }
    ensures noted { OnOk result (recorder.new ≡ option_map (noting letters.now) recorder.old) }
    ensures still { L.faults link.new ≡ L.faults link.old }
{
    for letter in letters {
        number(recorder, letter)?;
        send_one(alloc, cluster, letter, bytes, link)?;
    }
    Ok(())
}
