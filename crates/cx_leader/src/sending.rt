//! What a leader sends to several roles, by rising index. Room in the outbox (`spare`) was taken beforehand.
#![tactic(auto, using(cx_role::proofs::Sends::sends))]

ghost use Rattle.std.specs.Prelude.{◌≡◌, ◌<◌, ◌≤◌, ◌+◌, ◌++◌, ◌^◌};
ghost use Rattle.cx_role.specs.Prelude.{map, length, IsTrue, Kind as KindOf, below, role, members_of, members_in};
ghost use Rattle.cx_field.specs.Fields as field;
ghost use Rattle.cx_model.specs.Leader.{match_a_to, phase1a_to, leads_to, own_share, proxy_of, propose_to, inform_to, garbage_a_to};
ghost use Rattle.cx_leader.specs.Proposing.{IsWindowSlot};

use cx_base::{Cluster, Grid, Kind, Round, Value};
use cx_field::Entry;
use cx_grid::is_member;
use cx_letter::{Datagram, garbage_a, inform, leads, match_a, phase1a, propose};
use cx_phase1::Phase1;
use cx_role::Outbox;

/// Asks the matchmakers of a set to record the round and its grid.
pub fn ask_to_record(leader: u16, round: Round, grid: &Grid, set: &[u16], out: &mut Outbox)
    requires spare { length set.now ≤ out.old.spare }
    requires round { IsTrue (field.round.fits round) }
    ensures { out.new.list
        ≡ out.old.list ++ map (match_a_to (role Kind.Leader leader) round grid.now) set.now }
{
    for matchmaker in set {
        out.push(match_a(leader, *matchmaker, round, *grid));
    }
}

/// Asks the matchmakers of a set to forget the rounds below the leader's own.
pub fn ask_to_forget(leader: u16, own: &Entry, set: &[u16], out: &mut Outbox)
    requires spare { length set.now ≤ out.old.spare }
    requires round { IsTrue (field.round.fits own.now.round) }
    ensures { out.new.list
        ≡ out.old.list ++ map (garbage_a_to (role Kind.Leader leader) own.now) set.now }
{
    for matchmaker in set {
        out.push(garbage_a(leader, *matchmaker, own.round, own.grid));
    }
}

/// Asks the acceptors of the first phase to promise the round.
pub fn ask_to_promise(
    leader: u16,
    round: Round,
    cluster: &Cluster,
    phase1: &Phase1,
    out: &mut Outbox,
)
    requires spare { cluster.now.acceptors ≤ out.old.spare }
    requires round { IsTrue (field.round.fits round) }
    ensures { out.new.list ≡ out.old.list
        ++ map (phase1a_to (role Kind.Leader leader) round)
        (members_of cluster.now phase1.now.live) }
{
    for acceptor in 0..cluster.acceptors {
        if phase1.asks(acceptor) {
            out.push(phase1a(leader, acceptor, round));
        }
    }
}

/// Informs the members of the leader's grid that enough replicas hold `mark` slots.
#[tactic(auto, using(cx_role::proofs::Sends::sends), unfolding(cx_field::specs::Fields::mark, cx_wire::specs::Format::u64))]
pub fn inform_members(leader: u16, own: &Entry, mark: u64, cluster: &Cluster, out: &mut Outbox)
    requires spare { cluster.now.acceptors ≤ out.old.spare }
    requires round { IsTrue (field.round.fits own.now.round) }
    requires mark { mark ≤ 2 ^ 40 }
    ensures { out.new.list ≡ out.old.list
        ++ map (inform_to (role Kind.Leader leader) own.now.round mark)
        (members_in cluster.now own.now.grid) }
{
    for acceptor in 0..cluster.acceptors {
        if is_member(&own.grid, acceptor) {
            out.push(inform(leader, acceptor, own.round, mark));
        }
    }
}

/// Announces to `count` batchers that it leads the round.
pub fn tell_batchers(leader: u16, round: Round, count: u16, out: &mut Outbox)
    requires spare { count ≤ out.old.spare }
    requires round { IsTrue (field.round.fits round) }
    ensures list { out.new.list
        ≡ out.old.list ++ map (leads_to (role Kind.Leader leader) round) (below count) }
    ensures spare { out.old.spare ≤ out.new.spare + count }
{
    for batcher in 0..count {
        out.push(leads(leader, batcher, round));
    }
}

fn own_share(cluster: &Cluster) -> u16
    ensures { result ≡ own_share cluster.now }
{
    if cluster.own_proxies {
        cluster.proxies / cluster.leaders
    } else {
        0
    }
}

// The proxy of a leader's slot: all take turns, or each leader's own do.
#[tactic(auto, using(cx_model::proofs::Proxies::shares_fit, cx_model::proofs::Proxies::proxy_below))]
fn proxy_of(cluster: &Cluster, leader: u16, slot: u64) -> u16
    requires { leader < cluster.now.leaders }
    ensures { result ≡ proxy_of cluster.now leader slot }
{
    let share = own_share(cluster);
    if share == 0 {
        return (slot % u64::from(cluster.proxies)) as u16;
    }
    leader * share + (slot % u64::from(share)) as u16
}

/// The value of a slot, for the slot's proxy.
#[tactic(auto, unfolding(cx_field::specs::Fields::slot, cx_field::specs::Fields::mark, cx_wire::specs::Format::u64))]
pub fn proposal(
    cluster: &Cluster,
    leader: u16,
    own: &Entry,
    cw: u64,
    slot: u64,
    value: Value,
) -> Datagram
    requires leader { leader < cluster.now.leaders }
    requires round { IsTrue (field.round.fits own.now.round) }
    requires slot { IsWindowSlot cw slot }
    requires value { IsTrue (field.value.fits value) }
    ensures { result
        ≡ propose_to cluster.now (role Kind.Leader leader) own.now cw
        (record { slot = slot; value = value }) }
{
    let proxy = proxy_of(cluster, leader, slot);
    propose(leader, proxy, own.round, own.grid, slot, cw, value)
}
