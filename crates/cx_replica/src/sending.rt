//! What a replica sends.

ghost use Rattle.std.specs.Prelude.{◌≡◌, ◌+◌, ◌<◌, ◌≤◌, ◌++◌, length, map, IsTrue};
ghost use Rattle.cx_base.specs.Lists.{below};
ghost use Rattle.cx_base.specs.declared.role.Kind.TheVariants as kind;
ghost use Rattle.cx_field.specs.Fields as field;
ghost use Rattle.cx_model.specs.Replica.{fetch_to, held_to, results_at};
ghost use Rattle.cx_replica.specs.Answering.{answer_at, answers_at};
ghost use Rattle.cx_replica.specs.Sound.{are_answers, are_reads};

use crate::deferred::DeferredReads;
use crate::machine::Machine;
use cx_base::{Answered, Cluster, Few, RoleId};
use cx_letter::{Datagram, fetch, held, read_answer, results};
use cx_model::Deferred;
use cx_role::Outbox;

/// Sends the answers of a slot, if there are any and this replica is the one to do so.
#[tactic(auto, using(crate::proofs::Values::answers_fit))]
pub fn send_results(
    cluster: &Cluster,
    me: RoleId,
    slot: u64,
    answers: Vec<Answered>,
    out: &mut Outbox,
)
    requires kind { me.kind ≡ kind.Replica }
    requires slot { IsTrue (field.slot.fits slot) }
    requires fit { IsTrue (are_answers answers.items) }
    requires few { length answers.items ≤ 8 }
    requires spare { 0 < out.old.spare }
    ensures list { out.new.list ≡ out.old.list ++ results_at cluster.now me slot answers.items }
    ensures spare { out.old.spare ≤ out.new.spare + 1 }
{
    // Replicas take turns, and so do unbatchers.
    if slot % u64::from(cluster.replicas) != u64::from(me.index) || answers.is_empty() {
        return;
    }
    let unbatcher = (slot % u64::from(cluster.unbatchers)) as u16;
    out.push(results(me.index, unbatcher, slot, Few::from_vec(answers)));
}

/// Reports to every leader how many slots are held.
pub fn tell_held(cluster: &Cluster, me: RoleId, mark: u64, out: &mut Outbox)
    requires kind { me.kind ≡ kind.Replica }
    requires mark { IsTrue (field.mark.fits mark) }
    requires spare { cluster.now.leaders ≤ out.old.spare }
    ensures list { out.new.list
        ≡ out.old.list ++ map (held_to me mark) (below cluster.now.leaders) }
    ensures spare { out.old.spare ≤ out.new.spare + cluster.now.leaders }
{
    for leader in 0..cluster.leaders {
        out.push(held(me.index, leader, mark));
    }
}

/// Asks the next replica, if there is another, for the value of the first slot that isn't held.
pub fn ask_next(cluster: &Cluster, me: RoleId, mark: u64, out: &mut Outbox)
    requires kind { me.kind ≡ kind.Replica }
    requires mark { IsTrue (field.mark.fits mark) }
    requires place { me.index < cluster.now.replicas }
    requires spare { 0 < out.old.spare }
    ensures { out.new.list ≡ out.old.list ++ fetch_to cluster.now me mark }
{
    if cluster.replicas > 1 {
        let next = (me.index + 1) % cluster.replicas;
        out.push(fetch(me.index, next, mark));
    }
}

/// The answer to a read where `held` slots are held: the key's text in the map.
#[tactic(auto, unfolding(cx_field::specs::Fields::token))]
pub fn answer_at(me: RoleId, held: u64, machine: &Machine, one: &Deferred) -> Datagram
    requires kind { me.kind ≡ kind.Replica }
    requires held { IsTrue (field.mark.fits held) }
    requires token { IsTrue (field.token.fits one.now.token) }
    ensures { result ≡ answer_at me held machine.now.left.map one.now }
{
    let token = one.token;
    read_answer(
        me.index,
        token.client,
        token.seq,
        held,
        machine.text_at(&one.key),
    )
}

/// Answers each read that waited for no more slots than are held, in order. Room was taken beforehand.
#[tactic(auto, using(crate::proofs::Waiting::drop_next))]
pub fn answer_reads(
    me: RoleId,
    held: u64,
    machine: &Machine,
    deferred: &DeferredReads,
    out: &mut Outbox,
)
    requires kind { me.kind ≡ kind.Replica }
    requires held { IsTrue (field.mark.fits held) }
    requires reads { IsTrue (are_reads deferred.now) }
    requires spare { length deferred.now ≤ out.old.spare }
    ensures { out.new.list ≡ out.old.list ++ answers_at me held machine.now.left.map deferred.now }
{
    for place in 0..deferred.len() {
        let one = deferred.at(place);
        if one.mark <= held {
            out.push(answer_at(me, held, machine, &one));
        }
    }
}
