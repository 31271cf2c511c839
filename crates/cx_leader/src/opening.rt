//! What a leader that is opened begins with.

ghost use Rattle.std.specs.Prelude.{◌≡◌};
ghost use Rattle.cx_role.specs.Prelude.{None, map, IfOk, IfErr, IsTrue, below, all_fit, folded_from, refused_from};
ghost use Rattle.cx_model.specs.Leader.{leader_rules};
ghost use Rattle.cx_role.specs.Wake.{IsWakeFault};
ghost use Rattle.cx_leader.specs.State.{own_fits};

use crate::rounds::{may_begin, round_of};
use cx_base::{Cluster, NoMemory, RoleId};
use cx_field::Entry;
use cx_letter::Record;
use cx_role::WakeFault;
use std::alloc::Global;

/// The numbers of slots held before any replica has reported one.
#[tactic(auto, using(cx_role::proofs::Sends::sends))]
pub fn none_held(alloc: Global, replicas: u16) -> Result<Vec<u64>, NoMemory>
    ensures { IfOk result (λ held. held.items ≡ map (λ r. 0) (below replicas)) }
{
    let mut held = Vec::with_capacity(alloc, usize::from(replicas))?;
    for _ in 0..replicas {
        held.push(0)?;
    }
    Ok(held)
}

/// The round that these records leave after an earlier one, with its grid. The fault names the first record that this leader
/// can't have appended.
#[tactic(auto, unfolding(cx_letter::specs::Records::kept_record, cx_letter::specs::Records::round_grid))]
pub fn last_begun(
    before: Option<Entry>,
    cluster: &Cluster,
    me: RoleId,
    records: &[Record],
) -> Result<Option<Entry>, WakeFault>
    requires before { IsTrue (own_fits me.index before) }
    requires records { IsTrue (all_fit records.now) }
    ensures own { IfOk result (λ own.
        record { own = own } ≡ folded_from leader_rules (record { own = before }) records.now) }
    ensures whole { IfOk result (λ _.
        refused_from leader_rules cluster.now me (record { own = before }) 0 records.now ≡ None) }
    ensures fits { IfOk result (λ own. IsTrue (own_fits me.index own)) }
    ensures fault { IfErr result (IsWakeFault
        (refused_from leader_rules cluster.now me (record { own = before }) 0 records.now)) }
{
    let mut own = before;
    for (index, record) in records.iter().enumerate() {
        let Record::Round { round, grid } = record else {
            return Err(WakeFault::Record { index });
        };
        if !may_begin(cluster, me.index, round_of(&own), *round, grid) {
            return Err(WakeFault::Record { index });
        }
        own = Some(Entry {
            round: *round,
            grid: *grid,
        });
    }
    Ok(own)
}
