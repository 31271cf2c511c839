//! Which roles a node may host.

ghost use Rattle.std.specs.Prelude.{◌≡◌};
ghost use Rattle.std.specs.List.{list_all, list_any};
ghost use Rattle.cx_base.specs.declared.role.Kind.{Kind};
ghost use Rattle.cx_base.specs.declared.role.RoleId.{RoleId};
ghost use Rattle.cx_base.specs.Cluster.{count_of};
ghost use Rattle.cx_base.specs.Lists.{below};
ghost use Rattle.cx_base.specs.Role.{role, same_role};
ghost use Rattle.cx_model.specs.Names.{names_role};
ghost use Rattle.cx_node.specs.Input.{are_all, may_host};

use cx_base::{Cluster, Kind, RoleId, count_of};
use cx_role::names_role;

const KINDS: [Kind; 10] = [
    Kind::Client,
    Kind::Batcher,
    Kind::Leader,
    Kind::Proxy,
    Kind::Acceptor,
    Kind::Matchmaker,
    Kind::Replica,
    Kind::Unbatcher,
    Kind::Reader,
    Kind::Replacer,
];

// Whether each role is in the cluster.
fn are_named(cluster: &Cluster, roles: &[RoleId]) -> bool
    ensures { result ≡ list_all (λ (r : RoleId). names_role cluster.now r) roles.now }
{
    for role in roles {
        if !names_role(cluster, *role) {
            return false;
        }
    }
    true
}

// Whether a role is among these.
fn is_among(role: RoleId, roles: &[RoleId]) -> bool
    ensures { result ≡ list_any (same_role role) roles.now }
{
    roles.iter().any(|other| role.is(*other))
}

// Whether all roles of a kind are among these.
#[tactic(auto, using(cx_grid::proofs::Crossing::numbers_more))]
fn has_kind(cluster: &Cluster, kind: Kind, roles: &[RoleId]) -> bool
    ensures { result ≡ list_all (λ i. list_any (same_role (role kind i)) roles.now)
        (below (count_of cluster.now kind)) }
{
    let count = count_of(cluster, kind);
    for index in 0..count {
        if !is_among(RoleId { kind, index }, roles) {
            return false;
        }
    }
    true
}

// Whether all roles of these kinds are.
fn have_kinds(cluster: &Cluster, kinds: &[Kind], roles: &[RoleId]) -> bool
    ensures { result
        ≡ list_all (λ (k : Kind). list_all (λ i. list_any (same_role (role k i)) roles.now)
        (below (count_of cluster.now k))) kinds.now }
{
    for kind in kinds {
        if !has_kind(cluster, *kind, roles) {
            return false;
        }
    }
    true
}

// Whether all roles of the cluster are.
fn are_all(cluster: &Cluster, roles: &[RoleId]) -> bool
    ensures { result ≡ are_all cluster.now roles.now }
{
    have_kinds(cluster, &KINDS, roles)
}

/// Whether a node may host these roles: each is in the cluster, and where the node records no other is.
pub fn may_host(recording: bool, cluster: &Cluster, roles: &[RoleId]) -> bool
    ensures { result ≡ may_host recording cluster.now roles.now }
{
    are_named(cluster, roles) && (!recording || are_all(cluster, roles))
}
