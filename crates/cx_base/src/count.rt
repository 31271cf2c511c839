//! How many roles of a kind a cluster has.

ghost use Rattle.std.specs.Prelude.{◌≡◌, ◌≤◌};
ghost use Rattle.cx_base.specs.Cluster.{count_of};

use crate::cluster::Cluster;
use crate::role::Kind;

/// The count of a kind of role; of the matchmakers, 2f + 1 are in each set (JSys 2021).
pub fn count_of(cluster: &Cluster, kind: Kind) -> u16
    ensures count { result ≡ count_of cluster.now kind }
    ensures most { result ≤ 64 }
{
    match kind {
        Kind::Client => cluster.clients,
        Kind::Batcher => cluster.batchers,
        Kind::Leader => cluster.leaders,
        Kind::Proxy => cluster.proxies,
        Kind::Acceptor => cluster.acceptors,
        Kind::Matchmaker => cluster.pool,
        Kind::Replica => cluster.replicas,
        Kind::Unbatcher => cluster.unbatchers,
        Kind::Reader => cluster.readers,
        Kind::Replacer => cluster.replacers,
    }
}
