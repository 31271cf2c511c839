//! The keys of a header.

ghost use Rattle.std.specs.Prelude.{◌≡◌};
ghost use Rattle.cx_cluster.specs.Keys.{key_name, is_key};

/// A key of the header: a count of a cluster, the port of its first role, or a choice.
#[derive(Clone, Copy, Debug, PartialEq, Eq)]
pub enum ClusterKey {
    F,
    Leaders,
    Proxies,
    Acceptors,
    Replicas,
    Batchers,
    Unbatchers,
    Readers,
    Clients,
    Batch,
    BasePort,
    Pool,
    Replacers,
    OneEntryAGrid,
    OwnProxies,
    KeepSets,
}

const KEYS: [ClusterKey; 16] = [
    ClusterKey::F,
    ClusterKey::Leaders,
    ClusterKey::Proxies,
    ClusterKey::Acceptors,
    ClusterKey::Replicas,
    ClusterKey::Batchers,
    ClusterKey::Unbatchers,
    ClusterKey::Readers,
    ClusterKey::Clients,
    ClusterKey::Batch,
    ClusterKey::BasePort,
    ClusterKey::Pool,
    ClusterKey::Replacers,
    ClusterKey::OneEntryAGrid,
    ClusterKey::OwnProxies,
    ClusterKey::KeepSets,
];

impl ClusterKey {
    /// How it is written.
    pub fn name(self) -> &'static str
        ensures { result.now ≡ key_name self }
    {
        match self {
            ClusterKey::F => "f",
            ClusterKey::Leaders => "leaders",
            ClusterKey::Proxies => "proxies",
            ClusterKey::Acceptors => "acceptors",
            ClusterKey::Replicas => "replicas",
            ClusterKey::Batchers => "batchers",
            ClusterKey::Unbatchers => "unbatchers",
            ClusterKey::Readers => "readers",
            ClusterKey::Clients => "clients",
            ClusterKey::Batch => "batch",
            ClusterKey::BasePort => "base_port",
            ClusterKey::Pool => "pool",
            ClusterKey::Replacers => "replacers",
            ClusterKey::OneEntryAGrid => "one_entry_a_grid",
            ClusterKey::OwnProxies => "own_proxies",
            ClusterKey::KeepSets => "keep_sets",
        }
    }
}

impl std::fmt::Display for ClusterKey {
    fn fmt<W: std::fmt::Write>(&self, f: &mut std::fmt::Formatter<W>) -> std::fmt::Result {
        f.write_str(self.name())
    }
}

/// Whether a text is a key of a header.
pub fn is_key(text: &str) -> bool
    ensures { result ≡ is_key text.now }
{
    KEYS.iter().any(|key| key.name() == text)
}
