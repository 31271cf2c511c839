//! How many roles of each kind a cluster has.

ghost use Rattle.std.specs.Prelude.{◌≤◌, ◌+◌, ◌*◌};

/// The counts of a cluster, each in its range; a set of its matchmakers has 2f + 1, and it survives the loss of f of each kind
/// of store.
/// Its roles are the indices below these counts.
#[derive(Clone, Copy, PartialEq, Eq)]
pub struct Cluster {
    pub f: u8,
    pub leaders: u16,
    pub proxies: u16,
    pub acceptors: u16,
    pub replicas: u16,
    pub batchers: u16,
    pub unbatchers: u16,
    pub readers: u16,
    pub clients: u16,
    /// How many commands a batcher gathers before it sends them.
    pub batch: u8,
    /// The port of the first role, where the roles are to be reached over loopback.
    pub base_port: Option<u16>,
    /// How many matchmakers there are. The first 2f + 1 are the first set; the others may be of later sets.
    pub pool: u16,
    pub replacers: u16,
    /// Whether a matchmaker without room records a round whose grid it has, in place of the entries with that grid.
    pub one_entry_a_grid: bool,
    /// Whether each leader has its values voted for through proxy leaders of its own, `proxies / leaders` of them.
    pub own_proxies: bool,
    /// Whether a replacer keeps each set that it comes to know, and knows the last one when it is opened again.
    pub keep_sets: bool,
    pub ghost f_fits: { f ≤ 3 },
    pub ghost some_leader: { 1 ≤ leaders },
    pub ghost leaders_fit: { leaders ≤ 8 },
    pub ghost some_proxy: { 1 ≤ proxies },
    pub ghost proxies_fit: { proxies ≤ 16 },
    pub ghost some_acceptor: { 1 ≤ acceptors },
    pub ghost acceptors_fit: { acceptors ≤ 64 },
    pub ghost some_replicas: { f + 1 ≤ replicas },
    pub ghost replicas_fit: { replicas ≤ 8 },
    pub ghost some_batcher: { 1 ≤ batchers },
    pub ghost batchers_fit: { batchers ≤ 8 },
    pub ghost some_unbatcher: { 1 ≤ unbatchers },
    pub ghost unbatchers_fit: { unbatchers ≤ 8 },
    pub ghost some_reader: { 1 ≤ readers },
    pub ghost readers_fit: { readers ≤ 8 },
    pub ghost some_client: { 1 ≤ clients },
    pub ghost clients_fit: { clients ≤ 64 },
    pub ghost some_batch: { 1 ≤ batch },
    pub ghost batch_fits: { batch ≤ 8 },
    pub ghost some_pool: { 2 * f + 1 ≤ pool },
    pub ghost pool_fits: { pool ≤ 64 },
    pub ghost replacers_fit: { replacers ≤ 4 },
}
