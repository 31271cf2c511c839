//! Reading a header.

ghost use Rattle.std.specs.Prelude.{◌≡◌, ◌≢◌, ◌≤◌, option_map, string_bytes, find, not, IfOk, IfErr, Ok, Err};
ghost use Rattle.std.specs.Option.{option_copied};
ghost use Rattle.std.specs.BTreeMap.{keys, IsOrdered};
ghost use Rattle.std.specs.String.{string_cmp};
ghost use Rattle.cx_cluster.specs.Reading.{IsNumber, ranged, value_number, number_at, optional_at, most_own, port_at, cluster_at, header_cluster};
ghost use Rattle.cx_cluster.specs.declared.fault.ClusterFault.TheVariants.{NoMemory, Unknown};
ghost use Rattle.cx_cluster.specs.declared.key.ClusterKey.TheVariants.{OwnProxies};
ghost use Rattle.cx_cluster.specs.Keys.{key_name, is_key};
ghost use Rattle.toml.specs.Data.{get_member};
ghost use Rattle.toml.specs.View.{table_view, view};

use crate::fault::{ClusterFault, UnknownKey};
use crate::key::{ClusterKey, is_key};
use cx_base::{ACCEPTORS, BATCH, CLIENTS, Cluster, MATCHMAKERS, MAX_F, PROXIES, REPLACERS, ROLES};
use std::alloc::Global;
use toml::{Table, Value};

// The counts of a header have 16 bits.
const MAX_CLIENTS: u16 = CLIENTS as u16;

const MAX_BATCH: u16 = BATCH as u16;

/// A number, where it is from `low` to `high`.
fn number_within(key: ClusterKey, number: i64, low: u16, high: u16) -> Result<u16, ClusterFault>
    ensures { IsNumber result (ranged key low high number) }
{
    match u16::try_from(number) {
        Ok(small) if low <= small && small <= high => Ok(small),
        _ => Err(ClusterFault::Range(key, number)),
    }
}

/// The value under a key.
fn member(table: &Table, key: ClusterKey) -> Option<&Value>
    ensures { option_map (λ value. view value.now) result
        ≡ get_member (key_name key) (table_view table.now) }
{
    table.get(key.name())
}

/// A value as a number from `low` to `high`.
fn value_number(key: ClusterKey, value: &Value, low: u16, high: u16) -> Result<u16, ClusterFault>
    ensures { IsNumber result (value_number key low high (view value.now)) }
{
    match value.as_integer() {
        Some(number) => number_within(key, number, low, high),
        None => Err(ClusterFault::NotNumber(key)),
    }
}

/// The number under a key, from `low` to `high`.
fn number(table: &Table, key: ClusterKey, low: u16, high: u16) -> Result<u16, ClusterFault>
    ensures { IsNumber result (number_at (table_view table.now) key low high) }
{
    match member(table, key) {
        Some(value) => value_number(key, value, low, high),
        None => Err(ClusterFault::Missing(key)),
    }
}

/// The number under a key that may be left out, from `low` to `high`; it is `low` then.
fn optional(table: &Table, key: ClusterKey, low: u16, high: u16) -> Result<u16, ClusterFault>
    requires { low ≤ high }
    ensures { IsNumber result (optional_at (table_view table.now) key low high) }
{
    match member(table, key) {
        Some(value) => value_number(key, value, low, high),
        None => Ok(low),
    }
}

/// The port, which may be left out.
fn port(table: &Table) -> Result<Option<u16>, ClusterFault>
    ensures { result ≡ port_at (table_view table.now) }
{
    match member(table, ClusterKey::BasePort) {
        Some(value) => Ok(Some(value_number(ClusterKey::BasePort, value, 1024, 60000)?)),
        None => Ok(None),
    }
}

/// The number of `own_proxies`: at most 1 where all leaders can have the same number of proxies, else 0.
fn own_proxies(table: &Table, leaders: u16, proxies: u16) -> Result<u16, ClusterFault>
    requires { 1 ≤ leaders }
    ensures { IsNumber result
        (optional_at (table_view table.now) OwnProxies 0 (most_own leaders proxies)) }
{
    if proxies % leaders == 0 {
        return optional(table, ClusterKey::OwnProxies, 0, 1);
    }
    optional(table, ClusterKey::OwnProxies, 0, 0)
}

/// The cluster of a table, or the fault of the first key that has one.
#[tactic(auto, unfolding(crate::specs::Reading::cluster_at))]
fn cluster_of(table: &Table) -> Result<Cluster, ClusterFault>
    ensures { result ≡ cluster_at (table_view table.now) }
{
    let f = number(table, ClusterKey::F, 0, MAX_F)?;
    let leaders = number(table, ClusterKey::Leaders, 1, ROLES)?;
    let proxies = number(table, ClusterKey::Proxies, 1, PROXIES)?;
    let acceptors = number(table, ClusterKey::Acceptors, 1, ACCEPTORS)?;
    let replicas = number(table, ClusterKey::Replicas, f + 1, ROLES)?;
    let batchers = number(table, ClusterKey::Batchers, 1, ROLES)?;
    let unbatchers = number(table, ClusterKey::Unbatchers, 1, ROLES)?;
    let readers = number(table, ClusterKey::Readers, 1, ROLES)?;
    let clients = number(table, ClusterKey::Clients, 1, MAX_CLIENTS)?;
    let batch = number(table, ClusterKey::Batch, 1, MAX_BATCH)?;
    let base_port = port(table)?;
    let pool = optional(table, ClusterKey::Pool, 2 * f + 1, MATCHMAKERS)?;
    let replacers = optional(table, ClusterKey::Replacers, 0, REPLACERS)?;
    let one_entry_a_grid = optional(table, ClusterKey::OneEntryAGrid, 0, 1)?;
    let own_proxies = own_proxies(table, leaders, proxies)?;
    let keep_sets = optional(table, ClusterKey::KeepSets, 0, 1)?;
    Ok(Cluster {
        f: f as u8,
        leaders,
        proxies,
        acceptors,
        replicas,
        batchers,
        unbatchers,
        readers,
        clients,
        batch: batch as u8,
        base_port,
        pool,
        replacers,
        one_entry_a_grid: one_entry_a_grid == 1,
        own_proxies: own_proxies == 1,
        keep_sets: keep_sets == 1,
    })
}

/// The first key of a table that no header has. The keys of a table ascend.
fn first_unknown(table: &Table) -> Option<&String>
    ensures found { option_copied result
        ≡ find (λ key. not (is_key (string_bytes key))) (keys table.now) }
    ensures ordered { IsOrdered string_cmp table.now }
{
    table.keys().find(|key| !is_key(key.as_str()))
}

fn unknown(alloc: Global, key: &str) -> ClusterFault
    ensures { result ≢ NoMemory → result ≡ Unknown key.now }
{
    match String::from_str(alloc, key) {
        Ok(text) => ClusterFault::Unknown(UnknownKey::from_text(text)),
        Err(_) => ClusterFault::NoMemory,
    }
}

/// The cluster that a header says, or the first fault, in this order: the bytes are no TOML document; a key that no header
/// has, the least in byte order; then for each key in the order of `ClusterKey`, that it is missing (the last six
/// may be), no whole number, or outside its range.
///
/// The ranges: `f` 0 to 3, `leaders` 1 to 8, `proxies` 1 to 16, `acceptors` 1 to 64, `replicas` f + 1 to 8, `batchers`,
/// `unbatchers` and `readers` 1 to 8, `clients` 1 to 64, `batch` 1 to 8, `base_port` 1024 to 60000, `pool` 2f + 1 to 64,
/// `replacers` 0 to 4, `one_entry_a_grid` 0 to 1, `own_proxies` 0 to 1 where `leaders` divides `proxies`, else 0,
/// `keep_sets` 0 to 1. Without `base_port` there is no port; another of the last six that is missing is the least of its
/// range (this project's own form; TOML is that of the crate `toml`).
pub fn read(alloc: Global, bytes: &[u8]) -> Result<Cluster, ClusterFault>
    ensures cluster { IfOk result (λ cluster. header_cluster bytes.now ≡ Ok cluster) }
    ensures fault { IfErr result
        (λ fault. fault ≢ NoMemory → header_cluster bytes.now ≡ Err fault) }
{
    let table = match toml::table_from_slice(alloc, bytes) {
        Ok(table) => table,
        Err(fault) if fault.is_memory() => return Err(ClusterFault::NoMemory),
        Err(_) => return Err(ClusterFault::Toml),
    };
    if let Some(key) = first_unknown(&table) {
        return Err(unknown(alloc, key.as_str()));
    }
    cluster_of(&table)
}
