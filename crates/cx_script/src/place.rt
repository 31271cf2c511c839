//! What a word says in its place.

ghost use Rattle.std.specs.Prelude.{◌≡◌, ◌==◌, ◌-◌, Some, option_and_then};
ghost use Rattle.std.specs.List.{slice_split};
ghost use Rattle.std.specs.Option.{option_copied, option_map_or};
ghost use Rattle.std.specs.Str.{bytes_eq};
ghost use Rattle.cx_script.specs.Places.{fitting, seq_and_floor, seq_word, number_word, key_word, text_word, index_below, index_word, other_word, slot_word, server_kind, server_named, server_word, if_puts_anew, renewing_word};
ghost use Rattle.cx_script.specs.Words.{word_number};

use crate::decimal::number;
use crate::fault::LineFault;
use crate::split::{first_part, parted};
use cx_base::{Cluster, Key, Kind, OUTSTANDING, RoleId, SLOTS, Text, count_of};

/// Whether a word is a text.
pub fn is(word: &[u8], text: &str) -> bool
    ensures { result ≡ bytes_eq word.now text.now }
{
    word == text.as_bytes()
}

fn fitting(seq: u64, floor: u64) -> Option<(u64, u64)>
    ensures { result ≡ fitting seq floor }
{
    if floor < seq && seq - floor <= OUTSTANDING {
        Some((seq, floor))
    } else {
        None
    }
}

// The floor that goes with a number: what a slash has behind it, or the number before where there is no slash.
fn floor_behind(seq: u64, behind: Option<&[u8]>) -> Option<u64>
    ensures { result ≡ option_map_or word_number (option_copied behind.entry) (Some (seq - 1)) }
{
    match behind {
        None => Some(seq.saturating_sub(1)),
        Some(word) => number(word),
    }
}

fn seq_and_floor(word: &[u8]) -> Option<(u64, u64)>
    ensures { result ≡ seq_and_floor (slice_split (λ b. b == 47) word.now) }
{
    let (front, behind) = first_part(word, b'/');
    let seq = number(front)?;
    let floor = floor_behind(seq, behind)?;
    fitting(seq, floor)
}

/// A request's number, and the floor that it tells.
pub fn seq_word(word: &[u8]) -> Result<(u64, u64), LineFault>
    ensures { result ≡ seq_word word.now }
{
    seq_and_floor(word).ok_or(LineFault::Number)
}

/// Any number.
pub fn number_word(word: &[u8]) -> Result<u64, LineFault>
    ensures { result ≡ number_word word.now }
{
    number(word).ok_or(LineFault::Number)
}

/// A slot, at most 2^40.
pub fn slot_word(word: &[u8]) -> Result<u64, LineFault>
    ensures { result ≡ slot_word word.now }
{
    match number(word) {
        Some(slot) if slot <= SLOTS => Ok(slot),
        _ => Err(LineFault::Number),
    }
}

/// A key.
pub fn key_word(word: &[u8]) -> Result<Key, LineFault>
    ensures { result ≡ key_word word.now }
{
    Key::from_bytes(word).ok_or(LineFault::Key)
}

/// A text.
pub fn text_word(word: &[u8]) -> Result<Text, LineFault>
    ensures { result ≡ text_word word.now }
{
    Text::from_bytes(word).ok_or(LineFault::Key)
}

/// The number that digits spell, where it is below a count.
pub fn index_below(count: u16, digits: &[u8]) -> Option<u16>
    ensures { result ≡ index_below count digits.now }
{
    let index = number(digits)?;
    if index < u64::from(count) {
        Some(index as u16)
    } else {
        None
    }
}

/// The index of a role of this kind.
pub fn index_word(cluster: &Cluster, kind: Kind, word: &[u8]) -> Result<u16, LineFault>
    ensures { result ≡ index_word cluster.now kind word.now }
{
    let (name, digits) = parted(word, b':');
    if !is(name, kind.text()) {
        return Err(LineFault::Role);
    }
    index_below(count_of(cluster, kind), digits).ok_or(LineFault::Role)
}

/// The index of another role of this kind than the one of this index.
pub fn other_word(cluster: &Cluster, kind: Kind, first: u16, word: &[u8]) -> Result<u16, LineFault>
    ensures { result ≡ other_word cluster.now kind first word.now }
{
    let index = index_word(cluster, kind, word)?;
    if index == first {
        return Err(LineFault::Role);
    }
    Ok(index)
}

/// The kinds of roles that may stop, restart and tick: all but clients.
const SERVERS: [Kind; 9] = [
    Kind::Batcher,
    Kind::Leader,
    Kind::Proxy,
    Kind::Acceptor,
    Kind::Matchmaker,
    Kind::Replica,
    Kind::Unbatcher,
    Kind::Reader,
    Kind::Replacer,
];

fn server_kind(name: &[u8]) -> Option<Kind>
    ensures { result ≡ server_kind name.now }
{
    SERVERS.iter().copied().find(|kind| is(name, kind.text()))
}

fn server_named(cluster: &Cluster, word: &[u8]) -> Option<RoleId>
    ensures { result ≡ server_named cluster.now word.now }
{
    let (name, digits) = parted(word, b':');
    let kind = server_kind(name)?;
    let index = index_below(count_of(cluster, kind), digits)?;
    Some(RoleId::new(kind, index))
}

/// Any role but a client.
pub fn server_word(cluster: &Cluster, word: &[u8]) -> Result<RoleId, LineFault>
    ensures { result ≡ server_word cluster.now word.now }
{
    server_named(cluster, word).ok_or(LineFault::Role)
}

fn if_puts_anew(role: RoleId) -> Option<RoleId>
    ensures { result ≡ if_puts_anew role }
{
    match role.kind {
        Kind::Acceptor | Kind::Replica | Kind::Reader => Some(role),
        Kind::Client
        | Kind::Batcher
        | Kind::Leader
        | Kind::Proxy
        | Kind::Matchmaker
        | Kind::Unbatcher
        | Kind::Replacer => None,
    }
}

fn renewing_named(cluster: &Cluster, word: &[u8]) -> Option<RoleId>
    ensures { result ≡ option_and_then if_puts_anew (server_named cluster.now word.now) }
{
    if_puts_anew(server_named(cluster, word)?)
}

/// A role that puts its list anew.
pub fn renewing_word(cluster: &Cluster, word: &[u8]) -> Result<RoleId, LineFault>
    ensures { result ≡ renewing_word cluster.now word.now }
{
    renewing_named(cluster, word).ok_or(LineFault::Role)
}
