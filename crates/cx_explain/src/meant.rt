//! The word that may be meant in the place of another one.

ghost use Rattle.std.specs.Prelude.{◌≡◌, ◌==◌, IfOk, map, option_map};
ghost use Rattle.std.specs.List.{before_first};
ghost use Rattle.cx_explain.specs.Meant.{at_distance, edits, events, keys, kinds, later_words, meant, nearest};
ghost use Rattle.cx_script.specs.Places.{kind_part};

use crate::rule::Rule;
use cx_base::NoMemory;
use cx_script::parted;
use std::alloc::Global;
use strsim::generic_levenshtein;

const EVENTS: [&str; 13] = [
    "write", "read", "session", "deliver", "tick", "lead", "change", "collect", "offer", "snap",
    "replace", "crash", "restart",
];

const LATER_WORDS: [&str; 5] = ["put", "del", "app", "torn", "kept"];

const KINDS: [&str; 10] = [
    "client",
    "batcher",
    "leader",
    "proxy",
    "acceptor",
    "match",
    "replica",
    "unbatcher",
    "reader",
    "replacer",
];

// Not `f`, which each other letter would be taken for.
const KEYS: [&str; 15] = [
    "leaders",
    "proxies",
    "acceptors",
    "replicas",
    "batchers",
    "unbatchers",
    "readers",
    "clients",
    "batch",
    "base_port",
    "pool",
    "replacers",
    "one_entry_a_grid",
    "own_proxies",
    "keep_sets",
];

fn edits(alloc: Global, word: &[u8], other: &str) -> Result<usize, NoMemory>
    ensures { IfOk result (λ count. count ≡ edits word.now other.now) }
{
    Ok(generic_levenshtein(alloc, word, other.as_bytes())?)
}

fn at_distance(
    alloc: Global,
    count: usize,
    word: &[u8],
    known: &[&'static str],
) -> Result<Option<&'static str>, NoMemory>
    ensures { IfOk result (λ found. option_map (λ text. text.now) found
        ≡ at_distance count word.now (map (λ text. text.now) known.now)) }
{
    for other in known {
        if edits(alloc, word, other)? == count {
            return Ok(Some(*other));
        }
    }
    Ok(None)
}

fn nearest(
    alloc: Global,
    word: &[u8],
    known: &[&'static str],
) -> Result<Option<&'static str>, NoMemory>
    ensures { IfOk result (λ found. option_map (λ text. text.now) found
        ≡ nearest word.now (map (λ text. text.now) known.now)) }
{
    if at_distance(alloc, 0, word, known)?.is_some() {
        return Ok(None);
    }
    if let Some(other) = at_distance(alloc, 1, word, known)? {
        return Ok(Some(other));
    }
    Ok(at_distance(alloc, 2, word, known)?)
}

fn near_event(alloc: Global, word: &[u8]) -> Result<Option<&'static str>, NoMemory>
    ensures { IfOk result
        (λ found. option_map (λ text. text.now) found ≡ nearest word.now events) }
{
    Ok(nearest(alloc, word, &EVENTS)?)
}

fn near_word(alloc: Global, word: &[u8]) -> Result<Option<&'static str>, NoMemory>
    ensures { IfOk result
        (λ found. option_map (λ text. text.now) found ≡ nearest word.now later_words) }
{
    Ok(nearest(alloc, word, &LATER_WORDS)?)
}

fn near_kind(alloc: Global, word: &[u8]) -> Result<Option<&'static str>, NoMemory>
    ensures { IfOk result
        (λ found. option_map (λ text. text.now) found ≡ nearest word.now kinds) }
{
    Ok(nearest(alloc, word, &KINDS)?)
}

fn near_key(alloc: Global, word: &[u8]) -> Result<Option<&'static str>, NoMemory>
    ensures { IfOk result
        (λ found. option_map (λ text. text.now) found ≡ nearest word.now keys) }
{
    Ok(nearest(alloc, word, &KEYS)?)
}

fn kind_part(word: &[u8]) -> &[u8]
    ensures { result.now ≡ kind_part word.now }
{
    parted(word, b':').0
}

/// What may be meant by a word that breaks a rule: the nearest known one, at most two edits away.
pub fn meant(alloc: Global, rule: Rule, word: &[u8]) -> Result<Option<&'static str>, NoMemory>
    ensures { IfOk result (λ found. option_map (λ text. text.now) found ≡ meant rule word.now) }
{
    match rule {
        Rule::UnknownEvent => near_event(alloc, word),
        Rule::OtherWord => near_word(alloc, word),
        Rule::Role => near_kind(alloc, kind_part(word)),
        Rule::UnknownKey => near_key(alloc, word),
        _ => Ok(None),
    }
}
