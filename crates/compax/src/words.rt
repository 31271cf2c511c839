//! What the words of a command line ask for, as clap reads them.

ghost use Rattle.std.specs.Prelude.{◌≡◌, ◌∷◌, ℕ, List, [], IfOk, None, Some, true, false, map, codes, string_bytes};
ghost use Rattle.clap.specs.Words.{app_of, found_of, rows_of, rule_of};
ghost use Rattle.clap.specs.declared.builder.command.Command.TheViews.{out-Command};
ghost use Rattle.cx_base.specs.declared.role.Kind.TheVariants.{Batcher, Client};
ghost use Rattle.cx_base.specs.Role.{role};
ghost use Rattle.compax.specs.declared.words.Invocation.TheVariants.{Generate as Gen, Node as Host, Replay};
ghost use Rattle.compax.specs.Words.{IsMatch, asked_by, compax_app, count_rule, generate, generated, hosted, is_set, most_count, most_seed, most_u32, most_u8, node, node_options, number_at, record_rule, roles_at, roles_rule, said, seed_rule, tend_rule, turns_rule, window_at, window_rule};

use crate::roles::NamedRoles;
use clap::error::ErrorKind;
use clap::{Arg, ArgAction, ArgMatches, Command, value_parser};
use std::alloc::{AllocError, Global};

/// What a command line asks for.
#[derive(Drop)]
pub enum Invocation {
    /// To replay a schedule: `replay`.
    Replay,
    /// To run COUNT events that are made from a seed: `gen SEED COUNT`.
    Generate {
        seed: u64,
        count: u16,
    },
    /// To host these roles for at most N turns, and to tend them where a number is given; each client among them may have W requests
    /// outstanding, 1 to 64. With the flag their run is recorded: `node --record --turns N --tend N --window W ROLE..`.
    Node {
        turns: u32,
        tend: Option<u32>,
        window: u8,
        recording: bool,
        roles: NamedRoles,
    },
}

fn seed<'a>(alloc: Global) -> Arg<'a>
    ensures rule { rule_of result ≡ seed_rule }
    ensures local { result.global ≡ false }
{
    Arg::new(alloc, "SEED")
        .required(true)
        .value_parser(value_parser!(u64))
}

fn count<'a>(alloc: Global) -> Arg<'a>
    ensures rule { rule_of result ≡ count_rule }
    ensures local { result.global ≡ false }
{
    Arg::new(alloc, "COUNT")
        .required(true)
        .value_parser(value_parser!(u16))
}

fn turns<'a>(alloc: Global) -> Arg<'a>
    ensures rule { rule_of result ≡ turns_rule }
    ensures local { result.global ≡ false }
{
    Arg::new(alloc, "turns")
        .long("turns")
        .default_value("1000000")
        .value_parser(value_parser!(u32).range(1..=1_000_000_000))
}

fn tend<'a>(alloc: Global) -> Arg<'a>
    ensures rule { rule_of result ≡ tend_rule }
    ensures local { result.global ≡ false }
{
    Arg::new(alloc, "tend")
        .long("tend")
        .value_parser(value_parser!(u32).range(64..=65_536))
}

fn window<'a>(alloc: Global) -> Arg<'a>
    ensures rule { rule_of result ≡ window_rule }
    ensures local { result.global ≡ false }
{
    Arg::new(alloc, "window")
        .long("window")
        .default_value("1")
        .value_parser(value_parser!(u8))
}

fn record<'a>(alloc: Global) -> Arg<'a>
    ensures rule { rule_of result ≡ record_rule }
    ensures local { result.global ≡ false }
{
    Arg::new(alloc, "record")
        .long("record")
        .action(ArgAction::SetTrue)
}

fn roles<'a>(alloc: Global) -> Arg<'a>
    ensures rule { rule_of result ≡ roles_rule }
    ensures local { result.global ≡ false }
{
    Arg::new(alloc, "ROLE").required(true).num_args(1..)
}

fn generate<'a>(alloc: Global) -> Result<Command<'a>, AllocError>
    ensures app { IfOk result (λ c. app_of c ≡ generate) }
    ensures local { IfOk result (λ c. (out-Command c).has_globals ≡ false) }
{
    Command::new(alloc, "gen")
        .arg(seed(alloc))?
        .arg(count(alloc))
}

// `node` with its options alone.
fn node_options<'a>(alloc: Global) -> Result<Command<'a>, AllocError>
    ensures app { IfOk result (λ c. app_of c ≡ node_options) }
    ensures local { IfOk result (λ c. (out-Command c).has_globals ≡ false) }
{
    Command::new(alloc, "node")
        .arg(turns(alloc))?
        .arg(tend(alloc))?
        .arg(window(alloc))?
        .arg(record(alloc))
}

fn node<'a>(alloc: Global) -> Result<Command<'a>, AllocError>
    ensures app { IfOk result (λ c. app_of c ≡ node) }
    ensures local { IfOk result (λ c. (out-Command c).has_globals ≡ false) }
{
    node_options(alloc)?.arg(roles(alloc))
}

fn command<'a>(alloc: Global) -> Result<Command<'a>, AllocError>
    ensures { IfOk result (λ c. app_of c ≡ compax_app) }
{
    Command::new(alloc, "compax")
        .subcommand_required(true)
        .subcommand(Command::new(alloc, "replay"))?
        .subcommand(generate(alloc)?)?
        .subcommand(node(alloc)?)
}

fn seed_given(matches: &ArgMatches) -> Option<u64>
    ensures { result ≡ number_at most_seed (codes "SEED") (rows_of (found_of matches.now)) }
{
    matches.get_one::<u64>("SEED")
}

fn count_given(matches: &ArgMatches) -> Option<u16>
    ensures { result ≡ number_at most_count (codes "COUNT") (rows_of (found_of matches.now)) }
{
    matches.get_one::<u16>("COUNT")
}

// What the values of `gen` ask for.
fn generated(matches: &ArgMatches) -> Option<Invocation>
    ensures { result ≡ generated (rows_of (found_of matches.now)) }
{
    match (seed_given(matches), count_given(matches)) {
        (Some(seed), Some(count)) => Some(Invocation::Generate { seed, count }),
        _ => None,
    }
}

fn turns_given(matches: &ArgMatches) -> Option<u32>
    ensures { result ≡ number_at most_u32 (codes "turns") (rows_of (found_of matches.now)) }
{
    matches.get_one::<u32>("turns")
}

fn tend_given(matches: &ArgMatches) -> Option<u32>
    ensures { result ≡ number_at most_u32 (codes "tend") (rows_of (found_of matches.now)) }
{
    matches.get_one::<u32>("tend")
}

// The number under `--window`, whatever it is.
fn number_of_window(matches: &ArgMatches) -> Option<u8>
    ensures { result ≡ number_at most_u8 (codes "window") (rows_of (found_of matches.now)) }
{
    matches.get_one::<u8>("window")
}

fn window_given(matches: &ArgMatches) -> Option<u8>
    ensures { result ≡ window_at (rows_of (found_of matches.now)) }
{
    let window = number_of_window(matches)?;
    if 1 <= window && window <= 64 {
        return Some(window);
    }
    None
}

// Whether `--record` is among the words.
fn recording_given(matches: &ArgMatches) -> bool
    ensures { result ≡ is_set (codes "record") (rows_of (found_of matches.now)) }
{
    matches.get_one::<bool>("record").unwrap_or(false)
}

fn roles_given(alloc: Global, matches: &ArgMatches) -> Result<Option<NamedRoles>, AllocError>
    ensures { IfOk result
        (λ roles. roles ≡ roles_at (codes "ROLE") (rows_of (found_of matches.now))) }
{
    match matches.get_raw("ROLE") {
        Some(words) => NamedRoles::named(alloc, words),
        None => Ok(None),
    }
}

// What the values of `node` ask for.
fn hosted(alloc: Global, matches: &ArgMatches) -> Result<Option<Invocation>, AllocError>
    ensures { IfOk result (λ invocation. invocation ≡ hosted (rows_of (found_of matches.now))) }
{
    match (
        turns_given(matches),
        window_given(matches),
        roles_given(alloc, matches)?,
    ) {
        (Some(turns), Some(window), Some(roles)) => Ok(Some(Invocation::Node {
            turns,
            tend: tend_given(matches),
            window,
            recording: recording_given(matches),
            roles,
        })),
        _ => Ok(None),
    }
}

// What a subcommand asks for by its values.
fn asked_by(alloc: Global, name: &str, given: &ArgMatches) -> Result<Option<Invocation>, AllocError>
    ensures { IfOk result
        (λ invocation. invocation ≡ asked_by (name.now, rows_of (found_of given.now))) }
{
    if name == "replay" {
        Ok(Some(Invocation::Replay))
    } else if name == "gen" {
        Ok(generated(given))
    } else if name == "node" {
        hosted(alloc, given)
    } else {
        Ok(None)
    }
}

// The matches of the words, none where they give a fault.
fn matched<'a>(alloc: Global, words: &'a [String]) -> Result<Option<ArgMatches<'a>>, AllocError>
    ensures { IfOk result (IsMatch (map string_bytes words.entry.now)) }
{
    match command(alloc)?.try_get_matches_from(words) {
        Ok(matches) => Ok(Some(matches)),
        Err(error) => match error.kind() {
            ErrorKind::OutOfMemory => Err(AllocError),
            _ => Ok(None),
        },
    }
}

/// What the words ask for, the first of which is the program's name. None exactly where they give a fault: another
/// subcommand or none, a value that is missing, out of its range or one too many, a word that names no role, a role that is named
/// twice, and where they ask for help.
pub fn said(alloc: Global, words: &[String]) -> Result<Option<Invocation>, AllocError>
    ensures { IfOk result (λ invocation. invocation ≡ said (map string_bytes words.now)) }
{
    let Some(matches) = matched(alloc, words)? else {
        return Ok(None);
    };
    match matches.subcommand() {
        Some((name, given)) => asked_by(alloc, name, given),
        None => Ok(None),
    }
}

/// What words say that are written out, whatever the program is called: a law of the definition.
#[tactic(auto, using(crate::proofs::Spoken::replay_said, crate::proofs::Spoken::least_said, crate::proofs::Spoken::most_said, crate::proofs::Spoken::seed_above, crate::proofs::Spoken::count_above, crate::proofs::Spoken::nothing_said, crate::proofs::Spoken::help_said, crate::proofs::Spoken::node_said, crate::proofs::Spoken::turns_said, crate::proofs::Spoken::no_turn_said, crate::proofs::Spoken::tend_said, crate::proofs::Spoken::most_tend_said, crate::proofs::Spoken::tend_below, crate::proofs::Spoken::tend_above, crate::proofs::Spoken::tend_twice, crate::proofs::Spoken::window_said, crate::proofs::Spoken::no_window_said, crate::proofs::Spoken::window_above, crate::proofs::Spoken::record_said, crate::proofs::Spoken::all_said, crate::proofs::Spoken::record_behind, crate::proofs::Spoken::record_twice, crate::proofs::Spoken::record_valued, crate::proofs::Spoken::no_role_said, crate::proofs::Spoken::twice_said, crate::proofs::Spoken::misspelt_said))]
pub fn said_of_words_written_out()
    ensures replay { (program : List ℕ) → said (program ∷ codes "replay" ∷ []) ≡ Some Replay }
    ensures least { (program : List ℕ)
        → said (program ∷ codes "gen" ∷ codes "0" ∷ codes "0" ∷ []) ≡ Some (Gen 0 0) }
    ensures most { (program : List ℕ)
        → said (program ∷ codes "gen" ∷ codes "18446744073709551615" ∷ codes "65535" ∷ [])
        ≡ Some (Gen 18446744073709551615 65535) }
    ensures seed_above { (program : List ℕ)
        → said (program ∷ codes "gen" ∷ codes "18446744073709551616" ∷ codes "0" ∷ []) ≡ None }
    ensures count_above { (program : List ℕ)
        → said (program ∷ codes "gen" ∷ codes "0" ∷ codes "65536" ∷ []) ≡ None }
    ensures nothing { (program : List ℕ) → said (program ∷ []) ≡ None }
    ensures help { (program : List ℕ) → said (program ∷ codes "--help" ∷ []) ≡ None }
    ensures node { (program : List ℕ) → said (program ∷ codes "node" ∷ codes "client:0" ∷ [])
        ≡ Some (Host 1000000 None 1 false (role Client 0 ∷ [])) }
    ensures turns { (program : List ℕ)
        → said (program ∷ codes "node" ∷ codes "--turns" ∷ codes "75" ∷ codes "client:0"
        ∷ codes "batcher:0" ∷ [])
        ≡ Some (Host 75 None 1 false (role Client 0 ∷ role Batcher 0 ∷ [])) }
    ensures no_turn { (program : List ℕ)
        → said (program ∷ codes "node" ∷ codes "--turns" ∷ codes "0" ∷ codes "client:0" ∷ [])
        ≡ None }
    ensures tend { (program : List ℕ)
        → said (program ∷ codes "node" ∷ codes "--tend" ∷ codes "64" ∷ codes "client:0" ∷ [])
        ≡ Some (Host 1000000 (Some 64) 1 false (role Client 0 ∷ [])) }
    ensures most_tend { (program : List ℕ)
        → said (program ∷ codes "node" ∷ codes "--tend" ∷ codes "65536" ∷ codes "--turns"
        ∷ codes "75"
        ∷ codes "client:0" ∷ []) ≡ Some (Host 75 (Some 65536) 1 false (role Client 0 ∷ [])) }
    ensures tend_below { (program : List ℕ)
        → said (program ∷ codes "node" ∷ codes "--tend" ∷ codes "63" ∷ codes "client:0" ∷ [])
        ≡ None }
    ensures tend_above { (program : List ℕ)
        → said (program ∷ codes "node" ∷ codes "--tend" ∷ codes "65537" ∷ codes "client:0"
        ∷ []) ≡ None }
    ensures tend_twice { (program : List ℕ)
        → said (program ∷ codes "node" ∷ codes "--tend" ∷ codes "64" ∷ codes "--tend" ∷ codes "64"
        ∷ codes "client:0" ∷ []) ≡ None }
    ensures window { (program : List ℕ)
        → said (program ∷ codes "node" ∷ codes "--window" ∷ codes "64" ∷ codes "client:0" ∷ [])
        ≡ Some (Host 1000000 None 64 false (role Client 0 ∷ [])) }
    ensures no_window { (program : List ℕ)
        → said (program ∷ codes "node" ∷ codes "--window" ∷ codes "0" ∷ codes "client:0" ∷ [])
        ≡ None }
    ensures window_above { (program : List ℕ)
        → said (program ∷ codes "node" ∷ codes "--window" ∷ codes "65" ∷ codes "leader:0" ∷ [])
        ≡ None }
    ensures record { (program : List ℕ)
        → said (program ∷ codes "node" ∷ codes "--record" ∷ codes "client:0" ∷ [])
        ≡ Some (Host 1000000 None 1 true (role Client 0 ∷ [])) }
    ensures all { (program : List ℕ)
        → said (program ∷ codes "node" ∷ codes "--tend" ∷ codes "64" ∷ codes "--window" ∷ codes "4"
        ∷ codes "--turns" ∷ codes "75" ∷ codes "--record" ∷ codes "client:0" ∷ [])
        ≡ Some (Host 75 (Some 64) 4 true (role Client 0 ∷ [])) }
    ensures record_behind { (program : List ℕ)
        → said (program ∷ codes "node" ∷ codes "client:0" ∷ codes "--record" ∷ codes "batcher:0"
        ∷ []) ≡ Some (Host 1000000 None 1 true (role Client 0 ∷ role Batcher 0 ∷ [])) }
    ensures record_twice { (program : List ℕ)
        → said (program ∷ codes "node" ∷ codes "--record" ∷ codes "--record" ∷ codes "client:0"
        ∷ []) ≡ None }
    ensures record_valued { (program : List ℕ)
        → said (program ∷ codes "node" ∷ codes "--record=true" ∷ codes "client:0" ∷ []) ≡ None }
    ensures no_role { (program : List ℕ) → said (program ∷ codes "node" ∷ []) ≡ None }
    ensures twice { (program : List ℕ)
        → said (program ∷ codes "node" ∷ codes "client:0" ∷ codes "client:0" ∷ []) ≡ None }
    ensures misspelt { (program : List ℕ)
        → said (program ∷ codes "node" ∷ codes "claent:0" ∷ []) ≡ None }
{}
