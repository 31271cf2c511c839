//! Where in a line its first fault is.

ghost use Rattle.std.specs.Prelude.{◌≡◌, ◌≤◌, ◌==◌, ◌+◌, ◌++◌, ℕ, [], IfOk, IfSome, codes, drop, find, if◌then◌else◌, length, nat_lt, not, option_map, position, slice_get, take, unwrap_or};
ghost use Rattle.std.specs.List.{list_all};
ghost use Rattle.std.specs.Option.{option_map_or};
ghost use Rattle.cx_base.specs.Lists.{below};
ghost use Rattle.cx_explain.specs.Spots.{bad_spot, ends_spoilt, ends_word, fault_spot, is_fault, is_free, is_free_from, is_request, is_spoilt, is_word_fault, is_word_fault_with, last_word, line_spot, node_spot, rule_of, spoilt_end, spot_at, word_start};
ghost use Rattle.cx_script.specs.Grammar.{line_event};
ghost use Rattle.cx_script.specs.Words.{is_blank};

use crate::rule::Rule;
use cx_base::{Cluster, Event, MAX_LINES, NoMemory};
use cx_script::{LineFault, line};
use std::alloc::Global;
use std::marker::Model;

/// A column, counted from 1 in bytes, the rule that is broken there, and the word that breaks it, if there is one.
#[derive(Drop)]
pub struct Spot<'a> {
    column: u64,
    rule: Rule,
    word: &'a [u8],
}

impl<'a> Model for Spot<'a> {
    ghost use Rattle.cx_explain.specs.Spots.{Spotted};

    ghost Value = { Spotted };

    ghost view = { λ s. record { column = s.column; rule = s.rule; word = s.word.now } };
}

impl<'a> Spot<'a> {
    ghost use Rattle.cx_explain.specs.Spots.{spotted};

    fn new(column: u64, rule: Rule, word: &'a [u8]) -> Self
        ensures { result ≡ spotted column rule word.now }
    {
        Spot { column, rule, word }
    }

    /// The column.
    pub fn column(&self) -> u64
        ensures { result ≡ self.now.column }
    {
        self.column
    }

    /// The rule.
    pub fn rule(&self) -> Rule
        ensures { result ≡ self.now.rule }
    {
        self.rule
    }

    /// The word.
    pub fn word(&self) -> &[u8]
        ensures { result.now ≡ self.now.word }
    {
        self.word
    }
}

/// Whether a byte is a space or a tab.
pub fn is_blank(byte: u8) -> bool
    ensures { result ≡ is_blank byte }
{
    byte == b' ' || byte == b'\t'
}

fn is_word_fault(cluster: &Cluster, bytes: &[u8]) -> bool
    ensures { result ≡ is_word_fault (line_event cluster.now bytes.now) }
{
    match line(cluster, bytes) {
        Ok(_) => false,
        Err(LineFault::Word) => true,
        Err(LineFault::Long) => false,
        Err(LineFault::Number) => false,
        Err(LineFault::Role) => false,
        Err(LineFault::Grid) => false,
        Err(LineFault::Key) => false,
    }
}

fn is_fault(cluster: &Cluster, bytes: &[u8]) -> bool
    ensures { result ≡ is_fault (line_event cluster.now bytes.now) }
{
    match line(cluster, bytes) {
        Ok(_) => false,
        Err(_) => true,
    }
}

// A front with more behind it.
fn joined(alloc: Global, front: &[u8], more: &[u8]) -> Result<Vec<u8>, NoMemory>
    ensures { IfOk result (λ text. text.items ≡ front.now ++ more.now) }
{
    let mut text = Vec::new(alloc);
    text.extend_from_slice(front)?;
    text.extend_from_slice(more)?;
    Ok(text)
}

fn is_word_fault_with(alloc: Global, cluster: &Cluster, front: &[u8]) -> Result<bool, NoMemory>
    ensures { IfOk result (λ holds. holds ≡ is_word_fault_with cluster.now front.now) }
{
    let word = joined(alloc, front, b" !")?;
    let put = joined(alloc, front, b" put !")?;
    Ok(is_word_fault(cluster, &word) && is_word_fault(cluster, &put))
}

// Whether a front of a line has a fault that no words behind it mend.
fn is_spoilt(alloc: Global, cluster: &Cluster, front: &[u8]) -> Result<bool, NoMemory>
    ensures { IfOk result (λ holds. holds ≡ is_spoilt cluster.now front.now) }
{
    if is_word_fault(cluster, front) {
        return is_word_fault_with(alloc, cluster, front);
    }
    Ok(is_fault(cluster, front))
}

fn ends_word(line: &[u8], place: usize) -> bool
    ensures { result ≡ ends_word line.now place }
{
    match line.get(place) {
        Some(byte) => is_blank(*byte),
        None => true,
    }
}

fn ends_spoilt(
    alloc: Global,
    cluster: &Cluster,
    line: &[u8],
    place: usize,
) -> Result<bool, NoMemory>
    requires { place ≤ length line.now }
    ensures { IfOk result (λ holds. holds ≡ ends_spoilt cluster.now line.now place) }
{
    if !ends_word(line, place) {
        return Ok(false);
    }
    is_spoilt(alloc, cluster, &line[..place])
}

// Where the first word ends that spoils a line.
#[tactic(auto, using(crate::proofs::Numbers::numbers_more))]
fn spoilt_end(alloc: Global, cluster: &Cluster, line: &[u8]) -> Result<Option<usize>, NoMemory>
    ensures end { IfOk result (λ end. end ≡ spoilt_end cluster.now line.now) }
    ensures inside { IfOk result (λ end. IfSome end (λ place. place ≤ length line.now)) }
{
    for place in 0..line.len() + 1 {
        if ends_spoilt(alloc, cluster, line, place)? {
            return Ok(Some(place));
        }
    }
    Ok(None)
}

fn is_free(word: &[u8]) -> bool
    ensures { result ≡ is_free word.now }
{
    word.iter().all(|byte| !is_blank(*byte))
}

fn is_free_from(front: &[u8], place: usize) -> bool
    requires { place ≤ length front.now }
    ensures { result ≡ is_free_from front.now place }
{
    is_free(&front[place..])
}

// Where the last word of a front starts.
#[tactic(auto, using(crate::proofs::Numbers::numbers_more))]
fn word_start(front: &[u8]) -> usize
    ensures start { result ≡ word_start front.now }
    ensures inside { result ≤ length front.now }
{
    for place in 0..front.len() + 1 {
        if is_free_from(front, place) {
            return place;
        }
    }
    0
}

fn rule_of(fault: LineFault, first: bool) -> Rule
    ensures { result ≡ rule_of fault first }
{
    match fault {
        LineFault::Long => Rule::LongLine,
        LineFault::Number => Rule::Number,
        LineFault::Role => Rule::Role,
        LineFault::Grid => Rule::Grid,
        LineFault::Key => Rule::Key,
        LineFault::Word => {
            if first {
                return Rule::UnknownEvent;
            }
            Rule::OtherWord
        }
    }
}

fn are_blank(bytes: &[u8]) -> bool
    ensures { result ≡ list_all is_blank bytes.now }
{
    bytes.iter().all(|byte| is_blank(*byte))
}

fn last_word(fault: LineFault, front: &[u8]) -> Spot<'_>
    ensures { result ≡ last_word fault front.now (word_start front.now) }
{
    let start = word_start(front);
    let rule = rule_of(fault, are_blank(&front[..start]));
    Spot::new(start as u64 + 1, rule, &front[start..])
}

fn spot_at<'a>(
    alloc: Global,
    cluster: &Cluster,
    line: &'a [u8],
    fault: LineFault,
) -> Result<Spot<'a>, NoMemory>
    ensures { IfOk result
        (λ spot. spot ≡ spot_at fault line.now (spoilt_end cluster.now line.now)) }
{
    match spoilt_end(alloc, cluster, line)? {
        Some(end) => Ok(last_word(fault, &line[..end])),
        None => Ok(Spot::new(line.len() as u64 + 1, Rule::MissingWord, &[])),
    }
}

fn fault_spot<'a>(
    alloc: Global,
    cluster: &Cluster,
    line: &'a [u8],
    fault: LineFault,
) -> Result<Spot<'a>, NoMemory>
    ensures { IfOk result (λ spot. spot ≡ fault_spot cluster.now line.now fault) }
{
    match fault {
        LineFault::Long => Ok(Spot::new(1025, Rule::LongLine, &[])),
        LineFault::Number => spot_at(alloc, cluster, line, LineFault::Number),
        LineFault::Role => spot_at(alloc, cluster, line, LineFault::Role),
        LineFault::Grid => spot_at(alloc, cluster, line, LineFault::Grid),
        LineFault::Key => spot_at(alloc, cluster, line, LineFault::Key),
        LineFault::Word => spot_at(alloc, cluster, line, LineFault::Word),
    }
}

fn is_request(event: &Option<Event>) -> bool
    ensures { result ≡ is_request event.now }
{
    match event {
        Some(Event::Write { .. }) => true,
        Some(Event::Read { .. }) => true,
        Some(Event::Session { .. }) => true,
        _ => false,
    }
}

fn slash(line: &[u8]) -> Option<usize>
    ensures { result ≡ position (λ b. b == 47) line.now }
{
    line.iter().position(|byte| *byte == b'/')
}

fn node_rule(event: &Option<Event>) -> Rule
    ensures { result ≡ (if is_request event.now then Rule.NumberStays else Rule.NoRequest) }
{
    if is_request(event) {
        return Rule::NumberStays;
    }
    Rule::NoRequest
}

fn node_spot<'a>(line: &'a [u8], event: &Option<Event>) -> Spot<'a>
    ensures { result ≡ node_spot line.now event.now }
{
    match slash(line) {
        Some(place) => Spot::new(place as u64 + 1, Rule::Floor, &[]),
        None => Spot::new(1, node_rule(event), &[]),
    }
}

fn bad_spot<'a>(alloc: Global, cluster: &Cluster, spelled: &'a [u8]) -> Result<Spot<'a>, NoMemory>
    ensures { IfOk result (λ spot. spot
        ≡ bad_spot cluster.now spelled.now (line_event cluster.now spelled.now)) }
{
    match line(cluster, spelled) {
        Ok(event) => Ok(node_spot(spelled, &event)),
        Err(fault) => fault_spot(alloc, cluster, spelled, fault),
    }
}

/// Where a bad line, the n-th after the header, has its first fault, and the rule that is broken there.
pub fn line_spot<'a>(
    alloc: Global,
    cluster: &Cluster,
    number: u64,
    spelled: &'a [u8],
) -> Result<Spot<'a>, NoMemory>
    ensures { IfOk result (λ spot. spot ≡ line_spot cluster.now number spelled.now) }
{
    if number > MAX_LINES {
        return Ok(Spot::new(1, Rule::TooManyLines, &[]));
    }
    bad_spot(alloc, cluster, spelled)
}
