//! The first fault of an input.

ghost use Rattle.std.specs.Prelude.{◌≡◌, ◌≤◌, ◌<◌, ◌^◌, IfOk, IfSome, length, option_map};
ghost use Rattle.cx_cluster.specs.Reading.{header_cluster};
ghost use Rattle.cx_explain.specs.Finding.{FindingState, first_bad_line, found_behind, found_in, found_of, found_of_node, header_fault, line_fault, no_end, no_port};
ghost use Rattle.cx_script.specs.Lines.{schedule_of};
ghost use Rattle.cx_script.specs.Requests.{requests_of};

use crate::header::{header_place, header_rule, header_word};
use crate::lines::{count_lines, line_at, next_line};
use crate::rule::Rule;
use crate::spot::line_spot;
use cx_base::{Cluster, MAX_LINES, NoMemory};
use cx_cluster::{ClusterFault, read};
use cx_script::{line, read_requests, split_header};
use std::alloc::Global;
use std::marker::Model;

/// What is wrong with an input, and where.
#[derive(Drop)]
pub struct Finding {
    number: u64,
    line: u64,
    column: u64,
    rule: Rule,
    word: Vec<u8>,
}

impl Model for Finding {
    ghost use Rattle.cx_explain.specs.Finding.{FindingState};

    ghost Value = { FindingState };

    ghost view = { λ f. record {
      number = f.number;
      line = f.line;
      column = f.column;
      rule = f.rule;
      word = f.word.items;
    } };
}

impl Finding {
    ghost use Rattle.cx_explain.specs.Finding.{in_header};

    // What is wrong with a header.
    fn in_header(alloc: Global, line: u64, rule: Rule, word: &[u8]) -> Result<Self, NoMemory>
        ensures { IfOk result (λ f. f ≡ in_header line rule word.now) }
    {
        let mut copied = Vec::new(alloc);
        copied.extend_from_slice(word)?;
        Ok(Finding {
            number: 0,
            line,
            column: 1,
            rule,
            word: copied,
        })
    }

    // What is wrong with a line after it.
    fn of_line(
        alloc: Global,
        number: u64,
        line: u64,
        column: u64,
        rule: Rule,
        word: &[u8],
    ) -> Result<Self, NoMemory>
        ensures { IfOk result (λ f. f
            ≡ record {
              number = number;
              line = line;
              column = column;
              rule = rule;
              word = word.now;
            }) }
    {
        let mut copied = Vec::new(alloc);
        copied.extend_from_slice(word)?;
        Ok(Finding {
            number,
            line,
            column,
            rule,
            word: copied,
        })
    }

    /// The number of the bad line, as a replay and a node say it: counted from 1 after the header, which is 0.
    pub fn number(&self) -> u64
        ensures { result ≡ self.now.number }
    {
        self.number
    }

    /// Its line in the file, counted from 1.
    pub fn line(&self) -> u64
        ensures { result ≡ self.now.line }
    {
        self.line
    }

    /// The column there, in bytes, counted from 1.
    pub fn column(&self) -> u64
        ensures { result ≡ self.now.column }
    {
        self.column
    }

    /// The rule that is broken.
    pub fn rule(&self) -> Rule
        ensures { result ≡ self.now.rule }
    {
        self.rule
    }

    /// The word that breaks it, if there is one.
    pub fn word(&self) -> &[u8]
        ensures { result.now ≡ self.now.word }
    {
        &self.word
    }
}

fn no_end(alloc: Global) -> Result<Finding, NoMemory>
    ensures { IfOk result (λ f. f ≡ no_end) }
{
    Ok(Finding::in_header(alloc, 1, Rule::NoEnd, &[])?)
}

fn no_port(alloc: Global, header: &[u8]) -> Result<Finding, NoMemory>
    ensures { IfOk result (λ f. f ≡ no_port header.now) }
{
    let line = count_lines(header) + 1;
    Ok(Finding::in_header(alloc, line, Rule::NoPort, b"base_port")?)
}

fn header_fault(alloc: Global, header: &[u8], fault: &ClusterFault) -> Result<Finding, NoMemory>
    ensures { IfOk result (λ f. f ≡ header_fault header.now fault.now) }
{
    let line = header_place(alloc, header, fault)? + 1;
    Ok(Finding::in_header(alloc, line, header_rule(fault), header_word(fault))?)
}

// The first bad line of a schedule.
#[tactic(auto, unfolding(cx_script::specs::Lines::schedule_of))]
fn first_bad_line(cluster: &Cluster, bytes: &[u8]) -> Option<u64>
    ensures bad { result ≡ (schedule_of cluster.now bytes.now).bad }
    ensures counted { IfSome result (λ number. number ≤ 65536) }
{
    let mut rest = bytes;
    let mut number = 0;
    while let Some((text, behind)) = next_line(rest) {
        number += 1;
        if number > MAX_LINES || line(cluster, text).is_err() {
            return Some(number);
        }
        rest = behind;
    }
    None
}

// The first bad line of a node's requests.
#[tactic(auto, using(crate::proofs::Bounds::request_number))]
fn bad_request(alloc: Global, cluster: &Cluster, bytes: &[u8]) -> Result<Option<u64>, NoMemory>
    ensures bad { IfOk result (λ bad. bad ≡ (requests_of cluster.now bytes.now).bad) }
    ensures counted { IfOk result (λ bad. IfSome bad (λ number. number ≤ 65536)) }
{
    Ok(read_requests(alloc, cluster, bytes)?.bad())
}

// Where the n-th line after a header is bad.
fn line_fault(
    alloc: Global,
    cluster: &Cluster,
    header: &[u8],
    rest: &[u8],
    number: u64,
) -> Result<Finding, NoMemory>
    requires { number ≤ 65536 }
    ensures { IfOk result (λ f. f ≡ line_fault cluster.now header.now rest.now number) }
{
    let text = line_at(rest, number.saturating_sub(1));
    let spot = line_spot(alloc, cluster, number, text)?;
    let line = count_lines(header) + 1 + number;
    Ok(Finding::of_line(alloc, number, line, spot.column(), spot.rule(), spot.word())?)
}

fn found_of_schedule(
    alloc: Global,
    cluster: &Cluster,
    header: &[u8],
    rest: &[u8],
) -> Result<Option<Finding>, NoMemory>
    ensures { IfOk result (λ found. found
        ≡ option_map (line_fault cluster.now header.now rest.now)
        (schedule_of cluster.now rest.now).bad) }
{
    match first_bad_line(cluster, rest) {
        Some(number) => Ok(Some(line_fault(alloc, cluster, header, rest, number)?)),
        None => Ok(None),
    }
}

fn found_of_requests(
    alloc: Global,
    cluster: &Cluster,
    header: &[u8],
    rest: &[u8],
) -> Result<Option<Finding>, NoMemory>
    ensures { IfOk result (λ found. found
        ≡ option_map (line_fault cluster.now header.now rest.now)
        (requests_of cluster.now rest.now).bad) }
{
    match bad_request(alloc, cluster, rest)? {
        Some(number) => Ok(Some(line_fault(alloc, cluster, header, rest, number)?)),
        None => Ok(None),
    }
}

fn found_of_node(
    alloc: Global,
    cluster: &Cluster,
    header: &[u8],
    rest: &[u8],
) -> Result<Option<Finding>, NoMemory>
    ensures { IfOk result
        (λ found. found ≡ found_of_node cluster.now cluster.now.base_port header.now rest.now) }
{
    match cluster.base_port {
        None => Ok(Some(no_port(alloc, header)?)),
        Some(_) => Ok(found_of_requests(alloc, cluster, header, rest)?),
    }
}

fn found_behind(
    alloc: Global,
    node: bool,
    cluster: &Cluster,
    header: &[u8],
    rest: &[u8],
) -> Result<Option<Finding>, NoMemory>
    ensures { IfOk result
        (λ found. found ≡ found_behind node cluster.now header.now rest.now) }
{
    if node {
        return Ok(found_of_node(alloc, cluster, header, rest)?);
    }
    Ok(found_of_schedule(alloc, cluster, header, rest)?)
}

fn found_in(
    alloc: Global,
    node: bool,
    header: &[u8],
    rest: &[u8],
) -> Result<Option<Finding>, NoMemory>
    ensures { IfOk result
        (λ found. found ≡ found_in node (header_cluster header.now) header.now rest.now) }
{
    match read(alloc, header) {
        Ok(cluster) => Ok(found_behind(alloc, node, &cluster, header, rest)?),
        Err(ClusterFault::NoMemory) => Err(NoMemory),
        Err(fault) => Ok(Some(header_fault(alloc, header, &fault)?)),
    }
}

/// What is wrong with an input of a node, or of a replay, or nothing: its first bad line, where that is in the file, and
/// the first rule that it breaks.
#[tactic(auto, unfolding(cx_script::specs::Input::whole_input), using(crate::proofs::Agreeing::agrees))]
pub fn explain(alloc: Global, node: bool, bytes: &[u8]) -> Result<Option<Finding>, NoMemory>
    ensures found { IfOk result (λ found. found ≡ found_of node bytes.now) }
    ensures bad { IfOk result
        (λ found. option_map (λ (f : FindingState). f.number) found
        ≡ first_bad_line node bytes.now) }
{
    match split_header(alloc, bytes)? {
        Some((header, rest)) => Ok(found_in(alloc, node, &header, rest)?),
        None => Ok(Some(no_end(alloc)?)),
    }
}
