//! Which line of a header has its fault.

ghost use Rattle.std.specs.Prelude.{◌≡◌, ◌≤◌, ◌==◌, IfOk, length, not, position};
ghost use Rattle.cx_cluster.specs.Reading.{header_cluster};
ghost use Rattle.cx_explain.specs.Header.{ends_key, header_place, header_rule, header_word, from_word, is_toml_fault, key_part, line_of_key, names_key, line_of_toml};
ghost use Rattle.cx_script.specs.Words.{is_blank};

use crate::lines::{count_lines, next_line};
use crate::rule::Rule;
use crate::spot::is_blank;
use cx_base::NoMemory;
use cx_cluster::{ClusterFault, read};
use std::alloc::Global;

fn word_place(line: &[u8]) -> Option<usize>
    ensures { result ≡ position (λ b. not (is_blank b)) line.now }
{
    line.iter().position(|byte| !is_blank(*byte))
}

fn from_word(line: &[u8]) -> &[u8]
    ensures { result.now ≡ from_word line.now }
{
    match word_place(line) {
        Some(start) => &line[start..],
        None => &[],
    }
}

fn ends_key(byte: u8) -> bool
    ensures { result ≡ ends_key byte }
{
    is_blank(byte) || byte == b'='
}

fn key_end(text: &[u8]) -> Option<usize>
    ensures { result ≡ position ends_key text.now }
{
    text.iter().position(|byte| ends_key(*byte))
}

fn key_part(text: &[u8]) -> &[u8]
    ensures { result.now ≡ key_part text.now }
{
    match key_end(text) {
        Some(end) => &text[..end],
        None => text,
    }
}

fn names_key(key: &[u8], line: &[u8]) -> bool
    ensures { result ≡ names_key key.now line.now }
{
    key_part(from_word(line)) == key
}

// The place of the first line for a key, counted from 0, or that of the line after the header.
fn line_of_key(key: &[u8], header: &[u8]) -> u64
    ensures place { result ≡ line_of_key key.now header.now }
    ensures inside { result ≤ length header.now }
{
    let mut rest = header;
    let mut place = 0;
    while let Some((line, behind)) = next_line(rest) {
        if names_key(key, line) {
            return place;
        }
        place += 1;
        rest = behind;
    }
    place
}

fn is_toml_fault(alloc: Global, line: &[u8]) -> Result<bool, NoMemory>
    ensures { IfOk result (λ holds. holds ≡ is_toml_fault (header_cluster line.now)) }
{
    match read(alloc, line) {
        Ok(_) => Ok(false),
        Err(ClusterFault::Toml) => Ok(true),
        Err(ClusterFault::Unknown(_)) => Ok(false),
        Err(ClusterFault::Missing(_)) => Ok(false),
        Err(ClusterFault::NotNumber(_)) => Ok(false),
        Err(ClusterFault::Range(_, _)) => Ok(false),
        Err(ClusterFault::NoMemory) => Err(NoMemory),
    }
}

// The place of the first line that is no TOML by itself.
fn line_of_toml(alloc: Global, header: &[u8]) -> Result<u64, NoMemory>
    ensures place { IfOk result (λ place. place ≡ line_of_toml header.now) }
    ensures inside { IfOk result (λ place. place ≤ length header.now) }
{
    let mut rest = header;
    let mut place = 0;
    while let Some((line, behind)) = next_line(rest) {
        if is_toml_fault(alloc, line)? {
            return Ok(place);
        }
        place += 1;
        rest = behind;
    }
    Ok(place)
}

/// The place of the line of a header that has this fault, counted from 0.
pub fn header_place(alloc: Global, header: &[u8], fault: &ClusterFault) -> Result<u64, NoMemory>
    ensures place { IfOk result (λ place. place ≡ header_place header.now fault.now) }
    ensures inside { IfOk result (λ place. place ≤ length header.now) }
{
    match fault {
        ClusterFault::Toml => Ok(line_of_toml(alloc, header)?),
        ClusterFault::Unknown(key) => Ok(line_of_key(key.as_str().as_bytes(), header)),
        ClusterFault::Missing(_) => Ok(count_lines(header)),
        ClusterFault::NotNumber(key) => Ok(line_of_key(key.name().as_bytes(), header)),
        ClusterFault::Range(key, _) => Ok(line_of_key(key.name().as_bytes(), header)),
        ClusterFault::NoMemory => Ok(0),
    }
}

/// The rule that is broken.
pub fn header_rule(fault: &ClusterFault) -> Rule
    ensures { result ≡ header_rule fault.now }
{
    match fault {
        ClusterFault::Toml => Rule::NotToml,
        ClusterFault::Unknown(_) => Rule::UnknownKey,
        ClusterFault::Missing(_) => Rule::MissingKey,
        ClusterFault::NotNumber(_) => Rule::NotNumber,
        ClusterFault::Range(key, _) => Rule::OutOfRange(*key),
        ClusterFault::NoMemory => Rule::NotToml,
    }
}

/// The key that has the fault.
pub fn header_word(fault: &ClusterFault) -> &[u8]
    ensures { result.now ≡ header_word fault.now }
{
    match fault {
        ClusterFault::Toml => &[],
        ClusterFault::Unknown(key) => key.as_str().as_bytes(),
        ClusterFault::Missing(key) => key.name().as_bytes(),
        ClusterFault::NotNumber(key) => key.name().as_bytes(),
        ClusterFault::Range(key, _) => key.name().as_bytes(),
        ClusterFault::NoMemory => &[],
    }
}
