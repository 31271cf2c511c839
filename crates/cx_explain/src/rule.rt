//! The rules that an input may break.

ghost use Rattle.std.specs.Prelude.{◌≡◌};
ghost use Rattle.cx_explain.specs.Rules.{range_text, rule_text};

use cx_cluster::ClusterKey;

/// A rule of an input that is broken.
#[derive(Clone, Copy, Debug, PartialEq, Eq)]
pub enum Rule {
    /// No line `---`, or a header of more than 16,384 bytes before it.
    NoEnd,
    NotToml,
    UnknownKey,
    MissingKey,
    NotNumber,
    /// The key's number is outside its range.
    OutOfRange(ClusterKey),
    /// A node needs the port, which the header lacks.
    NoPort,
    LongLine,
    TooManyLines,
    UnknownEvent,
    MissingWord,
    OtherWord,
    Number,
    Role,
    Grid,
    Key,
    /// A line of a node that is no request.
    NoRequest,
    /// A line of a node that tells a floor.
    Floor,
    /// A line of a node whose number isn't above the client's earlier ones.
    NumberStays,
}

/// The sentence of a number outside its range.
fn range_text(key: ClusterKey) -> &'static str
    ensures { result.now ≡ range_text key }
{
    match key {
        ClusterKey::F => "outside its range, 0 to 3",
        ClusterKey::Leaders => "outside its range, 1 to 8",
        ClusterKey::Proxies => "outside its range, 1 to 16",
        ClusterKey::Acceptors => "outside its range, 1 to 64",
        ClusterKey::Replicas => "outside its range, f + 1 to 8",
        ClusterKey::Batchers => "outside its range, 1 to 8",
        ClusterKey::Unbatchers => "outside its range, 1 to 8",
        ClusterKey::Readers => "outside its range, 1 to 8",
        ClusterKey::Clients => "outside its range, 1 to 64",
        ClusterKey::Batch => "outside its range, 1 to 8",
        ClusterKey::BasePort => "outside its range, 1024 to 60000",
        ClusterKey::Pool => "outside its range, 2f + 1 to 64",
        ClusterKey::Replacers => "outside its range, 0 to 4",
        ClusterKey::OneEntryAGrid => "outside its range, 0 to 1",
        ClusterKey::OwnProxies =>
            "outside its range, 0 to 1, and 1 only where leaders divides proxies",
        ClusterKey::KeepSets => "outside its range, 0 to 1",
    }
}

/// What is said of a broken rule.
pub fn rule_text(rule: Rule) -> &'static str
    ensures { result.now ≡ rule_text rule }
{
    match rule {
        Rule::NoEnd => "no line --- ends the header in its first 16,384 bytes",
        Rule::NotToml => "the header is no TOML",
        Rule::UnknownKey => "unknown key",
        Rule::MissingKey => "the header lacks a key",
        Rule::NotNumber => "not a whole number",
        Rule::OutOfRange(key) => range_text(key),
        Rule::NoPort => "a node needs a port, and the header lacks the key",
        Rule::LongLine => "a line of more than 1,024 bytes",
        Rule::TooManyLines => "more than 65,535 lines after the header",
        Rule::UnknownEvent => "unknown event",
        Rule::MissingWord => "a word is missing",
        Rule::OtherWord => "another word than may stand here",
        Rule::Number => "no number that may stand here",
        Rule::Role => "no role of the cluster that may stand here",
        Rule::Grid => "no grid of the cluster's acceptors",
        Rule::Key => "no key or value",
        Rule::NoRequest => "a node takes write, read and session lines alone",
        Rule::Floor => "a node's clients choose their floors",
        Rule::NumberStays => "the number isn't above its client's earlier ones",
    }
}
