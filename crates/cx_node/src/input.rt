//! What the input of a node says.

ghost use Rattle.std.specs.Prelude.{◌≡◌, ◌⊎◌, ◌≤◌, ℕ, List, Some, None, Err, true, false, is_some};
ghost use Rattle.std.specs.Prelude.{IfOk, IfErr, IfSome, IsErrOf, IsTrue};
ghost use Rattle.std.specs.Io.KnownBytes.{IsAtEnd};
ghost use Rattle.std.specs.List.{All, list_all};
ghost use Rattle.cx_base.specs.declared.role.RoleId.{RoleId};
ghost use Rattle.cx_base.specs.Faults.{Rises};
ghost use Rattle.cx_model.specs.Names.{names_role};
ghost use Rattle.cx_record.specs.Readable.{IsRecordable};
ghost use Rattle.cx_script.specs.Requests.{IsScript, script_of};
ghost use Rattle.cx_cluster.specs.Reading.{header_cluster};
ghost use Rattle.cx_node.specs.declared.input.NodeInput.TheVariants.{Lines, Nothing};
ghost use Rattle.cx_node.specs.declared.input.Refusal.TheVariants as refusal;
ghost use Rattle.cx_node.specs.Input.{FailsRead, IsInputAnswer, IsRefusal};
ghost use Rattle.cx_node.specs.Input.{bad_line_of, behind, input_says, input_of, lines, may_host, refused_of, with_port};

use crate::HeaderText;
use crate::hosting::may_host;
use cx_base::{Cluster, MAX_HEADER_LENGTH, MAX_LINE_LENGTH, NoMemory, RoleId};
use cx_cluster::{ClusterFault, read};
use cx_edge::{ReadAll, Source, read_all};
use cx_script::{Schedule, is_long_header, read_requests, settled_text, split_header};
use std::alloc::Global;

// More bytes than an input has none of whose lines is bad.
const LIMIT: usize = 68_000_000;

/// What was read of an input.
#[derive(Drop)]
pub enum NodeInput {
    /// The header hasn't ended yet.
    Nothing,
    /// The header says no cluster with a port.
    BadHeader,
    /// The header's text, its cluster, and what the lines after it spell.
    Lines {
        header: HeaderText,
        cluster: Cluster,
        schedule: Schedule,
    },
}

/// What an input that was accepted says.
#[derive(Drop)]
pub struct Accepted {
    /// The text of its header.
    pub header: HeaderText,
    pub cluster: Cluster,
    pub schedule: Schedule,
}

/// Why an input is refused.
#[derive(Clone, Copy, Debug, PartialEq, Eq)]
pub enum Refusal {
    NoMemory,
    /// A read failed.
    ReadFault,
    /// The first bad line, counted from 1 after the header, which is line 0.
    BadInput { line: u64 },
    /// A role that is to be hosted isn't in the header's cluster, or the node is to record, and another one is.
    BadWords,
}

// A header's text, its cluster, which has a port, and what the bytes after it spell.
fn with_port(
    alloc: Global,
    header: Vec<u8>,
    cluster: Cluster,
    rest: &[u8],
) -> Result<NodeInput, NoMemory>
    ensures { IfOk result
        (λ heard. heard ≡ with_port cluster.base_port header.items cluster rest.now) }
{
    if cluster.base_port.is_none() {
        return Ok(NodeInput::BadHeader);
    }
    let schedule = read_requests(alloc, &cluster, rest)?;
    Ok(NodeInput::Lines {
        header: HeaderText::new(header),
        cluster,
        schedule,
    })
}

// What a header's text and the bytes after it say.
fn behind(alloc: Global, header: Vec<u8>, rest: &[u8]) -> Result<NodeInput, NoMemory>
    ensures { IfOk result
        (λ heard. heard ≡ behind (header_cluster header.items) header.items rest.now) }
{
    match read(alloc, &header) {
        Ok(cluster) => with_port(alloc, header, cluster, rest),
        Err(ClusterFault::NoMemory) => Err(NoMemory),
        Err(_) => Ok(NodeInput::BadHeader),
    }
}

// What a whole input says.
#[tactic(auto, unfolding(cx_script::specs::Input::whole_input))]
fn read_input(alloc: Global, bytes: &[u8]) -> Result<NodeInput, NoMemory>
    ensures { IfOk result (λ heard. heard ≡ input_of bytes.now) }
{
    match split_header(alloc, bytes)? {
        Some((header, rest)) => behind(alloc, header, rest),
        None => Ok(NodeInput::BadHeader),
    }
}

// What bytes say after which others may come.
#[tactic(auto, unfolding(cx_script::specs::Input::begun_input))]
fn read_lines(alloc: Global, bytes: &[u8]) -> Result<NodeInput, NoMemory>
    ensures { IfOk result (λ heard. heard ≡ lines bytes.now) }
{
    if let Some((header, rest)) = split_header(alloc, settled_text(bytes, MAX_LINE_LENGTH))? {
        return behind(alloc, header, rest);
    }
    if is_long_header(settled_text(bytes, MAX_HEADER_LENGTH)) {
        return Ok(NodeInput::BadHeader);
    }
    Ok(NodeInput::Nothing)
}

// What bytes say: the whole input where it has ended, else bytes after which others may come.
fn hear(alloc: Global, bytes: &[u8], ended: bool) -> Result<NodeInput, NoMemory>
    ensures { IfOk result (λ heard. heard ≡ input_says ended bytes.now) }
{
    if ended {
        read_input(alloc, bytes)
    } else {
        read_lines(alloc, bytes)
    }
}

fn bad_line(line: Option<u64>) -> Option<Refusal>
    ensures { result ≡ bad_line_of line }
{
    match line {
        Some(line) => Some(Refusal::BadInput { line }),
        None => None,
    }
}

// Why lines after a header are refused: for the roles before the first bad line.
fn refused(
    recording: bool,
    roles: &[RoleId],
    cluster: &Cluster,
    schedule: &Schedule,
) -> Option<Refusal>
    ensures { (header : List ℕ)
        → result ≡ refused_of recording roles.now (Lines header cluster.now schedule.now) }
{
    if may_host(recording, cluster, roles) {
        bad_line(schedule.bad())
    } else {
        Some(Refusal::BadWords)
    }
}

// What is answered to what was heard of a whole input or not.
fn answer(
    recording: bool,
    roles: &[RoleId],
    heard: NodeInput,
    ended: bool,
) -> Result<Accepted, Refusal>
    requires { heard ≡ Nothing → ended ≡ false }
    ensures { IsInputAnswer ended recording roles.now heard result }
{
    match heard {
        NodeInput::Nothing => Err(Refusal::ReadFault),
        NodeInput::BadHeader => Err(Refusal::BadInput { line: 0 }),
        NodeInput::Lines {
            header,
            cluster,
            schedule,
        } => match refused(recording, roles, &cluster, &schedule) {
            Some(why) => Err(why),
            None if ended => Ok(Accepted {
                header,
                cluster,
                schedule,
            }),
            None => Err(Refusal::ReadFault),
        },
    }
}

// What is answered to these bytes.
fn answer_bytes(
    alloc: Global,
    recording: bool,
    roles: &[RoleId],
    bytes: &[u8],
    ended: bool,
) -> Result<Accepted, Refusal>
    ensures { IsInputAnswer ended recording roles.now (input_says ended bytes.now) result }
{
    match hear(alloc, bytes, ended) {
        Ok(heard) => answer(recording, roles, heard, ended),
        Err(NoMemory) => Err(Refusal::NoMemory),
    }
}

/// Reads the input to its end, and answers its header, its cluster and its requests, for a node of these roles. It is refused, in
/// this order, for its header, for its roles (one is outside the cluster, or the node is to record, and one of the cluster is
/// not among them), and for its first bad line; `ReadFault` comes only where the source's count rose, and none of these
/// comes before it.
pub fn listen<S: Source>(
    alloc: Global,
    roles: &[RoleId],
    recording: bool,
    source: &mut S,
) -> Result<Accepted, Refusal>
    ensures heard { IfOk result (λ a. IfSome (S.left source.old)
        (λ all. input_of all ≡ Lines a.header a.cluster a.schedule)) }
    ensures taken { IfOk result (λ a. a.schedule.bad ≡ None) }
    ensures hosts { IfOk result (λ a. may_host recording a.cluster roles.now ≡ true) }
    ensures named { IfOk result
        (λ a. IsTrue (list_all (λ (r : RoleId). names_role a.cluster r) roles.now)) }
    ensures port { IfOk result (λ a. IsTrue (is_some a.cluster.base_port)) }
    ensures scripts { IfOk result
        (λ a. (client : ℕ) → IsScript a.cluster client (script_of client a.schedule.events)) }
    ensures recordable { IfOk result (λ a. (client : ℕ)
        → All (IsRecordable a.cluster) (script_of client a.schedule.events)) }
    ensures at_end { IfOk result (λ _. IsAtEnd (S.left source.new)) }
    ensures all_read { IfOk result (λ _. S.faults source.new ≡ S.faults source.old) }
    ensures bad_input { (line : ℕ) → result ≡ Err (refusal.BadInput line)
        → IfSome (S.left source.old)
        (λ all. refused_of recording roles.now (input_of all) ≡ Some (refusal.BadInput line)) }
    ensures bad_words { result ≡ Err refusal.BadWords → IfSome (S.left source.old)
        (λ all. refused_of recording roles.now (input_of all) ≡ Some refusal.BadWords) }
    ensures read_fault { IsErrOf result Refusal.ReadFault
        → Rises (S.faults source.old) (S.faults source.new) }
    // A failed read is always reported, unless the whole lines before it are refused.
    ensures read_failed { (S.faults source.new ≡ S.faults source.old)
        ⊎ IfErr result (FailsRead recording roles.now (S.left source.old) (S.left source.new)) }
    ensures later { S.faults source.old ≤ S.faults source.new }

    // Where no read failed, the answer is what the whole input says, or that memory ran out.
    ensures complete { (Rises (S.faults source.old) (S.faults source.new) → ⊥)
        → IfSome (S.left source.old)
        (λ all. IfErr result (IsRefusal (refused_of recording roles.now (input_of all)))) }
{
    match read_all(alloc, source, LIMIT) {
        ReadAll::Whole(bytes) => answer_bytes(alloc, recording, roles, &bytes, true),
        ReadAll::TooLong(bytes) => answer_bytes(alloc, recording, roles, &bytes, false),
        ReadAll::Failed(bytes) => answer_bytes(alloc, recording, roles, &bytes, false),
        ReadAll::NoMemory => Err(Refusal::NoMemory),
    }
}
