//! Which names of a datagram lie in the cluster.

ghost use Rattle.std.specs.Prelude.{◌≡◌, ◌&&◌, nat_lt};
ghost use Rattle.std.specs.List.{list_all};
ghost use Rattle.cx_base.specs.declared.command.Answered.{Answered};
ghost use Rattle.cx_base.specs.declared.command.Command.{Command};
ghost use Rattle.cx_base.specs.Role.{same_role};
ghost use Rattle.cx_model.specs.Names.{names_role, names_round, names_grid, names_command, names_value, names_entry, names_vote, names_answer, names_asking, names_token, names_ballot, names_set, names_next, names_body, names};
ghost use Rattle.cx_field.specs.declared.parts.Entry.{Entry};
ghost use Rattle.cx_field.specs.declared.parts.Vote.{Vote};

use cx_base::{Answered, Cluster, Command, Grid, RoleId, Round, Set, Value, count_of};
use cx_field::{Asking, Entry, Token, Vote};
use cx_letter::{Datagram, Msg};

/// Whether a role is one of the cluster's.
pub fn names_role(cluster: &Cluster, role: RoleId) -> bool
    ensures { result ≡ names_role cluster.now role }
{
    role.index < count_of(cluster, role.kind)
}

/// Whether the leader that a round names is in the cluster.
pub fn names_round(cluster: &Cluster, round: Round) -> bool
    ensures { result ≡ names_round cluster.now round }
{
    round.id < cluster.leaders
}

fn are_acceptors(acceptors: u16, ids: &[u16]) -> bool
    ensures { result ≡ list_all (λ id. nat_lt id acceptors) ids.now }
{
    ids.iter().all(|id| *id < acceptors)
}

/// Whether all members of a grid are in the cluster.
pub fn names_grid(cluster: &Cluster, grid: &Grid) -> bool
    ensures { result ≡ names_grid cluster.now grid.now }
{
    are_acceptors(cluster.acceptors, grid.members())
}

fn names_commands(cluster: &Cluster, commands: &[Command]) -> bool
    ensures { result ≡ list_all (λ (k : Command). names_command cluster.now k) commands.now }
{
    commands
        .iter()
        .all(|command| command.client < cluster.clients)
}

/// Whether the clients of all commands of a value are in the cluster.
pub fn names_value(cluster: &Cluster, value: &Value) -> bool
    ensures { result ≡ names_value cluster.now value.now }
{
    match value {
        Value::Noop => true,
        Value::Batch(commands) => names_commands(cluster, commands.as_slice()),
    }
}

fn names_entry(cluster: &Cluster, entry: &Entry) -> bool
    ensures { result ≡ names_entry cluster.now entry.now }
{
    names_round(cluster, entry.round) && names_grid(cluster, &entry.grid)
}

/// Whether the rounds of all entries, and their grids, are in the cluster.
pub fn names_entries(cluster: &Cluster, entries: &[Entry]) -> bool
    ensures { result ≡ list_all (λ (e : Entry). names_entry cluster.now e) entries.now }
{
    entries.iter().all(|entry| names_entry(cluster, entry))
}

fn names_vote(cluster: &Cluster, vote: &Vote) -> bool
    ensures { result ≡ names_vote cluster.now vote.now }
{
    names_round(cluster, vote.round) && names_value(cluster, &vote.value)
}

fn names_votes(cluster: &Cluster, votes: &[Vote]) -> bool
    ensures { result ≡ list_all (λ (v : Vote). names_vote cluster.now v) votes.now }
{
    votes.iter().all(|vote| names_vote(cluster, vote))
}

fn names_answers(cluster: &Cluster, answers: &[Answered]) -> bool
    ensures { result ≡ list_all (λ (a : Answered). names_answer cluster.now a) answers.now }
{
    answers.iter().all(|answer| answer.client < cluster.clients)
}

fn names_token(cluster: &Cluster, token: Token) -> bool
    ensures { result ≡ names_token cluster.now token }
{
    token.client < cluster.clients
}

fn names_asking(cluster: &Cluster, asking: Asking) -> bool
    ensures { result ≡ names_asking cluster.now asking }
{
    asking.reader < cluster.readers
}

/// Whether the replacer that a ballot names is in the cluster.
pub fn names_ballot(cluster: &Cluster, ballot: Round) -> bool
    ensures { result ≡ names_ballot cluster.now ballot }
{
    ballot.id < cluster.replacers
}

fn are_matchmakers(pool: u16, ids: &[u16]) -> bool
    ensures { result ≡ list_all (λ id. nat_lt id pool) ids.now }
{
    ids.iter().all(|id| *id < pool)
}

/// Whether a set has 2f + 1 members, each a matchmaker of the cluster.
pub fn names_set(cluster: &Cluster, set: &Set) -> bool
    ensures { result ≡ names_set cluster.now set.now }
{
    let ids = set.ids();
    ids.len() == 2 * usize::from(cluster.f) + 1 && are_matchmakers(cluster.pool, ids)
}

// Whether a next set that was accepted is one of the cluster's, or there is none.
fn names_next(cluster: &Cluster, set: &Set) -> bool
    ensures { result ≡ names_next cluster.now set.now }
{
    match set.ids() {
        [] => true,
        [_, ..] => names_set(cluster, set),
    }
}

fn names_body(cluster: &Cluster, msg: &Msg) -> bool
    ensures { result ≡ names_body cluster.now msg.now }
{
    match msg {
        Msg::Submit { command } => command.client < cluster.clients,
        Msg::Batch { commands } => names_commands(cluster, commands.as_slice()),
        Msg::Leads { round } => names_round(cluster, *round),
        Msg::MatchA { round, grid } => names_round(cluster, *round) && names_grid(cluster, grid),
        Msg::MatchB {
            round,
            watermark,
            entries,
        } => {
            names_round(cluster, *round)
                && names_round(cluster, *watermark)
                && names_entries(cluster, entries.as_slice())
        }
        Msg::MatchNack { round, other, .. } => {
            names_round(cluster, *round) && names_round(cluster, *other)
        }
        Msg::Phase1A { round } => names_round(cluster, *round),
        Msg::Phase1B { round, votes, .. } => {
            names_round(cluster, *round) && names_votes(cluster, votes.as_slice())
        }
        Msg::Nack { round, promise } => {
            names_round(cluster, *round) && names_round(cluster, *promise)
        }
        Msg::Propose {
            round,
            grid,
            value,
            ..
        } => {
            names_round(cluster, *round) && names_grid(cluster, grid) && names_value(cluster, value)
        }
        Msg::Phase2A { round, value, .. } => {
            names_round(cluster, *round) && names_value(cluster, value)
        }
        Msg::Phase2B { round, .. } => names_round(cluster, *round),
        Msg::Chosen { value, .. } => names_value(cluster, value),
        Msg::ChosenIn { round, .. } => names_round(cluster, *round),
        Msg::Results { answers, .. } => names_answers(cluster, answers.as_slice()),
        Msg::Answer { .. }
        | Msg::Held { .. }
        | Msg::Fetch { .. }
        | Msg::ReadAnswer { .. }
        | Msg::SessRead { .. } => true,
        Msg::Inform { round, .. } | Msg::Informed { round, .. } => names_round(cluster, *round),
        Msg::GarbageA { round, grid } => names_round(cluster, *round) && names_grid(cluster, grid),
        Msg::GarbageB { round } => names_round(cluster, *round),
        Msg::ReadReq { replica, .. } => *replica < cluster.replicas,
        Msg::Read { token, .. } => names_token(cluster, *token),
        Msg::MatchRead { asking } => names_asking(cluster, *asking),
        Msg::MatchReadAck {
            asking,
            watermark,
            entries,
        } => {
            names_asking(cluster, *asking)
                && names_round(cluster, *watermark)
                && names_entries(cluster, entries.as_slice())
        }
        Msg::PreRead { asking, watermark }
        | Msg::PreReadAck {
            asking,
            watermark,
            ..
        } => { names_asking(cluster, *asking) && names_round(cluster, *watermark) }
        Msg::StopA { round } | Msg::NextB { round } => names_ballot(cluster, *round),
        Msg::StopB {
            round,
            watermark,
            entries,
            accepted,
            set,
        } => {
            names_ballot(cluster, *round)
                && names_round(cluster, *watermark)
                && names_entries(cluster, entries.as_slice())
                && names_ballot(cluster, *accepted)
                && names_next(cluster, set)
        }
        Msg::StopNack { round, other } => {
            names_ballot(cluster, *round) && names_ballot(cluster, *other)
        }
        Msg::NextA { round, set } => names_ballot(cluster, *round) && names_set(cluster, set),
        Msg::BootA {
            set,
            watermark,
            entries,
        } => {
            names_set(cluster, set)
                && names_round(cluster, *watermark)
                && names_entries(cluster, entries.as_slice())
        }
        Msg::BootB { set } | Msg::Sets { set } => names_set(cluster, set),
    }
}

/// Whether a datagram is to this role, and each name in it lies in the cluster.
pub fn is_for(cluster: &Cluster, me: RoleId, datagram: &Datagram) -> bool
    ensures { result ≡ (same_role datagram.now.to me && names cluster.now datagram.now) }
{
    datagram.to().is(me)
        && names_role(cluster, datagram.from())
        && names_role(cluster, datagram.to())
        && names_body(cluster, datagram.msg())
}
