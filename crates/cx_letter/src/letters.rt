//! The datagrams that roles send, but for those of reads and of sets of matchmakers, each with the ranges of its parts, which its sender owes. None
//! takes memory.

ghost use Rattle.std.specs.Prelude.{◌≡◌, IsTrue};
ghost use Rattle.cx_base.specs.Asked.{floor_fits};
ghost use Rattle.cx_base.specs.Role.{role};
ghost use Rattle.cx_base.specs.declared.role.Kind.{Kind};
ghost use Rattle.cx_field.specs.Fields as field;
ghost use Rattle.cx_field.specs.Fields.{in_window};
ghost use Rattle.cx_letter.specs.Letter.{letter};

use crate::datagram::Datagram;
use crate::message::Msg;
use cx_base::{Command, Commands, Grid, Kind, Reply, RoleId, Round, Value};
use cx_field::{Answers, Entries, NackReason, Votes, command_fits, grid_fits, reason_fits};

/// A client's command, handed to a batcher.
#[tactic(auto, unfolding(cx_field::specs::Fields::command, cx_wire::specs::Format::u16))]
pub fn submit(client: u16, batcher: u16, command: Command) -> Datagram
    requires floor { IsTrue (floor_fits command.seq command.floor) }
    ensures { result
        ≡ letter (role Kind.Client client) (role Kind.Batcher batcher) (Msg.Submit command) }
{
    command_fits(&command);
    let from = RoleId::new(Kind::Client, client);
    let to = RoleId::new(Kind::Batcher, batcher);
    Datagram::new(from, to, Msg::Submit { command })
}

/// A batcher's commands, for a leader.
#[tactic(auto, unfolding(cx_field::specs::Fields::commands, cx_wire::specs::Format::u16))]
pub fn batch(batcher: u16, leader: u16, commands: Commands) -> Datagram
    requires commands { IsTrue (field.commands.fits commands) }
    ensures { result
        ≡ letter (role Kind.Batcher batcher) (role Kind.Leader leader) (Msg.Batch commands) }
{
    let from = RoleId::new(Kind::Batcher, batcher);
    let to = RoleId::new(Kind::Leader, leader);
    Datagram::new(from, to, Msg::Batch { commands })
}

/// A leader's word to a batcher that it leads this round.
#[tactic(auto, unfolding(cx_wire::specs::Format::u16))]
pub fn leads(leader: u16, batcher: u16, round: Round) -> Datagram
    requires round { IsTrue (field.round.fits round) }
    ensures { result
        ≡ letter (role Kind.Leader leader) (role Kind.Batcher batcher) (Msg.Leads round) }
{
    let from = RoleId::new(Kind::Leader, leader);
    let to = RoleId::new(Kind::Batcher, batcher);
    Datagram::new(from, to, Msg::Leads { round })
}

/// A leader's question whether a matchmaker records its round.
#[tactic(auto, unfolding(cx_wire::specs::Format::u16))]
pub fn match_a(leader: u16, matchmaker: u16, round: Round, grid: Grid) -> Datagram
    requires round { IsTrue (field.round.fits round) }
    ensures { result ≡ letter (role Kind.Leader leader) (role Kind.Matchmaker matchmaker)
        (Msg.MatchA round grid) }
{
    grid_fits(&grid);
    let from = RoleId::new(Kind::Leader, leader);
    let to = RoleId::new(Kind::Matchmaker, matchmaker);
    Datagram::new(from, to, Msg::MatchA { round, grid })
}

/// A matchmaker's word that it recorded the round, with its earlier entries.
#[tactic(auto, unfolding(crate::specs::Messages::match_b, cx_wire::specs::Format::u16))]
pub fn match_b(
    matchmaker: u16,
    leader: u16,
    round: Round,
    watermark: Round,
    entries: Entries,
) -> Datagram
    requires round { IsTrue (field.round.fits round) }
    requires watermark { IsTrue (field.round0.fits watermark) }
    requires entries { IsTrue (field.entries.fits entries) }
    ensures { result ≡ letter (role Kind.Matchmaker matchmaker) (role Kind.Leader leader)
        (Msg.MatchB round watermark entries) }
{
    let from = RoleId::new(Kind::Matchmaker, matchmaker);
    let to = RoleId::new(Kind::Leader, leader);
    Datagram::new(
        from,
        to,
        Msg::MatchB {
            round,
            watermark,
            entries,
        },
    )
}

/// A matchmaker's word that it does not record the round, why, and another round.
#[tactic(auto, unfolding(crate::specs::Messages::match_nack, cx_wire::specs::Format::u16))]
pub fn match_nack(
    matchmaker: u16,
    leader: u16,
    round: Round,
    reason: NackReason,
    other: Round,
) -> Datagram
    requires round { IsTrue (field.round.fits round) }
    requires other { IsTrue (field.round.fits other) }
    ensures { result ≡ letter (role Kind.Matchmaker matchmaker) (role Kind.Leader leader)
        (Msg.MatchNack round reason other) }
{
    reason_fits(reason);
    let from = RoleId::new(Kind::Matchmaker, matchmaker);
    let to = RoleId::new(Kind::Leader, leader);
    Datagram::new(
        from,
        to,
        Msg::MatchNack {
            round,
            reason,
            other,
        },
    )
}

/// A leader's question whether an acceptor promises its round.
#[tactic(auto, unfolding(cx_wire::specs::Format::u16))]
pub fn phase1a(leader: u16, acceptor: u16, round: Round) -> Datagram
    requires round { IsTrue (field.round.fits round) }
    ensures { result
        ≡ letter (role Kind.Leader leader) (role Kind.Acceptor acceptor) (Msg.Phase1A round) }
{
    let from = RoleId::new(Kind::Leader, leader);
    let to = RoleId::new(Kind::Acceptor, acceptor);
    Datagram::new(from, to, Msg::Phase1A { round })
}

/// An acceptor's promise, with its votes from the slot `cw` on.
#[tactic(auto, unfolding(cx_field::specs::Fields::votes, crate::specs::Messages::phase1b, cx_wire::specs::Format::u16))]
pub fn phase1b(acceptor: u16, leader: u16, round: Round, cw: u64, votes: Votes) -> Datagram
    requires round { IsTrue (field.round.fits round) }
    requires cw { IsTrue (field.mark.fits cw) }
    requires votes { IsTrue ((field.votes cw).fits votes) }
    ensures { result ≡ letter (role Kind.Acceptor acceptor) (role Kind.Leader leader)
        (Msg.Phase1B round cw votes) }
{
    let from = RoleId::new(Kind::Acceptor, acceptor);
    let to = RoleId::new(Kind::Leader, leader);
    Datagram::new(from, to, Msg::Phase1B { round, cw, votes })
}

/// An acceptor's word that it promised a greater round.
#[tactic(auto, unfolding(crate::specs::Messages::nack, cx_wire::specs::Format::u16))]
pub fn nack(acceptor: u16, leader: u16, round: Round, promise: Round) -> Datagram
    requires round { IsTrue (field.round.fits round) }
    requires promise { IsTrue (field.round.fits promise) }
    ensures { result
        ≡ letter (role Kind.Acceptor acceptor) (role Kind.Leader leader) (Msg.Nack round promise) }
{
    let from = RoleId::new(Kind::Acceptor, acceptor);
    let to = RoleId::new(Kind::Leader, leader);
    Datagram::new(from, to, Msg::Nack { round, promise })
}

/// A leader's value for a slot, for a proxy; enough replicas hold all slots below `cw`.
#[tactic(auto, unfolding(cx_field::specs::Fields::value, crate::specs::Messages::propose, cx_wire::specs::Format::u16))]
pub fn propose(
    leader: u16,
    proxy: u16,
    round: Round,
    grid: Grid,
    slot: u64,
    cw: u64,
    value: Value,
) -> Datagram
    requires round { IsTrue (field.round.fits round) }
    requires slot { IsTrue (field.slot.fits slot) }
    requires cw { IsTrue (field.mark.fits cw) }
    requires window { IsTrue (in_window cw slot) }
    requires value { IsTrue (field.value.fits value) }
    ensures { result ≡ letter (role Kind.Leader leader) (role Kind.Proxy proxy)
        (Msg.Propose round grid slot cw value) }
{
    grid_fits(&grid);
    let from = RoleId::new(Kind::Leader, leader);
    let to = RoleId::new(Kind::Proxy, proxy);
    Datagram::new(
        from,
        to,
        Msg::Propose {
            round,
            grid,
            slot,
            cw,
            value,
        },
    )
}

/// A proxy's question whether an acceptor votes for the value.
#[tactic(auto, unfolding(cx_field::specs::Fields::value, crate::specs::Messages::phase2a, cx_wire::specs::Format::u16))]
pub fn phase2a(
    proxy: u16,
    acceptor: u16,
    round: Round,
    slot: u64,
    cw: u64,
    value: Value,
) -> Datagram
    requires round { IsTrue (field.round.fits round) }
    requires slot { IsTrue (field.slot.fits slot) }
    requires cw { IsTrue (field.mark.fits cw) }
    requires window { IsTrue (in_window cw slot) }
    requires value { IsTrue (field.value.fits value) }
    ensures { result ≡ letter (role Kind.Proxy proxy) (role Kind.Acceptor acceptor)
        (Msg.Phase2A round slot cw value) }
{
    let from = RoleId::new(Kind::Proxy, proxy);
    let to = RoleId::new(Kind::Acceptor, acceptor);
    Datagram::new(
        from,
        to,
        Msg::Phase2A {
            round,
            slot,
            cw,
            value,
        },
    )
}

/// An acceptor's word that it keeps a vote.
#[tactic(auto, unfolding(crate::specs::Messages::round_slot, cx_wire::specs::Format::u16))]
pub fn phase2b(acceptor: u16, proxy: u16, round: Round, slot: u64) -> Datagram
    requires round { IsTrue (field.round.fits round) }
    requires slot { IsTrue (field.slot.fits slot) }
    ensures { result
        ≡ letter (role Kind.Acceptor acceptor) (role Kind.Proxy proxy) (Msg.Phase2B round slot) }
{
    let from = RoleId::new(Kind::Acceptor, acceptor);
    let to = RoleId::new(Kind::Proxy, proxy);
    Datagram::new(from, to, Msg::Phase2B { round, slot })
}

/// A proxy's word to a replica that the value is chosen.
#[tactic(auto, unfolding(cx_field::specs::Fields::value, crate::specs::Messages::slot_value, cx_wire::specs::Format::u16))]
pub fn chosen(proxy: u16, replica: u16, slot: u64, value: Value) -> Datagram
    requires slot { IsTrue (field.slot.fits slot) }
    requires value { IsTrue (field.value.fits value) }
    ensures { result
        ≡ letter (role Kind.Proxy proxy) (role Kind.Replica replica) (Msg.Chosen slot value) }
{
    let from = RoleId::new(Kind::Proxy, proxy);
    let to = RoleId::new(Kind::Replica, replica);
    Datagram::new(from, to, Msg::Chosen { slot, value })
}

/// A replica's word to another that the value is chosen.
#[tactic(auto, unfolding(cx_field::specs::Fields::value, crate::specs::Messages::slot_value, cx_wire::specs::Format::u16))]
pub fn fetched(from: u16, replica: u16, slot: u64, value: Value) -> Datagram
    requires slot { IsTrue (field.slot.fits slot) }
    requires value { IsTrue (field.value.fits value) }
    ensures { result
        ≡ letter (role Kind.Replica from) (role Kind.Replica replica) (Msg.Chosen slot value) }
{
    let from = RoleId::new(Kind::Replica, from);
    let to = RoleId::new(Kind::Replica, replica);
    Datagram::new(from, to, Msg::Chosen { slot, value })
}

/// A proxy's word to a leader that the slot is done in its round.
#[tactic(auto, unfolding(crate::specs::Messages::round_slot, cx_wire::specs::Format::u16))]
pub fn chosen_in(proxy: u16, leader: u16, round: Round, slot: u64) -> Datagram
    requires round { IsTrue (field.round.fits round) }
    requires slot { IsTrue (field.slot.fits slot) }
    ensures { result
        ≡ letter (role Kind.Proxy proxy) (role Kind.Leader leader) (Msg.ChosenIn round slot) }
{
    let from = RoleId::new(Kind::Proxy, proxy);
    let to = RoleId::new(Kind::Leader, leader);
    Datagram::new(from, to, Msg::ChosenIn { round, slot })
}

/// A replica's answers to the commands of a slot, for an unbatcher.
#[tactic(auto, unfolding(crate::specs::Messages::results, cx_wire::specs::Format::u16))]
pub fn results(replica: u16, unbatcher: u16, slot: u64, answers: Answers) -> Datagram
    requires slot { IsTrue (field.slot.fits slot) }
    requires answers { IsTrue (field.answers.fits answers) }
    ensures { result ≡ letter (role Kind.Replica replica) (role Kind.Unbatcher unbatcher)
        (Msg.Results slot answers) }
{
    let from = RoleId::new(Kind::Replica, replica);
    let to = RoleId::new(Kind::Unbatcher, unbatcher);
    Datagram::new(from, to, Msg::Results { slot, answers })
}

/// An unbatcher's answer to a client's command; `at` is one more than its slot.
#[tactic(auto, unfolding(crate::specs::Messages::answer, cx_wire::specs::Format::u16))]
pub fn answer(unbatcher: u16, client: u16, seq: u64, at: u64, reply: Reply) -> Datagram
    requires seq { IsTrue (field.seq.fits seq) }
    requires at { IsTrue (field.at.fits at) }
    requires reply { IsTrue (field.reply.fits reply) }
    ensures { result ≡ letter (role Kind.Unbatcher unbatcher) (role Kind.Client client)
        (Msg.Answer seq at reply) }
{
    let from = RoleId::new(Kind::Unbatcher, unbatcher);
    let to = RoleId::new(Kind::Client, client);
    Datagram::new(from, to, Msg::Answer { seq, at, reply })
}

/// A replica's word to a leader that it holds `mark` slots.
#[tactic(auto, unfolding(cx_wire::specs::Format::u16))]
pub fn held(replica: u16, leader: u16, mark: u64) -> Datagram
    requires mark { IsTrue (field.mark.fits mark) }
    ensures { result
        ≡ letter (role Kind.Replica replica) (role Kind.Leader leader) (Msg.Held mark) }
{
    let from = RoleId::new(Kind::Replica, replica);
    let to = RoleId::new(Kind::Leader, leader);
    Datagram::new(from, to, Msg::Held { mark })
}

/// A replica's question to another for the value of the next slot that it wants.
#[tactic(auto, unfolding(cx_wire::specs::Format::u16))]
pub fn fetch(replica: u16, other: u16, mark: u64) -> Datagram
    requires mark { IsTrue (field.mark.fits mark) }
    ensures { result
        ≡ letter (role Kind.Replica replica) (role Kind.Replica other) (Msg.Fetch mark) }
{
    let from = RoleId::new(Kind::Replica, replica);
    let to = RoleId::new(Kind::Replica, other);
    Datagram::new(from, to, Msg::Fetch { mark })
}

/// A leader's word to an acceptor that enough replicas hold `mark` slots.
#[tactic(auto, unfolding(cx_wire::specs::Format::u16))]
pub fn inform(leader: u16, acceptor: u16, round: Round, mark: u64) -> Datagram
    requires round { IsTrue (field.round.fits round) }
    requires mark { IsTrue (field.mark.fits mark) }
    ensures { result
        ≡ letter (role Kind.Leader leader) (role Kind.Acceptor acceptor) (Msg.Inform round mark) }
{
    let from = RoleId::new(Kind::Leader, leader);
    let to = RoleId::new(Kind::Acceptor, acceptor);
    Datagram::new(from, to, Msg::Inform { round, mark })
}

/// An acceptor's word that it knows how many slots enough replicas hold.
#[tactic(auto, unfolding(cx_wire::specs::Format::u16))]
pub fn informed(acceptor: u16, leader: u16, round: Round, mark: u64) -> Datagram
    requires round { IsTrue (field.round.fits round) }
    requires mark { IsTrue (field.mark.fits mark) }
    ensures { result
        ≡ letter (role Kind.Acceptor acceptor) (role Kind.Leader leader) (Msg.Informed round mark) }
{
    let from = RoleId::new(Kind::Acceptor, acceptor);
    let to = RoleId::new(Kind::Leader, leader);
    Datagram::new(from, to, Msg::Informed { round, mark })
}

/// A leader's question whether a matchmaker forgets the rounds below its own.
#[tactic(auto, unfolding(cx_wire::specs::Format::u16))]
pub fn garbage_a(leader: u16, matchmaker: u16, round: Round, grid: Grid) -> Datagram
    requires round { IsTrue (field.round.fits round) }
    ensures { result ≡ letter (role Kind.Leader leader) (role Kind.Matchmaker matchmaker)
        (Msg.GarbageA round grid) }
{
    grid_fits(&grid);
    let from = RoleId::new(Kind::Leader, leader);
    let to = RoleId::new(Kind::Matchmaker, matchmaker);
    Datagram::new(from, to, Msg::GarbageA { round, grid })
}

/// A matchmaker's word that it forgot the rounds below this one.
#[tactic(auto, unfolding(cx_wire::specs::Format::u16))]
pub fn garbage_b(matchmaker: u16, leader: u16, round: Round) -> Datagram
    requires round { IsTrue (field.round.fits round) }
    ensures { result
        ≡ letter (role Kind.Matchmaker matchmaker) (role Kind.Leader leader) (Msg.GarbageB round) }
{
    let from = RoleId::new(Kind::Matchmaker, matchmaker);
    let to = RoleId::new(Kind::Leader, leader);
    Datagram::new(from, to, Msg::GarbageB { round })
}
