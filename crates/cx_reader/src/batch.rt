//! The batch that runs.

ghost use Rattle.std.specs.Prelude.{◌≡◌, ◌≤◌, ◌<◌, ◌+◌, ◌++◌, ◌∷◌, ◌&&◌, not};
ghost use Rattle.cx_role.specs.Prelude.{[], map, length, true, IsTrue, IfOk, list_any, role};
ghost use Rattle.cx_role.specs.Prelude.kind;
ghost use Rattle.cx_role.specs.Prelude.{greatest_watermark, is_counted, is_in, is_member_of, live_entries};
ghost use Rattle.cx_role.specs.Prelude.{members_of, rows_whole, Entry};
ghost use Rattle.cx_model.specs.Reader.{acked_by, ask_acceptors, ask_replicas, asking, greatest_mark, has_acked, is_among, is_first, is_matched};
ghost use Rattle.cx_model.specs.Reader.{is_of_batch, new_batch, with_asked};
ghost use Rattle.cx_reader.specs.Running.{are_apart};
ghost use Rattle.cx_field.specs.Fields as field;

use crate::asked::Asked;
use crate::matched;
use crate::reads::AskedReads;
use crate::sends::asking;
use cx_base::{Cluster, Duplicate, NoMemory, Round, Set};
use cx_field::{Asking, Token};
use cx_grid::Marks;
use cx_letter::pre_read;
use cx_model::{Acked, MatchAnswer};
use cx_role::Outbox;
use std::alloc::Global;
use std::marker::Model;

/// The batch that runs: its turn, its reads in the order in which they came, and the answers that were counted. Until enough
/// matchmakers have answered it waits for them, and then for a row of each live grid (VLDB 2021; over several grids, and in batches,
/// this project's own).
#[derive(Drop)]
pub struct Batch {
    turn: u64,
    reads: AskedReads,
    told: Vec<MatchAnswer>,
    acks: Vec<Acked>,
    // The acceptors that were counted, as a set.
    counted: Marks,
}

impl Model for Batch {
    ghost use Rattle.cx_model.specs.Reader.{Batch as Running};
    ghost use Rattle.cx_reader.specs.Running.{IsRunningBatch};

    ghost Value = { Running };

    ghost view = { λ b. record {
      turn = b.turn;
      reads = b.reads;
      told = b.told.items;
      acks = b.acks.items;
    } };

    ghost invariant = { λ b.
        IsRunningBatch b.turn b.reads b.told.items b.acks.items b.counted };
}

impl Batch {
    /// A batch that no answer was counted for. It takes no memory.
    pub fn new(alloc: Global, turn: u64, reads: AskedReads) -> Self
        requires turn { IsTrue (field.seq.fits turn) }
        requires few { length reads ≤ 64 }
        ensures { result ≡ new_batch turn reads }
    {
        Batch {
            turn,
            reads,
            told: Vec::new(alloc),
            acks: Vec::new(alloc),
            counted: Marks::new(),
        }
    }

    /// Its turn.
    pub fn turn(&self) -> u64
        ensures turn { result ≡ self.now.turn }
        ensures fits { IsTrue (field.seq.fits result) }
    {
        self.turn
    }

    /// How many reads it has.
    pub fn len(&self) -> usize
        ensures count { result ≡ length self.now.reads }
        ensures few { result ≤ 64 }
    {
        self.reads.len()
    }

    /// Whether one of its reads has this client and number.
    pub fn has(&self, token: Token) -> bool
        ensures { result ≡ is_among token self.now.reads }
    {
        self.reads.has(token)
    }

    /// Whether its first read has.
    pub fn is_first(&self, token: Token) -> bool
        ensures { result ≡ is_first token self.now.reads }
    {
        self.reads.is_first(token)
    }

    /// Its reads, copied.
    pub fn reads(&self, alloc: Global) -> Result<AskedReads, NoMemory>
        ensures { IfOk result (λ reads. reads ≡ self.now.reads) }
    {
        self.reads.copy(alloc)
    }

    /// Its reads with one in the place of the earlier one of its client and number, the first, and then those that wait.
    pub fn again(
        &self,
        alloc: Global,
        one: Asked,
        waiting: &AskedReads,
    ) -> Result<AskedReads, NoMemory>
        requires first { is_first one.read self.now.reads ≡ true }
        requires apart { IsTrue (are_apart self.now.reads waiting.now) }
        ensures { IfOk result (λ reads. reads ≡ with_asked one self.now.reads ++ waiting.now) }
    {
        let mut reads = self.reads(alloc)?;
        reads.add_all(waiting)?;
        reads.put_again(one);
        Ok(reads)
    }

    /// Whether a reader's asking is of this batch.
    fn is_of(&self, reader: u16, asking: Asking) -> bool
        ensures { result ≡ is_of_batch (role kind.Reader reader) self.now asking }
    {
        asking.reader == reader && asking.turn == self.turn
    }

    /// Whether enough matchmakers have answered, f + 1 of them.
    pub fn is_matched(&self, cluster: &Cluster) -> bool
        ensures { result ≡ is_matched cluster.now self.now }
    {
        self.told.len() > usize::from(cluster.f)
    }

    /// Whether it waits for matchmakers of a set, this one among them, and this asking is its own.
    pub fn awaits_matchmaker(
        &self,
        cluster: &Cluster,
        reader: u16,
        set: &Set,
        asking: Asking,
        matchmaker: u16,
    ) -> bool
        ensures { result ≡ (is_of_batch (role kind.Reader reader) self.now asking
            && not (is_matched cluster.now self.now) && is_in matchmaker set.now) }
    {
        self.is_of(reader, asking) && !self.is_matched(cluster) && set.contains(matchmaker)
    }

    /// Whether it waits for acceptors, this one among them, and this asking is its own.
    pub fn awaits_acceptor(
        &self,
        cluster: &Cluster,
        reader: u16,
        asking: Asking,
        acceptor: u16,
    ) -> bool
        ensures { result ≡ (is_of_batch (role kind.Reader reader) self.now asking
            && is_matched cluster.now self.now
            && is_member_of (live_entries self.now.told) acceptor) }
    {
        self.is_of(reader, asking) && self.is_matched(cluster) && self.is_live_member(acceptor)
    }

    pub fn has_told(&self, matchmaker: u16) -> bool
        ensures { result ≡ is_counted matchmaker self.now.told }
    {
        matched::is_counted(&self.told, matchmaker)
    }

    pub fn has_acked(&self, acceptor: u16) -> bool
        ensures { result ≡ has_acked acceptor self.now.acks }
    {
        self.counted.contains(acceptor)
    }

    pub fn has_live(&self) -> bool
        ensures { result ≡ list_any (λ (e : Entry). true) (live_entries self.now.told) }
    {
        matched::has_live(&self.told)
    }

    fn is_live_member(&self, acceptor: u16) -> bool
        ensures { result ≡ is_member_of (live_entries self.now.told) acceptor }
    {
        matched::is_live_member(&self.told, acceptor)
    }

    #[tactic(auto, using(crate::proofs::Ranges::watermark_fits))]
    pub fn watermark(&self) -> Round
        ensures watermark { result ≡ greatest_watermark self.now.told }
        ensures fits { IsTrue (field.round0.fits result) }
    {
        matched::greatest_watermark(&self.told)
    }

    /// The greatest number of slots that an acceptor reported.
    #[tactic(auto, using(crate::proofs::Ranges::mark_fits))]
    pub fn mark(&self) -> u64
        ensures mark { result ≡ greatest_mark self.now.acks }
        ensures fits { IsTrue (field.mark.fits result) }
    {
        greatest_mark(&self.acks)
    }

    /// Whether each live grid has a row of acceptors that were counted.
    pub fn rows_whole(&self) -> bool
        ensures { result ≡ rows_whole (live_entries self.now.told) (acked_by self.now.acks) }
    {
        matched::rows_whole(&self.told, &self.counted)
    }

    /// The batch with one more matchmaker counted. This one stays, so that running out of memory changes nothing.
    pub fn with_answer(&self, alloc: Global, answer: MatchAnswer) -> Result<Batch, NoMemory>
        requires { IsTrue (field.round0.fits answer.watermark) }
        ensures { IfOk result
            (λ more. more ≡ record self.now { told = self.now.told ++ answer ∷ [] }) }
    {
        let mut more = self.copy(alloc)?;
        more.told.push(answer)?;
        Ok(more)
    }

    /// The batch with one more acceptor counted. This one stays, so that running out of memory changes nothing.
    pub fn with_ack(&self, alloc: Global, ack: Acked) -> Result<Batch, NoMemory>
        requires acceptor { ack.acceptor < 64 }
        requires mark { IsTrue (field.mark.fits ack.mark) }
        ensures { IfOk result
            (λ more. more ≡ record self.now { acks = self.now.acks ++ ack ∷ [] }) }
    {
        let mut more = self.copy(alloc)?;
        more.acks.push(ack)?;
        more.counted.add(ack.acceptor);
        Ok(more)
    }

    /// Forgets which matchmakers were counted.
    pub fn recount(&mut self)
        ensures { self.new ≡ record self.old { told = [] } }
    {
        self.told.clear();
    }

    /// Asks a replica for each read, in their order. Room was taken beforehand.
    pub fn ask_replicas(&self, reader: u16, mark: u64, out: &mut Outbox)
        requires spare { length self.now.reads ≤ out.old.spare }
        requires mark { IsTrue (field.mark.fits mark) }
        ensures list { out.new.list
            ≡ out.old.list ++ ask_replicas (role kind.Reader reader) self.now mark }
        ensures spare { out.old.spare ≤ out.new.spare + length self.now.reads }
    {
        self.reads.ask_all(reader, mark, out);
    }

    /// Asks the members of live grids how far they voted, by rising index. Room was taken beforehand.
    #[tactic(auto, using(cx_role::proofs::Sends::sends))]
    pub fn ask_acceptors(&self, reader: u16, cluster: &Cluster, out: &mut Outbox)
        requires { cluster.now.acceptors ≤ out.old.spare }
        ensures { out.new.list
            ≡ out.old.list ++ ask_acceptors cluster.now (role kind.Reader reader) self.now }
    {
        let asking = asking(reader, self.turn());
        let watermark = self.watermark();
        for acceptor in 0..cluster.acceptors {
            if self.is_live_member(acceptor) {
                out.push(pre_read(reader, acceptor, asking, watermark));
            }
        }
    }
}

impl Duplicate for Batch {
    fn copy(&self, alloc: Global) -> Result<Self, NoMemory> {
        Ok(Batch {
            turn: self.turn,
            reads: self.reads(alloc)?,
            told: copied(alloc, &self.told)?,
            acks: Vec::from_slice(alloc, &self.acks)?,
            counted: self.counted.copy(alloc)?,
        })
    }
}

fn greatest_mark(acks: &[Acked]) -> u64
    ensures { result ≡ greatest_mark acks.now }
{
    match acks {
        [] => 0,
        [ack, rest @ ..] => ack.mark.max(greatest_mark(rest)),
    }
}

fn copied(alloc: Global, told: &[MatchAnswer]) -> Result<Vec<MatchAnswer>, NoMemory>
    ensures { IfOk result (λ copied. copied.items ≡ told.now) }
{
    let mut list = Vec::with_capacity(alloc, told.len())?;
    for answer in told {
        list.push(MatchAnswer {
            matchmaker: answer.matchmaker,
            watermark: answer.watermark,
            entries: answer.entries.copy(alloc)?,
        })?;
    }
    Ok(list)
}
