//! The reader.

ghost use Rattle.std.specs.Prelude.{◌≡◌};
ghost use Rattle.cx_role.specs.Prelude.{IsTrue};
ghost use Rattle.cx_model.specs.Reader.{ReaderDurable, ReaderVolatile, reader_rules, make_token};
ghost use Rattle.cx_field.specs.Fields as field;

use crate::asked::Asked;
use crate::batch::Batch;
use crate::reads::AskedReads;
use cx_base::{Cluster, Kind, NoMemory, Order, RoleId, Set, Why};
use cx_field::Token;
use cx_keep::Keeper;
use cx_letter::{Datagram, Msg, Record};
use cx_role::{Outbox, Role, StepFault, WakeFault, is_for};
use std::alloc::Global;
use std::marker::Model;

/// A reader of the cluster: its last turn, the reads that wait, in the order in which they came, and the batch that runs, if one
/// does; and the set of matchmakers that it knows. At most 64 reads wait and run together (VLDB 2021: quorum reads; over several
/// grids, in batches, and with sets of matchmakers, this project's own).
#[derive(Drop)]
pub struct Reader {
    pub(crate) alloc: Global,
    pub(crate) cluster: Cluster,
    pub(crate) index: u16,
    pub(crate) live: bool,
    pub(crate) turn: u64,
    pub(crate) waiting: AskedReads,
    pub(crate) running: Option<Batch>,
    // The matchmakers that are asked, and whose answers count.
    pub(crate) set: Set,
}

impl Model for Reader {
    ghost use Rattle.cx_role.specs.Prelude.{role, Running};
    ghost use Rattle.cx_role.specs.Prelude.kind;
    ghost use Rattle.cx_model.specs.Reader.{ReaderDurable, ReaderVolatile};
    ghost use Rattle.cx_reader.specs.Running.{IsReader};

    ghost Value = { Running ReaderDurable ReaderVolatile };

    ghost view = { λ r. record {
      cluster = r.cluster;
      me = role kind.Reader r.index;
      live = r.live;
      durable = record { turn = r.turn };
      volatile = record { waiting = r.waiting; running = r.running; set = r.set };
    } };

    ghost invariant = { λ r. IsReader r.turn r.waiting r.running };
}

#[tactic(auto, unfolding(cx_field::specs::Fields::token, cx_wire::specs::Format::u16))]
fn token(client: u16, seq: u64) -> Token
    requires { IsTrue (field.seq.fits seq) }
    ensures token { result ≡ make_token client seq }
    ensures fits { IsTrue (field.token.fits result) }
{
    Token { client, seq }
}

impl Role for Reader {
    ghost Durable = { ReaderDurable };

    ghost Volatile = { ReaderVolatile };

    ghost rules = { reader_rules };

    ghost state = { λ s. s };

    #[tactic(auto, using(crate::proofs::Opened::reader_itself))]
    fn new(alloc: Global, cluster: &Cluster, me: RoleId) -> Result<Self, NoMemory> {
        Ok(Reader {
            alloc,
            cluster: *cluster,
            index: me.index,
            live: true,
            turn: 0,
            waiting: AskedReads::new(alloc),
            running: None,
            set: Set::first(cluster),
        })
    }

    fn reopen(self, records: &[Record]) -> Result<Self, WakeFault> {
        let mut reader = self;
        reader.live = true;
        reader.waiting.clear();
        reader.running = None;
        reader.set = Set::first(&reader.cluster);
        for (index, what) in records.iter().enumerate() {
            if !reader.fits(what) {
                return Err(WakeFault::Record { index });
            }
            reader.remember(what);
        }
        Ok(reader)
    }

    fn take<K: Keeper>(
        &mut self,
        keeper: &mut K,
        datagram: &Datagram,
        out: &mut Outbox,
    ) -> Result<Why, StepFault> {
        let me = RoleId::new(Kind::Reader, self.index);
        if !is_for(&self.cluster, me, datagram) {
            return Ok(Why::Stranger);
        }
        let from = datagram.from();
        match datagram.msg() {
            Msg::ReadReq { seq, replica, key } => {
                let one = Asked::new(token(from.index, *seq), *replica, *key);
                self.request(keeper, one, out)
            }
            Msg::MatchReadAck {
                asking,
                watermark,
                entries,
            } => self.match_answer(keeper, from, *asking, *watermark, entries, out),
            Msg::PreReadAck {
                asking,
                watermark,
                mark,
            } => self.pre_read_answer(keeper, from, *asking, *watermark, *mark, out),
            Msg::Sets { set } => Ok(self.learn(*set, out)?),
            _ => Ok(Why::Stranger),
        }
    }

    fn order<K: Keeper>(
        &mut self,
        _keeper: &mut K,
        _order: &Order,
        _out: &mut Outbox,
    ) -> Result<Why, StepFault> {
        Ok(Why::Stranger)
    }

    fn tick(&mut self, out: &mut Outbox) -> Result<Why, NoMemory> {
        self.resend(out)
    }

    fn live(&self) -> bool {
        self.live
    }
}
