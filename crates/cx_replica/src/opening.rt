//! How a replica is opened from its records, one by one. `wanted` counts down what the base of a renewed list said: first
//! pairs, then clients, then values. Records of pairs and of values are full but for the last. Log records come behind.

ghost use Rattle.std.specs.Prelude.{◌≡◌, ◌≤◌, ◌^◌, [], true, false, length, IfOk, IsTrue};
ghost use Rattle.std.specs.List.{list_all};
ghost use Rattle.cx_base.specs.declared.command.Value.{Value};
ghost use Rattle.cx_model.specs.Names.{names_value};
ghost use Rattle.cx_model.specs.Replica.{replica_after, replica_fits};
ghost use Rattle.cx_letter.specs.Records.{fits as record_fits};
ghost use Rattle.cx_letter.specs.declared.kept.Record.TheVariants as kept;
ghost use Rattle.cx_replica.specs.Sound.{are_notes, are_values};

use crate::orders::are_client_notes;
use crate::replica::Replica;
use crate::wanted::Wanted;
use cx_base::{Cluster, NoMemory, Note, PAIRS, Pair, SLOTS, Value, WINDOW};
use cx_letter::Record;
use cx_role::names_value;

/// How many pairs a full record has.
const FULL: u64 = PAIRS as u64;

// Whether the clients of all commands of values are in the cluster.
fn names_values(cluster: &Cluster, values: &[Value]) -> bool
    ensures { result ≡ list_all (λ (v : Value). names_value cluster.now v) values.now }
{
    values.iter().all(|value| names_value(cluster, value))
}

impl Replica {
    fn fits_log(&self, values: &[Value]) -> bool
        ensures { result
            ≡ replica_fits self.now.cluster self.now.me self.now.durable (kept.Log values.now) }
    {
        self.wanted.is_whole()
            && names_values(&self.cluster, values)
            && self.log.held() + values.len() as u64 <= SLOTS
    }

    fn fits_pairs(&self, pairs: &[Pair]) -> bool
        ensures { result
            ≡ replica_fits self.now.cluster self.now.me self.now.durable (kept.Pairs pairs.now) }
    {
        pairs.len() as u64 == FULL.min(self.wanted.pairs) && self.machine.may_push(pairs)
    }

    fn fits_notes(&self, client: u16, floor: u64, notes: &[Note]) -> bool
        ensures { result
            ≡ replica_fits self.now.cluster self.now.me self.now.durable
            (kept.Notes client floor notes.now) }
    {
        // Behind all pairs, one record for each client, and the clients rise.
        self.wanted.pairs == 0
            && 0 < self.wanted.clients
            && client < self.cluster.clients
            && self.machine.is_behind(self.cluster.clients, client)
            && are_client_notes(floor, notes)
    }

    fn fits_tail(&self, values: &[Value]) -> bool
        ensures { result
            ≡ replica_fits self.now.cluster self.now.me self.now.durable (kept.Tail values.now) }
    {
        self.wanted.pairs == 0
            && self.wanted.clients == 0
            && names_values(&self.cluster, values)
            && values.len() as u64 == WINDOW.min(self.wanted.values)
    }

    /// Whether it could have appended this record, or a renewal have it in this place.
    pub(crate) fn fits(&self, what: &Record) -> bool
        ensures { result ≡ replica_fits self.now.cluster self.now.me self.now.durable what.now }
    {
        match what {
            Record::Log { values } => self.fits_log(values.as_slice()),
            Record::Base { first, held, .. } => !self.wanted.begun && *first <= *held,
            Record::Pairs { pairs } => self.fits_pairs(pairs.as_slice()),
            Record::Notes {
                client,
                floor,
                notes,
            } => self.fits_notes(*client, *floor, notes.as_slice()),
            Record::Tail { values } => self.fits_tail(values.as_slice()),
            _ => false,
        }
    }

    fn remember_log(self, values: &[Value]) -> Result<Self, NoMemory>
        requires ranges { IsTrue (are_values values.now) }
        requires own { replica_fits self.cluster self.me self.durable (kept.Log values.now) ≡ true }
        requires none_early { self.volatile.early ≡ [] }
        requires waits { self.live ≡ false }
        ensures { IfOk result (λ replica. replica
            ≡ record self { durable = replica_after self.durable (kept.Log values.now) }) }
    {
        let Replica {
            alloc,
            cluster,
            me,
            live,
            mut log,
            mut machine,
            mut wanted,
            deferred,
            fetched,
        } = self;
        // In this order: the first slot of these values is the number of slots held before.
        machine.replay(alloc, log.held(), values)?;
        log.restore(alloc, values)?;
        wanted.begun = true;
        Ok(Replica {
            alloc,
            cluster,
            me,
            live,
            log,
            machine,
            wanted,
            deferred,
            fetched,
        })
    }

    // A renewed list begins: its values are those from `first` to before `held`, and what all before `held` left follows.
    fn remember_base(self, first: u64, held: u64, pairs: u32, clients: u8) -> Self
        requires held { held ≤ 2 ^ 40 }
        requires own { replica_fits self.cluster self.me self.durable
            (kept.Base first held pairs clients) ≡ true }
        requires none_early { self.volatile.early ≡ [] }
        requires waits { self.live ≡ false }
        ensures { result ≡ record self {
          durable = replica_after self.durable (kept.Base first held pairs clients);
        } }
    {
        let mut replica = self;
        replica.log.restore_at(first);
        replica.wanted = Wanted {
            begun: true,
            pairs: u64::from(pairs),
            clients: u64::from(clients),
            values: held - first,
        };
        replica
    }

    fn remember_pairs(self, pairs: &[Pair]) -> Result<Self, NoMemory>
        requires own { replica_fits self.cluster self.me self.durable (kept.Pairs pairs.now)
            ≡ true }
        requires waits { self.live ≡ false }
        ensures { IfOk result (λ replica. replica
            ≡ record self { durable = replica_after self.durable (kept.Pairs pairs.now) }) }
    {
        let mut replica = self;
        replica.machine.push_pairs(pairs)?;
        replica.wanted.begun = true;
        replica.wanted.pairs -= pairs.len() as u64;
        Ok(replica)
    }

    fn remember_notes(self, client: u16, floor: u64, notes: &[Note]) -> Result<Self, NoMemory>
        requires fit { IsTrue (are_notes client notes.now) }
        requires some { 1 ≤ length notes.now }
        requires own { replica_fits self.cluster self.me self.durable
            (kept.Notes client floor notes.now) ≡ true }
        requires waits { self.live ≡ false }
        ensures { IfOk result (λ replica. replica
            ≡ record self {
              durable = replica_after self.durable (kept.Notes client floor notes.now);
            }) }
    {
        let Replica {
            alloc,
            cluster,
            me,
            live,
            log,
            machine,
            mut wanted,
            deferred,
            fetched,
        } = self;
        let machine = machine.with_client(client, floor, notes)?;
        wanted.begun = true;
        wanted.clients -= 1;
        Ok(Replica {
            alloc,
            cluster,
            me,
            live,
            log,
            machine,
            wanted,
            deferred,
            fetched,
        })
    }

    // These values aren't executed: pairs and notes are what they left.
    fn remember_tail(self, values: &[Value]) -> Result<Self, NoMemory>
        requires ranges { IsTrue (are_values values.now) }
        requires own { replica_fits self.cluster self.me self.durable (kept.Tail values.now)
            ≡ true }
        requires none_early { self.volatile.early ≡ [] }
        requires waits { self.live ≡ false }
        ensures { IfOk result (λ replica. replica
            ≡ record self { durable = replica_after self.durable (kept.Tail values.now) }) }
    {
        let mut replica = self;
        replica.log.restore(replica.alloc, values)?;
        replica.wanted.begun = true;
        replica.wanted.values -= values.len() as u64;
        Ok(replica)
    }

    /// The replica once it remembers a record that it could have appended, before it has taken anything.
    pub(crate) fn remember(self, what: &Record) -> Result<Self, NoMemory>
        requires ranges { IsTrue (record_fits what.now) }
        requires own { replica_fits self.cluster self.me self.durable what.now ≡ true }
        requires none_early { self.volatile.early ≡ [] }
        requires waits { self.live ≡ false }
        ensures { IfOk result
            (λ replica. replica ≡ record self { durable = replica_after self.durable what.now }) }
    {
        match what {
            Record::Log { values } => self.remember_log(values.as_slice()),
            Record::Base {
                first,
                held,
                pairs,
                clients,
            } => Ok(self.remember_base(*first, *held, *pairs, *clients)),
            Record::Pairs { pairs } => self.remember_pairs(pairs.as_slice()),
            Record::Notes {
                client,
                floor,
                notes,
            } => self.remember_notes(*client, *floor, notes.as_slice()),
            Record::Tail { values } => self.remember_tail(values.as_slice()),
            _ => Ok(self),
        }
    }
}
