//! What executing values leaves: the map, and the client table.

ghost use Rattle.std.specs.Prelude.{◌≡◌, ℕ, ◌+◌, ◌^◌, ◌++◌, ◌∷◌, ◌<◌, ◌≤◌, [], true, length, IfOk, OnOk, IsTrue};
ghost use Rattle.cx_base.specs.declared.command.Floor.{Floor};
ghost use Rattle.cx_base.specs.Lists.{rises};
ghost use Rattle.cx_base.specs.Noted.{are_rising, floor_of};
ghost use Rattle.cx_kv.specs.Rising.{has_lower_key};
ghost use Rattle.std.specs.Prelude.{slice_index_or, vec_capacity, vec_len};
ghost use Rattle.cx_base.specs.declared.command.Pair.{Pair as PairOf};
ghost use Rattle.cx_base.specs.declared.role.Kind.TheVariants as kind;
ghost use Rattle.cx_base.specs.Fold.{command_list, commands_of, text_at};
ghost use Rattle.cx_field.specs.Fields as field;
ghost use Rattle.cx_model.specs.Replica.{new_machine, acting, execute, execute_all, execute_value};
ghost use Rattle.cx_model.specs.Renewed.{IsOrdered};
ghost use Rattle.cx_model.specs.Replica.{are_client_notes, machine_from, results_from, with_client};
ghost use Rattle.cx_replica.specs.Room.{HasRoom, LeavesRoom};
ghost use Rattle.cx_replica.specs.Sound.{are_answers, are_clients_below, are_commands, are_notes, are_values};
ghost use Rattle.cx_table.specs.Entries.{of_client};
ghost use Rattle.cx_table.specs.Judged.{judge_of};
ghost use Rattle.cx_table.specs.declared.judge.Judge.TheVariants as judge;

use crate::clients;
use crate::orders::{pairs_rise, rise_behind};
use crate::rooms::Rooms;
use crate::sending::send_results;
use cx_base::{Answered, BATCH, Cluster, Command, Key, NoMemory, Note, Pair, RoleId, Text, Value};
use cx_field::reply_fits;
use cx_kv::PairMap;
use cx_role::Outbox;
use cx_table::{Judge, Table};
use std::alloc::Global;
use std::marker::Model;

/// The map and the client table that values leave, with room that was taken beforehand. Each noted answer is in its
/// ranges.
#[derive(Drop)]
pub struct Machine {
    store: PairMap,
    table: Table,
}

impl Model for Machine {
    ghost use Rattle.std.specs.Prelude.{IsTrue};
    ghost use Rattle.cx_replica.specs.Room.{MachineState};
    ghost use Rattle.cx_replica.specs.Sound.{are_answers};

    ghost Value = { MachineState };

    // What values left, and for how many more keys, and answers of each client, there is room.
    ghost view = { λ m. record {
      left = record { map = m.store.pairs; table = m.table.table };
      spare = m.store.spare;
      rooms = m.table.rooms;
    } };

    ghost invariant = { λ m. IsTrue (are_answers m.table.table.notes) };
}

impl Machine {
    /// Nothing executed. It takes no memory.
    pub fn new(alloc: Global) -> Self
        ensures { result.left ≡ new_machine }
    {
        Machine {
            store: PairMap::new(alloc),
            table: Table::new(alloc),
        }
    }

    /// The text of a key.
    pub fn text_at(&self, key: &Key) -> Option<Text>
        ensures { result ≡ text_at key.now self.now.left.map }
    {
        self.store.get(key).copied()
    }

    /// Whether pairs may follow those of the map, their keys rising.
    pub fn may_push(&self, pairs: &[Pair]) -> bool
        ensures { result ≡ rises has_lower_key (self.now.left.map ++ pairs.now) }
    {
        let count = self.store.len();
        if count == 0 {
            return pairs_rise(pairs);
        }
        rise_behind(self.store.at(count - 1), pairs)
    }

    /// Whether a client's index is above those of all that told a floor, which are below `clients`.
    pub fn is_behind(&self, clients: u16, client: u16) -> bool
        requires { are_clients_below clients self.now.left.table.floors ≡ true }
        ensures { (floor : ℕ) → result
            ≡ are_rising 0
            (self.now.left.table.floors ++ record { client = client; floor = floor } ∷ []) }
    {
        // For its contract: the clients of floors rise.
        let _rising = self.table.notes(client);
        let mut above = clients;
        while client < above {
            above -= 1;
            if self.table.floor(above).is_some() {
                return false;
            }
        }
        true
    }

    /// Pairs behind those of the map, for a machine that is opened from records.
    pub fn push_pairs(&mut self, pairs: &[Pair]) -> Result<(), NoMemory>
        requires { rises has_lower_key (self.old.left.map ++ pairs.now) ≡ true }
        ensures { OnOk result
            (self.new.left ≡ record self.old.left { map = self.old.left.map ++ pairs.now }) }
    {
        self.store.push_all(pairs)?;
        Ok(())
    }

    /// What is noted of one more client, behind all others, for a machine that is opened from records.
    pub fn with_client(self, client: u16, floor: u64, notes: &[Note]) -> Result<Self, NoMemory>
        requires fit { IsTrue (are_notes client notes.now) }
        requires some { 1 ≤ length notes.now }
        requires behind { are_rising 0
            (self.left.table.floors ++ record { client = client; floor = floor } ∷ []) ≡ true }
        requires above { are_client_notes floor notes.now ≡ true }
        ensures left { IfOk result (λ m. m.left
            ≡ record self.left { table = with_client client floor notes.now self.left.table }) }
        ensures ordered { IfOk result (λ m. IsOrdered m.left.table) }
    {
        let Machine { store, mut table } = self;
        table.push(client, floor, notes)?;
        // For its contract: the table is in order.
        let _in_order = table.notes(client);
        Ok(Machine { store, table })
    }

    /// Makes room for executing values.
    pub fn make_room(&mut self, values: &[Value]) -> Result<(), NoMemory>
        requires { length values.now ≤ 2 ^ 40 }
        ensures left { self.new.left ≡ self.old.left }
        ensures room { OnOk result (HasRoom self.new (command_list values.now)) }
    {
        // A command adds at most one key.
        self.store.make_room(BATCH * values.len())?;
        clients::make_room(&mut self.table, values)?;
        Ok(())
    }

    /// Executes a command that acts, and adds its answer; `at` is one more than its slot: how many slots a replica holds that
    /// has executed it.
    #[tactic(auto, using(crate::proofs::Executing::reply_length))]
    fn act(&mut self, at: u64, command: &Command, answers: &mut Vec<Answered>)
        requires at { IsTrue (field.at.fits at) }
        requires command { IsTrue (field.command.fits command.now) }
        requires new { judge_of self.old.left.table command.now.client command.now.seq ≡ judge.New }
        requires fit { IsTrue (are_answers answers.old.items) }
        requires room { HasRoom self.old (command.now ∷ []) }
        requires answers { vec_len answers.old < vec_capacity answers.old }
        ensures machine { self.new.left ≡ (acting at self.old.left command.now).machine }
        ensures answers { answers.new.items
            ≡ answers.old.items ++ (acting at self.old.left command.now).answers }
        ensures fit { IsTrue (are_answers answers.new.items) }
        ensures room { LeavesRoom self.old (command.now ∷ []) self.new }
        ensures len { vec_len answers.new ≤ vec_len answers.old + 1 }
        ensures capacity { vec_capacity answers.new ≡ vec_capacity answers.old }
    {
        let reply = self.store.apply(command);
        // It does nothing when it runs: its contract says that the reply has a spelling, its bytes in a record.
        reply_fits(&reply);
        answers.push_reserved(Answered {
            client: command.client,
            seq: command.seq,
            at,
            reply,
        });
        let noted = self
            .table
            .note(command.client, command.seq, command.floor, at, &reply);
        match noted {
            Ok(()) => {}
            // There is room.
            Err(_) => unreachable!(),
        }
    }

    /// Executes a command as the table judges it, and adds its answer, if it has one; `at` is one more than its slot.
    /// Its floor is noted whether or not it acts.
    fn execute(&mut self, at: u64, command: &Command, answers: &mut Vec<Answered>)
        requires at { IsTrue (field.at.fits at) }
        requires command { IsTrue (field.command.fits command.now) }
        requires fit { IsTrue (are_answers answers.old.items) }
        requires room { HasRoom self.old (command.now ∷ []) }
        requires answers { vec_len answers.old < vec_capacity answers.old }
        ensures machine { self.new.left ≡ (execute at self.old.left command.now).machine }
        ensures answers { answers.new.items
            ≡ answers.old.items ++ (execute at self.old.left command.now).answers }
        ensures fit { IsTrue (are_answers answers.new.items) }
        ensures room { LeavesRoom self.old (command.now ∷ []) self.new }
        ensures len { vec_len answers.new ≤ vec_len answers.old + 1 }
        ensures capacity { vec_capacity answers.new ≡ vec_capacity answers.old }
    {
        let client = command.client;
        let seq = command.seq;
        match self.table.judge(client, seq) {
            Judge::New => self.act(at, command, answers),
            // It was executed before: the same answer again.
            Judge::Last { at, reply } => {
                self.table.tell(client, command.floor);
                answers.push_reserved(Answered {
                    client,
                    seq,
                    at,
                    reply,
                });
            }
            // Its client needs no answer any more.
            Judge::Past => self.table.tell(client, command.floor),
        }
    }

    /// Executes commands in order, and adds the answers of those that have one; `at` is one more than their slot.
    fn execute_all(&mut self, at: u64, commands: &[Command], answers: &mut Vec<Answered>)
        requires at { IsTrue (field.at.fits at) }
        requires commands { IsTrue (are_commands commands.now) }
        requires empty { answers.old.items ≡ [] }
        requires room { HasRoom self.old commands.now }
        requires answers { length commands.now ≤ vec_capacity answers.old }
        ensures machine { self.new.left ≡ (execute_all at self.old.left commands.now).machine }
        ensures answers { answers.new.items ≡ (execute_all at self.old.left commands.now).answers }
        ensures fit { IsTrue (are_answers answers.new.items) }
        ensures room { LeavesRoom self.old commands.now self.new }
        ensures capacity { vec_capacity answers.new ≡ vec_capacity answers.old }
    {
        for command in commands {
            self.execute(at, command, answers);
        }
    }

    /// Executes the value of a slot, and adds the answers of its commands, which are at most eight.
    pub fn execute_value(&mut self, slot: u64, value: &Value, answers: &mut Vec<Answered>)
        requires slot { IsTrue (field.slot.fits slot) }
        requires value { IsTrue (field.value.fits value.now) }
        requires empty { answers.old.items ≡ [] }
        requires room { HasRoom self.old (commands_of value.now) }
        requires answers { 8 ≤ vec_capacity answers.old }
        ensures machine { self.new.left ≡ (execute_value slot self.old.left value.now).machine }
        ensures answers { answers.new.items ≡ (execute_value slot self.old.left value.now).answers }
        ensures fit { IsTrue (are_answers answers.new.items) }
        ensures few { length answers.new.items ≤ 8 }
        ensures room { LeavesRoom self.old (commands_of value.now) self.new }
        ensures capacity { vec_capacity answers.new ≡ vec_capacity answers.old }
    {
        match value {
            Value::Noop => {}
            Value::Batch(commands) => self.execute_all(slot + 1, commands.as_slice(), answers),
        }
    }

    /// Executes the values of the slots from the first on, and sends nothing.
    #[tactic(auto, using(crate::proofs::Values::slot_fits))]
    pub fn replay(&mut self, alloc: Global, first: u64, values: &[Value]) -> Result<(), NoMemory>
        requires slots { first + length values.now ≤ 2 ^ 40 }
        requires values { IsTrue (are_values values.now) }
        ensures { OnOk result (self.new.left ≡ machine_from first self.old.left values.now) }
    {
        let mut answers = Vec::with_capacity(alloc, BATCH)?;
        self.make_room(values)?;
        for (index, value) in values.iter().enumerate() {
            answers.clear();
            self.execute_value(first + index as u64, value, &mut answers);
        }
        Ok(())
    }

    /// Executes the values of the slots from the first on, and sends what they are answered. It takes no memory: room
    /// was taken beforehand.
    #[tactic(auto, using(crate::proofs::Values::slot_fits))]
    pub fn execute_values(
        &mut self,
        cluster: &Cluster,
        me: RoleId,
        first: u64,
        values: &[Value],
        mut rooms: Rooms,
        out: &mut Outbox,
    )
        requires kind { me.kind ≡ kind.Replica }
        requires slots { first + length values.now ≤ 2 ^ 40 }
        requires values { IsTrue (are_values values.now) }
        requires room { HasRoom self.old (command_list values.now) }
        requires rooms { length values.now ≤ rooms }
        requires spare { length values.now ≤ out.old.spare }
        ensures machine { self.new.left ≡ machine_from first self.old.left values.now }
        ensures sends { out.new.list
            ≡ out.old.list ++ results_from cluster.now me first self.old.left values.now }
        ensures spare { out.old.spare ≤ out.new.spare + length values.now }
    {
        for (index, value) in values.iter().enumerate() {
            let slot = first + index as u64;
            let mut answers = rooms.take();
            self.execute_value(slot, value, &mut answers);
            send_results(cluster, me, slot, answers, out);
        }
    }
}

// What a renewed list is made of.
impl Machine {
    /// How many keys the map has, which rise.
    pub fn keys(&self) -> usize
        ensures len { result ≡ length self.now.left.map }
        ensures rises { rises has_lower_key self.now.left.map ≡ true }
    {
        self.store.len()
    }

    /// The pair at a place in the rising order of the keys.
    pub fn pair_at(&self, place: usize) -> &Pair
        requires { place < length self.now.left.map }
        ensures { (d : PairOf) → slice_index_or self.now.left.map place d ≡ result.now }
    {
        self.store.at(place)
    }

    /// The greatest floor that a client told, if it told one.
    pub fn floor(&self, client: u16) -> Option<u64>
        ensures { result ≡ floor_of client self.now.left.table.floors }
    {
        self.table.floor(client)
    }

    /// The answers to a client's numbers above its floor, by rising number.
    pub fn notes(&self, client: u16) -> &[Answered]
        ensures notes { result.now ≡ of_client client self.now.left.table.notes }
        ensures fit { IsTrue (are_answers self.now.left.table.notes) }
    {
        self.table.notes(client)
    }
}
