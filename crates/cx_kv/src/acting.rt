//! Which commands act after others.

ghost use Rattle.std.specs.Prelude.{◌≡◌, ◌++◌, ◌∷◌, List, [], OnErr, OnOk};
ghost use Rattle.cx_base.specs.Fold.{acts};
ghost use Rattle.cx_base.specs.declared.command.Command.{Command as CommandOf};
ghost use Rattle.cx_kv.specs.Acting.{IsDecidingTable};

use cx_base::{Command, NoMemory, Reply};
use cx_ring::{GhostList, GhostListOf};
use cx_table::{Judge, Table};
use std::alloc::Global;
use std::marker::Model;

/// Commands in their order, of which contracts see the list. What is held is their client table, which decides at once
/// which commands act.
#[derive(Drop)]
pub struct ExecutedCommands {
    commands: GhostList<Command>,
    table: Table,
}

impl Model for ExecutedCommands {
    ghost use Rattle.std.specs.Prelude.{List};
    ghost use Rattle.cx_base.specs.declared.command.Command.{Command};
    ghost use Rattle.cx_kv.specs.Acting.{IsDecidingTable};

    ghost Value = { List Command };

    ghost view = { λ e. e.commands.items };

    ghost invariant = { λ e. IsDecidingTable e.table.table e.commands.items };
}

struct Nothing;

impl GhostListOf<(), Command> for Nothing {
    ghost list_shown = { λ _. [] };
}

struct Added;

impl<'a> GhostListOf<(&'a GhostList<Command>, &'a Command), Command> for Added {
    ghost list_shown = { λ x. x.0.now.items ++ x.1.now ∷ [] };
}

// The table of commands with one more: what that is answered is of no use here.
fn note(table: &mut Table, command: &Command) -> Result<(), NoMemory>
    ensures ok { OnOk result ((list : List CommandOf) → IsDecidingTable table.old.table list
        → IsDecidingTable table.new.table (list ++ command.now ∷ [])) }
    ensures err { OnErr result (table.new.table ≡ table.old.table) }
{
    let client = command.client;
    match table.judge(client, command.seq) {
        Judge::New => {
            table.note(client, command.seq, command.floor, 0, &Reply::Okay)?;
            Ok(())
        }
        Judge::Last { .. } => {
            table.tell(client, command.floor);
            Ok(())
        }
        Judge::Past => {
            table.tell(client, command.floor);
            Ok(())
        }
    }
}

impl ExecutedCommands {
    /// No command. It takes no memory.
    pub fn new(alloc: Global) -> Self
        ensures { result ≡ [] }
    {
        ExecutedCommands {
            commands: GhostList::of::<(), Nothing>(&()),
            table: Table::new(alloc),
        }
    }

    /// Whether a command acts after these, by the definition `acts`.
    pub fn acts(&self, command: &Command) -> bool
        ensures { result ≡ acts self.now command.now }
    {
        match self.table.judge(command.client, command.seq) {
            Judge::New => true,
            Judge::Last { .. } => false,
            Judge::Past => false,
        }
    }

    /// One command more, after the others. Only one that acts takes memory. Out of memory, nothing changes.
    pub fn push(&mut self, command: &Command) -> Result<(), NoMemory>
        ensures ok { OnOk result (self.new ≡ self.old ++ command.now ∷ []) }
        ensures err { OnErr result (self.new ≡ self.old) }
    {
        note(&mut self.table, command)?;
        self.commands = GhostList::of::<(&GhostList<Command>, &Command), Added>(&(
            &self.commands,
            command,
        ));
        Ok(())
    }
}
