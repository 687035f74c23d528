//! What the history moves back and forward.
ghost use Rattle.std.specs.Prelude.{◌≡◌, true};
ghost use Rattle.std.specs.Option.{option_map};
ghost use Rattle.vsm_machine.specs.NameTable.{names_of, rows_of};
ghost use Rattle.vsm_machine.specs.NameChanges.{step_in};
ghost use Rattle.vsm_machine.specs.NameSteps.{stepped_by, turned_by, is_ready, FitsTable};

use crate::name_changes::NameChange;
use crate::names::NameTable;
use step_history::Reversible;
use storage_core::Storage;

/// The machine of a bench: its storage, and the names that its statements defined.
#[derive(Drop)]
pub struct Machine {
    /// The private storage, with its bytes and registers, and the settings that it was made with.
    pub storage: Storage,
    /// The defined names with their words, and those of undone statements.
    pub names: NameTable,
}

/// What takes a machine to another state and back: a change of its storage, and at most one name with its other word.
#[derive(Drop)]
pub struct MachineChange {
    /// The change of the storage.
    pub storage: storage_core::Change,
    /// The step of a name, if the statement gives one an address.
    pub name: Option<NameChange>,
}

/// Takes the step of a name, if there is one, and leaves its inverse.
fn swap_name(names: &mut NameTable, change: &mut Option<NameChange>)
    requires { FitsTable names.old change.old }
    ensures rows { rows_of names.new ≡ stepped_by (rows_of names.old) (option_map (step_in names.old) change.old) }
    ensures turned { option_map (step_in names.new) change.new
        ≡ turned_by (rows_of names.old) (option_map (step_in names.old) change.old) }
    ensures same { names_of names.new ≡ names_of names.old }
    ensures ready { is_ready names.new change.new ≡ true }
{
    if let Some(step) = change {
        names.swap(step);
    }
}

impl Reversible for Machine {
    ghost use Rattle.vsm_machine.specs.Changes.{MachineState, shown, machine_fits, machine_states, Apart, Whole};
    ghost use Rattle.vsm_machine.specs.Changes.{CanSwap, Swaps, Discards, machine_laws};

    type Change = MachineChange;

    ghost Meaning = { MachineState };

    ghost shows = { shown };

    ghost fits = { machine_fits };

    ghost states = { machine_states };

    ghost apart = { Apart };

    ghost whole = { Whole };

    ghost can_swap = { CanSwap };

    ghost swaps = { Swaps };

    ghost discards = { Discards };

    fn swap(&mut self, c: &mut MachineChange) {
        self.storage.swap(&mut c.storage);
        swap_name(&mut self.names, &mut c.name);
    }

    fn discard(&mut self, c: MachineChange) {
        let MachineChange { storage, .. } = c;
        self.storage.discard(storage);
    }

    ghost laws = { machine_laws };
}
