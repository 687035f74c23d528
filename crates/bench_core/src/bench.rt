//! A bench: a machine, and the history that it moves along.
ghost use Rattle.std.specs.Prelude.{◌≡◌, Ok, length, IfOk, IfErr, OnErr, OnOk};
ghost use Rattle.vsm_machine.specs.Meaning.{settings_of};
ghost use Rattle.macro_statements.specs.Requests.{Act, written_in, act_in, IsValue, IsValidAct};
ghost use Rattle.std.proofs.Props.{props};
ghost use Rattle.vsm_machine.specs.Changes.{machine_fits as fit, machine_fits_prop as fit_prop, DefineNone};
ghost use Rattle.vsm_machine.specs.Changes.{UndefineNone, IsWhole, IsWhole-prop as whole_prop, shown, HasSameMemory};
ghost use Rattle.vsm_machine.specs.Planned.{CanCarryOut};
ghost use Rattle.vsm_machine.specs.Machine.{shown_at};
ghost use Rattle.vsm_machine.specs.Refusals.{IsRefusedFor};
ghost use Rattle.vsm_machine.specs.Supplies.{FindsMemory, IsSupplied, MakesFor};
ghost use Rattle.vsm_machine.specs.declared.refusals.Refusal.TheVariants.{NoMemory};
ghost use Rattle.bench_core.specs.Sparing.{MakesForStatement, Spares};

use macro_statements::{Family, Statement};
use operand_texts::Value;
use std::alloc::Global;
use step_history::{History, Reversible, TooFar, TooFarAhead};
use storage_changes::laws::fresh_pages_are_newly_assigned;
use storage_swap::laws::first_is_first;
use vsm_machine::{
    Machine, NameTable, NewFault, PlanRecords, Planned, Refusal, Reply, Settings, Storage, look_up,
    plan_of, reserve,
};

/// A bench over one private region.
///
/// It represents the states that it can go back to, the present one and those that it can go forward to.
#[derive(Drop)]
pub struct Bench {
    pub(crate) machine: Machine,
    pub(crate) history: History<Machine>,
    ghost fits: { fit history.kept machine history.undone } by { fit_prop history.kept machine history.undone },
    // Each element and frame belongs to the storage or to one of its changes, and only to one.
    ghost whole: { IsWhole history.kept machine history.undone } by { whole_prop history.kept machine history.undone },
    ghost kept_define_none: { DefineNone history.kept } by { Prim.hlevel props },
    ghost undone_undefine_none: { UndefineNone history.undone } by { Prim.hlevel props },
    ghost limit: { history.limit ≡ (settings_of machine.storage).history },
}

impl Bench {
    ghost use Rattle.vsm_model.specs.Standing.{Keeps, Apply, Back, Forward};
    ghost use Rattle.vsm_machine.specs.Machine.{statement_step};
    ghost use Rattle.bench_core.specs.Stands.{bench_of, settings_in, IsNew, answer_to_apply, answer_to_back};
    ghost use Rattle.bench_core.specs.Stands.{answer_to_forward};

    /// A bench in the first state, under these settings: task 1 is current and owns an empty subpool 0. At most a block
    /// of elements is made for it, and no frame.
    ///
    /// Refused with `Setting` if a setting is out of its limits, and with `NoMemory` if there is no memory for it.
    ///
    /// ```
    /// let bench = Bench::new(rt.alloc(), DEFAULT_SETTINGS)?;
    /// assert_eq!(rt; bench.kept(), 0);
    /// ```
    pub fn new(alloc: Global, settings: Settings) -> Result<Bench, NewFault>
        ensures { IsNew settings result }
    {
        if !settings.valid() {
            return Err(NewFault::Setting);
        }
        let storage = Storage::new(alloc, settings)?;
        let history = History::new(alloc, settings.history)?;
        first_is_first();
        Ok(Bench {
            machine: Machine {
                storage,
                names: NameTable::new(alloc),
            },
            history,
        })
    }

    /// Carries out a statement and keeps its change, or refuses it and changes nothing.
    ///
    /// An accepted statement discards what was undone; past the limit of the history the oldest change can no longer be
    /// undone. It is refused with `Name` if a value is a name that isn't defined, else with `Abend` and the completion
    /// code of the first cause that holds, and last with `NoMemory`.
    ///
    /// A statement is refused with `NoMemory` only if fewer than 32 elements are spare, and 8 for each of what it
    /// weighs (subpools that it gives or shares, cells that it makes, and what leaves by it), or fewer frames, or
    /// tables, than pages that it newly assigns, or if there is no room for a name that it defines.
    ///
    /// A statement that is refused for anything else leaves the machine as it is, and takes no memory. For one that is
    /// accepted or refused with `NoMemory`, at most a block of elements is made beyond the live ones and those of its
    /// weight, no frame beyond those of the pages that it newly assigns, a table only for a segment of these pages, and
    /// no other name is added than the one that it defines. What was made for a refused one stays, as spare elements
    /// and frames and as tables.
    ///
    /// It's a call of its own, so that no other line of a script pays for the room of a plan.
    ///
    /// ```
    /// let mut bench = Bench::new(rt.alloc(), DEFAULT_SETTINGS)?;
    /// let obtain = Statement::Obtain {
    ///     length: Length::Fixed(Value::Number(12)),
    ///     subpool: Value::Number(1),
    ///     place: None,
    ///     boundary: Boundary::Doubleword,
    ///     location: Location::Low,
    ///     form: Form {
    ///         family: Family::S,
    ///         conditional: false,
    ///     },
    /// };
    /// let obtained = Reply::Obtained {
    ///     address: 0x6000,
    ///     length: 16,
    /// };
    /// assert!(rt; obtain.valid());
    /// assert!(rt; bench.apply(&obtain) == Ok(obtained));
    /// ```
    #[inline(never)]
    pub fn apply(&mut self, statement: &Statement) -> Result<Reply, Refusal>
        requires valid { IsValidAct (act_in statement.now) }
        ensures keeps { Keeps (statement_step (settings_in self.old)) (settings_in self.old).history (bench_of self.old)
            (Apply (act_in statement.now)) (answer_to_apply result) (bench_of self.new) }
        ensures settings { settings_in self.new ≡ settings_in self.old }
        ensures needless { IsSupplied self.old.machine (act_in statement.now) → FindsMemory result }
        ensures sparing { IfErr result (Spares self.old.machine (act_in statement.now) self.new.machine) }
        ensures made { IfOk result (λ _. MakesForStatement self.old.machine (act_in statement.now) self.new.machine) }
    {
        let mut word = [0; 4];
        let mut room = PlanRecords::new();
        match plan_of(&self.machine, statement, &mut word, &mut room) {
            Ok(planned) => self.carry_out(&planned),
            Err(refusal) => Err(refusal),
        }
    }

    // Carries out what was planned for a statement.
    fn carry_out(&mut self, planned: &Planned<'_>) -> Result<Reply, Refusal>
        requires { (x : Act) × CanCarryOut (shown self.old.machine) x planned.now }
        ensures keeps { (x : Act) → CanCarryOut (shown self.old.machine) x planned.now
            → Keeps (statement_step (settings_in self.old)) (settings_in self.old).history (bench_of self.old)
            (Apply x) (answer_to_apply result) (bench_of self.new) }
        ensures settings { settings_in self.new ≡ settings_in self.old }
        ensures needless { (x : Act) → CanCarryOut (shown self.old.machine) x planned.now
            → IsSupplied self.old.machine x → FindsMemory result }
        ensures wants { IfErr result (λ refusal. refusal ≡ NoMemory) }
        ensures made { (x : Act) → CanCarryOut (shown self.old.machine) x planned.now
            → MakesFor self.old.machine x planned.now self.new.machine }
    {
        fresh_pages_are_newly_assigned();
        let reply = planned.plan.reply();
        self.history.reserve_place()?;
        let mut change = match reserve(&mut self.machine, planned) {
            Ok(change) => change,
            Err(_) => return Err(Refusal::NoMemory),
        };
        self.machine.swap(&mut change);
        self.history.push_reserved(&mut self.machine, change);
        Ok(reply)
    }

    /// Reads the bytes from an address on, the number that `out` has. Takes no memory.
    ///
    /// Refused with `Name` if the address is a name that isn't defined, and with `Abend` (0C4) if one of the bytes
    /// doesn't lie in an assigned page; `out` is then unchanged. If `out` has room for no byte, no page is needed.
    ///
    /// ```
    /// let bench = Bench::new(rt.alloc(), DEFAULT_SETTINGS)?;
    /// let mut bytes = [0; 4];
    /// // No page is assigned yet.
    /// assert!(rt; bench.peek(Value::Number(0x6000), &mut bytes).is_err());
    /// ```
    pub fn peek(&self, address: Value, out: &mut [u8]) -> Result<(), Refusal>
        requires valid { IsValue (written_in address) }
        ensures shown { OnOk result (shown_at (bench_of self.now).present (written_in address) (length out.old)
            ≡ Ok out.new) }
        ensures refused { IfErr result (IsRefusedFor
            (shown_at (bench_of self.now).present (written_in address) (length out.old))) }
        ensures kept { OnErr result (out.new ≡ out.old) }
    {
        let Some(address) = look_up(&self.machine, &address) else {
            return Err(Refusal::Name);
        };
        match self.machine.storage.load(address, out) {
            Ok(()) => Ok(()),
            Err(cause) => Err(Refusal::Abend(cause.code(Family::S, false))),
        }
    }

    /// Undoes the last `n` changes, or none if fewer are kept. No element, frame or table is made, the same numbers of
    /// elements and frames are spare, and the table of names has the same ones.
    ///
    /// ```
    /// let mut bench = Bench::new(rt.alloc(), DEFAULT_SETTINGS)?;
    /// let turn = Statement::Run {
    ///     task: Value::Number(1),
    /// };
    /// assert!(rt; turn.valid());
    /// assert!(rt; bench.apply(&turn).is_ok());
    /// assert!(rt; bench.back(1).is_ok());
    /// assert_eq!(rt; (bench.kept(), bench.undone()), (0, 1));
    /// ```
    pub fn back(&mut self, n: u32) -> Result<(), TooFar>
        ensures keeps { Keeps (statement_step (settings_in self.old)) (settings_in self.old).history (bench_of self.old)
            (Back n) (answer_to_back result) (bench_of self.new) }
        ensures settings { settings_in self.new ≡ settings_in self.old }
        ensures memory { HasSameMemory self.old.machine self.new.machine }
    {
        self.history.back(&mut self.machine, n)
    }

    /// Makes the first `n` undone changes again, or none if fewer are undone. No element, frame or table is made, the
    /// same numbers of elements and frames are spare, and the table of names has the same ones.
    ///
    /// ```
    /// let mut bench = Bench::new(rt.alloc(), DEFAULT_SETTINGS)?;
    /// let turn = Statement::Run {
    ///     task: Value::Number(1),
    /// };
    /// assert!(rt; turn.valid());
    /// assert!(rt; bench.apply(&turn).is_ok());
    /// assert!(rt; bench.back(1).is_ok());
    /// assert!(rt; bench.forward(1).is_ok());
    /// assert_eq!(rt; (bench.kept(), bench.undone()), (1, 0));
    /// ```
    pub fn forward(&mut self, n: u32) -> Result<(), TooFarAhead>
        ensures keeps { Keeps (statement_step (settings_in self.old)) (settings_in self.old).history (bench_of self.old)
            (Forward n) (answer_to_forward result) (bench_of self.new) }
        ensures settings { settings_in self.new ≡ settings_in self.old }
        ensures memory { HasSameMemory self.old.machine self.new.machine }
    {
        self.history.forward(&mut self.machine, n)
    }

    /// How many changes can be undone.
    pub fn kept(&self) -> u32
        ensures { result ≡ length (bench_of self.now).past }
    {
        self.history.kept()
    }

    /// How many changes are undone and can be made again.
    pub fn undone(&self) -> u32
        ensures { result ≡ length (bench_of self.now).later }
    {
        self.history.undone()
    }
}
