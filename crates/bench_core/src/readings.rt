//! What a bench shows of its present state: its storage, the words of its names, the words of values, and what a
//! statement would ask for in it, with the first cause for which it would be refused.
ghost use Rattle.std.specs.Prelude.{◌≡◌, option_map};
ghost use Rattle.vsm_machine.specs.Machine.{looked_up, service_asked};
ghost use Rattle.vsm_machine.specs.Meaning.{settings_of, state_of};
ghost use Rattle.vsm_model.specs.Meaning.{service_in};
ghost use Rattle.vsm_model.specs.Names.{word_of};
ghost use Rattle.macro_statements.specs.Requests.{act_in, written_in, IsValidAct, IsValue};
ghost use Rattle.bench_core.specs.Causes.{IsFirstCause};
ghost use Rattle.bench_core.specs.Stands.{bench_of, settings_in};

use crate::bench::Bench;
use macro_statements::Statement;
use operand_texts::Value;
use vsm_machine::{Name, Settings, Storage, UnknownName, cause_of, look_up, service_of};
use vsm_model::{Cause, Service};

impl Bench {
    /// The private storage as it is, to be read by its walks.
    ///
    /// ```
    /// let bench = Bench::new(rt.alloc(), DEFAULT_SETTINGS)?;
    /// assert_eq!(rt; bench.storage().current(), 1);
    /// ```
    pub fn storage(&self) -> &Storage
        ensures state { state_of result.now ≡ (bench_of self.now).present.storage }
        ensures settings { settings_of result.now ≡ settings_in self.now }
    {
        &self.machine.storage
    }

    /// The settings that the bench was made with.
    pub fn settings(&self) -> Settings
        ensures { result ≡ settings_in self.now }
    {
        self.machine.storage.settings()
    }

    /// The word that a name stands for; `None` if it isn't defined.
    pub fn name(&self, name: &Name) -> Option<u32>
        ensures { result ≡ word_of (bench_of self.now).present.names name.now.bytes }
    {
        self.machine.names.word(name)
    }

    /// The word of a register of a task: 0 if no such task exists, and for a number past 15.
    ///
    /// ```
    /// let bench = Bench::new(rt.alloc(), DEFAULT_SETTINGS)?;
    /// assert_eq!(rt; bench.register(1, 3), 0);
    /// ```
    pub fn register(&self, task: u8, register: u8) -> u32
        ensures { result ≡ (bench_of self.now).present.storage.words task register }
    {
        self.machine.storage.register(task, register)
    }

    /// The word that a value stands for; `None` if it's a name that isn't defined.
    ///
    /// ```
    /// let bench = Bench::new(rt.alloc(), DEFAULT_SETTINGS)?;
    /// assert!(rt; bench.word(&Value::Number(8)) == Some(8));
    /// ```
    pub fn word(&self, value: &Value) -> Option<u32>
        requires { IsValue (written_in value.now) }
        ensures { result ≡ looked_up (bench_of self.now).present (written_in value.now) }
    {
        look_up(&self.machine, value)
    }

    /// The service that a statement would ask for, with the words of its values; `None` if a name in one of them isn't
    /// defined. A value that would be stored is written into `room`. It only reads.
    pub fn service_of<'a>(
        &self,
        statement: &'a Statement,
        room: &'a mut [u8; 4],
    ) -> Option<Service<'a>>
        requires { IsValidAct (act_in statement.now) }
        ensures { option_map service_in result
            ≡ service_asked (bench_of self.now).present (act_in statement.now) }
    {
        service_of(&self.machine, statement, room)
    }

    /// The first cause of a statement: why it would be refused, or, in its conditional form, return 4; none if it would
    /// have its effect, or if a conditional GET would return 4. It only reads, and takes no memory.
    ///
    /// ```
    /// let bench = Bench::new(rt.alloc(), DEFAULT_SETTINGS)?;
    /// let end = Statement::EndTask;
    /// assert!(rt; end.valid());
    /// // The first task can't end.
    /// assert!(rt; matches!(bench.cause_of(&end), Ok(Some(_))));
    /// ```
    pub fn cause_of(&self, statement: &Statement) -> Result<Option<Cause>, UnknownName>
        requires { IsValidAct (act_in statement.now) }
        ensures { IsFirstCause (settings_in self.now) (bench_of self.now).present (act_in statement.now) result }
    {
        cause_of(&self.machine, statement)
    }
}
