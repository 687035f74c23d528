//! The words of values, as a machine has them.
ghost use Rattle.std.specs.Prelude.{◌≡◌};
ghost use Rattle.std.specs.Option.{option_map};
ghost use Rattle.macro_statements.specs.Requests.{written_in, stored_in, IsValue, IsStored};
ghost use Rattle.vsm_machine.specs.Changes.{plain_of};
ghost use Rattle.vsm_machine.specs.Machine.{looked_up, bytes_in};

use crate::machine::Machine;
use byteorder::{BigEndian, ByteOrder};
use operand_texts::{Content, Value};

/// The word that a value stands for: a number itself, a name the word that it was given, a register of the current task
/// its contents. `None` if a name isn't defined.
pub fn look_up(machine: &Machine, value: &Value) -> Option<u32>
    requires { IsValue (written_in value.now) }
    ensures { result ≡ looked_up (plain_of machine.now) (written_in value.now) }
{
    match value {
        Value::Number(number) => Some(*number),
        Value::Named(name) => machine.names.word(name),
        Value::Register(register) => {
            let task = machine.storage.current();
            Some(machine.storage.register(task, *register))
        }
    }
}

/// The place where the bytes of a value that is stored are written.
pub type Room<'a> = &'a mut [u8; 4];

/// The bytes that are stored, if the name in them is defined: those that are spelled, or a value, which is written into
/// `room` as a fullword, the most significant byte first.
pub(crate) fn bytes_of<'a>(
    machine: &Machine,
    content: &'a Content,
    room: Room<'a>,
) -> Option<&'a [u8]>
    requires { IsStored (stored_in content.now) }
    ensures { option_map (λ b. b.now) result ≡ bytes_in (plain_of machine.now) (stored_in content.now) }
{
    match content {
        Content::Spelled(bytes) => Some(bytes.as_slice()),
        Content::Word(value) => {
            BigEndian::write_u32(room, look_up(machine, value)?);
            Some(room)
        }
    }
}
