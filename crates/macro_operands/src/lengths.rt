//! Lengths and names as some operands have them: pairs of values, the value in register 0, and plain names.

ghost use Rattle.std.specs.Prelude.{◌≡◌};
ghost use Rattle.std.specs.Option.{option_map};
ghost use Rattle.operand_texts.specs.Written.{written_in};
ghost use Rattle.macro_operands.specs.Lengths.{pair_of, is_register_0, spells_register_0, name_of};

use operand_texts::values::{Value, parts_of, value_of};
use operand_texts::words::{Name, is_name, upper_name};

/// The two values of a pair, a maximum and a minimum. Nothing if a text isn't such a pair.
pub(crate) fn pair_of(text: &[u8]) -> Option<(Value, Value)>
    ensures { option_map (λ p. (written_in p.0, written_in p.1)) result ≡ pair_of text.now }
{
    let (first, second) = parts_of(text)?;
    Some((value_of(first)?, value_of(second)?))
}

/// Whether a value is the one in register 0.
fn is_register_0(value: &Value) -> bool
    ensures { result ≡ is_register_0 (written_in value.now) }
{
    match *value {
        Value::Register(register) => register == 0,
        _ => false,
    }
}

/// Whether a text spells the value in register 0.
pub(crate) fn spells_register_0(text: &[u8]) -> bool
    ensures { result ≡ spells_register_0 text.now }
{
    match value_of(text) {
        Some(value) => is_register_0(&value),
        None => false,
    }
}

/// The name that a text is, in upper case. Nothing if it's none.
pub(crate) fn name_of(text: &[u8]) -> Option<Name>
    ensures { option_map (λ n. n.bytes) result ≡ name_of text.now }
{
    if is_name(text) {
        Some(upper_name(text))
    } else {
        None
    }
}
