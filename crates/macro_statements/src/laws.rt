//! Laws of statements.

ghost use Rattle.std.specs.Prelude.{◌↔◌, ℕ, List};
ghost use Rattle.macro_operands.specs.Requests.{Asked, IsValidAsked, AskedHasBytes};
ghost use Rattle.macro_statements.specs.Statements.{SpellsRequest};
ghost use Rattle.macro_statements.specs.declared.statements.Operation.{Operation};

/// A request, and so each statement, is valid exactly if some operation with some operand field spells it. (An operand
/// field is the lines of a statement from the operands on, without columns 1 to 15 of continuation lines.)
pub fn valid_requests_are_spelled()
    ensures { (asked : Asked) → AskedHasBytes asked
        → IsValidAsked asked ↔ ((operation : Operation) × (field : List ℕ) × SpellsRequest operation field asked) }
{}
