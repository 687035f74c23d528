//! Laws of values, places and contents.

ghost use Rattle.std.specs.Prelude.{◌↔◌, ℕ, List};
ghost use Rattle.operand_texts.specs.Values.{Spells, SpellsPlace, SpellsContent};
ghost use Rattle.operand_texts.specs.Written.{Written, Target, Stored, IsValue, IsTarget, IsStored, HasBytes};

/// A value is valid exactly if some text spells it.
pub fn valid_values_are_spelled()
    ensures { (value : Written) → IsValue value ↔ ((text : List ℕ) × Spells text value) }
{}

/// A place is valid exactly if some text spells it.
pub fn valid_places_are_spelled()
    ensures { (place : Target) → IsTarget place ↔ ((text : List ℕ) × SpellsPlace text place) }
{}

/// What POKE stores is valid exactly if some text spells it.
pub fn valid_contents_are_spelled()
    ensures { (content : Stored) → HasBytes content
        → IsStored content ↔ ((text : List ℕ) × SpellsContent text content) }
{}
