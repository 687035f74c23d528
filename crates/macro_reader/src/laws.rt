//! Laws of the grammar.

ghost use Rattle.std.specs.Prelude.{◌≡◌, ◌≤◌, [], ◌∷◌, List, Ok, length};
ghost use Rattle.macro_statements.specs.Requests.{Asked, IsValidAsked, AskedHasBytes, HasRoom};
ghost use Rattle.macro_reader.specs.Columns.{Line};
ghost use Rattle.macro_reader.specs.Scripts.{Answer, Answers};
ghost use Rattle.macro_reader.specs.Roles.{RolesAreOfParts, RolesAreOfBroken, RolesAreOfOpen};

/// A list of lines has one list of answers: any two are the same.
pub fn one_reading()
    ensures { (lines : List Line) (a b : List Answer) → Answers lines a → Answers lines b → a ≡ b }
{}

/// Every list of lines has a list of answers.
pub fn every_script_is_read()
    ensures { (lines : List Line) → (answers : List Answer) × Answers lines answers }
{}

/// Each valid request is what a script of one statement asks for, on a first line and at most nine continuation lines,
/// as long as its operands have room in their columns.
pub fn valid_requests_are_read()
    ensures { (asked : Asked) → AskedHasBytes asked → IsValidAsked asked → HasRoom asked
        → (lines : List Line) × (length lines ≤ 10) × Answers lines (record { line = 1; what = Ok asked } ∷ []) }
{}

/// What each line of a script is to a reader, whether it begins a statement, continues one, breaks it off or is
/// dropped, is what the parts of the script say; also if it ends in a broken statement, or in one that is open.
pub fn lines_have_roles()
    ensures whole { RolesAreOfParts }
    ensures broken { RolesAreOfBroken }
    ensures open_still { RolesAreOfOpen }
{}
