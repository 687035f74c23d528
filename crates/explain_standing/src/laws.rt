//! A law is the contract of a function that does nothing.
ghost use Rattle.vsm_model.specs.declared.limits.Settings.{Settings};
ghost use Rattle.explain_standing.specs.Lined.{LinesAreOfStatements};
ghost use Rattle.explain_standing.specs.Newly.{CellIsInTheReply, TakenByTheReply, TaskIsInTheReply};

/// From a well-formed state an accepted service takes what its reply says: the area that it obtained; the extent whose
/// first cell it gave, of as many doublewords as the sum of taken ones grew by; else nothing.
pub fn taken_by_the_reply()
    ensures { TakenByTheReply }
{}

/// From a well-formed state an accepted service puts only the cell in use that its reply gives, and that one wasn't.
pub fn cell_is_in_the_reply()
    ensures { CellIsInTheReply }
{}

/// From a well-formed state an accepted service makes only the task that its reply gives, and that one didn't exist.
pub fn task_is_in_the_reply()
    ensures { TaskIsInTheReply }
{}

/// The statements in effect with their lines are those in effect by the definition.
pub fn lines_are_of_statements()
    ensures { (settings : Settings) → LinesAreOfStatements settings }
{}
