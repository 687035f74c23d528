//! Laws on the definitions of this crate.
ghost use Rattle.explain_list.specs.Answers.{RowsBeginAsNoAnswer};

/// No row begins as an answer does.
pub fn rows_begin_as_no_answer()
    ensures { RowsBeginAsNoAnswer }
{}
