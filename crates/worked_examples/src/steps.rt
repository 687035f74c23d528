//! Steps back and forward, and the history that they move along. Each answer is followed by the numbers of changes that
//! are then kept and undone.
ghost use Rattle.worked_examples.specs.Steps.{AHistoryOfOneChange, ARefusedStatementIsNotKept};
ghost use Rattle.worked_examples.specs.Steps.{AnAnswerOf4DiscardsWhatWasUndone, AnAnswerOf4IsKept};
ghost use Rattle.worked_examples.specs.Steps.{ForwardGivesTheBenchBack, ForwardUntilANewStatement};
ghost use Rattle.worked_examples.specs.Steps.{TheOldestChangeIsForgotten, ThereAndBack};
ghost use Rattle.worked_examples.specs.Steps.{ThreeAreasReleasedAndOneStepBack};

/// The last of three releases empties the page; a step back takes that release back, and the next area is the first
/// free one.
pub fn three_areas_released_and_one_step_back()
    ensures { ThreeAreasReleasedAndOneStepBack }
{}

/// A refused statement isn't kept, and a step back past what is kept undoes nothing.
pub fn a_refused_statement_is_not_kept()
    ensures { ARefusedStatementIsNotKept }
{}

/// What was undone can be redone until another statement is accepted.
pub fn forward_until_a_new_statement()
    ensures { ForwardUntilANewStatement }
{}

/// A step forward over the same number of statements gives the bench from before the step back.
pub fn forward_gives_the_bench_back()
    ensures { ForwardGivesTheBenchBack }
{}

/// A history of two changes forgets the oldest of three.
pub fn the_oldest_change_is_forgotten()
    ensures { TheOldestChangeIsForgotten }
{}

/// A history of one change takes one step back. An answer 4 is a change like any other: what was undone is then gone. A
/// step over none is always made.
pub fn a_history_of_one_change()
    ensures { AHistoryOfOneChange }
{}

/// An answer 4 is kept, and sets only register 15; a step back undoes that, and the next area sets it to 0.
pub fn an_answer_of_4_is_kept()
    ensures { AnAnswerOf4IsKept }
{}

/// A page that a step back takes away exists again after the step forward; an answer 4 discards what was undone.
pub fn an_answer_of_4_discards_what_was_undone()
    ensures { AnAnswerOf4DiscardsWhatWasUndone }
{}

/// A page that was given and was gone with its owner is restored by steps, with its byte; the last step gives the first
/// state.
pub fn there_and_back()
    ensures { ThereAndBack }
{}
