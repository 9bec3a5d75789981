//! Laws of answers, as functions that do nothing.

ghost use Rattle.answer.specs.Laws.{OneFinished, OneLimited, GivesOne, AnswersSolve, CollectsFronts, UnfinishedMarks, GivesSmallest};
ghost use Rattle.answer.specs.Joins.{JoinLaws};
ghost use Rattle.answer.specs.Settled.{FirstOfLists, LastIsFirst, BestIsFirst};

use branching::{law_every_list, law_one_list};
use decompose::law_some_program;
use interval::law_inside_order;
use search::{
    law_finds_first, law_found_first, law_lanes_are_free, law_one_end, law_records_solutions,
};
use solution_lists::{law_in_declaration_order, law_in_static_order, law_solutions_listed};
use subproblems::{law_cuts, law_paths};
use tree_parts::law_whole_of_parts;

/// A model has one finished answer.
pub fn law_one_finished()
    ensures { OneFinished }
{
    law_one_list();
}

/// A model has one answer, whatever the limits are, where none is set on rounds or one lane propagates, and where it has no
/// objective or one worker searches.
pub fn law_one_limited_answer()
    ensures { OneLimited }
{
    law_one_list();
    law_paths();
    law_one_end();
    law_lanes_are_free();
}

/// One solution is given at most, but where all solutions are asked for.
pub fn law_gives_one()
    ensures { GivesOne }
{}

/// Whatever an answer gives solves the model.
pub fn law_answers_solve()
    ensures { AnswersSolve }
{
    law_some_program();
    law_inside_order();
    law_paths();
    law_cuts();
    law_solutions_listed();
    law_in_declaration_order();
    law_records_solutions();
}

/// Where all solutions are asked for and a limit stopped a search, what is given of each part is a front of its list.
pub fn law_collects_fronts()
    ensures { CollectsFronts }
{
    law_some_program();
    law_inside_order();
    law_cuts();
    law_found_first();
}

/// Where a limit stopped a search, the mark says neither that the search is complete nor that no solution exists.
pub fn law_unfinished_marks()
    ensures { UnfinishedMarks }
{}

/// The one solution of a model without an objective and without search annotations is the lexicographically smallest.
pub fn law_gives_smallest()
    ensures { GivesSmallest }
{}

/// In a static order a list of solutions begins with the one that precedes all others.
pub fn law_first_of_lists()
    ensures { FirstOfLists }
{
    law_inside_order();
    law_in_static_order();
}

/// There the solution that a search of a box for the least cost ends with is the first of its cost in the box.
pub fn law_last_is_first()
    ensures { LastIsFirst }
{
    law_finds_first();
    law_records_solutions();
}

/// So the best one is the first of all that cost so much, where the one part was the whole tree.
pub fn law_best_is_first()
    ensures { BestIsFirst }
{
    law_some_program();
    law_inside_order();
    law_first_of_lists();
    law_last_is_first();
}

/// What parts that cover the search tree give, wherever each was searched to its end, is the answer of the whole.
pub fn law_parts_joined()
    ensures { JoinLaws }
{
    law_inside_order();
    law_some_program();
    law_whole_of_parts();
    law_every_list();
    law_solutions_listed();
    law_in_declaration_order();
}
