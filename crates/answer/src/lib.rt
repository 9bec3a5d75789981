//! The answer of a model: parts of its search tree are searched by workers, and their results put together.
//!
//! `answer` gives a finished answer, or under a limit an unfinished one, as the definitions say (`specs/Finished.antt`,
//! `specs/Unfinished.antt`), finished where both limits are 0, whatever the workers, the lanes and their gates do; each
//! solution that it gives solves the model. A model has one finished answer (`law_one_finished`). For an objective a second
//! search looks for the first solution of the least cost, unless the best one is known to be it (`law_best_is_first`).
//!
//! Where several workers search and no limit is set, one of them has a search of the whole in a free order, and the others the
//! parts (`src/beside.rt`). What the runs hear of each other are hints: what they told is put together once all are over.
//!
//! It builds on `search`, `race`, `portfolio`, `subproblem_walk`, `tree_cutter`, `crew` and `fzn_print`. Which of the answers comes,
//! where a limit allows several, isn't claimed. Begin with `src/answering.rt`.
#![tactic(auto)]

mod all_job;
mod answering;
mod beside;
mod collecting;
mod cost_job;
mod first_job;
mod head_job;
mod laws;
mod least_job;
mod marks;
mod objective;
mod options;
mod parts;
mod plan;
mod raced;
mod settled;
mod told_ends;

pub use answering::{Gates, answer};
pub use fzn_print::Answer;
pub use laws::{
    law_answers_solve, law_best_is_first, law_collects_fronts, law_first_of_lists, law_gives_one,
    law_gives_smallest, law_last_is_first, law_one_finished, law_one_limited_answer,
    law_parts_joined, law_unfinished_marks,
};
pub use options::Options;
