//! From the texts to the end of the check.

ghost use Rattle.std.specs.Prelude.{◌≡◌, ◌≤◌, All, length, IfOk, IfErr, MatchOption};
ghost use Rattle.constraint_model.specs.Relations.{IsSolution};
ghost use Rattle.constraint_model.specs.WellFormed.{IsWellFormed};
ghost use Rattle.fzn_print.specs.Reading.{AllPrinted, AreValues, IsFirstHidden};
ghost use Rattle.model_text.specs.Texts.{IsCause, IsTextOf, most_bytes};
ghost use Rattle.fzn_check.specs.Endings.{IsFirstBad};
ghost use Rattle.fzn_check.specs.Steps.{IsEarlyText, IsJudgement, IsLateEnding};

use crate::checking::first_wrong;
use crate::ending::Ending;
use crate::lines::{print_bad_text, print_hidden, print_right, print_wrong};
use crate::status::Status;
use crate::wrong::Wrong;
use constraint_model::FznModel;
use fzn_model::law_well_formed;
use fzn_print::{Answer, SolutionError, hidden, read_solutions};
use list_of::ListOf;
use memory::NoMemory;
use model_text::{TextError, print_refusal, read_model, told_line};
use std::alloc::Global;
use std::thread::Threads;

/// The model of a text, all of whose variables are printed; or how the check ends.
pub(crate) fn shown_model(alloc: Global, text: &[u8]) -> Result<FznModel, Ending>
    ensures model { IfOk result (IsTextOf text.now) }
    ensures well_formed { IfOk result IsWellFormed }
    ensures shown { IfOk result AllPrinted }
    ensures ends { IfErr result (IsEarlyText text.now) }
{
    law_well_formed();
    let model = match read_model(alloc, text) {
        Ok(model) => model,
        Err(error) => return Err(refused(alloc, text, error)),
    };
    match hidden(&model) {
        Some(variable) => Err(hides(alloc, text, &model, variable)),
        None => Ok(model),
    }
}

/// The end where a text has no model.
fn refused(alloc: Global, text: &[u8], error: TextError) -> Ending
    requires { IsCause text.now error }
    ensures { IsEarlyText text.now result }
{
    match error {
        TextError::Refused { kind, at } => {
            let line = told_line(text, kind, at);
            let status = Status::Refused { kind, line };
            Ending::stopped(status, print_refusal(alloc, kind, line))
        }
        TextError::NoMemory => Ending::Plain(Status::NoMemory),
    }
}

/// The end where the model of a text hides a variable.
fn hides(alloc: Global, text: &[u8], model: &FznModel, variable: u32) -> Ending
    requires model { IsTextOf text.now model.now }
    requires first { IsFirstHidden model.now variable }
    ensures { IsEarlyText text.now result }
{
    let line = print_hidden(alloc, model, variable as usize);
    Ending::stopped(Status::Hidden, line)
}

/// The first solution that is wrong, by its place counted from 0, and what is wrong with it.
fn first_bad(
    rt: &(impl Threads + Sync),
    model: &FznModel,
    solutions: &[ListOf<i64>],
) -> Result<Option<(usize, Wrong)>, NoMemory>
    requires model { IsWellFormed model.now }
    requires values { All (AreValues model.now.vars) solutions.now }
    ensures { IfOk result (λ found. MatchOption found (All (IsSolution model.now) solutions.now) (λ bad. IsFirstBad model.now solutions.now bad.0 bad.1)) }
{
    for (place, solution) in solutions.iter().enumerate() {
        if let Some(wrong) = first_wrong(rt, model, solution.as_slice())? {
            return Ok(Some((place, wrong)));
        }
    }
    Ok(None)
}

/// The end of a check of an answer.
fn judge(rt: &(impl Threads + Sync), alloc: Global, model: &FznModel, answer: &Answer) -> Ending
    requires model { IsWellFormed model.now }
    requires values { All (AreValues model.now.vars) answer.now.solutions }
    ensures { IsJudgement model.now answer.now result }
{
    let count = answer.solutions.len();
    match first_bad(rt, model, answer.solutions.as_slice()) {
        Ok(None) => Ending::judged(Status::Right, print_right(alloc, count)),
        Ok(Some((place, wrong))) => {
            Ending::judged(Status::Wrong, print_wrong(alloc, model, place, wrong))
        }
        Err(_) => Ending::Plain(Status::NoMemory),
    }
}

/// The end of a check of solutions whose text isn't too long.
pub(crate) fn judge_text(
    rt: &(impl Threads + Sync),
    alloc: Global,
    model: &FznModel,
    bytes: &[u8],
) -> Ending
    requires model { IsWellFormed model.now }
    requires shown { AllPrinted model.now }
    requires short { length bytes.now ≤ most_bytes }
    ensures { IsLateEnding model.now bytes.now result }
{
    match read_solutions(alloc, model, bytes) {
        Ok(answer) => judge(rt, alloc, model, &answer),
        Err(SolutionError::BadText) => Ending::stopped(Status::BadText, print_bad_text(alloc)),
        Err(SolutionError::NoMemory) => Ending::Plain(Status::NoMemory),
    }
}
