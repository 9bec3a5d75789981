//! The constants that need a variable of their own, and the declared arrays.

ghost use Rattle.std.specs.Prelude.{◌≡◌, [], OnOk, IfOk, fold, flat_map};
ghost use Rattle.constraint_model.specs.Arrays.{HaveNumbers};
ghost use Rattle.constraint_model.specs.Fits.{add_once, constants_in};
ghost use Rattle.constraint_model.specs.Fits.{goal_constants};
ghost use Rattle.constraint_model.specs.WellFormed.{constants_of};

use constraint_model::{Constants, Constraint, FznModel, Goal, Term, add_constant, add_constants};
use shared_list::SharedList;
use std::alloc::{AllocError, Global};

/// The numbers other than 1 that occur where a variable may be, each once, in the order of their first occurrences, with
/// their places; beside them the declared arrays.
pub(crate) fn constant_set(alloc: Global, model: &FznModel) -> Result<Constants, AllocError>
    requires { HaveNumbers model.now.arrays model.now.constraints }
    ensures { IfOk result (λ found. found ≡ record { numbers = constants_of model.now; arrays = model.now.arrays }) }
{
    let mut found = known_arrays(alloc, model.arrays.as_slice())?;
    add_constraint_constants(&mut found, model.constraints.as_slice())?;
    add_goal_constant(&mut found, model.goal)?;
    Ok(found)
}

/// No numbers, and these arrays.
fn known_arrays(alloc: Global, arrays: &[SharedList<Term>]) -> Result<Constants, AllocError>
    ensures { IfOk result (λ found. found ≡ record { numbers = []; arrays = arrays.now }) }
{
    let mut found = Constants::new(alloc);
    for terms in arrays {
        found.add_array(terms.share(alloc)?)?;
    }
    Ok(found)
}

/// Adds the numbers of the constraints.
fn add_constraint_constants(
    found: &mut Constants,
    constraints: &[Constraint],
) -> Result<(), AllocError>
    requires { HaveNumbers found.old.arrays constraints.now }
    ensures added { OnOk result (found.new.numbers ≡ fold add_once found.old.numbers (flat_map constants_in constraints.now)) }
    ensures arrays { found.new.arrays ≡ found.old.arrays }
{
    for constraint in constraints {
        add_constants(found, constraint)?;
    }
    Ok(())
}

/// Adds that of the objective.
fn add_goal_constant(found: &mut Constants, goal: Goal) -> Result<(), AllocError>
    ensures added { OnOk result (found.new.numbers ≡ fold add_once found.old.numbers (goal_constants goal)) }
    ensures arrays { found.new.arrays ≡ found.old.arrays }
{
    match goal {
        Goal::Satisfy => Ok(()),
        Goal::Minimize(term) | Goal::Maximize(term) => add_constant(found, term),
    }
}
