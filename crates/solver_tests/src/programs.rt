//! The model and the program of a text, the box that a program begins with, and how propagation ends on it.

ghost use Rattle.std.specs.Prelude.{◌≡◌, length, All, IfOk};
ghost use Rattle.guarded_tell.specs.Kernels.{IsKernel};
ghost use Rattle.constraint_model.specs.WellFormed.{IsWellFormed};

use crate::propagators::{ALWAYS, Shape, are_kernels};
use constraint_model::FznModel;
use decompose::{Program, compile};
use fixpoint_laws::{Settled, settle_alone};
use fzn_model::law_well_formed;
use guarded_tell::Lit;
use solver_top::read_model;
use std::alloc::{AllocError, Global};
use std::test::Fail;

/// The model of a text.
pub(crate) fn model_of(alloc: Global, text: &str) -> Result<FznModel, AllocError>
    ensures { IfOk result IsWellFormed }
{
    law_well_formed();
    match read_model(alloc, text.as_bytes()) {
        Ok(model) => Ok(model),
        Err(_) => Err(AllocError),
    }
}

/// The program of a text.
pub(crate) fn program_of(alloc: Global, text: &str) -> Result<Program, AllocError>
    ensures { IfOk result (λ program. All (IsKernel (length program.start)) program.kernels) }
{
    let model = model_of(alloc, text)?;
    match compile(alloc, &model) {
        Ok(program) => Ok(program),
        Err(_) => Err(AllocError),
    }
}

/// The bounds of each variable of a program: of the constant 1, of the declared variables, of the other constants.
fn bounds_of(alloc: Global, program: &Program) -> Result<Vec<(i64, i64)>, AllocError> {
    let mut bounds = Vec::new(alloc);
    for place in 0..program.start.len() {
        bounds.push((program.start.low(place), program.start.high(place)))?;
    }
    Ok(bounds)
}

/// A text with an integer, a boolean and two constants other than 1.
const SMALL: &str =
    "var -3..5: x; var bool: b; constraint int_le_reif(x, 4, b); constraint int_lt(x, 1); \
     constraint int_lin_le([2, -1], [x, 4], 7); solve minimize 9;";

/// The literal of its boolean, which is the variable 2.
const IS_B: Lit = Lit {
    var: 2,
    positive: true,
};

const SMALL_KERNELS: &[Shape] = &[
    Shape::Le(IS_B, &[1, -1], &[1, 3], 0),
    Shape::Le(ALWAYS, &[1, -1], &[1, 0], -1),
    Shape::Le(ALWAYS, &[2, -1], &[1, 3], 7),
];

#[test]
fn a_program_has_the_declared_bounds_and_the_constants(rt: HostRuntime) -> Result<(), Fail> {
    let program = program_of(rt.alloc(), SMALL)?;
    let bounds = bounds_of(rt.alloc(), &program)?;
    let wanted = [(1, 1), (-3, 5), (0, 1), (4, 4), (9, 9)];
    assert_eq!(rt; bounds.as_slice(), wanted.as_slice());
    assert!(rt; are_kernels(program.kernels.as_slice(), SMALL_KERNELS));
    Ok(())
}

#[test]
fn two_orders_that_exclude_each_other_fail_in_two_rounds(rt: HostRuntime) -> Result<(), Fail> {
    let text =
        "var 0..3: x; var 0..3: y; constraint int_lt(x,y); constraint int_lt(y,x); solve satisfy;";
    let Program { start, kernels } = program_of(rt.alloc(), text)?;
    let mut b = start;
    assert_eq!(rt; b.len(), 3);
    assert_eq!(rt; kernels.len(), 2);
    let Ok(mut spare) = b.copy(rt.alloc()) else {
        return Err(AllocError.into());
    };
    let settled = settle_alone(&mut b, &mut spare, kernels.as_slice());
    assert!(rt; matches!(settled, Settled::Failed { rounds: 2 }));
    Ok(())
}
