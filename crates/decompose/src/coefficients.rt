//! The numbers of coefficients and limits.

ghost use Rattle.std.specs.Prelude.{◌≡◌, ◌++◌, map, IfOk, OnOk};
ghost use Rattle.decompose.specs.Kernels.{number_of};

use constraint_model::Term;
use shared_list::SharedList;
use std::alloc::{AllocError, Global};

/// The number of a coefficient or a limit.
pub(crate) fn number(term: Term) -> i64
    ensures { result ≡ number_of term }
{
    match term {
        Term::Number(number) => number,
        Term::Var(_) => 0,
    }
}

/// Adds the numbers of coefficients.
fn add_numbers(terms: &[Term], numbers: &mut Vec<i64>) -> Result<(), AllocError>
    ensures { OnOk result (numbers.new.items ≡ numbers.old.items ++ map number_of terms.now) }
{
    for term in terms {
        numbers.push(number(*term))?;
    }
    Ok(())
}

/// The numbers of coefficients, in a list with this mark.
pub(crate) fn numbers(
    alloc: Global,
    terms: &[Term],
    mark: usize,
) -> Result<SharedList<i64>, AllocError>
    ensures { IfOk result (λ numbers. numbers ≡ map number_of terms.now) }
{
    let mut numbers = Vec::with_capacity(alloc, terms.len())?;
    add_numbers(terms, &mut numbers)?;
    SharedList::with_mark(numbers, mark)
}
