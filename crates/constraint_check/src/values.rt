//! The numbers of terms.

ghost use Rattle.std.specs.Prelude.{◌≡◌, ◌≤◌, ◌*◌, ◌+ℤ◌, ◌*ℤ◌, map, All, unsigned_abs};
ghost use Rattle.constraint_model.specs.Limits.{most_entries};
ghost use Rattle.constraint_model.specs.Numbers.{IsInProfile};
ghost use Rattle.constraint_model.specs.Relations.{dot, value};
ghost use Rattle.constraint_check.specs.Asked.{IsSmallRow, IsSmallTerm, product_limit};

use constraint_model::Term;

/// The number of a term.
pub(crate) fn value_of(term: Term, solution: &[i64]) -> i64
    ensures { result ≡ value solution.now term }
{
    match term {
        Term::Number(number) => number,
        Term::Var(place) => solution.get(place as usize).copied().unwrap_or(0),
    }
}

/// The product of the numbers of two terms.
fn product_of(coefficient: Term, term: Term, solution: &[i64]) -> i128
    requires numbers { All IsInProfile solution.now }
    requires coefficient { IsSmallTerm coefficient }
    requires term { IsSmallTerm term }
    ensures value { result ≡ value solution.now coefficient *ℤ value solution.now term }
    ensures small { unsigned_abs result ≤ product_limit }
{
    value_of(coefficient, solution) as i128 * value_of(term, solution) as i128
}

/// The sum with one more product.
#[tactic(auto, unfolding(crate::specs::Asked::product_limit))]
pub(crate) fn sum_with(sum: i128, product: i128) -> i128
    requires sum { unsigned_abs sum ≤ most_entries * product_limit }
    requires product { unsigned_abs product ≤ product_limit }
    ensures { result ≡ sum +ℤ product }
{
    sum + product
}

/// The sum of the products of coefficients and terms.
pub(crate) fn sum_of(coefficients: &[Term], terms: &[Term], solution: &[i64]) -> i128
    requires numbers { All IsInProfile solution.now }
    requires coefficients { IsSmallRow coefficients.now }
    requires terms { IsSmallRow terms.now }
    ensures { result ≡ dot (map (value solution.now) coefficients.now) (map (value solution.now) terms.now) }
{
    let count = coefficients.len().min(terms.len());
    let mut sum = 0;
    for place in 0..count {
        let product = product_of(coefficients[place], terms[place], solution);
        sum = sum_with(sum, product);
    }
    sum
}
