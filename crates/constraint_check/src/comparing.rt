//! Whether numbers are in a relation.

ghost use Rattle.std.specs.Prelude.{◌≡◌, ◌≢◌, ◌&&◌, ◌+ℤ◌, ◌*ℤ◌, pos, not, int_div, int_rem};
ghost use Rattle.std.specs.Ordering.{int_eq};
ghost use Rattle.constraint_check.specs.Tests.{compares, gives, is_absolute, is_true, same};

/// How two numbers compare.
#[derive(Debug, Clone, Copy, PartialEq, Eq)]
pub(crate) enum Comparison {
    /// They are equal.
    Equal,
    /// They differ.
    Different,
    /// The first is at most the second.
    AtMost,
    /// The first is less.
    Less,
}

/// What a third number is of two others.
#[derive(Debug, Clone, Copy, PartialEq, Eq)]
pub(crate) enum Operation {
    /// Their sum.
    Sum,
    /// Their product.
    Product,
    /// The quotient, rounded toward zero.
    Quotient,
    /// What that leaves of the first.
    Remainder,
    /// The greater.
    Greatest,
    /// The less.
    Least,
}

/// Which of some numbers is meant.
#[derive(Debug, Clone, Copy, PartialEq, Eq)]
pub(crate) enum Extreme {
    /// The greatest.
    Greatest,
    /// The least.
    Least,
}

/// How many of some booleans have to be true.
#[derive(Debug, Clone, Copy, PartialEq, Eq)]
pub(crate) enum Junction {
    /// All.
    All,
    /// One or more.
    Some,
}

/// Whether a boolean is true.
pub(crate) fn is_true(number: i64) -> bool
    ensures { result ≡ is_true number }
{
    number >= 1
}

/// Whether both are true, or neither.
pub(crate) fn same(p: bool, q: bool) -> bool
    ensures { result ≡ same p q }
{
    if p { q } else { !q }
}

/// Whether two numbers compare so.
pub(crate) fn compares(comparison: Comparison, x: i64, y: i64) -> bool
    ensures { result ≡ compares comparison x y }
{
    match comparison {
        Comparison::Equal => x == y,
        Comparison::Different => x != y,
        Comparison::AtMost => x <= y,
        Comparison::Less => x < y,
    }
}

/// Whether a sum, which may be larger, compares so with a number.
pub(crate) fn compares_sum(comparison: Comparison, sum: i128, y: i64) -> bool
    ensures { result ≡ compares comparison sum y }
{
    let limit = y as i128;
    match comparison {
        Comparison::Equal => sum == limit,
        Comparison::Different => sum != limit,
        Comparison::AtMost => sum <= limit,
        Comparison::Less => sum < limit,
    }
}

/// Whether the second number is the first without its sign.
pub(crate) fn is_absolute(x: i64, y: i64) -> bool
    ensures { result ≡ is_absolute x y }
{
    y >= 0 && x.unsigned_abs() == y.unsigned_abs()
}

/// The sum of two numbers.
pub(crate) fn sum_of_two(x: i64, y: i64) -> i128
    ensures { result ≡ x +ℤ y }
{
    x as i128 + y as i128
}

/// The product of two numbers.
#[tactic(auto, using(crate::proofs::SumLaws::product_is))]
fn product_of_two(x: i64, y: i64) -> i128
    ensures { result ≡ x *ℤ y }
{
    x as i128 * y as i128
}

/// The quotient, rounded toward zero. The least number divided by -1 needs one bit more.
fn quotient_of_two(x: i64, y: i64) -> i128
    requires { y ≢ pos 0 }
    ensures { result ≡ int_div x y }
{
    x as i128 / y as i128
}

/// What y times the quotient leaves of x.
fn rest_of_two(x: i64, y: i64) -> i128
    requires { y ≢ pos 0 }
    ensures { result ≡ int_rem x y }
{
    x as i128 % y as i128
}

/// Whether z is the quotient of x and y.
fn is_quotient(x: i64, y: i64, z: i64) -> bool
    ensures { result ≡ (not (int_eq y (pos 0)) && int_eq (int_div x y) z) }
{
    if y == 0 {
        return false;
    }
    compares_sum(Comparison::Equal, quotient_of_two(x, y), z)
}

/// Whether z is what y times the quotient leaves of x.
fn is_remainder(x: i64, y: i64, z: i64) -> bool
    ensures { result ≡ (not (int_eq y (pos 0)) && int_eq (int_rem x y) z) }
{
    if y == 0 {
        return false;
    }
    compares_sum(Comparison::Equal, rest_of_two(x, y), z)
}

/// Whether the third number is that of the first two.
#[tactic(auto, unfolding(crate::specs::Tests::gives, constraint_model::specs::Relations::quotient))]
pub(crate) fn gives(operation: Operation, x: i64, y: i64, z: i64) -> bool
    ensures { result ≡ gives operation x y z }
{
    match operation {
        Operation::Sum => compares_sum(Comparison::Equal, sum_of_two(x, y), z),
        Operation::Product => compares_sum(Comparison::Equal, product_of_two(x, y), z),
        Operation::Quotient => is_quotient(x, y, z),
        Operation::Remainder => is_remainder(x, y, z),
        Operation::Greatest => x.max(y) == z,
        Operation::Least => x.min(y) == z,
    }
}
