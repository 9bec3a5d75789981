//! How long a sum needs no visit, by what it is at least and at most.

ghost use Rattle.std.specs.Prelude.{◌≡◌, ◌<◌, ◌≤ℤ◌, cond, length};
ghost use Rattle.interval.specs.Boxes.{low_of, high_of};
ghost use Rattle.kernel_visits.specs.Settled.{IsAtMostSumFor, IsEquationSumFor};

use crate::resting::Rest;
use guarded_tell::Lit;
use interval::BoxOf;
use small_sums::Sums;
use tells::{stands_false, stands_true};

/// How long an inequality of these sums needs no visit.
pub fn at_most_sum_rest(lit: Lit, limit: i64, sums: Sums, b: &BoxOf) -> Rest
    requires variable { lit.var < length b.now }
    requires proper { low_of b.now lit.var ≤ℤ high_of b.now lit.var }
    ensures { IsAtMostSumFor b.now lit limit sums result }
{
    let is_settled = if sums.greatest <= limit {
        stands_true(lit, b)
    } else if limit < sums.least {
        stands_false(lit, b)
    } else {
        false
    };
    rest_if(is_settled)
}

/// How long an equation of these sums needs no visit.
pub fn equation_sum_rest(lit: Lit, limit: i64, sums: Sums, b: &BoxOf) -> Rest
    requires variable { lit.var < length b.now }
    requires proper { low_of b.now lit.var ≤ℤ high_of b.now lit.var }
    ensures { IsEquationSumFor b.now lit limit sums result }
{
    let is_settled = if limit < sums.least || sums.greatest < limit {
        stands_false(lit, b)
    } else if limit <= sums.least && sums.greatest <= limit {
        stands_true(lit, b)
    } else {
        false
    };
    rest_if(is_settled)
}

/// For good where it is settled.
fn rest_if(is_settled: bool) -> Rest
    ensures { result ≡ cond is_settled Rest.ForGood Rest.Awake }
{
    if is_settled {
        Rest::ForGood
    } else {
        Rest::Awake
    }
}
