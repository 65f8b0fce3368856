// What is kept of a span: the numbers whose product with a coefficient is at most, or at least, some number.
ghost use Rattle.std.specs.Prelude.{◌≡◌, T, pos, neg_ℤ, ◌≤ℤ◌};
ghost use Rattle.std.specs.Int.{int_max, int_min};
ghost use Rattle.spans.specs.Amounts.{amount_from};
ghost use Rattle.rules.specs.SumTerms.{is_coefficient};
ghost use Rattle.rules.specs.Sums.{keep_at_most, keep_at_least};

use spans::Amount;

// The numbers of the span from low to high.
fn cut(span: Amount, low: i64, high: i64) -> Amount
    ensures { result ≡ amount_from (int_max low span.floor) (int_min high span.ceiling) }
{
    let floor = low.max(span.floor() as i64);
    let ceiling = high.min(span.ceiling() as i64);
    if floor > ceiling {
        return Amount::empty();
    }
    Amount::between(floor as i32, ceiling as i32)
}

// That a coefficient is one stands in each contract: a term is public, and may hold any number.
// The numbers x of the span with a * x at most r. The quotient is rounded inward, whatever the signs.
pub(super) fn at_most(span: Amount, a: i32, r: i64) -> Amount
    requires a { T (is_coefficient a) }
    requires r { (neg_ℤ (pos 2_000_000_000_000) ≤ℤ r) × (r ≤ℤ pos 2_000_000_000_000) }
    ensures { result ≡ keep_at_most a r span }
{
    if 0 < a {
        return cut(span, span.floor() as i64, r.div_euclid(a as i64));
    }
    cut(span, -r.div_euclid(-(a as i64)), span.ceiling() as i64)
}

// Those with a * x at least r.
pub(super) fn at_least(span: Amount, a: i32, r: i64) -> Amount
    requires a { T (is_coefficient a) }
    requires r { (neg_ℤ (pos 2_000_000_000_000) ≤ℤ r) × (r ≤ℤ pos 2_000_000_000_000) }
    ensures { result ≡ keep_at_least a r span }
{
    at_most(span, -a, -r)
}
