//! Intervals of whole numbers, from -10^18 to 10^18.
ghost use Rattle.std.specs.Prelude.{◌≡◌, ◌*ℤ◌, ◌≤ℤ◌, ◌&&◌, IsTrue, pos};
ghost use Rattle.reo_exprs.specs.Interval.{is_near, near_number, near, is_near_interval, negated, sum, difference, product, quotient, remainder, least_rest, greatest_rest};

/// The whole numbers from the first bound to the second, both included.
#[derive(Clone, Copy, Debug, PartialEq, Eq)]
pub struct Interval {
    pub low: i64,
    pub high: i64,
}

const REACH: i64 = 1_000_000_000_000_000_000;

/// Whether a number lies from -10^18 to 10^18.
pub fn is_near(number: i64) -> bool
    ensures { result ≡ is_near number }
{
    -REACH <= number && number <= REACH
}

fn near_number(number: i64) -> Option<i64>
    ensures { result ≡ near_number number }
{
    if is_near(number) { Some(number) } else { None }
}

fn near(low: i64, high: i64) -> Option<Interval>
    ensures { result ≡ near (record { low = low; high = high }) }
{
    if is_near(low) && is_near(high) {
        Some(Interval { low, high })
    } else {
        None
    }
}

/// The interval of the negated numbers; None where a bound leaves -10^18 to 10^18.
pub fn negated(x: Interval) -> Option<Interval>
    requires { IsTrue (is_near_interval x) }
    ensures { result ≡ near (negated x) }
{
    near(-x.high, -x.low)
}

/// The interval of the sums; None where a bound leaves -10^18 to 10^18.
pub fn sum(x: Interval, y: Interval) -> Option<Interval>
    requires left { IsTrue (is_near_interval x) }
    requires right { IsTrue (is_near_interval y) }
    ensures { result ≡ near (sum x y) }
{
    near(x.low + y.low, x.high + y.high)
}

/// The interval of the differences; None where a bound leaves -10^18 to 10^18.
pub fn difference(x: Interval, y: Interval) -> Option<Interval>
    requires left { IsTrue (is_near_interval x) }
    requires right { IsTrue (is_near_interval y) }
    ensures { result ≡ near (difference x y) }
{
    near(x.low - y.high, x.high - y.low)
}

// A product, where it lies from -10^18 to 10^18.
fn times(a: i64, b: i64) -> Option<i64>
    ensures { result ≡ near_number (a *ℤ b) }
{
    match a.checked_mul(b) {
        Some(number) => near_number(number),
        None => None,
    }
}

/// The interval from the least product of two bounds to the greatest; None where one of these
/// leaves -10^18 to 10^18.
pub fn product(x: Interval, y: Interval) -> Option<Interval>
    ensures { result ≡ near (product x y) }
{
    let a = times(x.low, y.low)?;
    let b = times(x.low, y.high)?;
    let c = times(x.high, y.low)?;
    let d = times(x.high, y.high)?;
    Some(Interval {
        low: a.min(b).min(c.min(d)),
        high: a.max(b).max(c.max(d)),
    })
}

/// The interval from the least quotient of two bounds, rounded towards zero, to the greatest; None
/// where one of these leaves -10^18 to 10^18.
pub fn quotient(x: Interval, y: Interval) -> Option<Interval>
    requires low { pos 1 ≤ℤ y.low }
    requires high { pos 1 ≤ℤ y.high }
    ensures { result ≡ near (quotient x y) }
{
    let a = x.low / y.low;
    let b = x.low / y.high;
    let c = x.high / y.low;
    let d = x.high / y.high;
    near(a.min(b).min(c.min(d)), a.max(b).max(c.max(d)))
}

fn least_rest(low: i64, divisor: i64) -> i64
    requires { IsTrue (is_near divisor) }
    ensures { result ≡ least_rest low divisor }
{
    if 0 <= low { 0 } else { low.max(1 - divisor) }
}

fn greatest_rest(high: i64, divisor: i64) -> i64
    requires { IsTrue (is_near divisor) }
    ensures { result ≡ greatest_rest high divisor }
{
    if high <= 0 { 0 } else { high.min(divisor - 1) }
}

/// An interval with the remainders, each with the sign of the number that is divided; None where a
/// bound leaves -10^18 to 10^18.
pub fn remainder(x: Interval, y: Interval) -> Option<Interval>
    requires { IsTrue (is_near_interval y) }
    ensures { result ≡ near (remainder x y) }
{
    near(least_rest(x.low, y.high), greatest_rest(x.high, y.high))
}
