//! The shortest list that gives another when it is repeated a whole number of times.

ghost use Rattle.std.specs.Prelude.{◌≡◌, ℕ, ◌<◌, ◌≤◌, ◌↔◌, length, IsTrue};
ghost use Rattle.type_desc.specs.Periods.{IsPeriod};

use fsc_base::WordKind;

/// Whether the list is its first `n` kinds, repeated a whole number of times.
fn is_period(kinds: &[WordKind], n: usize) -> bool
    requires some { 0 < n }
    requires within { n ≤ length kinds.now }
    ensures { IsTrue result ↔ IsPeriod kinds.now n }
{
    kinds.len() % n == 0 && kinds[n..] == kinds[..kinds.len() - n]
}

/// The length of the shortest list that gives this one when it is repeated a whole number of times. A list of n kinds is
/// gone over once for each divisor of n.
pub fn least_period(kinds: &[WordKind]) -> usize
    requires { 0 < length kinds.now }
    ensures period { IsPeriod kinds.now result }
    ensures least { (n : ℕ) → IsPeriod kinds.now n → result ≤ n }
    ensures within { result ≤ length kinds.now }
{
    let count = kinds.len();
    for n in 1..count {
        if is_period(kinds, n) {
            return n;
        }
    }
    count
}
