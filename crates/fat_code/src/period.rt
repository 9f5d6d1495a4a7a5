//! Whether a list of kinds is in its least period, in time that grows as the list does.

ghost use Rattle.std.specs.Prelude.{◌≡◌, ◌<◌, ◌≤◌, ◌↔◌, length, IsTrue, false};
ghost use Rattle.type_desc.specs.Periods.{IsPeriod};
ghost use Rattle.fat_code.specs.Divisors.{HasDivisor, Repeats};
ghost use Rattle.fat_code.specs.UnitRows.{is_least};

use fsc_base::WordKind;

/// Whether the list is its first `n` kinds, repeated a whole number of times.
fn is_period(kinds: &[WordKind], n: usize) -> bool
    requires some { 0 < n }
    requires within { n ≤ length kinds.now }
    ensures { IsTrue result ↔ IsPeriod kinds.now n }
{
    kinds.len() % n == 0 && kinds[n..] == kinds[..kinds.len() - n]
}

/// Whether no number from 2 on that is smaller divides a number.
fn is_prime(number: usize) -> bool
    ensures { result ≡ false → HasDivisor number }
{
    for divisor in 2..number {
        if number % divisor == 0 {
            return false;
        }
    }
    true
}

/// Whether the list is a shorter one, repeated so many times, a prime number.
fn is_repeated(kinds: &[WordKind], times: usize) -> bool
    requires some { 2 ≤ times }
    requires within { times ≤ length kinds.now }
    ensures { Repeats kinds.now times result }
{
    let count = kinds.len();
    if count % times != 0 || !is_prime(times) {
        return false;
    }
    is_period(kinds, count / times)
}

/// Whether no shorter list gives a list of kinds when it is repeated. The list is gone over once for each of the few primes that
/// divide the number of its kinds: a list that repeats one some number of times repeats another as often as a prime factor says.
pub(crate) fn is_least(kinds: &[WordKind]) -> bool
    requires { 0 < length kinds.now }
    ensures { result ≡ is_least kinds.now }
{
    for times in 2..kinds.len() + 1 {
        if is_repeated(kinds, times) {
            return false;
        }
    }
    true
}
