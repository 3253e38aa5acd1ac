#![tactic(auto)]
// Changes of a counter as signed numbers of 64 bits, and numbers without their sign.
ghost use Rattle.std.specs.Prelude.{◌≡◌, ◌<◌, ◌^◌, pos, negsuc, neg_ℤ, nat_abs, ◌+ℤ◌, ◌≤ℤ◌};
ghost use Rattle.std.specs.Int.{w64};
ghost use Rattle.std.proofs.Common.{SFits};
ghost use Rattle.signed.specs.Change.{diff, Sums, plus, change_of, with_sign};

// The change between two values, or that one of them is above 2^63 - 1. No `Option`: theorems `noted_is` and `summed_is` of
// `licence_meaning` speak of it.
#[derive(Clone, Copy)]
pub enum Change {
    By(i64),
    Beyond,
}

// The change between two values that are below 2^63.
fn difference(new: u64, old: u64) -> i64
    requires { (new < 2 ^ 63) × (old < 2 ^ 63) }
    ensures { result ≡ diff new old }
{
    new as i64 - old as i64
}

// The change between any two values.
pub fn between(new: u64, old: u64) -> Change
    ensures { result ≡ change_of new old }
{
    if 9223372036854775807 < new {
        return Change::Beyond;
    }
    if 9223372036854775807 < old {
        return Change::Beyond;
    }
    Change::By(difference(new, old))
}

// The sum of two numbers, where it fits.
fn joined(s: i64, x: i64) -> i64
    requires { SFits w64 (s +ℤ x) }
    ensures { result ≡ s +ℤ x }
{
    s + x
}

// One more change, from `old` on, in a sum of changes that led there.
pub fn added(sum: Change, new: u64, old: u64) -> Change
    requires { Sums sum old }
    ensures { result ≡ plus sum (change_of new old) }
{
    let d = between(new, old);
    match sum {
        Change::Beyond => Change::Beyond,
        Change::By(s) => match d {
            Change::Beyond => Change::Beyond,
            Change::By(x) => Change::By(joined(s, x)),
        },
    }
}

// The number without its sign, of one that has none.
fn natural(x: i64) -> u64
    requires { pos 0 ≤ℤ x }
    ensures { result ≡ nat_abs x }
{
    x as u64
}

// The opposite of a number that has one.
fn minus(x: i64) -> i64
    requires { negsuc 9223372036854775806 ≤ℤ x }
    ensures { result ≡ neg_ℤ x }
{
    -x
}

// How far the lowest number is from 0.
const LOWEST: u64 = 9223372036854775808;

// How far from 0. The lowest number has no opposite.
pub fn magnitude(x: i64) -> u64
    ensures { result ≡ nat_abs x }
{
    if 0 <= x {
        return natural(x);
    }
    if x < -9223372036854775807 {
        return LOWEST;
    }
    natural(minus(x))
}

// A number below 2^63 with the sign of s.
pub fn with_sign(s: i64, c: u64) -> i64
    requires { c < 2 ^ 63 }
    ensures { result ≡ with_sign s c }
{
    if 0 <= s {
        return c as i64;
    }
    -(c as i64)
}
