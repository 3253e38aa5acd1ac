#![tactic(auto)]
// A test of each number below another. The tests over a range as definitions, and the laws on lists that every other crate cites, are in specs/.
ghost use Rattle.std.specs.Prelude.{◌≡◌, ℕ, Bool, ◌<◌};
ghost use Rattle.lists.specs.Tests.{all_to};

// Whether f holds of each of 0, 1, .. n - 1. No test leaves the loop early, so that it compiles to vector code.
pub fn all_of<F: Fn(usize) -> bool>(n: usize, f: F) -> bool
    requires { (k : ℕ) → k < n → F.pre f k }
    ensures { (g : ℕ → Bool) → ((k : ℕ) (r : Bool) → k < n → F.post f k r → r ≡ g k) → result ≡ all_to g n }
{
    let mut ok = true;
    for k in 0..n {
        ok &= f(k);
    }
    ok
}
