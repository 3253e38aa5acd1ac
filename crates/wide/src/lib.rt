#![tactic(auto)]
// Numbers of two words: products and sums, with no type of 128 bits.
ghost use Rattle.std.specs.Prelude.{◌≡◌, ◌+◌, ◌*◌, ◌<◌, ◌≤◌};
ghost use Rattle.wide.specs.Wide.{words};

#[derive(Clone, Copy)]
pub struct Wide {
    pub hi: u64,
    pub lo: u64,
}

// The product. The halves of a are multiplied one by one, so that each product fits 64 bits.
pub fn product(a: u64, p: u32) -> Wide
    ensures { (words result.hi result.lo ≡ a * p) × (result.hi < 4294967296) }
{
    let low = a % 4294967296 * p as u64;
    let high = a / 4294967296 * p as u64 + low / 4294967296;
    Wide {
        hi: high / 4294967296,
        lo: high % 4294967296 * 4294967296 + low % 4294967296,
    }
}

// The sum of two, where the high words leave room.
pub fn add(a: Wide, b: Wide) -> Wide
    requires { a.hi + b.hi < 18446744073709551615 }
    ensures { (words result.hi result.lo ≡ words a.hi a.lo + words b.hi b.lo) × (result.hi ≤ a.hi + b.hi + 1) }
{
    let (lo, carry) = a.lo.overflowing_add(b.lo);
    if carry {
        return Wide {
            hi: a.hi + b.hi + 1,
            lo,
        };
    }
    Wide {
        hi: a.hi + b.hi,
        lo,
    }
}
