#![tactic(auto)]
// A tariff as a lent table (docs/LICENCE.md): whether it keeps its rules, and what frames cost by it.
ghost use Rattle.std.specs.Prelude.{◌≡◌, ◌+◌, ◌*◌, ◌-◌, ◌/◌, ◌≤◌, length};
ghost use Rattle.wide.specs.Wide.{words};
ghost use Rattle.tariff.specs.Table.{step_length, longest_table, steps_in, upper_at, price_at, rise_at, rises, lawful, covered_of, charge_to, cents_of, fee_of};

use wide::Wide;

// A step is its upper frame count, of 8 bytes, and its price, of 4: where the price stands in it, and its bytes.
pub const PRICE: usize = 8;

pub const STEP: usize = PRICE + 4;

// "1 to 16 steps", and the bytes of the longest table.
pub const STEPS: usize = 16;

pub const LONGEST: usize = STEPS * STEP;

#[tactic(auto, unfolding(crate::specs::Table::upper_at))]
fn upper(table: &[u8], i: usize) -> u64
    requires { step_length * i + step_length ≤ length table.now }
    ensures { result ≡ upper_at table.now i }
{
    le::get_u64(table, STEP * i)
}

#[tactic(auto, unfolding(crate::specs::Table::price_at))]
fn price(table: &[u8], i: usize) -> u32
    requires { step_length * i + step_length ≤ length table.now }
    ensures { result ≡ price_at table.now i }
{
    le::get_u32(table, STEP * i + PRICE)
}

// Whether the upper count of a step is below the next one's.
#[tactic(auto, unfolding(crate::specs::Table::rise_at))]
fn rise_at(table: &[u8], i: usize) -> bool
    requires { step_length * i + 2 * step_length ≤ length table.now }
    ensures { result ≡ rise_at table.now i }
{
    upper(table, i) < upper(table, i + 1)
}

// Whether the upper counts of k steps rise.
fn rise(table: &[u8], k: usize) -> bool
    requires { step_length * k ≤ length table.now }
    ensures { result ≡ rises table.now k }
{
    let mut ok = true;
    for i in 1..k {
        ok &= rise_at(table, i - 1);
    }
    ok
}

// Whether a table keeps the rules of a tariff: 1 to 16 steps, whose upper counts rise to 2^63 - 1.
#[tactic(auto, unfolding(crate::specs::Table::lawful))]
pub fn keeps_rules(table: &[u8]) -> bool
    ensures { result ≡ lawful table.now }
{
    if table.len() == 0 {
        return false;
    }
    if LONGEST < table.len() {
        return false;
    }
    if table.len() % STEP != 0 {
        return false;
    }
    let k = table.len() / STEP;
    rise(table, k) & (upper(table, k - 1) == 9223372036854775807)
}

// How many of n frames are at or below an upper count.
#[tactic(auto, unfolding(crate::specs::Table::covered_of))]
fn covered(n: u64, upper: u64) -> u64
    ensures { result ≡ covered_of n upper }
{
    if n < upper {
        return n;
    }
    upper
}

// How much a is above b.
fn above(a: u64, b: u64) -> u64
    ensures { result ≡ a - b }
{
    if a < b {
        return 0;
    }
    a - b
}

// What n frames cost, in hundred-thousandths of a cent, step by step.
#[tactic(auto, unfolding(crate::specs::Table::charge_to, wide::specs::Wide::words))]
fn charge(table: &[u8], n: u64) -> Wide
    requires { length table.now ≤ longest_table }
    ensures { words result.hi result.lo ≡ charge_to table.now n (steps_in table.now) }
{
    let k = table.len() / STEP;
    let mut sum = Wide { hi: 0, lo: 0 };
    let mut done: u64 = 0;
    for i in 0..k {
        let to = covered(n, upper(table, i));
        sum = wide::add(sum, wide::product(above(to, done), price(table, i)));
        done = to;
    }
    sum
}

// The high word of the greatest number that is below 2^63 cents: above it nothing fits.
const HIGH: u64 = 49999;

// Hundred-thousandths of a cent, rounded to cents, a half up; none where these are above 2^63 - 1.
fn rounded(x: Wide) -> Option<u64>
    ensures { result ≡ cents_of (words x.hi x.lo) }
{
    if HIGH < x.hi {
        return None;
    }
    let high = x.hi * 4294967296 + x.lo / 4294967296;
    let low = high % 100000 * 4294967296 + x.lo % 4294967296 + 50000;
    let q = high / 100000 * 4294967296 + low / 100000;
    if 9223372036854775807 < q {
        return None;
    }
    Some(q)
}

// A fee in cents, or that it is beyond 2^63 - 1 either way. No `Option`: theorem `fee_is` of `licence_meaning` speaks of it.
#[derive(Clone, Copy)]
pub enum Fee {
    Owed(i64),
    Beyond,
}

// The fee for so many frames. A negative number is charged as the negative of its opposite.
pub fn fee_for(table: &[u8], frames: i64) -> Fee
    requires { length table.now ≤ longest_table }
    ensures { result ≡ fee_of table.now frames }
{
    let n = signed::magnitude(frames);
    match rounded(charge(table, n)) {
        None => Fee::Beyond,
        Some(q) => Fee::Owed(signed::with_sign(frames, q)),
    }
}
