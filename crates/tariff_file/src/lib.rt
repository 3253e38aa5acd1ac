#![tactic(auto)]
// A line of a tariff file (docs/LICENCE.md, "The tariff file"): `upper price`.
ghost use Rattle.std.specs.Prelude.{◌≡◌, ◌+◌, ◌≤◌, length, take, drop};
ghost use Rattle.tariff_file.specs.Line.{is_digit, count_of, word_of, rest_of, line_of};

// A step of a tariff: its upper frame count and its price.
#[derive(Clone, Copy, PartialEq, Eq, Debug)]
pub struct Step {
    pub upper: u64,
    pub price: u32,
}

fn is_digit(b: u8) -> bool
    ensures { result ≡ is_digit b }
{
    (48 <= b) & (b <= 57)
}

fn long(b: u8) -> u64
    ensures { (result ≡ b) × (result ≤ 255) }
{
    b as u64
}

// A tenth of 2^63 - 1: with one digit more a number above it is beyond.
const TENTH: u64 = 922337203685477580;

// The number that a word of digits is, to 2^63 - 1.
fn count_of(word: &[u8]) -> Option<u64>
    ensures { result ≡ count_of word.now }
{
    if word.len() == 0 {
        return None;
    }
    let mut n: u64 = 0;
    for i in 0..word.len() {
        let b = word[i];
        if !is_digit(b) {
            return None;
        }
        if TENTH < n {
            return None;
        }
        n = n * 10 + (long(b) - 48);
        if 9223372036854775807 < n {
            return None;
        }
    }
    Some(n)
}

// Where the first space of a line is; its length where there is none.
fn space_in(line: &[u8]) -> usize
    ensures { (result ≤ length line.now) × (take result line.now ≡ word_of line.now) × (drop (result + 1) line.now ≡ rest_of line.now) }
{
    for i in 0..line.len() {
        if line[i] == 32 {
            return i;
        }
    }
    line.len()
}

// The step that a line gives; none where it is wrong.
pub fn step_of(line: &[u8]) -> Option<Step>
    ensures { result ≡ line_of line.now }
{
    let e = space_in(line);
    if line.len() <= e {
        return None;
    }
    let behind = e + 1;
    let upper = count_of(&line[..e])?;
    let price = arguments::commit_of(&line[behind..])?;
    Some(Step { upper, price })
}
