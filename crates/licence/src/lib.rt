#![tactic(auto)]
// The counting licence (document 02, wish 7): one address's chargeable frames over a stretch of commits, and their fee.
ghost use Rattle.std.specs.Prelude.{◌≡◌, ◌≤◌, length};
ghost use Rattle.layout.specs.Record.{header_length};
ghost use Rattle.record.specs.Check.{length_of};
ghost use Rattle.totals.specs.Writers.{writes};
ghost use Rattle.signed.specs.Change.{Sums};
ghost use Rattle.licence.specs.Frames.{noted_of, closed_of, frames_on, frames_of};
ghost use Rattle.licence.specs.Fee.{billed, licence_of};

use archive::Answer;
use refusals::Refusal;
use signed::Change;
use tariff::Fee;

// The sum of an address's changes over a stretch of commits, or the number that refuses it. No `Result` with a `Refusal`: theorem
// `summed_is` of `licence_meaning` speaks of it, and replay answers a number.
#[derive(Clone, Copy)]
pub enum Frames {
    Sum(i64),
    Refused(u32),
}

// Whether the record at the start of `part` writes this address. No test leaves the loop early.
#[tactic(auto, unfolding(totals::specs::Writers::any_to))]
fn writes_to(part: &[u8], address: u8) -> bool
    requires { (header_length ≤ length part.now) × (length_of part.now ≤ length part.now) }
    ensures { result ≡ writes part.now address }
{
    let n = le::get_u16(part, record::READS) as usize;
    let m = le::get_u16(part, record::WRITES) as usize;
    let mut found = false;
    for c in 0..m {
        let i = n + c;
        found |= part[record::HEADER + i] == address;
    }
    found
}

// The sum behind the record at the start of `part`, which left the address's value at `new` where it was `old` before: one change
// more where its commit is in the stretch and it writes the address.
#[tactic(auto, unfolding(crate::specs::Frames::noted_of))]
fn noted(
    sum: Change,
    part: &[u8],
    commit: u32,
    first: u32,
    last: u32,
    address: u8,
    new: u64,
    old: u64,
) -> Change
    requires { (header_length ≤ length part.now) × (length_of part.now ≤ length part.now) × (commit ≤ last → Sums sum old) }
    ensures { result ≡ noted_of sum part.now commit first last address new old }
{
    if commit < first {
        return sum;
    }
    if last < commit {
        return sum;
    }
    if !writes_to(part, address) {
        return sum;
    }
    signed::added(sum, new, old)
}

// The answer at the end of an archive whose last commit has this number.
fn closed(sum: Change, commit: u32, first: u32, last: u32) -> Frames
    ensures { result ≡ closed_of sum commit first last }
{
    if first == 0 {
        return Frames::Refused(Refusal::Sequence as u32);
    }
    if last < first {
        return Frames::Refused(Refusal::Sequence as u32);
    }
    if commit < last {
        return Frames::Refused(Refusal::Sequence as u32);
    }
    match sum {
        Change::By(s) => Frames::Sum(s),
        Change::Beyond => Frames::Refused(Refusal::Beyond as u32),
    }
}

// Plays the archive on these values and sums the address's changes in the stretch.
fn sum_over(archive: &[u8], first: u32, last: u32, address: u8, values: &mut [u64; 256]) -> Frames
    ensures { result ≡ frames_on archive.now first last address values.old }
{
    let a = address as usize;
    let mut at = 0;
    let mut commit: u32 = 0;
    let mut sum = Change::By(0);
    loop {
        let old = values[a];
        match replay::replay(archive, at, commit, values) {
            Answer::Record(f) => {
                let new = values[a];
                sum = noted(
                    sum,
                    &archive[at..],
                    f.commit,
                    first,
                    last,
                    address,
                    new,
                    old,
                );
                at = f.end;
                commit = f.commit;
            }
            Answer::End => return closed(sum, commit, first, last),
            Answer::Refused(number) => return Frames::Refused(number),
        }
    }
}

// The chargeable frames of an address from the first commit of a stretch to the last.
pub fn frames_of(archive: &[u8], first: u32, last: u32, address: u8) -> Frames
    ensures { result ≡ frames_of archive.now first last address }
{
    let mut values = [0u64; 256];
    sum_over(archive, first, last, address, &mut values)
}

// An address's chargeable frames over a stretch of commits, and their fee in cents: 0, 17, 12, 5, 13, 14 of the archive, 13 of the
// stretch, or 18. Only 0 changes `frames` and `fee`.
pub fn wax_licence_fee(
    archive: &[u8],
    table: &[u8],
    first: u32,
    last: u32,
    address: u8,
    frames: &mut i64,
    fee: &mut i64,
) -> u32
    ensures { billed frames.new fee.new result ≡ licence_of archive.now table.now first last address frames.old fee.old }
{
    if !tariff::keeps_rules(table) {
        return Refusal::Tariff as u32;
    }
    let sum = frames_of(archive, first, last, address);
    match sum {
        Frames::Refused(number) => number,
        Frames::Sum(n) => {
            let owed = tariff::fee_for(table, n);
            match owed {
                Fee::Beyond => Refusal::Beyond as u32,
                Fee::Owed(cents) => {
                    *frames = n;
                    *fee = cents;
                    0
                }
            }
        }
    }
}
