#![tactic(auto)]
// Document 02's blocks, up to 64 records laid out by column: where a block has what, and whether it is one. The check is one pass, and
// rebuilds nothing.
ghost use Rattle.std.specs.Prelude.{◌≡◌, true, ◌+◌, ◌*◌, ◌≤◌, ◌<◌, length, take, drop};
ghost use Rattle.std.proofs.lemmas.List.Edits.{sets};
ghost use Rattle.layout.specs.Record.{header_length, value_length};
ghost use Rattle.block.specs.Block.{most_records};
ghost use Rattle.block.specs.Places.{counts_length, header_at, reads_at, writes_at, size_at, entries_to};
ghost use Rattle.block.specs.Check.{shape_of, counts_agree, record_fits, all_fit, block_number, place_number};
ghost use Rattle.refusals.specs.Refusals.{code};

use refusals::Refusal;

// "Store 1 to 64 records as a block".
pub const RECORDS: usize = 64;

// Where its two counts stand, and their length.
pub const RECORD_COUNT: usize = 0;

pub const ENTRY_TOTAL: usize = RECORD_COUNT + 2;

pub const COUNTS: usize = ENTRY_TOTAL + 2;

// Where header i of a block starts; behind the last one its addresses.
pub fn header_at(i: usize) -> usize
    requires { i ≤ 65536 }
    ensures { result ≡ header_at i }
{
    COUNTS + record::HEADER * i
}

// The reads, and the writes, of the record whose header starts at `at`.
fn reads_at(s: &[u8], at: usize) -> usize
    requires { at + header_length ≤ length s.now }
    ensures { (result ≡ reads_at s.now at) × (result < 65536) }
{
    le::get_u16(s, at + record::READS) as usize
}

fn writes_at(s: &[u8], at: usize) -> usize
    requires { at + header_length ≤ length s.now }
    ensures { (result ≡ writes_at s.now at) × (result < 65536) }
{
    le::get_u16(s, at + record::WRITES) as usize
}

// Its entries.
#[tactic(auto, unfolding(crate::specs::Places::size_at))]
pub fn size_at(s: &[u8], at: usize) -> usize
    requires { at + header_length ≤ length s.now }
    ensures { (result ≡ size_at s.now at) × (result < 131072) }
{
    reads_at(s, at) + writes_at(s, at)
}

// Where byte k of a value stands: its first at p in the first plane, the planes t bytes long.
pub fn plane_at(p: usize, t: usize, k: usize) -> usize
    requires { (k < value_length) × (p + 7 * t < 18446744073709551616) }
    ensures { (result ≡ p + k * t) × (result ≤ p + 7 * t) }
{
    p + k * t
}

// Copies n bytes of `from` to a place of `to`.
pub fn copy_part(to: &mut [u8], at: usize, from: &[u8], start: usize, n: usize)
    requires { (at + n ≤ length to.old) × (start + n ≤ length from.now) }
    ensures { to.new ≡ sets to.old at (take n (drop start from.now)) }
{
    let e = at + n;
    let f = start + n;
    to[at..e].copy_from_slice(&from[start..f]);
}

// The entries that the first c headers of a block claim.
#[tactic(auto, unfolding(crate::specs::Places::entries_to))]
pub fn entries_to(b: &[u8], c: usize) -> usize
    requires { (c ≤ most_records) × (header_at c ≤ length b.now) }
    ensures { result ≡ entries_to b.now c }
{
    let mut n: usize = 0;
    for i in 0..c {
        n += size_at(b, header_at(i));
    }
    n
}

#[tactic(auto, unfolding(crate::specs::Check::shape_of))]
fn shape_ok(b: &[u8]) -> bool
    requires { counts_length ≤ length b.now }
    ensures { result ≡ shape_of b.now }
{
    let c = le::get_u16(b, RECORD_COUNT) as usize;
    let t = le::get_u16(b, ENTRY_TOTAL) as usize;
    (1 <= c) & (c <= RECORDS) & (b.len() == header_at(c) + t + record::VALUE * t)
}

// Number 21: whether the counts agree with each other and with the length.
#[tactic(auto, unfolding(crate::specs::Check::counts_agree))]
fn counts_agree(b: &[u8]) -> bool
    ensures { result ≡ counts_agree b.now }
{
    if b.len() < COUNTS {
        return false;
    }
    if !shape_ok(b) {
        return false;
    }
    entries_to(b, le::get_u16(b, RECORD_COUNT) as usize) == le::get_u16(b, ENTRY_TOTAL) as usize
}

// Number 5: whether a record keeps the rules of a record, where its header starts at h and its addresses at a.
#[tactic(auto, unfolding(crate::specs::Places::size_at, crate::specs::Check::record_fits))]
fn record_fits(b: &[u8], h: usize, a: usize) -> bool
    requires { (h + header_length ≤ length b.now) × (a + size_at b.now h ≤ length b.now) }
    ensures { result ≡ record_fits b.now h a }
{
    let n = reads_at(b, h);
    let m = writes_at(b, h);
    record::head_at(&b[h..]) & record::rises(b, a, n) & record::rises(b, a + n, m)
}

// Whether all records of a block whose counts agree do. One pass, beside which the place of the next addresses is kept.
#[tactic(auto, unfolding(crate::specs::Places::entries_to, lists::specs::Tests::all_to, crate::specs::Check::record_fits_at, crate::specs::Check::all_fit))]
fn all_fit(b: &[u8]) -> bool
    requires { counts_agree b.now ≡ true }
    ensures { result ≡ all_fit b.now }
{
    let c = le::get_u16(b, RECORD_COUNT) as usize;
    let mut a = header_at(c);
    let mut ok = true;
    for i in 0..c {
        let h = header_at(i);
        ok &= record_fits(b, h, a);
        a += size_at(b, h);
    }
    ok
}

// Whether bytes are a block: refused with number 21, then with 5.
pub fn check(b: &[u8]) -> Result<(), Refusal>
    ensures { code result ≡ block_number b.now }
{
    if !counts_agree(b) {
        return Err(Refusal::Block);
    }
    if all_fit(b) {
        Ok(())
    } else {
        Err(Refusal::Record)
    }
}

// Whether they are one with a record at this place.
pub fn check_place(b: &[u8], place: usize) -> Result<(), Refusal>
    ensures { code result ≡ place_number b.now place }
{
    if !counts_agree(b) {
        return Err(Refusal::Block);
    }
    if (le::get_u16(b, RECORD_COUNT) as usize) <= place {
        return Err(Refusal::Block);
    }
    if all_fit(b) {
        Ok(())
    } else {
        Err(Refusal::Record)
    }
}
