#![tactic(auto)]
// Record check and record writer of document 01, for the heads' C firmware, which calls them directly.
ghost use Rattle.std.specs.Prelude.{◌≡◌, ◌++◌, true, ◌+◌, ◌*◌, ◌-◌, ◌≤◌, ◌<◌, length, take, drop};
ghost use Rattle.record.specs.Check.{length_of, claimed_length, head_ok_lem, head_at, rise_at, rises, addresses_rise, check_of};
ghost use Rattle.record.specs.Write.{fits, record_bytes, written, write_of};
ghost use Rattle.record.specs.Few.{most_few, few_entries, is_few, up_to, rise_in};
ghost use Rattle.layout.specs.Record.{header_length, value_length, header, record_length};
ghost use Rattle.refusals.specs.Refusals.{code};
ghost use Rattle.std.proofs.lemmas.List.Edits.{sets};

use lists::all_of;
use refusals::Refusal;

// Document 01, "Record, sizes first": where each field of the header stands.
pub const READS: usize = 0;

pub const WRITES: usize = READS + 2;

pub const COMMIT: usize = WRITES + 2;

pub const TRANSACTION: usize = COMMIT + 4;

pub const STATION: usize = TRANSACTION + 4;

pub const KIND: usize = STATION + 1;

pub const ZEROS: usize = KIND + 1;

pub const LAST_ZERO: usize = ZEROS + 1;

// The header's length: the addresses start right behind it.
pub const HEADER: usize = LAST_ZERO + 1;

// Bytes of a value, and of an entry: an address and a value.
pub const VALUE: usize = 8;

pub const ENTRY: usize = 1 + VALUE;

// The most reads, and the most writes, that a record has; the length of a record with both.
pub const MOST: u32 = 256;

// So many reads, or writes, and fewer are few: they are passed in as many turns whatever their number, the last one again in the
// turns past it. A loop to their number ends in a branch that is often mispredicted, which costs more than the turns.
pub const FEW: usize = 4;

// .. and so many of both.
const FEW_ENTRIES: usize = 2 * FEW;

const MOST_KIND: u32 = kinds::MOST as u32;

pub const LONGEST: usize = HEADER + ENTRY * (2 * MOST as usize);

#[tactic(auto, unfolding(crate::specs::Check::rise_at))]
fn rise_at(s: &[u8], a: usize, i: usize) -> bool
    requires { a + i + 1 < length s.now }
    ensures { result ≡ rise_at s.now a i }
{
    s[a + i] < s[a + i + 1]
}

// How many neighbours n addresses have.
fn pairs(n: usize) -> usize
    ensures { result ≡ n - 1 }
{
    if n == 0 { 0 } else { n - 1 }
}

// Whether there are some, and at most so many.
#[tactic(auto, unfolding(crate::specs::Few::is_few))]
pub fn few(n: usize, most: usize) -> bool
    ensures { result ≡ is_few n most }
{
    (n != 0) & (n <= most)
}

// i, or the last of n where there are no more.
#[tactic(auto, unfolding(crate::specs::Few::up_to))]
pub fn up_to(i: usize, n: usize) -> usize
    requires { 0 < n }
    ensures { (result ≡ up_to i n) × (result < n) }
{
    if i < n {
        return i;
    }
    n - 1
}

// Turn i of n addresses from a: the two rise, or there is no second one.
#[tactic(auto, unfolding(crate::specs::Few::rise_in))]
fn rise_in(s: &[u8], a: usize, n: usize, i: usize) -> bool
    requires { (a + n ≤ length s.now) × (0 < n) × (i < most_few) }
    ensures { result ≡ rise_in s.now a n i }
{
    let first = up_to(i, n);
    let second = up_to(i + 1, n);
    (n <= i + 1) | (s[a + first] < s[a + second])
}

// Whether the n addresses from a, which are few, rise strictly.
#[tactic(auto, using(crate::specs::Few::few_are))]
fn few_rise(s: &[u8], a: usize, n: usize) -> bool
    requires { (a + n ≤ length s.now) × (is_few n most_few ≡ true) }
    ensures { result ≡ rises s.now a n }
{
    all_of(FEW - 1, |i| rise_in(s, a, n, i))
}

// Whether the n addresses from a rise strictly.
#[tactic(auto, unfolding(crate::specs::Check::rises))]
pub fn rises(s: &[u8], a: usize, n: usize) -> bool
    requires { a + n ≤ length s.now }
    ensures { result ≡ rises s.now a n }
{
    if few(n, FEW) {
        return few_rise(s, a, n);
    }
    all_of(pairs(n), |i| rise_at(s, a, i))
}

// The length that a record's own sizes give it.
fn record_length(s: &[u8]) -> usize
    requires { header_length ≤ length s.now }
    ensures { result ≡ length_of s.now }
{
    HEADER + ENTRY * (le::get_u16(s, READS) as usize + le::get_u16(s, WRITES) as usize)
}

// The bytes that the first record of these claims, as far as they tell: a header where that is not whole.
#[tactic(auto, unfolding(crate::specs::Check::claimed_length))]
pub fn claimed_length(bytes: &[u8]) -> usize
    ensures { result ≡ claimed_length bytes.now }
{
    if bytes.len() < HEADER {
        return HEADER;
    }
    record_length(bytes)
}

// The sizes and numbers of a record's header.
#[derive(Clone, Copy)]
struct Head {
    reads: u32,
    writes: u32,
    commit: u32,
    transaction: u32,
    station: u32,
    kind: u32,
}

impl Head {
    // Whether they are in range.
    #[tactic(auto, unfolding(crate::specs::Check::head_ok_lem))]
    fn ok(self) -> bool
        ensures { result ≡ head_ok_lem self.reads self.writes self.transaction self.station self.kind }
    {
        (self.reads <= MOST)
            & (self.writes <= MOST)
            & (self.transaction != 0)
            & (self.station <= 7)
            & (self.kind <= MOST_KIND)
    }

    // Whether these are the addresses and values of a record with this header.
    #[tactic(auto, unfolding(crate::specs::Write::fits))]
    fn fits(self, addresses: &[u8], values: &[u8]) -> bool
        ensures { result ≡ fits self.reads self.writes self.transaction self.station self.kind addresses.now values.now }
    {
        let n = self.reads as usize;
        let m = self.writes as usize;
        if addresses.len() != n + m {
            return false;
        }
        self.ok()
            & (values.len() == VALUE * (n + m))
            & rises(addresses, 0, n)
            & rises(addresses, n, m)
    }

    // The addresses start right behind the header, and the values right behind those: each is written to its own part of the output.
    fn put_record(self, out: &mut [u8], addresses: &[u8], values: &[u8])
        requires { (length addresses.now ≡ self.reads + self.writes) × (length values.now ≡ value_length * (self.reads + self.writes)) × (record_length self.reads self.writes ≤ length out.old) × (self.station < 256) × (self.kind < 256) }
        ensures { out.new ≡ record_bytes self.reads self.writes self.commit self.transaction self.station self.kind addresses.now values.now ++ drop (record_length self.reads self.writes) out.old }
    {
        put_header(
            out,
            self.reads,
            self.writes,
            self.commit,
            self.transaction,
            self.station,
            self.kind,
        );
        let n = addresses.len();
        let a = HEADER + n;
        let e = a + values.len();
        fill_addresses(&mut out[HEADER..a], addresses);
        fill_values(&mut out[a..e], values, n);
    }

    // Writes the record to the start of `out`: `Buffer` where `out` is under its length, then `Record` where the arguments make no
    // record. A refusal changes nothing.
    #[tactic(auto, unfolding(crate::specs::Write::write_of))]
    fn write(self, addresses: &[u8], values: &[u8], out: &mut [u8]) -> Result<(), Refusal>
        ensures { written out.new (code result) ≡ write_of self.reads self.writes self.commit self.transaction self.station self.kind addresses.now values.now out.old }
    {
        if out.len() < HEADER + ENTRY * (self.reads as usize + self.writes as usize) {
            return Err(Refusal::Buffer);
        }
        if !self.fits(addresses, values) {
            return Err(Refusal::Record);
        }
        self.put_record(out, addresses, values);
        Ok(())
    }
}

// Whether a header's numbers are in range and its two last bytes are 0.
#[tactic(auto, unfolding(crate::specs::Check::head_at))]
pub fn head_at(s: &[u8]) -> bool
    requires { header_length ≤ length s.now }
    ensures { result ≡ head_at s.now }
{
    let head = Head {
        reads: le::get_u16(s, READS),
        writes: le::get_u16(s, WRITES),
        commit: le::get_u32(s, COMMIT),
        transaction: le::get_u32(s, TRANSACTION),
        station: u32::from(s[STATION]),
        kind: u32::from(s[KIND]),
    };
    head.ok() & (s[ZEROS] == 0) & (s[LAST_ZERO] == 0)
}

// Whether the addresses of a record whose bytes are all there rise, within its reads and within its writes.
#[tactic(auto, unfolding(crate::specs::Check::addresses_rise))]
fn addresses_rise(s: &[u8]) -> bool
    requires { (header_length ≤ length s.now) × (length_of s.now ≤ length s.now) }
    ensures { result ≡ addresses_rise s.now }
{
    let n = le::get_u16(s, READS) as usize;
    let m = le::get_u16(s, WRITES) as usize;
    rises(s, HEADER, n) & rises(s, HEADER + n, m)
}

// Why the first record of these bytes is refused: `Short` where they end inside it, then `Record` where its layout is broken.
// Any commit number is taken: it is 0 on the way up, and what an archive asks of it is the archive reader's to say.
#[tactic(auto, unfolding(crate::specs::Check::check_of))]
pub fn check(bytes: &[u8]) -> Result<(), Refusal>
    ensures { code result ≡ check_of bytes.now }
{
    if bytes.len() < HEADER {
        return Err(Refusal::Short);
    }
    if bytes.len() < record_length(bytes) {
        return Err(Refusal::Short);
    }
    if head_at(bytes) & addresses_rise(bytes) {
        return Ok(());
    }
    Err(Refusal::Record)
}

// `check` for C: its number, else 0.
pub fn wax_record_check(bytes: &[u8]) -> u32
    ensures { result ≡ check_of bytes.now }
{
    refusals::code(check(bytes))
}

// Copies `from` over all of `to`.
fn fill(to: &mut [u8], from: &[u8])
    requires { length to.old ≡ length from.now }
    ensures { to.new ≡ from.now }
{
    to.copy_from_slice(from);
}

// .. where it is few bytes.
fn fill_few(to: &mut [u8], from: &[u8])
    requires { (length to.old ≡ length from.now) × (is_few (length from.now) few_entries ≡ true) }
    ensures { to.new ≡ from.now }
{
    let n = from.len();
    for i in 0..FEW_ENTRIES {
        let at = up_to(i, n);
        le::put_u8(to, at, from[at]);
    }
}

// .. where it is n values, which are few.
fn fill_few_values(to: &mut [u8], from: &[u8], n: usize)
    requires { (length to.old ≡ length from.now) × (length from.now ≡ value_length * n) × (is_few n few_entries ≡ true) }
    ensures { to.new ≡ from.now }
{
    for i in 0..FEW_ENTRIES {
        let at = VALUE * up_to(i, n);
        le::put_u64(to, at, le::get_u64(from, at));
    }
}

// .. where it is a byte for each entry: its addresses.
fn fill_addresses(to: &mut [u8], from: &[u8])
    requires { length to.old ≡ length from.now }
    ensures { to.new ≡ from.now }
{
    if few(from.len(), FEW_ENTRIES) {
        fill_few(to, from);
        return;
    }
    fill(to, from);
}

// .. where it is the values of n entries.
fn fill_values(to: &mut [u8], from: &[u8], n: usize)
    requires { (length to.old ≡ length from.now) × (length from.now ≡ value_length * n) }
    ensures { to.new ≡ from.now }
{
    if few(n, FEW_ENTRIES) {
        fill_few_values(to, from, n);
        return;
    }
    fill(to, from);
}

// A function for the crates above, whose arguments may not change: the numbers are no `Head` here, nor in `wax_record_write`.
pub fn put_header(
    out: &mut [u8],
    reads: u32,
    writes: u32,
    commit: u32,
    transaction: u32,
    station: u32,
    kind: u32,
)
    requires { (header_length ≤ length out.old) × (station < 256) × (kind < 256) }
    ensures { out.new ≡ sets out.old 0 (header reads writes commit transaction station kind) }
{
    le::put_u16(out, READS, reads);
    le::put_u16(out, WRITES, writes);
    le::put_u32(out, COMMIT, commit);
    le::put_u32(out, TRANSACTION, transaction);
    le::put_u8(out, STATION, station as u8);
    le::put_u8(out, KIND, kind as u8);
    le::put_u8(out, ZEROS, 0);
    le::put_u8(out, LAST_ZERO, 0);
}

// Writes a record to the start of `out`: 1 where `out` is under the record's length, then 5 where the arguments make no
// record, else 0. `values` has 8 bytes for each address, the lowest first. A refusal changes nothing.
pub fn wax_record_write(
    reads: u32,
    writes: u32,
    commit: u32,
    transaction: u32,
    station: u32,
    kind: u32,
    addresses: &[u8],
    values: &[u8],
    out: &mut [u8],
) -> u32
    ensures { written out.new result ≡ write_of reads writes commit transaction station kind addresses.now values.now out.old }
{
    let head = Head {
        reads,
        writes,
        commit,
        transaction,
        station,
        kind,
    };
    refusals::code(head.write(addresses, values, out))
}
