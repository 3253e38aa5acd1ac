#![tactic(auto)]
// Document 02's blocks: writing one. The records are checked first, one behind the other; then one pass puts headers and addresses, and
// another the values' bytes into the eight planes. Nothing of a block is kept beside the output.
ghost use Rattle.std.specs.Prelude.{◌≡◌, ◌∷◌, [], ◌+◌, ◌*◌, ◌≤◌, ◌<◌, length, take, drop, get_or};
ghost use Rattle.std.proofs.lemmas.List.Edits.{sets};
ghost use Rattle.layout.specs.Record.{header_length, value_length, most_entries};
ghost use Rattle.record.specs.Write.{written};
ghost use Rattle.block.specs.Block.{most_records, joined};
ghost use Rattle.block.specs.Places.{counts_length, header_at, planes_at, block_length};
ghost use Rattle.block_writer.specs.Write.{Finds, scan_of, start_of, entries_in, headers_to, addresses_to, column, plane_to, packed, block_write_of};
ghost use Rattle.block_writer.specs.Stripes.{stripes};
ghost use Rattle.refusals.specs.Refusals.{code};

use refusals::Refusal;

// How many records and entries there are.
#[derive(Clone, Copy)]
struct Counts {
    records: usize,
    entries: usize,
}

// Counts records, one behind the other, each checked: refused with 21 where there is no record or a 65th, else with what record check
// says of the first record that it refuses. Where the next record starts is known only behind that check.
fn scan(s: &[u8]) -> Result<Counts, Refusal>
    ensures { Finds result (scan_of s.now) }
{
    if s.len() == 0 {
        return Err(Refusal::Block);
    }
    let mut at = 0;
    let mut count: usize = 0;
    let mut total: usize = 0;
    while at < s.len() {
        if count == block::RECORDS {
            return Err(Refusal::Block);
        }
        record::check(&s[at..])?;
        let k = block::size_at(s, at);
        at += record::HEADER + record::ENTRY * k;
        total += k;
        count += 1;
    }
    Ok(Counts {
        records: count,
        entries: total,
    })
}

// One value, a byte to each plane, from the value's place p in the first one on; the planes are t bytes long.
fn put_value(to: &mut [u8], p: usize, t: usize, s: &[u8], a: usize)
    requires { (p + 7 * t < length to.old) × (a + value_length ≤ length s.now) }
    ensures { to.new ≡ stripes value_length to.old p t (λ k. get_or s.now (a + k) 0 ∷ []) }
{
    for k in 0..record::VALUE {
        let q = block::plane_at(p, t, k);
        to[q] = s[a + k];
    }
}

fn put_values(to: &mut [u8], p: usize, t: usize, s: &[u8], a: usize, n: usize)
    requires { (n ≤ t) × (p + n + 7 * t ≤ length to.old) × (a + value_length * n ≤ length s.now) }
    ensures { to.new ≡ stripes value_length to.old p t (λ k. column s.now (a + k) n) }
{
    for i in 0..n {
        put_value(to, p + i, t, s, a + record::VALUE * i);
    }
}

// Header and addresses of the record of k entries that starts at `at`, to their places.
fn put_head(to: &mut [u8], h: usize, a: usize, s: &[u8], at: usize, k: usize)
    requires { (h + header_length ≤ length to.old) × (a + k ≤ length to.old) × (at + header_length + k ≤ length s.now) }
    ensures { to.new ≡ sets (sets to.old h (take header_length (drop at s.now))) a (take k (drop (at + header_length) s.now)) }
{
    block::copy_part(to, h, s, at, record::HEADER);
    block::copy_part(to, a, s, at + record::HEADER, k);
}

// Headers and addresses of the first c records, in one pass.
fn put_heads(to: &mut [u8], s: &[u8], c: usize)
    requires { (c ≤ most_records) × (start_of s.now c ≤ length s.now) × (length s.now + counts_length ≤ length to.old) }
    ensures { to.new ≡ sets (sets to.old counts_length (headers_to s.now c)) (header_at c) (addresses_to s.now c) }
{
    let a = block::header_at(c);
    let mut at: usize = 0;
    let mut q: usize = 0;
    for i in 0..c {
        let k = block::size_at(s, at);
        put_head(to, block::header_at(i), a + q, s, at, k);
        at += record::HEADER + record::ENTRY * k;
        q += k;
    }
}

// The values of the first c records, t in all, in their planes.
fn put_planes(to: &mut [u8], s: &[u8], c: usize, t: usize)
    requires { (c ≤ most_records) × (start_of s.now c ≤ length s.now) × (entries_in s.now c ≡ t) × (block_length c t ≤ length to.old) }
    ensures { to.new ≡ sets to.old (planes_at c t) (joined (plane_to s.now c) value_length) }
{
    let p = block::header_at(c) + t;
    let mut at: usize = 0;
    let mut q: usize = 0;
    for i in 0..c {
        let k = block::size_at(s, at);
        put_values(to, p + q, t, s, at + record::HEADER + k, k);
        at += record::HEADER + record::ENTRY * k;
        q += k;
    }
}

// The block of c records with t entries.
fn put_block(to: &mut [u8], s: &[u8], c: usize, t: usize)
    requires { (c ≤ most_records) × (start_of s.now c ≡ length s.now) × (entries_in s.now c ≡ t) × (t ≤ most_records * (2 * most_entries)) × (length s.now + counts_length ≤ length to.old) }
    ensures { to.new ≡ sets to.old 0 (packed s.now c t) }
{
    le::put_u16(to, block::RECORD_COUNT, c as u32);
    le::put_u16(to, block::ENTRY_TOTAL, t as u32);
    put_heads(to, s, c);
    put_planes(to, s, c, t);
}

// Writes these records, one behind the other, as a block to the start of `out`. A refusal changes nothing.
fn write(records: &[u8], out: &mut [u8]) -> Result<(), Refusal>
    ensures { written out.new (code result) ≡ block_write_of records.now out.old }
{
    if out.len() < records.len() + block::COUNTS {
        return Err(Refusal::Buffer);
    }
    let found = scan(records)?;
    put_block(out, records, found.records, found.entries);
    Ok(())
}

// Writes these records, one behind the other, as a block to the start of `out`. 1 where `out` is under their length plus 4; 21 where there
// is no record; then record by record 21 at a 65th, 12 where the bytes end inside it, 5 where it breaks a record's rules; else 0. Any
// commit numbers are taken. A refusal changes nothing.
pub fn wax_block_write(records: &[u8], out: &mut [u8]) -> u32
    ensures { written out.new result ≡ block_write_of records.now out.old }
{
    refusals::code(write(records, out))
}
