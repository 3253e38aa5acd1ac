#![tactic(auto)]
// Document 02's blocks: reading one gives its records back, one behind the other; a look-up gives one of them. Both check the block first.
ghost use Rattle.std.specs.Prelude.{◌≡◌, true, ◌+◌, ◌-◌, ◌*◌, ◌≤◌, ◌<◌, length};
ghost use Rattle.std.proofs.lemmas.List.Edits.{sets};
ghost use Rattle.layout.specs.Record.{header_length, value_length, entry_length};
ghost use Rattle.record.specs.Write.{written};
ghost use Rattle.block.specs.Places.{counts_length, record_count, header_at, size_at};
ghost use Rattle.block.specs.Check.{counts_agree};
ghost use Rattle.block_reader.specs.Read.{row, rows, record_at, record_in, records_to, block_read_of, block_record_of};
ghost use Rattle.refusals.specs.Refusals.{code};

use refusals::Refusal;

// One value: a byte of each plane, from the value's place p in the first one on; the planes are t bytes long.
fn put_row(to: &mut [u8], at: usize, b: &[u8], p: usize, t: usize)
    requires { (at + value_length ≤ length to.old) × (p + 7 * t < length b.now) }
    ensures { to.new ≡ sets to.old at (row b.now p t) }
{
    for k in 0..record::VALUE {
        let q = block::plane_at(p, t, k);
        to[at + k] = b[q];
    }
}

fn put_rows(to: &mut [u8], at: usize, b: &[u8], p: usize, t: usize, n: usize)
    requires { (at + value_length * n ≤ length to.old) × (p + n + 7 * t ≤ length b.now) }
    ensures { to.new ≡ sets to.old at (rows b.now p t n) }
{
    for i in 0..n {
        put_row(to, at + record::VALUE * i, b, p + i, t);
    }
}

// A record of k entries out of a block: its header starts at h, its addresses at a, its values at p in the first plane.
fn put_record(to: &mut [u8], at: usize, b: &[u8], h: usize, a: usize, p: usize, t: usize, k: usize)
    requires { (at + header_length + entry_length * k ≤ length to.old) × (h + header_length ≤ length b.now) × (a + k ≤ length b.now) × (p + k + 7 * t ≤ length b.now) }
    ensures { to.new ≡ sets to.old at (record_at b.now h a p t k) }
{
    block::copy_part(to, at, b, h, record::HEADER);
    block::copy_part(to, at + record::HEADER, b, a, k);
    put_rows(to, at + record::HEADER + k, b, p, t, k);
}

// All records of a block whose counts agree, one behind the other.
fn put_records(to: &mut [u8], b: &[u8])
    requires { (counts_agree b.now ≡ true) × (length b.now ≤ length to.old + counts_length) }
    ensures { to.new ≡ sets to.old 0 (records_to b.now (record_count b.now)) }
{
    let c = le::get_u16(b, block::RECORD_COUNT) as usize;
    let t = le::get_u16(b, block::ENTRY_TOTAL) as usize;
    let a = block::header_at(c);
    let mut q: usize = 0;
    for i in 0..c {
        let h = block::header_at(i);
        let k = block::size_at(b, h);
        put_record(
            to,
            record::HEADER * i + record::ENTRY * q,
            b,
            h,
            a + q,
            a + t + q,
            t,
            k,
        );
        q += k;
    }
}

// The record at a place of a block whose counts agree.
fn put_at(to: &mut [u8], b: &[u8], place: usize)
    requires { (counts_agree b.now ≡ true) × (place < record_count b.now) × (header_length + entry_length * size_at b.now (header_at place) ≤ length to.old) }
    ensures { to.new ≡ sets to.old 0 (record_in b.now place) }
{
    let c = le::get_u16(b, block::RECORD_COUNT) as usize;
    let t = le::get_u16(b, block::ENTRY_TOTAL) as usize;
    let a = block::header_at(c);
    let q = block::entries_to(b, place);
    let h = block::header_at(place);
    let k = block::size_at(b, h);
    put_record(to, 0, b, h, a + q, a + t + q, t, k);
}

// The bytes of the records in a block of so many bytes.
fn records_length(n: usize) -> usize
    ensures { result ≡ n - counts_length }
{
    if n < block::COUNTS {
        0
    } else {
        n - block::COUNTS
    }
}

// Reads a block: its records, one behind the other, at the start of `out`. A refusal changes nothing.
fn read(block: &[u8], out: &mut [u8]) -> Result<(), Refusal>
    ensures { written out.new (code result) ≡ block_read_of block.now out.old }
{
    if out.len() < records_length(block.len()) {
        return Err(Refusal::Buffer);
    }
    block::check(block)?;
    put_records(out, block);
    Ok(())
}

// Looks up the record at a place of a block. A refusal changes nothing.
fn look_up(block: &[u8], place: usize, out: &mut [u8]) -> Result<(), Refusal>
    ensures { written out.new (code result) ≡ block_record_of block.now place out.old }
{
    if out.len() < record::LONGEST {
        return Err(Refusal::Buffer);
    }
    block::check_place(block, place)?;
    put_at(out, block, place);
    Ok(())
}

// Reads a block: its records, one behind the other, at the start of `out`. 1 where `out` is under the block's length less 4; 21 where
// the block has not 1 to 64 records, or its counts disagree with each other or with its length; 5 where a record breaks a record's
// rules, else 0. A refusal changes nothing.
pub fn wax_block_read(block: &[u8], out: &mut [u8]) -> u32
    ensures { written out.new result ≡ block_read_of block.now out.old }
{
    refusals::code(read(block, out))
}

// Looks up the record at a place of a block, from 0: at the start of `out`, as reading the whole block would give it, and nothing else
// is put together. 1 where `out` is under 4,624 bytes; 21 as for reading, and where the block has no such place; then 5 where any
// record of the block breaks a record's rules, else 0. A refusal changes nothing.
pub fn wax_block_record(block: &[u8], place: u32, out: &mut [u8]) -> u32
    ensures { written out.new result ≡ block_record_of block.now place out.old }
{
    refusals::code(look_up(block, place as usize, out))
}
