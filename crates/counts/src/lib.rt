#![tactic(auto)]
// The counts of a record (docs/COUNTS.md): its commit number, the addresses that it writes and their values, in a layout of their own.
ghost use Rattle.std.specs.Prelude.{◌≡◌, ◌+◌, ◌≤◌, length};
ghost use Rattle.std.proofs.lemmas.List.Edits.{sets};
ghost use Rattle.layout.specs.Record.{header_length};
ghost use Rattle.record.specs.Check.{write_count, length_of};
ghost use Rattle.refusals.specs.Refusals.{code};
ghost use Rattle.counts.specs.Counts.{counts_header_length, counts_length, counts_head, counts_on};
ghost use Rattle.counts.specs.Record.{shown, record_counts};

use refusals::Refusal;

// docs/COUNTS.md, "The layout": where each field of the header stands.
pub const COMMIT: usize = 0;

pub const WRITES: usize = COMMIT + 4;

// The header's length: the addresses start right behind it.
pub const HEADER: usize = WRITES + 2;

// The most bytes that a record's counts take.
pub const LONGEST: usize = HEADER + record::ENTRY * record::MOST as usize;

// Copies `from` to the places from `at` on.
fn put_part(out: &mut [u8], at: usize, from: &[u8])
    requires { at + length from.now ≤ length out.old }
    ensures { out.new ≡ sets out.old at from.now }
{
    let e = at + from.len();
    out[at..e].copy_from_slice(from);
}

fn put_head(out: &mut [u8], commit: u32, writes: u32)
    requires { counts_header_length ≤ length out.old }
    ensures { out.new ≡ sets out.old 0 (counts_head commit writes) }
{
    le::put_u32(out, COMMIT, commit);
    le::put_u16(out, WRITES, writes);
}

// Puts the counts of the record at the start of `part` at the start of `out`.
pub fn put_counts(part: &[u8], out: &mut [u8])
    requires { (header_length ≤ length part.now) × (length_of part.now ≤ length part.now) × (counts_length (write_count part.now) ≤ length out.old) }
    ensures { out.new ≡ counts_on part.now out.old }
{
    let n = le::get_u16(part, record::READS) as usize;
    let writes = le::get_u16(part, record::WRITES);
    let m = writes as usize;
    put_head(out, le::get_u32(part, record::COMMIT), writes);
    let a = record::HEADER + n;
    let b = a + m;
    put_part(out, HEADER, &part[a..b]);
    let v = b + record::VALUE * n;
    let e = v + record::VALUE * m;
    put_part(out, HEADER + m, &part[v..e]);
}

// Plays the first record of these bytes on lent values behind a lent last commit number, and puts its counts at the start of `out`:
// `Buffer` where `out` has no room for the longest, `Short` also for no bytes. A refusal changes nothing.
#[tactic(auto, unfolding(crate::specs::Record::record_counts))]
fn show_record(
    bytes: &[u8],
    values: &mut [u64; 256],
    last: &mut u32,
    out: &mut [u8],
) -> Result<(), Refusal>
    ensures { shown values.new last.new out.new (code result) ≡ record_counts bytes.now last.old values.old out.old }
{
    if out.len() < LONGEST {
        return Err(Refusal::Buffer);
    }
    let before = *last;
    match replay::replay_at(bytes, 0, before, values)? {
        Some(f) => {
            put_counts(bytes, out);
            *last = f.commit;
            Ok(())
        }
        None => Err(Refusal::Short),
    }
}

// `show_record` for C: 1 where `out` has no room for the longest counts, 12 (also for no bytes), 5, 13 or 14, else 0.
pub fn wax_counts_record(
    bytes: &[u8],
    values: &mut [u64; 256],
    last: &mut u32,
    out: &mut [u8],
) -> u32
    ensures { shown values.new last.new out.new result ≡ record_counts bytes.now last.old values.old out.old }
{
    refusals::code(show_record(bytes, values, last, out))
}
