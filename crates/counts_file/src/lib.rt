#![tactic(auto)]
// The reader of a counts file (docs/COUNTS.md): the counts of an archive's records, one behind the other.
ghost use Rattle.std.specs.Prelude.{◌≡◌, ◌+◌, ◌≤◌, length};
ghost use Rattle.record.specs.Check.{rises};
ghost use Rattle.refusals.specs.Refusals.{code};
ghost use Rattle.archive.specs.Told.{told};
ghost use Rattle.counts_file.specs.Answered.{next_of};
ghost use Rattle.counts_file.specs.File.{check_counts, holds_counts, counts_read, counts_entry, told_counts_read, told_counts_entry};

use refusals::Refusal;

// Where C is told each number of a record's counts, and how many they are.
const END: usize = 0;

const WRITES: usize = END + 1;

const COMMIT: usize = WRITES + 1;

const COUNTS_FIELDS: usize = COMMIT + 1;

// Where the counts of a record end, how many objects it writes, and its commit number.
#[derive(Clone, Copy)]
pub struct Counted {
    pub end: usize,
    pub writes: u32,
    pub commit: u32,
}

// What stands at a position of a counts file: a `Result<Option<Counted>, Refusal>` as the theorem `ReadThere` of counts_meaning names it,
// with a refusal's number.
#[derive(Clone, Copy)]
pub enum Next {
    Counts(Counted),
    End,
    Refused(u32),
}

impl From<Result<Option<Counted>, Refusal>> for Next {
    ghost from_gives = { λ r n. n ≡ next_of r };

    fn from(found: Result<Option<Counted>, Refusal>) -> Next {
        match found {
            Ok(Some(c)) => Next::Counts(c),
            Ok(None) => Next::End,
            Err(why) => Next::Refused(why.number()),
        }
    }
}

// An address written, and its value: an `Option` as the theorem `ReadThere` of counts_meaning names it.
#[derive(Clone, Copy)]
pub enum Written {
    Entry { address: u8, value: u64 },
    Nothing,
}

// Whether the n addresses from a rise strictly. One is nothing to compare, and many counts have no more.
#[tactic(auto, unfolding(record::specs::Check::rises, record::specs::Check::rise_at))]
fn rises(s: &[u8], a: usize, n: usize) -> bool
    requires { a + n ≤ length s.now }
    ensures { result ≡ rises s.now a n }
{
    if n < 2 {
        return true;
    }
    record::rises(s, a, n)
}

// Why the first counts of these bytes are refused: `Short` where they end inside them, then `Record` where they write more than 256
// objects or their addresses do not rise strictly.
#[tactic(auto, unfolding(crate::specs::File::check_counts))]
fn check(bytes: &[u8]) -> Result<(), Refusal>
    ensures { code result ≡ check_counts bytes.now }
{
    if bytes.len() < counts::HEADER {
        return Err(Refusal::Short);
    }
    let writes = le::get_u16(bytes, counts::WRITES);
    let m = writes as usize;
    if bytes.len() < counts::HEADER + record::ENTRY * m {
        return Err(Refusal::Short);
    }
    if (writes <= record::MOST) & rises(bytes, counts::HEADER, m) {
        return Ok(());
    }
    Err(Refusal::Record)
}

// The counts at position `at` of a counts file whose last commit number before it is `last`, or none at its end.
#[tactic(auto, using(crate::specs::Facts::accepted), unfolding(crate::specs::File::first_counts, crate::specs::File::counts_read, crate::specs::File::counted_of))]
fn counts_at(file: &[u8], at: usize, last: u32) -> Result<Option<Counted>, Refusal>
    ensures { next_of result ≡ counts_read file.now at last }
{
    if file.len() < at {
        return Err(Refusal::Short);
    }
    if at == file.len() {
        return Ok(None);
    }
    let part = &file[at..];
    check(part)?;
    let commit = le::get_u32(part, counts::COMMIT);
    if !archive::follows(last, commit) {
        return Err(Refusal::Sequence);
    }
    let writes = le::get_u16(part, counts::WRITES);
    Ok(Some(Counted {
        end: at + (counts::HEADER + record::ENTRY * (writes as usize)),
        writes,
        commit,
    }))
}

// What stands at position `at` of a counts file whose last commit number before it is `last`.
pub fn read(file: &[u8], at: usize, last: u32) -> Next
    ensures { result ≡ counts_read file.now at last }
{
    Next::from(counts_at(file, at, last))
}

// Whether the counts of so many writes at `at` end within the file.
// `holds` and `entry` are not those of `archive`: the header has another length, and theorems name `holds_counts` and `counts_entry`.
#[tactic(auto, unfolding(crate::specs::File::holds_counts))]
fn holds(file: &[u8], at: usize, writes: u32) -> bool
    ensures { result ≡ holds_counts file.now at writes }
{
    if file.len() < at {
        return false;
    }
    counts::HEADER + record::ENTRY * (writes as usize) <= file.len() - at
}

// Write i of the counts of so many writes at `at`.
#[tactic(auto, using(crate::specs::Facts::holds), unfolding(crate::specs::File::counts_entry))]
pub fn entry(file: &[u8], at: usize, writes: u32, i: u32) -> Written
    ensures { result ≡ counts_entry file.now at writes i }
{
    if !holds(file, at, writes) {
        return Written::Nothing;
    }
    if writes <= i {
        return Written::Nothing;
    }
    let start = at + counts::HEADER;
    Written::Entry {
        address: file[start + i as usize],
        value: le::get_u64(file, start + writes as usize + record::VALUE * (i as usize)),
    }
}

// Where the counts end, their writes and their commit number, put to the first three places of `out`.
#[tactic(auto, unfolding(crate::specs::File::told_counts_read))]
fn tell_counts(file: &[u8], at: usize, last: u32, out: &mut [u64]) -> Result<(), Refusal>
    ensures { told out.new (code result) ≡ told_counts_read file.now at last out.old }
{
    if out.len() < COUNTS_FIELDS {
        return Err(Refusal::Buffer);
    }
    match counts_at(file, at, last)? {
        Some(c) => {
            out[END] = c.end as u64;
            out[WRITES] = u64::from(c.writes);
            out[COMMIT] = u64::from(c.commit);
            Ok(())
        }
        None => Err(Refusal::End),
    }
}

// `read` for C. Where the counts end, their writes and their commit number go to the first three places of `out`: 1 where it has
// fewer, 255 at the end of the file, else the number of document 01. Only 0 changes `out`.
pub fn wax_counts_read(file: &[u8], at: usize, last: u32, out: &mut [u64]) -> u32
    ensures { told out.new result ≡ told_counts_read file.now at last out.old }
{
    refusals::code(tell_counts(file, at, last, out))
}

// A write's address and value, put to the first two places of `out`.
#[tactic(auto, unfolding(crate::specs::File::told_counts_entry))]
fn tell_entry(file: &[u8], at: usize, writes: u32, i: u32, out: &mut [u64]) -> Result<(), Refusal>
    ensures { told out.new (code result) ≡ told_counts_entry file.now at writes i out.old }
{
    if out.len() < archive::ENTRY_FIELDS {
        return Err(Refusal::Buffer);
    }
    let Written::Entry { address, value } = entry(file, at, writes, i) else {
        return Err(Refusal::End);
    };
    out[archive::ADDRESS] = address as u64;
    out[archive::VALUE] = value;
    Ok(())
}

// `entry` for C. Its address and value go to the first two places of `out`: 1 where it has fewer, 255 where there is no such write.
// Only 0 changes `out`.
pub fn wax_counts_entry(file: &[u8], at: usize, writes: u32, i: u32, out: &mut [u64]) -> u32
    ensures { told out.new result ≡ told_counts_entry file.now at writes i out.old }
{
    refusals::code(tell_entry(file, at, writes, i, out))
}
