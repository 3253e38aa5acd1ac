#![tactic(auto)]
// The archive reader of document 01: records of a lent archive, one behind the other, and the parts of one record.
ghost use Rattle.std.specs.Prelude.{◌≡◌, ◌+◌, ◌*◌, ◌^◌, ◌≤◌, ◌<◌, eqb, length, drop};
ghost use Rattle.std.proofs.lemmas.List.Edits.{sets};
ghost use Rattle.record.specs.Check.{length_of};
ghost use Rattle.refusals.specs.Refusals.{code};
ghost use Rattle.archive.specs.Read.{fields_of, read_of};
ghost use Rattle.archive.specs.Answered.{answer_of};
ghost use Rattle.archive.specs.Parts.{holds_at, address_part, value_part, entry_of};
ghost use Rattle.archive.specs.Told.{told, field_list, fields_length, told_read_of, told_entry_of};
ghost use Rattle.layout.specs.Record.{header_length};

use refusals::Refusal;

// Where C is told each number of a record, and how many they are.
const END: usize = 0;

const READS: usize = END + 1;

const WRITES: usize = READS + 1;

const COMMIT: usize = WRITES + 1;

const TRANSACTION: usize = COMMIT + 1;

const STATION: usize = TRANSACTION + 1;

const KIND: usize = STATION + 1;

const FIELDS: usize = KIND + 1;

// .. and of an entry.
pub const ADDRESS: usize = 0;

pub const VALUE: usize = ADDRESS + 1;

pub const ENTRY_FIELDS: usize = VALUE + 1;

// A record's fields, with the positions where it starts and ends.
#[derive(Clone, Copy)]
pub struct Fields {
    pub at: usize,
    pub end: usize,
    pub reads: u32,
    pub writes: u32,
    pub commit: u32,
    pub transaction: u32,
    pub station: u32,
    pub kind: u32,
}

// What stands at a position of an archive: a `Result<Option<Fields>, Refusal>` with a refusal's number, as theorems name it: `recorded`
// of this crate, `replay_read` of replay and those above them.
#[derive(Clone, Copy)]
pub enum Answer {
    Record(Fields),
    End,
    Refused(u32),
}

impl From<Result<Option<Fields>, Refusal>> for Answer {
    ghost from_gives = { λ r a. a ≡ answer_of r };

    fn from(found: Result<Option<Fields>, Refusal>) -> Answer {
        match found {
            Ok(Some(f)) => Answer::Record(f),
            Ok(None) => Answer::End,
            Err(why) => Answer::Refused(why.number()),
        }
    }
}

// An entry of a record: an `Option` as the theorem `Shown` of archive_meaning names it.
#[derive(Clone, Copy)]
pub enum Found {
    Entry { address: u8, value: u64 },
    Nothing,
}

// Whether a commit number is one more than the last.
pub fn follows(last: u32, commit: u32) -> bool
    ensures { result ≡ eqb commit (last + 1) }
{
    commit as u64 == last as u64 + 1
}

// The fields of the record that starts at `at`; `part` is the archive from there on.
#[tactic(auto, unfolding(crate::specs::Read::fields_of))]
fn fields_at(part: &[u8], at: usize) -> Fields
    requires { (header_length ≤ length part.now) × (at + length_of part.now < 2 ^ 64) }
    ensures { result ≡ fields_of part.now at }
{
    let reads = le::get_u16(part, record::READS);
    let writes = le::get_u16(part, record::WRITES);
    Fields {
        at,
        end: at + (record::HEADER + record::ENTRY * (reads as usize + writes as usize)),
        reads,
        writes,
        commit: le::get_u32(part, record::COMMIT),
        transaction: le::get_u32(part, record::TRANSACTION),
        station: u32::from(part[record::STATION]),
        kind: u32::from(part[record::KIND]),
    }
}

// The record at position `at` of an archive whose last commit number before it is `last`, or none at its end.
#[tactic(auto, using(record::specs::Facts::accepted), unfolding(crate::specs::Read::first_of, crate::specs::Read::read_of))]
pub fn record_at(archive: &[u8], at: usize, last: u32) -> Result<Option<Fields>, Refusal>
    ensures { answer_of result ≡ read_of archive.now at last }
{
    if archive.len() < at {
        return Err(Refusal::Short);
    }
    if at == archive.len() {
        return Ok(None);
    }
    let part = &archive[at..];
    record::check(part)?;
    if !follows(last, le::get_u32(part, record::COMMIT)) {
        return Err(Refusal::Sequence);
    }
    Ok(Some(fields_at(part, at)))
}

// `record_at` as an `Answer`.
pub fn read(archive: &[u8], at: usize, last: u32) -> Answer
    ensures { result ≡ read_of archive.now at last }
{
    Answer::from(record_at(archive, at, last))
}

// Whether a record of so many entries at `at` ends within the archive.
#[tactic(auto, unfolding(crate::specs::Parts::holds_at))]
fn holds(archive: &[u8], at: usize, entries: u32) -> bool
    ensures { result ≡ holds_at archive.now at entries }
{
    if archive.len() < at {
        return false;
    }
    record::HEADER + record::ENTRY * (entries as usize) <= archive.len() - at
}

// The addresses of the record of so many entries at `at`, reads first: that part of the archive itself. Empty where there is none.
#[tactic(auto, using(crate::specs::Facts::holds), unfolding(crate::specs::Parts::address_part))]
pub fn address_part(archive: &[u8], at: usize, entries: u32) -> &[u8]
    ensures { result.now ≡ address_part archive.now at entries }
{
    if !holds(archive, at, entries) {
        return &archive[..0];
    }
    let a = at + record::HEADER;
    let e = a + entries as usize;
    &archive[a..e]
}

// Its values, 8 bytes for each address: that part of the archive itself. Empty where there is none.
#[tactic(auto, using(crate::specs::Facts::holds), unfolding(crate::specs::Parts::value_part))]
pub fn value_part(archive: &[u8], at: usize, entries: u32) -> &[u8]
    ensures { result.now ≡ value_part archive.now at entries }
{
    if !holds(archive, at, entries) {
        return &archive[..0];
    }
    let k = entries as usize;
    let a = at + record::HEADER + k;
    let e = a + record::VALUE * k;
    &archive[a..e]
}

// Entry i of the record of so many entries at `at`.
#[tactic(auto, using(crate::specs::Facts::holds), unfolding(crate::specs::Parts::entry_of))]
pub fn entry(archive: &[u8], at: usize, entries: u32, i: u32) -> Found
    ensures { result ≡ entry_of archive.now at entries i }
{
    if !holds(archive, at, entries) {
        return Found::Nothing;
    }
    if entries <= i {
        return Found::Nothing;
    }
    let start = at + record::HEADER;
    Found::Entry {
        address: archive[start + i as usize],
        value: le::get_u64(
            archive,
            start + entries as usize + record::VALUE * (i as usize),
        ),
    }
}

fn put_fields(out: &mut [u64], f: Fields)
    requires { fields_length ≤ length out.old }
    ensures { out.new ≡ sets out.old 0 (field_list f) }
{
    out[END] = f.end as u64;
    out[READS] = u64::from(f.reads);
    out[WRITES] = u64::from(f.writes);
    out[COMMIT] = u64::from(f.commit);
    out[TRANSACTION] = u64::from(f.transaction);
    out[STATION] = u64::from(f.station);
    out[KIND] = u64::from(f.kind);
}

// A record's end, reads, writes, commit, transaction, station and kind, put to the first seven places of `out`.
#[tactic(auto, unfolding(crate::specs::Told::told_read_of))]
fn tell_record(archive: &[u8], at: usize, last: u32, out: &mut [u64]) -> Result<(), Refusal>
    ensures { told out.new (code result) ≡ told_read_of archive.now at last out.old }
{
    if out.len() < FIELDS {
        return Err(Refusal::Buffer);
    }
    match record_at(archive, at, last)? {
        Some(f) => {
            put_fields(out, f);
            Ok(())
        }
        None => Err(Refusal::End),
    }
}

// `read` for C. A record's end, reads, writes, commit, transaction, station and kind go to the first seven places of `out`:
// 1 where it has fewer, 255 at the end of the archive, else the number of document 01. Only 0 changes `out`.
pub fn wax_archive_read(archive: &[u8], at: usize, last: u32, out: &mut [u64]) -> u32
    ensures { told out.new result ≡ told_read_of archive.now at last out.old }
{
    refusals::code(tell_record(archive, at, last, out))
}

// An entry's address and value, put to the first two places of `out`.
#[tactic(auto, unfolding(crate::specs::Told::told_entry_of))]
fn tell_entry(
    archive: &[u8],
    at: usize,
    entries: u32,
    i: u32,
    out: &mut [u64],
) -> Result<(), Refusal>
    ensures { told out.new (code result) ≡ told_entry_of archive.now at entries i out.old }
{
    if out.len() < ENTRY_FIELDS {
        return Err(Refusal::Buffer);
    }
    let Found::Entry { address, value } = entry(archive, at, entries, i) else {
        return Err(Refusal::End);
    };
    out[ADDRESS] = address as u64;
    out[VALUE] = value;
    Ok(())
}

// `entry` for C. Its address and value go to the first two places of `out`: 1 where it has fewer, 255 where there is no
// such entry. Only 0 changes `out`.
pub fn wax_archive_entry(archive: &[u8], at: usize, entries: u32, i: u32, out: &mut [u64]) -> u32
    ensures { told out.new result ≡ told_entry_of archive.now at entries i out.old }
{
    refusals::code(tell_entry(archive, at, entries, i, out))
}
