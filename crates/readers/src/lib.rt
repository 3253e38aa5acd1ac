#![tactic(auto)]
// One archive, two readers (document 02, wish 8): the counts reader shows commit number, addresses written and values, the service
// reader all fields. Both read the record of a commit, or the first record of some bytes, and give numbers 5 and 12 to 14 alike.
ghost use Rattle.std.specs.Prelude.{◌≡◌, ◌≤◌, length};
ghost use Rattle.std.proofs.lemmas.List.Edits.{sets};
ghost use Rattle.archive.specs.Told.{told};
ghost use Rattle.counts.specs.Record.{shown};
ghost use Rattle.refusals.specs.Refusals.{code};
ghost use Rattle.readers.specs.Readers.{service_length, service_list, counts_at, service_at, record_service};

use archive::Fields;
use refusals::Refusal;

// Where the service reader puts each number of a record, and how many they are.
pub const START: usize = 0;

pub const END: usize = START + 1;

pub const READS: usize = END + 1;

pub const WRITES: usize = READS + 1;

pub const COMMIT: usize = WRITES + 1;

pub const TRANSACTION: usize = COMMIT + 1;

pub const STATION: usize = TRANSACTION + 1;

pub const KIND: usize = STATION + 1;

pub const SERVICE: usize = KIND + 1;

// Its places are this reader's own, one behind those of `archive`, as `service_list` has them.
fn put_service(out: &mut [u64], f: Fields)
    requires { service_length ≤ length out.old }
    ensures { out.new ≡ sets out.old 0 (service_list f) }
{
    out[START] = f.at as u64;
    out[END] = f.end as u64;
    out[READS] = u64::from(f.reads);
    out[WRITES] = u64::from(f.writes);
    out[COMMIT] = u64::from(f.commit);
    out[TRANSACTION] = u64::from(f.transaction);
    out[STATION] = u64::from(f.station);
    out[KIND] = u64::from(f.kind);
}

// The counts reader. The counts of the record of this commit go to the start of `out`: `Buffer` where `out` has no room for the longest,
// then why the archive is refused at this commit or before it, `End` where it has none of this number. A refusal changes nothing.
fn show_counts(archive: &[u8], commit: u32, out: &mut [u8]) -> Result<(), Refusal>
    ensures { told out.new (code result) ≡ counts_at archive.now commit out.old }
{
    if out.len() < counts::LONGEST {
        return Err(Refusal::Buffer);
    }
    match seek::find(archive, commit)? {
        Some(f) => {
            let at = f.at;
            counts::put_counts(&archive[at..], out);
            Ok(())
        }
        None => Err(Refusal::End),
    }
}

// `show_counts` for C: 1 where `out` has no room for the longest counts, 12, 5, 13 or 14 where the archive is refused at this commit or
// before it, 255 where it has none of this number. Only 0 changes `out`.
pub fn wax_counts_at(archive: &[u8], commit: u32, out: &mut [u8]) -> u32
    ensures { told out.new result ≡ counts_at archive.now commit out.old }
{
    refusals::code(show_counts(archive, commit, out))
}

// The service reader. Where the record of this commit starts and ends, its reads, writes, commit, transaction, station and kind go to
// the first eight places of `out`: `Buffer` where it has fewer, else as the counts reader.
fn show_service(archive: &[u8], commit: u32, out: &mut [u64]) -> Result<(), Refusal>
    ensures { told out.new (code result) ≡ service_at archive.now commit out.old }
{
    if out.len() < SERVICE {
        return Err(Refusal::Buffer);
    }
    match seek::find(archive, commit)? {
        Some(f) => {
            put_service(out, f);
            Ok(())
        }
        None => Err(Refusal::End),
    }
}

// `show_service` for C: 1 where `out` has fewer than eight places, else the counts reader's numbers. Only 0 changes `out`.
pub fn wax_service_at(archive: &[u8], commit: u32, out: &mut [u64]) -> u32
    ensures { told out.new result ≡ service_at archive.now commit out.old }
{
    refusals::code(show_service(archive, commit, out))
}

// The service reader of the first record of these bytes, played on lent values behind a lent last commit number: its eight numbers go
// to the start of `out`. `Buffer` where `out` has fewer places, `Short` also for no bytes. A refusal changes nothing.
fn show_record(
    bytes: &[u8],
    values: &mut [u64; 256],
    last: &mut u32,
    out: &mut [u64],
) -> Result<(), Refusal>
    ensures { shown values.new last.new out.new (code result) ≡ record_service bytes.now last.old values.old out.old }
{
    if out.len() < SERVICE {
        return Err(Refusal::Buffer);
    }
    let before = *last;
    match replay::replay_at(bytes, 0, before, values)? {
        Some(f) => {
            put_service(out, f);
            *last = f.commit;
            Ok(())
        }
        None => Err(Refusal::Short),
    }
}

// `show_record` for C: 1 where `out` has fewer than eight places, 12 (also for no bytes), 5, 13 or 14, else 0. Only 0 changes anything.
pub fn wax_service_record(
    bytes: &[u8],
    values: &mut [u64; 256],
    last: &mut u32,
    out: &mut [u64],
) -> u32
    ensures { shown values.new last.new out.new result ≡ record_service bytes.now last.old values.old out.old }
{
    refusals::code(show_record(bytes, values, last, out))
}
