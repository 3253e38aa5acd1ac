// Records, the archive reader and playback.
ghost use Rattle.std.specs.Prelude.{◌≡◌};
ghost use Rattle.record.specs.Check.{check_of};
ghost use Rattle.record.specs.Write.{written, write_of};
ghost use Rattle.archive.specs.Told.{told, told_read_of, told_entry_of};
ghost use Rattle.replay.specs.Played.{played, archive_played, record_played};

use replay::Playback;

// The number of the first record of these bytes: 12 where they end inside it, then 5 where its layout is broken, else 0.
// Any commit number is taken: it is 0 on the way up, and what an archive asks of it is the archive reader's to say.
#[unsafe(no_mangle)]
pub extern "C" fn wax_record_check(bytes: &[u8]) -> u32
    ensures { result ≡ check_of bytes.now }
{
    record::wax_record_check(bytes)
}

// Writes a record to the start of `out`: 1 where `out` is under the record's length, then 5 where the arguments make no
// record, else 0. `values` has 8 bytes for each address, the lowest first. A refusal changes nothing.
#[unsafe(no_mangle)]
pub extern "C" fn wax_record_write(
    reads: u32,
    writes: u32,
    commit: u32,
    transaction: u32,
    station: u32,
    kind: u32,
    addresses: &[u8],
    values: &[u8],
    out: &mut [u8],
) -> u32
    ensures { written out.new result ≡ write_of reads writes commit transaction station kind addresses.now values.now out.old }
{
    record::wax_record_write(
        reads,
        writes,
        commit,
        transaction,
        station,
        kind,
        addresses,
        values,
        out,
    )
}

// `read` for C. A record's end, reads, writes, commit, transaction, station and kind go to the first seven places of `out`:
// 1 where it has fewer, 255 at the end of the archive, else the number of document 01. Only 0 changes `out`.
#[unsafe(no_mangle)]
pub extern "C" fn wax_archive_read(archive: &[u8], at: usize, last: u32, out: &mut [u64]) -> u32
    ensures { told out.new result ≡ told_read_of archive.now at last out.old }
{
    archive::wax_archive_read(archive, at, last, out)
}

// `entry` for C. Its address and value go to the first two places of `out`: 1 where it has fewer, 255 where there is no
// such entry. Only 0 changes `out`.
#[unsafe(no_mangle)]
pub extern "C" fn wax_archive_entry(
    archive: &[u8],
    at: usize,
    entries: u32,
    i: u32,
    out: &mut [u64],
) -> u32
    ensures { told out.new result ≡ told_entry_of archive.now at entries i out.old }
{
    archive::wax_archive_entry(archive, at, entries, i, out)
}

// Plays a whole archive, record by record: 0 at its end, else the number of the first record refused, with the values and
// the last commit number as the records before it left them.
#[unsafe(no_mangle)]
pub extern "C" fn wax_archive_replay(archive: &[u8], values: &mut [u64; 256], last: &mut u32) -> u32
    ensures { played values.new last.new result ≡ archive_played archive.now last.old values.old }
{
    replay::wax_archive_replay(archive, values, last)
}

// Plays the first record of these bytes: 0, 12 (also for no bytes), 5, 13 or 14. Only 0 changes the playback.
#[unsafe(no_mangle)]
pub extern "C" fn wax_playback_record(playback: &mut Playback, bytes: &[u8]) -> u32
    ensures { played playback.new.values playback.new.last result ≡ record_played bytes.now playback.old.last playback.old.values }
{
    replay::wax_playback_record(playback, bytes)
}
