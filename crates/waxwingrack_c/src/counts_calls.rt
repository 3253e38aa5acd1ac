// One archive, two readers, and the counts file.
ghost use Rattle.std.specs.Prelude.{◌≡◌};
ghost use Rattle.counts.specs.Record.{shown, record_counts};
ghost use Rattle.archive.specs.Told.{told};
ghost use Rattle.readers.specs.Readers.{counts_at, service_at, record_service};
ghost use Rattle.counts_file.specs.File.{told_counts_read, told_counts_entry};

// Plays the first record of these bytes on lent values behind a lent last commit number, and puts its counts at the start of
// `out`: 1 where `out` has no room for the longest, 12 (also for no bytes), 5, 13 or 14, else 0. Only 0 changes anything.
#[unsafe(no_mangle)]
pub extern "C" fn wax_counts_record(
    bytes: &[u8],
    values: &mut [u64; 256],
    last: &mut u32,
    out: &mut [u8],
) -> u32
    ensures { shown values.new last.new out.new result ≡ record_counts bytes.now last.old values.old out.old }
{
    counts::wax_counts_record(bytes, values, last, out)
}

// The counts reader. The counts of the record of this commit go to the start of `out`: 1 where `out` has no room for the longest,
// 12, 5, 13 or 14 where the archive is refused at this commit or before it, 255 where it has none of this number. Only 0 changes `out`.
#[unsafe(no_mangle)]
pub extern "C" fn wax_counts_at(archive: &[u8], commit: u32, out: &mut [u8]) -> u32
    ensures { told out.new result ≡ counts_at archive.now commit out.old }
{
    readers::wax_counts_at(archive, commit, out)
}

// The service reader. Where the record of this commit starts and ends, its reads, writes, commit, transaction, station and kind go to
// the first eight places of `out`: 1 where it has fewer, else the counts reader's numbers. Only 0 changes `out`.
#[unsafe(no_mangle)]
pub extern "C" fn wax_service_at(archive: &[u8], commit: u32, out: &mut [u64]) -> u32
    ensures { told out.new result ≡ service_at archive.now commit out.old }
{
    readers::wax_service_at(archive, commit, out)
}

// The service reader of the first record of these bytes, played on lent values behind a lent last commit number: its eight numbers go
// to the start of `out`. 1 where `out` has fewer places, 12 (also for no bytes), 5, 13 or 14, else 0. Only 0 changes anything.
#[unsafe(no_mangle)]
pub extern "C" fn wax_service_record(
    bytes: &[u8],
    values: &mut [u64; 256],
    last: &mut u32,
    out: &mut [u64],
) -> u32
    ensures { shown values.new last.new out.new result ≡ record_service bytes.now last.old values.old out.old }
{
    readers::wax_service_record(bytes, values, last, out)
}

// `read` for C. Where the counts end, their writes and their commit number go to the first three places of `out`: 1 where it has
// fewer, 255 at the end of the file, else the number of document 01. Only 0 changes `out`.
#[unsafe(no_mangle)]
pub extern "C" fn wax_counts_read(file: &[u8], at: usize, last: u32, out: &mut [u64]) -> u32
    ensures { told out.new result ≡ told_counts_read file.now at last out.old }
{
    counts_file::wax_counts_read(file, at, last, out)
}

// `entry` for C. Its address and value go to the first two places of `out`: 1 where it has fewer, 255 where there is no such write.
// Only 0 changes `out`.
#[unsafe(no_mangle)]
pub extern "C" fn wax_counts_entry(
    file: &[u8],
    at: usize,
    writes: u32,
    i: u32,
    out: &mut [u64],
) -> u32
    ensures { told out.new result ≡ told_counts_entry file.now at writes i out.old }
{
    counts_file::wax_counts_entry(file, at, writes, i, out)
}
