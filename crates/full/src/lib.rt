#![tactic(auto)]
// One record in full (docs/PLAYBACK.md, "--record N"), put into a lent output.
ghost use Rattle.std.specs.Prelude.{◌≡◌, ◌+◌, ◌≤◌, length};
ghost use Rattle.record.specs.Check.{claimed_length};
ghost use Rattle.text.specs.Text.{columns, put, put_of, line_within};
ghost use Rattle.full.specs.Full.{longest, heading, names, sizes, record_line, entry_heading, entry_word, entry_line, entries_of, entry_count, record_put};

use archive::Fields;

// No line is longer.
pub const LINE: usize = 192;

// Each function below puts a line at `at` and answers the position behind it. Where fewer than 192 bytes are free from `at` on it
// changes nothing and answers `at`. `sep` stands between columns.

fn heading_line(out: &mut [u8], at: usize, sep: u8) -> usize
    ensures { put out.new result ≡ line_within longest out.old at (columns sep heading) }
{
    if !text::room(LINE, out.len(), at) {
        return at;
    }
    let row = b"commit station kind transaction reads writes byte length\n";
    text::put_columns(out, at, row, sep)
}

// The first half of a record's line.
fn put_names(out: &mut [u8], at: usize, f: Fields, sep: u8) -> usize
    requires { at + 84 ≤ length out.old }
    ensures { (put out.new result ≡ put_of out.old at (names sep f)) × (result ≤ at + 84) }
{
    let at = text::put_field(out, at, u64::from(f.commit), sep);
    let at = text::put_field(out, at, u64::from(f.station), sep);
    let at = text::put_field(out, at, u64::from(f.kind), sep);
    text::put_field(out, at, u64::from(f.transaction), sep)
}

// Its second half.
fn put_sizes(out: &mut [u8], at: usize, f: Fields, byte: u64, size: u64, sep: u8) -> usize
    requires { at + 84 ≤ length out.old }
    ensures { put out.new result ≡ put_of out.old at (sizes sep f byte size) }
{
    let at = text::put_field(out, at, u64::from(f.reads), sep);
    let at = text::put_field(out, at, u64::from(f.writes), sep);
    let at = text::put_field(out, at, byte, sep);
    text::put_field(out, at, size, b'\n')
}

// A record's own numbers, the byte of the archive where it starts, and how many bytes it has.
fn record_line(out: &mut [u8], at: usize, f: Fields, byte: u64, size: u64, sep: u8) -> usize
    ensures { put out.new result ≡ line_within longest out.old at (record_line sep f byte size) }
{
    if !text::room(LINE, out.len(), at) {
        return at;
    }
    let at = put_names(out, at, f, sep);
    put_sizes(out, at, f, byte, size, sep)
}

fn entry_heading(out: &mut [u8], at: usize, sep: u8) -> usize
    ensures { put out.new result ≡ line_within longest out.old at (columns sep entry_heading) }
{
    if !text::room(LINE, out.len(), at) {
        return at;
    }
    let row = b"entry counter page object value\n";
    text::put_columns(out, at, row, sep)
}

// The word in front of an entry.
#[tactic(auto, unfolding(crate::specs::Full::entry_word))]
fn put_word(out: &mut [u8], at: usize, read: bool, sep: u8) -> usize
    requires { at + 6 ≤ length out.old }
    ensures { (put out.new result ≡ put_of out.old at (columns sep (entry_word read))) × (result ≤ at + 6) }
{
    if read {
        return text::put_columns(out, at, b"read ", sep);
    }
    text::put_columns(out, at, b"write ", sep)
}

fn entry_line(out: &mut [u8], at: usize, read: bool, address: u8, value: u64, sep: u8) -> usize
    ensures { put out.new result ≡ line_within longest out.old at (entry_line sep read address value) }
{
    if !text::room(LINE, out.len(), at) {
        return at;
    }
    let a = u64::from(address);
    let at = put_word(out, at, read, sep);
    let at = text::put_field(out, at, a, sep);
    let at = text::put_field(out, at, a / 8, sep);
    let at = text::put_field(out, at, a % 8, sep);
    text::put_field(out, at, value, b'\n')
}

// Puts a line for each address and its value, the first `reads` of which are reads.
fn put_entries(
    addresses: &[u8],
    values: &[u8],
    reads: usize,
    out: &mut [u8],
    at: usize,
    sep: u8,
) -> usize
    ensures { put out.new result ≡ entries_of sep reads addresses.now values.now (put out.old at) }
{
    let k = addresses.len();
    if values.len() / record::VALUE != k {
        return at;
    }
    if values.len() % record::VALUE != 0 {
        return at;
    }
    let mut next = at;
    for i in 0..k {
        let value = le::get_u64(values, record::VALUE * i);
        next = entry_line(out, next, i < reads, addresses[i], value, sep);
    }
    next
}

// The most that the two bytes of a record's count say.
const MOST_COUNT: u32 = 65535;

// How many entries a record of these fields has.
#[tactic(auto, unfolding(crate::specs::Full::entry_count))]
pub fn entry_count(f: Fields) -> u32
    ensures { result ≡ entry_count f }
{
    if f.reads > MOST_COUNT {
        return 0;
    }
    if f.writes > MOST_COUNT {
        return 0;
    }
    f.reads + f.writes
}

// Puts the record at the start of `part`, whose fields the reader gave and which starts at this byte of the archive: two tables, its
// own numbers, and an entry a line. The entries are read through the reader's two parts.
pub fn put_record(part: &[u8], f: Fields, byte: u64, out: &mut [u8], at: usize, sep: u8) -> usize
    ensures { put out.new result ≡ record_put sep part.now f byte (claimed_length part.now) (put out.old at) }
{
    let size = record::claimed_length(part);
    let at = heading_line(out, at, sep);
    let at = record_line(out, at, f, byte, size as u64, sep);
    let at = entry_heading(out, at, sep);
    let entries = entry_count(f);
    let addresses = archive::address_part(part, 0, entries);
    let values = archive::value_part(part, 0, entries);
    put_entries(addresses, values, f.reads as usize, out, at, sep)
}
