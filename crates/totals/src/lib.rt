#![tactic(auto)]
// The table of counters that playback prints: how often each counter was written, and the lines, put into a lent output.
ghost use Rattle.std.specs.Prelude.{◌≡◌, ◌+◌, ◌<◌, length, get_or, set};
ghost use Rattle.text.specs.Text.{columns, put, line_within};
ghost use Rattle.report.specs.Text.{line_at};
ghost use Rattle.replay.specs.Replay.{address_from, address_at};
ghost use Rattle.totals.specs.Totals.{one_more, counted_to, counted};
ghost use Rattle.totals.specs.Table.{heading, counter_line, at_line, missing_line, longest_message};

// The most that a count says.
const MOST: u64 = 18446744073709551615;

// One more, where that fits.
#[tactic(auto, unfolding(crate::specs::Totals::one_more))]
fn one_more(n: u64) -> u64
    ensures { result ≡ one_more n }
{
    if n < MOST {
        return n + 1;
    }
    n
}

// Counts a write of entry i of the record at the start of `t`.
fn count_entry(t: &[u8], counts: &mut [u64; 256], i: usize)
    requires { address_from i < length t.now }
    ensures { counts.new ≡ set counts.old (address_at t.now i) (one_more (get_or counts.old (address_at t.now i) 0)) }
{
    let a = t[record::HEADER + i] as usize;
    let n = counts[a];
    counts[a] = one_more(n);
}

// Counts the writes of the record at the start of `part`. Bytes that end inside it change nothing.
#[tactic(auto, unfolding(crate::specs::Totals::counted, crate::specs::Totals::counted_to))]
pub fn count(part: &[u8], counts: &mut [u64; 256])
    ensures { counts.new ≡ counted part.now counts.old }
{
    if part.len() < record::claimed_length(part) {
        return;
    }
    let n = le::get_u16(part, record::READS) as usize;
    let m = le::get_u16(part, record::WRITES) as usize;
    for c in 0..m {
        count_entry(part, counts, n + c);
    }
}

// Each function below puts a line at `at` and answers the position behind it. Where fewer than 64 bytes are free from `at` on it
// changes nothing and answers `at`. `sep` stands between columns.

pub fn heading_line(out: &mut [u8], at: usize, sep: u8) -> usize
    ensures { put out.new result ≡ line_at out.old at (columns sep heading) }
{
    if !text::room(report::LINE, out.len(), at) {
        return at;
    }
    let row = b"counter page object value writes\n";
    text::put_columns(out, at, row, sep)
}

pub fn counter_line(
    out: &mut [u8],
    at: usize,
    address: u8,
    value: u64,
    writes: u64,
    sep: u8,
) -> usize
    ensures { put out.new result ≡ line_at out.old at (counter_line sep address value writes) }
{
    if !text::room(report::LINE, out.len(), at) {
        return at;
    }
    let a = u64::from(address);
    let at = text::put_field(out, at, a, sep);
    let at = text::put_field(out, at, a / 8, sep);
    let at = text::put_field(out, at, a % 8, sep);
    let at = text::put_field(out, at, value, sep);
    text::put_field(out, at, writes, b'\n')
}

pub fn at_line(out: &mut [u8], at: usize, commit: u32) -> usize
    ensures { put out.new result ≡ line_at out.old at (at_line commit) }
{
    if !text::room(report::LINE, out.len(), at) {
        return at;
    }
    let at = text::put_text(out, at, b"at ");
    let at = text::put_field(out, at, u64::from(commit), b':');
    text::put_text(out, at, b" what follows was not looked at\n")
}

// No message is longer.
pub const MESSAGE: usize = 128;

// Puts the message that the archive ends before a commit, where 128 bytes are free.
pub fn missing_line(out: &mut [u8], at: usize, commit: u32, last: u32) -> usize
    ensures { put out.new result ≡ line_within longest_message out.old at (missing_line commit last) }
{
    if !text::room(MESSAGE, out.len(), at) {
        return at;
    }
    let at = text::put_text(out, at, b"playback: there is no commit ");
    let at = text::put_field(out, at, u64::from(commit), b':');
    let at = text::put_text(out, at, b" the archive ends behind commit ");
    text::put_field(out, at, u64::from(last), b'\n')
}
