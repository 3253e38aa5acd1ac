#![tactic(auto)]
// The changes of one counter (docs/PLAYBACK.md, "--counter A"): which records write it, and a line for each.
ghost use Rattle.std.specs.Prelude.{◌≡◌, ◌<◌, eqb, length};
ghost use Rattle.text.specs.Text.{columns, put};
ghost use Rattle.report.specs.Text.{line_at};
ghost use Rattle.replay.specs.Replay.{address_from, address_at};
ghost use Rattle.history.specs.History.{writes_at, heading, change_line};

// Whether entry i of the record at the start of `t` is of this counter.
fn is_entry(t: &[u8], i: usize, counter: u8) -> bool
    requires { address_from i < length t.now }
    ensures { result ≡ eqb (address_at t.now i) counter }
{
    t[record::HEADER + i] == counter
}

// Whether the record at the start of `part` writes this counter. Bytes that end inside it write nothing.
pub fn writes(part: &[u8], counter: u8) -> bool
    ensures { result ≡ writes_at part.now counter }
{
    if part.len() < record::claimed_length(part) {
        return false;
    }
    let n = le::get_u16(part, record::READS) as usize;
    let m = le::get_u16(part, record::WRITES) as usize;
    let mut none = true;
    for c in 0..m {
        none &= !is_entry(part, n + c, counter);
    }
    !none
}

// Each function below puts a line at `at` and answers the position behind it. Where fewer than 64 bytes are free from `at` on it
// changes nothing and answers `at`. `sep` stands between columns.

pub fn heading_line(out: &mut [u8], at: usize, sep: u8) -> usize
    ensures { put out.new result ≡ line_at out.old at (columns sep heading) }
{
    if !text::room(report::LINE, out.len(), at) {
        return at;
    }
    let row = b"commit station before after\n";
    text::put_columns(out, at, row, sep)
}

// The line of a commit that wrote the counter, which was `before` and is `after`.
pub fn change_line(
    out: &mut [u8],
    at: usize,
    commit: u32,
    station: u32,
    before: u64,
    after: u64,
    sep: u8,
) -> usize
    ensures { put out.new result ≡ line_at out.old at (change_line sep commit station before after) }
{
    if !text::room(report::LINE, out.len(), at) {
        return at;
    }
    let at = text::put_field(out, at, u64::from(commit), sep);
    let at = text::put_field(out, at, u64::from(station), sep);
    let at = text::put_field(out, at, before, sep);
    text::put_field(out, at, after, b'\n')
}
