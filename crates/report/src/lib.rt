#![tactic(auto)]
// The lines that playback prints (document 01, "Playback reads an archive on standard input"), put into a lent output.
ghost use Rattle.std.specs.Prelude.{◌≡◌, ◌+◌, ◌≤◌, length};
ghost use Rattle.text.specs.Text.{columns, put, put_of};
ghost use Rattle.report.specs.Text.{field, heading, line_with, end_line, refused_line, line_at};

use archive::Fields;

// No line is longer.
pub const LINE: usize = 64;

// Puts a number in decimal and the byte that follows it, and answers the position behind them.
fn put_field(out: &mut [u8], at: usize, n: u32, follows: u8) -> usize
    requires { at + 11 ≤ length out.old }
    ensures { (put out.new result ≡ put_of out.old at (field n follows)) × (result ≤ at + 11) }
{
    text::put_field(out, at, u64::from(n), follows)
}

// Each function below puts a line at `at` and answers the position behind it. Where fewer than 64 bytes are free from `at` on it
// changes nothing and answers `at`. `sep` stands between columns: a space, or a comma for a spreadsheet.

pub fn heading_line(out: &mut [u8], at: usize, sep: u8) -> usize
    ensures { put out.new result ≡ line_at out.old at (columns sep heading) }
{
    if !text::room(LINE, out.len(), at) {
        return at;
    }
    let row = b"commit station transaction reads writes\n";
    text::put_columns(out, at, row, sep)
}

pub fn commit_line(out: &mut [u8], at: usize, f: Fields, sep: u8) -> usize
    ensures { put out.new result ≡ line_at out.old at (line_with sep f) }
{
    if !text::room(LINE, out.len(), at) {
        return at;
    }
    let at = put_field(out, at, f.commit, sep);
    let at = put_field(out, at, f.station, sep);
    let at = put_field(out, at, f.transaction, sep);
    let at = put_field(out, at, f.reads, sep);
    put_field(out, at, f.writes, b'\n')
}

pub fn end_line(out: &mut [u8], at: usize, last: u32) -> usize
    ensures { put out.new result ≡ line_at out.old at (end_line last) }
{
    if !text::room(LINE, out.len(), at) {
        return at;
    }
    let at = text::put_text(out, at, b"end ");
    put_field(out, at, last, b'\n')
}

pub fn refused_line(out: &mut [u8], at: usize, number: u32, last: u32) -> usize
    ensures { put out.new result ≡ line_at out.old at (refused_line number last) }
{
    if !text::room(LINE, out.len(), at) {
        return at;
    }
    let at = text::put_text(out, at, b"refused ");
    let at = put_field(out, at, number, b' ');
    let at = text::put_text(out, at, b"after ");
    put_field(out, at, last, b'\n')
}
