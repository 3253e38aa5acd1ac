#![tactic(auto)]
// The line of words for a fault of a record (docs/PLAYBACK.md, "What is wrong, in words"), put into a lent output.
ghost use Rattle.std.specs.Prelude.{◌≡◌, ◌+◌, ◌≤◌, length};
ghost use Rattle.text.specs.Text.{put, put_of, line_within};
ghost use Rattle.words.specs.Words.{numbered, words_of, further, placed, where_of, fault_line, longest};

use fault::Fault;

// No line is longer.
pub const LINE: usize = 256;

// The name of the playback program in front of a line, with colon and space: other programs leave it out.
pub const PREFIX: usize = 10;

// Each function below that puts something answers the position behind it.

// Puts a number between two texts.
fn say_long(out: &mut [u8], at: usize, before: &[u8], n: u64, behind: &[u8]) -> usize
    requires { at + (length before.now + 20 + length behind.now) ≤ length out.old }
    ensures { put out.new result ≡ put_of out.old at (numbered before.now n behind.now) }
{
    let at = text::put_text(out, at, before);
    let at = text::put_number(out, at, n);
    text::put_text(out, at, behind)
}

fn say(out: &mut [u8], at: usize, before: &[u8], n: u32, behind: &[u8]) -> usize
    requires { at + (length before.now + 20 + length behind.now) ≤ length out.old }
    ensures { put out.new result ≡ put_of out.old at (numbered before.now n behind.now) }
{
    say_long(out, at, before, u64::from(n), behind)
}

// The words of the faults whose row is more than a `say`. No words name a place: the contracts have a 0 there.

fn header_words(out: &mut [u8], at: usize, present: usize) -> usize
    requires { at + 128 ≤ length out.old }
    ensures { put out.new result ≡ put_of out.old at (words_of (Fault.Header present)) }
{
    let ends = b"the archive ends here, ";
    say_long(out, at, ends, present as u64, b" bytes into a header of 16")
}

fn cut_words(out: &mut [u8], at: usize, present: usize, whole: usize) -> usize
    requires { at + 128 ≤ length out.old }
    ensures { put out.new result ≡ put_of out.old at (words_of (Fault.Cut present whole)) }
{
    let ends = b"the archive ends here, ";
    let at = say_long(out, at, ends, present as u64, b" bytes into a record of ");
    text::put_number(out, at, whole as u64)
}

fn size_words(out: &mut [u8], at: usize, present: usize, whole: usize) -> usize
    requires { at + 128 ≤ length out.old }
    ensures { put out.new result ≡ put_of out.old at (words_of (Fault.Sizes present whole)) }
{
    let ends = b"the archive ends here, ";
    let at = say_long(out, at, ends, present as u64, b" bytes into a record of ");
    let sizes = b", but no record has such sizes";
    say_long(out, at, b"", whole as u64, sizes)
}

fn order_words(out: &mut [u8], at: usize, before: u32, is: u32) -> usize
    requires { at + 128 ≤ length out.old }
    ensures { put out.new result ≡ put_of out.old at (words_of (Fault.Order 0 before is)) }
{
    let at = say(out, at, b"address ", is, b" behind ");
    say(out, at, b"", before, b", but addresses rise")
}

fn sequence_words(out: &mut [u8], at: usize, commit: u32, last: u32) -> usize
    requires { at + 128 ≤ length out.old }
    ensures { put out.new result ≡ put_of out.old at (words_of (Fault.Sequence commit last)) }
{
    let rule = b", but commits are numbered 1, 2, 3 and on";
    let at = say(out, at, b"commit ", commit, b" behind commit ");
    say(out, at, b"", last, rule)
}

fn read_words(out: &mut [u8], at: usize, address: u32, is: u64, left: u64) -> usize
    requires { at + 128 ≤ length out.old }
    ensures { put out.new result ≡ put_of out.old at (words_of (Fault.Read 0 address is left)) }
{
    let at = say(out, at, b"counter ", address, b" is read as ");
    let at = say_long(out, at, b"", is, b", but the records before leave ");
    text::put_number(out, at, left)
}

// Puts the words, a row for each fault.
fn put_words(out: &mut [u8], at: usize, f: Fault) -> usize
    requires { at + 128 ≤ length out.old }
    ensures { put out.new result ≡ put_of out.old at (words_of f) }
{
    match f {
        Fault::Nothing => text::put_text(out, at, b"nothing is wrong"),
        Fault::Header { present } => header_words(out, at, present),
        Fault::Cut { present, length } => cut_words(out, at, present, length),
        Fault::Sizes { present, length } => size_words(out, at, present, length),
        Fault::Reads(n) => say(out, at, b"", n, b" reads, but a record has at most 256"),
        Fault::Writes(m) => say(out, at, b"", m, b" writes, but a record has at most 256"),
        Fault::Transaction => text::put_text(out, at, b"transaction 0, but the first is 1"),
        Fault::Station(s) => say(out, at, b"station ", s, b", but stations are 0 to 7"),
        Fault::Kind(k) => say(out, at, b"kind ", k, b", but kinds are 0 to 2"),
        Fault::Zero { is, .. } => say(out, at, b"this byte is ", is, b", but it must be 0"),
        Fault::Order { before, is, .. } => order_words(out, at, before, is),
        Fault::Sequence { commit, last } => sequence_words(out, at, commit, last),
        Fault::Read {
            address,
            is,
            left,
            ..
        } => read_words(out, at, address, is, left),
    }
}

// So many bytes further on in an archive. It is cut at the largest number.
#[tactic(auto, unfolding(crate::specs::Words::further))]
pub fn further(start: u64, more: usize) -> u64
    ensures { result ≡ further start more }
{
    let more = more as u64;
    if start <= u64::MAX - more {
        return start + more;
    }
    u64::MAX
}

// The fault's byte, of a record at byte `start`.
#[tactic(auto, unfolding(crate::specs::Words::placed))]
fn placed(start: u64, f: Fault) -> u64
    ensures { result ≡ placed start f }
{
    further(start, fault::place(f))
}

// Puts where the fault is, and where its record starts.
fn put_where(out: &mut [u8], at: usize, start: u64, f: Fault) -> usize
    requires { at + 96 ≤ length out.old }
    ensures { put out.new result ≡ put_of out.old at (where_of start f) }
{
    let place = placed(start, f);
    let at = say_long(
        out,
        at,
        b"playback: byte ",
        place,
        b", in the record at byte ",
    );
    say_long(out, at, b"", start, b": ")
}

// Puts the line for a fault of the record at byte `start` of an archive at `at`. Where fewer than 256 bytes are free from `at` on
// it changes nothing and answers `at`.
pub fn fault_line(out: &mut [u8], at: usize, start: u64, f: Fault) -> usize
    ensures { put out.new result ≡ line_within longest out.old at (fault_line start f) }
{
    if !text::room(LINE, out.len(), at) {
        return at;
    }
    let at = put_where(out, at, start, f);
    let at = put_words(out, at, f);
    text::put_text(out, at, b"\n")
}
