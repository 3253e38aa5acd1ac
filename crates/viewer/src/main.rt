#![tactic(auto)]
// An archive from standard input as one of its two readers shows it (docs/COUNTS.md, "The program"): the counts of each commit, all
// fields of each commit, or the counts file. What the counts are printed from is the counts file's bytes, and nothing else.
//
// Memory is constant. The input buffer holds the longest record that two size fields can claim, 16 + 9 * (65,535 + 65,535) bytes, so
// that a record is called short only where the archive itself ends inside it.
ghost use Rattle.std.specs.Prelude.{◌≤◌, length};

use archive::Found;
use counts_file::{Counted, Next, Written};
use refusals::Refusal;
use std::fmt::InlineText;
use std::ops::ControlFlow;
use std::process::ExitCode;
use streams::{Status, Told, first, read_more, tell, written};

// Room for a line, of six numbers and 512 entries at most, and for the closing line.
const LINE: usize = 16384;

const CLOSING: usize = 64;

// What the two bytes of a record's count can say.
const SIZES: u64 = 65536;

// What is asked for: the counts of each commit, all fields of each, or the counts file.
#[derive(Clone, Copy, PartialEq, Eq, Debug)]
enum Reader {
    Counts,
    Service,
    File,
}

// Why no more of an archive is shown: a number that it is refused for, or standard output failed.
#[derive(Clone, Copy, PartialEq, Eq, Debug)]
enum Stop {
    Refused(u32),
    Failed(Told),
}

impl From<Told> for Stop {
    fn from(told: Told) -> Stop {
        Stop::Failed(told)
    }
}

// A number of a call's answer, 0 where it was accepted.
fn accepted(number: u32) -> Result<(), Stop> {
    if number == 0 {
        return Ok(());
    }
    Err(Stop::Refused(number))
}

// Writes to standard output.
fn say(rt: HostRuntime, text: &[u8]) -> Result<(), Told> {
    written(rt, b"standard output", rt.write_all(text))
}

// Each function below that puts something into a line answers the position behind it; what has no room is left out.

fn put_text(line: &mut [u8], at: usize, text: &[u8]) -> usize {
    let from = at.min(line.len());
    let n = text.len().min(line.len() - from);
    line[from..from + n].copy_from_slice(&text[..n]);
    from + n
}

fn put_number(line: &mut [u8], at: usize, n: u64) -> usize {
    let mut text = [0u8; player::DIGITS];
    let k = streams::decimal(n, &mut text);
    put_text(line, at, &text[..k])
}

// A space and a number.
fn put_column(line: &mut [u8], at: usize, n: u64) -> usize {
    let at = put_text(line, at, b" ");
    put_number(line, at, n)
}

// A space, a word and `counter=value`.
fn put_pair(line: &mut [u8], at: usize, word: &[u8], address: u8, value: u64) -> usize {
    let at = put_text(line, at, b" ");
    let at = put_text(line, at, word);
    let at = put_number(line, at, address as u64);
    let at = put_text(line, at, b"=");
    put_number(line, at, value)
}

// Write i of the counts.
fn put_write(line: &mut [u8], at: usize, counts: &[u8], writes: u32, i: u32) -> usize {
    let Written::Entry { address, value } = counts_file::entry(counts, 0, writes, i) else {
        return at;
    };
    put_pair(line, at, b"", address, value)
}

// The line of a commit's counts: its number, how many counters it writes, and each with its value.
fn counts_line(line: &mut [u8], counts: &[u8], c: Counted) -> usize {
    let writes = c.writes;
    let at = put_number(line, 0, u64::from(c.commit));
    let mut next = put_column(line, at, u64::from(writes));
    for i in 0..writes {
        next = put_write(line, next, counts, writes, i);
    }
    put_text(line, next, b"\n")
}

// Shows the counts of a record, or writes them as they stand.
fn show_counts(
    rt: HostRuntime,
    counts: &[u8],
    before: u32,
    reader: Reader,
    line: &mut [u8],
) -> Result<(), Stop> {
    match counts_file::read(counts, 0, before) {
        Next::Counts(c) => {
            if reader == Reader::File {
                say(rt, first(counts, c.end))?;
                return Ok(());
            }
            let length = counts_line(line, counts, c);
            say(rt, first(line, length))?;
            Ok(())
        }
        Next::End => Ok(()),
        Next::Refused(number) => accepted(number),
    }
}

// Entry i of the record at the start of `part`, of which the first `reads` are reads.
fn put_entry(line: &mut [u8], at: usize, part: &[u8], entries: u32, i: u32, reads: u32) -> usize {
    let Found::Entry { address, value } = archive::entry(part, 0, entries, i) else {
        return at;
    };
    if i < reads {
        return put_pair(line, at, b"r", address, value);
    }
    put_pair(line, at, b"w", address, value)
}

// The line of a record: its numbers, and each entry, reads first.
fn service_line(line: &mut [u8], part: &[u8], fields: &[u64; readers::SERVICE]) -> usize {
    let reads = (fields[readers::READS] % SIZES) as u32;
    let writes = (fields[readers::WRITES] % SIZES) as u32;
    let at = put_number(line, 0, fields[readers::COMMIT]);
    let at = put_column(line, at, fields[readers::STATION]);
    let at = put_column(line, at, fields[readers::KIND]);
    let at = put_column(line, at, fields[readers::TRANSACTION]);
    let at = put_column(line, at, fields[readers::READS]);
    let mut next = put_column(line, at, fields[readers::WRITES]);
    let entries = reads + writes;
    for i in 0..entries {
        next = put_entry(line, next, part, entries, i, reads);
    }
    put_text(line, next, b"\n")
}

// Plays the record at the start of `part` and shows all of it.
fn service(
    rt: HostRuntime,
    part: &[u8],
    last: &mut u32,
    values: &mut [u64; 256],
    line: &mut [u8],
) -> Result<(), Stop> {
    let mut fields = [0u64; readers::SERVICE];
    accepted(readers::wax_service_record(part, values, last, &mut fields))?;
    let length = service_line(line, part, &fields);
    say(rt, first(line, length))?;
    Ok(())
}

// Plays the record at the start of `part` and shows what is asked for of it.
fn show(
    rt: HostRuntime,
    part: &[u8],
    reader: Reader,
    last: &mut u32,
    values: &mut [u64; 256],
    line: &mut [u8],
) -> Result<(), Stop> {
    if reader == Reader::Service {
        return service(rt, part, last, values, line);
    }
    let before = *last;
    let mut counts = [0u8; counts::LONGEST];
    accepted(counts::wax_counts_record(part, values, last, &mut counts))?;
    show_counts(rt, &counts, before, reader, line)
}

// Plays the records that are whole in the input, each of which has at least a byte, and answers where they end, and why there.
fn play(
    rt: HostRuntime,
    input: &[u8],
    reader: Reader,
    last: &mut u32,
    values: &mut [u64; 256],
    line: &mut [u8],
) -> (usize, Result<(), Stop>) {
    let mut at: usize = 0;
    for _ in 0..input.len() {
        if input.len() <= at {
            return (at, Ok(()));
        }
        let part = &input[at..];
        if let Err(stop) = show(rt, part, reader, last, values, line) {
            return (at, Err(stop));
        }
        at = at.saturating_add(record::claimed_length(part));
    }
    (at, Ok(()))
}

// The last line: of a counts file it goes to standard error.
fn close(rt: HostRuntime, reader: Reader, text: &[u8]) -> Result<(), Told> {
    if reader == Reader::File {
        tell(rt, text);
        return Ok(());
    }
    say(rt, text)
}

// `refused N after K`.
fn refuse(rt: HostRuntime, reader: Reader, number: u32, last: u32) -> Result<Status, Told> {
    let line = InlineText::<CLOSING>::of(format_args!("refused {number} after {last}\n"));
    close(rt, reader, line.as_str().as_bytes())?;
    Ok(Status::Refused)
}

// `end K`.
fn end(rt: HostRuntime, reader: Reader, last: u32) -> Result<Status, Told> {
    let line = InlineText::<CLOSING>::of(format_args!("end {last}\n"));
    close(rt, reader, line.as_str().as_bytes())?;
    Ok(Status::Accepted)
}

// Plays the first `len` bytes of the buffer and keeps the record that is cut by its end for the next turn: so many bytes.
fn advance(
    rt: HostRuntime,
    input: &mut [u8],
    len: usize,
    reader: Reader,
    last: &mut u32,
    values: &mut [u64; 256],
    line: &mut [u8],
) -> Result<ControlFlow<Status, usize>, Told>
    requires { len ≤ length input.old }
{
    let (played, shown) = play(rt, &input[..len], reader, last, values, line);
    match shown {
        Err(Stop::Failed(told)) => Err(told),
        Err(Stop::Refused(number)) if number != Refusal::Short.number() => {
            Ok(ControlFlow::Break(refuse(rt, reader, number, *last)?))
        }
        _ => {
            let at = played.min(len);
            Ok(ControlFlow::Continue(player::move_down(input, at, len)))
        }
    }
}

// The end of the archive. Bytes that are left are a record cut short.
fn ended(rt: HostRuntime, left: usize, reader: Reader, last: u32) -> Result<Status, Told> {
    if left != 0 {
        return refuse(rt, reader, Refusal::Short.number(), last);
    }
    end(rt, reader, last)
}

// One read behind the first bytes of the buffer, which are not played yet, and the play of what is then there.
fn turn(
    rt: HostRuntime,
    input: &mut [u8],
    left: usize,
    reader: Reader,
    last: &mut u32,
    values: &mut [u64; 256],
    line: &mut [u8],
) -> Result<ControlFlow<Status, usize>, Told> {
    let len = left.min(input.len());
    match read_more(&mut rt.stdin(), input, len) {
        Ok(Some(n)) => {
            let have = n.min(input.len());
            advance(rt, input, have, reader, last, values, line)
        }
        Ok(None) => Ok(ControlFlow::Break(ended(rt, len, reader, *last)?)),
        Err(error) => {
            streams::fail(rt, b"standard input", error);
            Err(Told)
        }
    }
}

// A proved loop has to end, and nothing says that standard input does: its turns are more than any run takes.
fn run(rt: HostRuntime, input: &mut [u8], line: &mut [u8], reader: Reader) -> Result<Status, Told> {
    let mut values = [0u64; 256];
    let mut last: u32 = 0;
    let mut left: usize = 0;
    for _ in 0..u64::MAX {
        match turn(rt, input, left, reader, &mut last, &mut values, line)? {
            ControlFlow::Continue(next) => left = next,
            ControlFlow::Break(status) => return Ok(status),
        }
    }
    Ok(Status::Failed)
}

// The buffers come as arrays: their lengths are then known by their types.
fn start(
    rt: HostRuntime,
    input: &mut [u8; player::INPUT],
    line: &mut [u8; LINE],
    reader: Reader,
) -> Result<Status, Told> {
    run(rt, input, line, reader)
}

fn heading(rt: HostRuntime, reader: Reader) -> Result<(), Told> {
    match reader {
        Reader::Counts => say(rt, b"commit writes counter=value\n"),
        Reader::Service => say(
            rt,
            b"commit station kind transaction reads writes rcounter=value wcounter=value\n",
        ),
        Reader::File => Ok(()),
    }
}

fn view(rt: HostRuntime, reader: Reader) -> Result<Status, Told> {
    heading(rt, reader)?;
    let mut input = [0u8; player::INPUT];
    let mut line = [0u8; LINE];
    start(rt, &mut input, &mut line, reader)
}

// What a word asks for.
fn asked_by(word: &[u8]) -> Option<Reader> {
    if word == b"--counts".as_slice() {
        return Some(Reader::Counts);
    }
    if word == b"--service".as_slice() {
        return Some(Reader::Service);
    }
    if word == b"--counts-file".as_slice() {
        return Some(Reader::File);
    }
    None
}

// What the one word behind the program's name asks for, if it is one.
fn asked(rt: HostRuntime) -> Option<Reader> {
    if streams::argument_count(&rt) != 2 {
        return None;
    }
    let mut room = streams::buffer();
    asked_by(streams::argument(&rt, 1, &mut room))
}

fn main(rt: HostRuntime) -> ExitCode {
    let Some(reader) = asked(rt) else {
        tell(
            rt,
            b"usage: viewer --counts|--service|--counts-file <ARCHIVE\n",
        );
        return Status::Unclear.code();
    };
    view(rt, reader).unwrap_or(Status::Failed).code()
}
