#![tactic(auto)]
// Plays back an archive (docs/PLAYBACK.md): a line a commit, a table of the counters, the changes of one, or one record.
//
// Memory is constant. The input buffer holds the longest record that two size fields can claim, 16 + 9 * (65,535 + 65,535)
// bytes, so that a record is called short only where the archive itself ends inside it. What is done between reads and writes is
// crate player's; here are the reads and the writes, and what is said to standard error.
ghost use Rattle.std.specs.Prelude.{◌≤◌, ◌≡◌, ◌==◌, if◌then◌else◌, length};
ghost use Rattle.std.specs.Process.{exit_status};
ghost use Rattle.streams.specs.Ending.{number_of};

use player::{Job, Stop};
use refusals::Refusal;
use std::ops::ControlFlow;
use std::process::ExitCode;
use streams::{Source, Status, Told, first, read_more, written};

// Room for the table and the closing line.
const TABLE_ROOM: usize = 16512;

// How far the program has come: the bytes of the input buffer that are not played yet, where in the archive they start, the last commit
// number, and the bytes of the output buffer that are not written yet.
#[derive(Clone, Copy)]
struct State {
    start: u64,
    at: usize,
    len: usize,
    last: u32,
    out: usize,
}

// The counters: what each is, and how often it was written.
#[derive(Clone, Copy)]
struct Counters {
    values: [u64; 256],
    counts: [u64; 256],
}

// Each function below that writes fails where that could not be: the first write that fails is the last.

fn write_out(rt: HostRuntime, text: &[u8]) -> Result<(), Told> {
    written(rt, b"playback: standard output", rt.write_all(text))
}

// Writes the lines so far.
fn flush(rt: HostRuntime, output: &[u8], out: usize) -> Result<(), Told> {
    write_out(rt, first(output, out))
}

// Says that the archive ends before a commit.
fn say_missing(rt: HostRuntime, commit: u32, last: u32) {
    let mut line = [0u8; totals::MESSAGE];
    let e = totals::missing_line(&mut line, 0, commit, last);
    streams::tell(rt, first(&line, e));
}

// Says what is wrong with the record at the start of these bytes, which start at byte `start` of the archive.
fn say_fault(rt: HostRuntime, part: &[u8], start: u64, last: u32, values: &[u64; 256]) {
    let mut line = [0u8; words::LINE];
    let e = words::fault_line(&mut line, 0, start, fault::first_fault(part, last, values));
    streams::tell(rt, first(&line, e));
}

// Says the closing line where standard output has rows alone.
fn say_closing(rt: HostRuntime, reached: bool, number: u32, last: u32) {
    let mut line = [0u8; totals::MESSAGE];
    let e = text::put_text(&mut line, 0, b"playback: ");
    let e = player::closing_line(&mut line, e, reached, number, last);
    streams::tell(rt, first(&line, e));
}

// Writes the closing line behind what is there; for a spreadsheet it goes to standard error.
fn write_closing(
    rt: HostRuntime,
    output: &mut [u8],
    out: usize,
    job: Job,
    stop: Stop,
    reached: bool,
) -> Result<(), Told> {
    if job.sep == b' ' {
        let e = player::closing_line(output, out, reached, stop.number, stop.last);
        return flush(rt, output, e);
    }
    flush(rt, output, out)?;
    say_closing(rt, reached, stop.number, stop.last);
    Ok(())
}

// The text's end, from `out` on: the table where it is due, then the closing line.
fn finish_from(
    rt: HostRuntime,
    output: &mut [u8],
    out: usize,
    job: Job,
    stop: Stop,
    reached: bool,
    counters: &Counters,
) -> Result<(), Told> {
    if !player::table_due(job, reached) {
        return write_closing(rt, output, out, job, stop, reached);
    }
    let e = player::put_table(output, out, &counters.values, &counters.counts, job.sep);
    write_closing(rt, output, e, job, stop, reached)
}

// The same behind what is there, which is written first where the table would have no room.
fn finish(
    rt: HostRuntime,
    output: &mut [u8],
    job: Job,
    stop: Stop,
    reached: bool,
    counters: &Counters,
) -> Result<(), Told> {
    let out = stop.out;
    if text::room(TABLE_ROOM, output.len(), out) {
        return finish_from(rt, output, out, job, stop, reached, counters);
    }
    flush(rt, output, out)?;
    finish_from(rt, output, 0, job, stop, reached, counters)
}

// The end at a record that is refused, which stands at the start of `part`.
fn end_refused(
    rt: HostRuntime,
    part: &[u8],
    start: u64,
    output: &mut [u8],
    job: Job,
    stop: Stop,
    counters: &Counters,
) -> Result<Status, Told> {
    finish(rt, output, job, stop, false, counters)?;
    say_fault(rt, part, start, stop.last, &counters.values);
    Ok(Status::Refused)
}

// The end of the archive behind a whole record. A table as of a commit, or a record, that does not come was asked for in vain.
fn end_whole(
    rt: HostRuntime,
    output: &mut [u8],
    job: Job,
    stop: Stop,
    counters: &Counters,
) -> Result<Status, Told> {
    finish(rt, output, job, stop, false, counters)?;
    if !player::is_missing(job) {
        return Ok(Status::Accepted);
    }
    say_missing(rt, player::narrow(job.until), stop.last);
    Ok(Status::Unclear)
}

// The end of the archive with these bytes left: none, or a record that is cut short.
fn end(
    rt: HostRuntime,
    left: &[u8],
    start: u64,
    output: &mut [u8],
    job: Job,
    stop: Stop,
    counters: &Counters,
) -> Result<Status, Told> {
    if left.len() == 0 {
        let whole = player::stop_at(0, stop.last, stop.out, 0);
        return end_whole(rt, output, job, whole, counters);
    }
    let short = player::stop_at(0, stop.last, stop.out, Refusal::Short.number());
    end_refused(rt, left, start, output, job, short, counters)
}

// More is wanted: keeps what is not played, which starts at byte `start` of the archive, and reads behind it.
fn read_on(
    rt: HostRuntime,
    source: &mut Source,
    input: &mut [u8],
    at: usize,
    len: usize,
    start: u64,
    job: Job,
    counters: &Counters,
    output: &mut [u8],
    stop: Stop,
) -> Result<ControlFlow<Status, State>, Told>
    requires { (at ≤ len) × (len ≤ length input.old) }
{
    let left = player::move_down(input, at, len);
    match read_more(source, input, left) {
        Ok(Some(n)) => Ok(ControlFlow::Continue(State {
            start,
            at: 0,
            len: n,
            last: stop.last,
            out: stop.out,
        })),
        Ok(None) => {
            let status = end(rt, first(input, left), start, output, job, stop, counters)?;
            Ok(ControlFlow::Break(status))
        }
        Err(error) => {
            streams::fail(rt, b"playback: the archive cannot be read", error);
            flush(rt, output, stop.out)?;
            Err(Told)
        }
    }
}

// One turn: a play of what is there, then what it asks for, which is a write, a read or the end.
fn turn(
    rt: HostRuntime,
    source: &mut Source,
    input: &mut [u8],
    job: Job,
    counters: &mut Counters,
    output: &mut [u8],
    s: State,
) -> Result<ControlFlow<Status, State>, Told> {
    let len = s.len.min(input.len());
    let from = s.at.min(len);
    let stop = player::play(
        &input[from..len],
        s.start,
        s.last,
        job,
        &mut counters.values,
        &mut counters.counts,
        output,
        s.out,
    );
    let at = from + stop.at.min(len - from);
    let start = words::further(s.start, stop.at);
    if stop.number == player::NO_ROOM {
        flush(rt, output, stop.out)?;
        return Ok(ControlFlow::Continue(State {
            start,
            at,
            len,
            last: stop.last,
            out: 0,
        }));
    }
    if u64::from(stop.last) == job.until {
        finish(rt, output, job, stop, true, counters)?;
        return Ok(ControlFlow::Break(Status::Accepted));
    }
    if player::wants_more(stop.number) {
        return read_on(
            rt, source, input, at, len, start, job, counters, output, stop,
        );
    }
    let status = end_refused(rt, &input[at..len], start, output, job, stop, counters)?;
    Ok(ControlFlow::Break(status))
}

// A proved loop has to end, and nothing says that the archive does: its turns are more than any run takes.
fn run(
    rt: HostRuntime,
    source: &mut Source,
    input: &mut [u8],
    job: Job,
    counters: &mut Counters,
    output: &mut [u8],
) -> Result<Status, Told> {
    let mut s = State {
        start: 0,
        at: 0,
        len: 0,
        last: 0,
        out: player::put_heading(output, 0, job),
    };
    for _ in 0..u64::MAX {
        match turn(rt, source, input, job, counters, output, s)? {
            ControlFlow::Continue(next) => s = next,
            ControlFlow::Break(status) => return Ok(status),
        }
    }
    Ok(Status::Failed)
}

// The buffer comes as an array: its length is then known by its type, and nothing has to be computed of its bytes.
fn start(
    rt: HostRuntime,
    source: &mut Source,
    input: &mut [u8; player::INPUT],
    job: Job,
) -> Result<Status, Told> {
    let mut counters = Counters {
        values: [0u64; 256],
        counts: [0u64; 256],
    };
    let mut output = streams::large_buffer();
    run(rt, source, input, job, &mut counters, &mut output)
}

fn do_job(rt: HostRuntime, source: &mut Source, job: Job) -> Result<Status, Told> {
    let mut input = [0u8; player::INPUT];
    start(rt, source, &mut input, job)
}

fn help_listings(rt: HostRuntime) -> Result<(), Told> {
    write_out(rt, b"usage: playback [LISTING] [--csv] [ARCHIVE]\n")?;
    write_out(
        rt,
        b"Plays back an archive, or - or nothing for standard input, and prints a listing:\n",
    )?;
    write_out(
        rt,
        b"  (none)       a line a commit; --from N and --to M print those from N to M\n",
    )?;
    write_out(
        rt,
        b"  --totals     each counter's value at the end, and how often it was written\n",
    )?;
    write_out(
        rt,
        b"  --at N       the same as it stood after commit N, from 0 to 4294967295\n",
    )?;
    write_out(
        rt,
        b"  --counter A  each commit that wrote counter A, 0 to 255; also with --from N and --to M\n",
    )?;
    write_out(
        rt,
        b"  --record N   commit N in full: its numbers, and every read and write\n",
    )
}

fn help(rt: HostRuntime) -> Result<Status, Told> {
    help_listings(rt)?;
    write_out(
        rt,
        b"  --csv        with commas, and the closing line on standard error\n",
    )?;
    write_out(rt, b"  --help, --version\n")?;
    write_out(
        rt,
        b"The closing line is `end N`, `at N` or `refused N after K`; what is wrong goes to standard error.\n",
    )?;
    write_out(
        rt,
        b"waxwingrack-play exits with 0 accepted, 1 refused, 2 not understood or no such commit, 3 failed.\n",
    )?;
    Ok(Status::Accepted)
}

fn version(rt: HostRuntime) -> Result<Status, Told> {
    write_out(rt, b"playback 1.13.3\n")?;
    Ok(Status::Accepted)
}

// Names the word that is not understood.
fn misunderstood(rt: HostRuntime, i: usize) -> Status {
    let mut room = streams::buffer();
    let word = streams::argument(&rt, i, &mut room);
    let mut line = [0u8; arguments::LINE];
    let e = arguments::unclear_line(&mut line, 0, word);
    streams::tell(rt, first(&line, e));
    Status::Unclear
}

// Takes word i.
fn take_word(rt: HostRuntime, a: &mut [u64; arguments::NUMBERS], i: usize) {
    let mut room = streams::buffer();
    arguments::take(a, i as u64, streams::argument(&rt, i, &mut room));
}

// Takes the words behind the program's name, in order.
fn take_words(rt: HostRuntime, a: &mut [u64; arguments::NUMBERS], count: usize) {
    for i in 1..count {
        take_word(rt, a, i);
    }
    arguments::settle(a, count.saturating_sub(1) as u64);
}

// Opens the archive that word i names; 0 and the word - are standard input.
fn open(rt: HostRuntime, i: usize) -> Result<Source, Told> {
    if i == 0 {
        return Ok(Source::Standard(rt.stdin()));
    }
    let mut room = streams::buffer();
    let word = streams::argument(&rt, i, &mut room);
    if arguments::is_dash(word) {
        return Ok(Source::Standard(rt.stdin()));
    }
    match streams::open(rt, word) {
        Ok(file) => Ok(Source::Named(file)),
        Err(error) => {
            streams::tell(rt, b"playback: ");
            streams::fail(rt, word, error);
            Err(Told)
        }
    }
}

// Does what is asked for.
fn answer(rt: HostRuntime, a: &[u64; arguments::NUMBERS]) -> Result<Status, Told> {
    let wrong = a[arguments::WRONG];
    if wrong != 0 {
        return Ok(misunderstood(rt, wrong as usize));
    }
    let listing = a[arguments::LISTING];
    if listing == arguments::HELP {
        return help(rt);
    }
    if listing == arguments::VERSION {
        return version(rt);
    }
    let number = player::narrow(a[arguments::NUMBER]);
    let from = player::narrow(a[arguments::FROM]);
    let until = a[arguments::UNTIL];
    let job = player::job_of(listing, number, from, until, a[arguments::CSV]);
    let mut source = open(rt, a[arguments::FILE] as usize)?;
    do_job(rt, &mut source, job)
}

// The exit status for the front end, which asks for it; by itself the program ends with 0.
fn tell(asked: u64, status: Status) -> ExitCode
    ensures { exit_status result ≡ (if asked == 0 then 0 else number_of status) }
{
    if asked == 0 {
        return ExitCode::SUCCESS;
    }
    status.code()
}

fn main(rt: HostRuntime) -> ExitCode {
    let mut a = arguments::nothing_asked();
    take_words(rt, &mut a, streams::argument_count(&rt));
    let status = answer(rt, &a).unwrap_or(Status::Failed);
    tell(a[arguments::STATUS], status)
}
