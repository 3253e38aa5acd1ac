#![tactic(auto)]
// What the playback program does between its reads and writes (docs/PLAYBACK.md): plays of the bytes that are there, the lines in front
// of the records' and behind them, and the joining of two reads. No function here touches a descriptor.
ghost use Rattle.std.specs.Prelude.{◌≡◌, ◌-◌, ◌≤◌, length};
ghost use Rattle.text.specs.Text.{put};
ghost use Rattle.report.specs.Text.{line_at};
ghost use Rattle.player.specs.Play.{noted, change_put, text_put, note_of, ran, run_of};
ghost use Rattle.player.specs.Close.{separator, counter_of, job_of, narrowed, heading_put, table_put, table_due, wants_more, is_missing, closing_line, moved_down};

use archive::{Answer, Fields};

// Bytes of an archive that a program has in hand at a time: more than the longest record that two size fields can claim, which is
// record::HEADER + record::ENTRY * (65,535 + 65,535), so that a record is called short only where the archive ends inside it.
pub const INPUT: usize = 1310720;

// Digits of the largest number of 64 bits.
pub const DIGITS: usize = 20;

// No commit has this number.
pub const NEVER: u64 = 4294967296;

// The listings: a line a commit, the table of counters, the changes of a counter, a record in full. They are numbers and no enum: a job
// is an argument of the functions below, and `run_of`, `heading_put` and `is_missing` say what each does for every number.
pub const COMMITS: u64 = 0;

pub const TABLE: u64 = 1;

pub const CHANGES: u64 = 3;

pub const FULL: u64 = 4;

// Why a play stopped, where it is no number of document 01: the output has no room for another line.
pub const NO_ROOM: u32 = 255;

// What to do: a listing, of which counter, from which commit on, up to which, and the byte between its columns.
#[derive(Clone, Copy)]
pub struct Job {
    pub listing: u64,
    pub counter: u8,
    pub from: u32,
    pub until: u64,
    pub sep: u8,
}

// Where a play of some bytes stopped, and the number that stopped it: 0 at their end or at the job's last commit. It is a number and no
// `Result`: `stop_at`, `wants_more` and `closing_line` take every one, and `ran` names it.
#[derive(Clone, Copy)]
pub struct Stop {
    pub at: usize,
    pub last: u32,
    pub out: usize,
    pub number: u32,
}

pub fn stop_at(at: usize, last: u32, out: usize, number: u32) -> Stop
    ensures { (result.at ≡ at) × (result.last ≡ last) × (result.out ≡ out) × (result.number ≡ number) }
{
    Stop {
        at,
        last,
        out,
        number,
    }
}

// The line of a commit that wrote the job's counter, which was `before` and is `after`.
#[tactic(auto, unfolding(crate::specs::Play::change_put))]
fn note_change(
    part: &[u8],
    f: Fields,
    job: Job,
    before: u64,
    after: u64,
    output: &mut [u8],
    out: usize,
) -> usize
    ensures { put output.new result ≡ change_put job part.now f before after (put output.old out) }
{
    if !history::writes(part, job.counter) {
        return out;
    }
    history::change_line(output, out, f.commit, f.station, before, after, job.sep)
}

// What a replayed record adds to the text.
#[tactic(auto, unfolding(crate::specs::Play::text_put))]
fn note_text(
    part: &[u8],
    base: u64,
    f: Fields,
    job: Job,
    before: u64,
    after: u64,
    output: &mut [u8],
    out: usize,
) -> usize
    ensures { put output.new result ≡ text_put job base part.now f before after (put output.old out) }
{
    if f.commit < job.from {
        return out;
    }
    if job.listing == CHANGES {
        return note_change(part, f, job, before, after, output, out);
    }
    if job.listing == FULL {
        let byte = words::further(base, f.at);
        return full::put_record(part, f, byte, output, out, job.sep);
    }
    report::commit_line(output, out, f, job.sep)
}

// Takes note of a record that was replayed, in the table's counts or in the text. `part` is the input from its start on, `base` the
// archive's byte where the input starts.
#[tactic(auto, unfolding(crate::specs::Play::note_of))]
fn note(
    part: &[u8],
    base: u64,
    f: Fields,
    job: Job,
    before: u64,
    after: u64,
    counts: &mut [u64; 256],
    output: &mut [u8],
    out: usize,
) -> usize
    ensures { noted counts.new (put output.new result) ≡ note_of job base part.now f before after counts.old (put output.old out) }
{
    if job.listing == TABLE {
        totals::count(part, counts);
        return out;
    }
    note_text(part, base, f, job, before, after, output, out)
}

// Plays the records that are whole in the input, up to the commit where the job ends and as long as the output has room for another
// line. One loop serves all listings: the compiler writes replay in place only where it is called once. Room is tested behind a
// line and not in front of it: there the compiler makes a faster loop of it.
pub fn play(
    input: &[u8],
    base: u64,
    last: u32,
    job: Job,
    values: &mut [u64; 256],
    counts: &mut [u64; 256],
    output: &mut [u8],
    out: usize,
) -> Stop
    ensures { ran values.new counts.new (put output.new result.out) result.at result.last result.number ≡ run_of job base input.now last values.old counts.old (put output.old out) }
{
    let counter = job.counter as usize;
    let mut at = 0;
    let mut commit = last;
    let mut next = out;
    loop {
        if u64::from(commit) == job.until {
            return stop_at(at, commit, next, 0);
        }
        let before = values[counter];
        match replay::replay(input, at, commit, values) {
            Answer::Record(f) => {
                let after = values[counter];
                let part = &input[at..];
                next = note(part, base, f, job, before, after, counts, output, next);
                at = f.end;
                commit = f.commit;
                if !text::room(report::LINE, output.len(), next) {
                    return stop_at(at, commit, next, NO_ROOM);
                }
            }
            Answer::End => return stop_at(at, commit, next, 0),
            Answer::Refused(number) => return stop_at(at, commit, next, number),
        }
    }
}

// The byte between columns.
#[tactic(auto, unfolding(crate::specs::Close::separator))]
fn between(csv: u64) -> u8
    ensures { result ≡ separator csv }
{
    if csv == 0 {
        return b' ';
    }
    b','
}

// A counter's number; what is none is 0.
#[tactic(auto, unfolding(crate::specs::Close::counter_of))]
fn counter_of(number: u32) -> u8
    ensures { result ≡ counter_of number }
{
    if number <= 255 {
        return number as u8;
    }
    0
}

// The job that the arguments ask for.
#[tactic(auto, unfolding(crate::specs::Close::job_of))]
pub fn job_of(listing: u64, number: u32, from: u32, until: u64, csv: u64) -> Job
    ensures { result ≡ job_of listing number from until csv }
{
    let sep = between(csv);
    if listing == 2 {
        return Job {
            listing: TABLE,
            counter: 0,
            from: 0,
            until: u64::from(number),
            sep,
        };
    }
    if listing == FULL {
        return Job {
            listing: FULL,
            counter: 0,
            from: number,
            until: u64::from(number),
            sep,
        };
    }
    Job {
        listing,
        counter: counter_of(number),
        from,
        until,
        sep,
    }
}

// A number of the arguments, which 32 bits hold.
#[tactic(auto, unfolding(crate::specs::Close::narrowed))]
pub fn narrow(n: u64) -> u32
    ensures { result ≡ narrowed n }
{
    if n <= 4294967295 {
        return n as u32;
    }
    0
}

// Puts the heading, and answers where the next line goes.
#[tactic(auto, unfolding(crate::specs::Close::heading_put))]
pub fn put_heading(output: &mut [u8], out: usize, job: Job) -> usize
    ensures { put output.new result ≡ heading_put job (put output.old out) }
{
    if job.listing == COMMITS {
        return report::heading_line(output, out, job.sep);
    }
    if job.listing == CHANGES {
        return history::heading_line(output, out, job.sep);
    }
    out
}

// Puts the table: its heading and a line for each counter.
#[tactic(auto, unfolding(crate::specs::Close::counters_to))]
pub fn put_table(
    output: &mut [u8],
    out: usize,
    values: &[u64; 256],
    counts: &[u64; 256],
    sep: u8,
) -> usize
    ensures { put output.new result ≡ table_put sep values.now counts.now (put output.old out) }
{
    let mut next = totals::heading_line(output, out, sep);
    for a in 0..256 {
        next = totals::counter_line(output, next, a as u8, values[a], counts[a], sep);
    }
    next
}

// Whether the table is printed, with the job's last commit reached or not.
#[tactic(auto, unfolding(crate::specs::Close::table_due))]
pub fn table_due(job: Job, reached: bool) -> bool
    ensures { result ≡ table_due job reached }
{
    (job.listing == TABLE) & (reached | (job.until == NEVER))
}

// Whether a play that stopped so goes on behind another read: it is at the end of what is there, or inside a record.
#[tactic(auto, unfolding(crate::specs::Close::wants_more))]
pub fn wants_more(number: u32) -> bool
    ensures { result ≡ wants_more number }
{
    (number == 0) | (number == 12)
}

// Whether an archive that ends before the job's last commit does not have what was asked for: the table as of a commit, or a record.
#[tactic(auto, unfolding(crate::specs::Close::is_missing))]
pub fn is_missing(job: Job) -> bool
    ensures { result ≡ is_missing job }
{
    (job.until < NEVER) & ((job.listing == TABLE) | (job.listing == FULL))
}

// Puts the closing line.
#[tactic(auto, unfolding(crate::specs::Close::closing_line))]
pub fn closing_line(output: &mut [u8], out: usize, reached: bool, number: u32, last: u32) -> usize
    ensures { put output.new result ≡ line_at output.old out (closing_line reached number last) }
{
    if reached {
        return totals::at_line(output, out, last);
    }
    if number == 0 {
        return report::end_line(output, out, last);
    }
    report::refused_line(output, out, number, last)
}

// Moves what is not played, from `at` up to `len`, to the buffer's start, where the next read goes on behind it, and answers how
// much that is.
pub fn move_down(input: &mut [u8], at: usize, len: usize) -> usize
    requires { (at ≤ len) × (len ≤ length input.old) }
    ensures { (input.new ≡ moved_down input.old at len) × (result ≡ len - at) }
{
    input.copy_within(at..len, 0);
    len - at
}
