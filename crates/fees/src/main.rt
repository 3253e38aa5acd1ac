#![tactic(auto)]
// The fees of an archive from standard input by a tariff file, over a stretch of commits (docs/LICENCE.md, "The program").
//
// Memory is constant: the values at the stretch's ends and a mark for each address. The input buffer holds the longest record
// that two size fields can claim, 16 + 9 * (65,535 + 65,535) bytes, so that a record is called short only where the archive
// itself ends inside it.
ghost use Rattle.std.specs.Prelude.{◌≤◌, length};
ghost use Rattle.tariff.specs.Table.{longest_table};

use archive::{Answer, Fields, Found};
use refusals::Refusal;
use signed::Change;
use std::io;
use std::io::IsTerminal;
use streams::{first, read_more, tell, written};
use tariff::Fee;

// So many bytes apart the progress is shown.
const SHOWN: u64 = 67108864;

const MEGABYTE: u64 = 1000000;

// Bytes of `streams::buffer()`: a tariff's text has fewer.
const TARIFF_ROOM: usize = 4096;

// Lines that are read of a tariff: one more than it may have.
const LINES: usize = tariff::STEPS + 1;

// Above it no count can be of either sign.
const MOST: u64 = 9223372036854775807;

// A stretch of commits.
#[derive(Clone, Copy)]
struct Stretch {
    first: u32,
    last: u32,
}

// What was written to an address in the stretch.
#[derive(Clone, Copy, PartialEq, Eq, Debug)]
enum Mark {
    Nothing,
    Values,
    // A value above `MOST` among others.
    Beyond,
}

// What is kept of the archive: the values, those behind the commit before the stretch and behind its last, and each address's mark.
#[derive(Clone, Copy)]
struct Books {
    values: [u64; 256],
    before: [u64; 256],
    after: [u64; 256],
    marks: [Mark; 256],
}

// How far the program has come: where in the archive the input buffer starts, bytes there that are not played yet, last commit
// number, where the progress was shown last, and whether it is shown.
#[derive(Clone, Copy)]
struct State {
    start: u64,
    len: usize,
    last: u32,
    shown: u64,
    terminal: bool,
}

// Cents that are charged and cents that are given back.
#[derive(Clone, Copy)]
struct Total {
    charged: u64,
    returned: u64,
}

// A line to standard output. Where it fails the program says so and goes on: each line stands for itself.
fn say(rt: HostRuntime, line: io::Result<()>) {
    let _ = written(rt, b"standard output", line);
}

// `refused N`, where no commit can be named.
fn refused(rt: HostRuntime, why: Refusal) {
    say(rt, println!(rt; "refused {}", why.number()));
}

// The mark behind a write of this value.
fn marked(mark: Mark, value: u64) -> Mark {
    if MOST < value || mark == Mark::Beyond {
        return Mark::Beyond;
    }
    Mark::Values
}

// Marks the address of entry i of a record of k entries.
fn mark_entry(input: &[u8], at: usize, k: u32, i: u32, marks: &mut [Mark; 256]) {
    let Found::Entry { address, value } = archive::entry(input, at, k, i) else {
        return;
    };
    let a = address as usize;
    let m = marks[a];
    marks[a] = marked(m, value);
}

// Marks the addresses that a record writes.
fn mark_writes(input: &[u8], f: Fields, marks: &mut [Mark; 256]) {
    let k = full::entry_count(f);
    for i in f.reads..k {
        mark_entry(input, f.at, k, i, marks);
    }
}

// Takes note of a record that was replayed.
fn note(input: &[u8], f: Fields, stretch: Stretch, books: &mut Books) {
    let commit = f.commit;
    if u64::from(commit) + 1 == u64::from(stretch.first) {
        books.before = books.values;
    }
    if commit == stretch.last {
        books.after = books.values;
    }
    if stretch.first <= commit && commit <= stretch.last {
        mark_writes(input, f, &mut books.marks);
    }
}

// Plays the records that are whole in the input behind commit `last`, and answers where they end, their last commit, and the number that
// refuses what follows them: none at the end of what is there.
fn play(input: &[u8], last: u32, stretch: Stretch, books: &mut Books) -> (usize, u32, Option<u32>) {
    let mut at = 0;
    let mut commit = last;
    loop {
        match replay::replay(input, at, commit, &mut books.values) {
            Answer::Record(f) => {
                note(input, f, stretch, books);
                at = f.end;
                commit = f.commit;
            }
            Answer::End => return (at, commit, None),
            Answer::Refused(number) => return (at, commit, Some(number)),
        }
    }
}

// The words of `words`, which begin with the playback program's name.
fn say_fault(rt: HostRuntime, part: &[u8], start: u64, last: u32, values: &[u64; 256]) {
    let mut line = [0u8; words::LINE];
    let e = words::fault_line(&mut line, 0, start, fault::first_fault(part, last, values));
    let Some(text) = first(&line, e).get(words::PREFIX..) else {
        return;
    };
    tell(rt, b"fees: ");
    tell(rt, text);
}

// `refused N after K`, and what is wrong with the record at the start of these bytes.
fn refuse(rt: HostRuntime, part: &[u8], start: u64, number: u32, last: u32, values: &[u64; 256]) {
    say(rt, println!(rt; "refused {number} after {last}"));
    say_fault(rt, part, start, last, values);
}

// Takes the line that shows the progress away.
fn clear(rt: HostRuntime, terminal: bool) {
    if terminal {
        tell(rt, b"\r                                        \r");
    }
}

// Shows how far the archive is read, on a terminal, and answers where that was.
fn show(rt: HostRuntime, s: State, start: u64, last: u32) -> u64 {
    if !s.terminal || start < s.shown || start - s.shown < SHOWN {
        return s.shown;
    }
    let _ = eprint!(rt; "\rfees: {} MB, commit {last}", start / MEGABYTE);
    start
}

// Plays the first `len` bytes of the buffer and keeps the record that is cut by its end for the next turn. Nothing follows a refusal.
fn advance(
    rt: HostRuntime,
    input: &mut [u8],
    len: usize,
    stretch: Stretch,
    books: &mut Books,
    s: State,
) -> Option<State>
    requires { len ≤ length input.old }
{
    let (played, last, refusal) = play(&input[..len], s.last, stretch, books);
    let at = played.min(len);
    let start = words::further(s.start, at);
    if let Some(number) = refusal
        && number != Refusal::Short.number()
    {
        clear(rt, s.terminal);
        refuse(rt, &input[at..len], start, number, last, &books.values);
        return None;
    }
    let shown = show(rt, s, start, last);
    Some(State {
        start,
        len: player::move_down(input, at, len),
        last,
        shown,
        terminal: s.terminal,
    })
}

// Says why the stretch is not in an archive whose last commit has this number.
fn say_outside(rt: HostRuntime, stretch: Stretch, last: u32) {
    if stretch.first == 0 {
        tell(rt, b"fees: there is no commit 0: the first is 1\n");
        return;
    }
    if stretch.last < stretch.first {
        tell(
            rt,
            b"fees: the stretch is backwards: its first commit is behind its last\n",
        );
        return;
    }
    let end = stretch.last;
    let _ = eprintln!(rt; "fees: there is no commit {end}: the archive ends behind commit {last}");
}

// Whether the stretch is in an archive whose last commit has this number.
fn is_in(stretch: Stretch, last: u32) -> bool {
    stretch.first != 0 && stretch.first <= stretch.last && stretch.last <= last
}

// The sum of two numbers up to `MOST`; what is above it is not added, or added to.
fn more(sum: u64, n: u64) -> u64 {
    if MOST < sum || MOST < n {
        return sum;
    }
    sum + n
}

// The total with one fee more.
fn charged(total: Total, cents: i64) -> Total {
    let m = signed::magnitude(cents);
    if cents < 0 {
        return Total {
            charged: total.charged,
            returned: more(total.returned, m),
        };
    }
    Total {
        charged: more(total.charged, m),
        returned: total.returned,
    }
}

// The frames between an address's values at the stretch's ends, and the fee for them, where both are numbers of 64 bits.
fn owed(table: &[u8], mark: Mark, new: u64, old: u64) -> Option<(i64, i64)>
    requires { length table.now ≤ longest_table }
{
    if mark == Mark::Beyond {
        return None;
    }
    let Change::By(frames) = signed::between(new, old) else {
        return None;
    };
    let Fee::Owed(cents) = tariff::fee_for(table, frames) else {
        return None;
    };
    Some((frames, cents))
}

// The line of an address, and the total behind it: none any more where the address has no fee.
fn bill(
    rt: HostRuntime,
    address: usize,
    fee: Option<(i64, i64)>,
    total: Option<Total>,
) -> Option<Total> {
    let Some((frames, cents)) = fee else {
        say(
            rt,
            println!(rt; "{address} refused {}", Refusal::Beyond.number()),
        );
        return None;
    };
    say(rt, println!(rt; "{address} {frames} {cents}"));
    Some(charged(total?, cents))
}

// What is charged less what is given back.
fn sum_of(total: Option<Total>) -> Option<i64> {
    let total = total?;
    match signed::between(total.charged, total.returned) {
        Change::Beyond => None,
        Change::By(cents) => Some(cents),
    }
}

// The last line.
fn say_total(rt: HostRuntime, total: Option<Total>) {
    match sum_of(total) {
        Some(cents) => say(rt, println!(rt; "total {cents}")),
        None => say(
            rt,
            println!(rt; "total refused {}", Refusal::Beyond.number()),
        ),
    }
}

// Heading, a line for each address written in the stretch, and the total.
fn print_bills(rt: HostRuntime, table: &[u8], books: &Books)
    requires { length table.now ≤ longest_table }
{
    say(rt, println!(rt; "address frames cents"));
    let mut total = Some(Total {
        charged: 0,
        returned: 0,
    });
    for a in 0..256 {
        let mark = books.marks[a];
        if mark != Mark::Nothing {
            let fee = owed(table, mark, books.after[a], books.before[a]);
            total = bill(rt, a, fee, total);
        }
    }
    say_total(rt, total);
}

// The end of the archive. Bytes that are left are a record cut short.
fn ended(rt: HostRuntime, left: &[u8], table: &[u8], stretch: Stretch, books: &Books, s: State)
    requires { length table.now ≤ longest_table }
{
    clear(rt, s.terminal);
    if left.len() != 0 {
        let short = Refusal::Short.number();
        refuse(rt, left, s.start, short, s.last, &books.values);
        return;
    }
    if !is_in(stretch, s.last) {
        refused(rt, Refusal::Sequence);
        say_outside(rt, stretch, s.last);
        return;
    }
    print_bills(rt, table, books);
}

// One read, and the play of what is then there.
fn turn(
    rt: HostRuntime,
    input: &mut [u8],
    table: &[u8],
    stretch: Stretch,
    books: &mut Books,
    s: State,
) -> Option<State>
    requires { length table.now ≤ longest_table }
{
    let len = s.len.min(input.len());
    match read_more(&mut rt.stdin(), input, len) {
        Ok(Some(n)) => {
            let have = n.min(input.len());
            advance(rt, input, have, stretch, books, s)
        }
        Ok(None) => {
            ended(rt, &input[..len], table, stretch, books, s);
            None
        }
        Err(error) => {
            clear(rt, s.terminal);
            streams::fail(rt, b"standard input", error);
            None
        }
    }
}

// A proved loop has to end, and nothing says that standard input does: its turns are more than any run takes.
fn run(rt: HostRuntime, input: &mut [u8], table: &[u8], stretch: Stretch)
    requires { length table.now ≤ longest_table }
{
    let mut books = Books {
        values: [0u64; 256],
        before: [0u64; 256],
        after: [0u64; 256],
        marks: [Mark::Nothing; 256],
    };
    let mut s = State {
        start: 0,
        len: 0,
        last: 0,
        shown: 0,
        terminal: rt.stderr().is_terminal(),
    };
    for _ in 0..u64::MAX {
        let Some(next) = turn(rt, input, table, stretch, &mut books, s) else {
            return;
        };
        s = next;
    }
}

// The buffer comes as an array: its length is then known by its type, and nothing has to be computed of its bytes.
fn start(rt: HostRuntime, input: &mut [u8; player::INPUT], table: &[u8], stretch: Stretch)
    requires { length table.now ≤ longest_table }
{
    run(rt, input, table, stretch);
}

fn bill_archive(rt: HostRuntime, table: &[u8], stretch: Stretch)
    requires { length table.now ≤ longest_table }
{
    let mut input = [0u8; player::INPUT];
    start(rt, &mut input, table, stretch);
}

// Where the line that starts at `at` ends: at its byte 10, or where the text does.
fn line_end(text: &[u8], at: usize) -> usize
    requires { at ≤ length text.now }
    ensures { (at ≤ result) × (result ≤ length text.now) }
{
    for e in at..text.len() {
        if text[e] == b'\n' {
            return e;
        }
    }
    text.len()
}

// Where the next line starts.
fn behind(e: usize, len: usize) -> usize {
    if e < len { e + 1 } else { len }
}

// Says what is wrong with a line of the tariff file, and refuses it.
fn wrong_line(rt: HostRuntime, line: u64, words: &str) {
    refused(rt, Refusal::Tariff);
    let _ = eprintln!(rt; "fees: tariff, line {line}: {words}");
}

// How far a tariff file is read: bytes, steps, and the last upper count.
#[derive(Clone, Copy)]
struct Reading {
    at: usize,
    steps: usize,
    upper: u64,
}

// The line behind so many steps.
fn line_of(steps: usize) -> u64 {
    if tariff::STEPS < steps {
        return LINES as u64;
    }
    steps as u64 + 1
}

// Each function below that reads a tariff answers nothing where it refuses it.

// Takes a step behind the others into the table.
fn take_step(
    rt: HostRuntime,
    table: &mut [u8],
    r: Reading,
    e: usize,
    upper: u64,
    price: u32,
) -> Option<Reading> {
    let i = r.steps;
    let line = line_of(i);
    if tariff::STEPS <= i {
        wrong_line(rt, line, "a tariff has at most 16 steps");
        return None;
    }
    if 0 < i && upper <= r.upper {
        wrong_line(rt, line, "the upper count is not above the one before");
        return None;
    }
    if table.len() < tariff::LONGEST {
        return None;
    }
    le::put_u64(table, tariff::STEP * i, upper);
    le::put_u32(table, tariff::STEP * i + tariff::PRICE, price);
    Some(Reading {
        at: e,
        steps: i + 1,
        upper,
    })
}

// Reads the line at `r.at`.
fn take_line(rt: HostRuntime, text: &[u8], table: &mut [u8], r: Reading) -> Option<Reading> {
    let at = r.at.min(text.len());
    let e = line_end(text, at);
    match tariff_file::step_of(&text[at..e]) {
        None => {
            wrong_line(
                rt,
                line_of(r.steps),
                "not an upper count of 0 to 9223372036854775807, a space and a price of 0 to 4294967295",
            );
            None
        }
        Some(step) => { take_step(rt, table, r, behind(e, text.len()), step.upper, step.price) }
    }
}

// Reads a tariff's text into a table, and answers how many bytes of it are used.
fn take_tariff(rt: HostRuntime, text: &[u8], table: &mut [u8]) -> Option<usize> {
    let mut r = Reading {
        at: 0,
        steps: 0,
        upper: 0,
    };
    for _ in 0..LINES {
        if text.len() <= r.at {
            break;
        }
        r = take_line(rt, text, table, r)?;
    }
    whole_tariff(rt, r)
}

// The end of a tariff's text: the bytes of its steps, the last of which has to end it.
fn whole_tariff(rt: HostRuntime, r: Reading) -> Option<usize> {
    if r.steps == 0 {
        wrong_line(rt, 1, "there is no step");
        return None;
    }
    if r.upper != MOST {
        wrong_line(
            rt,
            r.steps as u64,
            "the last upper count is not 9223372036854775807",
        );
        return None;
    }
    if tariff::STEPS < r.steps {
        return None;
    }
    Some(tariff::STEP * r.steps)
}

// The tariff is a table's first bytes.
fn with_table(rt: HostRuntime, part: &[u8], stretch: Stretch) {
    if tariff::LONGEST < part.len() {
        return;
    }
    if !tariff::keeps_rules(part) {
        refused(rt, Refusal::Tariff);
        return;
    }
    bill_archive(rt, part, stretch);
}

// The tariff's text is in hand.
fn with_tariff(rt: HostRuntime, text: &[u8], stretch: Stretch) {
    let mut table = [0u8; tariff::LONGEST];
    if let Some(length) = take_tariff(rt, text, &mut table) {
        with_table(rt, first(&table, length), stretch);
    }
}

// Reads the tariff file of this name.
fn with_file(rt: HostRuntime, path: &[u8], stretch: Stretch) {
    match streams::open(rt, path) {
        Err(error) => streams::fail(rt, path, error),
        Ok(mut file) => {
            let mut text = streams::buffer();
            let n = streams::read_full(&mut file, &mut text);
            drop(file);
            if n == TARIFF_ROOM {
                refused(rt, Refusal::Tariff);
                let most = TARIFF_ROOM - 1;
                let _ = eprintln!(rt; "fees: tariff: the file is longer than {most} bytes");
                return;
            }
            with_tariff(rt, &text[..n], stretch);
        }
    }
}

fn help(rt: HostRuntime) {
    say(
        rt,
        rt.write_all(
            b"\
usage: fees TARIFF FIRST LAST <ARCHIVE
       fees --help
Prints the chargeable frames and the fee in cents of each counter that the commits FIRST to LAST write, and the total.
TARIFF is a file of 1 to 16 lines `upper price`: the step's last frame, and its price per 1,000 frames in hundredths of
a cent. Upper counts rise, and the last is 9223372036854775807.
The last line is `total CENTS`, or `refused N` or `refused N after K`; what is wrong goes to standard error.
",
        ),
    );
}

fn misunderstood(rt: HostRuntime) {
    tell(
        rt,
        b"fees: the arguments are not understood; fees --help says which there are\n",
    );
}

// The three words are these.
fn asked(rt: HostRuntime, path: &[u8], first: &[u8], last: &[u8]) {
    let (Some(first), Some(last)) = (arguments::commit_of(first), arguments::commit_of(last)) else {
        misunderstood(rt);
        return;
    };
    with_file(rt, path, Stretch { first, last });
}

fn main(rt: HostRuntime) {
    let mut path = streams::buffer();
    let mut first = streams::buffer();
    let mut last = streams::buffer();
    let path = streams::argument(&rt, 1, &mut path);
    let first = streams::argument(&rt, 2, &mut first);
    let last = streams::argument(&rt, 3, &mut last);
    match streams::argument_count(&rt) {
        2 if path == b"--help".as_slice() => help(rt),
        4 => asked(rt, path, first, last),
        _ => misunderstood(rt),
    }
}
