#![tactic(auto)]
// Says which of two archive files is the longer truth (docs/COMPARE.md): record by record as far as they are the same, then each to its end.
//
// Memory is constant: a buffer and 256 values for each archive. A buffer holds the longest record that two size fields can claim,
// 16 + 9 * (65,535 + 65,535) bytes, so that a record is called short only where the archive itself ends inside it.
ghost use Rattle.std.specs.Prelude.{◌≡◌, ◌%◌};
ghost use Rattle.std.specs.Process.{exit_status};

use archive::{Answer, Fields, Found};
use std::fs::File;
use std::ops::ControlFlow;
use std::process::ExitCode;
use streams::{Told, read_more, tell, written};

// How the program ends. The numbers are its exit statuses.
#[derive(Clone, Copy)]
enum Status {
    Same = 0,
    Other = 1,
    Refused = 2,
    Failed = 3,
}

// What becomes of an archive: its next record is to be played, it is played to its end, it is refused with a number, or it cannot be read.
#[derive(Clone, Copy)]
enum State {
    Going,
    Done,
    Refused(u32),
    Unread,
}

// How far one of the archives is: the bytes of its buffer that are not played yet, where in the archive they start, whether all of it
// is read, its last commit number, and what becomes of it.
#[derive(Clone, Copy)]
struct Side {
    at: usize,
    len: usize,
    byte: u64,
    ended: bool,
    last: u32,
    state: State,
}

// Both archives' files.
#[derive(Drop)]
struct Files {
    first: File,
    second: File,
}

// How far both are.
#[derive(Clone, Copy)]
struct Pair {
    first: Side,
    second: Side,
}

// An entry of a record.
#[derive(Clone, Copy)]
struct Entry {
    address: u8,
    value: u64,
}

// The fields in which records differ. A value's is of a counter.
#[derive(Clone, Copy)]
enum Field {
    Reads,
    Writes,
    Transaction,
    Station,
    Kind,
    ReadCounter,
    WrittenCounter,
    ReadValue(u8),
    WrittenValue(u8),
}

// The field in which two records differ first, and its two values.
#[derive(Clone, Copy)]
struct Difference {
    field: Field,
    first: u64,
    second: u64,
}

// Where two archives part: behind this commit, at this byte, with this difference.
#[derive(Clone, Copy)]
struct Parting {
    last: u32,
    byte: u64,
    difference: Difference,
}

// Each function below that says something on standard output fails where that cannot be written, which is told then.

fn say(rt: HostRuntime, text: &[u8]) -> Result<(), Told> {
    written(rt, b"compare: standard output", rt.write_all(text))
}

fn say_number(rt: HostRuntime, n: u64) -> Result<(), Told> {
    let mut text = [0u8; player::DIGITS];
    let k = streams::decimal(n, &mut text);
    say(rt, &text[..k])
}

impl Side {
    // Nothing of the archive is read yet.
    fn opened() -> Side {
        Side {
            at: 0,
            len: 0,
            byte: 0,
            ended: false,
            last: 0,
            state: State::Going,
        }
    }

    fn going(self) -> bool {
        match self.state {
            State::Going => true,
            State::Done => false,
            State::Refused(_) => false,
            State::Unread => false,
        }
    }

    // Whether more bytes can make another answer.
    fn wants_more(self) -> bool {
        match self.state {
            State::Going => false,
            State::Done => true,
            State::Refused(number) => player::wants_more(number),
            State::Unread => false,
        }
    }

    // Nothing more is done.
    fn stopped(self, state: State) -> Side {
        let mut s = self;
        s.ended = true;
        s.state = state;
        s
    }

    // The place behind so many bytes of the buffer.
    fn further(self, length: usize) -> usize {
        if self.len < self.at {
            return self.len;
        }
        self.at + length.min(self.len - self.at)
    }

    // Behind a record of so many bytes.
    fn behind(self, length: usize, commit: u32) -> Side {
        let mut s = self;
        s.at = self.further(length);
        s.byte = words::further(self.byte, length);
        s.last = commit;
        s
    }
}

// Keeps what is not played and reads behind it.
fn refill(rt: HostRuntime, file: &File, input: &mut [u8], s: Side) -> Side {
    let len = s.len.min(input.len());
    let at = s.at.min(len);
    let left = player::move_down(input, at, len);
    let mut from = file;
    let mut t = s;
    t.at = 0;
    match read_more(&mut from, input, left) {
        Ok(Some(n)) => {
            t.len = n;
            t.ended = false;
            t
        }
        Ok(None) => {
            t.len = left;
            t.ended = true;
            t
        }
        Err(error) => {
            streams::fail(rt, b"compare: an archive cannot be read", error);
            s.stopped(State::Unread)
        }
    }
}

// The bytes of a buffer that are not played yet.
fn rest(input: &[u8], s: Side) -> &[u8] {
    let len = s.len.min(input.len());
    let at = s.at.min(len);
    &input[at..len]
}

// Whether the next record is whole in the buffer.
fn is_whole(input: &[u8], s: Side) -> bool {
    let part = rest(input, s);
    record::claimed_length(part) <= part.len()
}

// Reads until the next record is whole in the buffer or the archive ends. A proved loop has to end, and nothing says that a file does: it
// counts to a number that no run reaches.
fn fetch(rt: HostRuntime, file: &File, input: &mut [u8], s: Side) -> Side {
    let mut t = s;
    for _ in 0..u64::MAX {
        if t.ended {
            return t;
        }
        if is_whole(input, t) {
            return t;
        }
        t = refill(rt, file, input, t);
    }
    t
}

// Plays the next record of an archive.
fn play_one(input: &[u8], values: &mut [u64; 256], s: Side) -> Side {
    match replay::replay(rest(input, s), 0, s.last, values) {
        Answer::Record(f) => s.behind(f.end, f.commit),
        Answer::End => s.stopped(State::Done),
        Answer::Refused(number) => s.stopped(State::Refused(number)),
    }
}

// Plays the next record of an archive; it is read first only where it is not whole in the buffer.
fn step(rt: HostRuntime, file: &File, input: &mut [u8], values: &mut [u64; 256], s: Side) -> Side {
    let there = play_one(input, values, s);
    if s.ended {
        return there;
    }
    if !there.wants_more() {
        return there;
    }
    let t = fetch(rt, file, input, s);
    if !t.going() {
        return t;
    }
    play_one(input, values, t)
}

// Plays an archive to its end.
fn finish(
    rt: HostRuntime,
    file: &File,
    input: &mut [u8],
    values: &mut [u64; 256],
    s: Side,
) -> Side {
    let mut t = s;
    for _ in 0..u64::MAX {
        if !t.going() {
            return t;
        }
        t = step(rt, file, input, values, t);
    }
    t
}

// Whether the record at the start of `part` stands in the other archive too.
fn is_common(part: &[u8], other: &[u8]) -> bool {
    compare::same_bytes(part, other, record::claimed_length(part))
}

// Plays the next record of both; none where it is not common.
fn play_both(a: &[u8], b: &[u8], values: &mut [u64; 256], pair: Pair) -> Option<Pair> {
    let p = pair.first;
    let q = pair.second;
    let part = rest(a, p);
    if !is_common(part, rest(b, q)) {
        return None;
    }
    match replay::replay(part, 0, p.last, values) {
        Answer::Record(f) => {
            let first = p.behind(f.end, f.commit);
            let second = q.behind(f.end, f.commit);
            Some(Pair { first, second })
        }
        Answer::End => None,
        Answer::Refused(_) => None,
    }
}

// Plays the next record of both where it is common; it is read first only where it is not found so in the buffers.
fn step_both(
    rt: HostRuntime,
    files: &Files,
    a: &mut [u8],
    b: &mut [u8],
    values: &mut [u64; 256],
    pair: Pair,
) -> ControlFlow<Pair, Pair> {
    match play_both(a, b, values, pair) {
        Some(next) => return ControlFlow::Continue(next),
        None => {}
    }
    let first = fetch(rt, &files.first, a, pair.first);
    let second = fetch(rt, &files.second, b, pair.second);
    let read = Pair { first, second };
    match play_both(a, b, values, read) {
        Some(next) => ControlFlow::Continue(next),
        None => ControlFlow::Break(read),
    }
}

// Plays what both have in common.
fn together(
    rt: HostRuntime,
    files: &Files,
    a: &mut [u8],
    b: &mut [u8],
    values: &mut [u64; 256],
) -> Pair {
    let first = Side::opened();
    let second = Side::opened();
    let mut pair = Pair { first, second };
    for _ in 0..u64::MAX {
        match step_both(rt, files, a, b, values, pair) {
            ControlFlow::Continue(next) => {
                pair = next;
            }
            ControlFlow::Break(parted) => return parted,
        }
    }
    pair
}

// How many bytes both begin with.
fn common_bytes(a: &[u8], b: &[u8]) -> usize {
    let n = a.len().min(b.len());
    for i in 0..n {
        if a[i] != b[i] {
            return i;
        }
    }
    n
}

// What is looked up where the bytes are no record: that is found out before either archive is known to be accepted.
fn no_fields() -> Fields {
    Fields {
        at: 0,
        end: 0,
        reads: 0,
        writes: 0,
        commit: 0,
        transaction: 0,
        station: 0,
        kind: 0,
    }
}

fn fields_of(part: &[u8], last: u32) -> Fields {
    match archive::read(part, 0, last) {
        Answer::Record(f) => f,
        Answer::End => no_fields(),
        Answer::Refused(_) => no_fields(),
    }
}

// Entry i of k.
fn entry_of(part: &[u8], k: u32, i: u32) -> Entry {
    let Found::Entry { address, value } = archive::entry(part, 0, k, i) else {
        return Entry {
            address: 0,
            value: 0,
        };
    };
    Entry { address, value }
}

// The first of k entries that is of another counter.
fn other_address(a: &[u8], b: &[u8], k: u32) -> Option<u32> {
    for i in 0..k {
        if entry_of(a, k, i).address != entry_of(b, k, i).address {
            return Some(i);
        }
    }
    None
}

// The first of k entries with another value.
fn other_value(a: &[u8], b: &[u8], k: u32) -> Option<u32> {
    for i in 0..k {
        if entry_of(a, k, i).value != entry_of(b, k, i).value {
            return Some(i);
        }
    }
    None
}

fn differs(field: Field, first: u64, second: u64) -> Difference {
    Difference {
        field,
        first,
        second,
    }
}

// The first entry in which two records of n reads and k entries differ.
fn entry_difference(a: &[u8], b: &[u8], n: u32, k: u32) -> Difference {
    match other_address(a, b, k) {
        Some(i) => {
            let field = if i < n {
                Field::ReadCounter
            } else {
                Field::WrittenCounter
            };
            let first = entry_of(a, k, i).address as u64;
            differs(field, first, entry_of(b, k, i).address as u64)
        }
        None => {
            let j = other_value(a, b, k).unwrap_or(k);
            let first = entry_of(a, k, j);
            let field = if j < n {
                Field::ReadValue(first.address)
            } else {
                Field::WrittenValue(first.address)
            };
            differs(field, first.value, entry_of(b, k, j).value)
        }
    }
}

// What differs first in two records behind the same commit.
fn first_difference(a: &[u8], b: &[u8], last: u32) -> Difference {
    let f = fields_of(a, last);
    let g = fields_of(b, last);
    if f.reads != g.reads {
        return differs(Field::Reads, u64::from(f.reads), u64::from(g.reads));
    }
    if f.writes != g.writes {
        return differs(Field::Writes, u64::from(f.writes), u64::from(g.writes));
    }
    if f.transaction != g.transaction {
        return differs(
            Field::Transaction,
            u64::from(f.transaction),
            u64::from(g.transaction),
        );
    }
    if f.station != g.station {
        return differs(Field::Station, u64::from(f.station), u64::from(g.station));
    }
    if f.kind != g.kind {
        return differs(Field::Kind, u64::from(f.kind), u64::from(g.kind));
    }
    entry_difference(a, b, f.reads, full::entry_count(f))
}

// What is said in front of the two values of a field.
fn say_field(rt: HostRuntime, field: Field) -> Result<(), Told> {
    match field {
        Field::Reads => say(rt, b"its reads are "),
        Field::Writes => say(rt, b"its writes are "),
        Field::Transaction => say(rt, b"its transaction is "),
        Field::Station => say(rt, b"its station is "),
        Field::Kind => say(rt, b"its station's kind is "),
        Field::ReadCounter => say(rt, b"it reads counter "),
        Field::WrittenCounter => say(rt, b"it writes counter "),
        Field::ReadValue(counter) => say_counter(rt, counter as u64, b" is read as "),
        Field::WrittenValue(counter) => say_counter(rt, counter as u64, b" is written as "),
    }
}

fn say_counter(rt: HostRuntime, counter: u64, text: &[u8]) -> Result<(), Told> {
    say(rt, b"counter ")?;
    say_number(rt, counter)?;
    say(rt, text)
}

fn say_both(rt: HostRuntime, first: u64, second: u64) -> Result<(), Told> {
    say_number(rt, first)?;
    say(rt, b" in the first and ")?;
    say_number(rt, second)?;
    say(rt, b" in the second\n")
}

// A line for each counter that ends otherwise.
fn say_counters(rt: HostRuntime, first: &[u64; 256], second: &[u64; 256]) -> Result<(), Told> {
    let mut none = true;
    for i in 0..256 {
        if first[i] != second[i] {
            none = false;
            say_counter(rt, i as u64, b" ends as ")?;
            say_both(rt, first[i], second[i])?;
        }
    }
    if none {
        return say(rt, b"every counter ends the same\n");
    }
    Ok(())
}

fn commits(rt: HostRuntime, from: u32, to: u32) -> Result<(), Told> {
    if to < from {
        return say(rt, b"0 commits");
    }
    if to - from == 1 {
        return say(rt, b"1 commit");
    }
    say_number(rt, u64::from(to - from))?;
    say(rt, b" commits")
}

fn say_same(rt: HostRuntime, last: u32, byte: u64) -> Result<(), Told> {
    say(rt, b"the archives are the same: ")?;
    commits(rt, 0, last)?;
    say(rt, b", ")?;
    say_number(rt, byte)?;
    say(rt, b" bytes\n")
}

// One archive is an early part of the other: `text` says which.
fn say_early(rt: HostRuntime, text: &[u8], last: u32, to: u32) -> Result<(), Told> {
    say(rt, text)?;
    say_number(rt, u64::from(last))?;
    say(rt, b", and the other has ")?;
    commits(rt, last, to)?;
    say(rt, b" more\n")
}

// They part behind a common commit, at a byte.
fn say_parts(rt: HostRuntime, parting: Parting, first: u32, second: u32) -> Result<(), Told> {
    let last = parting.last;
    let d = parting.difference;
    say(rt, b"the archives part at commit ")?;
    say_number(rt, u64::from(last) + 1)?;
    say(rt, b", byte ")?;
    say_number(rt, parting.byte)?;
    say(rt, b": ")?;
    say_field(rt, d.field)?;
    say_both(rt, d.first, d.second)?;
    say(rt, b"behind commit ")?;
    say_number(rt, u64::from(last))?;
    say(rt, b" the first has ")?;
    commits(rt, last, first)?;
    say(rt, b" more, the second ")?;
    commits(rt, last, second)?;
    say(rt, b" more\n")
}

// What two accepted archives are to each other.
fn say_order(rt: HostRuntime, parting: Parting, p: Side, q: Side) -> Result<Status, Told> {
    let last = parting.last;
    if p.last == last {
        if q.last == last {
            say_same(rt, last, p.byte)?;
            return Ok(Status::Same);
        }
        say_early(
            rt,
            b"the first archive is an early part of the second: it ends behind commit ",
            last,
            q.last,
        )?;
        return Ok(Status::Other);
    }
    if q.last == last {
        say_early(
            rt,
            b"the second archive is an early part of the first: it ends behind commit ",
            last,
            p.last,
        )?;
        return Ok(Status::Other);
    }
    say_parts(rt, parting, p.last, q.last)?;
    Ok(Status::Other)
}

// The words of `words`, which begin with the playback program's name.
fn say_fault(rt: HostRuntime, part: &[u8], start: u64, last: u32, values: &[u64; 256]) {
    let mut line = [0u8; words::LINE];
    let e = words::fault_line(&mut line, 0, start, fault::first_fault(part, last, values));
    let length = e.min(words::LINE);
    if length < words::PREFIX {
        return;
    }
    tell(rt, b"compare: ");
    tell(rt, &line[words::PREFIX..length]);
}

// `the first archive: refused N after K`, and what is wrong with its next record.
fn say_refused(
    rt: HostRuntime,
    name: &[u8],
    number: u32,
    input: &[u8],
    s: Side,
    values: &[u64; 256],
) -> Result<Status, Told> {
    let said = say_number_after(rt, name, number, s.last);
    say_fault(rt, rest(input, s), s.byte, s.last, values);
    said?;
    Ok(Status::Refused)
}

fn say_number_after(rt: HostRuntime, name: &[u8], number: u32, last: u32) -> Result<(), Told> {
    say(rt, name)?;
    say(rt, b" archive: refused ")?;
    say_number(rt, u64::from(number))?;
    say(rt, b" after ")?;
    say_number(rt, u64::from(last))?;
    say(rt, b"\n")
}

// Both archives are accepted.
fn say_all(
    rt: HostRuntime,
    parting: Parting,
    p: Side,
    q: Side,
    first: &[u64; 256],
    second: &[u64; 256],
) -> Result<Status, Told> {
    match say_order(rt, parting, p, q)? {
        Status::Other => {
            say_counters(rt, first, second)?;
            Ok(Status::Other)
        }
        status => Ok(status),
    }
}

// The second archive, where the first is accepted.
fn finish_second(
    rt: HostRuntime,
    files: &Files,
    b: &mut [u8],
    values: &[u64; 256],
    others: &mut [u64; 256],
    parting: Parting,
    first: Side,
    second: Side,
) -> Result<Status, Told> {
    let q = finish(rt, &files.second, b, others, second);
    match q.state {
        State::Refused(number) => say_refused(rt, b"the second", number, b, q, others),
        State::Unread => Ok(Status::Failed),
        State::Going => say_all(rt, parting, first, q, values, others),
        State::Done => say_all(rt, parting, first, q, values, others),
    }
}

// Both archives behind the common records, the first one first.
fn finish_both(
    rt: HostRuntime,
    files: &Files,
    a: &mut [u8],
    b: &mut [u8],
    values: &mut [u64; 256],
    others: &mut [u64; 256],
    parting: Parting,
    pair: Pair,
) -> Result<Status, Told> {
    let p = finish(rt, &files.first, a, values, pair.first);
    match p.state {
        State::Refused(number) => say_refused(rt, b"the first", number, a, p, values),
        State::Unread => Ok(Status::Failed),
        State::Going => finish_second(rt, files, b, values, others, parting, p, pair.second),
        State::Done => finish_second(rt, files, b, values, others, parting, p, pair.second),
    }
}

// What differs is looked up while both records are in the buffers.
fn part_ways(a: &[u8], b: &[u8], pair: Pair) -> Parting {
    let p = pair.first;
    let part = rest(a, p);
    let other = rest(b, pair.second);
    Parting {
        last: p.last,
        byte: words::further(p.byte, common_bytes(part, other)),
        difference: first_difference(part, other, p.last),
    }
}

fn run(rt: HostRuntime, files: &Files, a: &mut [u8], b: &mut [u8]) -> Result<Status, Told> {
    let mut values = [0u64; 256];
    let pair = together(rt, files, a, b, &mut values);
    let parting = part_ways(a, b, pair);
    let mut others = values;
    finish_both(rt, files, a, b, &mut values, &mut others, parting, pair)
}

// The buffers come as arrays: their lengths are then known by their types, and nothing has to be computed of their bytes.
fn start(
    rt: HostRuntime,
    files: &Files,
    a: &mut [u8; player::INPUT],
    b: &mut [u8; player::INPUT],
) -> Result<Status, Told> {
    run(rt, files, a, b)
}

fn compare_files(rt: HostRuntime, files: &Files) -> Result<Status, Told> {
    let mut a = [0u8; player::INPUT];
    let mut b = [0u8; player::INPUT];
    start(rt, files, &mut a, &mut b)
}

// Opens the archive that word i names.
fn open(rt: HostRuntime, i: usize) -> Result<File, Told> {
    let mut room = streams::buffer();
    let word = streams::argument(&rt, i, &mut room);
    match streams::open(rt, word) {
        Ok(file) => Ok(file),
        Err(error) => {
            tell(rt, b"compare: ");
            streams::fail(rt, word, error);
            Err(Told)
        }
    }
}

// Compares the archives that two words name.
fn compare_words(rt: HostRuntime, i: usize, j: usize) -> Result<Status, Told> {
    let first = open(rt, i)?;
    let second = open(rt, j)?;
    compare_files(rt, &Files { first, second })
}

fn help(rt: HostRuntime) -> Result<Status, Told> {
    say(
        rt,
        b"usage: compare FIRST SECOND\nSays of two archives whether they are the same, one is an early part of the other, or they part, and where,\n",
    )?;
    say(
        rt,
        b"and which counters end otherwise. Exits with 0 same, 1 not the same, 2 an archive is refused, 3 failed or not understood.\n",
    )?;
    Ok(Status::Same)
}

fn misunderstood(rt: HostRuntime) -> Result<Status, Told> {
    tell(
        rt,
        b"compare: two archives are wanted: compare FIRST SECOND; --help says more\n",
    );
    Err(Told)
}

// Whether a word is this one.
fn is_word(word: &[u8], text: &[u8]) -> bool {
    if word.len() != text.len() {
        return false;
    }
    compare::same_bytes(word, text, text.len())
}

// The exit status for the front end, which asks for it; by itself the program ends with 0.
fn tell_status(number: u32) -> ExitCode
    ensures { exit_status result ≡ number % 4 }
{
    ExitCode::from((number % 4) as u8)
}

fn is_help(rt: HostRuntime, i: usize) -> bool {
    let mut room = streams::buffer();
    is_word(streams::argument(&rt, i, &mut room), b"--help")
}

// Does what the words `first` and `second` ask for, which must be the last ones.
fn asked(rt: HostRuntime, first: usize, second: usize, count: usize) -> Result<Status, Told> {
    if is_help(rt, first) {
        return help(rt);
    }
    if count <= second {
        return misunderstood(rt);
    }
    if count - second != 1 {
        return misunderstood(rt);
    }
    compare_words(rt, first, second)
}

fn answer(rt: HostRuntime, first: usize, second: usize, count: usize) -> Status {
    match asked(rt, first, second, count) {
        Ok(status) => status,
        Err(_) => Status::Failed,
    }
}

fn main(rt: HostRuntime) -> ExitCode {
    let mut room = streams::buffer();
    let word = streams::argument(&rt, 1, &mut room);
    let count = streams::argument_count(&rt);
    if is_word(word, b"--status") {
        return tell_status(answer(rt, 2, 3, count) as u32);
    }
    answer(rt, 1, 2, count);
    ExitCode::SUCCESS
}
