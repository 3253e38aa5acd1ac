#![tactic(auto)]
// Replay of document 01: each record of an archive, read and played on 256 values.
ghost use Rattle.std.specs.Prelude.{◌≡◌, true, ◌+◌, ◌*◌, ◌≤◌, ◌<◌, length, set};
ghost use Rattle.layout.specs.Record.{header_length, entry_length};
ghost use Rattle.lists.specs.Tests.{all_to};
ghost use Rattle.record.specs.Check.{length_of, read_count, write_count};
ghost use Rattle.record.specs.Few.{most_few, is_few};
ghost use Rattle.refusals.specs.Refusals.{code};
ghost use Rattle.archive.specs.Answered.{answer_of};
ghost use Rattle.replay.specs.Played.{played, record_played, archive_played};
ghost use Rattle.replay.specs.Replay.{address_at, value_at, read_agrees, reads_agree, stored_to, stored, replayed, on_answer, replay_of};

use archive::{Answer, Fields};
use refusals::Refusal;

fn place(x: u8) -> usize
    ensures { (result ≡ x) × (result < 256) }
{
    x as usize
}

// Whether read i of a record of k entries is the value there.
#[tactic(auto, unfolding(crate::specs::Replay::read_agrees))]
fn read_agrees(t: &[u8], values: &[u64; 256], k: usize, i: usize) -> bool
    requires { (i < k) × (header_length + entry_length * k ≤ length t.now) }
    ensures { result ≡ read_agrees t.now values.now k i }
{
    values[place(t[record::HEADER + i])] == le::get_u64(t, record::HEADER + k + record::VALUE * i)
}

// Whether each of a few reads of a record of k entries is the value there.
#[tactic(auto, unfolding(lists::specs::Tests::all_to, crate::specs::Few::read_in_turn))]
fn few_agree(t: &[u8], values: &[u64; 256], n: usize, k: usize) -> bool
    requires { (n ≤ k) × (header_length + entry_length * k ≤ length t.now) × (is_few n most_few ≡ true) }
    ensures { result ≡ all_to (read_agrees t.now values.now k) n }
{
    let mut ok = true;
    for i in 0..record::FEW {
        ok &= read_agrees(t, values, k, record::up_to(i, n));
    }
    ok
}

// Whether every read of the record at the start of `t` is the value there. No test leaves the loop early.
#[tactic(auto, unfolding(lists::specs::Tests::all_to, crate::specs::Replay::reads_agree))]
fn reads_agree(t: &[u8], values: &[u64; 256]) -> bool
    requires { (header_length ≤ length t.now) × (length_of t.now ≤ length t.now) }
    ensures { result ≡ reads_agree t.now values.now }
{
    let n = le::get_u16(t, record::READS) as usize;
    let k = n + le::get_u16(t, record::WRITES) as usize;
    if record::few(n, record::FEW) {
        return few_agree(t, values, n, k);
    }
    let mut ok = true;
    for i in 0..n {
        ok &= read_agrees(t, values, k, i);
    }
    ok
}

// Stores entry i of a record of k entries.
fn store_entry(t: &[u8], values: &mut [u64; 256], k: usize, i: usize)
    requires { (i < k) × (header_length + entry_length * k ≤ length t.now) }
    ensures { values.new ≡ set values.old (address_at t.now i) (value_at t.now k i) }
{
    let a = place(t[record::HEADER + i]);
    values[a] = le::get_u64(t, record::HEADER + k + record::VALUE * i);
}

// Stores m entries, which are few, from the n-th of a record of k on.
#[tactic(auto, unfolding(crate::specs::Few::turns_to))]
fn few_stored(t: &[u8], values: &mut [u64; 256], k: usize, n: usize, m: usize)
    requires { (n + m ≤ k) × (header_length + entry_length * k ≤ length t.now) × (is_few m most_few ≡ true) }
    ensures { values.new ≡ stored_to t.now values.old k n m }
{
    for c in 0..record::FEW {
        store_entry(t, values, k, n + record::up_to(c, m));
    }
}

// Stores the writes of the record at the start of `t`.
#[tactic(auto, unfolding(crate::specs::Replay::stored, crate::specs::Replay::stored_to))]
fn store_writes(t: &[u8], values: &mut [u64; 256])
    requires { (header_length ≤ length t.now) × (length_of t.now ≤ length t.now) }
    ensures { values.new ≡ stored t.now values.old }
{
    let n = le::get_u16(t, record::READS) as usize;
    let m = le::get_u16(t, record::WRITES) as usize;
    let k = n + m;
    if record::few(m, record::FEW) {
        few_stored(t, values, k, n, m);
        return;
    }
    for c in 0..m {
        store_entry(t, values, k, n + c);
    }
}

// Plays the record at the start of `part`, whose fields the reader gave: `Replay` where a read differs from the value there.
fn play(part: &[u8], f: Fields, values: &mut [u64; 256]) -> Result<Option<Fields>, Refusal>
    requires { (header_length ≤ length part.now) × (length_of part.now ≤ length part.now) }
    ensures { replayed values.new (answer_of result) ≡ on_answer part.now values.old (Answer.Record f) }
{
    if !reads_agree(part, values) {
        return Err(Refusal::Replay);
    }
    store_writes(part, values);
    Ok(Some(f))
}

// Replays the record at position `at` of an archive whose last commit number before it is `last`, and gives its fields, or none at
// the archive's end. The reader's refusals, then `Replay` where a read differs from the value there. Only an accepted record changes
// the values.
#[tactic(auto, using(archive::specs::Facts::recorded, record::specs::Facts::accepted, lists::specs::Stores::to_the_end), unfolding(crate::specs::Replay::replay_of))]
pub fn replay_at(
    archive: &[u8],
    at: usize,
    last: u32,
    values: &mut [u64; 256],
) -> Result<Option<Fields>, Refusal>
    ensures { replayed values.new (answer_of result) ≡ replay_of archive.now at last values.old }
{
    match archive::record_at(archive, at, last)? {
        Some(f) => play(&archive[at..], f, values),
        None => Ok(None),
    }
}

// `replay_at` as an `Answer`.
pub fn replay(archive: &[u8], at: usize, last: u32, values: &mut [u64; 256]) -> Answer
    ensures { replayed values.new result ≡ replay_of archive.now at last values.old }
{
    Answer::from(replay_at(archive, at, last, values))
}

// Plays the first record of these bytes on lent values behind a lent last commit number: `Short` also for no bytes. A refusal changes
// nothing.
#[tactic(auto, unfolding(crate::specs::Played::record_played))]
fn play_in_place(bytes: &[u8], last: &mut u32, values: &mut [u64; 256]) -> Result<(), Refusal>
    ensures { played values.new last.new (code result) ≡ record_played bytes.now last.old values.old }
{
    let before = *last;
    match replay_at(bytes, 0, before, values)? {
        Some(f) => {
            *last = f.commit;
            Ok(())
        }
        None => Err(Refusal::Short),
    }
}

// Plays a whole archive, record by record, to its end or the first record refused. Each record's own length says where the next one
// starts. A record costs no copy of the values.
fn play_archive(archive: &[u8], values: &mut [u64; 256], last: &mut u32) -> Result<(), Refusal>
    ensures { played values.new last.new (code result) ≡ archive_played archive.now last.old values.old }
{
    let mut at = 0;
    while let Some(f) = replay_at(archive, at, *last, values)? {
        at = f.end;
        *last = f.commit;
    }
    Ok(())
}

// Plays a whole archive, record by record: 0 at its end, else the number of the first record refused, with the values and
// the last commit number as the records before it left them.
pub fn wax_archive_replay(archive: &[u8], values: &mut [u64; 256], last: &mut u32) -> u32
    ensures { played values.new last.new result ≡ archive_played archive.now last.old values.old }
{
    refusals::code(play_archive(archive, values, last))
}

// What playback keeps: a value for each address, and the last commit number. All zeros before the first record.
#[repr(C)]
#[derive(Drop)]
pub struct Playback {
    pub values: [u64; 256],
    pub last: u32,
}

// A playback behind a record, and whether the record was accepted.
#[derive(Drop)]
pub struct PlaybackTurn {
    pub playback: Playback,
    pub answer: Result<(), Refusal>,
}

// The core, by value: what a playback becomes by the first record of these bytes, and the answer: `Short` also for no bytes. A refusal
// changes nothing.
pub fn turned(playback: Playback, bytes: &[u8]) -> PlaybackTurn
    ensures { played result.playback.values result.playback.last (code result.answer) ≡ record_played bytes.now playback.last playback.values }
{
    let mut values = playback.values;
    let mut last = playback.last;
    let answer = play_in_place(bytes, &mut last, &mut values);
    PlaybackTurn {
        playback: Playback { values, last },
        answer,
    }
}

// Plays the first record of these bytes: 0, 12 (also for no bytes), 5, 13 or 14. Only 0 changes the playback.
pub fn wax_playback_record(playback: &mut Playback, bytes: &[u8]) -> u32
    ensures { played playback.new.values playback.new.last result ≡ record_played bytes.now playback.old.last playback.old.values }
{
    refusals::code(play_in_place(bytes, &mut playback.last, &mut playback.values))
}
