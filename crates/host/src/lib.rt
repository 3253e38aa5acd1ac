#![tactic(auto)]
// A station for C: numbers and byte slices. Every function of the station crates that a host calls is here under its C name.
ghost use Rattle.std.specs.Prelude.{◌≡◌, ◌≤◌, length};
ghost use Rattle.std.proofs.lemmas.List.Edits.{sets};
ghost use Rattle.message.specs.Number.{down_number, up_number};
ghost use Rattle.station_state.specs.Valid.{freshened, fresh_of};
ghost use Rattle.station_owner.specs.Owner.{called, commit_called, own_begin_b, own_read_b, own_write_set_b, own_write_b, own_abort_b, own_purge_b};
ghost use Rattle.station.specs.Station.{station_step_b};
ghost use Rattle.host.specs.Host.{told as host_told, told_length, accepted, NoValue, told_of, told_said, hosted, host_of, eight_of, host_set_of};

use refusals::Refusal;
use station_answer::{Answer, Said};
use station_state::OBJECTS;

// Where a call tells each of its numbers, and how many they are.
const ANSWER: usize = 0;

const VALUE: usize = ANSWER + 1;

const MESSAGES: usize = VALUE + 1;

const COMMIT: usize = MESSAGES + 1;

pub const TOLD: usize = COMMIT + 1;

// The numbers by which a host is told each answer.
#[derive(Clone, Copy, PartialEq, Eq, Debug)]
enum Tells {
    Begun = 1,
    Value = 2,
    Waits = 3,
    Written = 4,
    Committed = 5,
    Aborted = 6,
    Purged = 7,
    Nothing = 8,
}

// An answer's number, what goes with it, and the counts of messages and of a commit's bytes: 0, the call was accepted.
fn put_told(told: &mut [u64], answer: u64, value: u64, messages: usize, commit: usize) -> u32
    requires { told_length ≤ length told.old }
    ensures { host_told told.new result ≡ accepted told.old answer value messages commit }
{
    told[ANSWER] = answer;
    told[VALUE] = value;
    told[MESSAGES] = messages as u64;
    told[COMMIT] = commit as u64;
    0
}

// Every answer but a value, which `tell` has taken out.
fn tell_other(a: Answer, messages: usize, commit: usize, told: &mut [u64]) -> u32
    requires { (told_length ≤ length told.old) × NoValue a }
    ensures { host_told told.new result ≡ told_of told.old messages commit a }
{
    match a {
        Answer::Refused(number) => number,
        Answer::Begun(t) => put_told(told, Tells::Begun as u64, u64::from(t), messages, commit),
        Answer::Value(_v) => 0,
        Answer::Waits => put_told(told, Tells::Waits as u64, 0, messages, commit),
        Answer::Written => put_told(told, Tells::Written as u64, 0, messages, commit),
        Answer::Committed(n) => put_told(
            told,
            Tells::Committed as u64,
            u64::from(n),
            messages,
            commit,
        ),
        Answer::Aborted(cause) => put_told(
            told,
            Tells::Aborted as u64,
            u64::from(cause),
            messages,
            commit,
        ),
        Answer::Purged => put_told(told, Tells::Purged as u64, 0, messages, commit),
        Answer::Nothing => put_told(told, Tells::Nothing as u64, 0, messages, commit),
    }
}

// The value is taken out; other answers leave early.
pub fn tell(x: Said, told: &mut [u64]) -> u32
    requires { told_length ≤ length told.old }
    ensures { host_told told.new result ≡ told_said told.old x }
{
    let answer = x.answer;
    let Answer::Value(v) = answer else {
        return tell_other(answer, x.messages, x.commit, told);
    };
    put_told(told, Tells::Value as u64, v, x.messages, x.commit)
}

pub fn wax_station_fresh(station: u32, kind: u32, state: &mut [u8]) -> u32
    ensures { freshened state.new result ≡ fresh_of station kind state.old }
{
    refusals::code(station_state::fresh(station, kind, state))
}

pub fn wax_station_begin(
    state: &mut [u8],
    messages: &mut [u8],
    commit: &mut [u8],
    told: &mut [u64],
) -> u32
    ensures { hosted state.new messages.new commit.new told.new result ≡ host_of state.old messages.old commit.old told.old (called state.old messages.old commit.old (own_begin_b state.old)) }
{
    if told.len() < TOLD {
        return Refusal::Buffer as u32;
    }
    let x = station_owner::begin(state, messages, commit);
    tell(x, told)
}

pub fn wax_station_read(
    address: u32,
    state: &mut [u8],
    messages: &mut [u8],
    commit: &mut [u8],
    told: &mut [u64],
) -> u32
    ensures { hosted state.new messages.new commit.new told.new result ≡ host_of state.old messages.old commit.old told.old (called state.old messages.old commit.old (own_read_b address state.old)) }
{
    if told.len() < TOLD {
        return Refusal::Buffer as u32;
    }
    let x = station_owner::read(address, state, messages, commit);
    tell(x, told)
}

pub fn wax_station_write(
    address: u32,
    value: u64,
    state: &mut [u8],
    messages: &mut [u8],
    commit: &mut [u8],
    told: &mut [u64],
) -> u32
    ensures { hosted state.new messages.new commit.new told.new result ≡ host_of state.old messages.old commit.old told.old (called state.old messages.old commit.old (own_write_b address value state.old)) }
{
    if told.len() < TOLD {
        return Refusal::Buffer as u32;
    }
    let x = station_owner::write(address, value, state, messages, commit);
    tell(x, told)
}

// The first eight values.
fn eight(values: &[u64]) -> [u64; 8]
    requires { 8 ≤ length values.now }
    ensures { result ≡ eight_of values.now }
{
    let mut v = [0u64; 8];
    v.copy_from_slice(&values[..OBJECTS]);
    v
}

pub fn wax_station_write_set(
    page: u32,
    set: u32,
    values: &[u64],
    state: &mut [u8],
    messages: &mut [u8],
    commit: &mut [u8],
    told: &mut [u64],
) -> u32
    ensures { hosted state.new messages.new commit.new told.new result ≡ host_set_of values.now state.old messages.old commit.old told.old (called state.old messages.old commit.old (own_write_set_b page set (eight_of values.now) state.old)) }
{
    if values.len() < OBJECTS {
        return Refusal::Buffer as u32;
    }
    if told.len() < TOLD {
        return Refusal::Buffer as u32;
    }
    let v = eight(values);
    let x = station_owner::write_set(page, set, &v, state, messages, commit);
    tell(x, told)
}

pub fn wax_station_commit(
    state: &mut [u8],
    messages: &mut [u8],
    commit: &mut [u8],
    told: &mut [u64],
) -> u32
    ensures { hosted state.new messages.new commit.new told.new result ≡ host_of state.old messages.old commit.old told.old (commit_called state.old messages.old commit.old) }
{
    if told.len() < TOLD {
        return Refusal::Buffer as u32;
    }
    let x = station_owner::commit(state, messages, commit);
    tell(x, told)
}

pub fn wax_station_abort(
    state: &mut [u8],
    messages: &mut [u8],
    commit: &mut [u8],
    told: &mut [u64],
) -> u32
    ensures { hosted state.new messages.new commit.new told.new result ≡ host_of state.old messages.old commit.old told.old (called state.old messages.old commit.old (own_abort_b state.old)) }
{
    if told.len() < TOLD {
        return Refusal::Buffer as u32;
    }
    let x = station_owner::abort(state, messages, commit);
    tell(x, told)
}

pub fn wax_station_purge(
    page: u32,
    state: &mut [u8],
    messages: &mut [u8],
    commit: &mut [u8],
    told: &mut [u64],
) -> u32
    ensures { hosted state.new messages.new commit.new told.new result ≡ host_of state.old messages.old commit.old told.old (called state.old messages.old commit.old (own_purge_b page state.old)) }
{
    if told.len() < TOLD {
        return Refusal::Buffer as u32;
    }
    let x = station_owner::purge(page, state, messages, commit);
    tell(x, told)
}

pub fn wax_station_step(
    message: &[u8],
    state: &mut [u8],
    messages: &mut [u8],
    commit: &mut [u8],
    told: &mut [u64],
) -> u32
    ensures { hosted state.new messages.new commit.new told.new result ≡ host_of state.old messages.old commit.old told.old (called state.old messages.old commit.old (station_step_b message.now state.old)) }
{
    if told.len() < TOLD {
        return Refusal::Buffer as u32;
    }
    let x = station::step(message, state, messages, commit);
    tell(x, told)
}

pub fn wax_down_check(station: u32, message: &[u8]) -> u32
    ensures { result ≡ down_number station message.now }
{
    refusals::code(message::down_check(station, message))
}

pub fn wax_up_check(kinds: &[u8], message: &[u8]) -> u32
    ensures { result ≡ up_number kinds.now message.now }
{
    refusals::code(message::up_check(kinds, message))
}
