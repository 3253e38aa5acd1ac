#![tactic(auto)]
// Document 02's register window: what a write to a register does, and a message that is delivered to the station behind it.
ghost use Rattle.std.specs.Prelude.{◌≡◌, ◌<◌, length};
ghost use Rattle.station_answer.specs.Did.{outcome};
ghost use Rattle.station_state.specs.Layout.{state_length};
ghost use Rattle.window_state.specs.Layout.{registers};
ghost use Rattle.window.specs.Window.{accessed, ready_w, refusal_of, noted_abort, noted_value, noted_commit, noted, performed, taken_as, taken_said, shown, command_of, write_of, step_of};
ghost use Rattle.window.specs.Operations.{operation_code, GivesOperation};

use kinds::Kind;
use refusals::Refusal;
use station_answer::{Answer, Said};
use window_state::{ABORTED_FLAG, COMMAND, COMMIT, DONE_FLAG, REFUSAL, REGISTERS, VALUE};

// Whether these are a window's registers and a validating station's state, and the output is long enough: number 1 otherwise.
fn ready(r: &[u8], s: &[u8], o: &[u8], c: &[u8]) -> bool
    ensures { result ≡ ready_w r.now s.now o.now c.now }
{
    if !station_owner::ready(s, o, c) {
        return false;
    }
    (station_state::kind(s) == Kind::Validating as u8) & window_state::registers_ok(r)
}

// The number of a refusal, 0 for every other answer: as the refusal register shows it.
fn refusal(a: Answer) -> u32
    ensures { result ≡ refusal_of a }
{
    let Answer::Refused(n) = a else {
        return 0;
    };
    n
}

// A command that the station refused was written all the same.
fn taken(a: Answer) -> Answer
    ensures { result ≡ taken_as a }
{
    let Answer::Refused(_n) = a else {
        return a;
    };
    Answer::Nothing
}

fn note_value(r: &mut [u8], v: u64)
    requires { length r.old ≡ registers }
    ensures { r.new ≡ noted_value v r.old }
{
    le::put_u64(r, VALUE, v);
    window_state::raise(r, DONE_FLAG);
}

fn note_commit(r: &mut [u8], n: u32)
    requires { length r.old ≡ registers }
    ensures { r.new ≡ noted_commit n r.old }
{
    le::put_u32(r, COMMIT, n);
    window_state::raise(r, DONE_FLAG);
}

fn note_abort(r: &mut [u8], cause: u32)
    requires { length r.old ≡ registers }
    ensures { r.new ≡ noted_abort cause r.old }
{
    if cause == 0 {
        return;
    }
    window_state::raise(r, ABORTED_FLAG);
}

// What the registers show of an answer.
fn note(r: &mut [u8], a: Answer)
    requires { length r.old ≡ registers }
    ensures { r.new ≡ noted a r.old }
{
    match a {
        Answer::Refused(_n) => {}
        Answer::Begun(_t) => {}
        Answer::Value(v) => note_value(r, v),
        Answer::Waits => {}
        Answer::Written => window_state::raise(r, DONE_FLAG),
        Answer::Committed(n) => note_commit(r, n),
        Answer::Aborted(cause) => note_abort(r, cause),
        Answer::Purged => {}
        Answer::Nothing => {}
    }
}

// What the command register takes; another value is only stored.
#[derive(Clone, Copy, PartialEq, Eq, Debug)]
enum Operation {
    Begin = 1,
    Read = 2,
    Write = 3,
    Commit = 4,
    Abort = 5,
}

impl TryFrom<u8> for Operation {
    type Error = Refusal;

    ghost try_from_gives = { GivesOperation };

    fn try_from(command: u8) -> Result<Self, Refusal> {
        match command {
            1 => Ok(Operation::Begin),
            2 => Ok(Operation::Read),
            3 => Ok(Operation::Write),
            4 => Ok(Operation::Commit),
            5 => Ok(Operation::Abort),
            _ => Err(Refusal::Range),
        }
    }
}

// The station's own operation of a command.
#[tactic(auto, unfolding(crate::specs::Window::performed))]
fn perform(b: Operation, r: &[u8], s: &mut [u8], o: &mut [u8], c: &mut [u8]) -> Said
    requires { length r.now ≡ registers }
    ensures { outcome s.new o.new c.new result ≡ performed (operation_code b) r.now s.old o.old c.old }
{
    match b {
        Operation::Begin => station_owner::begin(s, o, c),
        Operation::Read => station_owner::read(window_state::address(r), s, o, c),
        Operation::Write => {
            station_owner::write(window_state::address(r), le::get_u64(r, VALUE), s, o, c)
        }
        Operation::Commit => station_owner::commit(s, o, c),
        Operation::Abort => station_owner::abort(s, o, c),
    }
}

// What is said of a command that the station answered so.
fn say_taken(x: Said) -> Said
    ensures { result ≡ taken_said x }
{
    let a = x.answer;
    let answer = taken(a);
    Said {
        answer,
        messages: x.messages,
        commit: x.commit,
    }
}

// The registers show how a command was answered.
fn show(r: &mut [u8], x: Said) -> Said
    requires { length r.old ≡ registers }
    ensures { (r.new ≡ shown x.answer r.old) × (result ≡ taken_said x) }
{
    let a = x.answer;
    let n = refusal(a);
    le::put_u8(r, REFUSAL, (n % 256) as u8);
    note(r, a);
    say_taken(x)
}

// A byte is written to the command register.
fn command(b: u8, r: &mut [u8], s: &mut [u8], o: &mut [u8], c: &mut [u8]) -> Said
    requires { length r.old ≡ registers }
    ensures { accessed r.new (outcome s.new o.new c.new result) ≡ command_of b r.old s.old o.old c.old }
{
    le::put_u8(r, COMMAND, b);
    let Ok(operation) = Operation::try_from(b) else {
        return station_answer::say(Answer::Nothing, 0);
    };
    let x = perform(operation, r, s, o, c);
    show(r, x)
}

// Writes a byte to a register: 1, 16, or what a command did.
pub fn write(offset: u32, byte: u8, r: &mut [u8], s: &mut [u8], o: &mut [u8], c: &mut [u8]) -> Said
    ensures { accessed r.new (outcome s.new o.new c.new result) ≡ write_of offset byte r.old s.old o.old c.old }
{
    if !ready(r, s, o, c) {
        return station_owner::refuse(Refusal::Buffer as u32);
    }
    let k = offset as usize;
    if k >= REGISTERS {
        return station_owner::refuse(Refusal::Register as u32);
    }
    if k == COMMAND {
        return command(byte, r, s, o, c);
    }
    window_state::store(r, k, byte);
    station_answer::say(Answer::Nothing, 0)
}

// The station's step on a message from the server, and what the registers show of it.
pub fn step(m: &[u8], r: &mut [u8], s: &mut [u8], o: &mut [u8], c: &mut [u8]) -> Said
    ensures { accessed r.new (outcome s.new o.new c.new result) ≡ step_of m.now r.old s.old o.old c.old }
{
    if !ready(r, s, o, c) {
        return station_owner::refuse(Refusal::Buffer as u32);
    }
    let x = station::step(m, s, o, c);
    let a = x.answer;
    note(r, a);
    x
}
