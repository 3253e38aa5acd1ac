#![tactic(auto)]
// The server's step, on a lent state and lent output.
ghost use Rattle.std.specs.Prelude.{◌≡◌, length, true};
ghost use Rattle.refusals.specs.Refusals.{code};
ghost use Rattle.server_actions.specs.Pass.{server_step_b};
ghost use Rattle.server_actions.specs.Posting.{posted, post, counts};
ghost use Rattle.server_actions.specs.Step.{ready, check_step_b, server_called};
ghost use Rattle.server.specs.Outcome.{outcome};
ghost use Rattle.server_state.specs.Layout.{server_length};

use refusals::Refusal;
use server_actions::Counts;
use server_state::{KIND, STATIONS};

// Behind the kinds of the eight stations.
const KINDS_END: usize = KIND + STATIONS;

// What the step answers: the number that turns a call back, as the host and the theorems have it, or how many messages and how many bytes of records it
// left.
#[derive(Clone, Copy)]
pub enum Served {
    Refused(u32),
    Sent(usize, usize),
}

// Number 1: the state is valid, and the output has room for every step's.
fn ready(s: &[u8], o: &[u8], q: &[u8]) -> bool
    ensures { result ≡ ready s.now o.now q.now }
{
    server_state::valid(s) & (message::SERVER_ROOM <= o.len()) & (message::RECORDS_ROOM <= q.len())
}

// Whether a message may come at this state: numbers 2 to 5, then 6.
fn check_step(m: &[u8], s: &[u8]) -> Result<(), Refusal>
    requires { length s.now ≡ server_length }
    ensures { code result ≡ check_step_b m.now s.now }
{
    message::up_check(&s[KIND..KINDS_END], m)?;
    if server_tests::unexpected(s, m) {
        return Err(Refusal::Unexpected);
    }
    Ok(())
}

// The message's own effect, then the pass until nothing changes.
fn serve(s: &mut [u8], o: &mut [u8], q: &mut [u8], m: &[u8]) -> Counts
    requires { (ready s.old o.old q.old ≡ true) × (check_step_b m.now s.old ≡ 0) }
    ensures { posted s.new o.new q.new result ≡ post o.old q.old (counts 0 0) (server_step_b m.now s.old) }
{
    let none = Counts {
        messages: 0,
        records: 0,
    };
    let b = server_accept::accept(s, o, q, none, m);
    server_pass::settle(s, o, q, b)
}

// The server's step on a message from a station.
pub fn step(m: &[u8], s: &mut [u8], o: &mut [u8], q: &mut [u8]) -> Served
    ensures { outcome s.new o.new q.new result ≡ server_called m.now s.old o.old q.old }
{
    if !ready(s, o, q) {
        return Served::Refused(Refusal::Buffer.number());
    }
    if let Err(why) = check_step(m, s) {
        return Served::Refused(why.number());
    }
    let c = serve(s, o, q, m);
    Served::Sent(c.messages, c.records)
}
