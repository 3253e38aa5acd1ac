#![tactic(auto)]
// The server for C: numbers and byte slices.
ghost use Rattle.std.specs.Prelude.{◌≡◌, ◌≤◌, length};
ghost use Rattle.server_state.specs.Valid.{freshened, fresh_of};
ghost use Rattle.server_actions.specs.Step.{server_called};
ghost use Rattle.server_host.specs.Host.{told, served_length, told_of, counted, hosted, host_of};

use refusals::Refusal;
use server::Served;

// Where a step tells each of its numbers, and how many they are.
const MESSAGES: usize = 0;

const RECORDS: usize = MESSAGES + 1;

const SERVED: usize = RECORDS + 1;

// How many messages and how many bytes of records stand in the output: 0, the call was accepted.
fn put_served(served: &mut [u64], messages: usize, records: usize) -> u32
    requires { served_length ≤ length served.old }
    ensures { told served.new result ≡ counted served.old messages records }
{
    served[MESSAGES] = messages as u64;
    served[RECORDS] = records as u64;
    0
}

fn tell(x: Served, served: &mut [u64]) -> u32
    requires { served_length ≤ length served.old }
    ensures { told served.new result ≡ told_of served.old x }
{
    match x {
        Served::Refused(number) => number,
        Served::Sent(messages, records) => put_served(served, messages, records),
    }
}

pub fn wax_server_fresh(kinds: &[u8], state: &mut [u8]) -> u32
    ensures { freshened state.new result ≡ fresh_of kinds.now state.old }
{
    refusals::code(server_state::fresh(kinds, state))
}

pub fn wax_server_step(
    message: &[u8],
    state: &mut [u8],
    messages: &mut [u8],
    records: &mut [u8],
    served: &mut [u64],
) -> u32
    ensures { hosted state.new messages.new records.new served.new result ≡ host_of state.old messages.old records.old served.old (server_called message.now state.old messages.old records.old) }
{
    if served.len() < SERVED {
        return Refusal::Buffer.number();
    }
    let x = server::step(message, state, messages, records);
    tell(x, served)
}
