// The server.
ghost use Rattle.std.specs.Prelude.{◌≡◌};
ghost use Rattle.server_state.specs.Valid.{freshened, fresh_of};
ghost use Rattle.server_host.specs.Host.{hosted, host_of};
ghost use Rattle.server_actions.specs.Step.{server_called};

#[unsafe(no_mangle)]
pub extern "C" fn wax_server_fresh(kinds: &[u8], state: &mut [u8]) -> u32
    ensures { freshened state.new result ≡ fresh_of kinds.now state.old }
{
    server_host::wax_server_fresh(kinds, state)
}

#[unsafe(no_mangle)]
pub extern "C" fn wax_server_step(
    message: &[u8],
    state: &mut [u8],
    messages: &mut [u8],
    records: &mut [u8],
    served: &mut [u64],
) -> u32
    ensures { hosted state.new messages.new records.new served.new result ≡ host_of state.old messages.old records.old served.old (server_called message.now state.old messages.old records.old) }
{
    server_host::wax_server_step(message, state, messages, records, served)
}
