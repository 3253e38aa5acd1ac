// Stations.
ghost use Rattle.std.specs.Prelude.{◌≡◌};
ghost use Rattle.station_state.specs.Valid.{freshened, fresh_of};
ghost use Rattle.host.specs.Host.{hosted, host_of, host_set_of, eight_of};
ghost use Rattle.station_owner.specs.Owner.{called, own_begin_b, own_read_b, own_write_b, own_write_set_b, commit_called, own_abort_b, own_purge_b};
ghost use Rattle.station.specs.Station.{station_step_b};
ghost use Rattle.message.specs.Number.{down_number, up_number};

#[unsafe(no_mangle)]
pub extern "C" fn wax_station_fresh(station: u32, kind: u32, state: &mut [u8]) -> u32
    ensures { freshened state.new result ≡ fresh_of station kind state.old }
{
    host::wax_station_fresh(station, kind, state)
}

#[unsafe(no_mangle)]
pub extern "C" fn wax_station_begin(
    state: &mut [u8],
    messages: &mut [u8],
    commit: &mut [u8],
    told: &mut [u64],
) -> u32
    ensures { hosted state.new messages.new commit.new told.new result ≡ host_of state.old messages.old commit.old told.old (called state.old messages.old commit.old (own_begin_b state.old)) }
{
    host::wax_station_begin(state, messages, commit, told)
}

#[unsafe(no_mangle)]
pub extern "C" fn wax_station_read(
    address: u32,
    state: &mut [u8],
    messages: &mut [u8],
    commit: &mut [u8],
    told: &mut [u64],
) -> u32
    ensures { hosted state.new messages.new commit.new told.new result ≡ host_of state.old messages.old commit.old told.old (called state.old messages.old commit.old (own_read_b address state.old)) }
{
    host::wax_station_read(address, state, messages, commit, told)
}

#[unsafe(no_mangle)]
pub extern "C" fn wax_station_write(
    address: u32,
    value: u64,
    state: &mut [u8],
    messages: &mut [u8],
    commit: &mut [u8],
    told: &mut [u64],
) -> u32
    ensures { hosted state.new messages.new commit.new told.new result ≡ host_of state.old messages.old commit.old told.old (called state.old messages.old commit.old (own_write_b address value state.old)) }
{
    host::wax_station_write(address, value, state, messages, commit, told)
}

#[unsafe(no_mangle)]
pub extern "C" fn wax_station_write_set(
    page: u32,
    set: u32,
    values: &[u64],
    state: &mut [u8],
    messages: &mut [u8],
    commit: &mut [u8],
    told: &mut [u64],
) -> u32
    ensures { hosted state.new messages.new commit.new told.new result ≡ host_set_of values.now state.old messages.old commit.old told.old (called state.old messages.old commit.old (own_write_set_b page set (eight_of values.now) state.old)) }
{
    host::wax_station_write_set(page, set, values, state, messages, commit, told)
}

#[unsafe(no_mangle)]
pub extern "C" fn wax_station_commit(
    state: &mut [u8],
    messages: &mut [u8],
    commit: &mut [u8],
    told: &mut [u64],
) -> u32
    ensures { hosted state.new messages.new commit.new told.new result ≡ host_of state.old messages.old commit.old told.old (commit_called state.old messages.old commit.old) }
{
    host::wax_station_commit(state, messages, commit, told)
}

#[unsafe(no_mangle)]
pub extern "C" fn wax_station_abort(
    state: &mut [u8],
    messages: &mut [u8],
    commit: &mut [u8],
    told: &mut [u64],
) -> u32
    ensures { hosted state.new messages.new commit.new told.new result ≡ host_of state.old messages.old commit.old told.old (called state.old messages.old commit.old (own_abort_b state.old)) }
{
    host::wax_station_abort(state, messages, commit, told)
}

#[unsafe(no_mangle)]
pub extern "C" fn wax_station_purge(
    page: u32,
    state: &mut [u8],
    messages: &mut [u8],
    commit: &mut [u8],
    told: &mut [u64],
) -> u32
    ensures { hosted state.new messages.new commit.new told.new result ≡ host_of state.old messages.old commit.old told.old (called state.old messages.old commit.old (own_purge_b page state.old)) }
{
    host::wax_station_purge(page, state, messages, commit, told)
}

#[unsafe(no_mangle)]
pub extern "C" fn wax_station_step(
    message: &[u8],
    state: &mut [u8],
    messages: &mut [u8],
    commit: &mut [u8],
    told: &mut [u64],
) -> u32
    ensures { hosted state.new messages.new commit.new told.new result ≡ host_of state.old messages.old commit.old told.old (called state.old messages.old commit.old (station_step_b message.now state.old)) }
{
    host::wax_station_step(message, state, messages, commit, told)
}

#[unsafe(no_mangle)]
pub extern "C" fn wax_down_check(station: u32, message: &[u8]) -> u32
    ensures { result ≡ down_number station message.now }
{
    host::wax_down_check(station, message)
}

#[unsafe(no_mangle)]
pub extern "C" fn wax_up_check(kinds: &[u8], message: &[u8]) -> u32
    ensures { result ≡ up_number kinds.now message.now }
{
    host::wax_up_check(kinds, message)
}
