#![tactic(auto)]
// The commit that a station sends.
ghost use Rattle.std.specs.Prelude.{◌≡◌, ◌+◌, ◌*◌, ◌≤◌, ◌<◌, length};
ghost use Rattle.std.proofs.lemmas.List.Edits.{sets};
ghost use Rattle.station_commit.specs.Commit.{count_sent, version_sent, versions_for, versions_sent, commit_bytes, filled, commit_filled};
ghost use Rattle.station_state.specs.Layout.{state_length};
ghost use Rattle.message.specs.Layout.{version_width};
ghost use Rattle.message.specs.Commit.{versions_at};

use message::Up;
use set_record::ADDRESSES;
use station_state::{NUMBER_WIDTH, READ_SET, READ_VALUES, SEEN, WRITTEN_SET, WRITTEN_VALUES};

// The version sent for address a: 0 from a locking station.
fn version_sent(s: &[u8], a: usize) -> u32
    requires { (length s.now ≡ state_length) × (a < 256) }
    ensures { result ≡ version_sent s.now a }
{
    if station_state::locking(s) {
        return 0;
    }
    le::get_u32(s, SEEN + a * NUMBER_WIDTH)
}

// The versions of these addresses, behind the message.
fn put_each(c: &mut [u8], s: &[u8], addresses: &[u8])
    requires { (length s.now ≡ state_length) × (versions_at + length addresses.now * version_width ≤ length c.old) }
    ensures { c.new ≡ sets c.old versions_at (versions_for s.now addresses.now) }
{
    let n = addresses.len();
    for e in 0..n {
        let v = version_sent(s, addresses[e] as usize);
        le::put_u32(c, message::VERSIONS + e * message::VERSION_WIDTH, v);
    }
}

// The versions of all that was read, then of all that was written: how many they are.
fn put_versions(c: &mut [u8], s: &[u8]) -> usize
    requires { (length s.now ≡ state_length) × (versions_at + count_sent s.now * version_width ≤ length c.old) }
    ensures { (c.new ≡ sets c.old versions_at (versions_sent s.now)) × (result ≡ count_sent s.now) }
{
    let mut list = [0u8; ADDRESSES];
    let n = set_record::list_set(&mut list, s, READ_SET, 0);
    let k = set_record::list_set(&mut list, s, WRITTEN_SET, n);
    let addresses = &list[0..k];
    put_each(c, s, addresses);
    k
}

// The bytes of the commit, from the start of `c`: how many they are.
pub fn put_commit(s: &[u8], c: &mut [u8]) -> usize
    requires { (length s.now ≡ state_length) × (length (commit_bytes s.now) ≤ length c.old) }
    ensures { filled c.new result ≡ commit_filled s.now c.old }
{
    let t = station_state::number(s);
    message::put_up(
        c,
        0,
        Up::Commit as u8,
        station_state::station(s),
        0,
        0,
        t,
        station_pages::used_pages(s),
        0,
    );
    let k = put_versions(c, s);
    let station = u32::from(station_state::station(s));
    let kind = u32::from(station_state::kind(s));
    let at = message::VERSIONS + k * message::VERSION_WIDTH;
    at + set_record::put_record(
        s,
        c,
        at,
        READ_SET,
        READ_VALUES,
        WRITTEN_SET,
        WRITTEN_VALUES,
        0,
        t,
        station,
        kind,
    )
}
