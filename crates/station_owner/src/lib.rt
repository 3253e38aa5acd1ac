#![tactic(auto)]
// The operations of a station's owner, on a lent state and lent output.
ghost use Rattle.std.specs.Prelude.{◌≡◌, ◌≢◌, ◌+◌, ◌*◌, ◌≤◌, ◌<◌, length};
ghost use Rattle.std.proofs.lemmas.List.Edits.{sets};
ghost use Rattle.station_answer.specs.Did.{said, outcome, delivered, handed};
ghost use Rattle.station_callbacks.specs.Callbacks.{sends, posted, post};
ghost use Rattle.station_owner.specs.Owner.{ready, called, commit_called, check_open_b, long_read_b, check_read_b, bad_set_b, check_write_b, check_purge_b, read_request_b, shown_b, read_here_b, at_hand_b, named_b, ask_b, aborts_b, own_begin_b, read_as_b, own_read_b, write_as_b, own_write_set_b, only_at, own_write_b, own_abort_b, own_purge_b, at_rest, no_begin};
ghost use Rattle.station_state.specs.Layout.{state_length};
ghost use Rattle.message.specs.Commit.{station_room};
ghost use Rattle.refusals.specs.Refusals.{number_of, code};

use kinds::Want;
use message::Up;
use refusals::Refusal;
use station_answer::{Answer, Said};
use station_state::{READ_SET, READ_VALUES, UNAVAILABLE, VALUE_WIDTH, WRITTEN_SET, WRITTEN_VALUES};

// Whether the state is one, and the output is long enough: number 1 otherwise.
#[tactic(auto, unfolding(crate::specs::Owner::ready))]
pub fn ready(s: &[u8], o: &[u8], c: &[u8]) -> bool
    ensures { result ≡ ready s.now o.now c.now }
{
    station_state::valid(s) & (message::STATION_ROOM <= o.len()) & (message::COMMIT_ROOM <= c.len())
}

// The same, and no transaction is open.
fn at_rest(s: &[u8], o: &[u8], c: &[u8]) -> bool
    ensures { result ≡ at_rest s.now o.now c.now }
{
    station_state::rests(s) & (message::STATION_ROOM <= o.len()) & (message::COMMIT_ROOM <= c.len())
}

// A refusal. Its number stays a number, as `Answer::Refused` has it: the definitions of calls name it, and hosts are told it as it is.
pub fn refuse(number: u32) -> Said
    ensures { result ≡ said (Answer.Refused number) 0 0 }
{
    station_answer::say(Answer::Refused(number), 0)
}

// Why a begin is turned back where a station is not at rest.
#[tactic(auto, unfolding(crate::specs::Owner::no_begin))]
fn no_begin(s: &[u8], o: &[u8], c: &[u8]) -> Refusal
    ensures { number_of result ≡ no_begin s.now o.now c.now }
{
    if !ready(s, o, c) {
        return Refusal::Buffer;
    }
    if station_state::wait(s) == Want::Nothing as u8 {
        return Refusal::Open;
    }
    Refusal::Waiting
}

#[tactic(auto, unfolding(crate::specs::Owner::open_then_b))]
fn check_open(s: &[u8]) -> Result<(), Refusal>
    requires { length s.now ≡ state_length }
    ensures { code result ≡ check_open_b s.now }
{
    if station_state::wait(s) != Want::Nothing as u8 {
        return Err(Refusal::Waiting);
    }
    if !station_state::is_open(s) {
        return Err(Refusal::Closed);
    }
    Ok(())
}

// Whether a would be one recorded read too many.
#[tactic(auto, unfolding(crate::specs::Owner::long_read_b))]
fn long_read(a: usize, s: &[u8]) -> bool
    requires { (length s.now ≡ state_length) × (a < 256) }
    ensures { result ≡ long_read_b a s.now }
{
    if station_state::member(s, READ_SET, a) | station_state::member(s, WRITTEN_SET, a) {
        return false;
    }
    limits::LIMIT <= station_state::count_in(s, READ_SET)
}

#[tactic(auto, unfolding(crate::specs::Owner::check_read_b, crate::specs::Owner::open_then_b))]
fn check_read(a: u32, s: &[u8]) -> Result<(), Refusal>
    requires { length s.now ≡ state_length }
    ensures { code result ≡ check_read_b a s.now }
{
    if a >= 256 {
        return Err(Refusal::Range);
    }
    check_open(s)?;
    if long_read(a as usize, s) {
        return Err(Refusal::Long);
    }
    Ok(())
}

// Whether x is no set of objects of page p, or one that this owner may not write.
#[tactic(auto, unfolding(crate::specs::Owner::bad_set_b))]
fn bad_set(p: u32, x: u32, s: &[u8]) -> bool
    requires { length s.now ≡ state_length }
    ensures { result ≡ bad_set_b p x s.now }
{
    (p > 31) | (x == 0) | (x > 255) | (!station_state::locking(s) & (u32::count_ones(x) > 1))
}

#[tactic(auto, unfolding(crate::specs::Owner::check_write_b, crate::specs::Owner::long_write_b, crate::specs::Owner::open_then_b))]
fn check_write(p: u32, x: u32, s: &[u8]) -> Result<(), Refusal>
    requires { length s.now ≡ state_length }
    ensures { code result ≡ check_write_b p x s.now }
{
    if bad_set(p, x, s) {
        return Err(Refusal::Range);
    }
    check_open(s)?;
    if station_state::written_with(s, p as usize, x as u8) > limits::LIMIT {
        return Err(Refusal::Long);
    }
    Ok(())
}

#[tactic(auto, unfolding(crate::specs::Owner::check_purge_b))]
fn check_purge(p: u32, s: &[u8]) -> Result<(), Refusal>
    requires { length s.now ≡ state_length }
    ensures { code result ≡ check_purge_b p s.now }
{
    if p >= 32 {
        return Err(Refusal::Range);
    }
    if station_state::requested(s, p as usize) {
        return Err(Refusal::Waiting);
    }
    if station_pages::used_page(s, p as usize)
        | !station_state::has_bit32(station_state::cached(s), p as usize)
        | station_state::kept_whole(s, p as usize)
    {
        return Err(Refusal::Kept);
    }
    Ok(())
}

// Begins a transaction.
pub fn begin(s: &mut [u8], o: &mut [u8], c: &mut [u8]) -> Said
    ensures { outcome s.new o.new c.new result ≡ called s.old o.old c.old (own_begin_b s.old) }
{
    if !at_rest(s, o, c) {
        return refuse(no_begin(s, o, c).number());
    }
    let n = station_state::number(s);
    if n == 4294967295 {
        return refuse(Refusal::Spent as u32);
    }
    station_state::begin(s);
    station_answer::say(Answer::Begun(n + 1), 0)
}

#[tactic(auto, unfolding(crate::specs::Owner::shown_b))]
fn shown(a: usize, s: &[u8]) -> bool
    requires { (length s.now ≡ state_length) × (a < 256) }
    ensures { result ≡ shown_b a s.now }
{
    station_state::has_bit32(station_state::cached(s), a / 8)
        & !station_state::member(s, UNAVAILABLE, a)
}

// Asks for an address.
fn request(a: usize, s: &[u8], o: &mut [u8])
    requires { (length s.now ≡ state_length) × (station_room ≤ length o.old) × (a < 256) }
    ensures { o.new ≡ sets o.old 0 (read_request_b a s.now) }
{
    message::put_up(
        o,
        0,
        Up::Read as u8,
        station_state::station(s),
        (a / 8) as u8,
        (a % 8) as u8,
        station_state::number(s),
        0,
        0,
    );
}

// What is asked for where it is not at hand.
fn read_here(a: usize, s: &mut [u8], o: &mut [u8]) -> Said
    requires { (length s.old ≡ state_length) × (station_room ≤ length o.old) × (a < 256) }
    ensures { delivered s.new o.new result ≡ handed o.old (read_here_b a s.old) }
{
    if shown(a, s) {
        let x = station_state::copy(s, a);
        station_state::record_read(s, a);
        return station_answer::say(Answer::Value(x), 0);
    }
    request(a, s, o);
    station_state::for_read(s, a as u8);
    station_answer::say(Answer::Waits, 1)
}

// The own last write, then the recorded read, come before the copy.
#[tactic(auto, unfolding(crate::specs::Owner::read_as_b))]
fn read_as(a: usize, s: &mut [u8], o: &mut [u8]) -> Said
    requires { (length s.old ≡ state_length) × (station_room ≤ length o.old) × (a < 256) }
    ensures { delivered s.new o.new result ≡ handed o.old (read_as_b a s.old) }
{
    if station_state::member(s, WRITTEN_SET, a) {
        return station_answer::say(
            Answer::Value(le::get_u64(s, WRITTEN_VALUES + a * VALUE_WIDTH)),
            0,
        );
    }
    if station_state::member(s, READ_SET, a) {
        return station_answer::say(
            Answer::Value(le::get_u64(s, READ_VALUES + a * VALUE_WIDTH)),
            0,
        );
    }
    read_here(a, s, o)
}

// Reads an address.
pub fn read(address: u32, s: &mut [u8], o: &mut [u8], c: &mut [u8]) -> Said
    ensures { outcome s.new o.new c.new result ≡ called s.old o.old c.old (own_read_b address s.old) }
{
    if !ready(s, o, c) {
        return refuse(Refusal::Buffer as u32);
    }
    if let Err(why) = check_read(address, s) {
        return refuse(why.number());
    }
    read_as(address as usize, s, o)
}

// The objects of page p that may be written at once.
#[tactic(auto, unfolding(crate::specs::Owner::at_hand_b))]
fn at_hand(p: usize, s: &[u8]) -> u8
    requires { (length s.now ≡ state_length) × (p < 32) }
    ensures { result ≡ at_hand_b p s.now }
{
    if station_state::locking(s) {
        if station_state::has_bit32(station_state::whole(s), p) {
            return 255;
        }
        return station_state::locks(s, p);
    }
    if station_state::has_bit32(station_state::cached(s), p) {
        return !s[UNAVAILABLE + p];
    }
    0
}

// Those of x that must be asked for.
#[tactic(auto, unfolding(crate::specs::Owner::named_b))]
fn named(p: usize, x: u8, s: &[u8]) -> u8
    requires { (length s.now ≡ state_length) × (p < 32) }
    ensures { result ≡ named_b p x s.now }
{
    x & !at_hand(p, s)
}

// Asks for the objects x of page p: a locking station by 2, a validating one by 1.
fn ask(p: usize, x: u8, s: &[u8], o: &mut [u8])
    requires { (length s.now ≡ state_length) × (station_room ≤ length o.old) × (p < 32) × (x ≢ 0) }
    ensures { o.new ≡ sets o.old 0 (ask_b p x s.now) }
{
    if station_state::locking(s) {
        message::put_up(
            o,
            0,
            Up::Write as u8,
            station_state::station(s),
            p as u8,
            0,
            station_state::number(s),
            0,
            x,
        );
        return;
    }
    request(p * station_state::OBJECTS + station_state::lowest8(x), s, o);
}

fn write_as(p: usize, x: u8, values: &[u64; 8], s: &mut [u8], o: &mut [u8]) -> Said
    requires { (length s.old ≡ state_length) × (station_room ≤ length o.old) × (p < 32) }
    ensures { delivered s.new o.new result ≡ handed o.old (write_as_b p x values.now s.old) }
{
    let n = named(p, x, s);
    if n == 0 {
        station_state::write_all(s, p, x, values);
        return station_answer::say(Answer::Written, 0);
    }
    ask(p, n, s, o);
    station_state::for_write(s, p, x, values);
    station_answer::say(Answer::Waits, 1)
}

// Writes to each object of a set of one page its value, or to none of them.
pub fn write_set(
    page: u32,
    set: u32,
    values: &[u64; 8],
    s: &mut [u8],
    o: &mut [u8],
    c: &mut [u8],
) -> Said
    ensures { outcome s.new o.new c.new result ≡ called s.old o.old c.old (own_write_set_b page set values.now s.old) }
{
    if !ready(s, o, c) {
        return refuse(Refusal::Buffer as u32);
    }
    if let Err(why) = check_write(page, set, s) {
        return refuse(why.number());
    }
    write_as(page as usize, set as u8, values, s, o)
}

// Values by object, of which one counts.
#[tactic(auto, unfolding(crate::specs::Owner::only_at))]
fn only(k: usize, value: u64) -> [u64; 8]
    requires { k < 8 }
    ensures { result ≡ only_at k value }
{
    let mut values = [0u64; 8];
    values[k] = value;
    values
}

// Writes a value to an address: the set of one.
pub fn write(address: u32, value: u64, s: &mut [u8], o: &mut [u8], c: &mut [u8]) -> Said
    ensures { outcome s.new o.new c.new result ≡ called s.old o.old c.old (own_write_b address value s.old) }
{
    let k = (address % 8) as usize;
    let values = only(k, value);
    write_set(
        address / 8,
        u32::from(station_state::bit8(k)),
        &values,
        s,
        o,
        c,
    )
}

// Commits the open transaction: the commit's bytes go to `c`.
pub fn commit(s: &mut [u8], o: &mut [u8], c: &mut [u8]) -> Said
    ensures { outcome s.new o.new c.new result ≡ commit_called s.old o.old c.old }
{
    if !ready(s, o, c) {
        return refuse(Refusal::Buffer as u32);
    }
    if let Err(why) = check_open(s) {
        return refuse(why.number());
    }
    let k = station_commit::put_commit(s, c);
    station_state::for_commit(s);
    Said {
        answer: Answer::Waits,
        messages: 0,
        commit: k,
    }
}

// A locking station tells the server of an abort: how many messages that is.
fn tell_abort(s: &[u8], o: &mut [u8]) -> usize
    requires { (length s.now ≡ state_length) × (station_room ≤ length o.old) }
    ensures { posted s.now o.new result ≡ post o.old (sends s.now (aborts_b s.now)) }
{
    if station_state::locking(s) {
        message::put_up(
            o,
            0,
            Up::Abort as u8,
            station_state::station(s),
            0,
            0,
            station_state::number(s),
            0,
            0,
        );
        return 1;
    }
    0
}

// Ends the open transaction.
pub fn abort(s: &mut [u8], o: &mut [u8], c: &mut [u8]) -> Said
    ensures { outcome s.new o.new c.new result ≡ called s.old o.old c.old (own_abort_b s.old) }
{
    if !ready(s, o, c) {
        return refuse(Refusal::Buffer as u32);
    }
    if let Err(why) = check_open(s) {
        return refuse(why.number());
    }
    let i = station_state::station(s);
    let k = tell_abort(s, o);
    station_callbacks::undo(s);
    let sent = station_callbacks::close(s, o, k, i);
    station_answer::say(Answer::Aborted(0), sent)
}

// Gives a page back.
pub fn purge(page: u32, s: &mut [u8], o: &mut [u8], c: &mut [u8]) -> Said
    ensures { outcome s.new o.new c.new result ≡ called s.old o.old c.old (own_purge_b page s.old) }
{
    if !ready(s, o, c) {
        return refuse(Refusal::Buffer as u32);
    }
    if let Err(why) = check_purge(page, s) {
        return refuse(why.number());
    }
    let i = station_state::station(s);
    message::put_up(o, 0, Up::Purge as u8, i, page as u8, 0, 0, 0, 0);
    station_pages::drop_pages(s, station_state::bit32(page as usize));
    station_answer::say(Answer::Purged, 1)
}
