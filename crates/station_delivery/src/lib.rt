#![tactic(auto)]
// What a station does with each message from the server.
ghost use Rattle.std.specs.Prelude.{◌≡◌, List, not, ◌&&◌, eqb, ◌+◌, ◌*◌, ◌≤◌, ◌<◌, length};
ghost use Rattle.station_answer.specs.Did.{delivered, handed};
ghost use Rattle.station_delivery.specs.Delivery.{ForStations, Named, live_b, ended_b, for_read_of, for_write_on, for_write_of, fits_page_b, fits_lock_b, fits_committed_b, fits_aborted_b, fits_b, take_lock_b, arrived_b, answer_wait_b, on_page_b, answers_for_b, written_on_b, gives_up_b, loosened_b, on_deescalate_b, on_callback_b, on_committed_b, on_aborted_b, on_invalidate_b, on_down_b};
ghost use Rattle.station_delivery.specs.Laws.{Settled};
ghost use Rattle.station_state.specs.Layout.{state_length, set_row, station as layout_station, wait};
ghost use Rattle.station_pages.specs.Pages.{in_use_b};
ghost use Rattle.message.specs.Layout.{message_length, page_of};
ghost use Rattle.message.specs.Commit.{station_room};

use kinds::Want;
use message::{Cause, Down, Up};
use station_answer::{Answer, Said};
use station_state::{OBJECTS, WHOLE};

// Whether t is the open transaction.
#[tactic(auto, unfolding(crate::specs::Delivery::live_b))]
fn live(s: &[u8], t: u32) -> bool
    requires { length s.now ≡ state_length }
    ensures { result ≡ live_b s.now t }
{
    station_state::is_open(s) & (t == station_state::number(s))
}

// Whether t is a validating transaction that has ended.
#[tactic(auto, unfolding(crate::specs::Delivery::ended_b))]
fn ended(s: &[u8], t: u32) -> bool
    requires { length s.now ≡ state_length }
    ensures { result ≡ ended_b s.now t }
{
    !station_state::locking(s) & !live(s, t) & !(station_state::number(s) < t)
}

#[tactic(auto, unfolding(crate::specs::Delivery::for_read_of))]
fn for_read_of(s: &[u8], a: usize) -> bool
    requires { length s.now ≡ state_length }
    ensures { result ≡ for_read_of s.now a }
{
    (station_state::wait(s) == Want::Read as u8) & (a == station_state::address(s) as usize)
}

// Whether a write on page p is out.
#[tactic(auto, unfolding(crate::specs::Delivery::for_write_on))]
fn for_write_on(s: &[u8], p: usize) -> bool
    requires { length s.now ≡ state_length }
    ensures { result ≡ for_write_on s.now p }
{
    (station_state::wait(s) == Want::Write as u8) & (p == (station_state::address(s) / 8) as usize)
}

// Whether a write that is out will write a.
#[tactic(auto, unfolding(crate::specs::Delivery::for_write_of))]
fn for_write_of(s: &[u8], a: usize) -> bool
    requires { length s.now ≡ state_length }
    ensures { result ≡ for_write_of s.now a }
{
    for_write_on(s, a / 8) & station_state::has_bit8(station_state::waiting_set(s), a % 8)
}

// Whether a 16 fits what is out, or comes for an ended transaction.
#[tactic(auto, unfolding(crate::specs::Delivery::fits_page_b))]
fn fits_page(m: &[u8], s: &[u8]) -> bool
    requires { (length s.now ≡ state_length) × (message_length ≤ length m.now) }
    ensures { result ≡ fits_page_b m.now s.now }
{
    let t = message::transaction(m);
    let a = message::page(m) as usize * OBJECTS + message::object(m) as usize;
    ended(s, t)
        | (live(s, t) & (for_read_of(s, a) | (!station_state::locking(s) & for_write_of(s, a))))
}

// Whether a 17 or 18 fits what is out.
#[tactic(auto, unfolding(crate::specs::Delivery::fits_lock_b))]
fn fits_lock(m: &[u8], s: &[u8]) -> bool
    requires { (length s.now ≡ state_length) × (message_length ≤ length m.now) }
    ensures { result ≡ fits_lock_b m.now s.now }
{
    station_state::locking(s)
        & live(s, message::transaction(m))
        & for_write_on(s, message::page(m) as usize)
}

#[tactic(auto, unfolding(crate::specs::Delivery::fits_committed_b))]
fn fits_committed(m: &[u8], s: &[u8]) -> bool
    requires { (length s.now ≡ state_length) × (message_length ≤ length m.now) }
    ensures { result ≡ fits_committed_b m.now s.now }
{
    live(s, message::transaction(m)) & (station_state::wait(s) == Want::Commit as u8)
}

#[tactic(auto, unfolding(crate::specs::Delivery::fits_aborted_b))]
fn fits_aborted(m: &[u8], s: &[u8]) -> bool
    requires { (length s.now ≡ state_length) × (message_length ≤ length m.now) }
    ensures { result ≡ fits_aborted_b m.now s.now }
{
    live(s, message::transaction(m)) & (station_state::wait(s) != Want::Nothing as u8)
}

// Whether a message fits the station's kind and what is out.
#[tactic(auto, unfolding(crate::specs::Delivery::fits_b))]
pub fn fits(m: &[u8], s: &[u8]) -> bool
    requires { (length s.now ≡ state_length) × (message_length ≤ length m.now) × ForStations m.now }
    ensures { result ≡ fits_b m.now s.now }
{
    let Ok(kind) = Down::try_from(message::kind(m)) else {
        return false;
    };
    match kind {
        Down::Page => fits_page(m, s),
        Down::LockedObjects | Down::LockedPage => fits_lock(m, s),
        Down::Deescalate | Down::Callback => station_state::locking(s),
        Down::Committed => fits_committed(m, s),
        Down::Aborted => fits_aborted(m, s),
        Down::Invalidate => !station_state::locking(s),
    }
}

// Takes the lock that a page brings.
#[tactic(auto, unfolding(crate::specs::Delivery::take_lock_b))]
fn take_lock(s: &mut [u8], m: &[u8])
    requires { (length s.old ≡ state_length) × (message_length ≤ length m.now) × (page_of m.now < 32) }
    ensures { s.new ≡ take_lock_b m.now s.old }
{
    let p = message::page(m) as usize;
    match Down::try_from(message::kind(m)) {
        Ok(Down::LockedObjects) => station_state::lock_waiting(s, p),
        Ok(Down::LockedPage) => station_state::page_on(s, WHOLE, p),
        _ => {}
    }
}

// The page of a message arrives, with its lock; nothing is out any more.
#[tactic(auto, unfolding(crate::specs::Delivery::arrived_b))]
fn arrived(s: &mut [u8], m: &[u8])
    requires { (length s.old ≡ state_length) × (message_length ≤ length m.now) × (page_of m.now < 32) }
    ensures { s.new ≡ arrived_b m.now s.old }
{
    take_lock(s, m);
    station_pages::arrive(s, m, message::page(m) as usize);
    station_state::idle(s);
}

// The owner's answer to what was out, on the state with the page.
fn answer_wait(s: &mut [u8], o: &mut [u8], w: u8, a: usize, x: u8, values: &[u64; 8]) -> Said
    requires { (length s.old ≡ state_length) × (a < 256) }
    ensures { delivered s.new o.new result ≡ handed o.old (answer_wait_b w a x values.now s.old) }
{
    if w == Want::Read as u8 {
        let v = station_state::copy(s, a);
        station_state::record_read(s, a);
        return station_answer::say(Answer::Value(v), 0);
    }
    if w == Want::Write as u8 {
        station_state::write_all(s, a / 8, x, values);
        return station_answer::say(Answer::Written, 0);
    }
    station_answer::say(Answer::Nothing, 0)
}

// On 16, 17 and 18.
fn on_page(s: &mut [u8], m: &[u8], o: &mut [u8]) -> Said
    requires { (length s.old ≡ state_length) × (message_length ≤ length m.now) × (page_of m.now < 32) }
    ensures { delivered s.new o.new result ≡ handed o.old (on_page_b m.now s.old) }
{
    if ended(s, message::transaction(m)) {
        return station_answer::say(Answer::Nothing, 0);
    }
    let w = station_state::wait(s);
    let a = station_state::address(s) as usize;
    let x = station_state::waiting_set(s);
    let values = station_state::waiting_values(s);
    arrived(s, m);
    answer_wait(s, o, w, a, x, &values)
}

// The transaction that the 8 names.
#[tactic(auto, unfolding(crate::specs::Delivery::answers_for_b))]
fn answers_for(m: &[u8], s: &[u8]) -> u32
    requires { (length s.now ≡ state_length) × (message_length ≤ length m.now) }
    ensures { result ≡ answers_for_b m.now s.now }
{
    if station_state::keeps(s) & station_state::is_open(s) {
        return station_state::number(s);
    }
    message::transaction(m)
}

// The objects that it wrote on the page that 19 names.
#[tactic(auto, unfolding(crate::specs::Delivery::written_on_b))]
fn written_on(m: &[u8], s: &[u8]) -> u8
    requires { (length s.now ≡ state_length) × (message_length ≤ length m.now) × (page_of m.now < 32) }
    ensures { result ≡ written_on_b m.now s.now }
{
    if live(s, answers_for(m, s)) {
        return station_state::written_set(s, message::page(m) as usize);
    }
    0
}

// Whether the page's whole lock goes.
#[tactic(auto, unfolding(crate::specs::Delivery::gives_up_b))]
fn gives_up(m: &[u8], s: &[u8]) -> bool
    requires { (length s.now ≡ state_length) × (message_length ≤ length m.now) × (page_of m.now < 32) }
    ensures { result ≡ gives_up_b m.now s.now }
{
    let p = message::page(m) as usize;
    (station_state::keeps(s) | live(s, message::transaction(m)))
        & station_state::has_bit32(station_state::whole(s), p)
}

// It becomes locks on the objects of x.
#[tactic(auto, unfolding(crate::specs::Delivery::loosened_b))]
fn loosened(s: &mut [u8], m: &[u8], x: u8)
    requires { (length s.old ≡ state_length) × (message_length ≤ length m.now) × (page_of m.now < 32) × (x ≡ written_on_b m.now s.old) }
    ensures { s.new ≡ loosened_b m.now s.old }
{
    if gives_up(m, s) {
        station_state::loosen(s, message::page(m) as usize, x);
        return;
    }
}

// On 19.
fn on_deescalate(s: &mut [u8], m: &[u8], o: &mut [u8]) -> Said
    requires { (length s.old ≡ state_length) × (message_length ≤ length m.now) × (station_room ≤ length o.old) × (page_of m.now < 32) }
    ensures { delivered s.new o.new result ≡ handed o.old (on_deescalate_b m.now s.old) }
{
    let x = written_on(m, s);
    message::put_up(
        o,
        0,
        Up::WrittenSet as u8,
        station_state::station(s),
        message::page(m),
        0,
        answers_for(m, s),
        0,
        x,
    );
    loosened(s, m, x);
    station_answer::say(Answer::Nothing, 1)
}

// On 20.
fn on_callback(s: &mut [u8], m: &[u8], o: &mut [u8]) -> Said
    requires { (length s.old ≡ state_length) × (message_length ≤ length m.now) × (station_room ≤ length o.old) × (page_of m.now < 8) }
    ensures { delivered s.new o.new result ≡ handed o.old (on_callback_b m.now s.old) }
{
    let t = message::transaction(m);
    let x = &m[message::SETS..message::VALUES];
    if station_pages::in_use(x, s) {
        message::put_up(
            o,
            0,
            Up::Busy as u8,
            station_state::station(s),
            message::page(m),
            0,
            t,
            0,
            0,
        );
        station_state::keep(s, message::page(m) as usize, t, x);
        return station_answer::say(Answer::Nothing, 1);
    }
    let i = station_state::station(s);
    let n = station_callbacks::do_callback(s, o, 0, i, message::page(m), t, x);
    station_answer::say(Answer::Nothing, n)
}

// On 21.
fn on_committed(s: &mut [u8], m: &[u8], o: &mut [u8]) -> Said
    requires { (length s.old ≡ state_length) × (message_length ≤ length m.now) × (station_room ≤ length o.old) × (layout_station s.old ≤ 7) }
    ensures { delivered s.new o.new result ≡ handed o.old (on_committed_b m.now s.old) }
{
    let i = station_state::station(s);
    let n = le::get_u32(m, message::VERSION);
    station_pages::versions(s, n);
    let k = station_callbacks::close(s, o, 0, i);
    station_answer::say(Answer::Committed(n), k)
}

// On 22.
fn on_aborted(s: &mut [u8], m: &[u8], o: &mut [u8]) -> Said
    requires { (length s.old ≡ state_length) × (message_length ≤ length m.now) × (station_room ≤ length o.old) × (layout_station s.old ≤ 7) }
    ensures { delivered s.new o.new result ≡ handed o.old (on_aborted_b m.now s.old) }
{
    let i = station_state::station(s);
    station_callbacks::undo(s);
    let k = station_callbacks::close(s, o, 0, i);
    station_answer::say(Answer::Aborted(u32::from(message::object(m))), k)
}

// Whether a 23 with these sets ends the transaction. A station at rest has used nothing.
fn ends(sets: &[u8], s: &[u8]) -> bool
    requires { (length s.now ≡ state_length) × (set_row ≤ length sets.now) × Settled s.now }
    ensures { result ≡ (in_use_b sets.now s.now && not (eqb (wait s.now) 3)) }
{
    if !station_state::is_open(s) {
        return false;
    }
    station_pages::in_use(sets, s) & (station_state::wait(s) != Want::Commit as u8)
}

// On 23.
fn on_invalidate(s: &mut [u8], m: &[u8], o: &mut [u8]) -> Said
    requires { (length s.old ≡ state_length) × (message_length ≤ length m.now) × (station_room ≤ length o.old) × (layout_station s.old ≤ 7) × Settled s.old }
    ensures { delivered s.new o.new result ≡ handed o.old (on_invalidate_b m.now s.old) }
{
    let i = station_state::station(s);
    let x = &m[message::SETS..message::VALUES];
    let over = ends(x, s);
    station_pages::mark(s, x);
    if over {
        station_callbacks::undo(s);
        let k = station_callbacks::close(s, o, 0, i);
        return station_answer::say(Answer::Aborted(Cause::Changed as u32), k);
    }
    station_answer::say(Answer::Nothing, 0)
}

// Takes a message that fits: what the owner is told, and the messages sent.
#[tactic(auto, unfolding(crate::specs::Delivery::on_down_b))]
pub fn on_down(s: &mut [u8], m: &[u8], o: &mut [u8]) -> Said
    requires { (length s.old ≡ state_length) × (message_length ≤ length m.now) × (station_room ≤ length o.old) × (layout_station s.old ≤ 7) × Named m.now × Settled s.old }
    ensures { delivered s.new o.new result ≡ handed o.old (on_down_b m.now s.old) }
{
    let Ok(kind) = Down::try_from(message::kind(m)) else {
        return station_answer::say(Answer::Nothing, 0);
    };
    match kind {
        Down::Page | Down::LockedObjects | Down::LockedPage => on_page(s, m, o),
        Down::Deescalate => on_deescalate(s, m, o),
        Down::Callback => on_callback(s, m, o),
        Down::Committed => on_committed(s, m, o),
        Down::Aborted => on_aborted(s, m, o),
        Down::Invalidate => on_invalidate(s, m, o),
    }
}
