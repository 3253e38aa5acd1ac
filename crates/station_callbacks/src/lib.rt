#![tactic(auto)]
// Callbacks done and kept, and the end of a transaction.
ghost use Rattle.std.specs.Prelude.{◌≡◌, ◌+◌, ◌*◌, ◌≤◌, ◌<◌, length, ◌≢◌};
ghost use Rattle.station_callbacks.specs.Callbacks.{sets_at, not_kept_b, undo_b, posted, callback_posted, kept_posted, kept_posted_to, close_posted};
ghost use Rattle.station_state.specs.Layout.{set_row, state_length};
ghost use Rattle.message.specs.Layout.{message_length};
ghost use Rattle.message.specs.Commit.{station_room};

use message::Up;
use station_state::{NAMED, SET_ROW, WRITTEN_SET};

// Thirty-two object sets of a state, as a copy: the state changes while they are used.
fn sets_at(s: &[u8], at: usize) -> [u8; SET_ROW]
    requires { at + set_row ≤ length s.now }
    ensures { result ≡ sets_at s.now at }
{
    let mut x = [0; SET_ROW];
    let e = at + SET_ROW;
    x.copy_from_slice(&s[at..e]);
    x
}

// Marks, drops, and puts a 7 behind the n messages of `o`: how many there are then.
pub fn do_callback(s: &mut [u8], o: &mut [u8], n: usize, i: u8, r: u8, t: u32, x: &[u8]) -> usize
    requires { (length s.old ≡ state_length) × (n * message_length + message_length ≤ length o.old) × (set_row ≤ length x.now) }
    ensures { posted s.new o.new result ≡ callback_posted i r t x.now s.old o.old n }
{
    let y = station_pages::dropped(x, s);
    message::put_up(o, n * message::LENGTH, Up::Done as u8, i, r, 0, t, y, 0);
    station_pages::mark(s, x);
    station_pages::drop_pages(s, y);
    n + 1
}

// Whether nothing is kept for requester r.
#[tactic(auto, unfolding(crate::specs::Callbacks::not_kept_b))]
fn not_kept(i: u8, r: u8, s: &[u8]) -> bool
    requires { (length s.now ≡ state_length) × (r < 8) }
    ensures { result ≡ not_kept_b i r s.now }
{
    (station_state::kept(s, r as usize) == 0) | (r == i)
}

// Does the callback kept for requester r, if there is one.
#[tactic(auto, unfolding(crate::specs::Callbacks::kept_posted))]
fn do_kept(s: &mut [u8], o: &mut [u8], n: usize, i: u8, r: u8) -> usize
    requires { (length s.old ≡ state_length) × (r ≢ i → n * message_length + message_length ≤ length o.old) × (r < 8) }
    ensures { posted s.new o.new result ≡ kept_posted i r s.old o.old n }
{
    if not_kept(i, r, s) {
        return n;
    }
    let t = station_state::kept(s, r as usize);
    let x = sets_at(s, NAMED + r as usize * SET_ROW);
    station_state::unkeep(s, r as usize);
    do_callback(s, o, n, i, r, t, &x)
}

// Does the kept callbacks by rising requester. The station has none of its own, so that at most seven messages are sent.
fn do_all_kept(s: &mut [u8], o: &mut [u8], n: usize, i: u8) -> usize
    requires { (length s.old ≡ state_length) × (station_room ≤ length o.old) × (n ≤ 1) × (i ≤ 7) }
    ensures { posted s.new o.new result ≡ kept_posted_to i s.old o.old n 8 }
{
    let mut k = n;
    for r in 0..8u8 {
        k = do_kept(s, o, k, i, r);
    }
    k
}

// Ends the transaction: locks, reads and writes go, and the kept callbacks are done, behind the n messages of `o`.
pub fn close(s: &mut [u8], o: &mut [u8], n: usize, i: u8) -> usize
    requires { (length s.old ≡ state_length) × (station_room ≤ length o.old) × (n ≤ 1) × (i ≤ 7) }
    ensures { posted s.new o.new result ≡ close_posted i s.old o.old n }
{
    station_state::closed(s);
    do_all_kept(s, o, n, i)
}

// Undoes the transaction's writes.
#[tactic(auto, unfolding(crate::specs::Callbacks::undo_b))]
pub fn undo(s: &mut [u8])
    requires { length s.old ≡ state_length }
    ensures { s.new ≡ undo_b s.old }
{
    if station_state::locking(s) {
        let x = sets_at(s, WRITTEN_SET);
        station_pages::mark(s, &x);
        return;
    }
    let d = station_pages::written_pages(s);
    station_pages::drop_pages(s, d);
}
