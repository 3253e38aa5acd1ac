#![tactic(auto)]
// The server's acceptance of a message: the message's own effect, before the pass over the waiting list. What it asks of state and
// message is Acceptable in specs/Facts.antt, in plain numbers: this crate knows nothing of what the bytes mean.
ghost use Rattle.std.specs.Prelude.{◌≡◌, ◌+◌, ◌*◌, ◌≤◌, ◌<◌, length};
ghost use Rattle.message.specs.Layout.{message_length, station_of, page_of, requester_of, transaction_of};
ghost use Rattle.server_state.specs.Layout.{server_length, counter_limit, ages_of, arrivals_of, locking_b};
ghost use Rattle.server_changes.specs.Changes.{notice_b};
ghost use Rattle.server_actions.specs.Actions.{commit_now_b, address_of, on_read_b, on_write_b, on_commit_b, on_abort_b, on_purge_b, on_busy_b, on_done_b, on_written_set_b, accept_b};
ghost use Rattle.server_actions.specs.Posting.{from as posting_from, posted, post, Room};
ghost use Rattle.server_accept.specs.Facts.{LastKept, Packed, Acceptable};

use message::{Cause, Down, Up};
use server_actions::Counts;

fn station(m: &[u8]) -> usize
    requires { message_length ≤ length m.now }
    ensures { result ≡ station_of m.now }
{
    message::station(m) as usize
}

// Byte 2: a page or a requester.
fn named(m: &[u8]) -> usize
    requires { message_length ≤ length m.now }
    ensures { result ≡ page_of m.now }
{
    message::page(m) as usize
}

fn address(m: &[u8]) -> usize
    requires { (message_length ≤ length m.now) × (address_of m.now < 256) }
    ensures { result ≡ address_of m.now }
{
    named(m) * station_state::OBJECTS + message::object(m) as usize
}

// With its first message a transaction is unfinished and has an age.
fn noticed(s: &mut [u8], m: &[u8])
    requires { (length s.old ≡ server_length) × (message_length ≤ length m.now) × (station_of m.now < 8) × (ages_of s.old < counter_limit) }
    ensures { s.new ≡ notice_b (station_of m.now) (transaction_of m.now) s.old }
{
    server_changes::notice(s, station(m), message::transaction(m));
}

// A locking read waits; a validating one gets its page at the same step, with no object unavailable.
fn on_read(s: &mut [u8], o: &mut [u8], q: &mut [u8], c: Counts, m: &[u8]) -> Counts
    requires { (length s.old ≡ server_length) × (message_length ≤ length m.now) × (station_of m.now < 8) × (address_of m.now < 256) × (ages_of s.old < counter_limit) × (arrivals_of s.old < counter_limit) × Room o.old q.old c (on_read_b m.now (posting_from s.old)) }
    ensures { posted s.new o.new q.new result ≡ post o.old q.old c (on_read_b m.now (posting_from s.old)) }
{
    let i = station(m);
    let a = address(m);
    let waits = server_state::locking(s, i);
    noticed(s, m);
    if waits {
        server_changes::join_read(s, i, a);
        return c;
    }
    server_actions::send_page(s, o, q, c, Down::Page as u8, i, a, 0)
}

// A write waits for all that it names.
#[tactic(auto, unfolding(server_actions::specs::Actions::on_write_b, server_actions::specs::Actions::noticed_b))]
fn on_write(s: &mut [u8], m: &[u8])
    requires { (length s.old ≡ server_length) × (message_length ≤ length m.now) × (station_of m.now < 8) × (page_of m.now < 32) × (ages_of s.old < counter_limit) × (arrivals_of s.old < counter_limit) }
    ensures { s.new ≡ (on_write_b m.now (posting_from s.old)).state }
{
    noticed(s, m);
    server_changes::join_write(s, station(m), named(m), message::set(m));
}

// A locking commit installs without waiting: it has its locks. No number comes after the last.
fn commit_now(s: &mut [u8], o: &mut [u8], q: &mut [u8], c: Counts, m: &[u8], i: usize) -> Counts
    requires { (length s.old ≡ server_length) × Packed m.now × (i < 8) × LastKept i m.now s.old × Room o.old q.old c (commit_now_b i m.now (posting_from s.old)) }
    ensures { posted s.new o.new q.new result ≡ post o.old q.old c (commit_now_b i m.now (posting_from s.old)) }
{
    if server_state::last(s) == u32::MAX {
        return server_actions::abort(s, o, q, c, i, Cause::NoNumber as u8);
    }
    server_changes::leave(s, i);
    server_changes::unpack_commit(s, m, i);
    server_actions::install(s, o, q, c, i)
}

// A validating commit waits: the pass checks it.
fn on_commit(s: &mut [u8], o: &mut [u8], q: &mut [u8], c: Counts, m: &[u8]) -> Counts
    requires { (length s.old ≡ server_length) × Packed m.now × (station_of m.now < 8) × LastKept (station_of m.now) m.now (notice_b (station_of m.now) (transaction_of m.now) s.old) × (ages_of s.old < counter_limit) × (arrivals_of s.old < counter_limit) × Room o.old q.old c (on_commit_b m.now (posting_from s.old)) }
    ensures { posted s.new o.new q.new result ≡ post o.old q.old c (on_commit_b m.now (posting_from s.old)) }
{
    let i = station(m);
    let goes = server_state::locking(s, i);
    noticed(s, m);
    if goes {
        return commit_now(s, o, q, c, m, i);
    }
    server_changes::join_commit(s, m, i);
    c
}

#[tactic(auto, unfolding(server_actions::specs::Actions::on_abort_b, server_actions::specs::Actions::noticed_b))]
fn on_abort(s: &mut [u8], m: &[u8])
    requires { (length s.old ≡ server_length) × (message_length ≤ length m.now) × (station_of m.now < 8) × (ages_of s.old < counter_limit) }
    ensures { s.new ≡ (on_abort_b m.now (posting_from s.old)).state }
{
    noticed(s, m);
    server_changes::finish(s, station(m), 0);
}

#[tactic(auto, unfolding(server_actions::specs::Actions::on_purge_b))]
fn on_purge(s: &mut [u8], m: &[u8])
    requires { (length s.old ≡ server_length) × (message_length ≤ length m.now) × (station_of m.now < 8) × (page_of m.now < 32) }
    ensures { s.new ≡ (on_purge_b m.now (posting_from s.old)).state }
{
    server_changes::unlist(s, station(m), station_state::bit32(named(m)));
}

// A 6 to a 20 that is no longer open is void.
fn on_busy(s: &mut [u8], m: &[u8])
    requires { (length s.old ≡ server_length) × (message_length ≤ length m.now) × (station_of m.now < 8) × (requester_of m.now < 8) }
    ensures { s.new ≡ (on_busy_b m.now (posting_from s.old)).state }
{
    let i = station(m);
    let r = named(m);
    if server_tests::open_call(s, i, r, message::transaction(m)) {
        server_changes::mark_busy(s, i, r);
        return;
    }
}

// The pages of a 7 are gone even where its 20 is no longer open.
fn on_done(s: &mut [u8], m: &[u8])
    requires { (length s.old ≡ server_length) × (message_length ≤ length m.now) × (station_of m.now < 8) × (requester_of m.now < 8) }
    ensures { s.new ≡ (on_done_b m.now (posting_from s.old)).state }
{
    let i = station(m);
    let r = named(m);
    let open = server_tests::open_call(s, i, r, message::transaction(m));
    server_changes::unlist(s, i, message::pages(m));
    if open {
        server_changes::answered(s, i, r);
        return;
    }
}

// An 8 is void where the lock went in the meantime.
fn on_written_set(s: &mut [u8], m: &[u8])
    requires { (length s.old ≡ server_length) × (message_length ≤ length m.now) × (station_of m.now < 8) × (page_of m.now < 32) × (ages_of s.old < counter_limit) }
    ensures { s.new ≡ (on_written_set_b m.now (posting_from s.old)).state }
{
    let i = station(m);
    let p = named(m);
    let t = message::transaction(m);
    if server_tests::open_ask(s, i, p, t) {
        server_changes::heed(s, i, p, t, message::set(m));
        return;
    }
}

// Takes a message that passes numbers 1 to 6.
pub fn accept(s: &mut [u8], o: &mut [u8], q: &mut [u8], c: Counts, m: &[u8]) -> Counts
    requires { (length s.old ≡ server_length) × Acceptable s.old m.now × Room o.old q.old c (accept_b m.now (posting_from s.old)) }
    ensures { posted s.new o.new q.new result ≡ post o.old q.old c (accept_b m.now (posting_from s.old)) }
{
    match Up::try_from(message::kind(m)) {
        Ok(Up::Read) => return on_read(s, o, q, c, m),
        Ok(Up::Write) => on_write(s, m),
        Ok(Up::Commit) => return on_commit(s, o, q, c, m),
        Ok(Up::Abort) => on_abort(s, m),
        Ok(Up::Purge) => on_purge(s, m),
        Ok(Up::Busy) => on_busy(s, m),
        Ok(Up::Done) => on_done(s, m),
        Ok(Up::WrittenSet) => on_written_set(s, m),
        Err(_) => {}
    }
    c
}
