#![tactic(auto)]
// The changes of the server's state.
ghost use Rattle.std.specs.Prelude.{◌≡◌, ◌+◌, ◌*◌, ◌≤◌, ◌<◌, length};
ghost use Rattle.le.specs.Le.{set_u64};
ghost use Rattle.message.specs.Layout.{version_width};
ghost use Rattle.message.specs.Commit.{versions_at, shortest_commit, addresses_at, entries_of};
ghost use Rattle.layout.specs.Record.{entry_length};
ghost use Rattle.server_state.specs.Layout.{age_width, server_length, value_row, version_row, set_row, counter_limit, age_from, next_age_from, ages_of, arrivals_of, last_of};
ghost use Rattle.server_changes.specs.Changes.{new_age_b, age_b, notice_b, keeps_age_b, hold_b, free_page_b, free_pages_to, free_pages_b, free_one_b, free_to, finish_b, leave_b, join_b, join_read_b, join_write_b, unpack_one, unpack_to, unpack_b, join_commit_b, list_b, unlist_b, mark_busy_b, answered_b, lock_one_b, lock_to, loosen_b, meet_b, heeded_b, heed_b, asked_b, called_b, lock_page_b, value_one_b, values_to, write_b};
ghost use Rattle.server_changes.specs.Values.{value_at_b};
ghost use Rattle.station_state.specs.Runs.{run};

use kinds::Want;
use message::Cause;
use server_state::{
    AGE, AGE_KEPT, AGE_WIDTH, ARRIVAL, ASKED, Ages, BUSY, CALLED, GROUP_LOCKS, LAST, LATEST,
    LISTED, LOCK, NEXT_AGE, NEXT_ARRIVAL, PEND, READ_SET, READ_VALUE, READ_VERSION, REQUEST,
    UNFINISHED, VALUE, VALUE_ROW, VERSION, VERSION_ROW, WANT, WHOLE, WHOLE_FOR, WORK, WRITTEN_SET,
    WRITTEN_VALUE, WRITTEN_VERSION,
};
use station_state::{GROUP, NUMBER_WIDTH, OBJECTS, PAGE_SET_WIDTH, SET_ROW, VALUE_WIDTH};

// The byte that names station i as a lock's holder: 0 is for none.
fn holder(i: usize) -> u8
    requires { i < 8 }
    ensures { result ≡ i + 1 }
{
    (i + 1) as u8
}

// Station i's transaction takes the next age.
fn new_age(s: &mut [u8], i: usize)
    requires { (length s.old ≡ server_length) × (i < 8) × (ages_of s.old < counter_limit) }
    ensures { s.new ≡ new_age_b i s.old }
{
    let ages = Ages {
        next: server_state::next_age(s),
    };
    let aged = ages.take();
    let rest = aged.ages;
    le::put_u64(s, AGE + i * AGE_WIDTH, aged.age);
    le::put_u64(s, NEXT_AGE, rest.next);
}

// The age of i's transaction: that which the station keeps, else the next one.
fn age(s: &mut [u8], i: usize)
    requires { (length s.old ≡ server_length) × (i < 8) × (ages_of s.old < counter_limit) }
    ensures { s.new ≡ age_b i s.old }
{
    if s[AGE_KEPT + i] == 0 {
        new_age(s, i);
        return;
    }
}

// A message of i's transaction t: with its first one it is unfinished and has an age.
pub fn notice(s: &mut [u8], i: usize, t: u32)
    requires { (length s.old ≡ server_length) × (i < 8) × (ages_of s.old < counter_limit) }
    ensures { s.new ≡ notice_b i t s.old }
{
    if t == server_state::latest(s, i) {
        return;
    }
    age(s, i);
    le::put_u8(s, UNFINISHED + i, 1);
    le::put_u32(s, LATEST + i * NUMBER_WIDTH, t);
}

// Page p's whole lock is h's (0 for none), given to its transaction t, and no 19 is out for it.
#[tactic(auto, unfolding(crate::specs::Changes::hold_b))]
fn hold(s: &mut [u8], p: usize, h: u8, t: u32)
    requires { (length s.old ≡ server_length) × (p < 32) }
    ensures { s.new ≡ hold_b p h t s.old }
{
    station_state::page_off(s, ASKED, p);
    le::put_u8(s, WHOLE + p, h);
    le::put_u32(s, WHOLE_FOR + p * NUMBER_WIDTH, t);
}

// The 19 of a page goes with its whole lock.
#[tactic(auto, unfolding(crate::specs::Changes::free_page_b))]
fn free_page(s: &mut [u8], i: usize, p: usize)
    requires { (length s.old ≡ server_length) × (i < 8) × (p < 32) }
    ensures { s.new ≡ free_page_b i s.old p }
{
    if server_state::whole(s, p) == holder(i) {
        hold(s, p, 0, 0);
        return;
    }
}

// Eight pages; where none is locked whole none is looked at.
#[tactic(auto, unfolding(station_state::specs::Runs::run))]
fn free_group(s: &mut [u8], i: usize, g: usize)
    requires { (length s.old ≡ server_length) × (i < 8) × (g < 4) }
    ensures { s.new ≡ run (free_page_b i) s.old (g * 8) 8 }
{
    if le::get_u64(s, WHOLE + g * GROUP) == 0 {
        return;
    }
    for p in 0..8 {
        free_page(s, i, g * GROUP + p);
    }
}

#[tactic(auto, unfolding(station_state::specs::Runs::run))]
fn free_all_pages(s: &mut [u8], i: usize)
    requires { (length s.old ≡ server_length) × (i < 8) }
    ensures { s.new ≡ free_pages_to i s.old 32 }
{
    for g in 0..4 {
        free_group(s, i, g);
    }
}

// A keeping station's whole locks outlive its transactions.
fn free_pages(s: &mut [u8], i: usize)
    requires { (length s.old ≡ server_length) × (i < 8) }
    ensures { s.new ≡ free_pages_b i s.old }
{
    if server_state::keeps(s, i) {
        return;
    }
    free_all_pages(s, i);
}

#[tactic(auto, unfolding(crate::specs::Changes::free_one_b))]
fn free_one(s: &mut [u8], i: usize, a: usize)
    requires { (length s.old ≡ server_length) × (i < 8) × (a < 256) }
    ensures { s.new ≡ free_one_b i s.old a }
{
    if server_state::lock(s, a) == holder(i) {
        le::put_u8(s, LOCK + a, 0);
        return;
    }
}

// The locks of i on the objects of page p. A page without locks is passed over.
#[tactic(auto, unfolding(station_state::specs::Runs::run))]
fn free_on(s: &mut [u8], i: usize, p: usize)
    requires { (length s.old ≡ server_length) × (i < 8) × (p < 32) }
    ensures { s.new ≡ run (free_one_b i) s.old (p * 8) 8 }
{
    if server_state::locks_on(s, p) == 0 {
        return;
    }
    for o in 0..8 {
        free_one(s, i, p * OBJECTS + o);
    }
}

// .. and of eight pages.
#[tactic(auto, unfolding(station_state::specs::Runs::run))]
fn free_in(s: &mut [u8], i: usize, g: usize)
    requires { (length s.old ≡ server_length) × (i < 8) × (g < 4) }
    ensures { s.new ≡ run (free_one_b i) s.old (g * 64) 64 }
{
    if station_state::over(s, LOCK + g * GROUP_LOCKS, GROUP_LOCKS) == 0 {
        return;
    }
    for p in 0..8 {
        free_on(s, i, g * GROUP + p);
    }
}

#[tactic(auto, unfolding(station_state::specs::Runs::run))]
fn free(s: &mut [u8], i: usize)
    requires { (length s.old ≡ server_length) × (i < 8) }
    ensures { s.new ≡ free_to i s.old 256 }
{
    for g in 0..4 {
        free_in(s, i, g);
    }
}

// 1 where a station that gets 22 with this cause keeps its age. The cause is the byte that 22 carries, and the answer the byte that the state keeps.
pub fn keeps_age(cause: u8) -> u8
    ensures { result ≡ keeps_age_b cause }
{
    if cause == Cause::Deadlock as u8 {
        return 1;
    }
    0
}

// The transaction of i ends: its locks go, and the age unless `kept` is 1.
pub fn finish(s: &mut [u8], i: usize, kept: u8)
    requires { (length s.old ≡ server_length) × (i < 8) }
    ensures { s.new ≡ finish_b i kept s.old }
{
    free_pages(s, i);
    free(s, i);
    le::put_u8(s, UNFINISHED + i, 0);
    le::put_u8(s, AGE_KEPT + i, kept);
}

// The entry of i in the waiting list goes.
pub fn leave(s: &mut [u8], i: usize)
    requires { (length s.old ≡ server_length) × (i < 8) }
    ensures { s.new ≡ leave_b i s.old }
{
    le::put_u8(s, WANT + i, Want::Nothing as u8);
    le::put_u64(s, ARRIVAL + i * AGE_WIDTH, 0);
    le::put_u8(s, REQUEST + i, 0);
    station_state::clear(s, READ_SET + i * SET_ROW);
    station_state::clear(s, WRITTEN_SET + i * SET_ROW);
    le::put_u8(s, CALLED + i, 0);
    le::put_u8(s, PEND + i, 0);
    le::put_u8(s, BUSY + i, 0);
}

// Station i joins the waiting list, wanting k at address a.
fn join(s: &mut [u8], i: usize, k: u8, a: u8)
    requires { (length s.old ≡ server_length) × (i < 8) × (arrivals_of s.old < counter_limit) }
    ensures { s.new ≡ join_b i k a s.old }
{
    let n = server_state::next_arrival(s);
    leave(s, i);
    le::put_u64(s, ARRIVAL + i * AGE_WIDTH, n);
    le::put_u8(s, WANT + i, k);
    le::put_u8(s, REQUEST + i, a);
    le::put_u64(s, NEXT_ARRIVAL, n + 1);
}

pub fn join_read(s: &mut [u8], i: usize, a: usize)
    requires { (length s.old ≡ server_length) × (i < 8) × (a < 256) × (arrivals_of s.old < counter_limit) }
    ensures { s.new ≡ join_read_b i a s.old }
{
    join(s, i, Want::Read as u8, a as u8);
    station_state::add_to(s, READ_SET + i * SET_ROW, a);
}

// The request is for the objects of x on page p, and names the page's first address.
pub fn join_write(s: &mut [u8], i: usize, p: usize, x: u8)
    requires { (length s.old ≡ server_length) × (i < 8) × (p < 32) × (arrivals_of s.old < counter_limit) }
    ensures { s.new ≡ join_write_b i p x s.old }
{
    join(s, i, Want::Write as u8, (p * OBJECTS) as u8);
    le::put_u8(s, WRITTEN_SET + i * SET_ROW + p, x);
}

// Entry e of a commit's record joins the sets from `at`, its value those from `from` and its version those from `seen`.
fn unpack_one(s: &mut [u8], m: &[u8], at: usize, from: usize, seen: usize, e: usize)
    requires { (length s.old ≡ server_length) × (shortest_commit ≤ length m.now) × (addresses_at m.now + entry_length * entries_of m.now ≤ length m.now) × (versions_at + entries_of m.now * version_width ≤ length m.now) × (at + set_row ≤ server_length) × (from + value_row ≤ server_length) × (seen + version_row ≤ server_length) × (e < entries_of m.now) }
    ensures { s.new ≡ unpack_one m.now s.old at from seen e }
{
    let p = message::record_at(m) + record::HEADER;
    let k = message::sent_reads(m) + message::sent_writes(m);
    let a = m[p + e] as usize;
    let v = le::get_u64(m, p + k + e * record::VALUE);
    let n = le::get_u32(m, message::VERSIONS + e * message::VERSION_WIDTH);
    station_state::add_to(s, at, a);
    le::put_u64(s, from + a * VALUE_WIDTH, v);
    le::put_u32(s, seen + a * NUMBER_WIDTH, n);
}

// n entries from the first on.
fn unpack(s: &mut [u8], m: &[u8], at: usize, from: usize, seen: usize, first: usize, n: usize)
    requires { (length s.old ≡ server_length) × (shortest_commit ≤ length m.now) × (addresses_at m.now + entry_length * entries_of m.now ≤ length m.now) × (versions_at + entries_of m.now * version_width ≤ length m.now) × (at + set_row ≤ server_length) × (from + value_row ≤ server_length) × (seen + version_row ≤ server_length) × (first + n ≤ entries_of m.now) }
    ensures { s.new ≡ unpack_to m.now s.old at from seen first n }
{
    for k in 0..n {
        unpack_one(s, m, at, from, seen, first + k);
    }
}

// The work of a commit goes to i's entry, whose sets are empty.
pub fn unpack_commit(s: &mut [u8], m: &[u8], i: usize)
    requires { (length s.old ≡ server_length) × (shortest_commit ≤ length m.now) × (addresses_at m.now + entry_length * entries_of m.now ≤ length m.now) × (versions_at + entries_of m.now * version_width ≤ length m.now) × (i < 8) }
    ensures { s.new ≡ unpack_b i m.now s.old }
{
    let n = message::sent_reads(m);
    let w = message::sent_writes(m);
    le::put_u32(s, WORK + i * NUMBER_WIDTH, message::transaction(m));
    unpack(
        s,
        m,
        READ_SET + i * SET_ROW,
        READ_VALUE + i * VALUE_ROW,
        READ_VERSION + i * VERSION_ROW,
        0,
        n,
    );
    unpack(
        s,
        m,
        WRITTEN_SET + i * SET_ROW,
        WRITTEN_VALUE + i * VALUE_ROW,
        WRITTEN_VERSION + i * VERSION_ROW,
        n,
        w,
    );
}

pub fn join_commit(s: &mut [u8], m: &[u8], i: usize)
    requires { (length s.old ≡ server_length) × (shortest_commit ≤ length m.now) × (addresses_at m.now + entry_length * entries_of m.now ≤ length m.now) × (versions_at + entries_of m.now * version_width ≤ length m.now) × (i < 8) × (arrivals_of s.old < counter_limit) }
    ensures { s.new ≡ join_commit_b i m.now s.old }
{
    join(s, i, Want::Commit as u8, 0);
    unpack_commit(s, m, i);
}

// Station i is listed as holding page p.
#[tactic(auto, unfolding(crate::specs::Changes::list_b))]
pub fn list(s: &mut [u8], i: usize, p: usize)
    requires { (length s.old ≡ server_length) × (i < 8) × (p < 32) }
    ensures { s.new ≡ list_b i p s.old }
{
    station_state::page_on(s, LISTED + i * PAGE_SET_WIDTH, p);
}

// Station i is listed for none of the pages of d.
#[tactic(auto, unfolding(crate::specs::Changes::unlist_b))]
pub fn unlist(s: &mut [u8], i: usize, d: u32)
    requires { (length s.old ≡ server_length) × (i < 8) }
    ensures { s.new ≡ unlist_b i d s.old }
{
    let x = le::get_u32(s, LISTED + i * PAGE_SET_WIDTH);
    le::put_u32(s, LISTED + i * PAGE_SET_WIDTH, x & !d);
}

// Station i answers r's 20 with 6.
#[tactic(auto, unfolding(crate::specs::Changes::mark_busy_b))]
pub fn mark_busy(s: &mut [u8], i: usize, r: usize)
    requires { (length s.old ≡ server_length) × (i < 8) × (r < 8) }
    ensures { s.new ≡ mark_busy_b i r s.old }
{
    let x = server_state::busy(s, r) | station_state::bit8(i);
    le::put_u8(s, BUSY + r, x);
}

// Station i answers r's 20 with 7: it owes none, and a 6 before it is void.
#[tactic(auto, unfolding(crate::specs::Changes::answered_b))]
pub fn answered(s: &mut [u8], i: usize, r: usize)
    requires { (length s.old ≡ server_length) × (i < 8) × (r < 8) }
    ensures { s.new ≡ answered_b i r s.old }
{
    let others = !station_state::bit8(i);
    let busy = server_state::busy(s, r) & others;
    let pend = server_state::pend(s, r) & others;
    le::put_u8(s, BUSY + r, busy);
    le::put_u8(s, PEND + r, pend);
}

#[tactic(auto, unfolding(crate::specs::Changes::lock_one_b))]
fn lock_one(s: &mut [u8], i: usize, p: usize, x: u8, o: usize)
    requires { (length s.old ≡ server_length) × (i < 8) × (p < 32) × (o < 8) }
    ensures { s.new ≡ lock_one_b i p x s.old o }
{
    if station_state::has_bit8(x, o) {
        le::put_u8(s, LOCK + (p * OBJECTS + o), holder(i));
        return;
    }
}

// Station i locks the objects of x on page p.
#[tactic(auto, unfolding(crate::specs::Changes::lock_to))]
pub fn lock_set(s: &mut [u8], i: usize, p: usize, x: u8)
    requires { (length s.old ≡ server_length) × (i < 8) × (p < 32) }
    ensures { s.new ≡ lock_to i p x s.old 8 }
{
    for o in 0..8 {
        lock_one(s, i, p, x, o);
    }
}

// The whole lock of i on page p becomes locks on the objects of x.
#[tactic(auto, unfolding(crate::specs::Changes::loosen_b))]
fn loosen(s: &mut [u8], i: usize, p: usize, x: u8)
    requires { (length s.old ≡ server_length) × (i < 8) × (p < 32) }
    ensures { s.new ≡ loosen_b i p x s.old }
{
    hold(s, p, 0, 0);
    lock_set(s, i, p, x);
}

// A transaction that station i's 8 is the first to name is met.
fn meet(s: &mut [u8], i: usize, t: u32)
    requires { (length s.old ≡ server_length) × (i < 8) × (ages_of s.old < counter_limit) }
    ensures { s.new ≡ meet_b i t s.old }
{
    if server_state::latest(s, i) < t {
        notice(s, i, t);
        return;
    }
}

// Of the objects x that an 8 of transaction t names, those that are locked: all or none.
#[tactic(auto, unfolding(crate::specs::Changes::heeded_b))]
fn heeded(s: &[u8], i: usize, t: u32, x: u8) -> u8
    requires { (length s.now ≡ server_length) × (i < 8) }
    ensures { result ≡ heeded_b i t x s.now }
{
    if (server_state::unfinished(s, i) != 0) & (t == server_state::latest(s, i)) {
        return x;
    }
    0
}

// An 8 of transaction t answers: page p's whole lock goes.
pub fn heed(s: &mut [u8], i: usize, p: usize, t: u32, x: u8)
    requires { (length s.old ≡ server_length) × (i < 8) × (p < 32) × (ages_of s.old < counter_limit) }
    ensures { s.new ≡ heed_b i p t x s.old }
{
    meet(s, i, t);
    let y = heeded(s, i, t, x);
    loosen(s, i, p, y);
}

// The 19 of page p is sent.
#[tactic(auto, unfolding(crate::specs::Changes::asked_b))]
pub fn asked(s: &mut [u8], p: usize)
    requires { (length s.old ≡ server_length) × (p < 32) }
    ensures { s.new ≡ asked_b p s.old }
{
    station_state::page_on(s, ASKED, p);
}

// The 20s of i's entry are sent, to the stations of x.
#[tactic(auto, unfolding(crate::specs::Changes::called_b))]
pub fn called(s: &mut [u8], i: usize, x: u8)
    requires { (length s.old ≡ server_length) × (i < 8) }
    ensures { s.new ≡ called_b i x s.old }
{
    le::put_u8(s, CALLED + i, 1);
    le::put_u8(s, PEND + i, x);
}

// No 19 was sent for the new lock: 19 goes once for each 18.
#[tactic(auto, unfolding(crate::specs::Changes::lock_page_b))]
pub fn lock_page(s: &mut [u8], i: usize, p: usize)
    requires { (length s.old ≡ server_length) × (i < 8) × (p < 32) }
    ensures { s.new ≡ lock_page_b i p s.old }
{
    let t = server_state::latest(s, i);
    hold(s, p, holder(i), t);
}

// What i's entry has for address a is written there, with version n.
#[tactic(auto, unfolding(crate::specs::Values::value_at_b))]
fn value_one(s: &mut [u8], i: usize, n: u32, a: usize)
    requires { (length s.old ≡ server_length) × (i < 8) × (a < 256) }
    ensures { s.new ≡ value_at_b i n s.old a }
{
    let v = le::get_u64(s, WRITTEN_VALUE + i * VALUE_ROW + a * VALUE_WIDTH);
    le::put_u64(s, VALUE + a * VALUE_WIDTH, v);
    le::put_u32(s, VERSION + a * NUMBER_WIDTH, n);
}

// The addresses of eight pages that i's entry writes, the lowest first.
fn values_in(s: &mut [u8], i: usize, n: u32, g: usize)
    requires { (length s.old ≡ server_length) × (i < 8) × (g < 4) }
    ensures { s.new ≡ run (value_one_b i n) s.old (g * 64) 64 }
{
    for k in station_state::members(le::get_u64(s, WRITTEN_SET + i * SET_ROW + g * GROUP)) {
        value_one(s, i, n, g * 64 + k);
    }
}

#[tactic(auto, unfolding(station_state::specs::Runs::run))]
fn values(s: &mut [u8], i: usize, n: u32)
    requires { (length s.old ≡ server_length) × (i < 8) }
    ensures { s.new ≡ values_to i n s.old 256 }
{
    for g in 0..4 {
        values_in(s, i, n, g);
    }
}

// What i's entry writes is written, under the next commit number.
pub fn write(s: &mut [u8], i: usize)
    requires { (length s.old ≡ server_length) × (i < 8) × (last_of s.old < 4294967295) }
    ensures { s.new ≡ write_b i s.old }
{
    let n = server_state::last(s) + 1;
    le::put_u32(s, LAST, n);
    values(s, i, n);
}
