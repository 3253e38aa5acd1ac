#![tactic(auto)]
// What the server asks of its state: number 6, the gates of the pass, who blocks a waiter.
ghost use Rattle.std.specs.Prelude.{◌≡◌, ℕ, Bool, true, false, cond, ◌≢◌, ◌+◌, ◌*◌, ◌/◌, ◌^◌, ◌≤◌, ◌<◌, length, get_or};
ghost use Rattle.std.specs.Int.Count.{count_trailing_zeros};
ghost use Rattle.message.specs.Layout.{message_length, kind_of, station_of, page_of};
ghost use Rattle.message.specs.Commit.{shortest_commit, addresses_at, sent_reads, entries_of};
ghost use Rattle.server_state.specs.Layout.{server_length, version_row, whole_of, wanted_on};
ghost use Rattle.cells.specs.Loops.{any_to, mask_to};
ghost use Rattle.server_tests.specs.Kinds.{ForServer};
ghost use Rattle.server_tests.specs.Causes.{cause_in};
ghost use Rattle.server_tests.specs.Tests.{lock_at_b, lock_on_b, bad_number_b, unlocked_at, unlocked_b, drops_locked_b, drops_own_b, above_open_b, unexpected_b, open_call_b, open_ask_b, other_version, stale_at_b, stale_on_b, stale_b, locked_at_b, locked_on_b, locked_b, fault_b, earlier_b, shut_b, shut_out_b, due_b, unavailable_at, unavailable_b};
ghost use Rattle.server_tests.specs.Shorter.{written_by};
ghost use Rattle.server_tests.specs.Alone.{Alone, ahead_at, ahead_on};
ghost use Rattle.server_tests.specs.Blockers.{join_to, meet_on, meet_set, ahead_b, ahead_set, holder_at, holders_on, holder_set, blockers_b};
ghost use Rattle.server_tests.specs.Groups.{idle_in, stale_in, locked_in, holders_in};
ghost use Rattle.server_tests.specs.Words.{wanted_in, OnlyIn};

use kinds::Want;
use message::{Cause, Up};
use server_state::{
    READ_SET, READ_VERSION, STATIONS, VERSION, VERSION_ROW, WRITTEN_SET, WRITTEN_VERSION,
};
use station_state::{GROUP, NUMBER_WIDTH, OBJECTS, SET_ROW};

// A byte as a number that finds a place.
fn byte(s: &[u8], k: usize) -> usize
    requires { k < length s.now }
    ensures { (result ≡ get_or s.now k 0) × (result < 256) }
{
    s[k] as usize
}

// The bit of station or object k, if so.
pub fn bit_if(yes: bool, k: usize) -> u8
    requires { k < 8 }
    ensures { result ≡ cond yes (2 ^ k) 0 }
{
    if yes {
        return station_state::bit8(k);
    }
    0
}

// Whether f holds of one of 0, 1, .. n - 1. No test leaves the loop early, so that it compiles to vector code.
fn any_of<F: Fn(usize) -> bool>(n: usize, f: F) -> bool
    requires { (k : ℕ) → k < n → F.pre f k }
    ensures { (g : ℕ → Bool) → ((k : ℕ) (r : Bool) → k < n → F.post f k r → r ≡ g k) → result ≡ any_to g n }
{
    let mut r = false;
    for k in 0..n {
        r |= f(k);
    }
    r
}

// The sets that f has for 0, 1, .. n - 1, laid over each other.
fn join_of<F: Fn(usize) -> u8>(n: usize, f: F) -> u8
    requires { (k : ℕ) → k < n → F.pre f k }
    ensures { (g : ℕ → ℕ) → ((k : ℕ) (r : ℕ) → k < n → F.post f k r → r ≡ g k) → result ≡ join_to g n }
{
    let mut d: u8 = 0;
    for k in 0..n {
        d |= f(k);
    }
    d
}

// Those of 0, 1, .. n - 1 that f holds of, a bit for each.
pub fn set_of<F: Fn(usize) -> bool>(n: usize, f: F) -> u8
    requires below { n ≤ 8 }
    requires asked { (k : ℕ) → k < n → F.pre f k }
    ensures { (g : ℕ → Bool) → ((k : ℕ) (r : Bool) → k < n → F.post f k r → r ≡ g k) → result ≡ mask_to g n }
{
    let mut d: u8 = 0;
    for k in 0..n {
        d |= bit_if(f(k), k);
    }
    d
}

// The objects of page p that station i's waiting entry reads or writes.
fn wanted(s: &[u8], i: usize, p: usize) -> u8
    requires { (length s.now ≡ server_length) × (i < 8) × (p < 32) }
    ensures { result ≡ wanted_on s.now i p }
{
    server_state::read_set(s, i, p) | server_state::written_set(s, i, p)
}

// Whether it wants nothing on the eight pages of group g. A test of each word: joined by `|` the two compile badly.
#[tactic(auto, unfolding(crate::specs::Groups::idle_in))]
fn idle_in(s: &[u8], i: usize, g: usize) -> bool
    requires { (length s.now ≡ server_length) × (i < 8) × (g < 4) }
    ensures { result ≡ idle_in s.now i g }
{
    if le::get_u64(s, READ_SET + i * SET_ROW + g * GROUP) != 0 {
        return false;
    }
    le::get_u64(s, WRITTEN_SET + i * SET_ROW + g * GROUP) == 0
}

#[tactic(auto, unfolding(crate::specs::Tests::lock_at_b))]
fn lock_at(s: &[u8], i: usize, p: usize, o: usize) -> bool
    requires { (length s.now ≡ server_length) × (i < 8) × (p < 32) × (o < 8) }
    ensures { result ≡ lock_at_b s.now i p o }
{
    server_state::lock(s, p * OBJECTS + o) as usize == i + 1
}

// Whether station i has a lock on page p, whole or on an object. A page without locks on objects is seen at once.
pub fn lock_on(s: &[u8], i: usize, p: usize) -> bool
    requires { (length s.now ≡ server_length) × (i < 8) × (p < 32) }
    ensures { result ≡ lock_on_b s.now i p }
{
    let whole = server_state::whole(s, p) as usize == i + 1;
    if server_state::locks_on(s, p) == 0 {
        return whole;
    }
    let r = any_of(OBJECTS, |o| lock_at(s, i, p, o));
    whole | r
}

// Whether 1 to 4 of transaction t come out of turn.
fn bad_number(s: &[u8], i: usize, t: u32) -> bool
    requires { (length s.now ≡ server_length) × (i < 8) }
    ensures { result ≡ bad_number_b s.now i t }
{
    let n = server_state::latest(s, i);
    let over = server_state::unfinished(s, i) == 0;
    (t < n)
        | ((t == n) & over)
        | ((n < t) & !over & server_state::locking(s, i))
        | (server_state::want(s, i) != Want::Nothing as u8)
}

// Whether write k of the record is to an object that i has not locked.
#[tactic(auto, unfolding(crate::specs::Tests::unlocked_at))]
fn unlocked_at(s: &[u8], i: usize, m: &[u8], k: usize) -> bool
    requires { (length s.now ≡ server_length) × (i < 8) × (shortest_commit ≤ length m.now) × (addresses_at m.now + sent_reads m.now + k < length m.now) }
    ensures { result ≡ unlocked_at s.now i m.now k }
{
    let a = byte(
        m,
        message::record_at(m) + record::HEADER + message::sent_reads(m) + k,
    );
    (server_state::lock(s, a) as usize != i + 1) & (server_state::whole(s, a / 8) as usize != i + 1)
}

// Whether i is locking and writes an object that it has not locked.
fn unlocked(s: &[u8], i: usize, m: &[u8]) -> bool
    requires { (length s.now ≡ server_length) × (i < 8) × (shortest_commit ≤ length m.now) × (addresses_at m.now + entries_of m.now ≤ length m.now) }
    ensures { result ≡ unlocked_b s.now i m.now }
{
    let r = any_of(message::sent_writes(m), |k| unlocked_at(s, i, m, k));
    server_state::locking(s, i) & r
}

fn drops_locked(s: &[u8], i: usize, d: u32, p: usize) -> bool
    requires { (length s.now ≡ server_length) × (i < 8) × (p < 32) }
    ensures { result ≡ drops_locked_b s.now i d p }
{
    if station_state::has_bit32(d, p) {
        return lock_on(s, i, p);
    }
    false
}

// Whether i has a lock on one of the pages d.
fn drops_own(s: &[u8], i: usize, d: u32) -> bool
    requires { (length s.now ≡ server_length) × (i < 8) }
    ensures { result ≡ drops_own_b s.now i d }
{
    let mut r = false;
    for p in station_state::members(d as u64) {
        r |= drops_locked(s, i, d, p);
    }
    r
}

// Whether transaction t stands above one of i that is unfinished.
#[tactic(auto, unfolding(crate::specs::Tests::above_open_b))]
fn above_open(s: &[u8], i: usize, t: u32) -> bool
    requires { (length s.now ≡ server_length) × (i < 8) }
    ensures { result ≡ above_open_b s.now i t }
{
    (server_state::latest(s, i) < t) & (server_state::unfinished(s, i) != 0)
}

// Number 6 of a message that numbers 2 to 5 let pass.
pub fn unexpected(s: &[u8], m: &[u8]) -> bool
    requires { (length s.now ≡ server_length) × (message_length ≤ length m.now) × (station_of m.now < 8) × ForServer m.now × (kind_of m.now ≡ 3 → (shortest_commit ≤ length m.now) × (addresses_at m.now + entries_of m.now ≤ length m.now)) × (kind_of m.now ≡ 5 → page_of m.now < 32) }
    ensures { result ≡ unexpected_b s.now m.now }
{
    let i = message::station(m) as usize;
    let t = message::transaction(m);
    let validates = !server_state::locking(s, i);
    match Up::try_from(message::kind(m)) {
        Ok(Up::Read) => bad_number(s, i, t),
        Ok(Up::Write) => bad_number(s, i, t) | validates,
        Ok(Up::Commit) => bad_number(s, i, t) | unlocked(s, i, m),
        Ok(Up::Abort) => bad_number(s, i, t) | validates,
        Ok(Up::Purge) => lock_on(s, i, message::page(m) as usize),
        Ok(Up::Busy) => validates,
        Ok(Up::Done) => validates | drops_own(s, i, message::pages(m)),
        Ok(Up::WrittenSet) => validates | (server_state::keeps(s, i) & above_open(s, i, t)),
        Err(_) => true,
    }
}

// Whether i owes a 7 to transaction t of station r.
pub fn open_call(s: &[u8], i: usize, r: usize, t: u32) -> bool
    requires { (length s.now ≡ server_length) × (i < 8) × (r < 8) }
    ensures { result ≡ open_call_b s.now i r t }
{
    (server_state::want(s, r) != Want::Nothing as u8)
        & (t == server_state::latest(s, r))
        & station_state::has_bit8(server_state::pend(s, r), i)
}

// Whether i owes an 8 for page p and transaction t.
#[tactic(auto, unfolding(crate::specs::Tests::open_ask_b))]
pub fn open_ask(s: &[u8], i: usize, p: usize, t: u32) -> bool
    requires { (length s.now ≡ server_length) × (i < 8) × (p < 32) }
    ensures { result ≡ open_ask_b s.now i p t }
{
    (server_state::whole(s, p) as usize == i + 1)
        & station_state::has_bit32(server_state::asked(s), p)
        & (server_state::keeps(s, i)
            | ((server_state::unfinished(s, i) != 0) & (t == server_state::latest(s, i))))
}

// Whether the version that came for object o of page p, among those from `from`, is another than the object's.
#[tactic(auto, unfolding(crate::specs::Tests::other_version))]
fn other_version(s: &[u8], from: usize, p: usize, o: usize) -> bool
    requires { (length s.now ≡ server_length) × (from + version_row ≤ server_length) × (p < 32) × (o < 8) }
    ensures { result ≡ other_version s.now from (p * 8 + o) }
{
    le::get_u32(s, from + (p * OBJECTS + o) * NUMBER_WIDTH)
        != le::get_u32(s, VERSION + (p * OBJECTS + o) * NUMBER_WIDTH)
}

#[tactic(auto, unfolding(crate::specs::Tests::stale_at_b))]
fn stale_at(s: &[u8], i: usize, p: usize, o: usize) -> bool
    requires { (length s.now ≡ server_length) × (i < 8) × (p < 32) × (o < 8) }
    ensures { result ≡ stale_at_b s.now i p o }
{
    (station_state::has_bit8(server_state::read_set(s, i, p), o)
        & other_version(s, READ_VERSION + i * VERSION_ROW, p, o))
        | (station_state::has_bit8(server_state::written_set(s, i, p), o)
            & other_version(s, WRITTEN_VERSION + i * VERSION_ROW, p, o))
}

// Most pages are not used, and cost one test.
fn stale_on(s: &[u8], i: usize, p: usize) -> bool
    requires { (length s.now ≡ server_length) × (i < 8) × (p < 32) }
    ensures { result ≡ stale_on_b s.now i p }
{
    if wanted(s, i, p) == 0 {
        return false;
    }
    any_of(OBJECTS, |o| stale_at(s, i, p, o))
}

// Most groups of eight pages are not used, and cost a test.
fn stale_in(s: &[u8], i: usize, g: usize) -> bool
    requires { (length s.now ≡ server_length) × (i < 8) × (g < 4) }
    ensures { result ≡ stale_in s.now i g }
{
    if idle_in(s, i, g) {
        return false;
    }
    any_of(GROUP, |p| stale_on(s, i, g * GROUP + p))
}

// Whether i's commit used an object at another version.
fn stale(s: &[u8], i: usize) -> bool
    requires { (length s.now ≡ server_length) × (i < 8) }
    ensures { result ≡ stale_b s.now i }
{
    any_of(4, |g| stale_in(s, i, g))
}

#[tactic(auto, unfolding(crate::specs::Tests::locked_at_b))]
fn locked_at(s: &[u8], i: usize, p: usize, o: usize) -> bool
    requires { (length s.now ≡ server_length) × (i < 8) × (p < 32) × (o < 8) }
    ensures { result ≡ locked_at_b s.now i p o }
{
    station_state::has_bit8(server_state::written_set(s, i, p), o)
        & server_state::other(server_state::lock(s, p * OBJECTS + o), i)
}

// The objects that are written are looked at, lowest first.
fn locked_on(s: &[u8], i: usize, p: usize) -> bool
    requires { (length s.now ≡ server_length) × (i < 8) × (p < 32) }
    ensures { result ≡ locked_on_b s.now i p }
{
    let mut r = false;
    for o in station_state::members(server_state::written_set(s, i, p) as u64) {
        r |= locked_at(s, i, p, o);
    }
    r
}

// Most groups are not written, and cost a test.
fn locked_in(s: &[u8], i: usize, g: usize) -> bool
    requires { (length s.now ≡ server_length) × (i < 8) × (g < 4) }
    ensures { result ≡ locked_in s.now i g }
{
    if le::get_u64(s, WRITTEN_SET + i * SET_ROW + g * GROUP) == 0 {
        return false;
    }
    any_of(GROUP, |p| locked_on(s, i, g * GROUP + p))
}

// Whether i's commit writes an object that another has locked: a page locked whole is asked for by 19.
fn locked(s: &[u8], i: usize) -> bool
    requires { (length s.now ≡ server_length) × (i < 8) }
    ensures { result ≡ locked_b s.now i }
{
    any_of(4, |g| locked_in(s, i, g))
}

// The two, asked of page p alone where it has all that i wants.
fn stale_by(s: &[u8], i: usize, p: usize) -> bool
    requires { (length s.now ≡ server_length) × (i < 8) × Alone s.now i p }
    ensures { result ≡ stale_b s.now i }
{
    if p < 32 {
        return stale_on(s, i, p);
    }
    stale(s, i)
}

fn locked_by(s: &[u8], i: usize, p: usize) -> bool
    requires { (length s.now ≡ server_length) × (i < 8) × Alone s.now i p }
    ensures { result ≡ locked_b s.now i }
{
    if p < 32 {
        return locked_on(s, i, p);
    }
    locked(s, i)
}

// The cause that ends i's validating commit; p is the page that has all that it wants, 32 for none.
pub fn fault(s: &[u8], i: usize, p: usize) -> Option<Cause>
    requires { (length s.now ≡ server_length) × (i < 8) × Alone s.now i p }
    ensures { cause_in result ≡ fault_b s.now i }
{
    if server_state::last(s) == u32::MAX {
        return Some(Cause::NoNumber);
    }
    if stale_by(s, i, p) {
        return Some(Cause::Changed);
    }
    if locked_by(s, i, p) {
        return Some(Cause::Locked);
    }
    None
}

// Whether j waits and arrived before i.
fn earlier(s: &[u8], j: usize, i: usize) -> bool
    requires { (length s.now ≡ server_length) × (j < 8) × (i < 8) }
    ensures { result ≡ earlier_b s.now j i }
{
    (server_state::want(s, j) != Want::Nothing as u8)
        & (server_state::arrival(s, j) < server_state::arrival(s, i))
}

// The objects of page p that i and j want and one of the two writes.
#[tactic(auto, unfolding(crate::specs::Blockers::meet_on))]
fn meet_on(s: &[u8], i: usize, j: usize, p: usize) -> u8
    requires { (length s.now ≡ server_length) × (i < 8) × (j < 8) × (p < 32) }
    ensures { result ≡ meet_on s.now i j p }
{
    wanted(s, i, p)
        & wanted(s, j, p)
        & (server_state::written_set(s, j, p) | server_state::written_set(s, i, p))
}

// Those of all pages, laid over each other.
fn meet(s: &[u8], i: usize, j: usize) -> u8
    requires { (length s.now ≡ server_length) × (i < 8) × (j < 8) }
    ensures { result ≡ meet_set s.now i j }
{
    join_of(32, |p| meet_on(s, i, j, p))
}

// Whether j stands before i as an earlier waiter.
#[tactic(auto, unfolding(crate::specs::Blockers::ahead_b))]
fn ahead(s: &[u8], i: usize, j: usize) -> bool
    requires { (length s.now ≡ server_length) × (i < 8) × (j < 8) }
    ensures { result ≡ ahead_b s.now i j }
{
    if !earlier(s, j, i) {
        return false;
    }
    meet(s, i, j) != 0
}

fn ahead_set(s: &[u8], i: usize) -> u8
    requires { (length s.now ≡ server_length) × (i < 8) }
    ensures { result ≡ ahead_set s.now i }
{
    set_of(STATIONS, |j| ahead(s, i, j))
}

// The bit of another station's lock on object o of page p, if i wants the object.
#[tactic(auto, unfolding(crate::specs::Blockers::holder_at))]
fn holder_at(s: &[u8], i: usize, p: usize, o: usize) -> u8
    requires { (length s.now ≡ server_length) × (i < 8) × (p < 32) × (o < 8) }
    ensures { result ≡ holder_at s.now i p o }
{
    let h = server_state::lock(s, p * OBJECTS + o);
    let held = station_state::has_bit8(wanted(s, i, p), o) & server_state::other(h, i) & (h <= 8);
    bit_if(held, (h as usize + 7) % 8)
}

// Most pages are without locks or not wanted, and cost a test; of the others the objects that are wanted are looked at, lowest first.
fn holders_on(s: &[u8], i: usize, p: usize) -> u8
    requires { (length s.now ≡ server_length) × (i < 8) × (p < 32) }
    ensures { result ≡ holders_on s.now i p }
{
    if server_state::locks_on(s, p) == 0 {
        return 0;
    }
    let mut d: u8 = 0;
    for o in station_state::members(wanted(s, i, p) as u64) {
        d |= holder_at(s, i, p, o);
    }
    d
}

// Most groups are not wanted, and cost a test.
fn holders_in(s: &[u8], i: usize, g: usize) -> u8
    requires { (length s.now ≡ server_length) × (i < 8) × (g < 4) }
    ensures { result ≡ holders_in s.now i g }
{
    if idle_in(s, i, g) {
        return 0;
    }
    join_of(GROUP, |p| holders_on(s, i, g * GROUP + p))
}

fn holder_set(s: &[u8], i: usize) -> u8
    requires { (length s.now ≡ server_length) × (i < 8) }
    ensures { result ≡ holder_set s.now i }
{
    join_of(4, |g| holders_in(s, i, g))
}

// The stations that block i: by a lock, or as earlier waiters.
pub fn blockers(s: &[u8], i: usize) -> u8
    requires { (length s.now ≡ server_length) × (i < 8) }
    ensures { result ≡ blockers_b s.now i }
{
    holder_set(s, i) | ahead_set(s, i)
}

// What i wants of the eight pages of group g, as a word.
#[tactic(auto, unfolding(crate::specs::Words::wanted_in))]
fn wanted_in(s: &[u8], i: usize, g: usize) -> u64
    requires { (length s.now ≡ server_length) × (i < 8) × (g < 4) }
    ensures { result ≡ wanted_in s.now i g }
{
    le::get_u64(s, READ_SET + i * SET_ROW + g * GROUP)
        | le::get_u64(s, WRITTEN_SET + i * SET_ROW + g * GROUP)
}

// A page that i wants something of, any where it wants nothing. That it is a page is all that is known: `elsewhere` tests it.
fn some_page(s: &[u8], i: usize) -> usize
    requires { (length s.now ≡ server_length) × (i < 8) }
    ensures { result < 32 }
{
    for g in 0..4 {
        let w = wanted_in(s, i, g);
        if w != 0 {
            return g * GROUP + station_state::lowest64(w) / OBJECTS;
        }
    }
    0
}

// Whether i wants nothing of the pages of group g but of p.
fn only_on(s: &[u8], i: usize, g: usize, p: usize) -> bool
    requires { (length s.now ≡ server_length) × (i < 8) × (g < 4) × (p < 32) }
    ensures { result ≡ true → OnlyIn s.now i g p }
{
    let w = wanted_in(s, i, g);
    if g == p / GROUP {
        return w == u64::from(wanted(s, i, p)) << (p % GROUP * OBJECTS);
    }
    w == 0
}

// Whether i wants something of a page other than p.
fn elsewhere(s: &[u8], i: usize, p: usize) -> bool
    requires { (length s.now ≡ server_length) × (i < 8) × (p < 32) }
    ensures { result ≡ false → Alone s.now i p }
{
    !(only_on(s, i, 0, p) & only_on(s, i, 1, p) & only_on(s, i, 2, p) & only_on(s, i, 3, p))
}

// The page that has all that i wants, 32 where there is none: it goes on as it is to functions that others call with a number.
pub fn page_alone(s: &[u8], i: usize) -> usize
    requires { (length s.now ≡ server_length) × (i < 8) }
    ensures { (result ≤ 32) × Alone s.now i result }
{
    let p = some_page(s, i);
    if elsewhere(s, i, p) {
        return 32;
    }
    p
}

// Whether j is an earlier waiter that stands before i on page p.
fn ahead_at(s: &[u8], i: usize, p: usize, j: usize) -> bool
    requires { (length s.now ≡ server_length) × (i < 8) × (p < 32) × (j < 8) }
    ensures { result ≡ ahead_at s.now i p j }
{
    if server_state::want(s, j) == Want::Nothing as u8 {
        return false;
    }
    if server_state::arrival(s, j) >= server_state::arrival(s, i) {
        return false;
    }
    meet_on(s, i, j, p) != 0
}

fn ahead_on(s: &[u8], i: usize, p: usize) -> u8
    requires { (length s.now ≡ server_length) × (i < 8) × (p < 32) }
    ensures { result ≡ ahead_on s.now i p }
{
    set_of(STATIONS, |j| ahead_at(s, i, p, j))
}

// The stations that block i; p is the page that has all that it wants, 32 for none.
pub fn blockers_by(s: &[u8], i: usize, p: usize) -> u8
    requires { (length s.now ≡ server_length) × (i < 8) × Alone s.now i p }
    ensures { result ≡ blockers_b s.now i }
{
    if p < 32 {
        return holders_on(s, i, p) | ahead_on(s, i, p);
    }
    blockers(s, i)
}

// Whether i wants something of page p and another has it whole.
#[tactic(auto, unfolding(crate::specs::Tests::shut_b))]
pub fn shut(s: &[u8], i: usize, p: usize) -> bool
    requires { (length s.now ≡ server_length) × (i < 8) × (p < 32) }
    ensures { result ≡ shut_b s.now i p }
{
    (wanted(s, i, p) != 0) & server_state::other(server_state::whole(s, p), i)
}

// Whether page p's 19 is due to another than i; kept, only if it keeps.
#[tactic(auto, unfolding(crate::specs::Tests::due_b))]
pub fn due(s: &[u8], i: usize, p: usize, kept: bool) -> bool
    requires { (length s.now ≡ server_length) × (i < 8) × (p < 32) × (whole_of s.now p ≤ 8) }
    ensures { result ≡ due_b kept s.now i p }
{
    if !shut(s, i, p) {
        return false;
    }
    let h = server_state::whole(s, p) as usize - 1;
    (!kept | server_state::keeps(s, h)) & !station_state::has_bit32(server_state::asked(s), p)
}

// Whether a page that i wants is another's whole.
pub fn shut_out(s: &[u8], i: usize) -> bool
    requires { (length s.now ≡ server_length) × (i < 8) }
    ensures { result ≡ shut_out_b s.now i }
{
    any_of(32, |p| shut(s, i, p))
}

// .. asked of the page that has all that i wants, 32 for none.
pub fn shut_out_by(s: &[u8], i: usize, p: usize) -> bool
    requires { (length s.now ≡ server_length) × (i < 8) × Alone s.now i p }
    ensures { result ≡ shut_out_b s.now i }
{
    if p < 32 {
        return shut(s, i, p);
    }
    shut_out(s, i)
}

#[tactic(auto, unfolding(crate::specs::Shorter::written_by))]
fn written_by(s: &[u8], i: usize, p: usize, j: usize) -> u8
    requires { (length s.now ≡ server_length) × (i < 8) × (p < 32) × (j < 8) }
    ensures { result ≡ written_by s.now i p j }
{
    if j == i {
        return 0;
    }
    server_state::written_set(s, j, p)
}

// The objects of page p that others than i wait to write.
fn others_write(s: &[u8], i: usize, p: usize) -> u8
    requires { (length s.now ≡ server_length) × (i < 8) × (p < 32) }
    ensures { result ≡ join_to (written_by s.now i p) 8 }
{
    join_of(STATIONS, |j| written_by(s, i, p, j))
}

// w is what others wait to write there.
fn unavailable_at(s: &[u8], i: usize, a: usize, w: u8, o: usize) -> bool
    requires { (length s.now ≡ server_length) × (i < 8) × (a < 256) × (o < 8) × (w ≡ join_to (written_by s.now i (a / 8)) 8) }
    ensures { result ≡ unavailable_at s.now i a o }
{
    let other = server_state::other(server_state::lock(s, a / OBJECTS * OBJECTS + o), i);
    !station_state::has_bit8(wanted(s, i, a / OBJECTS), o) & (other | station_state::has_bit8(w, o))
}

// The unavailable set that goes to i with the page of a: without what it waits for. A page without locks is seen at once.
pub fn unavailable(s: &[u8], i: usize, a: usize) -> u8
    requires { (length s.now ≡ server_length) × (i < 8) × (a < 256) }
    ensures { result ≡ unavailable_b s.now i a }
{
    let w = others_write(s, i, a / 8);
    if server_state::locks_on(s, a / 8) == 0 {
        return w & !wanted(s, i, a / 8);
    }
    set_of(OBJECTS, |o| unavailable_at(s, i, a, w, o))
}
