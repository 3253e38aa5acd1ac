#![tactic(auto)]
// The bytes of the server's state: number 1, a fresh state, the age counter.
ghost use Rattle.std.specs.Prelude.{◌≡◌, ◌+◌, ◌*◌, ◌≤◌, ◌<◌, length};
ghost use Rattle.lists.specs.Tests.{all_to};
ghost use Rattle.refusals.specs.Refusals.{code};
ghost use Rattle.le.specs.Le.{u64_at};
ghost use Rattle.server_state.specs.Layout.{server_length, lock_from, age_of, ages_of, arrivals_of, work_number, latest_of, arrival_of, last_of, asked_of, whole_for_of, lock_of, whole_of, read_set, written_set, kind_of, want_of, request_of, pend_of, busy_of, unfinished_of, locking_b, keeps_b, other_b};
ghost use Rattle.server_state.specs.Valid.{most_at, most, ranges_ok, counters_ok, word_of, only_in, page_only_at, page_only, blank_ok_lem, few_ok, commit_ok, write_ok, request_ok, waiter_ok, entry_ok, owes_at, calls_ok, aged_ok, station_ok, holder_ok_lem, holder_at, beside_at, given_ok, whole_ok, page_ok, asked_at, apart_ok, valid, kinds_ok, kinds_to, freshened, fresh_of, ageless};
ghost use Rattle.server_state.specs.Eights.{group_free, group_ok, lock_free, ages_at, arrivals_at, ages_apart, arrivals_apart};
ghost use Rattle.server_state.specs.Ages.{aged_of};

use kinds::{Kind, Want};
use lists::all_of;
use refusals::Refusal;
use station_state::{GROUP, NUMBER_WIDTH, OBJECTS, PAGE_SET_WIDTH, SET_ROW, VALUE_WIDTH};

// The width of an age or an arrival; what a station has too is as wide as there.
pub const AGE_WIDTH: usize = 8;

// The bytes of a row: a station's values and its versions by address; of a page's eight values, and of its versions.
pub const VALUE_ROW: usize = 256 * VALUE_WIDTH;

pub const PAGE_ROW: usize = 8 * VALUE_WIDTH;

pub const VERSION_ROW: usize = 256 * NUMBER_WIDTH;

pub const PAGE_VERSION_ROW: usize = 8 * NUMBER_WIDTH;

// Where each field stands: docs/STATE.md, "The server's state", in its order, each behind the field before it.
pub const VALUE: usize = 0;

pub const READ_VALUE: usize = VALUE + VALUE_ROW;

pub const WRITTEN_VALUE: usize = READ_VALUE + 8 * VALUE_ROW;

pub const AGE: usize = WRITTEN_VALUE + 8 * VALUE_ROW;

pub const ARRIVAL: usize = AGE + 8 * AGE_WIDTH;

pub const NEXT_AGE: usize = ARRIVAL + 8 * AGE_WIDTH;

pub const NEXT_ARRIVAL: usize = NEXT_AGE + AGE_WIDTH;

pub const VERSION: usize = NEXT_ARRIVAL + AGE_WIDTH;

pub const READ_VERSION: usize = VERSION + VERSION_ROW;

pub const WRITTEN_VERSION: usize = READ_VERSION + 8 * VERSION_ROW;

pub const WORK: usize = WRITTEN_VERSION + 8 * VERSION_ROW;

pub const LATEST: usize = WORK + 8 * NUMBER_WIDTH;

pub const LISTED: usize = LATEST + 8 * NUMBER_WIDTH;

pub const LAST: usize = LISTED + 8 * PAGE_SET_WIDTH;

pub const ASKED: usize = LAST + NUMBER_WIDTH;

pub const WHOLE_FOR: usize = ASKED + PAGE_SET_WIDTH;

pub const LOCK: usize = WHOLE_FOR + 32 * NUMBER_WIDTH;

pub const WHOLE: usize = LOCK + 256;

pub const READ_SET: usize = WHOLE + 32;

pub const WRITTEN_SET: usize = READ_SET + 8 * SET_ROW;

pub const KIND: usize = WRITTEN_SET + 8 * SET_ROW;

pub const WANT: usize = KIND + 8;

pub const REQUEST: usize = WANT + 8;

pub const CALLED: usize = REQUEST + 8;

pub const PEND: usize = CALLED + 8;

pub const BUSY: usize = PEND + 8;

pub const UNFINISHED: usize = BUSY + 8;

pub const AGE_KEPT: usize = UNFINISHED + 8;

pub const LENGTH: usize = AGE_KEPT + 8;

// "each transaction gets a new age, 2^63 being out of range": of ages and arrivals.
pub const COUNTER_LIMIT: u64 = 9223372036854775808;

// Stations, each with an entry in the fields by station.
pub const STATIONS: usize = 8;

// The bytes of all ages or arrivals, of the sets of all entries, and of what is kept of 20s.
const ALL_AGES: usize = STATIONS * AGE_WIDTH;

const ALL_SETS: usize = KIND - READ_SET;

const ALL_CALLS: usize = UNFINISHED - CALLED;

// The bytes of a group's locks on objects, and of the numbers beside its whole locks.
pub const GROUP_LOCKS: usize = GROUP * OBJECTS;

const GROUP_NUMBERS: usize = GROUP * NUMBER_WIDTH;

// The bytes of all numbers beside whole locks, and of all locks on objects behind them.
const ALL_LOCKS: usize = WHOLE - WHOLE_FOR;

// Fields that are read in many places. The latest transaction of station i.
pub fn latest(s: &[u8], i: usize) -> u32
    requires { (length s.now ≡ server_length) × (i < 8) }
    ensures { result ≡ latest_of s.now i }
{
    le::get_u32(s, LATEST + i * NUMBER_WIDTH)
}

// When station i's waiting entry arrived.
pub fn arrival(s: &[u8], i: usize) -> u64
    requires { (length s.now ≡ server_length) × (i < 8) }
    ensures { result ≡ arrival_of s.now i }
{
    le::get_u64(s, ARRIVAL + i * AGE_WIDTH)
}

// The last commit number.
pub fn last(s: &[u8]) -> u32
    requires { length s.now ≡ server_length }
    ensures { result ≡ last_of s.now }
{
    le::get_u32(s, LAST)
}

// The pages whose 19 is out.
pub fn asked(s: &[u8]) -> u32
    requires { length s.now ≡ server_length }
    ensures { result ≡ asked_of s.now }
{
    le::get_u32(s, ASKED)
}

// The age of station i's transaction. Nobody, 8, may be asked for: who looks for the youngest has nobody at first.
pub fn age(s: &[u8], i: usize) -> u64
    requires { (length s.now ≡ server_length) × (i ≤ 8) }
    ensures { result ≡ age_of s.now i }
{
    le::get_u64(s, AGE + i * AGE_WIDTH)
}

// The counters: the age and the arrival that are given next.
pub fn next_age(s: &[u8]) -> u64
    requires { length s.now ≡ server_length }
    ensures { result ≡ ages_of s.now }
{
    le::get_u64(s, NEXT_AGE)
}

pub fn next_arrival(s: &[u8]) -> u64
    requires { length s.now ≡ server_length }
    ensures { result ≡ arrivals_of s.now }
{
    le::get_u64(s, NEXT_ARRIVAL)
}

// The transaction of station i's waiting commit.
pub fn work(s: &[u8], i: usize) -> u32
    requires { (length s.now ≡ server_length) × (i < 8) }
    ensures { result ≡ work_number s.now i }
{
    le::get_u32(s, WORK + i * NUMBER_WIDTH)
}

// The transaction that page p's whole lock was given to.
pub fn whole_for(s: &[u8], p: usize) -> u32
    requires { (length s.now ≡ server_length) × (p < 32) }
    ensures { result ≡ whole_for_of s.now p }
{
    le::get_u32(s, WHOLE_FOR + p * NUMBER_WIDTH)
}

// Who holds the lock on the object at address a: 0 for nobody, i + 1 for station i.
pub fn lock(s: &[u8], a: usize) -> u8
    requires { (length s.now ≡ server_length) × (a < 256) }
    ensures { result ≡ lock_of s.now a }
{
    s[LOCK + a]
}

// Those of the eight objects of page p, as a word: 0 where none of them is locked.
pub fn locks_on(s: &[u8], p: usize) -> u64
    requires { (length s.now ≡ server_length) × (p < 32) }
    ensures { result ≡ u64_at s.now (lock_from + p * 8) }
{
    le::get_u64(s, LOCK + p * OBJECTS)
}

// Who holds page p whole.
pub fn whole(s: &[u8], p: usize) -> u8
    requires { (length s.now ≡ server_length) × (p < 32) }
    ensures { result ≡ whole_of s.now p }
{
    s[WHOLE + p]
}

// The objects of page p that station i's waiting entry reads, and those that it writes.
pub fn read_set(s: &[u8], i: usize, p: usize) -> u8
    requires { (length s.now ≡ server_length) × (i < 8) × (p < 32) }
    ensures { result ≡ read_set s.now i p }
{
    s[READ_SET + i * SET_ROW + p]
}

pub fn written_set(s: &[u8], i: usize, p: usize) -> u8
    requires { (length s.now ≡ server_length) × (i < 8) × (p < 32) }
    ensures { result ≡ written_set s.now i p }
{
    s[WRITTEN_SET + i * SET_ROW + p]
}

// Station i's kind.
pub fn kind(s: &[u8], i: usize) -> u8
    requires { (length s.now ≡ server_length) × (i < 8) }
    ensures { result ≡ kind_of s.now i }
{
    s[KIND + i]
}

// What station i waits for: the number of a `kinds::Want`, where the state is valid.
pub fn want(s: &[u8], i: usize) -> u8
    requires { (length s.now ≡ server_length) × (i < 8) }
    ensures { result ≡ want_of s.now i }
{
    s[WANT + i]
}

// The address that it requested.
pub fn request(s: &[u8], i: usize) -> u8
    requires { (length s.now ≡ server_length) × (i < 8) }
    ensures { result ≡ request_of s.now i }
{
    s[REQUEST + i]
}

// The stations that owe it a 7, and those of them that sent 6.
pub fn pend(s: &[u8], i: usize) -> u8
    requires { (length s.now ≡ server_length) × (i < 8) }
    ensures { result ≡ pend_of s.now i }
{
    s[PEND + i]
}

pub fn busy(s: &[u8], i: usize) -> u8
    requires { (length s.now ≡ server_length) × (i < 8) }
    ensures { result ≡ busy_of s.now i }
{
    s[BUSY + i]
}

// 1 while station i's latest transaction is unfinished.
pub fn unfinished(s: &[u8], i: usize) -> u8
    requires { (length s.now ≡ server_length) × (i < 8) }
    ensures { result ≡ unfinished_of s.now i }
{
    s[UNFINISHED + i]
}

// Whose rules station i has.
pub fn locking(s: &[u8], i: usize) -> bool
    requires { (length s.now ≡ server_length) × (i < 8) }
    ensures { result ≡ locking_b s.now i }
{
    kinds::locking(s[KIND + i])
}

pub fn keeps(s: &[u8], i: usize) -> bool
    requires { (length s.now ≡ server_length) × (i < 8) }
    ensures { result ≡ keeps_b s.now i }
{
    kinds::keeps(s[KIND + i])
}

// Whether the holder h is a station other than i.
#[tactic(auto, unfolding(crate::specs::Layout::other_b))]
pub fn other(h: u8, i: usize) -> bool
    requires { i < 8 }
    ensures { result ≡ other_b h i }
{
    (h != 0) & (h as usize != i + 1)
}

#[tactic(auto, unfolding(crate::specs::Valid::most_at))]
fn most_at(s: &[u8], at: usize, n: u8, k: usize) -> bool
    requires { at + k < length s.now }
    ensures { result ≡ most_at s.now at n k }
{
    s[at + k] <= n
}

// Whether the m bytes from `at` are at most n.
fn most(s: &[u8], at: usize, n: u8, m: usize) -> bool
    requires { at + m ≤ length s.now }
    ensures { result ≡ most s.now at n m }
{
    all_of(m, |k| most_at(s, at, n, k))
}

fn ranges_ok(s: &[u8]) -> bool
    requires { length s.now ≡ server_length }
    ensures { result ≡ ranges_ok s.now }
{
    most(s, KIND, kinds::MOST, STATIONS)
        & most(s, WANT, Want::Commit as u8, STATIONS)
        & most(s, CALLED, 1, STATIONS)
        & most(s, UNFINISHED, 1, STATIONS)
        & most(s, AGE_KEPT, 1, STATIONS)
}

#[tactic(auto, unfolding(crate::specs::Valid::counters_ok))]
fn counters_ok(s: &[u8]) -> bool
    requires { length s.now ≡ server_length }
    ensures { result ≡ counters_ok s.now }
{
    (next_age(s) < COUNTER_LIMIT) & (next_arrival(s) < COUNTER_LIMIT)
}

// The word k of the object sets that have the address a alone.
#[tactic(auto, unfolding(crate::specs::Valid::word_of))]
fn word(a: u8, k: u8) -> u64
    ensures { result ≡ word_of a k }
{
    if k != a / 64 {
        return 0;
    }
    1u64 << (a % 64)
}

// Whether the object sets from `at` have the address a alone.
#[tactic(auto, unfolding(crate::specs::Valid::only_in))]
fn only_in(s: &[u8], at: usize, a: u8) -> bool
    requires { at + 32 ≤ length s.now }
    ensures { result ≡ only_in s.now at a }
{
    if le::get_u64(s, at) != word(a, 0) {
        return false;
    }
    if le::get_u64(s, at + 8) != word(a, 1) {
        return false;
    }
    if le::get_u64(s, at + 16) != word(a, 2) {
        return false;
    }
    le::get_u64(s, at + 24) == word(a, 3)
}

#[tactic(auto, unfolding(crate::specs::Valid::page_only_at))]
fn page_only_at(s: &[u8], at: usize, p: usize, q: usize) -> bool
    requires { (at + 32 ≤ length s.now) × (p < 32) × (q < 32) }
    ensures { result ≡ page_only_at s.now at p q }
{
    if q == p {
        return s[at + q] != 0;
    }
    s[at + q] == 0
}

// Whether of the object sets from `at` that of page p alone has objects.
fn page_only(s: &[u8], at: usize, p: usize) -> bool
    requires { (at + 32 ≤ length s.now) × (p < 32) }
    ensures { result ≡ page_only s.now at p }
{
    all_of(32, |q| page_only_at(s, at, p, q))
}

// Whether the entry of station i is empty.
#[tactic(auto, unfolding(crate::specs::Valid::blank_ok_lem))]
fn blank_ok(s: &[u8], i: usize) -> bool
    requires { (length s.now ≡ server_length) × (i < 8) }
    ensures { result ≡ blank_ok_lem s.now i }
{
    (arrival(s, i) == 0)
        & (request(s, i) == 0)
        & station_state::none_in(s, READ_SET + i * SET_ROW)
        & station_state::none_in(s, WRITTEN_SET + i * SET_ROW)
}

// Whether the commit that station i waits with has no more reads and writes than one transaction may have.
#[tactic(auto, unfolding(crate::specs::Valid::few_ok))]
fn few_ok(s: &[u8], i: usize) -> bool
    requires { (length s.now ≡ server_length) × (i < 8) }
    ensures { result ≡ few_ok s.now i }
{
    (station_state::count_in(s, READ_SET + i * SET_ROW) <= limits::LIMIT)
        & (station_state::count_in(s, WRITTEN_SET + i * SET_ROW) <= limits::LIMIT)
}

// Whether station i may wait with a commit.
fn commit_ok(s: &[u8], i: usize) -> bool
    requires { (length s.now ≡ server_length) × (i < 8) }
    ensures { result ≡ commit_ok s.now i }
{
    (kind(s, i) == Kind::Validating as u8)
        & (request(s, i) == 0)
        & (work(s, i) == latest(s, i))
        & few_ok(s, i)
}

// Whether it may wait with a write: of objects of one page, whose first address is the request.
fn write_ok(s: &[u8], i: usize) -> bool
    requires { (length s.now ≡ server_length) × (i < 8) }
    ensures { result ≡ write_ok s.now i }
{
    let a = request(s, i) as usize;
    (a % OBJECTS == 0)
        & page_only(s, WRITTEN_SET + i * SET_ROW, a / OBJECTS)
        & station_state::none_in(s, READ_SET + i * SET_ROW)
}

// Whether it may wait with a read, of the object requested, or with a write.
fn request_ok(s: &[u8], i: usize) -> bool
    requires { (length s.now ≡ server_length) × (i < 8) }
    ensures { result ≡ request_ok s.now i }
{
    if !locking(s, i) {
        return false;
    }
    if want(s, i) == Want::Read as u8 {
        let a = request(s, i);
        return only_in(s, READ_SET + i * SET_ROW, a)
            & station_state::none_in(s, WRITTEN_SET + i * SET_ROW);
    }
    write_ok(s, i)
}

fn waiter_ok(s: &[u8], i: usize) -> bool
    requires { (length s.now ≡ server_length) × (i < 8) }
    ensures { result ≡ waiter_ok s.now i }
{
    if unfinished(s, i) == 0 {
        return false;
    }
    if arrival(s, i) >= next_arrival(s) {
        return false;
    }
    if want(s, i) == Want::Commit as u8 {
        return commit_ok(s, i);
    }
    request_ok(s, i)
}

fn entry_ok(s: &[u8], i: usize) -> bool
    requires { (length s.now ≡ server_length) × (i < 8) }
    ensures { result ≡ entry_ok s.now i }
{
    if want(s, i) == Want::Nothing as u8 {
        return blank_ok(s, i);
    }
    waiter_ok(s, i)
}

// Whether all eight entries are empty: their sets stand one behind the other.
fn blanks_ok(s: &[u8]) -> bool
    requires { length s.now ≡ server_length }
    ensures { result ≡ all_to (blank_ok_lem s.now) 8 }
{
    let arrivals = station_state::over(s, ARRIVAL, ALL_AGES);
    let requests = station_state::over(s, REQUEST, STATIONS);
    let sets = station_state::over(s, READ_SET, ALL_SETS);
    (arrivals | requests | sets) == 0
}

// Where nobody waits, eight entries are tested without asking of each which it is.
fn entries_ok(s: &[u8]) -> bool
    requires { length s.now ≡ server_length }
    ensures { result ≡ all_to (entry_ok s.now) 8 }
{
    if le::get_u64(s, WANT) == 0 {
        return blanks_ok(s);
    }
    all_of(STATIONS, |i| entry_ok(s, i))
}

// Whether station j, if it owes station i a 7, is another, locking one.
#[tactic(auto, unfolding(crate::specs::Valid::owes_at))]
fn owes_at(s: &[u8], i: usize, j: usize) -> bool
    requires { (length s.now ≡ server_length) × (i < 8) × (j < 8) }
    ensures { result ≡ owes_at s.now i j }
{
    !station_state::has_bit8(pend(s, i), j) | ((j != i) & locking(s, j))
}

// Those who owe a 7 are looked at, the lowest first, and nobody else.
fn owes_ok(s: &[u8], i: usize) -> bool
    requires { (length s.now ≡ server_length) × (i < 8) }
    ensures { result ≡ all_to (owes_at s.now i) 8 }
{
    let mut ok = true;
    for j in station_state::members(pend(s, i) as u64) {
        ok &= owes_at(s, i, j);
    }
    ok
}

fn calls_ok(s: &[u8], i: usize) -> bool
    requires { (length s.now ≡ server_length) × (i < 8) }
    ensures { result ≡ calls_ok s.now i }
{
    if s[CALLED + i] == 0 {
        return (pend(s, i) == 0) & (busy(s, i) == 0);
    }
    (want(s, i) >= Want::Write as u8) & (busy(s, i) | pend(s, i) == pend(s, i)) & owes_ok(s, i)
}

// Where no 20 is out and none is owed, the bytes of all eight are tested at once.
fn all_calls_ok(s: &[u8]) -> bool
    requires { length s.now ≡ server_length }
    ensures { result ≡ all_to (calls_ok s.now) 8 }
{
    if station_state::over(s, CALLED, ALL_CALLS) == 0 {
        return true;
    }
    all_of(STATIONS, |i| calls_ok(s, i))
}

#[tactic(auto, unfolding(crate::specs::Valid::aged_ok))]
fn aged_ok(s: &[u8], i: usize) -> bool
    requires { (length s.now ≡ server_length) × (i < 8) }
    ensures { result ≡ aged_ok s.now i }
{
    (age(s, i) < next_age(s)) & ((unfinished(s, i) == 0) | (latest(s, i) != 0))
}

fn ages_ok(s: &[u8]) -> bool
    requires { length s.now ≡ server_length }
    ensures { result ≡ all_to (aged_ok s.now) 8 }
{
    all_of(STATIONS, |i| aged_ok(s, i))
}

fn stations_ok(s: &[u8]) -> bool
    requires { length s.now ≡ server_length }
    ensures { result ≡ all_to (station_ok s.now) 8 }
{
    ages_ok(s) & entries_ok(s) & all_calls_ok(s)
}

// Whether the lock on object o of page p is nobody's, or that of the page's holder.
#[tactic(auto, unfolding(crate::specs::Valid::beside_at))]
fn beside_at(s: &[u8], p: usize, o: usize) -> bool
    requires { (length s.now ≡ server_length) × (p < 32) × (o < 8) }
    ensures { result ≡ beside_at s.now p o }
{
    (lock(s, p * OBJECTS + o) == 0) | (lock(s, p * OBJECTS + o) == whole(s, p))
}

// A page without locks on objects is passed over.
fn besides_ok(s: &[u8], p: usize) -> bool
    requires { (length s.now ≡ server_length) × (p < 32) }
    ensures { result ≡ all_to (beside_at s.now p) 8 }
{
    let locks = locks_on(s, p);
    if locks == 0 {
        return true;
    }
    all_of(OBJECTS, |o| beside_at(s, p, o))
}

// Whether h is a locking station whose transaction is unfinished, or none.
#[tactic(auto, unfolding(crate::specs::Valid::holder_ok_lem))]
fn holder_ok(s: &[u8], h: u8) -> bool
    requires { length s.now ≡ server_length }
    ensures { result ≡ holder_ok_lem s.now h }
{
    if h == 0 {
        return true;
    }
    if h > 8 {
        return false;
    }
    let i = h as usize - 1;
    locking(s, i) & (unfinished(s, i) != 0)
}

#[tactic(auto, unfolding(crate::specs::Valid::holder_at))]
fn holder_at(s: &[u8], p: usize, o: usize) -> bool
    requires { (length s.now ≡ server_length) × (p < 32) × (o < 8) }
    ensures { result ≡ holder_at s.now p o }
{
    holder_ok(s, lock(s, p * OBJECTS + o))
}

// A page without locks is passed over.
fn holders_ok(s: &[u8], p: usize) -> bool
    requires { (length s.now ≡ server_length) × (p < 32) }
    ensures { result ≡ all_to (holder_at s.now p) 8 }
{
    if locks_on(s, p) == 0 {
        return true;
    }
    all_of(OBJECTS, |o| holder_at(s, p, o))
}

// Whether t is a transaction that a whole lock of station i can have been given to.
#[tactic(auto, unfolding(crate::specs::Valid::given_ok))]
fn given_ok(s: &[u8], i: usize, t: u32) -> bool
    requires { (length s.now ≡ server_length) × (i < 8) }
    ensures { result ≡ given_ok s.now i t }
{
    if t == 0 {
        return false;
    }
    if keeps(s, i) {
        return t <= latest(s, i);
    }
    (unfinished(s, i) != 0) & (t == latest(s, i))
}

// Whether page p is locked whole by nobody, or by a station that can be, with no lock of another's beside.
fn whole_ok(s: &[u8], p: usize) -> bool
    requires { (length s.now ≡ server_length) × (p < 32) }
    ensures { result ≡ whole_ok s.now p }
{
    let h = whole(s, p);
    let t = whole_for(s, p);
    if h == 0 {
        return t == 0;
    }
    if h > 8 {
        return false;
    }
    let i = h as usize - 1;
    locking(s, i) & given_ok(s, i, t) & besides_ok(s, p)
}

fn page_ok(s: &[u8], p: usize) -> bool
    requires { (length s.now ≡ server_length) × (p < 32) }
    ensures { result ≡ page_ok s.now p }
{
    whole_ok(s, p) & holders_ok(s, p)
}

// Whether nothing is locked on eight pages.
#[tactic(auto, unfolding(crate::specs::Eights::group_free))]
fn group_free(s: &[u8], g: usize) -> bool
    requires { (length s.now ≡ server_length) × (g < 4) }
    ensures { result ≡ group_free s.now g }
{
    let objects = station_state::over(s, LOCK + g * GROUP_LOCKS, GROUP_LOCKS);
    let pages = station_state::over(s, WHOLE + g * GROUP, GROUP);
    let given = station_state::over(s, WHOLE_FOR + g * GROUP_NUMBERS, GROUP_NUMBERS);
    (objects | pages | given) == 0
}

// Eight pages; where nothing is locked none is looked at.
fn group_ok(s: &[u8], g: usize) -> bool
    requires { (length s.now ≡ server_length) × (g < 4) }
    ensures { result ≡ group_ok s.now g }
{
    if group_free(s, g) {
        return true;
    }
    all_of(GROUP, |p| page_ok(s, g * GROUP + p))
}

// Whether nothing is locked. Whole locks are looked at first: where there are any, no more is read in vain.
#[tactic(auto, unfolding(crate::specs::Eights::lock_free))]
fn lock_free(s: &[u8]) -> bool
    requires { length s.now ≡ server_length }
    ensures { result ≡ lock_free s.now }
{
    if !station_state::none_in(s, WHOLE) {
        return false;
    }
    station_state::over(s, WHOLE_FOR, ALL_LOCKS) == 0
}

// Where nothing is locked, no group is looked at.
fn pages_ok(s: &[u8]) -> bool
    requires { length s.now ≡ server_length }
    ensures { result ≡ all_to (page_ok s.now) 32 }
{
    if lock_free(s) {
        return true;
    }
    all_of(4, |g| group_ok(s, g))
}

// Whether page p, if a 19 was sent for it, is locked whole.
#[tactic(auto, unfolding(crate::specs::Valid::asked_at))]
fn asked_at(s: &[u8], p: usize) -> bool
    requires { (length s.now ≡ server_length) × (p < 32) }
    ensures { result ≡ asked_at s.now p }
{
    !station_state::has_bit32(asked(s), p) | (whole(s, p) != 0)
}

fn asked_ok(s: &[u8]) -> bool
    requires { length s.now ≡ server_length }
    ensures { result ≡ all_to (asked_at s.now) 32 }
{
    if asked(s) == 0 {
        return true;
    }
    all_of(32, |p| asked_at(s, p))
}

// Whether the age of station i does not count: its transaction is finished, and it keeps no age.
#[tactic(auto, unfolding(crate::specs::Valid::ageless))]
fn ageless_at(s: &[u8], i: usize) -> bool
    requires { (length s.now ≡ server_length) × (i < 8) }
    ensures { result ≡ ageless s.now i }
{
    (unfinished(s, i) == 0) & (s[AGE_KEPT + i] == 0)
}

// Whether stations i and j differ in age, where both ages count.
#[tactic(auto, unfolding(crate::specs::Eights::ages_at))]
fn ages_at(s: &[u8], i: usize, j: usize) -> bool
    requires { (length s.now ≡ server_length) × (i < 8) × (j < 8) }
    ensures { result ≡ ages_at s.now i j }
{
    ageless_at(s, i) | ageless_at(s, j) | (age(s, i) != age(s, j))
}

// A station whose age does not count is passed over; the others are looked at beside those before them.
fn ages_apart(s: &[u8], i: usize) -> bool
    requires { (length s.now ≡ server_length) × (i < 8) }
    ensures { result ≡ all_to (ages_at s.now i) i }
{
    if ageless_at(s, i) {
        return true;
    }
    all_of(i, |j| ages_at(s, i, j))
}

// Whether the requests of i and j differ in arrival, where both wait.
fn arrivals_at(s: &[u8], i: usize, j: usize) -> bool
    requires { (length s.now ≡ server_length) × (i < 8) × (j < 8) }
    ensures { result ≡ arrivals_at s.now i j }
{
    (want(s, i) == Want::Nothing as u8)
        | (want(s, j) == Want::Nothing as u8)
        | (arrival(s, i) != arrival(s, j))
}

// A station that does not wait is passed over.
fn arrivals_apart(s: &[u8], i: usize) -> bool
    requires { (length s.now ≡ server_length) × (i < 8) }
    ensures { result ≡ all_to (arrivals_at s.now i) i }
{
    if want(s, i) == Want::Nothing as u8 {
        return true;
    }
    all_of(i, |j| arrivals_at(s, i, j))
}

// Whether no two ages that count are equal. Where at most one counts, none is looked at.
fn all_ages(s: &[u8]) -> bool
    requires { length s.now ≡ server_length }
    ensures { result ≡ all_to (ages_apart s.now) 8 }
{
    let x = le::get_u64(s, UNFINISHED) | le::get_u64(s, AGE_KEPT);
    if x == 0 {
        return true;
    }
    if x & (x - 1) == 0 {
        return true;
    }
    all_of(STATIONS, |i| ages_apart(s, i))
}

// Whether no two arrivals of waiters are equal. Where nobody waits, none is looked at.
fn all_arrivals(s: &[u8]) -> bool
    requires { length s.now ≡ server_length }
    ensures { result ≡ all_to (arrivals_apart s.now) 8 }
{
    let wants = le::get_u64(s, WANT);
    if wants == 0 {
        return true;
    }
    all_of(STATIONS, |i| arrivals_apart(s, i))
}

fn all_apart(s: &[u8]) -> bool
    requires { length s.now ≡ server_length }
    ensures { result ≡ all_to (apart_ok s.now) 8 }
{
    all_ages(s) & all_arrivals(s)
}

// False is number 1.
pub fn valid(s: &[u8]) -> bool
    ensures { result ≡ valid s.now }
{
    if s.len() != LENGTH {
        return false;
    }
    if !(ranges_ok(s) & counters_ok(s)) {
        return false;
    }
    if !stations_ok(s) {
        return false;
    }
    if !pages_ok(s) {
        return false;
    }
    asked_ok(s) & all_apart(s)
}

fn kinds_ok(kinds: &[u8]) -> bool
    ensures { result ≡ kinds_ok kinds.now }
{
    if kinds.len() != STATIONS {
        return false;
    }
    most(kinds, 0, kinds::MOST, STATIONS)
}

fn put_kinds(kinds: &[u8], s: &mut [u8])
    requires { (length kinds.now ≡ 8) × (length s.old ≡ server_length) }
    ensures { s.new ≡ kinds_to kinds.now s.old 8 }
{
    s[KIND..WANT].copy_from_slice(kinds);
}

// Makes the server's first state: `Buffer` where the length is wrong, then `Range` where the kinds are not eight kinds of stations. A refusal
// changes nothing.
pub fn fresh(kinds: &[u8], s: &mut [u8]) -> Result<(), Refusal>
    ensures { freshened s.new (code result) ≡ fresh_of kinds.now s.old }
{
    if s.len() != LENGTH {
        return Err(Refusal::Buffer);
    }
    if !kinds_ok(kinds) {
        return Err(Refusal::Range);
    }
    s.fill(0);
    le::put_u64(s, NEXT_AGE, 1);
    le::put_u64(s, NEXT_ARRIVAL, 1);
    put_kinds(kinds, s);
    Ok(())
}

// The age counter: the age that the next transaction gets.
#[derive(Clone, Copy)]
pub struct Ages {
    pub next: u64,
}

// The counter afterwards, and the age that it gave.
#[derive(Clone, Copy)]
pub struct Aged {
    pub ages: Ages,
    pub age: u64,
}

impl Ages {
    #[tactic(auto, unfolding(crate::specs::Ages::aged_of))]
    pub fn take(mut self) -> Aged
        requires { self.next < 18446744073709551615 }
        ensures { result ≡ aged_of self }
    {
        let age = self.next;
        self.next = age + 1;
        Aged { ages: self, age }
    }
}
