#![tactic(auto)]
// The bytes of a station's state: number 1, a fresh state, and the changes that touch one place or one set.
// Where each field stands is said here for all code, in specs/Layout.antt for the definitions and in docs/STATE.md for readers.
ghost use Rattle.std.specs.Prelude.{◌≡◌, ◌≢◌, ◌+◌, ◌^◌, ◌≤◌, ◌<◌, length, not, eqb};
ghost use Rattle.std.specs.Int.Count.{ones, count_trailing_zeros};
ghost use Rattle.std.specs.Iterator.{at_most};
ghost use Rattle.le.specs.Le.{u64_at};
ghost use Rattle.station_state.specs.Layout.{page_set_width, set_row, state_length, copy_of, kept_of, read_set, written_set, locks, station as layout_station, kind as layout_kind, locking_b, keeps_b, opened, wait, address, waiting_set, has_bit, member, passing_whole, kept_whole_b, count_in, written_with, none_in, requested_b, number, cached, whole};
ghost use Rattle.station_state.specs.Valid.{fields_ok, own_kept, first_ok, set_ok, out_ok, few_in, few_written, limited_ok, works_ok, lockless_ok, holds_ok, valid, freshened, fresh_of, rests_ok};
ghost use Rattle.station_state.specs.Changes.{add_to, page_on, page_off, clear_to, copy_to, begin_b, record_read_b, used_b, first_use_b, write_local_b, write_object_b, write_all_b, idle_b, for_read_b, wait_object_b, wait_all_b, for_write_b, waiting_values, for_commit_b, lock_waiting_b, loosen_b, keep_b, unkeep_b, unwhole_b, closed_b};
ghost use Rattle.station_state.specs.Sets.{joined, over};
ghost use Rattle.station_state.specs.Few.{rest};
ghost use Rattle.station_state.specs.Taken.{takes_lowest};
ghost use Rattle.refusals.specs.Refusals.{code};

use kinds::Want;
use refusals::Refusal;

// Widths: of a value, of a transaction's number or a version, of a page set. An object set has one byte.
pub const VALUE_WIDTH: usize = 8;

pub const NUMBER_WIDTH: usize = 4;

pub const PAGE_SET_WIDTH: usize = 4;

// The bytes of a row of object sets, one for each page.
pub const SET_ROW: usize = 32;

// Objects of a page: address p * OBJECTS + o is object o of page p.
pub const OBJECTS: usize = 8;

// Pages that are passed over together where eight bytes say that they have nothing.
pub const GROUP: usize = 8;

// Places, each behind the field before it.
pub const COPY: usize = 0;

pub const READ_VALUES: usize = COPY + 256 * VALUE_WIDTH;

pub const WRITTEN_VALUES: usize = READ_VALUES + 256 * VALUE_WIDTH;

pub const WAITING_VALUES: usize = WRITTEN_VALUES + 256 * VALUE_WIDTH;

pub const KEPT: usize = WAITING_VALUES + OBJECTS * VALUE_WIDTH;

pub const VERSIONS: usize = KEPT + 8 * NUMBER_WIDTH;

pub const SEEN: usize = VERSIONS + 256 * NUMBER_WIDTH;

pub const NUMBER: usize = SEEN + 256 * NUMBER_WIDTH;

pub const CACHED: usize = NUMBER + NUMBER_WIDTH;

pub const WHOLE: usize = CACHED + PAGE_SET_WIDTH;

pub const UNAVAILABLE: usize = WHOLE + PAGE_SET_WIDTH;

pub const READ_SET: usize = UNAVAILABLE + SET_ROW;

pub const WRITTEN_SET: usize = READ_SET + SET_ROW;

pub const LOCKS: usize = WRITTEN_SET + SET_ROW;

pub const NAMED: usize = LOCKS + SET_ROW;

pub const STATION: usize = NAMED + 8 * SET_ROW;

pub const KIND: usize = STATION + 1;

pub const OPEN: usize = KIND + 1;

pub const WAIT: usize = OPEN + 1;

pub const ADDRESS: usize = WAIT + 1;

pub const WAITING_SET: usize = ADDRESS + 1;

pub const LENGTH: usize = WAITING_SET + 1;

const MOST_KIND: u32 = kinds::MOST as u32;

// The four bytes from the station on, as a number, are below this where the kind is in range, nothing open and nothing out.
const RESTING: u32 = (MOST_KIND + 1) * 256;

// The transaction's number.
pub fn number(s: &[u8]) -> u32
    requires { length s.now ≡ state_length }
    ensures { result ≡ number s.now }
{
    le::get_u32(s, NUMBER)
}

// The pages that are cached, as a set.
pub fn cached(s: &[u8]) -> u32
    requires { length s.now ≡ state_length }
    ensures { result ≡ cached s.now }
{
    le::get_u32(s, CACHED)
}

// The pages that are locked whole.
pub fn whole(s: &[u8]) -> u32
    requires { length s.now ≡ state_length }
    ensures { result ≡ whole s.now }
{
    le::get_u32(s, WHOLE)
}

// The copy at address a.
pub fn copy(s: &[u8], a: usize) -> u64
    requires { (length s.now ≡ state_length) × (a < 256) }
    ensures { result ≡ copy_of s.now a }
{
    le::get_u64(s, COPY + a * VALUE_WIDTH)
}

// The transaction of the callback kept of requester r, 0 for none.
pub fn kept(s: &[u8], r: usize) -> u32
    requires { (length s.now ≡ state_length) × (r < 8) }
    ensures { result ≡ kept_of s.now r }
{
    le::get_u32(s, KEPT + r * NUMBER_WIDTH)
}

// The objects of page p that the transaction has read, and written.
pub fn read_set(s: &[u8], p: usize) -> u8
    requires { (length s.now ≡ state_length) × (p < 32) }
    ensures { result ≡ read_set s.now p }
{
    s[READ_SET + p]
}

pub fn written_set(s: &[u8], p: usize) -> u8
    requires { (length s.now ≡ state_length) × (p < 32) }
    ensures { result ≡ written_set s.now p }
{
    s[WRITTEN_SET + p]
}

// Those that it has locked.
pub fn locks(s: &[u8], p: usize) -> u8
    requires { (length s.now ≡ state_length) × (p < 32) }
    ensures { result ≡ locks s.now p }
{
    s[LOCKS + p]
}

// The station itself, and its kind.
pub fn station(s: &[u8]) -> u8
    requires { length s.now ≡ state_length }
    ensures { result ≡ layout_station s.now }
{
    s[STATION]
}

pub fn kind(s: &[u8]) -> u8
    requires { length s.now ≡ state_length }
    ensures { result ≡ layout_kind s.now }
{
    s[KIND]
}

// Whose rules the kind has.
pub fn locking(s: &[u8]) -> bool
    requires { length s.now ≡ state_length }
    ensures { result ≡ locking_b s.now }
{
    kinds::locking(s[KIND])
}

pub fn keeps(s: &[u8]) -> bool
    requires { length s.now ≡ state_length }
    ensures { result ≡ keeps_b s.now }
{
    kinds::keeps(s[KIND])
}

// 1 while a transaction is open, 0 else; in a lent state that is not valid any byte.
pub fn opened(s: &[u8]) -> u8
    requires { length s.now ≡ state_length }
    ensures { result ≡ opened s.now }
{
    s[OPEN]
}

// Whether a transaction is open.
pub fn is_open(s: &[u8]) -> bool
    requires { length s.now ≡ state_length }
    ensures { result ≡ not (eqb (opened s.now) 0) }
{
    opened(s) != 0
}

// What is out: the byte of a `Want`, and in a lent state that is not valid perhaps of none.
pub fn wait(s: &[u8]) -> u8
    requires { length s.now ≡ state_length }
    ensures { result ≡ wait s.now }
{
    s[WAIT]
}

// The address of a read that is out; of a write that is out, that of its page's object 0.
pub fn address(s: &[u8]) -> u8
    requires { length s.now ≡ state_length }
    ensures { result ≡ address s.now }
{
    s[ADDRESS]
}

// The objects that it will write.
pub fn waiting_set(s: &[u8]) -> u8
    requires { length s.now ≡ state_length }
    ensures { result ≡ waiting_set s.now }
{
    s[WAITING_SET]
}

// Bits and the lowest member, once for each width that sets have. Each is one call of the width's own method or one shift: a trait over the
// widths would have the same line in an impl for each of them, with the width as a ghost member beside it.
pub fn bit8(k: usize) -> u8
    requires { k < 8 }
    ensures { result ≡ 2 ^ k }
{
    1u8 << k
}

pub fn bit32(k: usize) -> u32
    requires { k < 32 }
    ensures { result ≡ 2 ^ k }
{
    1u32 << k
}

#[tactic(auto, unfolding(crate::specs::Layout::has_bit))]
pub fn has_bit8(x: u8, k: usize) -> bool
    requires { k < 8 }
    ensures { result ≡ has_bit x k }
{
    x & bit8(k) != 0
}

#[tactic(auto, unfolding(crate::specs::Layout::has_bit))]
pub fn has_bit32(x: u32, k: usize) -> bool
    requires { k < 32 }
    ensures { result ≡ has_bit x k }
{
    x & bit32(k) != 0
}

// The lowest member of a set, which has one.
pub fn lowest8(x: u8) -> usize
    requires { x ≢ 0 }
    ensures { (result ≡ count_trailing_zeros 8 x) × (result < 8) }
{
    u8::trailing_zeros(x) as usize
}

pub fn lowest32(x: u32) -> usize
    requires { x ≢ 0 }
    ensures { (result ≡ count_trailing_zeros 32 x) × (result < 32) }
{
    u32::trailing_zeros(x) as usize
}

pub fn lowest64(x: u64) -> usize
    requires { x ≢ 0 }
    ensures { (result ≡ count_trailing_zeros 64 x) × (result < 64) }
{
    u64::trailing_zeros(x) as usize
}

// The members of a set, the lowest first.
#[derive(Drop)]
pub struct EachMember {
    left: u64,
}

pub fn members(x: u64) -> EachMember
    ensures { result.left ≡ x }
{
    EachMember { left: x }
}

impl Iterator for EachMember {
    type Item = usize;

    ghost next_gives = { takes_lowest (λ m. m.left) };

    ghost remaining = { λ m. at_most m.left };

    fn next(&mut self) -> Option<usize> {
        if self.left == 0 {
            return None;
        }
        let k = lowest64(self.left);
        self.left &= self.left - 1;
        Some(k)
    }
}

// A set without its lowest member, if it has one.
fn rest(x: u64) -> u64
    ensures { result ≡ rest x }
{
    if x == 0 {
        return 0;
    }
    x & (x - 1)
}

// Whether the object sets from `at` have the address a.
#[tactic(auto, unfolding(crate::specs::Layout::member))]
pub fn member(s: &[u8], at: usize, a: usize) -> bool
    requires { (at + set_row ≤ length s.now) × (a < 256) }
    ensures { result ≡ member s.now at a }
{
    has_bit8(s[at + a / 8], a % 8)
}

// The n bytes from `at`, laid over each other: 0 where each of them is. No test leaves the loop early, so that it compiles to vector
// code; a test of words would be taken apart into bytes again.
#[tactic(auto, unfolding(crate::specs::Sets::over))]
pub fn over(s: &[u8], at: usize, n: usize) -> u8
    requires { at + n ≤ length s.now }
    ensures { result ≡ over s.now at n }
{
    let mut x: u8 = 0;
    for k in 0..n {
        x |= s[at + k];
    }
    x
}

// The object sets from `at`, eight at a time, in one word: 0 where they have nothing.
#[tactic(auto, unfolding(crate::specs::Sets::joined))]
fn joined(s: &[u8], at: usize) -> u64
    requires { at + set_row ≤ length s.now }
    ensures { result ≡ joined s.now at }
{
    le::get_u64(s, at) | le::get_u64(s, at + 8) | le::get_u64(s, at + 16) | le::get_u64(s, at + 24)
}

// Whether the object sets from `at` have nothing.
pub fn none_in(s: &[u8], at: usize) -> bool
    requires { at + set_row ≤ length s.now }
    ensures { result ≡ none_in s.now at }
{
    joined(s, at) == 0
}

// How many bits the eight bytes from `at` have. No test for none: four words are counted side by side.
fn ones_at(s: &[u8], at: usize) -> u32
    requires { at + 8 ≤ length s.now }
    ensures { result ≡ ones (u64_at s.now at) }
{
    u64::count_ones(le::get_u64(s, at))
}

// How many addresses the object sets from `at` have: the bits of four words.
pub fn count_in(s: &[u8], at: usize) -> u32
    requires { at + set_row ≤ length s.now }
    ensures { result ≡ count_in s.now at }
{
    ones_at(s, at) + ones_at(s, at + 8) + ones_at(s, at + 16) + ones_at(s, at + 24)
}

// How many addresses are written, with the objects x of page p.
#[tactic(auto, unfolding(crate::specs::Layout::written_with))]
pub fn written_with(s: &[u8], p: usize, x: u8) -> u32
    requires { (length s.now ≡ state_length) × (p < 32) }
    ensures { result ≡ written_with s.now p x }
{
    let y = written_set(s, p);
    count_in(s, WRITTEN_SET) + u8::count_ones(x & !y)
}

// Whether page p is under a whole lock that outlives its transaction.
#[tactic(auto, unfolding(crate::specs::Layout::kept_whole_b))]
pub fn kept_whole(s: &[u8], p: usize) -> bool
    requires { (length s.now ≡ state_length) × (p < 32) }
    ensures { result ≡ kept_whole_b s.now p }
{
    keeps(s) & has_bit32(whole(s), p)
}

// Whether a read or a write of an object of page p is out.
pub fn requested(s: &[u8], p: usize) -> bool
    requires { length s.now ≡ state_length }
    ensures { result ≡ requested_b s.now p }
{
    ((wait(s) == Want::Read as u8) | (wait(s) == Want::Write as u8))
        & (p == (address(s) / 8) as usize)
}

// Whether the fields other than the station's number are in range.
#[tactic(auto, unfolding(crate::specs::Valid::fields_ok))]
pub fn fields_ok(s: &[u8]) -> bool
    requires { length s.now ≡ state_length }
    ensures { result ≡ fields_ok s.now }
{
    (kind(s) <= kinds::MOST)
        & (opened(s) <= 1)
        & (wait(s) <= Want::Commit as u8)
        & (!is_open(s) | (number(s) != 0))
}

// Whether a callback from the station itself is kept.
#[tactic(auto, unfolding(crate::specs::Valid::own_kept))]
pub fn own_kept(s: &[u8]) -> bool
    requires { (length s.now ≡ state_length) × (layout_station s.now ≤ 7) }
    ensures { result ≡ own_kept s.now }
{
    let st = station(s) as usize;
    kept(s, st) != 0
}

// Whether the object of the read that is out was neither read nor written.
#[tactic(auto, unfolding(crate::specs::Valid::first_ok))]
fn first_ok(s: &[u8]) -> bool
    requires { length s.now ≡ state_length }
    ensures { result ≡ first_ok s.now }
{
    let a = address(s) as usize;
    !member(s, READ_SET, a) & !member(s, WRITTEN_SET, a)
}

// Whether the write that is out has a page, and objects there.
#[tactic(auto, unfolding(crate::specs::Valid::set_ok))]
fn set_ok(s: &[u8]) -> bool
    requires { length s.now ≡ state_length }
    ensures { result ≡ set_ok s.now }
{
    (address(s) % 8 == 0) & (waiting_set(s) != 0)
}

// Whether what is out can be.
#[tactic(auto, unfolding(crate::specs::Valid::out_ok))]
fn out_ok(s: &[u8]) -> bool
    requires { length s.now ≡ state_length }
    ensures { result ≡ out_ok s.now }
{
    if wait(s) == Want::Read as u8 {
        return first_ok(s);
    }
    if wait(s) == Want::Write as u8 {
        return set_ok(s);
    }
    true
}

// Whether the sets from `at` are within the limit, with the object waited for, if that is out.
fn few_in(s: &[u8], at: usize, out: bool) -> bool
    requires { (length s.now ≡ state_length) × (at + set_row ≤ length s.now) }
    ensures { result ≡ few_in s.now at out }
{
    let a = address(s) as usize;
    if out & !member(s, at, a) {
        return count_in(s, at) < limits::LIMIT;
    }
    count_in(s, at) <= limits::LIMIT
}

// Whether what is written is within the limit, with what the write that is out will write.
#[tactic(auto, unfolding(crate::specs::Valid::few_written))]
fn few_written(s: &[u8]) -> bool
    requires { length s.now ≡ state_length }
    ensures { result ≡ few_written s.now }
{
    if wait(s) == Want::Write as u8 {
        let p = (address(s) / 8) as usize;
        return written_with(s, p, waiting_set(s)) <= limits::LIMIT;
    }
    count_in(s, WRITTEN_SET) <= limits::LIMIT
}

// Whether the transaction is within the limit. One with at most three members, all words of its sets laid over each other, is not
// counted.
fn limited_ok(s: &[u8]) -> bool
    requires { length s.now ≡ state_length }
    ensures { result ≡ limited_ok s.now }
{
    let x = joined(s, READ_SET) | joined(s, WRITTEN_SET);
    if rest(rest(rest(x))) == 0 {
        return true;
    }
    few_in(s, READ_SET, wait(s) == Want::Read as u8) & few_written(s)
}

// Of an open transaction.
fn works_ok(s: &[u8]) -> bool
    requires { (length s.now ≡ state_length) × (opened s.now ≢ 0) }
    ensures { result ≡ works_ok s.now }
{
    out_ok(s) & limited_ok(s)
}

// The whole locks that go with their transaction.
#[tactic(auto, unfolding(crate::specs::Layout::passing_whole))]
fn passing_whole(s: &[u8]) -> u32
    requires { length s.now ≡ state_length }
    ensures { result ≡ passing_whole s.now }
{
    if keeps(s) {
        return 0;
    }
    whole(s)
}

// Whether there is no such lock and none on an object, and no callback kept.
fn lockless_ok(s: &[u8]) -> bool
    requires { length s.now ≡ state_length }
    ensures { result ≡ lockless_ok s.now }
{
    (passing_whole(s) == 0) & none_in(s, LOCKS) & none_in(s, KEPT)
}

// Of an open transaction.
fn holds_ok(s: &[u8]) -> bool
    requires { (length s.now ≡ state_length) × (opened s.now ≢ 0) }
    ensures { result ≡ holds_ok s.now }
{
    if locking(s) {
        return true;
    }
    lockless_ok(s)
}

// Whether a state passes number 1 and has no transaction open: nothing is out, read, written, locked or kept. Four fields are
// one number, station and kind the low bytes of it, and all the sets one word, since a begin is little else than this.
pub fn rests(s: &[u8]) -> bool
    ensures { result ≡ rests_ok s.now }
{
    if s.len() != LENGTH {
        return false;
    }
    if le::get_u32(s, STATION) >= RESTING {
        return false;
    }
    let sets = joined(s, READ_SET)
        | joined(s, WRITTEN_SET)
        | u64::from(passing_whole(s))
        | joined(s, LOCKS)
        | joined(s, KEPT);
    (station(s) <= 7) & (sets == 0)
}

// False is number 1.
pub fn valid(s: &[u8]) -> bool
    ensures { result ≡ valid s.now }
{
    if s.len() != LENGTH {
        return false;
    }
    if station(s) > 7 {
        return false;
    }
    if !is_open(s) {
        return rests(s);
    }
    if !(fields_ok(s) & !own_kept(s)) {
        return false;
    }
    works_ok(s) & holds_ok(s)
}

// Makes a station's first state, unless the length is wrong, or else station or kind is out of range. A refusal changes nothing.
#[tactic(auto, unfolding(crate::specs::Valid::fresh_of))]
pub fn fresh(station: u32, kind: u32, s: &mut [u8]) -> Result<(), Refusal>
    ensures { freshened s.new (code result) ≡ fresh_of station kind s.old }
{
    if s.len() != LENGTH {
        return Err(Refusal::Buffer);
    }
    if (station > 7) | (kind > MOST_KIND) {
        return Err(Refusal::Range);
    }
    s.fill(0);
    le::put_u8(s, STATION, station as u8);
    le::put_u8(s, KIND, kind as u8);
    Ok(())
}

// The address a joins the object sets from `at`.
#[tactic(auto, unfolding(crate::specs::Changes::add_to))]
pub fn add_to(s: &mut [u8], at: usize, a: usize)
    requires { (at + set_row ≤ length s.old) × (a < 256) }
    ensures { s.new ≡ add_to s.old at a }
{
    let x = s[at + a / 8] | bit8(a % 8);
    le::put_u8(s, at + a / 8, x);
}

// Page p joins the page set at `at`.
#[tactic(auto, unfolding(crate::specs::Changes::page_on))]
pub fn page_on(s: &mut [u8], at: usize, p: usize)
    requires { (at + page_set_width ≤ length s.old) × (p < 32) }
    ensures { s.new ≡ page_on s.old at p }
{
    let x = le::get_u32(s, at);
    le::put_u32(s, at, x | bit32(p));
}

// Page p leaves the page set at `at`.
#[tactic(auto, unfolding(crate::specs::Changes::page_off))]
pub fn page_off(s: &mut [u8], at: usize, p: usize)
    requires { (at + page_set_width ≤ length s.old) × (p < 32) }
    ensures { s.new ≡ page_off s.old at p }
{
    let x = le::get_u32(s, at);
    le::put_u32(s, at, x & !bit32(p));
}

// The object sets from `at` are empty.
pub fn clear(s: &mut [u8], at: usize)
    requires { at + set_row ≤ length s.old }
    ensures { s.new ≡ clear_to s.old at set_row }
{
    s[at..at + SET_ROW].fill(0);
}

// The object sets from `at` are those of `sets`.
pub fn copy_sets(s: &mut [u8], at: usize, sets: &[u8])
    requires { (at + set_row ≤ length s.old) × (set_row ≤ length sets.now) }
    ensures { s.new ≡ copy_to s.old at sets.now set_row }
{
    s[at..at + SET_ROW].copy_from_slice(&sets[..SET_ROW]);
}

// The next transaction is open.
#[tactic(auto, unfolding(crate::specs::Changes::begin_b))]
pub fn begin(s: &mut [u8])
    requires { (length s.old ≡ state_length) × (number s.old < 4294967295) }
    ensures { s.new ≡ begin_b s.old }
{
    let n = number(s);
    le::put_u32(s, NUMBER, n + 1);
    le::put_u8(s, OPEN, 1);
}

// The copy's value of a is recorded as read, and its version with it.
pub fn record_read(s: &mut [u8], a: usize)
    requires { (length s.old ≡ state_length) × (a < 256) }
    ensures { s.new ≡ record_read_b a s.old }
{
    let v = copy(s, a);
    let n = le::get_u32(s, VERSIONS + a * NUMBER_WIDTH);
    add_to(s, READ_SET, a);
    le::put_u64(s, READ_VALUES + a * VALUE_WIDTH, v);
    le::put_u32(s, SEEN + a * NUMBER_WIDTH, n);
}

// Whether the transaction has read or written a.
#[tactic(auto, unfolding(crate::specs::Changes::used_b))]
fn used(s: &[u8], a: usize) -> bool
    requires { (length s.now ≡ state_length) × (a < 256) }
    ensures { result ≡ used_b s.now a }
{
    member(s, READ_SET, a) | member(s, WRITTEN_SET, a)
}

// Keeps the version of a's copy, if the transaction has not used a yet.
#[tactic(auto, unfolding(crate::specs::Changes::first_use_b))]
fn first_use(s: &mut [u8], a: usize)
    requires { (length s.old ≡ state_length) × (a < 256) }
    ensures { s.new ≡ first_use_b a s.old }
{
    if used(s, a) {
        return;
    }
    let n = le::get_u32(s, VERSIONS + a * NUMBER_WIDTH);
    le::put_u32(s, SEEN + a * NUMBER_WIDTH, n);
}

// v is written to a, in the transaction and in the copy.
pub fn write_local(s: &mut [u8], a: usize, v: u64)
    requires { (length s.old ≡ state_length) × (a < 256) }
    ensures { s.new ≡ write_local_b a v s.old }
{
    first_use(s, a);
    add_to(s, WRITTEN_SET, a);
    le::put_u64(s, WRITTEN_VALUES + a * VALUE_WIDTH, v);
    le::put_u64(s, COPY + a * VALUE_WIDTH, v);
}

// Of the objects of x on page p, o is written.
fn write_object(s: &mut [u8], p: usize, x: u8, o: usize, v: u64)
    requires { (length s.old ≡ state_length) × (p < 32) × (o < 8) }
    ensures { s.new ≡ write_object_b p x o v s.old }
{
    if has_bit8(x, o) {
        write_local(s, p * OBJECTS + o, v);
        return;
    }
}

// The objects of x on page p are written, rising: `values` are by object.
pub fn write_all(s: &mut [u8], p: usize, x: u8, values: &[u64; 8])
    requires { (length s.old ≡ state_length) × (p < 32) }
    ensures { s.new ≡ write_all_b p x values.now s.old }
{
    for o in 0..OBJECTS {
        write_object(s, p, x, o, values[o]);
    }
}

// Nothing is out.
pub fn idle(s: &mut [u8])
    requires { length s.old ≡ state_length }
    ensures { s.new ≡ idle_b s.old }
{
    le::put_u8(s, WAIT, Want::Nothing as u8);
}

// A read of a is out.
pub fn for_read(s: &mut [u8], a: u8)
    requires { length s.old ≡ state_length }
    ensures { s.new ≡ for_read_b a s.old }
{
    le::put_u8(s, WAIT, Want::Read as u8);
    le::put_u8(s, ADDRESS, a);
}

// Of the objects of x, the value of o is kept.
#[tactic(auto, unfolding(crate::specs::Changes::wait_object_b))]
fn wait_object(s: &mut [u8], x: u8, o: usize, v: u64)
    requires { (length s.old ≡ state_length) × (o < 8) }
    ensures { s.new ≡ wait_object_b x o v s.old }
{
    if has_bit8(x, o) {
        le::put_u64(s, WAITING_VALUES + o * VALUE_WIDTH, v);
        return;
    }
}

// The values of the objects of x are kept.
#[tactic(auto, unfolding(crate::specs::Changes::waiting_to, crate::specs::Changes::wait_all_b))]
fn wait_all(s: &mut [u8], x: u8, values: &[u64; 8])
    requires { length s.old ≡ state_length }
    ensures { s.new ≡ wait_all_b x values.now s.old }
{
    for o in 0..OBJECTS {
        wait_object(s, x, o, values[o]);
    }
}

// A write of `values` to the objects of x on page p is out.
pub fn for_write(s: &mut [u8], p: usize, x: u8, values: &[u64; 8])
    requires { (length s.old ≡ state_length) × (p < 32) }
    ensures { s.new ≡ for_write_b p x values.now s.old }
{
    le::put_u8(s, WAIT, Want::Write as u8);
    le::put_u8(s, ADDRESS, (p * OBJECTS) as u8);
    le::put_u8(s, WAITING_SET, x);
    wait_all(s, x, values);
}

// The values that were kept, by object.
#[tactic(auto, unfolding(crate::specs::Changes::values_to, crate::specs::Changes::waiting_values))]
pub fn waiting_values(s: &[u8]) -> [u64; 8]
    requires { length s.now ≡ state_length }
    ensures { result ≡ waiting_values s.now }
{
    let mut v = [0u64; 8];
    for o in 0..OBJECTS {
        v[o] = le::get_u64(s, WAITING_VALUES + o * VALUE_WIDTH);
    }
    v
}

// A commit is out.
pub fn for_commit(s: &mut [u8])
    requires { length s.old ≡ state_length }
    ensures { s.new ≡ for_commit_b s.old }
{
    le::put_u8(s, WAIT, Want::Commit as u8);
}

// The objects that were asked for on page p are locked.
#[tactic(auto, unfolding(crate::specs::Changes::lock_waiting_b))]
pub fn lock_waiting(s: &mut [u8], p: usize)
    requires { (length s.old ≡ state_length) × (p < 32) }
    ensures { s.new ≡ lock_waiting_b p s.old }
{
    let x = locks(s, p) | waiting_set(s);
    le::put_u8(s, LOCKS + p, x);
}

// The whole lock on page p becomes locks on the objects of x.
#[tactic(auto, unfolding(crate::specs::Changes::loosen_b))]
pub fn loosen(s: &mut [u8], p: usize, x: u8)
    requires { (length s.old ≡ state_length) × (p < 32) }
    ensures { s.new ≡ loosen_b p x s.old }
{
    let y = locks(s, p) | x;
    le::put_u8(s, LOCKS + p, y);
    page_off(s, WHOLE, p);
}

// The callback of r's transaction t, which names `sets`, is kept in the place of an older one.
#[tactic(auto, unfolding(crate::specs::Changes::keep_b))]
pub fn keep(s: &mut [u8], r: usize, t: u32, sets: &[u8])
    requires { (length s.old ≡ state_length) × (r < 8) × (set_row ≤ length sets.now) }
    ensures { s.new ≡ keep_b r t sets.now s.old }
{
    copy_sets(s, NAMED + r * SET_ROW, sets);
    le::put_u32(s, KEPT + r * NUMBER_WIDTH, t);
}

// No callback of r is kept.
#[tactic(auto, unfolding(crate::specs::Changes::unkeep_b))]
pub fn unkeep(s: &mut [u8], r: usize)
    requires { (length s.old ≡ state_length) × (r < 8) }
    ensures { s.new ≡ unkeep_b r s.old }
{
    le::put_u32(s, KEPT + r * NUMBER_WIDTH, 0);
}

// The whole locks go that end with their transaction.
#[tactic(auto, unfolding(crate::specs::Changes::unwhole_b))]
fn unwhole(s: &mut [u8])
    requires { length s.old ≡ state_length }
    ensures { s.new ≡ unwhole_b s.old }
{
    if keeps(s) {
        return;
    }
    le::put_u32(s, WHOLE, 0);
}

// The transaction is over: no lock, no read, no write, nothing out, nothing open.
pub fn closed(s: &mut [u8])
    requires { length s.old ≡ state_length }
    ensures { s.new ≡ closed_b s.old }
{
    unwhole(s);
    clear(s, LOCKS);
    clear(s, WRITTEN_SET);
    clear(s, READ_SET);
    idle(s);
    le::put_u8(s, OPEN, 0);
}
