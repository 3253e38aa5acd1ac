#![tactic(auto)]
// Changes of a station's state page by page: dropped pages, marks, arriving pages, versions.
ghost use Rattle.std.specs.Prelude.{◌≡◌, cond, ◌+◌, ◌*◌, ◌≤◌, ◌<◌, ◌^◌, length};
ghost use Rattle.station_pages.specs.Pages.{used_page_b, wrote_page_b, used_pages_b, written_pages_b, uses_b, in_use_b, drops_b, dropped_b, blank_to, unversion_to, drop_page_b, drop_pages_b, mark_one_b, mark_b, arrives_b, arrive_to, arrive_versions_to, arrive_b, versions_b};
ghost use Rattle.station_pages.specs.Versions.{version_at_b, version_if_b};
ghost use Rattle.station_pages.specs.Groups.{mask_from};
ghost use Rattle.station_state.specs.Layout.{set_row, state_length};
ghost use Rattle.station_state.specs.Runs.{run};
ghost use Rattle.message.specs.Layout.{message_length};

use station_state::{
    CACHED, COPY, GROUP, NUMBER_WIDTH, OBJECTS, UNAVAILABLE, VALUE_WIDTH, VERSIONS, WRITTEN_SET,
    WRITTEN_VALUES,
};

// The bit of page p, if so.
fn bit_if(yes: bool, p: usize) -> u32
    requires { p < 32 }
    ensures { result ≡ cond yes (2 ^ p) 0 }
{
    if yes {
        return station_state::bit32(p);
    }
    0
}

#[tactic(auto, unfolding(crate::specs::Pages::used_page_b))]
pub fn used_page(s: &[u8], p: usize) -> bool
    requires { (length s.now ≡ state_length) × (p < 32) }
    ensures { result ≡ used_page_b s.now p }
{
    (station_state::read_set(s, p) | station_state::written_set(s, p)) != 0
}

#[tactic(auto, unfolding(crate::specs::Pages::wrote_page_b))]
fn wrote_page(s: &[u8], p: usize) -> bool
    requires { (length s.now ≡ state_length) × (p < 32) }
    ensures { result ≡ wrote_page_b s.now p }
{
    station_state::written_set(s, p) != 0
}

// The pages on which the transaction has read or written, and below those on which it has written. They stay two: one loop with the test
// as a closure would have to say in its contract, for every page, what the closure answers, which is longer than the loop.
#[tactic(auto, unfolding(cells::specs::Loops::mask_to, crate::specs::Pages::used_pages_b))]
pub fn used_pages(s: &[u8]) -> u32
    requires { length s.now ≡ state_length }
    ensures { result ≡ used_pages_b s.now }
{
    let mut d: u32 = 0;
    for p in 0..32 {
        d |= bit_if(used_page(s, p), p);
    }
    d
}

#[tactic(auto, unfolding(cells::specs::Loops::mask_to, crate::specs::Pages::written_pages_b))]
pub fn written_pages(s: &[u8]) -> u32
    requires { length s.now ≡ state_length }
    ensures { result ≡ written_pages_b s.now }
{
    let mut d: u32 = 0;
    for p in 0..32 {
        d |= bit_if(wrote_page(s, p), p);
    }
    d
}

#[tactic(auto, unfolding(crate::specs::Pages::uses_b))]
fn uses(sets: &[u8], s: &[u8], p: usize) -> bool
    requires { (length s.now ≡ state_length) × (set_row ≤ length sets.now) × (p < 32) }
    ensures { result ≡ uses_b sets.now s.now p }
{
    sets[p] & (station_state::read_set(s, p) | station_state::written_set(s, p)) != 0
}

// Whether the transaction has read or written an object of these sets.
#[tactic(auto, unfolding(cells::specs::Loops::any_to, crate::specs::Pages::in_use_b))]
pub fn in_use(sets: &[u8], s: &[u8]) -> bool
    requires { (length s.now ≡ state_length) × (set_row ≤ length sets.now) }
    ensures { result ≡ in_use_b sets.now s.now }
{
    let mut r = false;
    for p in 0..32 {
        r |= uses(sets, s, p);
    }
    r
}

#[tactic(auto, unfolding(crate::specs::Pages::drops_b))]
fn drops(sets: &[u8], s: &[u8], p: usize) -> bool
    requires { (length s.now ≡ state_length) × (set_row ≤ length sets.now) × (p < 32) }
    ensures { result ≡ drops_b sets.now s.now p }
{
    station_state::has_bit32(station_state::cached(s), p)
        & (sets[p] != 0)
        & !used_page(s, p)
        & !station_state::requested(s, p)
        & !station_state::kept_whole(s, p)
}

// Eight pages; where the sets name nothing none is looked at.
#[tactic(auto, unfolding(crate::specs::Groups::mask_from))]
fn dropped_in(sets: &[u8], s: &[u8], g: usize) -> u32
    requires { (length s.now ≡ state_length) × (set_row ≤ length sets.now) × (g < 4) }
    ensures { result ≡ mask_from (drops_b sets.now s.now) (g * 8) 8 }
{
    if le::get_u64(sets, g * GROUP) == 0 {
        return 0;
    }
    let mut d: u32 = 0;
    for p in 0..8 {
        d |= bit_if(drops(sets, s, g * GROUP + p), g * GROUP + p);
    }
    d
}

// The pages that a callback of these sets drops.
#[tactic(auto, unfolding(cells::specs::Loops::mask_to, crate::specs::Pages::dropped_b))]
pub fn dropped(sets: &[u8], s: &[u8]) -> u32
    requires { (length s.now ≡ state_length) × (set_row ≤ length sets.now) }
    ensures { result ≡ dropped_b sets.now s.now }
{
    let mut d: u32 = 0;
    for g in 0..4 {
        d |= dropped_in(sets, s, g);
    }
    d
}

// The eight values of a page become 0.
#[tactic(auto, unfolding(crate::specs::Pages::blank_to))]
fn blank(s: &mut [u8], p: usize)
    requires { (length s.old ≡ state_length) × (p < 32) }
    ensures { s.new ≡ blank_to s.old p 8 }
{
    for o in 0..8 {
        le::put_u64(s, COPY + (p * OBJECTS + o) * VALUE_WIDTH, 0);
    }
}

// .. and its eight versions.
#[tactic(auto, unfolding(crate::specs::Pages::unversion_to))]
fn unversion(s: &mut [u8], p: usize)
    requires { (length s.old ≡ state_length) × (p < 32) }
    ensures { s.new ≡ unversion_to s.old p 8 }
{
    for o in 0..8 {
        le::put_u32(s, VERSIONS + (p * OBJECTS + o) * NUMBER_WIDTH, 0);
    }
}

#[tactic(auto, unfolding(crate::specs::Pages::drop_page_b))]
fn drop_page(s: &mut [u8], p: usize)
    requires { (length s.old ≡ state_length) × (p < 32) }
    ensures { s.new ≡ drop_page_b s.old p }
{
    blank(s, p);
    unversion(s, p);
    le::put_u8(s, UNAVAILABLE + p, 0);
}

// Drops the pages of a set, the lowest first: nothing of them is left.
pub fn drop_pages(s: &mut [u8], d: u32)
    requires { length s.old ≡ state_length }
    ensures { s.new ≡ drop_pages_b d s.old }
{
    for p in station_state::members(u64::from(d)) {
        drop_page(s, p);
    }
    let y = station_state::cached(s);
    le::put_u32(s, CACHED, y & !d);
}

#[tactic(auto, unfolding(crate::specs::Pages::mark_one_b))]
fn mark_one(s: &mut [u8], sets: &[u8], p: usize)
    requires { (length s.old ≡ state_length) × (set_row ≤ length sets.now) × (p < 32) }
    ensures { s.new ≡ mark_one_b sets.now s.old p }
{
    if station_state::has_bit32(station_state::cached(s), p) {
        let x = s[UNAVAILABLE + p] | sets[p];
        le::put_u8(s, UNAVAILABLE + p, x);
        return;
    }
}

// Eight pages; where the sets name nothing none is looked at.
#[tactic(auto, unfolding(station_state::specs::Runs::run))]
fn mark_group(s: &mut [u8], sets: &[u8], g: usize)
    requires { (length s.old ≡ state_length) × (set_row ≤ length sets.now) × (g < 4) }
    ensures { s.new ≡ run (mark_one_b sets.now) s.old (g * 8) 8 }
{
    if le::get_u64(sets, g * GROUP) == 0 {
        return;
    }
    for p in 0..8 {
        mark_one(s, sets, g * GROUP + p);
    }
}

// Marks the objects of these sets unavailable on the cached pages.
#[tactic(auto, unfolding(station_state::specs::Runs::run, crate::specs::Pages::mark_b))]
pub fn mark(s: &mut [u8], sets: &[u8])
    requires { (length s.old ≡ state_length) × (set_row ≤ length sets.now) }
    ensures { s.new ≡ mark_b sets.now s.old }
{
    for g in 0..4 {
        mark_group(s, sets, g);
    }
}

// The value of object o of page p when message m brings the page: the own one, if the transaction wrote it.
#[tactic(auto, unfolding(crate::specs::Pages::arrives_b))]
fn arrives(m: &[u8], s: &[u8], p: usize, o: usize) -> u64
    requires { (length s.now ≡ state_length) × (message_length ≤ length m.now) × (p < 32) × (o < 8) }
    ensures { result ≡ arrives_b m.now s.now p o }
{
    if station_state::has_bit8(station_state::written_set(s, p), o) {
        return le::get_u64(s, WRITTEN_VALUES + (p * OBJECTS + o) * VALUE_WIDTH);
    }
    le::get_u64(m, message::VALUES + o * record::VALUE)
}

#[tactic(auto, unfolding(crate::specs::Pages::arrive_to))]
fn arrive_values(s: &mut [u8], m: &[u8], p: usize)
    requires { (length s.old ≡ state_length) × (message_length ≤ length m.now) × (p < 32) }
    ensures { s.new ≡ arrive_to m.now s.old p 8 }
{
    for o in 0..8 {
        let v = arrives(m, s, p, o);
        le::put_u64(s, COPY + (p * OBJECTS + o) * VALUE_WIDTH, v);
    }
}

#[tactic(auto, unfolding(crate::specs::Pages::arrive_versions_to))]
fn arrive_versions(s: &mut [u8], m: &[u8], p: usize)
    requires { (length s.old ≡ state_length) × (message_length ≤ length m.now) × (p < 32) }
    ensures { s.new ≡ arrive_versions_to m.now s.old p 8 }
{
    for o in 0..8 {
        let v = le::get_u32(m, message::PAGE_VERSIONS + o * message::VERSION_WIDTH);
        le::put_u32(s, VERSIONS + (p * OBJECTS + o) * NUMBER_WIDTH, v);
    }
}

// Page p arrives with message m: values, versions, unavailable set.
#[tactic(auto, unfolding(crate::specs::Pages::arrive_b))]
pub fn arrive(s: &mut [u8], m: &[u8], p: usize)
    requires { (length s.old ≡ state_length) × (message_length ≤ length m.now) × (p < 32) }
    ensures { s.new ≡ arrive_b m.now p s.old }
{
    arrive_values(s, m, p);
    arrive_versions(s, m, p);
    le::put_u8(s, UNAVAILABLE + p, message::set(m));
    station_state::page_on(s, CACHED, p);
}

// Address a takes version n, if its page is cached.
#[tactic(auto, unfolding(crate::specs::Versions::version_at_b))]
fn version_at(s: &mut [u8], n: u32, a: usize)
    requires { (length s.old ≡ state_length) × (a < 256) }
    ensures { s.new ≡ version_at_b n s.old a }
{
    if station_state::has_bit32(station_state::cached(s), a / 8) {
        le::put_u32(s, VERSIONS + a * NUMBER_WIDTH, n);
        return;
    }
}

// The written addresses of eight pages, the lowest first.
fn version_group(s: &mut [u8], n: u32, g: usize)
    requires { (length s.old ≡ state_length) × (g < 4) }
    ensures { s.new ≡ run (version_if_b n) s.old (g * 64) 64 }
{
    for k in station_state::members(le::get_u64(s, WRITTEN_SET + g * GROUP)) {
        version_at(s, n, g * 64 + k);
    }
}

// Written objects of cached pages take version n.
#[tactic(auto, unfolding(station_state::specs::Runs::run, crate::specs::Pages::versions_b))]
pub fn versions(s: &mut [u8], n: u32)
    requires { length s.old ≡ state_length }
    ensures { s.new ≡ versions_b n s.old }
{
    for g in 0..4 {
        version_group(s, n, g);
    }
}
