#![tactic(auto)]
// Sets of stations, a bit for each: who is listed, who locks, whom a waiter waits for. Who gets 20, who gets 23 and what hinders a
// whole lock are tests of these bits.
ghost use Rattle.std.specs.Prelude.{◌≡◌, cond, ◌^◌, ◌<◌, length};
ghost use Rattle.server_state.specs.Layout.{server_length};
ghost use Rattle.server_tests.specs.Tests.{concerned_set, hindered_b, written_page_b, written_pages_b, edge_set};
ghost use Rattle.server_tests.specs.Blockers.{blockers_b};
ghost use Rattle.server_sets.specs.Sets.{listed_b, listed_set, locking_set, any_lock_b, lock_set, writer_set, informed_set};

use kinds::Want;
use server_state::{LISTED, STATIONS};
use station_state::PAGE_SET_WIDTH;

#[tactic(auto, unfolding(crate::specs::Sets::listed_b))]
fn listed(s: &[u8], d: u32, j: usize) -> bool
    requires { (length s.now ≡ server_length) × (j < 8) }
    ensures { result ≡ listed_b s.now d j }
{
    le::get_u32(s, LISTED + j * PAGE_SET_WIDTH) & d != 0
}

// The stations listed for one of the pages d.
fn listed_set(s: &[u8], d: u32) -> u8
    requires { length s.now ≡ server_length }
    ensures { result ≡ listed_set s.now d }
{
    server_tests::set_of(STATIONS, |j| listed(s, d, j))
}

// The locking stations.
fn locking_set(s: &[u8]) -> u8
    requires { length s.now ≡ server_length }
    ensures { result ≡ locking_set s.now }
{
    server_tests::set_of(STATIONS, |j| server_state::locking(s, j))
}

// Whether somebody has a lock on page p, whole or on an object.
#[tactic(auto, unfolding(crate::specs::Sets::any_lock_b))]
fn any_lock(s: &[u8], p: usize) -> bool
    requires { (length s.now ≡ server_length) × (p < 32) }
    ensures { result ≡ any_lock_b s.now p }
{
    (server_state::locks_on(s, p) != 0) | (server_state::whole(s, p) != 0)
}

// The stations with a lock on page p. A page without locks is seen at once.
fn lock_set(s: &[u8], p: usize) -> u8
    requires { (length s.now ≡ server_length) × (p < 32) }
    ensures { result ≡ lock_set s.now p }
{
    if !any_lock(s, p) {
        return 0;
    }
    server_tests::set_of(STATIONS, |j| server_tests::lock_on(s, j, p))
}

#[tactic(auto, unfolding(server_tests::specs::Tests::written_page_b))]
fn written_page(s: &[u8], i: usize, p: usize) -> bool
    requires { (length s.now ≡ server_length) × (i < 8) × (p < 32) }
    ensures { result ≡ written_page_b s.now i p }
{
    server_state::written_set(s, i, p) != 0
}

// The stations that wait to write on page p.
fn writer_set(s: &[u8], p: usize) -> u8
    requires { (length s.now ≡ server_length) × (p < 32) }
    ensures { result ≡ writer_set s.now p }
{
    server_tests::set_of(STATIONS, |j| written_page(s, j, p))
}

fn page_if(yes: bool, p: usize) -> u32
    requires { p < 32 }
    ensures { result ≡ cond yes (2 ^ p) 0 }
{
    if yes {
        return station_state::bit32(p);
    }
    0
}

// The pages that i's entry writes.
#[tactic(auto, unfolding(cells::specs::Loops::mask_to, server_tests::specs::Tests::written_pages_b))]
pub fn written_pages(s: &[u8], i: usize) -> u32
    requires { (length s.now ≡ server_length) × (i < 8) }
    ensures { result ≡ written_pages_b s.now i }
{
    let mut d: u32 = 0;
    for p in 0..32 {
        d |= page_if(written_page(s, i, p), p);
    }
    d
}

// The stations that i's 20s go to: other locking ones, listed for a page that i is to write. Where none locks nothing is looked at.
pub fn concerned_set(s: &[u8], i: usize) -> u8
    requires { (length s.now ≡ server_length) × (i < 8) }
    ensures { result ≡ concerned_set s.now i }
{
    let l = locking_set(s);
    if l == 0 {
        return 0;
    }
    l & listed_set(s, written_pages(s, i)) & !station_state::bit8(i)
}

// The stations that 23 goes to when i has written the pages d: other validating ones, listed for one of them.
pub fn informed_set(s: &[u8], i: usize, d: u32) -> u8
    requires { (length s.now ≡ server_length) × (i < 8) }
    ensures { result ≡ informed_set s.now i d }
{
    !locking_set(s) & listed_set(s, d) & !station_state::bit8(i)
}

// Whether i cannot have page p whole: another locking station is listed there, or another has a lock there or waits to write there.
pub fn hindered(s: &[u8], i: usize, p: usize) -> bool
    requires { (length s.now ≡ server_length) × (i < 8) × (p < 32) }
    ensures { result ≡ hindered_b s.now i p }
{
    let listed = locking_set(s) & listed_set(s, station_state::bit32(p));
    (listed | lock_set(s, p) | writer_set(s, p)) & !station_state::bit8(i) != 0
}

// The stations that i waits for, if b is who blocks it.
pub fn edges_by(s: &[u8], i: usize, b: u8) -> u8
    requires { (length s.now ≡ server_length) × (i < 8) × (b ≡ blockers_b s.now i) }
    ensures { result ≡ edge_set s.now i }
{
    if server_state::want(s, i) == Want::Nothing as u8 {
        return 0;
    }
    server_state::busy(s, i) | b
}

// A station that does not wait costs one test.
pub fn edge_set(s: &[u8], i: usize) -> u8
    requires { (length s.now ≡ server_length) × (i < 8) }
    ensures { result ≡ edge_set s.now i }
{
    if server_state::want(s, i) == Want::Nothing as u8 {
        return 0;
    }
    edges_by(s, i, server_tests::blockers(s, i))
}
