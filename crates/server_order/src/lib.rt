#![tactic(auto)]
// Cycles of waits-for edges, and the victim.
ghost use Rattle.std.specs.Prelude.{◌≡◌, cond, ◌≤◌, ◌<◌, length, IfSome};
ghost use Rattle.server_state.specs.Layout.{server_length};
ghost use Rattle.server_tests.specs.Tests.{edge_set};
ghost use Rattle.server_order.specs.Known.{Known};
ghost use Rattle.server_order.specs.Order.{edges_to, younger_b, youngest_to, victim_b};
ghost use Rattle.server_order.specs.Words.{edge_in, through_b};
ghost use Rattle.server_order.specs.Closure.{close_to};
ghost use Rattle.server_order.specs.Cycles.{closure_b};
ghost use Rattle.server_order.specs.Victims.{station_in};

use kinds::Want;
use server_state::STATIONS;

// In place of an edge set that was not asked for.
pub const UNKNOWN: u8 = 255;
// A bit for each of the eight edge sets in a word, the lowest.
const ONES: u64 = 72340172838076673;
// Each station's bit in its own edge set.
const DIAGONAL: u64 = 9241421688590303745;

// The edges that leave station i: those in d, or asked for where d has none.
fn edge_of(s: &[u8], d: &[u8], i: usize) -> u8
    requires { (length s.now ≡ server_length) × Known s.now d.now × (i < 8) }
    ensures { result ≡ edge_set s.now i }
{
    if d[i] == UNKNOWN {
        return server_sets::edge_set(s, i);
    }
    d[i]
}

// The edges that leave each station.
#[tactic(auto, unfolding(crate::specs::Order::edges_to))]
fn edges(s: &[u8], d: &[u8]) -> [u8; STATIONS]
    requires { (length s.now ≡ server_length) × Known s.now d.now }
    ensures { result ≡ edges_to s.now 8 }
{
    let mut e = [0u8; STATIONS];
    for i in 0..8 {
        e[i] = edge_of(s, d, i);
    }
    e
}

// Who leads to k leads to where k leads.
#[tactic(auto, unfolding(crate::specs::Words::through_b))]
fn through(x: u64, k: usize) -> u64
    requires { k < 8 }
    ensures { result ≡ through_b x k }
{
    x | ((x >> k) & ONES) * ((x >> (k * 8)) % 256)
}

// Where eight edge sets in a word lead, over any stations.
#[tactic(auto, unfolding(crate::specs::Closure::close_to))]
fn closed(x: u64) -> u64
    ensures { result ≡ close_to x 8 }
{
    let mut y = x;
    for k in 0..8 {
        y = through(y, k);
    }
    y
}

// Whether station i leads to itself.
fn on_cycle(w: u64, i: usize) -> bool
    requires { i < 8 }
    ensures { result ≡ edge_in w i i }
{
    (w >> (i * 9)) % 2 == 1
}

// Whether n takes the place of r, the youngest so far. w is where the edges lead.
fn younger(s: &[u8], w: u64, r: usize, n: usize) -> bool
    requires { (length s.now ≡ server_length) × (w ≡ closure_b s.now) × (r ≤ 8) × (n < 8) }
    ensures { result ≡ younger_b s.now (edges_to s.now 8) r n }
{
    (server_state::want(s, n) != Want::Nothing as u8)
        & on_cycle(w, n)
        & ((r == 8) | (server_state::age(s, r) < server_state::age(s, n)))
}

fn younger_of(s: &[u8], w: u64, r: usize, n: usize) -> usize
    requires { (length s.now ≡ server_length) × (w ≡ closure_b s.now) × (r ≤ 8) × (n < 8) }
    ensures { (result ≡ cond (younger_b s.now (edges_to s.now 8) r n) n r) × (result ≤ 8) }
{
    if younger(s, w, r, n) {
        return n;
    }
    r
}

// 8 for nobody, whose age may be asked for: so no station on the way costs a test more.
fn youngest(s: &[u8], w: u64) -> usize
    requires { (length s.now ≡ server_length) × (w ≡ closure_b s.now) }
    ensures { (result ≡ youngest_to s.now (edges_to s.now 8) 8) × (result ≤ 8) }
{
    let mut r: usize = 8;
    for n in 0..8 {
        r = younger_of(s, w, r, n);
    }
    r
}

// The youngest waiter on a cycle of edges. d has the edges that are known.
pub fn victim(s: &[u8], d: &[u8]) -> Option<usize>
    requires { (length s.now ≡ server_length) × Known s.now d.now }
    ensures station { station_in result ≡ victim_b s.now }
    ensures below { IfSome result (λ v. v < 8) }
{
    let e = edges(s, d);
    let w = closed(le::get_u64(&e, 0));
    if w & DIAGONAL == 0 {
        return None;
    }
    let v = youngest(s, w);
    if v < STATIONS { Some(v) } else { None }
}
