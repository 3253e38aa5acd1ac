#![tactic(auto)]
// The pass over the waiting list in order, and rounds of it until nothing changes.
ghost use Rattle.std.specs.Prelude.{◌≡◌, ◌<◌, length};
ghost use Rattle.server_actions.specs.Pass.{settle_b};
ghost use Rattle.server_actions.specs.Posting.{from, posted, post, Room};
ghost use Rattle.server_pass.specs.Sane.{Sane};
ghost use Rattle.server_pass.specs.Seats.{turn_b, pass_to};
ghost use Rattle.server_order.specs.Known.{Known};
ghost use Rattle.server_pass.specs.Edges.{noted_b, Noted};
ghost use Rattle.server_pass.specs.Rounds.{passed_b, broken_b, round_b};
ghost use Rattle.server_state.specs.Layout.{server_length};

use message::Cause;
use server_actions::Counts;
use server_state::{STATIONS, WANT};

// The turn of station i, if there is such a station. Who blocks it and what shuts it out is asked for once, and e takes the edges that
// leave it.
fn turn(s: &mut [u8], o: &mut [u8], q: &mut [u8], c: Counts, e: &mut [u8], i: u8) -> Counts
    requires { (length s.old ≡ server_length) × (length e.old ≡ 8) × Sane s.old × Room o.old q.old c (turn_b i (from s.old)) }
    ensures { (posted s.new o.new q.new result ≡ post o.old q.old c (turn_b i (from s.old))) × (e.new ≡ noted_b i s.old e.old) }
{
    if i < 8 {
        let k = i as usize;
        let p = server_tests::page_alone(s, k);
        let b = server_tests::blockers_by(s, k, p);
        let x = server_tests::shut_out_by(s, k, p);
        let d = server_sets::edges_by(s, k, b);
        le::put_u8(e, k, d);
        return server_visit::visit(s, o, q, c, k, b, x, p);
    }
    c
}

fn pass_places(
    s: &mut [u8],
    o: &mut [u8],
    q: &mut [u8],
    c: Counts,
    e: &mut [u8],
    l: &[u8; STATIONS],
) -> Counts
    requires { (length s.old ≡ server_length) × Known s.old e.old × Sane s.old × Room o.old q.old c (pass_to l.now (from s.old) 8) }
    ensures { (posted s.new o.new q.new result ≡ post o.old q.old c (pass_to l.now (from s.old) 8)) × Noted s.old (pass_to l.now (from s.old) 8) e.new }
{
    let mut b = c;
    for n in 0..8 {
        let d = turn(s, o, q, b, e, l[n]);
        b = d;
    }
    b
}

// Every waiter's turn, in the order that the list has at the start. e takes the edges that were met.
fn pass(s: &mut [u8], o: &mut [u8], q: &mut [u8], c: Counts, e: &mut [u8]) -> Counts
    requires { (length s.old ≡ server_length) × Known s.old e.old × Sane s.old × Room o.old q.old c (passed_b (from s.old)) }
    ensures { (posted s.new o.new q.new result ≡ post o.old q.old c (passed_b (from s.old))) × Noted s.old (passed_b (from s.old)) e.new }
{
    let l = server_queue::order(s);
    pass_places(s, o, q, c, e, &l)
}

// The youngest on a cycle of waits-for edges, if there is a cycle, is aborted. e has the edges that are known.
fn break_cycle(s: &mut [u8], o: &mut [u8], q: &mut [u8], c: Counts, e: &[u8]) -> Counts
    requires { (length s.old ≡ server_length) × Known s.old e.now × Room o.old q.old c (broken_b (from s.old)) }
    ensures { posted s.new o.new q.new result ≡ post o.old q.old c (broken_b (from s.old)) }
{
    match server_order::victim(s, e) {
        Some(v) => server_actions::abort(s, o, q, c, v, Cause::Deadlock as u8),
        None => c,
    }
}

// A pass; where it rests it changed nothing, and the cycle is looked for in the edges that it met.
fn round_of_waiters(s: &mut [u8], o: &mut [u8], q: &mut [u8], c: Counts) -> Counts
    requires { (length s.old ≡ server_length) × Sane s.old × Room o.old q.old c (round_b (from s.old)) }
    ensures { posted s.new o.new q.new result ≡ post o.old q.old c (round_b (from s.old)) }
{
    let mut e = [server_order::UNKNOWN; STATIONS];
    let b = pass(s, o, q, c, &mut e);
    if b.messages != c.messages {
        return b;
    }
    break_cycle(s, o, q, b, &e)
}

// A round. Where nobody waits it changes nothing.
fn round(s: &mut [u8], o: &mut [u8], q: &mut [u8], c: Counts) -> Counts
    requires { (length s.old ≡ server_length) × Sane s.old × Room o.old q.old c (round_b (from s.old)) }
    ensures { posted s.new o.new q.new result ≡ post o.old q.old c (round_b (from s.old)) }
{
    if le::get_u64(s, WANT) == 0 {
        return c;
    }
    round_of_waiters(s, o, q, c)
}

// Rounds until one sends nothing. That they end is proved, not counted: a `for` would have to count them.
pub fn settle(s: &mut [u8], o: &mut [u8], q: &mut [u8], c: Counts) -> Counts
    requires { (length s.old ≡ server_length) × Sane s.old × Room o.old q.old c (settle_b 64 (from s.old)) }
    ensures { posted s.new o.new q.new result ≡ post o.old q.old c (settle_b 64 (from s.old)) }
{
    let mut b = c;
    let mut going = true;
    while going {
        let e = round(s, o, q, b);
        going = e.messages != b.messages;
        b = e;
    }
    b
}
