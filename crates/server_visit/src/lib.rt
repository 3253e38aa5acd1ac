#![tactic(auto)]
// One waiter's turn in the pass: the gates, 19s, the page that is read, 20s, locks, the installation. Messages and records go where
// server_actions puts them: o, q and c go on to its functions as they are.
ghost use Rattle.std.specs.Prelude.{◌≡◌, ◌≢◌, ◌+◌, ◌-◌, ◌*◌, ◌≤◌, ◌<◌, length};
ghost use Rattle.message.specs.Kinds.{cause_code};
ghost use Rattle.server_state.specs.Layout.{server_length, whole_of, want_of, request_of, last_of};
ghost use Rattle.server_tests.specs.Tests.{fault_b, shut_out_b};
ghost use Rattle.server_tests.specs.Alone.{Alone};
ghost use Rattle.server_tests.specs.Blockers.{blockers_b};
ghost use Rattle.server_actions.specs.Posting.{from, posted, post, Room};
ghost use Rattle.server_actions.specs.Pass.{ask_b, ask_to, serve_read_b, call_one_b, call_to, call_b, call_once_b, grant_page_b, grant_object_b, grant_b, after_calls_b, proceed_b, gates_b, judge_b, ask_keepers_b, visit_b};
ghost use Rattle.server_visit.specs.Asked.{Held};
ghost use Rattle.server_visit.specs.Visits.{visit_commit_b};

use kinds::Want;
use message::{Cause, Down, LENGTH as MESSAGE};
use server_actions::Counts;
use server_state::CALLED;
use station_state::OBJECTS;

// The address that i's entry requests.
fn request(s: &[u8], i: usize) -> usize
    requires { (length s.now ≡ server_length) × (i < 8) }
    ensures { (result ≡ request_of s.now i) × (result < 256) }
{
    server_state::request(s, i) as usize
}

// The station that has locked page p whole.
fn whole_holder(s: &[u8], p: usize) -> usize
    requires { (length s.now ≡ server_length) × (p < 32) × (1 ≤ whole_of s.now p) × (whole_of s.now p ≤ 8) }
    ensures { (result ≡ whole_of s.now p - 1) × (result < 8) }
{
    server_state::whole(s, p) as usize - 1
}

// 19 to the station that has locked page p whole, once; kept, only if it keeps.
fn ask(
    s: &mut [u8],
    o: &mut [u8],
    q: &mut [u8],
    c: Counts,
    i: usize,
    p: usize,
    kept: bool,
) -> Counts
    requires { (length s.old ≡ server_length) × (i < 8) × (p < 32) × (whole_of s.old p ≤ 8) × Room o.old q.old c (ask_b kept i (from s.old) p) }
    ensures { posted s.new o.new q.new result ≡ post o.old q.old c (ask_b kept i (from s.old) p) }
{
    if server_tests::due(s, i, p, kept) {
        let h = whole_holder(s, p);
        let t = server_state::whole_for(s, p);
        let at = c.messages * MESSAGE;
        message::put_message(o, at, Down::Deescalate as u8, h as u8, p as u8, 0, t, 0, 0);
        server_changes::asked(s, p);
        return server_actions::one_more(c);
    }
    c
}

// Pages rising.
fn ask_all(s: &mut [u8], o: &mut [u8], q: &mut [u8], c: Counts, i: usize, kept: bool) -> Counts
    requires { (length s.old ≡ server_length) × (i < 8) × Held s.old × Room o.old q.old c (ask_to kept i (from s.old) 32) }
    ensures { posted s.new o.new q.new result ≡ post o.old q.old c (ask_to kept i (from s.old) 32) }
{
    let mut b = c;
    for p in 0..32 {
        let e = ask(s, o, q, b, i, p, kept);
        b = e;
    }
    b
}

// The page that i reads is sent, and its entry goes.
fn serve_read(s: &mut [u8], o: &mut [u8], q: &mut [u8], c: Counts, i: usize) -> Counts
    requires { (length s.old ≡ server_length) × (i < 8) × Room o.old q.old c (serve_read_b i (from s.old)) }
    ensures { posted s.new o.new q.new result ≡ post o.old q.old c (serve_read_b i (from s.old)) }
{
    let a = request(s, i);
    let u = server_tests::unavailable(s, i, a);
    server_changes::leave(s, i);
    server_actions::send_page(s, o, q, c, Down::Page as u8, i, a, u)
}

// 20 to station j, if it is in d.
fn call_one(s: &[u8], o: &mut [u8], q: &mut [u8], c: Counts, i: usize, d: u8, j: usize) -> Counts
    requires { (length s.now ≡ server_length) × (i < 8) × (j < 8) × Room o.old q.old c (call_one_b i d s.now (from s.now) j) }
    ensures { posted s.now o.new q.new result ≡ post o.old q.old c (call_one_b i d s.now (from s.now) j) }
{
    if station_state::has_bit8(d, j) {
        server_actions::put_callback(o, c.messages * MESSAGE, s, j, i);
        return server_actions::one_more(c);
    }
    c
}

// Stations rising.
fn call_all(s: &[u8], o: &mut [u8], q: &mut [u8], c: Counts, i: usize, d: u8) -> Counts
    requires { (length s.now ≡ server_length) × (i < 8) × Room o.old q.old c (call_to i d s.now (from s.now) 8) }
    ensures { posted s.now o.new q.new result ≡ post o.old q.old c (call_to i d s.now (from s.now) 8) }
{
    let mut b = c;
    for j in 0..8 {
        let e = call_one(s, o, q, b, i, d, j);
        b = e;
    }
    b
}

// i's 20s go out, and its entry says to whom.
fn call(s: &mut [u8], o: &mut [u8], q: &mut [u8], c: Counts, i: usize) -> Counts
    requires { (length s.old ≡ server_length) × (i < 8) × Room o.old q.old c (call_b i (from s.old)) }
    ensures { posted s.new o.new q.new result ≡ post o.old q.old c (call_b i (from s.old)) }
{
    let d = server_sets::concerned_set(s, i);
    let b = call_all(s, o, q, c, i, d);
    server_changes::called(s, i, d);
    b
}

#[tactic(auto, unfolding(server_actions::specs::Pass::call_once_b))]
fn call_once(s: &mut [u8], o: &mut [u8], q: &mut [u8], c: Counts, i: usize) -> Counts
    requires { (length s.old ≡ server_length) × (i < 8) × Room o.old q.old c (call_once_b i (from s.old)) }
    ensures { posted s.new o.new q.new result ≡ post o.old q.old c (call_once_b i (from s.old)) }
{
    if s[CALLED + i] == 0 {
        return call(s, o, q, c, i);
    }
    c
}

fn grant_page(s: &mut [u8], o: &mut [u8], q: &mut [u8], c: Counts, i: usize) -> Counts
    requires { (length s.old ≡ server_length) × (i < 8) × Room o.old q.old c (grant_page_b i (from s.old)) }
    ensures { posted s.new o.new q.new result ≡ post o.old q.old c (grant_page_b i (from s.old)) }
{
    let a = request(s, i);
    let u = server_tests::unavailable(s, i, a);
    server_changes::leave(s, i);
    server_changes::lock_page(s, i, a / OBJECTS);
    server_actions::send_page(s, o, q, c, Down::LockedPage as u8, i, a, u)
}

fn grant_object(s: &mut [u8], o: &mut [u8], q: &mut [u8], c: Counts, i: usize) -> Counts
    requires { (length s.old ≡ server_length) × (i < 8) × Room o.old q.old c (grant_object_b i (from s.old)) }
    ensures { posted s.new o.new q.new result ≡ post o.old q.old c (grant_object_b i (from s.old)) }
{
    let a = request(s, i);
    let u = server_tests::unavailable(s, i, a);
    let x = server_state::written_set(s, i, a / OBJECTS);
    server_changes::leave(s, i);
    server_changes::lock_set(s, i, a / OBJECTS, x);
    server_actions::send_page(s, o, q, c, Down::LockedObjects as u8, i, a, u)
}

// The whole page is locked if nobody is in the way there, else the objects of the request.
fn grant(s: &mut [u8], o: &mut [u8], q: &mut [u8], c: Counts, i: usize) -> Counts
    requires { (length s.old ≡ server_length) × (i < 8) × Room o.old q.old c (grant_b i (from s.old)) }
    ensures { posted s.new o.new q.new result ≡ post o.old q.old c (grant_b i (from s.old)) }
{
    if server_sets::hindered(s, i, request(s, i) / OBJECTS) {
        return grant_object(s, o, q, c, i);
    }
    grant_page(s, o, q, c, i)
}

// When nobody owes i a 7, its write is granted, or its commit installed.
fn after_calls(s: &mut [u8], o: &mut [u8], q: &mut [u8], c: Counts, i: usize, w: u8) -> Counts
    requires { (length s.old ≡ server_length) × (i < 8) × (w ≢ 2 → last_of s.old < 4294967295) × Room o.old q.old c (after_calls_b w i (from s.old)) }
    ensures { posted s.new o.new q.new result ≡ post o.old q.old c (after_calls_b w i (from s.old)) }
{
    if server_state::pend(s, i) != 0 {
        return c;
    }
    if w == Want::Write as u8 {
        return grant(s, o, q, c, i);
    }
    server_actions::install(s, o, q, c, i)
}

// Nothing is in i's way: w is what it wants, the number of a `kinds::Want`.
fn proceed(s: &mut [u8], o: &mut [u8], q: &mut [u8], c: Counts, i: usize, w: u8) -> Counts
    requires { (length s.old ≡ server_length) × (i < 8) × (w ≢ 1 → w ≢ 2 → last_of s.old < 4294967295) × Room o.old q.old c (proceed_b w i (from s.old)) }
    ensures { posted s.new o.new q.new result ≡ post o.old q.old c (proceed_b w i (from s.old)) }
{
    if w == Want::Read as u8 {
        return serve_read(s, o, q, c, i);
    }
    let b = call_once(s, o, q, c, i);
    after_calls(s, o, q, b, i, w)
}

// Nobody blocks i. x is whether a page that it wants is another's whole.
fn gates(s: &mut [u8], o: &mut [u8], q: &mut [u8], c: Counts, i: usize, w: u8, x: bool) -> Counts
    requires { (length s.old ≡ server_length) × (i < 8) × Held s.old × (blockers_b s.old i ≡ 0) × (x ≡ shut_out_b s.old i) × (w ≢ 1 → w ≢ 2 → last_of s.old < 4294967295) × Room o.old q.old c (gates_b w i (from s.old)) }
    ensures { posted s.new o.new q.new result ≡ post o.old q.old c (gates_b w i (from s.old)) }
{
    if x {
        return ask_all(s, o, q, c, i, false);
    }
    proceed(s, o, q, c, i, w)
}

// 19s to keeping holders. Where nothing that i wants is locked whole by another there are none.
#[tactic(auto, unfolding(server_actions::specs::Pass::ask_keepers_b))]
fn ask_keepers(s: &mut [u8], o: &mut [u8], q: &mut [u8], c: Counts, i: usize, x: bool) -> Counts
    requires { (length s.old ≡ server_length) × (i < 8) × Held s.old × (x ≡ shut_out_b s.old i) × Room o.old q.old c (ask_keepers_b i (from s.old)) }
    ensures { posted s.new o.new q.new result ≡ post o.old q.old c (ask_keepers_b i (from s.old)) }
{
    if x {
        return ask_all(s, o, q, c, i, true);
    }
    c
}

// A commit without a fault goes on unless somebody blocks it.
fn judge(s: &mut [u8], o: &mut [u8], q: &mut [u8], c: Counts, i: usize, b: u8, x: bool) -> Counts
    requires { (length s.old ≡ server_length) × (i < 8) × Held s.old × (b ≡ blockers_b s.old i) × (x ≡ shut_out_b s.old i) × (0 ≡ fault_b s.old i) × Room o.old q.old c (judge_b i (from s.old)) }
    ensures { posted s.new o.new q.new result ≡ post o.old q.old c (judge_b i (from s.old)) }
{
    if b == 0 {
        return gates(s, o, q, c, i, Want::Commit as u8, x);
    }
    c
}

// A commit that cannot be installed any more is aborted; cause is its fault. 19s to keeping holders go ahead of `Locked`, not of the others.
fn fail(
    s: &mut [u8],
    o: &mut [u8],
    q: &mut [u8],
    c: Counts,
    i: usize,
    x: bool,
    cause: Cause,
) -> Counts
    requires { (length s.old ≡ server_length) × (i < 8) × Held s.old × (x ≡ shut_out_b s.old i) × (cause_code cause ≡ fault_b s.old i) × Room o.old q.old c (visit_commit_b i (from s.old)) }
    ensures { posted s.new o.new q.new result ≡ post o.old q.old c (visit_commit_b i (from s.old)) }
{
    if cause == Cause::Locked {
        let d = ask_keepers(s, o, q, c, i, x);
        return server_actions::abort(s, o, q, d, i, cause as u8);
    }
    server_actions::abort(s, o, q, c, i, cause as u8)
}

// A commit's turn. p is the page that has all that it wants, 32 for none.
fn visit_commit(
    s: &mut [u8],
    o: &mut [u8],
    q: &mut [u8],
    c: Counts,
    i: usize,
    b: u8,
    x: bool,
    p: usize,
) -> Counts
    requires { (length s.old ≡ server_length) × (i < 8) × Held s.old × (b ≡ blockers_b s.old i) × (x ≡ shut_out_b s.old i) × Room o.old q.old c (visit_commit_b i (from s.old)) × Alone s.old i p }
    ensures { posted s.new o.new q.new result ≡ post o.old q.old c (visit_commit_b i (from s.old)) }
{
    if let Some(cause) = server_tests::fault(s, i, p) {
        return fail(s, o, q, c, i, x, cause);
    }
    let d = ask_keepers(s, o, q, c, i, x);
    judge(s, o, q, d, i, b, x)
}

// A request's turn, of a read or a write.
fn visit_request(
    s: &mut [u8],
    o: &mut [u8],
    q: &mut [u8],
    c: Counts,
    i: usize,
    w: u8,
    b: u8,
    x: bool,
) -> Counts
    requires { (length s.old ≡ server_length) × (i < 8) × Held s.old × (b ≡ blockers_b s.old i) × (x ≡ shut_out_b s.old i) × (1 ≤ w) × (w ≤ 2) × Room o.old q.old c (gates_b w i (ask_keepers_b i (from s.old))) }
    ensures { posted s.new o.new q.new result ≡ post o.old q.old c (gates_b w i (ask_keepers_b i (from s.old))) }
{
    let d = ask_keepers(s, o, q, c, i, x);
    if b != 0 {
        return d;
    }
    gates(s, o, q, d, i, w, x)
}

// Station i's turn, if it waits. b is who blocks it, x whether a page that it wants is another's whole, p the page that has
// all that it wants, 32 for none: the pass asks for them once.
pub fn visit(
    s: &mut [u8],
    o: &mut [u8],
    q: &mut [u8],
    c: Counts,
    i: usize,
    b: u8,
    x: bool,
    p: usize,
) -> Counts
    requires { (length s.old ≡ server_length) × (i < 8) × Held s.old × (want_of s.old i ≤ 3) × (b ≡ blockers_b s.old i) × (x ≡ shut_out_b s.old i) × Room o.old q.old c (visit_b i (from s.old)) × Alone s.old i p }
    ensures { posted s.new o.new q.new result ≡ post o.old q.old c (visit_b i (from s.old)) }
{
    let w = server_state::want(s, i);
    if w == Want::Nothing as u8 {
        return c;
    }
    if w == Want::Commit as u8 {
        return visit_commit(s, o, q, c, i, b, x, p);
    }
    visit_request(s, o, q, c, i, w, b, x)
}
