#![tactic(auto)]
// The server's actions. What is sent goes behind the messages in o, what is archived behind the records in q, and the answer says how
// much stands there then. There is room for all of it: the step's bounds (crate line) are those of every valid state. o, q and c stay three arguments: the
// functions that other crates call take them so, and one struct of them would be put together and taken apart at each such call.
ghost use Rattle.std.specs.Prelude.{◌≡◌, ◌+◌, ◌*◌, ◌≤◌, ◌<◌, length, take, drop};
ghost use Rattle.std.proofs.lemmas.List.Edits.{sets};
ghost use Rattle.message.specs.Layout.{message_length};
ghost use Rattle.server_state.specs.Layout.{server_length, set_row, last_of};
ghost use Rattle.server_actions.specs.Actions.{page_b, callback_b, record_b, send_page_b, abort_b, inform_to, install_b};
ghost use Rattle.server_actions.specs.Posting.{from as posting_from, counts, posted, post, Room};
ghost use Rattle.server_actions.specs.Parts.{installed_b};
ghost use Rattle.server_actions.specs.Informs.{inform_one_b};

use message::{Down, LENGTH as MESSAGE};
use server_state::{
    PAGE_ROW, PAGE_VERSION_ROW, READ_SET, READ_VALUE, VALUE, VALUE_ROW, VERSION, WRITTEN_SET,
    WRITTEN_VALUE,
};
use station_state::SET_ROW;

// The bytes of a word, and the words of what is copied.
const WORD: usize = 8;

const SET_WORDS: usize = SET_ROW / WORD;

const PAGE_WORDS: usize = PAGE_ROW / WORD;

const PAGE_VERSION_WORDS: usize = PAGE_VERSION_ROW / WORD;

// How many messages stand in o, and how many bytes of records in q.
#[derive(Clone, Copy)]
pub struct Counts {
    pub messages: usize,
    pub records: usize,
}

// One message more stands in o.
pub fn one_more(c: Counts) -> Counts
    requires { c.messages < 9223372036854775808 }
    ensures { result ≡ counts (c.messages + 1) c.records }
{
    Counts {
        messages: c.messages + 1,
        records: c.records,
    }
}

// The words of s from `from` go to o, from `at` on. A copy of bytes whose count is known would be compiled to single bytes.
fn copy_in(o: &mut [u8], at: usize, s: &[u8], from: usize, words: usize)
    requires { (at + words * 8 ≤ length o.old) × (from + words * 8 ≤ length s.now) }
    ensures { o.new ≡ sets o.old at (take (words * 8) (drop from s.now)) }
{
    for k in 0..words {
        let v = le::get_u64(s, from + k * WORD);
        le::put_u64(o, at + k * WORD, v);
    }
}

// 16, 17 or 18 with the page of address a.
fn put_page(o: &mut [u8], at: usize, s: &[u8], kind: u8, i: usize, a: usize, u: u8)
    requires { (length s.now ≡ server_length) × (i < 8) × (a < 256) × (at + message_length ≤ length o.old) }
    ensures { o.new ≡ sets o.old at (page_b kind i a u s.now) }
{
    let p = a / 8;
    let t = server_state::latest(s, i);
    message::put_message(o, at, kind, i as u8, p as u8, (a % 8) as u8, t, 0, 0);
    le::put_u8(o, at + message::SETS, u);
    copy_in(o, at + message::VALUES, s, VALUE + p * PAGE_ROW, PAGE_WORDS);
    copy_in(
        o,
        at + message::PAGE_VERSIONS,
        s,
        VERSION + p * PAGE_VERSION_ROW,
        PAGE_VERSION_WORDS,
    );
}

// 20 to station j, with what i's entry writes.
pub fn put_callback(o: &mut [u8], at: usize, s: &[u8], j: usize, i: usize)
    requires { (length s.now ≡ server_length) × (j < 8) × (i < 8) × (at + message_length ≤ length o.old) }
    ensures { o.new ≡ sets o.old at (callback_b j i s.now) }
{
    let t = server_state::latest(s, i);
    message::put_message(o, at, Down::Callback as u8, j as u8, i as u8, 0, t, 0, 0);
    copy_in(
        o,
        at + message::SETS,
        s,
        WRITTEN_SET + i * SET_ROW,
        SET_WORDS,
    );
}

// Sends the page of address a to station i, which is listed for it from now on.
pub fn send_page(
    s: &mut [u8],
    o: &mut [u8],
    q: &mut [u8],
    c: Counts,
    kind: u8,
    i: usize,
    a: usize,
    u: u8,
) -> Counts
    requires { (length s.old ≡ server_length) × (i < 8) × (a < 256) × Room o.old q.old c (send_page_b kind i a u (posting_from s.old)) }
    ensures { posted s.new o.new q.new result ≡ post o.old q.old c (send_page_b kind i a u (posting_from s.old)) }
{
    put_page(o, c.messages * MESSAGE, s, kind, i, a, u);
    server_changes::list(s, i, a / 8);
    one_more(c)
}

// Station i's transaction is aborted: its locks and its entry go, and it gets 22. For cause 1 the station keeps its age.
pub fn abort(s: &mut [u8], o: &mut [u8], q: &mut [u8], c: Counts, i: usize, cause: u8) -> Counts
    requires { (length s.old ≡ server_length) × (i < 8) × Room o.old q.old c (abort_b i cause (posting_from s.old)) }
    ensures { posted s.new o.new q.new result ≡ post o.old q.old c (abort_b i cause (posting_from s.old)) }
{
    server_changes::leave(s, i);
    server_changes::finish(s, i, server_changes::keeps_age(cause));
    let t = server_state::latest(s, i);
    let at = c.messages * MESSAGE;
    message::put_message(o, at, Down::Aborted as u8, i as u8, 0, cause, t, 0, 0);
    one_more(c)
}

// 23 with the object sets y to station j, if it is in w.
fn inform(s: &mut [u8], o: &mut [u8], q: &mut [u8], c: Counts, w: u8, y: &[u8], j: usize) -> Counts
    requires { (length s.old ≡ server_length) × (length y.now ≡ set_row) × (j < 8) × Room o.old q.old c (inform_one_b w y.now (posting_from s.old) j) }
    ensures { posted s.new o.new q.new result ≡ post o.old q.old c (inform_one_b w y.now (posting_from s.old) j) }
{
    if station_state::has_bit8(w, j) {
        message::put_message(
            o,
            c.messages * MESSAGE,
            Down::Invalidate as u8,
            j as u8,
            0,
            0,
            0,
            0,
            0,
        );
        copy_in(o, c.messages * MESSAGE + message::SETS, y, 0, SET_WORDS);
        return one_more(c);
    }
    c
}

// Other validating stations listed for one of the pages d get 23 with the object sets y, stations rising.
fn inform_all(
    s: &mut [u8],
    o: &mut [u8],
    q: &mut [u8],
    c: Counts,
    i: usize,
    d: u32,
    y: &[u8],
) -> Counts
    requires { (length s.old ≡ server_length) × (length y.now ≡ set_row) × (i < 8) × Room o.old q.old c (inform_to i d y.now (posting_from s.old) 8) }
    ensures { posted s.new o.new q.new result ≡ post o.old q.old c (inform_to i d y.now (posting_from s.old) 8) }
{
    let w = server_sets::informed_set(s, i, d);
    let mut b = c;
    for j in 0..8 {
        let e = inform(s, o, q, b, w, y, j);
        b = e;
    }
    b
}

// The record of i's entry, with the last commit number.
fn archive(s: &[u8], q: &mut [u8], c: Counts, i: usize) -> Counts
    requires { (length s.now ≡ server_length) × (i < 8) × (c.records + length (record_b i s.now) ≤ length q.old) }
    ensures { (q.new ≡ sets q.old c.records (record_b i s.now)) × (result ≡ counts c.messages (c.records + length (record_b i s.now))) }
{
    let n = server_state::last(s);
    let t = server_state::work(s, i);
    let kind = u32::from(server_state::kind(s, i));
    let k = set_record::put_record(
        s,
        q,
        c.records,
        READ_SET + i * SET_ROW,
        READ_VALUE + i * VALUE_ROW,
        WRITTEN_SET + i * SET_ROW,
        WRITTEN_VALUE + i * VALUE_ROW,
        n,
        t,
        i as u32,
        kind,
    );
    Counts {
        messages: c.messages,
        records: c.records + k,
    }
}

// What i's entry writes is written and archived; its locks and the entry go, and it gets 21.
fn put_installed(s: &mut [u8], o: &mut [u8], q: &mut [u8], c: Counts, i: usize) -> Counts
    requires { (length s.old ≡ server_length) × (i < 8) × (last_of s.old < 4294967295) × Room o.old q.old c (installed_b i (posting_from s.old)) }
    ensures { posted s.new o.new q.new result ≡ post o.old q.old c (installed_b i (posting_from s.old)) }
{
    let t = server_state::work(s, i);
    server_changes::write(s, i);
    let e = archive(s, q, c, i);
    server_changes::leave(s, i);
    server_changes::finish(s, i, 0);
    let n = server_state::last(s);
    message::put_message(
        o,
        e.messages * MESSAGE,
        Down::Committed as u8,
        i as u8,
        0,
        0,
        t,
        0,
        n,
    );
    one_more(e)
}

// Installs i's entry; other validating stations listed for a written page get 23 with all that it wrote.
pub fn install(s: &mut [u8], o: &mut [u8], q: &mut [u8], c: Counts, i: usize) -> Counts
    requires { (length s.old ≡ server_length) × (i < 8) × (last_of s.old < 4294967295) × Room o.old q.old c (install_b i (posting_from s.old)) }
    ensures { posted s.new o.new q.new result ≡ post o.old q.old c (install_b i (posting_from s.old)) }
{
    let d = server_sets::written_pages(s, i);
    // the entry goes before the first 23
    let mut x = [0u8; SET_ROW];
    copy_in(&mut x, 0, s, WRITTEN_SET + i * SET_ROW, SET_WORDS);
    let b = put_installed(s, o, q, c, i);
    let y = &x[0..SET_ROW];
    inform_all(s, o, q, b, i, d, y)
}
