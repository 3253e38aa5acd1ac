#![tactic(auto)]
// Messages of document 01: writing one, and the numbers 2 to 5 that its bytes alone give at either end.
ghost use Rattle.std.specs.Prelude.{◌≡◌, ◌+◌, ◌*◌, ◌^◌, ◌≤◌, ◌<◌, length, replicate, cond};
ghost use Rattle.std.proofs.lemmas.List.Edits.{sets};
ghost use Rattle.message.specs.Layout.{sets_from, sets_length, behind_length, message_length, version_width, kind_of, station_of, page_of, object_of, transaction_of, pages_of, set_of, message, up_message};
ghost use Rattle.message.specs.Range.{zero_at, zeros, request_ok, commit_ok, abort_ok, purge_ok, busy_ok, done_ok_lem, written_set_ok, write_request_ok, page_message_ok, grant_ok, deescalate_ok, callback_ok, committed_ok, aborted_ok, invalidate_ok, up_fields_ok, down_fields_ok};
ghost use Rattle.layout.specs.Record.{header_length, entry_length};
ghost use Rattle.message.specs.Commit.{versions_at, shortest_commit, count_of, record_at, addresses_at, sent_reads, sent_writes, entries_of, commit_length_ok, few_ok, version_ok, pages_to, record_agrees, commit_number};
ghost use Rattle.message.specs.Number.{length_ok, up_range, down_range, down_number, kind_ok, kinds_ok, up_number};
ghost use Rattle.lists.specs.Tests.{all_to};
ghost use Rattle.message.specs.Stores.{cleared, front};
ghost use Rattle.message.specs.Kinds.{up_code, down_code, GivesUp, GivesDown};
ghost use Rattle.refusals.specs.Refusals.{code};

use lists::all_of;
use refusals::Refusal;

// Document 01, "Messages", with wish 6 of document 02, "every message is 144 bytes": where each field stands. A message starts with its kind; PAGE is also the requester's place and
// OBJECT the cause's.
pub const KIND: usize = 0;

pub const STATION: usize = KIND + 1;

pub const PAGE: usize = STATION + 1;

pub const OBJECT: usize = PAGE + 1;

pub const TRANSACTION: usize = OBJECT + 1;

pub const PAGES: usize = TRANSACTION + 4;

pub const VERSION: usize = PAGES + 4;

pub const SETS: usize = VERSION + 4;

pub const SETS_LENGTH: usize = 32;

pub const VALUES: usize = SETS + SETS_LENGTH;

pub const PAGE_VERSIONS: usize = VALUES + 8 * record::VALUE;

pub const VERSION_WIDTH: usize = 4;

pub const LENGTH: usize = PAGE_VERSIONS + 8 * VERSION_WIDTH;

// "A commit carries one version for each entry of its record, in record order", and the record stands behind them.
pub const VERSIONS: usize = LENGTH;

pub const SHORTEST_COMMIT: usize = VERSIONS + record::HEADER;

// Document 02, wish 1: "Records are then at most 880 bytes", on the way up and as the server leaves them.
pub const LONGEST_SENT: usize = record::HEADER + record::ENTRY * (2 * limits::LIMIT as usize);

// What number 1 asks of outputs: 8 messages and a commit of "at most 1,408, the station's buffer too", 128 messages and "the server's record
// buffer 7,040".
pub const STATION_ROOM: usize = 8 * LENGTH;

pub const COMMIT_ROOM: usize = VERSIONS
    + (2 * limits::LIMIT as usize) * VERSION_WIDTH
    + LONGEST_SENT;

pub const SERVER_ROOM: usize = 128 * LENGTH;

pub const RECORDS_ROOM: usize = 8 * LONGEST_SENT;

// What a station says to the server, by the kind in a message's first byte.
#[derive(Clone, Copy, PartialEq, Eq, Debug)]
pub enum Up {
    Read = 1,
    Write = 2,
    Commit = 3,
    Abort = 4,
    Purge = 5,
    Busy = 6,
    Done = 7,
    WrittenSet = 8,
}

impl TryFrom<u8> for Up {
    type Error = Refusal;

    ghost try_from_gives = { GivesUp };

    fn try_from(kind: u8) -> Result<Self, Refusal> {
        match kind {
            1 => Ok(Up::Read),
            2 => Ok(Up::Write),
            3 => Ok(Up::Commit),
            4 => Ok(Up::Abort),
            5 => Ok(Up::Purge),
            6 => Ok(Up::Busy),
            7 => Ok(Up::Done),
            8 => Ok(Up::WrittenSet),
            _ => Err(Refusal::Kind),
        }
    }
}

// What the server says to a station: a page with no lock, with locks on objects or with its whole lock, and what else there is.
#[derive(Clone, Copy, PartialEq, Eq, Debug)]
pub enum Down {
    Page = 16,
    LockedObjects = 17,
    LockedPage = 18,
    Deescalate = 19,
    Callback = 20,
    Committed = 21,
    Aborted = 22,
    Invalidate = 23,
}

impl TryFrom<u8> for Down {
    type Error = Refusal;

    ghost try_from_gives = { GivesDown };

    fn try_from(kind: u8) -> Result<Self, Refusal> {
        match kind {
            16 => Ok(Down::Page),
            17 => Ok(Down::LockedObjects),
            18 => Ok(Down::LockedPage),
            19 => Ok(Down::Deescalate),
            20 => Ok(Down::Callback),
            21 => Ok(Down::Committed),
            22 => Ok(Down::Aborted),
            23 => Ok(Down::Invalidate),
            _ => Err(Refusal::Kind),
        }
    }
}

// Why a transaction is aborted, as 22 says it.
#[derive(Clone, Copy, PartialEq, Eq, Debug)]
pub enum Cause {
    Deadlock = 1,
    // An object that it used was changed.
    Changed = 2,
    // An object that it writes is locked.
    Locked = 3,
    // No commit number is left.
    NoNumber = 4,
}

// Runs of fields that a kind may leave unnamed: page and object, the page set with or without the
// commit number, all sets but the first, and what stands from a field to the end.
const PAGE_OBJECT: usize = TRANSACTION - PAGE;

const PAGES_ALONE: usize = VERSION - PAGES;

const PAGES_VERSION: usize = SETS - PAGES;

const SECOND_SET: usize = SETS + 1;

const OTHER_SETS: usize = VALUES - SECOND_SET;

const FROM_OBJECT: usize = LENGTH - OBJECT;

const FROM_PAGES: usize = LENGTH - PAGES;

const FROM_VERSION: usize = LENGTH - VERSION;

const FROM_SETS: usize = LENGTH - SETS;

const FROM_SECOND_SET: usize = LENGTH - SECOND_SET;

const FROM_VALUES: usize = LENGTH - VALUES;

// Fields that are read in many places.
pub fn kind(m: &[u8]) -> u8
    requires { message_length ≤ length m.now }
    ensures { result ≡ kind_of m.now }
{
    m[KIND]
}

// The station on the line.
pub fn station(m: &[u8]) -> u8
    requires { message_length ≤ length m.now }
    ensures { result ≡ station_of m.now }
{
    m[STATION]
}

// The page, or the requester.
pub fn page(m: &[u8]) -> u8
    requires { message_length ≤ length m.now }
    ensures { result ≡ page_of m.now }
{
    m[PAGE]
}

// The object, or the cause.
pub fn object(m: &[u8]) -> u8
    requires { message_length ≤ length m.now }
    ensures { result ≡ object_of m.now }
{
    m[OBJECT]
}

pub fn transaction(m: &[u8]) -> u32
    requires { message_length ≤ length m.now }
    ensures { result ≡ transaction_of m.now }
{
    le::get_u32(m, TRANSACTION)
}

// The page set.
pub fn pages(m: &[u8]) -> u32
    requires { message_length ≤ length m.now }
    ensures { result ≡ pages_of m.now }
{
    le::get_u32(m, PAGES)
}

// The set of a message that has one alone.
pub fn set(m: &[u8]) -> u8
    requires { message_length ≤ length m.now }
    ensures { result ≡ set_of m.now 0 }
{
    m[SETS]
}

// Writes 0 to the n bytes from `at`.
#[tactic(auto, unfolding(crate::specs::Stores::cleared))]
fn zero(o: &mut [u8], at: usize, n: usize)
    requires { at + n ≤ length o.old }
    ensures { o.new ≡ cleared o.old at n }
{
    for i in 0..n {
        o[at + i] = 0;
    }
}

// Writes the fields of a message in front of its sets.
fn put_front(
    o: &mut [u8],
    at: usize,
    kind: u8,
    station: u8,
    page: u8,
    object: u8,
    transaction: u32,
    pages: u32,
    version: u32,
)
    requires { at + sets_from ≤ length o.old }
    ensures { o.new ≡ sets o.old at (front kind station page object transaction pages version) }
{
    le::put_u8(o, at, kind);
    le::put_u8(o, at + STATION, station);
    le::put_u8(o, at + PAGE, page);
    le::put_u8(o, at + OBJECT, object);
    le::put_u32(o, at + TRANSACTION, transaction);
    le::put_u32(o, at + PAGES, pages);
    le::put_u32(o, at + VERSION, version);
}

// Writes a message without sets and values. `page` is the requester and `object` the cause in the kinds that have those.
pub fn put_message(
    o: &mut [u8],
    at: usize,
    kind: u8,
    station: u8,
    page: u8,
    object: u8,
    transaction: u32,
    pages: u32,
    version: u32,
)
    requires { at + message_length ≤ length o.old }
    ensures { o.new ≡ sets o.old at (message kind station page object transaction pages version (replicate sets_length 0) (replicate behind_length 0)) }
{
    put_front(
        o,
        at,
        kind,
        station,
        page,
        object,
        transaction,
        pages,
        version,
    );
    zero(o, at + SETS, FROM_SETS);
}

// Writes a message of a station: no version and no values, and `set` the one set of a single page.
pub fn put_up(
    o: &mut [u8],
    at: usize,
    kind: u8,
    station: u8,
    page: u8,
    object: u8,
    transaction: u32,
    pages: u32,
    set: u8,
)
    requires { at + message_length ≤ length o.old }
    ensures { o.new ≡ sets o.old at (up_message kind station page object transaction pages set) }
{
    put_front(o, at, kind, station, page, object, transaction, pages, 0);
    le::put_u8(o, at + SETS, set);
    zero(o, at + SECOND_SET, FROM_SECOND_SET);
}

#[tactic(auto, unfolding(crate::specs::Range::zero_at))]
fn zero_at(m: &[u8], a: usize, i: usize) -> bool
    requires { a + i < length m.now }
    ensures { result ≡ zero_at m.now a i }
{
    m[a + i] == 0
}

// Whether the n bytes from a are 0.
#[tactic(auto, unfolding(crate::specs::Range::zeros))]
fn zeros(m: &[u8], a: usize, n: usize) -> bool
    requires { a + n ≤ length m.now }
    ensures { result ≡ zeros m.now a n }
{
    all_of(n, |i| zero_at(m, a, i))
}

// One function for each form: the fields that it names are in range, the others 0.
#[tactic(auto, unfolding(crate::specs::Range::request_ok))]
fn request_ok(m: &[u8]) -> bool
    requires { message_length ≤ length m.now }
    ensures { result ≡ request_ok m.now }
{
    (page(m) <= 31) & (object(m) <= 7) & (transaction(m) != 0) & zeros(m, PAGES, FROM_PAGES)
}

#[tactic(auto, unfolding(crate::specs::Range::commit_ok))]
fn commit_ok(m: &[u8]) -> bool
    requires { message_length ≤ length m.now }
    ensures { result ≡ commit_ok m.now }
{
    zeros(m, PAGE, PAGE_OBJECT) & (transaction(m) != 0) & zeros(m, VERSION, FROM_VERSION)
}

#[tactic(auto, unfolding(crate::specs::Range::abort_ok))]
fn abort_ok(m: &[u8]) -> bool
    requires { message_length ≤ length m.now }
    ensures { result ≡ abort_ok m.now }
{
    zeros(m, PAGE, PAGE_OBJECT) & (transaction(m) != 0) & zeros(m, PAGES, FROM_PAGES)
}

#[tactic(auto, unfolding(crate::specs::Range::purge_ok))]
fn purge_ok(m: &[u8]) -> bool
    requires { message_length ≤ length m.now }
    ensures { result ≡ purge_ok m.now }
{
    (page(m) <= 31) & zeros(m, OBJECT, FROM_OBJECT)
}

#[tactic(auto, unfolding(crate::specs::Range::busy_ok))]
fn busy_ok(m: &[u8]) -> bool
    requires { message_length ≤ length m.now }
    ensures { result ≡ busy_ok m.now }
{
    (page(m) <= 7) & zeros(m, OBJECT, 1) & (transaction(m) != 0) & zeros(m, PAGES, FROM_PAGES)
}

#[tactic(auto, unfolding(crate::specs::Range::done_ok_lem))]
fn done_ok(m: &[u8]) -> bool
    requires { message_length ≤ length m.now }
    ensures { result ≡ done_ok_lem m.now }
{
    (page(m) <= 7) & zeros(m, OBJECT, 1) & (transaction(m) != 0) & zeros(m, VERSION, FROM_VERSION)
}

#[tactic(auto, unfolding(crate::specs::Range::written_set_ok))]
fn written_set_ok(m: &[u8]) -> bool
    requires { message_length ≤ length m.now }
    ensures { result ≡ written_set_ok m.now }
{
    (page(m) <= 31)
        & zeros(m, OBJECT, 1)
        & (transaction(m) != 0)
        & zeros(m, PAGES, PAGES_VERSION)
        & zeros(m, SECOND_SET, FROM_SECOND_SET)
}

// The request to write: the set of what is wanted.
#[tactic(auto, unfolding(crate::specs::Range::write_request_ok))]
fn write_request_ok(m: &[u8]) -> bool
    requires { message_length ≤ length m.now }
    ensures { result ≡ write_request_ok m.now }
{
    (set(m) != 0) & written_set_ok(m)
}

#[tactic(auto, unfolding(crate::specs::Range::page_message_ok))]
fn page_message_ok(m: &[u8]) -> bool
    requires { message_length ≤ length m.now }
    ensures { result ≡ page_message_ok m.now }
{
    (page(m) <= 31)
        & (object(m) <= 7)
        & (transaction(m) != 0)
        & zeros(m, PAGES, PAGES_VERSION)
        & zeros(m, SECOND_SET, OTHER_SETS)
}

// A page with a lock names no object: the station knows what it asked for.
#[tactic(auto, unfolding(crate::specs::Range::grant_ok))]
fn grant_ok(m: &[u8]) -> bool
    requires { message_length ≤ length m.now }
    ensures { result ≡ grant_ok m.now }
{
    page_message_ok(m) & zeros(m, OBJECT, 1)
}

#[tactic(auto, unfolding(crate::specs::Range::deescalate_ok))]
fn deescalate_ok(m: &[u8]) -> bool
    requires { message_length ≤ length m.now }
    ensures { result ≡ deescalate_ok m.now }
{
    (page(m) <= 31) & zeros(m, OBJECT, 1) & (transaction(m) != 0) & zeros(m, PAGES, FROM_PAGES)
}

fn callback_ok(at: u32, m: &[u8]) -> bool
    requires { message_length ≤ length m.now }
    ensures { result ≡ callback_ok at m.now }
{
    (page(m) <= 7)
        & (u32::from(page(m)) != at)
        & zeros(m, OBJECT, 1)
        & (transaction(m) != 0)
        & zeros(m, PAGES, PAGES_VERSION)
        & zeros(m, VALUES, FROM_VALUES)
}

#[tactic(auto, unfolding(crate::specs::Range::committed_ok))]
fn committed_ok(m: &[u8]) -> bool
    requires { message_length ≤ length m.now }
    ensures { result ≡ committed_ok m.now }
{
    zeros(m, PAGE, PAGE_OBJECT)
        & (transaction(m) != 0)
        & zeros(m, PAGES, PAGES_ALONE)
        & (le::get_u32(m, VERSION) != 0)
        & zeros(m, SETS, FROM_SETS)
}

#[tactic(auto, unfolding(crate::specs::Range::aborted_ok))]
fn aborted_ok(m: &[u8]) -> bool
    requires { message_length ≤ length m.now }
    ensures { result ≡ aborted_ok m.now }
{
    zeros(m, PAGE, 1)
        & (1 <= object(m))
        & (object(m) <= 4)
        & (transaction(m) != 0)
        & zeros(m, PAGES, FROM_PAGES)
}

fn invalidate_ok(m: &[u8]) -> bool
    requires { message_length ≤ length m.now }
    ensures { result ≡ invalidate_ok m.now }
{
    (le::get_u16(m, PAGE) == 0)
        & (transaction(m) == 0)
        & (le::get_u64(m, PAGES) == 0)
        & zeros(m, VALUES, FROM_VALUES)
}

// The fields of a message to the server: an arm for each kind.
#[tactic(auto, unfolding(crate::specs::Range::up_fields_ok))]
fn up_fields(kind: Up, m: &[u8]) -> bool
    requires { (message_length ≤ length m.now) × (up_code kind ≡ kind_of m.now) }
    ensures { result ≡ up_fields_ok m.now }
{
    match kind {
        Up::Read => request_ok(m),
        Up::Write => write_request_ok(m),
        Up::Commit => commit_ok(m),
        Up::Abort => abort_ok(m),
        Up::Purge => purge_ok(m),
        Up::Busy => busy_ok(m),
        Up::Done => done_ok(m),
        Up::WrittenSet => written_set_ok(m),
    }
}

// The fields of a message to a station: an arm for each kind.
#[tactic(auto, unfolding(crate::specs::Range::down_fields_ok))]
fn down_fields(kind: Down, at: u32, m: &[u8]) -> bool
    requires { (message_length ≤ length m.now) × (down_code kind ≡ kind_of m.now) }
    ensures { result ≡ down_fields_ok at m.now }
{
    match kind {
        Down::Page => page_message_ok(m),
        Down::LockedObjects | Down::LockedPage => grant_ok(m),
        Down::Deescalate => deescalate_ok(m),
        Down::Callback => callback_ok(at, m),
        Down::Committed => committed_ok(m),
        Down::Aborted => aborted_ok(m),
        Down::Invalidate => invalidate_ok(m),
    }
}

// Number 4 where something is out of range.
fn in_range(ok: bool) -> Result<(), Refusal>
    ensures { code result ≡ cond ok 0 4 }
{
    if ok { Ok(()) } else { Err(Refusal::Range) }
}

// Numbers 3 and 4 at the server.
#[tactic(auto, unfolding(crate::specs::Number::up_range))]
fn up_range(m: &[u8]) -> Result<(), Refusal>
    requires { message_length ≤ length m.now }
    ensures { code result ≡ up_range m.now }
{
    let sent = Up::try_from(kind(m))?;
    in_range((station(m) <= 7) & up_fields(sent, m))
}

// Numbers 3 and 4 at station `at`.
#[tactic(auto, unfolding(crate::specs::Number::down_range))]
fn down_range(at: u32, m: &[u8]) -> Result<(), Refusal>
    requires { message_length ≤ length m.now }
    ensures { code result ≡ down_range at m.now }
{
    let sent = Down::try_from(kind(m))?;
    in_range((at <= 7) & (station(m) <= 7) & down_fields(sent, at, m))
}

// The kind, 0 for no bytes at all.
fn kind_of(m: &[u8]) -> u8
    ensures { result ≡ kind_of m.now }
{
    if m.len() == 0 { 0 } else { m[KIND] }
}

// How many entries a commit of this length has.
#[tactic(auto, unfolding(crate::specs::Commit::count_of))]
fn count_of(m: &[u8]) -> usize
    requires { shortest_commit ≤ length m.now }
    ensures { (result ≡ count_of m.now) × (shortest_commit + result * (version_width + entry_length) ≤ length m.now) }
{
    (m.len() - SHORTEST_COMMIT) / (VERSION_WIDTH + record::ENTRY)
}

// Where a commit's record stands.
#[tactic(auto, unfolding(crate::specs::Commit::record_at))]
pub fn record_at(m: &[u8]) -> usize
    requires { shortest_commit ≤ length m.now }
    ensures { (result ≡ record_at m.now) × (result + header_length ≤ length m.now) }
{
    VERSIONS + count_of(m) * VERSION_WIDTH
}

// How many entries of a commit are read, by its record.
pub fn sent_reads(m: &[u8]) -> usize
    requires { shortest_commit ≤ length m.now }
    ensures { (result ≡ sent_reads m.now) × (result < 65536) }
{
    le::get_u16(m, record_at(m) + record::READS) as usize
}

pub fn sent_writes(m: &[u8]) -> usize
    requires { shortest_commit ≤ length m.now }
    ensures { (result ≡ sent_writes m.now) × (result < 65536) }
{
    le::get_u16(m, record_at(m) + record::WRITES) as usize
}

#[tactic(auto, unfolding(crate::specs::Commit::commit_length_ok))]
fn commit_length_ok(m: &[u8]) -> bool
    ensures { result ≡ commit_length_ok m.now }
{
    if m.len() < SHORTEST_COMMIT {
        return false;
    }
    let k = count_of(m);
    (m.len() == SHORTEST_COMMIT + k * (VERSION_WIDTH + record::ENTRY))
        & (sent_reads(m) + sent_writes(m) == k)
}

// Number 2.
#[tactic(auto, unfolding(crate::specs::Number::length_ok))]
fn length_ok(m: &[u8]) -> bool
    ensures { result ≡ length_ok m.now }
{
    if kind_of(m) == Up::Commit as u8 {
        return commit_length_ok(m);
    }
    m.len() == LENGTH
}

// Whether a message may come to a station: number 2, 3 or 4 otherwise.
#[tactic(auto, unfolding(crate::specs::Number::down_number))]
pub fn down_check(station: u32, m: &[u8]) -> Result<(), Refusal>
    ensures { code result ≡ down_number station m.now }
{
    if !length_ok(m) {
        return Err(Refusal::Length);
    }
    down_range(station, m)
}

// The bit of a page in a page set.
fn page_bit(p: u32) -> u32
    requires { p < 32 }
    ensures { result ≡ 2 ^ p }
{
    1u32 << p
}

// Whether a commit has no more reads and no more writes than one transaction may have.
#[tactic(auto, unfolding(crate::specs::Commit::few_ok))]
fn few_ok(m: &[u8]) -> bool
    requires { shortest_commit ≤ length m.now }
    ensures { result ≡ few_ok m.now }
{
    (sent_reads(m) <= limits::LIMIT as usize) & (sent_writes(m) <= limits::LIMIT as usize)
}

// A version other than 0 is from a validating station.
#[tactic(auto, unfolding(crate::specs::Commit::version_ok))]
fn version_ok(kind: u8, m: &[u8], e: usize) -> bool
    requires { versions_at + e * version_width + version_width ≤ length m.now }
    ensures { result ≡ version_ok kind m.now e }
{
    (le::get_u32(m, VERSIONS + e * VERSION_WIDTH) == 0) | !kinds::locking(kind)
}

// The first n versions.
fn versions_ok(kind: u8, m: &[u8], n: usize) -> bool
    requires { versions_at + n * version_width ≤ length m.now }
    ensures { result ≡ all_to (version_ok kind m.now) n }
{
    all_of(n, |e| version_ok(kind, m, e))
}

// The pages of n addresses from `at`.
fn pages_of(m: &[u8], at: usize, n: usize) -> u32
    requires { at + n ≤ length m.now }
    ensures { result ≡ pages_to m.now at n }
{
    let mut pages: u32 = 0;
    for i in 0..n {
        pages |= page_bit(u32::from(m[at + i]) / 8);
    }
    pages
}

// Whether a commit's record agrees with the message and with the station's kind at the server.
#[tactic(auto, unfolding(crate::specs::Commit::record_agrees))]
fn record_agrees(kind: u8, m: &[u8]) -> bool
    requires { (shortest_commit ≤ length m.now) × (versions_at + entries_of m.now * version_width ≤ length m.now) × (addresses_at m.now + entries_of m.now ≤ length m.now) }
    ensures { result ≡ record_agrees kind m.now }
{
    let at = record_at(m);
    let entries = sent_reads(m) + sent_writes(m);
    (le::get_u32(m, at + record::COMMIT) == 0)
        & (le::get_u32(m, at + record::TRANSACTION) == transaction(m))
        & (m[at + record::STATION] == station(m))
        & (m[at + record::KIND] == kind)
        & versions_ok(kind, m, entries)
        & (pages_of(m, at + record::HEADER, entries) == pages(m))
}

// Number 5 of a commit.
#[tactic(auto, unfolding(crate::specs::Commit::commit_number))]
fn commit_check(kind: u8, m: &[u8]) -> Result<(), Refusal>
    requires { (shortest_commit ≤ length m.now) × (versions_at + entries_of m.now * version_width ≤ length m.now) × (addresses_at m.now + entries_of m.now ≤ length m.now) }
    ensures { code result ≡ commit_number kind m.now }
{
    if !few_ok(m) {
        return Err(Refusal::Record);
    }
    let at = record_at(m);
    if record::wax_record_check(&m[at..]) != 0 {
        return Err(Refusal::Record);
    }
    if record_agrees(kind, m) {
        return Ok(());
    }
    Err(Refusal::Record)
}

#[tactic(auto, unfolding(crate::specs::Number::kind_ok))]
fn kind_ok(kinds: &[u8], i: usize) -> bool
    requires { i < length kinds.now }
    ensures { result ≡ kind_ok kinds.now i }
{
    kinds[i] <= kinds::MOST
}

// Whether these are the kinds of eight stations.
#[tactic(auto, unfolding(crate::specs::Number::kinds_ok))]
fn kinds_ok(kinds: &[u8]) -> bool
    ensures { result ≡ kinds_ok kinds.now }
{
    if kinds.len() != 8 {
        return false;
    }
    all_of(8, |i| kind_ok(kinds, i))
}

// Whether a message may come to the server, where the eight stations have these kinds: number 2, 3, 4 or 5 otherwise, and 1 for
// kinds that are none.
#[tactic(auto, unfolding(crate::specs::Number::up_number))]
pub fn up_check(kinds: &[u8], m: &[u8]) -> Result<(), Refusal>
    ensures { code result ≡ up_number kinds.now m.now }
{
    if !kinds_ok(kinds) {
        return Err(Refusal::Buffer);
    }
    if !length_ok(m) {
        return Err(Refusal::Length);
    }
    up_range(m)?;
    if kind(m) != Up::Commit as u8 {
        return Ok(());
    }
    commit_check(kinds[station(m) as usize], m)
}
