#![tactic(auto)]
// What the playback program is asked for, told by the words behind its name (docs/PLAYBACK.md, "Arguments").
ghost use Rattle.std.specs.Prelude.{◌≡◌, ◌+◌, ◌≤◌, ◌<◌, length, Some};
ghost use Rattle.arguments.specs.Words.{is_digit, same_at, same_word};
ghost use Rattle.text.specs.Text.{ascii, put, line_within};
ghost use Rattle.arguments.specs.Modes.{commit_of, listing_of, other_of, is_name, name_taken, listing_taken, other_taken, option_taken, number_fits, place_for, number_taken, word_taken, ranges, settled, fresh, shown_length, shown, unclear_line, longest};

// The ten numbers that the words become: which listing, its number, a range, how it is printed, and what is known of the words so far.
// They stay an array and their listings numbers: `take` and `settle` change every array of ten, and the definitions `word_taken` and
// `settled` say what becomes of each number, and `player::job_of` takes each listing.
pub const LISTING: usize = 0;

pub const NUMBER: usize = 1;

pub const FROM: usize = 2;

pub const UNTIL: usize = 3;

pub const CSV: usize = 4;

pub const STATUS: usize = 5;

const WANTS: usize = 6;

pub const FILE: usize = 7;

const RANGE: usize = 8;

pub const WRONG: usize = 9;

// How many they are.
pub const NUMBERS: usize = WRONG + 1;

// The listings: a line a commit, and those that an option chooses.
pub const COMMITS: u64 = 0;

pub const TOTALS: u64 = 1;

pub const AT: u64 = 2;

pub const COUNTER: u64 = 3;

pub const RECORD: u64 = 4;

pub const HELP: u64 = 5;

pub const VERSION: u64 = 6;

// The other options.
const FROM_OPTION: u64 = 7;

const TO_OPTION: u64 = 8;

const CSV_OPTION: u64 = 9;

const STATUS_OPTION: u64 = 10;

// No line is longer.
pub const LINE: usize = 256;

// What a line shows of a long word.
const SHOWN: usize = 64;

#[tactic(auto, unfolding(crate::specs::Words::is_digit))]
fn is_digit(b: u8) -> bool
    ensures { result ≡ is_digit b }
{
    (48 <= b) & (b <= 57)
}

fn long(b: u8) -> u64
    ensures { result ≡ b }
{
    b as u64
}

// The commit number that a word of digits is, where 32 bits hold it.
pub fn commit_of(word: &[u8]) -> Option<u32>
    ensures { result ≡ commit_of word.now }
{
    if word.len() == 0 {
        return None;
    }
    let mut n: u64 = 0;
    for i in 0..word.len() {
        let b = word[i];
        if !is_digit(b) {
            return None;
        }
        n = n * 10 + (long(b) - 48);
        if 4294967295 < n {
            return None;
        }
    }
    Some(n as u32)
}

// Whether two words are the same.
fn same(a: &[u8], b: &[u8]) -> bool
    ensures { result ≡ same_word a.now b.now }
{
    a == b
}

// The listing that a word chooses, 0 for none.
#[tactic(auto, unfolding(crate::specs::Modes::listing_of))]
fn listing_of(word: &[u8]) -> u64
    ensures { (result ≡ listing_of word.now) × (result ≤ 6) }
{
    if same(word, b"--totals") {
        return TOTALS;
    }
    if same(word, b"--at") {
        return AT;
    }
    if same(word, b"--counter") {
        return COUNTER;
    }
    if same(word, b"--record") {
        return RECORD;
    }
    if same(word, b"--help") {
        return HELP;
    }
    if same(word, b"--version") {
        return VERSION;
    }
    0
}

// The other options.
#[tactic(auto, unfolding(crate::specs::Modes::other_of))]
fn other_of(word: &[u8]) -> u64
    ensures { result ≡ other_of word.now }
{
    if same(word, b"--from") {
        return FROM_OPTION;
    }
    if same(word, b"--to") {
        return TO_OPTION;
    }
    if same(word, b"--csv") {
        return CSV_OPTION;
    }
    if same(word, b"--status") {
        return STATUS_OPTION;
    }
    0
}

// Whether a word that is no option names an archive.
#[tactic(auto, unfolding(crate::specs::Modes::is_name))]
fn is_name(word: &[u8]) -> bool
    ensures { result ≡ is_name word.now }
{
    if word.len() == 0 {
        return false;
    }
    if word[0] == 45 {
        return word.len() == 1;
    }
    true
}

#[tactic(auto, unfolding(crate::specs::Modes::name_taken, crate::specs::Modes::wrong))]
fn take_name(a: &mut [u64; NUMBERS], i: u64, word: &[u8])
    ensures { a.new ≡ name_taken a.old i word.now }
{
    if !is_name(word) {
        a[WRONG] = i;
        return;
    }
    if a[FILE] != 0 {
        a[WRONG] = i;
        return;
    }
    a[FILE] = i;
}

#[tactic(auto, unfolding(crate::specs::Modes::listing_taken, crate::specs::Modes::wrong))]
fn take_listing(a: &mut [u64; NUMBERS], i: u64, o: u64)
    ensures { a.new ≡ listing_taken a.old i o }
{
    if a[LISTING] != 0 {
        a[WRONG] = i;
        return;
    }
    a[LISTING] = o;
    if o < AT {
        return;
    }
    if RECORD < o {
        return;
    }
    a[WANTS] = o;
}

#[tactic(auto, unfolding(crate::specs::Modes::other_taken))]
fn take_other(a: &mut [u64; NUMBERS], i: u64, word: &[u8])
    ensures { a.new ≡ other_taken a.old i word.now }
{
    let o = other_of(word);
    if o == CSV_OPTION {
        a[CSV] = 1;
        return;
    }
    if o == STATUS_OPTION {
        a[STATUS] = 1;
        return;
    }
    if o == 0 {
        take_name(a, i, word);
        return;
    }
    a[RANGE] = i;
    a[WANTS] = o;
}

#[tactic(auto, unfolding(crate::specs::Modes::option_taken))]
fn take_option(a: &mut [u64; NUMBERS], i: u64, word: &[u8])
    ensures { a.new ≡ option_taken a.old i word.now }
{
    let o = listing_of(word);
    if o == 0 {
        take_other(a, i, word);
        return;
    }
    take_listing(a, i, o);
}

// Whether an option takes this number.
#[tactic(auto, unfolding(crate::specs::Modes::number_fits))]
fn number_fits(o: u64, n: u32) -> bool
    ensures { result ≡ number_fits o n }
{
    if o == COUNTER {
        return n <= 255;
    }
    if o == RECORD {
        return 1 <= n;
    }
    true
}

// Where an option's number goes.
#[tactic(auto, unfolding(crate::specs::Modes::place_for))]
fn place_for(o: u64) -> usize
    ensures { (result ≡ place_for o) × (result < 4) }
{
    if o == FROM_OPTION {
        return FROM;
    }
    if o == TO_OPTION {
        return UNTIL;
    }
    NUMBER
}

fn take_number(a: &mut [u64; NUMBERS], i: u64, n: u32)
    ensures { a.new ≡ number_taken a.old i (Some n) }
{
    let o = a[WANTS];
    if !number_fits(o, n) {
        a[WRONG] = i;
        return;
    }
    let place = place_for(o);
    a[place] = n as u64;
    a[WANTS] = 0;
}

// Takes word i, counted from 1, into the ten numbers. Behind one that is not understood none is looked at.
pub fn take(a: &mut [u64; NUMBERS], i: u64, word: &[u8])
    ensures { a.new ≡ word_taken a.old i word.now }
{
    if a[WRONG] != 0 {
        return;
    }
    if a[WANTS] == 0 {
        take_option(a, i, word);
        return;
    }
    let Some(n) = commit_of(word) else {
        a[WRONG] = i;
        return;
    };
    take_number(a, i, n);
}

// Whether a listing can be of a range of commits.
#[tactic(auto, unfolding(crate::specs::Modes::ranges))]
fn ranges(listing: u64) -> bool
    ensures { result ≡ ranges listing }
{
    if listing == 0 {
        return true;
    }
    listing == COUNTER
}

// What is left to test behind the last word, which is word i.
#[tactic(auto, unfolding(crate::specs::Modes::settled, crate::specs::Modes::wrong))]
pub fn settle(a: &mut [u64; NUMBERS], i: u64)
    ensures { a.new ≡ settled a.old i }
{
    if a[WRONG] != 0 {
        return;
    }
    if a[WANTS] != 0 {
        a[WRONG] = i;
        return;
    }
    let range = a[RANGE];
    if range == 0 {
        return;
    }
    if !ranges(a[LISTING]) {
        a[WRONG] = range;
        return;
    }
    if a[UNTIL] < a[FROM] {
        a[WRONG] = range;
    }
}

// Before the first word.
#[tactic(auto, unfolding(crate::specs::Modes::fresh))]
pub fn nothing_asked() -> [u64; NUMBERS]
    ensures { result ≡ fresh }
{
    [0, 0, 0, 4294967296, 0, 0, 0, 0, 0, 0]
}

// Whether a word is - alone.
pub fn is_dash(word: &[u8]) -> bool
    ensures { result ≡ same_word word.now (ascii "-") }
{
    same(word, b"-")
}

// Of a long word the first bytes.
#[tactic(auto, unfolding(crate::specs::Modes::shown))]
fn shown(word: &[u8]) -> &[u8]
    ensures { (result.now ≡ shown word.now) × (length result.now ≤ shown_length) }
{
    if word.len() < SHOWN {
        return word;
    }
    &word[..SHOWN]
}

// Puts the line that names a word that is not understood, where 256 bytes are free.
pub fn unclear_line(out: &mut [u8], at: usize, word: &[u8]) -> usize
    ensures { put out.new result ≡ line_within longest out.old at (unclear_line word.now) }
{
    if !text::room(LINE, out.len(), at) {
        return at;
    }
    let at = text::put_text(out, at, b"playback: ");
    let at = text::put_text(out, at, shown(word));
    let rest = b" is not understood here; playback --help says what is\n";
    text::put_text(out, at, rest)
}
