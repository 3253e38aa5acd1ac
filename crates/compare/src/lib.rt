#![tactic(auto)]
// Which of two archives is the longer truth (document 02, wish 14): both are played, and compared record by record. What they have
// in common is played once.
ghost use Rattle.std.specs.Prelude.{◌≡◌, true, ◌+◌, ◌≤◌, ◌<◌, length};
ghost use Rattle.lists.specs.Tests.{all_to};
ghost use Rattle.replay.specs.Replay.{replayed};
ghost use Rattle.replay.specs.Played.{archive_played};
ghost use Rattle.compare.specs.Compare.{same_byte, same_to, commit_at, shared_of, ending_of, decided_of, compare_of, Together};
ghost use Rattle.compare.specs.Words.{word_length, few_words, is_words, word_from, same_word};
ghost use Rattle.compare.specs.Told.{told, told_of};

use archive::Answer;

// A record of few entries is compared in so many words, whatever its length: how a loop to its length ends is often mispredicted,
// which costs more than the turns past its last whole word.
const WORD: usize = record::VALUE;

const FEW_WORDS: usize = (record::HEADER + record::ENTRY * (2 * record::FEW)) / WORD;

// What two archives are to each other, or the number that refuses one of them. They part at the first commit that differs. No `Result`:
// theorems `records_compared` and `same_answer` of `compare_meaning` speak of it.
#[derive(Clone, Copy)]
pub enum Order {
    Same,
    FirstEarly,
    SecondEarly,
    Parts(u32),
    Refused(u32),
}

// Where the common records end, the last commit number before that, and the number that refuses the next one; 0 where it is not common.
#[derive(Clone, Copy)]
struct Reach {
    at: usize,
    last: u32,
    number: u32,
}

// Whether n bytes are a word at least, and few words.
#[tactic(auto, unfolding(crate::specs::Words::is_words))]
fn few_words(n: usize) -> bool
    ensures { result ≡ is_words n }
{
    (WORD <= n) & (n <= FEW_WORDS * WORD)
}

// Where word i of n bytes starts: the word that ends with the last byte, past the last whole one.
#[tactic(auto, unfolding(crate::specs::Words::word_from))]
fn word_from(i: usize, n: usize) -> usize
    requires { (word_length ≤ n) × (i < few_words) }
    ensures { (result ≡ word_from i n) × (result + word_length ≤ n) }
{
    if i * WORD <= n - WORD {
        return i * WORD;
    }
    n - WORD
}

// Whether the first n bytes of both, which are few words, are the same.
#[tactic(auto, unfolding(lists::specs::Tests::all_to, crate::specs::Words::same_word))]
fn same_words(a: &[u8], b: &[u8], n: usize) -> bool
    requires { (n ≤ length a.now) × (n ≤ length b.now) × (is_words n ≡ true) }
    ensures { result ≡ all_to (same_byte a.now b.now) n }
{
    let mut same = true;
    for i in 0..FEW_WORDS {
        let at = word_from(i, n);
        same &= le::get_u64(a, at) == le::get_u64(b, at);
    }
    same
}

// Whether the first n bytes of both are there and are the same. No test leaves the loop early, so that it compiles to vector code.
pub fn same_bytes(a: &[u8], b: &[u8], n: usize) -> bool
    ensures { result ≡ same_to a.now b.now n }
{
    if a.len() < n {
        return false;
    }
    if b.len() < n {
        return false;
    }
    if few_words(n) {
        return same_words(a, b, n);
    }
    let mut same = true;
    for i in 0..n {
        same &= a[i] == b[i];
    }
    same
}

// Plays the first record of `part` if it stands at the start of `other` too: the end where it does not.
fn shared(part: &[u8], other: &[u8], last: u32, values: &mut [u64; 256]) -> Answer
    ensures { replayed values.new result ≡ shared_of part.now other.now last values.old }
{
    if !same_bytes(part, other, record::claimed_length(part)) {
        return Answer::End;
    }
    replay::replay(part, 0, last, values)
}

// Plays the records that both have, up to the first that is not common or that is refused.
fn common(first: &[u8], second: &[u8], values: &mut [u64; 256]) -> Reach
    ensures { Together first.now second.now values.old values.new result.at result.last result.number }
{
    let mut at = 0;
    let mut last: u32 = 0;
    loop {
        match shared(&first[at..], &second[at..], last, values) {
            Answer::Record(f) => {
                at += f.end;
                last = f.commit;
            }
            Answer::End => {
                return Reach {
                    at,
                    last,
                    number: 0,
                };
            }
            Answer::Refused(number) => return Reach { at, last, number },
        }
    }
}

// The number of the play of these bytes behind a commit number and on a copy of these values.
fn rest_number(bytes: &[u8], last: u32, values: &[u64; 256]) -> u32
    ensures { result ≡ (archive_played bytes.now last values.now).number }
{
    let mut kept = *values;
    let mut commit = last;
    replay::wax_archive_replay(bytes, &mut kept, &mut commit)
}

// The commit number of the first record of these bytes; 0 where its header is not whole.
#[tactic(auto, unfolding(crate::specs::Compare::commit_at))]
fn commit_of(bytes: &[u8]) -> u32
    ensures { result ≡ commit_at bytes.now }
{
    if bytes.len() < record::HEADER {
        return 0;
    }
    le::get_u32(bytes, record::COMMIT)
}

// What the bytes behind the common records tell.
#[tactic(auto, unfolding(crate::specs::Compare::ending_of))]
fn ending(first: &[u8], second: &[u8]) -> Order
    ensures { result ≡ ending_of first.now second.now }
{
    if first.len() == 0 {
        if second.len() == 0 {
            return Order::Same;
        }
        return Order::FirstEarly;
    }
    if second.len() == 0 {
        return Order::SecondEarly;
    }
    Order::Parts(commit_of(first))
}

// Plays the rests of both, the first archive's first.
#[tactic(auto, unfolding(crate::specs::Compare::decided_of))]
fn decide(first: &[u8], second: &[u8], last: u32, values: &[u64; 256]) -> Order
    ensures { result ≡ decided_of first.now second.now last values.now }
{
    let n = rest_number(first, last, values);
    if n != 0 {
        return Order::Refused(n);
    }
    let m = rest_number(second, last, values);
    if m != 0 {
        return Order::Refused(m);
    }
    ending(first, second)
}

// What two archives are to each other. A refused one gives its own number, the first checked first.
pub fn compare(first: &[u8], second: &[u8]) -> Order
    ensures { result ≡ compare_of first.now second.now }
{
    let mut values = [0u64; 256];
    let c = common(first, second, &mut values);
    if c.number != 0 {
        return Order::Refused(c.number);
    }
    let at = c.at;
    decide(&first[at..], &second[at..], c.last, &values)
}

// `compare` for C: 0, or the number of the archive that is refused. Only 0 changes `order` and `commit`: order is 0 same, 1 the first is
// an early part of the second, 2 the second of the first, 3 they part, and then commit is the first commit that differs, else 0.
pub fn wax_archive_compare(first: &[u8], second: &[u8], order: &mut u32, commit: &mut u32) -> u32
    ensures { told order.new commit.new result ≡ told_of order.old commit.old (compare_of first.now second.now) }
{
    let answer = compare(first, second);
    match answer {
        Order::Same => {
            *order = 0;
            *commit = 0;
            0
        }
        Order::FirstEarly => {
            *order = 1;
            *commit = 0;
            0
        }
        Order::SecondEarly => {
            *order = 2;
            *commit = 0;
            0
        }
        Order::Parts(n) => {
            *order = 3;
            *commit = n;
            0
        }
        Order::Refused(number) => number,
    }
}
