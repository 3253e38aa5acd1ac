#![tactic(auto)]
// What is wrong with a record that replay refuses, and at which of its bytes (docs/PLAYBACK.md, "What is wrong, in words").
ghost use Rattle.std.specs.Prelude.{◌≡◌, ◌+◌, ◌≤◌, length};
ghost use Rattle.layout.specs.Record.{header_length};
ghost use Rattle.record.specs.Check.{length_of};
ghost use Rattle.fault.specs.Fault.{place_of, or_else, count_fault, byte_fault, order_fault, address_fault, sequence_fault, read_fault, whole_fault, cut_fault, fault_of};

// A fault of a record. Places are counted from the record's first byte. `Nothing` is one of them and no `None`: `place` and
// `words::fault_line` take each of them.
#[derive(Clone, Copy)]
pub enum Fault {
    // The record is accepted.
    Nothing,
    // The bytes end inside the record: so many are there, of so many.
    Cut {
        present: usize,
        length: usize,
    },
    // They end inside its header.
    Header {
        present: usize,
    },
    // They end inside what its sizes claim, and no record has such sizes.
    Sizes {
        present: usize,
        length: usize,
    },
    Reads(u32),
    Writes(u32),
    Transaction,
    Station(u32),
    Kind(u32),
    // A byte that must be 0.
    Zero {
        at: usize,
        is: u32,
    },
    // The first address that is not above the one before it.
    Order {
        at: usize,
        before: u32,
        is: u32,
    },
    Sequence {
        commit: u32,
        last: u32,
    },
    // The first read that differs from the value left: the place of its value.
    Read {
        at: usize,
        address: u32,
        is: u64,
        left: u64,
    },
}

// The fault's byte, a field's first.
pub fn place(f: Fault) -> usize
    ensures { result ≡ place_of f }
{
    match f {
        Fault::Nothing => 0,
        Fault::Reads(_) => record::READS,
        Fault::Cut { present, .. } => present,
        Fault::Header { present } => present,
        Fault::Sizes { present, .. } => present,
        Fault::Writes(_) => record::WRITES,
        Fault::Sequence { .. } => record::COMMIT,
        Fault::Transaction => record::TRANSACTION,
        Fault::Station(_) => record::STATION,
        Fault::Kind(_) => record::KIND,
        Fault::Zero { at, .. } => at,
        Fault::Order { at, .. } => at,
        Fault::Read { at, .. } => at,
    }
}

// The first of two faults, in checking order.
fn or_else(first: Fault, next: Fault) -> Fault
    ensures { result ≡ or_else first next }
{
    match first {
        Fault::Nothing => next,
        _ => first,
    }
}

// A header's sizes and transaction.
fn count_fault(t: &[u8]) -> Fault
    requires { header_length ≤ length t.now }
    ensures { result ≡ count_fault t.now }
{
    let reads = le::get_u16(t, record::READS);
    if reads > record::MOST {
        return Fault::Reads(reads);
    }
    let writes = le::get_u16(t, record::WRITES);
    if writes > record::MOST {
        return Fault::Writes(writes);
    }
    if le::get_u32(t, record::TRANSACTION) == 0 {
        return Fault::Transaction;
    }
    Fault::Nothing
}

// Its last four bytes: station, kind, two zeros.
fn byte_fault(t: &[u8]) -> Fault
    requires { header_length ≤ length t.now }
    ensures { result ≡ byte_fault t.now }
{
    if t[record::STATION] > 7 {
        return Fault::Station(u32::from(t[record::STATION]));
    }
    if t[record::KIND] > kinds::MOST {
        return Fault::Kind(u32::from(t[record::KIND]));
    }
    if t[record::ZEROS] != 0 {
        return Fault::Zero {
            at: record::ZEROS,
            is: u32::from(t[record::ZEROS]),
        };
    }
    if t[record::LAST_ZERO] != 0 {
        return Fault::Zero {
            at: record::LAST_ZERO,
            is: u32::from(t[record::LAST_ZERO]),
        };
    }
    Fault::Nothing
}

// The first of the n addresses from a that is not above the one before it.
fn order_fault(t: &[u8], a: usize, n: usize) -> Fault
    requires { a + n ≤ length t.now }
    ensures { result ≡ order_fault t.now a n }
{
    for i in 0..n.saturating_sub(1) {
        let at = a + i;
        if t[at] >= t[at + 1] {
            return Fault::Order {
                at: at + 1,
                before: u32::from(t[at]),
                is: u32::from(t[at + 1]),
            };
        }
    }
    Fault::Nothing
}

// Within reads, then within writes.
fn address_fault(t: &[u8]) -> Fault
    requires { (header_length ≤ length t.now) × (length_of t.now ≤ length t.now) }
    ensures { result ≡ address_fault t.now }
{
    let n = le::get_u16(t, record::READS) as usize;
    let m = le::get_u16(t, record::WRITES) as usize;
    or_else(
        order_fault(t, record::HEADER, n),
        order_fault(t, record::HEADER + n, m),
    )
}

fn sequence_fault(t: &[u8], last: u32) -> Fault
    requires { header_length ≤ length t.now }
    ensures { result ≡ sequence_fault t.now last }
{
    let commit = le::get_u32(t, record::COMMIT);
    if u64::from(commit) == u64::from(last) + 1 {
        return Fault::Nothing;
    }
    Fault::Sequence { commit, last }
}

// The first of the reads that differs from the value left.
fn read_fault(t: &[u8], values: &[u64; 256]) -> Fault
    requires { (header_length ≤ length t.now) × (length_of t.now ≤ length t.now) }
    ensures { result ≡ read_fault t.now values.now }
{
    let n = le::get_u16(t, record::READS) as usize;
    let k = n + le::get_u16(t, record::WRITES) as usize;
    for i in 0..n {
        let at = record::HEADER + k + record::VALUE * i;
        let address = u32::from(t[record::HEADER + i]);
        let is = le::get_u64(t, at);
        let left = values[address as usize];
        if left != is {
            return Fault::Read {
                at,
                address,
                is,
                left,
            };
        }
    }
    Fault::Nothing
}

// The first fault of a record whose bytes are all there.
fn whole_fault(t: &[u8], last: u32, values: &[u64; 256]) -> Fault
    requires { (header_length ≤ length t.now) × (length_of t.now ≤ length t.now) }
    ensures { result ≡ whole_fault t.now last values.now }
{
    let layout = or_else(or_else(count_fault(t), byte_fault(t)), address_fault(t));
    or_else(
        layout,
        or_else(sequence_fault(t, last), read_fault(t, values)),
    )
}

// What is wrong with a record whose bytes are not all there.
fn cut_fault(t: &[u8], claimed: usize) -> Fault
    requires { header_length ≤ length t.now }
    ensures { result ≡ cut_fault t.now claimed }
{
    let present = t.len();
    if le::get_u16(t, record::READS) > record::MOST {
        return Fault::Sizes {
            present,
            length: claimed,
        };
    }
    if le::get_u16(t, record::WRITES) > record::MOST {
        return Fault::Sizes {
            present,
            length: claimed,
        };
    }
    Fault::Cut {
        present,
        length: claimed,
    }
}

// What is wrong with the first record of some bytes, behind commit `last` and on these values: the first fault in checking order.
pub fn first_fault(part: &[u8], last: u32, values: &[u64; 256]) -> Fault
    ensures { result ≡ fault_of part.now last values.now }
{
    let present = part.len();
    if present < record::HEADER {
        return Fault::Header { present };
    }
    let length = record::claimed_length(part);
    if present < length {
        return cut_fault(part, length);
    }
    whole_fault(part, last, values)
}
