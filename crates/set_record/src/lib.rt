#![tactic(auto)]
// A record out of two sets of addresses and their values, written anywhere.
ghost use Rattle.std.specs.Prelude.{◌≡◌, cond, ◌++◌, ◌+◌, ◌*◌, ◌≤◌, ◌<◌, length};
ghost use Rattle.std.proofs.lemmas.List.Edits.{sets};
ghost use Rattle.cells.specs.Loops.{rank};
ghost use Rattle.station_state.specs.Layout.{set_row, member};
ghost use Rattle.set_record.specs.Record.{record_from, filled, record_filled};
ghost use Rattle.set_record.specs.Stores.{entry_one, entries_to, values_for, both_for};
ghost use Rattle.set_record.specs.Spans.{member_from, span_to};
ghost use Rattle.layout.specs.Record.{header_length, value_length, entry_length, most_entries, longest_record, bytes_of};

use station_state::GROUP;

// Room for the addresses of both sets.
pub const ADDRESSES: usize = 2 * record::MOST as usize;

// Lists the addresses of eight pages that the set from `at` has, from entry i on, lowest first: how many entries there are then.
fn list_group(list: &mut [u8], s: &[u8], at: usize, i: usize, g: usize) -> usize
    requires { (at + set_row ≤ length s.now) × (i + 64 ≤ length list.old) × (g < 4) }
    ensures { filled list.new result ≡ filled (span_to list.old s.now at i (g * 64) 64) (i + rank (member_from s.now at (g * 64)) 64) }
{
    let mut j = i;
    for k in station_state::members(le::get_u64(s, at + g * GROUP)) {
        le::put_u8(list, j, (g * 64 + k) as u8);
        j += 1;
    }
    j
}

// Lists the addresses of the set from `at`, from entry i on: how many entries there are then.
pub fn list_set(list: &mut [u8], s: &[u8], at: usize, i: usize) -> usize
    requires { (at + set_row ≤ length s.now) × (i + most_entries ≤ length list.old) }
    ensures { (list.new ≡ entries_to list.old s.now at i 256) × (result ≡ i + rank (member s.now at) 256) × (i ≤ result) × (result ≤ i + most_entries) }
{
    let mut j = i;
    for g in 0..4 {
        j = list_group(list, s, at, j, g);
    }
    j
}

// Puts the values of these addresses, each among those from `values`, as entries i and on of a part that has values.
#[tactic(auto, unfolding(crate::specs::Stores::values_for))]
fn put_values(part: &mut [u8], i: usize, s: &[u8], values: usize, addresses: &[u8])
    requires { (values + 256 * value_length ≤ length s.now) × ((i + length addresses.now) * value_length ≤ length part.old) }
    ensures { part.new ≡ sets part.old (i * value_length) (values_for s.now values addresses.now) }
{
    let n = addresses.len();
    for c in 0..n {
        let v = le::get_u64(s, values + addresses[c] as usize * record::VALUE);
        le::put_u64(part, (i + c) * record::VALUE, v);
    }
}

// Fills a part with the values of these addresses: the first n are read, the others written.
fn fill_values(
    part: &mut [u8],
    s: &[u8],
    addresses: &[u8],
    n: usize,
    read_values: usize,
    written_values: usize,
)
    requires { (read_values + 256 * value_length ≤ length s.now) × (written_values + 256 * value_length ≤ length s.now) × (n ≤ length addresses.now) × (length part.old ≡ length addresses.now * value_length) }
    ensures { part.new ≡ both_for s.now read_values written_values n addresses.now }
{
    let reads = &addresses[0..n];
    put_values(part, 0, s, read_values, reads);
    let writes = &addresses[n..];
    put_values(part, n, s, written_values, writes);
}

// Puts the entries of these addresses, of which the first n are read, behind a record's header: the addresses through the part there,
// then the values through the next.
fn put_entries(
    out: &mut [u8],
    s: &[u8],
    base: usize,
    addresses: &[u8],
    n: usize,
    read_values: usize,
    written_values: usize,
)
    requires { (read_values + 256 * value_length ≤ length s.now) × (written_values + 256 * value_length ≤ length s.now) × (n ≤ length addresses.now) × (base + header_length + entry_length * length addresses.now ≤ length out.old) }
    ensures { out.new ≡ sets out.old (base + header_length) (addresses.now ++ both_for s.now read_values written_values n addresses.now) }
{
    let k = addresses.len();
    let e = base + record::HEADER;
    let a = e + k;
    let v = a + k * record::VALUE;
    out[e..a].copy_from_slice(addresses);
    fill_values(&mut out[a..v], s, addresses, n, read_values, written_values);
}

// Puts a record from `base` on, with the addresses of the sets from `reads` and `writes` and their values: how many bytes it has.
pub fn put_record(
    s: &[u8],
    out: &mut [u8],
    base: usize,
    reads: usize,
    read_values: usize,
    writes: usize,
    written_values: usize,
    commit: u32,
    transaction: u32,
    station: u32,
    kind: u32,
) -> usize
    requires { (reads + set_row ≤ length s.now) × (read_values + 256 * value_length ≤ length s.now) × (writes + set_row ≤ length s.now) × (written_values + 256 * value_length ≤ length s.now) × (base + length (bytes_of (record_from s.now reads read_values writes written_values commit transaction station kind)) ≤ length out.old) × (station < 256) × (kind < 256) }
    ensures { (filled out.new result ≡ record_filled out.old base (record_from s.now reads read_values writes written_values commit transaction station kind)) × (result ≤ longest_record) }
{
    let mut list = [0u8; ADDRESSES];
    let n = list_set(&mut list, s, reads, 0);
    let k = list_set(&mut list, s, writes, n);
    let e = base + record::HEADER;
    record::put_header(
        &mut out[base..e],
        n as u32,
        (k - n) as u32,
        commit,
        transaction,
        station,
        kind,
    );
    let addresses = &list[0..k];
    put_entries(out, s, base, addresses, n, read_values, written_values);
    record::HEADER + record::ENTRY * k
}
