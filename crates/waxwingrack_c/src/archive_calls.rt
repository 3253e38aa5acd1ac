// Whole archives: which of two is the longer truth, and the counting licence.
ghost use Rattle.std.specs.Prelude.{◌≡◌};
ghost use Rattle.compare.specs.Told.{told, told_of};
ghost use Rattle.compare.specs.Compare.{compare_of};
ghost use Rattle.licence.specs.Fee.{billed, licence_of};

// `compare` for C: 0, or the number of the archive that is refused. Only 0 changes `order` and `commit`: order is 0 same, 1 the first is
// an early part of the second, 2 the second of the first, 3 they part, and then commit is the first commit that differs, else 0.
#[unsafe(no_mangle)]
pub extern "C" fn wax_archive_compare(
    first: &[u8],
    second: &[u8],
    order: &mut u32,
    commit: &mut u32,
) -> u32
    ensures { told order.new commit.new result ≡ told_of order.old commit.old (compare_of first.now second.now) }
{
    compare::wax_archive_compare(first, second, order, commit)
}

// An address's chargeable frames over a stretch of commits, and their fee in cents: 0, 17, 12, 5, 13, 14 of the archive, 13 of the
// stretch, or 18. Only 0 changes `frames` and `fee`.
#[unsafe(no_mangle)]
pub extern "C" fn wax_licence_fee(
    archive: &[u8],
    table: &[u8],
    first: u32,
    last: u32,
    address: u8,
    frames: &mut i64,
    fee: &mut i64,
) -> u32
    ensures { billed frames.new fee.new result ≡ licence_of archive.now table.now first last address frames.old fee.old }
{
    licence::wax_licence_fee(archive, table, first, last, address, frames, fee)
}
