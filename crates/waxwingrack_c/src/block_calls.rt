// Blocks, laid out by column.
ghost use Rattle.std.specs.Prelude.{◌≡◌};
ghost use Rattle.record.specs.Write.{written};
ghost use Rattle.block_writer.specs.Write.{block_write_of};
ghost use Rattle.block_reader.specs.Read.{block_read_of, block_record_of};

// Writes these records, one behind the other, as a block to the start of `out`. 1 where `out` is under their length plus 4; 21 where there
// is no record; then record by record 21 at a 65th, 12 where the bytes end inside it, 5 where it breaks a record's rules; else 0. Any
// commit numbers are taken. A refusal changes nothing.
#[unsafe(no_mangle)]
pub extern "C" fn wax_block_write(records: &[u8], out: &mut [u8]) -> u32
    ensures { written out.new result ≡ block_write_of records.now out.old }
{
    block_writer::wax_block_write(records, out)
}

// Reads a block: its records, one behind the other, at the start of `out`. 1 where `out` is under the block's length less 4; 21 where
// the block has not 1 to 64 records, or its counts disagree with each other or with its length; 5 where a record breaks a record's
// rules, else 0. A refusal changes nothing.
#[unsafe(no_mangle)]
pub extern "C" fn wax_block_read(block: &[u8], out: &mut [u8]) -> u32
    ensures { written out.new result ≡ block_read_of block.now out.old }
{
    block_reader::wax_block_read(block, out)
}

// Looks up the record at a place of a block, from 0: at the start of `out`, as reading the whole block would give it, and nothing else
// is put together. 1 where `out` is under 4,624 bytes; 21 as for reading, and where the block has no such place; then 5 where any
// record of the block breaks a record's rules, else 0. A refusal changes nothing.
#[unsafe(no_mangle)]
pub extern "C" fn wax_block_record(block: &[u8], place: u32, out: &mut [u8]) -> u32
    ensures { written out.new result ≡ block_record_of block.now place out.old }
{
    block_reader::wax_block_record(block, place, out)
}
