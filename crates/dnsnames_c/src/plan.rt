//! Writing names with compression (RFC 1035, 4.1.4).
ghost use Rattle.dnsnames_c.specs.Plans.{Plans, Appends};

use domain_buffer::plan::{add_offsets, is_table, write_name};
use domain_compress::plan::plan;
use domain_name::Name;

/// Plans how to write a name after the octets of a message, whose first one is the message's. Returns 0 where the
/// first `begin` octets of the name and a pointer to `offset` are to be written. The pointer stands for the longest
/// suffix of the name, other than the root, that is read at one of the offsets of the table. `offset` is the first
/// such offset.
///
/// Returns 17 if the name is to be written with no pointer. Then no such suffix is read at any of the offsets, or 256
/// pointers would lead along it. Returns 16 if the table has more than 128 offsets or one past 16,383, and 9 if the
/// name is no absolute name.
#[unsafe(no_mangle)]
pub extern "C" fn dnsnames_plan(
    octets: &[u8],
    table: &[u16],
    name: &[u8],
    begin: &mut usize,
    offset: &mut u16,
) -> u32
    ensures { Plans octets.now table.now name.now result begin.old begin.new offset.old offset.new }
{
    if !is_table(table) {
        return 16;
    }
    let Ok(_) = Name::from_slice(name) else {
        return 9;
    };
    let Some(beginning) = plan(octets, table, name) else {
        return 17;
    };
    *begin = beginning.begin;
    *offset = beginning.offset;
    0
}

/// Writes a name after the first `octets_len` octets of a message, as `dnsnames_plan` says. Adds the offsets of the
/// labels that were written to the first `table_len` offsets of the table. It adds those below 16,384, as far as the
/// table has room for them, and up to 128 in all. Both lengths become the new ones.
///
/// Returns 20 if a length is more than there is room for, 16 and 9 as `dnsnames_plan` does, and 8 if the name doesn't
/// fit. In each of these cases nothing is changed.
#[unsafe(no_mangle)]
pub extern "C" fn dnsnames_append(
    octets: &mut [u8],
    octets_len: &mut usize,
    table: &mut [u16],
    table_len: &mut usize,
    name: &[u8],
) -> u32
    ensures { Appends octets.old octets_len.old table.old table_len.old name.now result octets.new
        octets_len.new table.new table_len.new }
{
    let start = *octets_len;
    let count = *table_len;
    if start > octets.len() || count > table.len() {
        return 20;
    }
    if !is_table(&table[..count]) {
        return 16;
    }
    let Ok(_) = Name::from_slice(name) else {
        return 9;
    };
    let Some(written) = write_name(octets, start, &table[..count], name) else {
        return 8;
    };
    *octets_len = written.end;
    *table_len = add_offsets(table, count, &name[..written.begin], start);
    0
}
