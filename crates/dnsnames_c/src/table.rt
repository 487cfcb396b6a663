//! All questions and records of a message in one call (RFC 1035, 4.1).
ghost use Rattle.std.specs.Prelude.{◌≡◌};
ghost use Rattle.dnsnames_c.specs.Status.{table_number};
ghost use Rattle.dnsnames_c.specs.Tables.{Tables};

use crate::read::number_of;
use domain_buffer::rows::{RowFault, fill_rows};

/// The number of why no more entries were taken, or of none, where all were.
fn number_of_fill(fault: Option<RowFault>) -> u32
    ensures { result ≡ table_number fault }
{
    match fault {
        None => 0,
        Some(RowFault::Name(fault)) => number_of(fault),
        Some(RowFault::ShortInput) => 1,
        Some(RowFault::NoRoom) => 8,
    }
}

/// Gives all questions and records that the header of a message counts, in their order (RFC 1035, 4.1). Each has a row
/// of eight numbers; their names come one after another, with no pointer in them. A row has where the entry's name
/// starts in `names`, how many octets it has, its type, its class, and its time to live in seconds. After these it has
/// where the entry's data start in the message, how many octets they have, and the offset after the entry, at which
/// the next entry starts. A question has the time to live 0, and no octets of data, at the offset after it. Each name
/// is read through at most `limit` pointers. `row_count` becomes how many rows there are, `names_len` how many octets
/// in `names`; what is after them there stays unchanged.
///
/// Returns 0 if all are there. Otherwise the rows are those of the entries before the first that has none, and the
/// number says why. It is 1, 2, 3 or 4 as `dnsnames_read` returns for its name. It is 1 if the four octets after a
/// question's name, the ten after a record's, or the data end past the message. It is 1, with no row, if the message
/// has fewer than twelve octets. It is 8 if the entry is there, but its row or its name doesn't fit. It is 8, with no
/// row, if the message has 2^32 octets or more.
///
/// At most one entry more than there are rows is read, and of each at most 128 labels and `limit` pointers: what a
/// sender can make it cost is bounded by the size of the message, which each entry takes some octets of, and by the
/// rows.
#[unsafe(no_mangle)]
pub extern "C" fn dnsnames_table(
    message: &[u8],
    limit: u8,
    rows: &mut [u32],
    names: &mut [u8],
    row_count: &mut usize,
    names_len: &mut usize,
) -> u32
    ensures { Tables limit message.now result rows.old rows.new names.old names.new row_count.new
        names_len.new }
{
    *row_count = 0;
    *names_len = 0;
    if message.len() < 12 {
        return 1;
    }
    // Offsets in rows have 32 bits.
    if message.len() > 4_294_967_295 {
        return 8;
    }
    let filled = fill_rows(message, limit, rows, names);
    *row_count = filled.taken.count;
    *names_len = filled.taken.names;
    number_of_fill(filled.fault)
}
