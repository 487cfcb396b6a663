//! How a name is to be written: the labels before its longest suffix that stands somewhere, and a pointer to that.
ghost use Rattle.std.specs.Prelude.{◌≡◌, ◌<◌, ◌≤◌, ◌+◌, ◌++◌, length, take, IfSome, IsNone};
ghost use Rattle.std.specs.List.{All};
ghost use Rattle.domain_label.specs.Wire.{labels_in, IsWire, IsAbsoluteWire};
ghost use Rattle.domain_compress.specs.Compressing.{pointer_to, remembered_from};
ghost use Rattle.domain_compress.specs.Hashes.{IsKnown};
ghost use Rattle.domain_compress.specs.Planned.{remembered_in_table, offsets, WritesBeginning, WritesFlat};
ghost use Rattle.domain_compress.specs.Written.{all_remembered};

use crate::remember::remember;
use crate::search::longest_suffix;
use crate::written::Written;
use arrayvec::ArrayVec;
use domain_list::composing::put_octets;

/// The most pointers that lead along a name.
const MAX_POINTERS: u8 = 255;

/// The beginning of a name that is to be written, and where a pointer after it leads to.
#[derive(Clone, Copy, Debug)]
pub struct Beginning {
    /// How many octets of the name stand before the suffix that a pointer stands for.
    pub begin: usize,
    /// The offset that the pointer leads to.
    pub offset: u16,
}

/// The beginning of the name before its longest suffix that stands where something was written, and the first such
/// offset. `None` where no suffix stands at any, or one pointer too many would lead along the name.
pub(crate) fn find_beginning(
    octets: &[u8],
    written: &[Written],
    name: &[u8],
    hashed: bool,
) -> Option<Beginning>
    requires wire { IsAbsoluteWire name.now }
    requires known { IsKnown hashed octets.now written.now }
    ensures some { IfSome result
        (WritesBeginning octets.now (all_remembered written.now) name.now) }
    ensures none { IsNone result → WritesFlat octets.now (all_remembered written.now) name.now }
{
    let Some(end) = longest_suffix(octets, written, name, hashed) else {
        return None;
    };
    if end.pointers == MAX_POINTERS {
        return None;
    }
    Some(Beginning {
        begin: end.begin,
        offset: end.offset,
    })
}

/// A pointer to an offset (RFC 1035, 4.1.4).
#[inline(always)]
pub(crate) fn pointer(offset: u16) -> [u8; 2]
    requires { offset < 16384 }
    ensures { result ≡ pointer_to offset }
{
    (49152 + offset).to_be_bytes()
}

/// Puts the first `begin` octets of a name at the start of a buffer, and after them a pointer to an offset (RFC 1035,
/// 4.1.4). Returns how many octets there are.
#[inline(always)]
pub fn put_pointed(name: &[u8], begin: usize, offset: u16, octets: &mut [u8; 255]) -> usize
    requires low { offset < 16384 }
    requires inside { begin + 2 ≤ length name.now }
    requires short { length name.now ≤ 255 }
    ensures size { result ≡ begin + 2 }
    ensures octets { take result octets.new ≡ take begin name.now ++ pointer_to offset }
{
    let [high, low] = pointer(offset);
    put_octets(&name[..begin], octets, 0);
    octets[begin] = high;
    octets[begin + 1] = low;
    begin + 2
}

/// What stands at the offsets of a table, with no hash.
fn written_at(table: &[u16]) -> ArrayVec<Written, 128>
    requires few { length table.now ≤ 128 }
    requires low { All (λ p. p < 16384) table.now }
    ensures { all_remembered result.items ≡ remembered_in_table table.now }
{
    let mut written = ArrayVec::new();
    for offset in table {
        written.push(Written {
            offset: *offset,
            end: 0,
            hash: 0,
        });
    }
    written
}

/// How a name is to be written after octets, for callers that keep octets and offsets themselves: the beginning of the
/// name before its longest suffix, other than the root, that is read without case at an offset of the table, and the
/// first such offset.
///
/// `None` where no suffix is read at any, or more than 255 pointers would lead along the name: it is then to be
/// written with no pointer. It needs no memory.
pub fn plan(octets: &[u8], table: &[u16], name: &[u8]) -> Option<Beginning>
    requires wire { IsAbsoluteWire name.now }
    requires few { length table.now ≤ 128 }
    requires low { All (λ p. p < 16384) table.now }
    ensures some { IfSome result
        (WritesBeginning octets.now (remembered_in_table table.now) name.now) }
    ensures none { IsNone result → WritesFlat octets.now (remembered_in_table table.now) name.now }
{
    find_beginning(octets, written_at(table).as_slice(), name, false)
}

/// The offsets of a table.
fn offsets_of(written: &[Written]) -> ArrayVec<u16, 128>
    requires few { length written.now ≤ 128 }
    ensures { result.items ≡ offsets (all_remembered written.now) }
{
    let mut table = ArrayVec::new();
    for label in written {
        table.push(label.offset);
    }
    table
}

/// The table, and after it the offsets of these labels, except the root, that were written from `start` on: those
/// below 16,384, to which a pointer can lead, and up to 128 in all.
pub fn more_offsets(table: &[u16], labels: &[u8], start: usize) -> ArrayVec<u16, 128>
    requires few { length table.now ≤ 128 }
    requires low { All (λ p. p < 16384) table.now }
    requires labels { IsWire labels.now }
    ensures { result.items
        ≡ take 128 (table.now ++ offsets (remembered_from start start (labels_in labels.now))) }
{
    let mut written = written_at(table);
    // The offsets alone are asked for: where the name ends isn't known here, and no hash is looked at.
    remember(&mut written, labels, start, start, false);
    offsets_of(written.as_slice())
}
