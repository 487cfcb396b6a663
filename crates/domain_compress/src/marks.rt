//! Passing over offsets where no suffix of a name can stand, by a hash of the first label there.
ghost use Rattle.std.specs.Prelude.{◌≡◌, ◌<◌, slice_index, nat_eq, true, MatchResult};
ghost use Rattle.domain_label.specs.Wire.{IsAbsoluteWire};
ghost use Rattle.domain_compress.specs.Ends.{label_hash, slot_of, AreMarked, LetsMarkedPass};
ghost use Rattle.domain_compress.specs.Hashes.{HasHash, IsHashOf, IsHashedIf};
ghost use Rattle.domain_reading.specs.Heads.{IsHeadAt, BrokenAt};

use crate::written::Written;
use domain_reading::fault::NameFault;
use domain_reading::head::{Head, read_head};
use domain_reading::heads::Heads;
use std::marker::Brand;
use std::sync::ledger::{Blank, Ledger};

/// Spreads what was counted over the highest bits: 2 ^ 64 by the golden ratio.
const SPREAD: u64 = 11400714819323198485;

/// The hash of a label, by its length and each octet, without case.
pub(crate) fn hash(label: &[u8]) -> u16
    ensures { result ≡ label_hash label.now }
{
    let mut sum = label.len() as u64;
    for octet in label {
        sum = sum.wrapping_mul(8).wrapping_add(u64::from(*octet % 32));
    }
    (sum.wrapping_mul(SPREAD) / 281474976710656) as u16
}

/// The same where the hashes count; else nothing looks at it.
#[inline(always)]
pub(crate) fn hash_if(hashed: bool, label: &[u8]) -> u16
    ensures { hashed ≡ true → result ≡ label_hash label.now }
{
    if hashed { hash(label) } else { 0 }
}

/// Where a hash is marked.
fn slot(hash: u16) -> usize
    ensures { result ≡ slot_of hash }
{
    usize::from(hash % 256)
}

/// Whether the hash is marked.
fn is_marked(marks: &[u8; 256], hash: u16) -> bool
    ensures { result ≡ nat_eq (slice_index marks.now (slot_of hash)) 1 }
{
    marks[slot(hash)] == 1
}

/// Marks the hashes of the labels with which the suffixes of a name begin by a 1 each.
pub(crate) fn mark_firsts(marks: &mut [u8; 256], name: &[u8])
    requires { IsAbsoluteWire name.now }
    ensures { AreMarked marks.new name.now }
{
    let mut begin = 0;
    'ends: while name[begin] != 0 {
        let start = begin + 1;
        let end = start + usize::from(name[begin]);
        marks[slot(hash(&name[start..end]))] = 1;
        begin = end;
    }
}

/// What is at the offset, as `read_head` returns it.
fn head_at(octets: &[u8], offset: usize) -> Result<Head, NameFault>
    ensures { MatchResult result (IsHeadAt octets.now offset) (BrokenAt octets.now offset) }
{
    head_at_with::<Brand>(octets, offset, Blank::new(1))
}

/// The same over a count of heads, which no clause mentions.
#[inline(always)]
fn head_at_with<L: Ledger>(octets: &[u8], offset: usize, blank: Blank) -> Result<Head, NameFault>
    requires ledger { blank.name ≡ L.name }
    requires parts { blank.parts ≡ L.parts }
    requires some { 0 < blank.parts }
    ensures { MatchResult result (IsHeadAt octets.now offset) (BrokenAt octets.now offset) }
{
    let mut heads = Heads::<L>::new(blank);
    read_head(octets, offset, &mut heads)
}

/// The hash of the label at the offset, and whether a label stands there at all that ends at `last` at the latest.
fn hash_there(octets: &[u8], offset: usize, last: usize) -> (bool, u16)
    requires { offset < 16384 }
    ensures { result.0 ≡ true → HasHash octets.now offset last result.1 }
{
    let Ok(Head::Label(len)) = head_at(octets, offset) else {
        return (false, 0);
    };
    let start = offset + 1;
    let end = start + usize::from(len);
    if end > last || last > octets.len() {
        return (false, 0);
    }
    (true, hash(&octets[start..end]))
}

/// The same of a remembered offset, by the hash that was kept where the hashes count.
pub(crate) fn hash_kept(octets: &[u8], written: Written, hashed: bool) -> (bool, u16)
    ensures { IsHashedIf hashed octets.now written → result.0 ≡ true
        → IsHashOf octets.now written result.1 }
{
    if hashed {
        return (true, written.hash);
    }
    let (offset, end) = (usize::from(written.offset), usize::from(written.end));
    hash_there(octets, offset, end)
}

/// Whether a name whose first label has a marked hash may stand at the offset. Where a pointer stands it may.
fn may_stand(octets: &[u8], offset: usize, marks: &[u8; 256]) -> bool
    requires { offset < 16384 }
    ensures { LetsMarkedPass marks.now octets.now offset result }
{
    let Ok(head) = head_at(octets, offset) else {
        return false;
    };
    match head {
        Head::Root => false,
        Head::Label(len) => {
            let start = offset + 1;
            is_marked(marks, hash(&octets[start..start + usize::from(len)]))
        }
        Head::Pointer(_target) => true,
    }
}

/// The same of a remembered offset, by the hash that was kept where the hashes count.
pub(crate) fn may_stand_there(
    octets: &[u8],
    written: Written,
    marks: &[u8; 256],
    hashed: bool,
) -> bool
    requires { IsHashedIf hashed octets.now written }
    ensures { LetsMarkedPass marks.now octets.now written.offset result }
{
    if hashed {
        return is_marked(marks, written.hash);
    }
    may_stand(octets, usize::from(written.offset), marks)
}
