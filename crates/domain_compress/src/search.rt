//! Finding the longest suffix of a name that was written before.
ghost use Rattle.std.specs.Prelude.{◌≡◌, ◌<◌, ℕ, List, slice_index, IfSome, IsNone, true};
ghost use Rattle.std.specs.List.{All};
ghost use Rattle.domain_label.specs.Wire.{labels_in, IsAbsoluteWire};
ghost use Rattle.domain_rdata.specs.ReadBack.{StandsAt};
ghost use Rattle.domain_compress.specs.Hashes.{IsHashed, IsKnown};
ghost use Rattle.domain_compress.specs.Written.{all_remembered, StandsThrough, SuffixAt, NoSuffixAt, FindsFirst, Longest, Improves, begin_or_length};
ghost use Rattle.domain_compress.specs.Written.{HasWireLength, NoSuffixWritten, SuffixWritten, NameSpelledOut};

use crate::marks::{hash, mark_firsts, may_stand_there};
use crate::written::{FoundName, Written, WrittenSuffix};
use domain_label::ignoring_case::same_octets;
use domain_reading::head::{Head, read_head};
use domain_reading::heads::Heads;
use std::marker::Brand;
use std::sync::ledger::{Blank, Ledger};

/// The most octets that the labels of a name have before its root (RFC 1035, 3.1).
const MAX_BEFORE_ROOT: usize = 254;

/// The most suffixes of a name that are looked for by themselves.
const MOST_SUFFIXES: u8 = 8;

/// The most times that another name may stand where the hash of a suffix led to.
const MOST_MISSES: u8 = 4;

/// How many pointers lead along the name at the offset, where it is this one without case.
pub(crate) fn pointers_at(octets: &[u8], offset: usize, name: &[u8]) -> Option<u8>
    requires { IsAbsoluteWire name.now }
    ensures none { IsNone result → StandsAt octets.now offset (labels_in name.now) → ⊥ }
    ensures some { IfSome result (λ _. StandsAt octets.now offset (labels_in name.now)) }
    ensures through { IfSome result (StandsThrough octets.now offset (labels_in name.now)) }
{
    pointers_at_with::<Brand>(octets, offset, name, Blank::new(1))
}

/// The same over a count of heads, which no clause mentions.
fn pointers_at_with<L: Ledger>(
    octets: &[u8],
    offset: usize,
    name: &[u8],
    blank: Blank,
) -> Option<u8>
    requires wire { IsAbsoluteWire name.now }
    requires ledger { blank.name ≡ L.name }
    requires parts { blank.parts ≡ L.parts }
    requires some { 0 < blank.parts }
    ensures none { IsNone result → StandsAt octets.now offset (labels_in name.now) → ⊥ }
    ensures some { IfSome result (λ _. StandsAt octets.now offset (labels_in name.now)) }
    ensures through { IfSome result (StandsThrough octets.now offset (labels_in name.now)) }
{
    let mut heads = Heads::<L>::new(blank);
    let mut at = offset;
    let mut passed = 0;
    let mut pointers = 0u8;
    'heads: loop {
        let head = match read_head(octets, at, &mut heads) {
            Ok(head) => head,
            Err(_fault) => return None,
        };
        match head {
            Head::Root => {
                if name[passed] != 0 {
                    return None;
                }
                return Some(pointers);
            }
            Head::Label(len) => {
                if name[passed] != len {
                    return None;
                }
                let size = usize::from(len);
                let there = &octets[at + 1..at + 1 + size];
                let here = &name[passed + 1..passed + 1 + size];
                if !same_octets(there, here) {
                    return None;
                }
                at = at + 1 + size;
                passed = passed + 1 + size;
            }
            Head::Pointer(target) => {
                if target >= at {
                    return None;
                }
                if pointers == 255 {
                    return None;
                }
                pointers += 1;
                at = target;
            }
        }
    }
}

/// Whether the name is spelled out at a remembered offset, to the end of the name that it was written for. Its octets
/// are compared all at once.
#[inline(always)]
fn is_spelled_out(octets: &[u8], written: Written, name: &[u8]) -> bool
    requires { IsAbsoluteWire name.now }
    ensures { result ≡ true
        → StandsThrough octets.now written.offset (labels_in name.now) 0 }
{
    let offset = usize::from(written.offset);
    let end = offset + name.len();
    if end != usize::from(written.end) || end > octets.len() {
        return false;
    }
    same_octets(&octets[offset..end], name)
}

/// The same at a remembered offset, where a name may be spelled out.
fn pointers_there(octets: &[u8], written: Written, name: &[u8]) -> Option<u8>
    requires { IsAbsoluteWire name.now }
    ensures none { IsNone result → StandsAt octets.now written.offset (labels_in name.now) → ⊥ }
    ensures through { IfSome result
        (StandsThrough octets.now written.offset (labels_in name.now)) }
{
    if is_spelled_out(octets, written, name) {
        return Some(0);
    }
    pointers_at(octets, usize::from(written.offset), name)
}

/// How many octets the name at the offset has uncompressed, its root included. `None` only where no name is.
fn wire_len_at(octets: &[u8], offset: usize) -> Option<usize>
    ensures none { IsNone result
        → (ls : List (List ℕ)) → StandsAt octets.now offset ls → ⊥ }
    ensures some { IfSome result (HasWireLength octets.now offset) }
{
    wire_len_at_with::<Brand>(octets, offset, Blank::new(1))
}

/// The same over a count of heads, which no clause mentions.
fn wire_len_at_with<L: Ledger>(octets: &[u8], offset: usize, blank: Blank) -> Option<usize>
    requires ledger { blank.name ≡ L.name }
    requires parts { blank.parts ≡ L.parts }
    requires some { 0 < blank.parts }
    ensures none { IsNone result
        → (ls : List (List ℕ)) → StandsAt octets.now offset ls → ⊥ }
    ensures some { IfSome result (HasWireLength octets.now offset) }
{
    let mut heads = Heads::<L>::new(blank);
    let mut at = offset;
    let mut len = 0;
    let mut pointers = 0u8;
    'heads: loop {
        let head = match read_head(octets, at, &mut heads) {
            Ok(head) => head,
            Err(_fault) => return None,
        };
        match head {
            Head::Root => return Some(len + 1),
            Head::Label(size) => {
                let more = 1 + usize::from(size);
                if len + more > MAX_BEFORE_ROOT {
                    return None;
                }
                len += more;
                at += more;
            }
            Head::Pointer(target) => {
                if target >= at {
                    return None;
                }
                if pointers == 255 {
                    return None;
                }
                pointers += 1;
                at = target;
            }
        }
    }
}

/// The longest suffix of the name that is read at the offset, ignoring case, of those that begin before `upto`, and
/// through how many pointers it is read. The root alone is none.
///
/// What is read there can be the suffix alone that has as many octets, so no other is compared with it.
fn suffix_at(octets: &[u8], offset: usize, name: &[u8], upto: usize) -> Option<(usize, u8)>
    requires { IsAbsoluteWire name.now }
    ensures none { IsNone result → NoSuffixAt octets.now offset name.now upto }
    ensures some { IfSome result (λ r. SuffixAt octets.now offset name.now upto r.0 r.1) }
{
    let Some(len) = wire_len_at(octets, offset) else {
        return None;
    };
    let mut begin = 0;
    'ends: while begin < upto {
        if name[begin] == 0 {
            return None;
        }
        if name.len() - begin == len {
            if let Some(pointers) = pointers_at(octets, offset, &name[begin..]) {
                return Some((begin, pointers));
            }
        }
        begin = begin + 1 + usize::from(name[begin]);
    }
    None
}

/// Where the suffix begins; where there is none, how long the name is.
fn begin_or_len(end: Option<WrittenSuffix>, name: &[u8]) -> usize
    ensures { result ≡ begin_or_length end name.now }
{
    match end {
        Some(end) => end.begin,
        None => name.len(),
    }
}

/// The longer one of the longest suffix that was found so far and the one that is read at a further offset.
fn better_suffix(
    octets: &[u8],
    written: Written,
    name: &[u8],
    best: Option<WrittenSuffix>,
) -> Option<WrittenSuffix>
    requires { IsAbsoluteWire name.now }
    ensures { Improves octets.now written name.now best result }
{
    let offset = usize::from(written.offset);
    match suffix_at(octets, offset, name, begin_or_len(best, name)) {
        Some((begin, pointers)) => Some(WrittenSuffix {
            begin,
            offset: written.offset,
            pointers,
        }),
        None => best,
    }
}

/// The longest suffix of the name that is read at one of the offsets, in time that no names make longer.
///
/// It goes over the offsets once. What stands at most of them begins with a label of another hash than any suffix of
/// the name: no more is read there. What stands at the others is read twice at most, whatever was written.
#[inline(never)]
fn suffix_by_marks(
    octets: &[u8],
    written: &[Written],
    name: &[u8],
    hashed: bool,
) -> Option<WrittenSuffix>
    requires wire { IsAbsoluteWire name.now }
    requires known { IsKnown hashed octets.now written.now }
    ensures none { IsNone result → NoSuffixWritten octets.now written.now name.now }
    ensures some { IfSome result (SuffixWritten octets.now written.now name.now) }
{
    let mut marks = [0u8; 256];
    mark_firsts(&mut marks, name);
    let mut best = None;
    let mut rest = written;
    'offsets: while let Some((first, more)) = rest.split_first() {
        rest = more;
        if !may_stand_there(octets, *first, &marks, hashed) {
            continue;
        }
        best = better_suffix(octets, *first, name, best);
        if let Some(end) = best {
            if end.begin == 0 {
                return Some(end);
            }
        }
    }
    best
}

/// Where the name stands first, if at any of the offsets, by the hash of its first label. `None` where the hashes led
/// to other names too often.
fn find_first(octets: &[u8], written: &[Written], name: &[u8]) -> Option<Option<FoundName>>
    requires wire { IsAbsoluteWire name.now }
    requires some { slice_index name.now 0 ≡ 0 → ⊥ }
    requires hashed { All (IsHashed octets.now) written.now }
    ensures { IfSome result (FindsFirst octets.now written.now (labels_in name.now)) }
{
    let end = 1 + usize::from(name[0]);
    let first = hash(&name[1..end]);
    let mut misses = 0u8;
    let mut rest = written;
    'offsets: while let Some((entry, others)) = rest.split_first() {
        rest = others;
        if entry.hash != first {
            continue;
        }
        if let Some(pointers) = pointers_there(octets, *entry, name) {
            return Some(Some(FoundName {
                offset: entry.offset,
                pointers,
            }));
        }
        misses += 1;
        if misses == MOST_MISSES {
            return None;
        }
    }
    Some(None)
}

/// The longest suffix of the name that stands at one of the offsets, where the hashes count: each suffix is looked
/// for, from the longest on. `None` where that takes too long.
fn suffix_by_hashes(
    octets: &[u8],
    written: &[Written],
    name: &[u8],
) -> Option<Option<WrittenSuffix>>
    requires wire { IsAbsoluteWire name.now }
    requires hashed { All (IsHashed octets.now) written.now }
    ensures { IfSome result (Longest octets.now (all_remembered written.now) name.now) }
{
    let mut begin = 0;
    let mut suffixes = 0u8;
    'ends: while name[begin] != 0 {
        if suffixes == MOST_SUFFIXES {
            return None;
        }
        suffixes += 1;
        let Some(found) = find_first(octets, written, &name[begin..]) else {
            return None;
        };
        if let Some(at) = found {
            return Some(Some(WrittenSuffix {
                begin,
                offset: at.offset,
                pointers: at.pointers,
            }));
        }
        begin = begin + 1 + usize::from(name[begin]);
    }
    Some(None)
}

/// The first offset, where the whole name is spelled out there. It is mostly that of a question, which is often
/// written again.
#[inline(always)]
pub(crate) fn first_again(octets: &[u8], written: &[Written], name: &[u8]) -> Option<WrittenSuffix>
    requires wire { IsAbsoluteWire name.now }
    ensures { IfSome result (NameSpelledOut octets.now written.now name.now) }
{
    let Some((first, _)) = written.split_first() else {
        return None;
    };
    if name[0] != 0 && is_spelled_out(octets, *first, name) {
        return Some(WrittenSuffix {
            begin: 0,
            offset: first.offset,
            pointers: 0,
        });
    }
    None
}

/// The longest suffix of the name that is read at one of the offsets, ignoring case, and the first of these. The
/// root alone is none.
///
/// Each suffix is looked for where the hashes count. If they lead to other names too often, which whoever chooses the
/// names can bring about, the offsets are gone over once for all of the suffixes.
pub(crate) fn longest_suffix(
    octets: &[u8],
    written: &[Written],
    name: &[u8],
    hashed: bool,
) -> Option<WrittenSuffix>
    requires wire { IsAbsoluteWire name.now }
    requires known { IsKnown hashed octets.now written.now }
    ensures none { IsNone result → NoSuffixWritten octets.now written.now name.now }
    ensures some { IfSome result (SuffixWritten octets.now written.now name.now) }
{
    if written.len() == 0 {
        return None;
    }
    if hashed {
        if let Some(found) = suffix_by_hashes(octets, written, name) {
            return found;
        }
    }
    suffix_by_marks(octets, written, name, hashed)
}
