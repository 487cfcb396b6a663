//! Writing the labels before a suffix of a name, and a pointer to where that stands.
ghost use Rattle.std.specs.Prelude.{◌≡◌, ◌≤◌, ◌<◌, ◌+◌, ◌++◌, length, OnOk, OnErr, IfOk};
ghost use Rattle.octseq.specs.Appending.{TooFull};
ghost use Rattle.domain_label.specs.Wire.{IsAbsoluteWire};
ghost use Rattle.domain_compress.specs.Beginnings.{pointed, Repeats, BeginsName, NoRoomFor};
ghost use Rattle.domain_compress.specs.Compressing.{pointer_to};
ghost use Rattle.domain_compress.specs.Hashes.{IsKnown};
ghost use Rattle.domain_compress.specs.Written.{SuffixWritten};

use crate::plan::{find_beginning, pointer, put_pointed};
use crate::written::{Written, WrittenSuffix};
use octseq::OctetsBuilder;

/// Appends a pointer to an offset.
#[inline(always)]
fn append_pointer<Target: OctetsBuilder>(
    target: &mut Target,
    offset: u16,
) -> Result<(), Target::AppendError>
    requires { offset < 16384 }
    ensures ok { OnOk result
        (Target.octets target.new ≡ Target.octets target.old ++ pointer_to offset) }
    ensures unchanged { OnErr result (Target.octets target.new ≡ Target.octets target.old) }
    ensures full { OnErr result
        (TooFull Target.Octets target.old (pointer_to offset)) }
    ensures capacity { Target.capacity target.old ≤ Target.capacity target.new }
{
    target.append_slice(&pointer(offset))
}

/// Appends the first `begin` octets of a name, and a pointer to an offset after them.
///
/// It isn't inlined, since its buffer is cleared wherever it is a part of another function.
#[inline(never)]
fn append_pointed<Target: OctetsBuilder>(
    target: &mut Target,
    name: &[u8],
    begin: usize,
    offset: u16,
) -> Result<(), Target::AppendError>
    requires low { offset < 16384 }
    requires inside { begin + 2 ≤ length name.now }
    requires short { length name.now ≤ 255 }
    ensures ok { OnOk result
        (Target.octets target.new ≡ Target.octets target.old ++ pointed name.now begin offset) }
    ensures unchanged { OnErr result (Target.octets target.new ≡ Target.octets target.old) }
    ensures full { OnErr result
        (TooFull Target.Octets target.old (pointed name.now begin offset)) }
    ensures capacity { Target.capacity target.old ≤ Target.capacity target.new }
{
    let mut octets = [0; 255];
    let len = put_pointed(name, begin, offset, &mut octets);
    target.append_slice(&octets[..len])
}

/// The same, where there may be no octets before the pointer.
#[inline(always)]
fn append_begun<Target: OctetsBuilder>(
    target: &mut Target,
    name: &[u8],
    begin: usize,
    offset: u16,
) -> Result<(), Target::AppendError>
    requires low { offset < 16384 }
    requires inside { begin + 2 ≤ length name.now }
    requires short { length name.now ≤ 255 }
    ensures ok { OnOk result
        (Target.octets target.new ≡ Target.octets target.old ++ pointed name.now begin offset) }
    ensures unchanged { OnErr result (Target.octets target.new ≡ Target.octets target.old) }
    ensures full { OnErr result
        (TooFull Target.Octets target.old (pointed name.now begin offset)) }
    ensures capacity { Target.capacity target.old ≤ Target.capacity target.new }
{
    if begin == 0 {
        return append_pointer(target, offset);
    }
    append_pointed(target, name, begin, offset)
}

/// Appends a pointer to where the whole name stands.
#[inline(always)]
pub(crate) fn append_again<Target: OctetsBuilder>(
    target: &mut Target,
    written: &[Written],
    name: &[u8],
    found: WrittenSuffix,
) -> Result<(), Target::AppendError>
    requires wire { IsAbsoluteWire name.now }
    requires found { SuffixWritten (Target.octets target.now) written.now name.now found }
    requires whole { found.begin ≡ 0 }
    requires plain { found.pointers ≡ 0 }
    ensures ok { OnOk result
        (Repeats Target.OctetsBuilder written.now name.now target.old target.new) }
    ensures unchanged { OnErr result (Target.octets target.new ≡ Target.octets target.old) }
    ensures full { OnErr result
        (NoRoomFor Target.OctetsBuilder written.now name.now target.old) }
    ensures capacity { Target.capacity target.old ≤ Target.capacity target.new }
{
    match append_pointer(target, found.offset) {
        Ok(()) => Ok(()),
        Err(e) => Err(e),
    }
}

/// Appends the labels before the longest suffix of the name that was written, and a pointer to it. `None` where
/// there is no such suffix, or one pointer too many would lead along the name: it is then to be written uncompressed.
pub(crate) fn append_beginning<Target: OctetsBuilder>(
    target: &mut Target,
    written: &[Written],
    name: &[u8],
    hashed: bool,
) -> Result<Option<usize>, Target::AppendError>
    requires wire { IsAbsoluteWire name.now }
    requires known { IsKnown hashed (Target.octets target.now) written.now }
    ensures ok { IfOk result
        (BeginsName Target.OctetsBuilder written.now name.now target.old target.new) }
    ensures unchanged { OnErr result (Target.octets target.new ≡ Target.octets target.old) }
    ensures full { OnErr result
        (NoRoomFor Target.OctetsBuilder written.now name.now target.old) }
    ensures capacity { Target.capacity target.old ≤ Target.capacity target.new }
{
    let Some(beginning) = find_beginning(target.as_slice(), written, name, hashed) else {
        return Ok(None);
    };
    let (begin, offset) = (beginning.begin, beginning.offset);
    match append_begun(target, name, begin, offset) {
        Ok(()) => Ok(Some(begin)),
        Err(e) => Err(e),
    }
}
