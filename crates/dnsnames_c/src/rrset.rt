//! RRsets in messages that are built in the caller's buffer, whole or not at all (RFC 2181, 5 and 9), and marks.
ghost use Rattle.std.specs.Prelude.{IfOk, IfErr};
ghost use Rattle.domain_buffer.specs.Builders.{headed_by_wire};
ghost use Rattle.dnsnames_c.specs.Rrsets.{MayPush, RefusesAsked, GivesRrset, GivesRequired, GivesExtra, GoesBack};

use crate::builder::{number_of_push, section_named};
use domain_buffer::builder::{Builder, Head, is_usable};
use domain_buffer::mark::{go_back, is_mark};
use domain_buffer::rrset::{are_lengths, push_extra, push_required, push_rrset};
use domain_message::Section;
use domain_name::Name;

/// The section of a number, where an RRset of this owner and these lengths of data may be pushed. Otherwise the status
/// of the first of these tests that fails.
fn section_for(
    octets: &[u8],
    builder: &Builder,
    section: u32,
    owner: &[u8],
    data: &[u8],
    lens: &[u16],
) -> Result<Section, u32>
    ensures ok { IfOk result
        (MayPush section owner.now data.now lens.now octets.now builder.now) }
    ensures err { IfErr result
        (RefusesAsked section owner.now data.now lens.now octets.now builder.now) }
{
    if !is_usable(octets, builder) {
        return Err(23);
    }
    let Some(named) = section_named(section) else {
        return Err(26);
    };
    let Ok(_) = Name::from_slice(owner) else {
        return Err(9);
    };
    if !are_lengths(lens, data.len()) {
        return Err(20);
    }
    Ok(named)
}

/// Pushes an RRset into a section, or nothing: a record for each of the data, in their order (RFC 2181, 5). The data
/// stand one after the other, and `lens` has how many octets each has. Each record is written as by
/// `dnsnames_builder_record`.
///
/// Returns 23, 26 and 9 as that does, and 20 if the lengths don't make up the data. For the first record that is
/// refused after those before it, it returns 24, 25 and 8 as that does. In each of these cases the message is
/// unchanged: what the buffer has after it, up to the limit, may be written over.
#[unsafe(no_mangle)]
pub extern "C" fn dnsnames_builder_rrset(
    octets: &mut [u8],
    builder: &mut Builder,
    section: u32,
    owner: &[u8],
    rtype: u16,
    class: u16,
    ttl: u32,
    data: &[u8],
    lens: &[u16],
) -> u32
    ensures { GivesRrset section owner.now (headed_by_wire owner.now rtype class ttl) data.now
        lens.now result octets.old builder.old octets.new builder.new }
{
    let section = match section_for(octets, builder, section, owner, data, lens) {
        Ok(section) => section,
        Err(status) => return status,
    };
    let head = Head { rtype, class, ttl };
    match push_rrset(octets, builder, section, owner, head, data, lens) {
        Ok(()) => 0,
        Err(fault) => number_of_push(fault),
    }
}

/// Pushes an RRset that an answer can't do without, or sets TC where it has no room (RFC 2181, 9). These are the
/// RRsets of the answer section, the name servers of a referral and those of their addresses that are glue (RFC 9471,
/// 3). `pushed` becomes 1 if it was pushed, and 0 if it has no room: only TC is then set.
///
/// Returns 23, 26, 9, 20, 24 and 25 as `dnsnames_builder_rrset` does. In each of these cases the message is unchanged.
#[unsafe(no_mangle)]
pub extern "C" fn dnsnames_builder_required(
    octets: &mut [u8],
    builder: &mut Builder,
    section: u32,
    owner: &[u8],
    rtype: u16,
    class: u16,
    ttl: u32,
    data: &[u8],
    lens: &[u16],
    pushed: &mut u32,
) -> u32
    ensures { GivesRequired section owner.now (headed_by_wire owner.now rtype class ttl) data.now
        lens.now result pushed.old pushed.new octets.old builder.old octets.new builder.new }
{
    let section = match section_for(octets, builder, section, owner, data, lens) {
        Ok(section) => section,
        Err(status) => return status,
    };
    let head = Head { rtype, class, ttl };
    match push_required(octets, builder, section, owner, head, data, lens) {
        Ok(told) => {
            *pushed = if told { 1 } else { 0 };
            0
        }
        Err(fault) => number_of_push(fault),
    }
}

/// Pushes an RRset that an answer can do without, or leaves it out where it has no room: TC isn't set for it (RFC
/// 2181, 9). `pushed` becomes 1 if it was pushed, and 0 if it has no room: the message is then unchanged.
///
/// Returns 23, 26, 9, 20, 24 and 25 as `dnsnames_builder_rrset` does. In each of these cases the message is unchanged.
#[unsafe(no_mangle)]
pub extern "C" fn dnsnames_builder_extra(
    octets: &mut [u8],
    builder: &mut Builder,
    section: u32,
    owner: &[u8],
    rtype: u16,
    class: u16,
    ttl: u32,
    data: &[u8],
    lens: &[u16],
    pushed: &mut u32,
) -> u32
    ensures { GivesExtra section owner.now (headed_by_wire owner.now rtype class ttl) data.now
        lens.now result pushed.old pushed.new octets.old builder.old octets.new builder.new }
{
    let section = match section_for(octets, builder, section, owner, data, lens) {
        Ok(section) => section,
        Err(status) => return status,
    };
    let head = Head { rtype, class, ttl };
    match push_extra(octets, builder, section, owner, head, data, lens) {
        Ok(told) => {
            *pushed = if told { 1 } else { 0 };
            0
        }
        Err(fault) => number_of_push(fault),
    }
}

/// Takes away what was pushed after the mark, which is a copy of the builder as it was then. The identifier, the flags
/// and the limit stay as they are.
///
/// Returns 23 as `dnsnames_builder_record` does, and 31 if the mark is no builder of this message as these calls leave
/// it, or if it is longer than the message. In each of these cases nothing is changed. A mark that was taken after an
/// earlier one is void once the message went back to that: no call can tell so.
#[unsafe(no_mangle)]
pub extern "C" fn dnsnames_builder_rewind(
    octets: &[u8],
    builder: &mut Builder,
    mark: &Builder,
) -> u32
    ensures { GoesBack result octets.now mark.now builder.old builder.new }
{
    if !is_usable(octets, builder) {
        return 23;
    }
    if !is_mark(builder, mark) {
        return 31;
    }
    go_back(builder, mark);
    0
}
