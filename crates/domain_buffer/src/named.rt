//! Records whose data have names, which are written with compression (RFC 1035, 4.1.4).
ghost use Rattle.std.specs.Prelude.{◌≡◌, ◌⊎◌, ◌<◌, ◌≤◌, ◌+◌, ◌^◌, [], length, take, IsTrue, IfSome, IsSome, IsNone};
ghost use Rattle.domain_label.specs.Wire.{IsAbsoluteWire};
ghost use Rattle.domain_buffer.specs.Plans.{IsTable};
ghost use Rattle.domain_buffer.specs.Builders.{IsUsable};
ghost use Rattle.domain_buffer.specs.Data.{found_fields, IsNamed};
ghost use Rattle.domain_buffer.specs.Named.{SpellsAny, len_after_owner, PutsData, EndsRecord, EndExceedsLimit, EntersNamedIfRoom, NamesReadBack};

use crate::builder::{Builder, Head, head_octets, put_entry};
use crate::data::NamedData;
use crate::plan::{Spelled, add_offsets, spell};
use crate::put::put_at;

/// Puts what is to be written for a name after the octets into a text, or nothing for nothing.
fn spell_any(octets: &[u8], table: &[u16], name: &[u8], text: &mut [u8; 255]) -> Spelled
    requires table { IsTable table.now }
    requires name { (name.now ≡ []) ⊎ IsAbsoluteWire name.now }
    ensures spells { SpellsAny octets.now table.now name.now result.begin
        (take result.len text.new) }
    ensures fits { result.len ≤ 255 }
{
    if name.is_empty() {
        return Spelled { begin: 0, len: 0 };
    }
    spell(octets, table, name, text)
}

/// Puts what follows an owner's name into the buffer from an offset on: a head, and data, whose names are spelled out
/// in `first` and `second`.
fn put_data(
    head: &[u8],
    fields: NamedData<'_>,
    first: &[u8],
    second: &[u8],
    buffer: &mut [u8],
    offset: usize,
)
    requires { offset + len_after_owner head.now fields first.now second.now ≤ length buffer.old }
    ensures { PutsData offset head.now fields.entry first.now second.now buffer.old buffer.new }
{
    let second_at = offset + head.len() + fields.before.len() + first.len();
    put_entry(head, fields.before, first, buffer, offset);
    put_at(second, buffer, second_at);
    put_at(fields.after, buffer, second_at + second.len());
}

/// What was written: the offset after it, and how many offsets the table has then.
#[derive(Clone, Copy)]
struct RecordEnd {
    end: usize,
    count: usize,
}

/// Writes what follows an owner's name, which ends before `start`: the head, and the data, whose names are written as
/// `plan` of `domain_compress` tells over what stands before `start`. The offsets of their labels are remembered.
/// `None` where it exceeds the limit: nothing is changed.
fn write_after_owner(
    octets: &mut [u8],
    start: usize,
    limit: usize,
    table: &mut [u16; 128],
    count: usize,
    head: Head,
    fields: NamedData<'_>,
) -> Option<RecordEnd>
    requires start { start + 10 ≤ limit }
    requires limit { limit ≤ length octets.old }
    requires small { limit ≤ 65535 }
    requires count { count ≤ 128 }
    requires table { IsTable (take count table.old) }
    requires named { IsNamed head.rtype (found_fields fields) }
    requires before { length fields.before.now ≤ 6 }
    requires after { length fields.after.now ≤ 20 }
    ensures some { IfSome result
        (EndsRecord octets.old start limit (take count table.old) head fields.entry octets.new
        table.new) }
    ensures none { IsNone result →
        EndExceedsLimit octets.old start limit (take count table.old) fields.entry octets.new }
    ensures rtype { IsSome result → head.rtype < 2 ^ 16 }
    ensures class { IsSome result → head.class < 2 ^ 16 }
    ensures ttl { IsSome result → head.ttl < 2 ^ 32 }
{
    let (mut first_text, mut second_text) = ([0; 255], [0; 255]);
    let message = &octets[..start];
    let first = spell(message, &table[..count], fields.first, &mut first_text);
    let second = spell_any(message, &table[..count], fields.second, &mut second_text);
    let len = fields.before.len() + first.len + second.len + fields.after.len();
    if limit - start - 10 < len {
        return None;
    }
    let before_data = head_octets(head, len as u16);
    let (first_octets, second_octets) = (&first_text[..first.len], &second_text[..second.len]);
    put_data(
        &before_data,
        fields,
        first_octets,
        second_octets,
        octets,
        start,
    );
    let first_at = start + 10 + fields.before.len();
    let more = add_offsets(table, count, &fields.first[..first.begin], first_at);
    let second_at = first_at + first.len;
    let count = add_offsets(table, more, &fields.second[..second.begin], second_at);
    Some(RecordEnd {
        end: start + 10 + len,
        count,
    })
}

/// Writes a record whose data have names after the message. The owner's name is written as `plan` of `domain_compress`
/// says. Each name in the data is written as it says for the message up to and including the owner's name. The offsets
/// of all their labels are remembered. Returns false if the record exceeds the limit: nothing is changed.
pub fn enter_named(
    octets: &mut [u8],
    builder: &mut Builder,
    owner: &[u8],
    head: Head,
    fields: NamedData<'_>,
) -> bool
    requires usable { IsUsable octets.old builder.old }
    requires owner { IsAbsoluteWire owner.now }
    requires named { IsNamed head.rtype (found_fields fields) }
    requires before { length fields.before.now ≤ 6 }
    requires after { length fields.after.now ≤ 20 }
    ensures done { EntersNamedIfRoom result octets.old builder.old owner.now head fields.entry
        octets.new builder.new }
    ensures rtype { IsTrue result → head.rtype < 2 ^ 16 }
    ensures class { IsTrue result → head.class < 2 ^ 16 }
    ensures ttl { IsTrue result → head.ttl < 2 ^ 32 }
{
    let (start, limit) = (builder.len, builder.limit);
    let (mut text, mut kept) = ([0; 255], [0; 255]);
    let mut table = builder.table;
    let count = builder.table_len;
    let named = spell(&octets[..start], &table[..count], owner, &mut text);
    let after_owner = start + named.len;
    if limit < after_owner + 10 {
        return false;
    }
    // Names in the data may lead into the owner's name, so that is written first, and taken away again where the rest
    // doesn't fit.
    kept[..named.len].copy_from_slice(&octets[start..after_owner]);
    put_at(&text[..named.len], octets, start);
    let count = add_offsets(&mut table, count, &owner[..named.begin], start);
    match write_after_owner(octets, after_owner, limit, &mut table, count, head, fields) {
        Some(written) => {
            builder.table_len = written.count;
            builder.table = table;
            builder.len = written.end;
            true
        }
        None => {
            put_at(&kept[..named.len], octets, start);
            false
        }
    }
}

/// Names in data that were pushed are read in the finished message as equal names: a law, and nothing to run.
pub fn named_laws()
    ensures { NamesReadBack }
{}
