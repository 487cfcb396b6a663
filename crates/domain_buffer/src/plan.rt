//! Writing names with compression, over a table of offsets (RFC 1035, 4.1.4).
ghost use Rattle.std.specs.Prelude.{◌≡◌, ◌≤◌, length, take, drop, IsTrue, ◌↔◌, IfSome, IsNone};
ghost use Rattle.domain_label.specs.Wire.{IsWire, IsAbsoluteWire};
ghost use Rattle.domain_buffer.specs.Plans.{IsTable, Spells, WritesAs, NameExceedsRoom, AddsOffsets};

use crate::put::put;
use domain_compress::plan::{more_offsets, plan, put_pointed};
use domain_list::composing::put_octets;

/// Whether these are at most 128 offsets to which a pointer can lead.
pub fn is_table(table: &[u16]) -> bool
    ensures { IsTrue result ↔ IsTable table.now }
{
    if table.len() > 128 {
        return false;
    }
    for offset in table {
        if *offset >= 16384 {
            return false;
        }
    }
    true
}

/// What is written for a name: how many octets of it, and how many octets in all.
#[derive(Clone, Copy)]
pub struct Spelled {
    pub begin: usize,
    pub len: usize,
}

/// Puts what is to be written for a name after the octets, as `plan` of `domain_compress` tells, at the beginning of a
/// text.
pub fn spell(octets: &[u8], table: &[u16], name: &[u8], text: &mut [u8; 255]) -> Spelled
    requires table { IsTable table.now }
    requires wire { IsAbsoluteWire name.now }
    ensures spells { Spells octets.now table.now name.now result.begin (take result.len text.new) }
    ensures fits { result.len ≤ 255 }
{
    match plan(octets, table, name) {
        Some(beginning) => Spelled {
            begin: beginning.begin,
            len: put_pointed(name, beginning.begin, beginning.offset, text),
        },
        None => {
            put_octets(name, text, 0);
            Spelled {
                begin: name.len(),
                len: name.len(),
            }
        }
    }
}

/// What was written for a name: how many octets of it, and the offset after all that was written.
#[derive(Clone, Copy)]
pub struct Written {
    pub begin: usize,
    pub end: usize,
}

/// Writes a name from an offset on, as `plan` of `domain_compress` tells. `None` where it doesn't fit: the octets then
/// stay.
pub fn write_name(octets: &mut [u8], start: usize, table: &[u16], name: &[u8]) -> Option<Written>
    requires start { start ≤ length octets.old }
    requires table { IsTable table.now }
    requires wire { IsAbsoluteWire name.now }
    ensures some { IfSome result (WritesAs octets.old start table.now name.now octets.new) }
    ensures none { IsNone result → NameExceedsRoom octets.old start table.now name.now octets.new }
{
    let mut text = [0; 255];
    let spelled = spell(&octets[..start], table, name, &mut text);
    if !put(&text[..spelled.len], octets, start) {
        return None;
    }
    Some(Written {
        begin: spelled.begin,
        end: start + spelled.len,
    })
}

/// Adds the offsets of labels that were written from `start` on to the first `count` offsets of the table. It adds
/// those to which a pointer can lead, as far as the table has room for them, up to 128 in all. Returns how many there
/// are then.
pub fn add_offsets(table: &mut [u16], count: usize, labels: &[u8], start: usize) -> usize
    requires count { count ≤ length table.old }
    requires few { IsTable (take count table.old) }
    requires labels { IsWire labels.now }
    ensures fits { result ≤ length table.new }
    ensures table { AddsOffsets count table.old start labels.now result table.new }
    ensures rest { drop result table.new ≡ drop result table.old }
{
    let more = more_offsets(&table[..count], labels, start);
    let len = more.len().min(table.len());
    table[..len].copy_from_slice(&more[..len]);
    len
}
