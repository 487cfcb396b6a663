//! The labels of a name.
ghost use Rattle.std.specs.Prelude.{◌≡◌, ◌≢◌, ◌<◌, ◌+◌, length, take, ◌↔◌};
ghost use Rattle.domain_label.specs.Wire.{wire, labels_in, IsAbsoluteWire};
ghost use Rattle.dnsnames_c.specs.Labels.{GivesOffset, GivesOffsetBack};

use domain_flat::iter::first_label;
use domain_name::Name;

/// How many labels a name has, the root among them. 9 where it is no name.
#[unsafe(no_mangle)]
pub extern "C" fn dnsnames_label_count(name: &[u8], count: &mut usize) -> u32
    ensures named { (result ≡ 0) ↔ IsAbsoluteWire name.now }
    ensures count { result ≡ 0 → count.new ≡ length (labels_in name.now) }
    ensures err { result ≢ 0 → (result ≡ 9) × (count.new ≡ count.old) }
{
    let Ok(name) = Name::from_slice(name) else {
        return 9;
    };
    *count = name.label_count();
    0
}

/// The offset at which the label begins that has `index` labels before it.
fn offset_of(name: &[u8], index: usize) -> usize
    requires name { IsAbsoluteWire name.now }
    requires some { index < length (labels_in name.now) }
    ensures { result ≡ length (wire (take index (labels_in name.now))) }
{
    let mut rest = name;
    let mut passed = 0;
    'labels: while passed < index {
        let Some((_, after)) = first_label(rest) else {
            unreachable!();
        };
        rest = after;
        passed += 1;
    }
    name.len() - rest.len()
}

/// The offset in a name of the label that has `index` labels before it; its length octet stands there, and what
/// begins there is a name. 10 where the name has no more than `index` labels, 9 where it is no name.
#[unsafe(no_mangle)]
pub extern "C" fn dnsnames_label(name: &[u8], index: usize, offset: &mut usize) -> u32
    ensures { GivesOffset name.now index result offset.old offset.new }
{
    let Ok(whole) = Name::from_slice(name) else {
        return 9;
    };
    if index >= whole.label_count() {
        return 10;
    }
    *offset = offset_of(name, index);
    0
}

/// The offset in a name of the label that has `index` labels after it, as `dnsnames_label` gives it. The root has
/// none after it.
#[unsafe(no_mangle)]
pub extern "C" fn dnsnames_label_back(name: &[u8], index: usize, offset: &mut usize) -> u32
    ensures { GivesOffsetBack name.now index result offset.old offset.new }
{
    let Ok(whole) = Name::from_slice(name) else {
        return 9;
    };
    let count = whole.label_count();
    if index >= count {
        return 10;
    }
    *offset = offset_of(name, count - index - 1);
    0
}

/// The offset in a name of its second label, where its parent begins. 10 for the root, which has none; 9 where it is
/// no name.
#[unsafe(no_mangle)]
pub extern "C" fn dnsnames_parent(name: &[u8], offset: &mut usize) -> u32
    ensures { GivesOffset name.now 1 result offset.old offset.new }
{
    dnsnames_label(name, 1, offset)
}
