//! The options of an OPT record with padding after them (RFC 7830, 3).
ghost use Rattle.std.specs.Prelude.{◌≡◌, ◌≤◌, ◌+◌, length, None, true, refl, OnOk, OnErr};
ghost use Rattle.octseq.specs.Appending.{GrowsBy, LacksSpare, TooFull};
ghost use Rattle.domain_rdata.specs.Targets.{RemembersAsBefore};
ghost use Rattle.domain_message_builder.specs.Padding.{padded, ZerosFollow, SomeFollow, IsExtended};

use domain_rdata::{ComposeRecordData, Composer, RecordData, Rtype};
use octseq::{Octets, OctetsBuilder, Truncate};

/// Appends this many zeros, up to where there is no room.
fn append_zeros<Target: Composer>(
    target: &mut Target,
    count: u16,
) -> Result<(), Target::AppendError>
    ensures ok { OnOk result (ZerosFollow Target.extends count target.old target.new) }
    ensures some { OnErr result (SomeFollow Target.extends target.old target.new) }
    ensures full { OnErr result (LacksSpare Target.Octets target.old count) }
    ensures capacity { Target.capacity target.old ≤ Target.capacity target.new }
{
    for _octet in 0..count {
        if let Err(e) = target.append_slice(&[0]) {
            return Err(e);
        }
    }
    Ok(())
}

/// Appends options, and after them an option of padding, up to where there is no room.
fn append_some_padded<Target: Composer>(
    target: &mut Target,
    options: &[u8],
    padding: u16,
) -> Result<(), Target::AppendError>
    ensures ok { OnOk result (Target.extends target.old (padded options.now padding) target.new) }
    ensures some { OnErr result (IsExtended Target.extends target.old target.new) }
    ensures full { OnErr result (TooFull Target.Octets target.old (padded options.now padding)) }
    ensures capacity { Target.capacity target.old ≤ Target.capacity target.new }
{
    if let Err(e) = target.append_slice(options) {
        return Err(e);
    }
    let [a, b] = padding.to_be_bytes();
    if let Err(e) = target.append_slice(&[0, 12, a, b]) {
        return Err(e);
    }
    append_zeros(target, padding)
}

/// Appends them all, or nothing.
fn append_padded<Target: Composer>(
    target: &mut Target,
    options: &[u8],
    padding: u16,
) -> Result<(), Target::AppendError>
    ensures ok { OnOk result
        (GrowsBy Target.Octets target.old (padded options.now padding) target.new) }
    ensures extends { OnOk result
        (Target.extends target.old (padded options.now padding) target.new) }
    ensures memory { RemembersAsBefore Target.Composer target.old target.new }
    ensures unchanged { OnErr result (Target.octets target.new ≡ Target.octets target.old) }
    ensures full { OnErr result (TooFull Target.Octets target.old (padded options.now padding)) }
    ensures capacity { Target.capacity target.old ≤ Target.capacity target.new }
{
    let start = target.as_slice().len();
    if let Err(e) = append_some_padded(target, options, padding) {
        target.truncate(start);
        return Err(e);
    }
    Ok(())
}

/// The data of an OPT record: its options, and after them an option of padding.
#[derive(Clone, Copy)]
pub(crate) struct PaddedOptions<'a> {
    options: &'a [u8],
    padding: u16,
    ghost few: { length options.now + 4 + padding ≤ 65535 },
}

impl<'a> PaddedOptions<'a> {
    ghost use Rattle.domain_message_builder.specs.PaddingViews.{padded_octets};

    /// These options, and after them this many octets of padding.
    pub(crate) fn new(options: &'a [u8], padding: u16) -> PaddedOptions<'a>
        requires { length options.now + 4 + padding ≤ 65535 }
        ensures { padded_octets result ≡ padded options.now padding }
    {
        PaddedOptions { options, padding }
    }
}

impl<'a> RecordData for PaddedOptions<'a> {
    ghost type_number = { λ _. 41 };

    fn rtype(&self) -> Rtype {
        Rtype::from_int(41)
    }
}

impl<'a> ComposeRecordData for PaddedOptions<'a> {
    ghost use Rattle.domain_rdata.specs.OctetsAlone.{octets_written};
    ghost use Rattle.domain_message_builder.specs.PaddingViews.{padded_octets};

    ghost composed = { λ it _ _ s. s ≡ padded_octets it };

    ghost written = { λ it _ extends _ old new. extends old (padded_octets it) new };

    ghost uncompressed = { padded_octets };

    ghost lowercase = { λ _. None };

    ghost knows_len = { λ _ _. true };

    fn rdlen(&self, _compress: bool) -> Option<u16> {
        Some(self.options.len() as u16 + 4 + self.padding)
    }

    fn compose_rdata<Target: Composer>(
        &self,
        target: &mut Target,
    ) -> Result<(), Target::AppendError> {
        append_padded(target, self.options, self.padding)
    }

    fn compose_canonical_rdata<Target: Composer>(
        &self,
        target: &mut Target,
    ) -> Result<(), Target::AppendError> {
        self.compose_rdata(target)
    }

    ghost plain = { λ _ _ _. refl };

    ghost flat = { λ _ _ _ h. h };

    ghost writes_composed = { λ it. octets_written (padded_octets it) };
}
