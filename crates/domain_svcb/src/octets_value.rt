//! The octets of a value as text (RFC 9460, 2.1).
ghost use Rattle.std.specs.Prelude.{◌≤◌, length, Some};
ghost use Rattle.domain_svcb.specs.Values.{octets_value};

use domain_strings::QuotedOctets;
use std::fmt;

/// The octets of a value, shown after a sign of equality and between quotes; nothing where there is none.
#[derive(Clone, Copy)]
pub(crate) struct OctetsValue<'a> {
    pub(crate) octets: &'a [u8],
    ghost short: { length octets.now ≤ 65535 },
}

impl<'a> fmt::Display for OctetsValue<'a> {
    ghost output = { λ it. Some (octets_value it.octets.now) };

    fn fmt<W: fmt::Write>(&self, f: &mut fmt::Formatter<W>) -> fmt::Result {
        if self.octets.is_empty() {
            return Ok(());
        }
        let Ok(octets) = QuotedOctets::from_octets(self.octets) else {
            unreachable!();
        };
        write!(f, "={octets}")
    }
}
