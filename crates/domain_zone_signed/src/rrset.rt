//! An RRset in a section of a response.

use crate::answer::AnswerRrset;
use crate::signatures::Signatures;
use domain_name::Name;

/// An RRset in a section of a response, or the signatures of the one before it.
#[derive(Clone, Copy)]
pub enum ResponseRrset<'a> {
    /// One of the zone, or the CNAME that a DNAME makes.
    Rrset(AnswerRrset<'a>),
    /// The RRSIG records that cover it.
    Signatures(Signatures<'a>),
}

impl<'a> ResponseRrset<'a> {
    ghost use Rattle.std.specs.Prelude.{◌≡◌};
    ghost use Rattle.domain_name.specs.Names.{name_labels};
    ghost use Rattle.domain_zone_signed.specs.SignedViews.{response_view};

    /// Returns the owner of the records.
    pub fn owner(&self) -> Name<&'a [u8]>
        ensures { name_labels result ≡ (response_view self.now).owner }
    {
        match self {
            ResponseRrset::Rrset(set) => set.owner(),
            ResponseRrset::Signatures(signatures) => signatures.owner(),
        }
    }

    /// Returns the type of the records.
    pub fn rtype(&self) -> u16
        ensures { result ≡ (response_view self.now).rtype }
    {
        match self {
            ResponseRrset::Rrset(set) => set.rtype(),
            ResponseRrset::Signatures(_) => 46,
        }
    }
}
