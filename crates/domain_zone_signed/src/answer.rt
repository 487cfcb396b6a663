//! An RRset of the answer section.

use domain_name::Name;
use domain_zone_answer::{SectionRrset, SynthesizedCname};

/// An RRset of the answer section.
#[derive(Clone, Copy)]
pub enum AnswerRrset<'a> {
    /// One of the zone.
    Zones(SectionRrset<'a>),
    /// The CNAME that a DNAME makes.
    Made(SynthesizedCname<'a>),
}

impl<'a> AnswerRrset<'a> {
    ghost use Rattle.std.specs.Prelude.{◌≡◌};
    ghost use Rattle.domain_name.specs.Names.{name_labels};
    ghost use Rattle.domain_zone_signed.specs.ChainViews.{answer_view};

    /// Returns the owner of the records.
    pub fn owner(&self) -> Name<&'a [u8]>
        ensures { name_labels result ≡ (answer_view self.now).owner }
    {
        match self {
            AnswerRrset::Zones(set) => set.owner(),
            AnswerRrset::Made(cname) => cname.owner(),
        }
    }

    /// Returns the type of the records.
    pub fn rtype(&self) -> u16
        ensures { result ≡ (answer_view self.now).rtype }
    {
        match self {
            AnswerRrset::Zones(set) => set.rtype(),
            AnswerRrset::Made(_) => 5,
        }
    }
    /// Returns the TTL of the records, in seconds. RRSIG records of the zone have the TTLs that `record_ttl` returns.
    pub fn ttl(&self) -> u32
        ensures { result ≡ (answer_view self.now).ttl }
    {
        match self {
            AnswerRrset::Zones(set) => set.ttl(),
            AnswerRrset::Made(cname) => cname.ttl(),
        }
    }
}
