//! A type of one's own with an iterator of its own: the hosts of a zone. Their octets are nowhere in a row, so a host
//! gives nothing but its labels, and has all calls that absolute names have.
ghost use Rattle.std.specs.Prelude.{◌≡◌, ◌↔◌, IsNone, IfSome, IsTrue};
ghost use Rattle.std.proofs.Common.{inl};
ghost use Rattle.domain_label.specs.Wire.{IsAbsoluteName};
ghost use Rattle.domain_label.proofs.WireLaws.{IsAbsoluteName_prop};
ghost use Rattle.examples.specs.FlatNames.{with_zone, MakesNoHost, IsInZone};

use crate::comparing::is_in_zone;
use crate::host_labels::HostLabels;
use domain_flat::NameIter;
use domain_label::OwnedLabel;
use domain_list::{Absolute, AbsoluteLabels, NameLabels, ToLabelIter};
use domain_name::Name;

/// A host of a zone: the first label of its name, and the zone's name.
#[derive(Drop)]
pub struct Host {
    label: OwnedLabel,
    zone: Name<Vec<u8>>,
    ghost named: { IsAbsoluteName (with_zone label zone) } by { IsAbsoluteName_prop (with_zone label zone) },
}

impl Host {
    ghost use Rattle.examples.specs.Hosts.{labels_of_host};

    /// The host of this label in the zone.
    ///
    /// `None` where the label is the root's, or the name would have more than 255 octets.
    pub fn new(label: OwnedLabel, zone: Name<Vec<u8>>) -> Option<Host>
        ensures labels { IfSome result (λ host. labels_of_host host ≡ with_zone label zone) }
        ensures none { IsNone result ↔ MakesNoHost label zone }
    {
        let len = label.as_label().len();
        if len == 0 || len + 1 + zone.len() > 255 {
            return None;
        }
        Some(Host { label, zone })
    }
}

impl NameLabels for Host {
    ghost use Rattle.examples.specs.Hosts.{labels_of_host};

    ghost labels = { λ host. labels_of_host host };

    fn compose_len(&self) -> u16 {
        self.label.as_label().len() as u16 + 1 + self.zone.compose_len()
    }

    fn is_absolute(&self) -> bool {
        true
    }

    ghost lawful = { λ host. inl host.named };
}

impl Absolute for Host {
    ghost absolute = { λ host. host.named };
}

impl<'a> ToLabelIter<'a> for Host {
    type LabelIter = HostLabels<'a, NameIter<'a>>;

    fn iter_labels(&'a self) -> HostLabels<'a, NameIter<'a>> {
        HostLabels::new(self.label.as_label(), self.zone.iter())
    }

    ghost lies_flat = { λ _. ⊥ };

    fn as_flat_slice(&'a self) -> Option<&'a [u8]> {
        None
    }
}

impl<'a> AbsoluteLabels<'a> for Host {}

/// Whether a host is in a zone. The type has each call that absolute names have.
pub fn is_host_in_zone(host: &Host, ancestor: &Name<Vec<u8>>) -> bool
    ensures { IsTrue result ↔ IsInZone host.now.label host.now.zone ancestor.now }
{
    is_in_zone(host, ancestor)
}
