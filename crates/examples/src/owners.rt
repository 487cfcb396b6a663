//! A type of one's own around one kind of names, which is itself a name.
ghost use Rattle.std.specs.Prelude.{⊤};
ghost use Rattle.std.proofs.Common.{inl};
ghost use Rattle.domain_name.specs.Names.{name_labels};
ghost use Rattle.domain_name.proofs.NameFields.{flat_absolute};

use domain_flat::NameIter;
use domain_list::{Absolute, AbsoluteLabels, NameLabels, ToLabelIter};
use domain_name::Name;

/// The owner of records, and how many records it has.
#[derive(Drop)]
pub struct Owner {
    pub name: Name<Vec<u8>>,
    pub records: u32,
}

impl NameLabels for Owner {
    ghost labels = { λ owner. name_labels owner.name };

    fn compose_len(&self) -> u16 {
        self.name.compose_len()
    }

    fn is_absolute(&self) -> bool {
        true
    }

    ghost lawful = { λ owner. inl (flat_absolute owner.name) };
}

impl Absolute for Owner {
    ghost absolute = { λ owner. flat_absolute owner.name };
}

impl<'a> ToLabelIter<'a> for Owner {
    type LabelIter = NameIter<'a>;

    fn iter_labels(&'a self) -> NameIter<'a> {
        self.name.iter_labels()
    }

    ghost lies_flat = { λ _. ⊤ };

    fn as_flat_slice(&'a self) -> Option<&'a [u8]> {
        self.name.as_flat_slice()
    }
}

impl<'a> AbsoluteLabels<'a> for Owner {}
