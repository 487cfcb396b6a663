//! A type of one's own around a name of any kind, which is itself a name: by its labels and its flat slice, with no
//! other call, it has all calls that names have.
ghost use Rattle.std.specs.Prelude.{◌≡◌, ◌↔◌, IsTrue};
ghost use Rattle.domain_label.specs.Lowercase.{lowercase_labels};

use domain_list::{Absolute, AbsoluteLabels, NameLabels, Relative, RelativeLabels, ToLabelIter};
use domain_traits::ToName;

/// A name, and how many seconds it may be kept.
#[derive(Clone, Copy, Drop)]
pub struct Dated<N> {
    pub name: N,
    pub seconds: u32,
}

impl<N: NameLabels> NameLabels for Dated<N> {
    ghost labels = { λ dated. N.labels dated.name };

    fn compose_len(&self) -> u16 {
        self.name.compose_len()
    }

    fn is_absolute(&self) -> bool {
        self.name.is_absolute()
    }

    ghost lawful = { λ dated. N.lawful dated.name };
}

impl<N: Absolute> Absolute for Dated<N> {
    ghost absolute = { λ dated. N.absolute dated.name };
}

impl<N: Relative> Relative for Dated<N> {
    ghost relative = { λ dated. N.relative dated.name };
}

impl<'a, N: ToLabelIter<'a>> ToLabelIter<'a> for Dated<N> {
    type LabelIter = N::LabelIter;

    fn iter_labels(&'a self) -> N::LabelIter {
        self.name.iter_labels()
    }

    ghost lies_flat = { λ dated. N.lies_flat dated.name };

    fn as_flat_slice(&'a self) -> Option<&'a [u8]> {
        self.name.as_flat_slice()
    }
}

impl<'a, N: AbsoluteLabels<'a>> AbsoluteLabels<'a> for Dated<N> {}

impl<'a, N: RelativeLabels<'a>> RelativeLabels<'a> for Dated<N> {}

/// Whether two dated names of any kinds are the same. The wrapper has each call that names have.
pub fn is_same<'a, N: AbsoluteLabels<'a>, M: AbsoluteLabels<'a>>(
    one: &'a Dated<N>,
    other: &'a Dated<M>,
) -> bool
    ensures { IsTrue result
        ↔ (lowercase_labels (N.labels one.now.name) ≡ lowercase_labels (M.labels other.now.name)) }
{
    one.name_eq(other)
}
