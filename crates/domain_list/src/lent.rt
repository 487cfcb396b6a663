//! A reference to a name is a name.

use crate::labels::{Absolute, AbsoluteLabels, NameLabels, Relative, RelativeLabels, ToLabelIter};

impl<N: NameLabels> NameLabels for &N {
    ghost labels = { λ n. N.labels n.now };

    fn compose_len(&self) -> u16 {
        (**self).compose_len()
    }

    fn is_absolute(&self) -> bool {
        (**self).is_absolute()
    }

    ghost lawful = { λ n. N.lawful n.now };
}

impl<N: Absolute> Absolute for &N {
    ghost absolute = { λ n. N.absolute n.now };
}

impl<N: Relative> Relative for &N {
    ghost relative = { λ n. N.relative n.now };
}

/// The labels are those of the borrowed name; `as_flat_slice` is always `None`.
impl<'a, 'b, N: ToLabelIter<'a>> ToLabelIter<'a> for &'b N {
    type LabelIter = N::LabelIter;

    fn iter_labels(&'a self) -> N::LabelIter {
        let name: &'a N = *self;
        name.iter_labels()
    }

    ghost lies_flat = { λ _. ⊥ };

    fn as_flat_slice(&'a self) -> Option<&'a [u8]> {
        None
    }
}

impl<'a, 'b, N: AbsoluteLabels<'a>> AbsoluteLabels<'a> for &'b N {}

impl<'a, 'b, N: RelativeLabels<'a>> RelativeLabels<'a> for &'b N {}
