//! Chains of names of any type.
ghost use Rattle.std.specs.Prelude.{◌≡◌, ◌↔◌, IsNone, IfSome};
ghost use Rattle.domain_list.specs.ChainParts.{left_part, right_part};
ghost use Rattle.examples.specs.FlatNames.{CannotChain};

use domain_list::{Chain, NameLabels};

/// The labels of a name of any type and then those of another, where the first turns out to be relative
/// and both fit.
pub fn put_before<L: NameLabels + Drop, R: NameLabels + Drop>(
    left: L,
    right: R,
) -> Option<Chain<L, R>>
    ensures parts { IfSome result (λ chain. (left_part chain ≡ left) × (right_part chain ≡ right)) }
    ensures none { IsNone result ↔ CannotChain (L.labels left) (R.labels right) }
{
    if left.is_absolute() {
        return None;
    }
    Chain::new(left, right).ok()
}
