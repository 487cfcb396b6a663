//! Equality, order and hash of absolute names, all ignoring ASCII case.
ghost use Rattle.std.specs.Prelude.{refl};
ghost use Rattle.std.proofs.Common.{rules};
ghost use Rattle.std.specs.Cmp.{partial_order_from_agreeing_total, partial_equiv_from_equiv, on_equiv, on_total};
ghost use Rattle.std.specs.Cmp.Rules.{comparing};
ghost use Rattle.std.specs.Ordering.{on, as_partial_cmp};
ghost use Rattle.domain_list.specs.NameLaws.{order_is_total, same_name_is_equivalence, same_hash_input};
ghost use Rattle.domain_list.specs.HashInput.{name_hash_input};
ghost use Rattle.domain_list.specs.Order.{canonical_order, same_name};

use crate::absolute::Name;
use domain_list::comparing::{order_names, same_names};
use domain_list::hashing::hash_name;
use domain_wire::{CanonicalOrd, TotalCanonicalOrd};
use octseq::Octets;
use std::cmp::Ordering;
use std::hash::{Hash, Hasher};

/// Names are equal where their labels are, ignoring ASCII case (RFC 4343).
impl<Octs: Octets> PartialEq for Name<Octs> {
    ghost use Rattle.domain_name.specs.Names.{name_labels};

    ghost eq = { on name_labels same_name };

    ghost laws = { partial_equiv_from_equiv (on_equiv name_labels same_name_is_equivalence) };

    fn eq(&self, other: &Name<Octs>) -> bool {
        same_names(self, other)
    }
}

impl<Octs: Octets> Eq for Name<Octs> {
    ghost use Rattle.domain_name.specs.Names.{name_labels};

    ghost laws = { on_equiv name_labels same_name_is_equivalence };
}

/// The canonical order of names (RFC 4034, 6.1).
impl<Octs: Octets> Ord for Name<Octs> {
    ghost use Rattle.domain_name.specs.Names.{name_labels};

    ghost cmp = { on name_labels canonical_order };

    ghost total = { on_total name_labels order_is_total };

    ghost matches_partial_cmp = { Prim.search (comparing, rules) };

    ghost matches_eq = { Prim.search (comparing, rules) };

    fn cmp(&self, other: &Name<Octs>) -> Ordering {
        order_names(self, other)
    }
}

impl<Octs: Octets> PartialOrd for Name<Octs> {
    ghost use Rattle.domain_name.specs.Names.{name_labels};

    ghost partial_cmp = { as_partial_cmp (on name_labels canonical_order) };

    ghost laws = { partial_order_from_agreeing_total (on name_labels canonical_order)
        (on_total name_labels order_is_total) (λ a b. refl) (λ a b. refl) };

    fn partial_cmp(&self, other: &Name<Octs>) -> Option<Ordering> {
        Some(self.cmp(other))
    }
}

/// The canonical order of names is that of `Ord` (RFC 4034, 6.1).
impl<Octs: Octets, Other: Octets> CanonicalOrd<Name<Other>> for Name<Octs> {
    ghost use Rattle.domain_name.specs.Names.{name_labels};

    ghost value_order = { λ a b. canonical_order (name_labels a) (name_labels b) };

    fn canonical_cmp(&self, other: &Name<Other>) -> Ordering {
        order_names(self, other)
    }
}

impl<Octs: Octets> TotalCanonicalOrd for Name<Octs> {
    ghost use Rattle.domain_name.specs.Names.{name_labels};

    ghost total = { on_total name_labels order_is_total };
}

/// Writes to the hasher each label's length and its octets in lower case, so that equal names write the same.
impl<Octs: Octets> Hash for Name<Octs> {
    ghost use Rattle.domain_name.specs.Names.{name_labels};

    ghost hash_input = { λ name. name_hash_input (name_labels name) };

    ghost respects_eq = { λ a b. same_hash_input (name_labels a) (name_labels b) };

    fn hash<H: Hasher>(&self, state: &mut H) {
        hash_name(self, state);
    }
}
