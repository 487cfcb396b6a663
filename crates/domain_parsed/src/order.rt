//! Equality, order and hash of names in a message, all ignoring ASCII case.
ghost use Rattle.std.specs.Prelude.{refl};
ghost use Rattle.std.proofs.Common.{rules};
ghost use Rattle.std.specs.Cmp.{partial_order_from_agreeing_total, partial_equiv_from_equiv, on_equiv, on_total};
ghost use Rattle.std.specs.Cmp.Rules.{comparing};
ghost use Rattle.std.specs.Ordering.{on, as_partial_cmp};
ghost use Rattle.domain_list.specs.NameLaws.{order_is_total, same_name_is_equivalence, same_hash_input};
ghost use Rattle.domain_list.specs.HashInput.{name_hash_input};
ghost use Rattle.domain_list.specs.Order.{canonical_order, same_name};

use crate::parsed::ParsedName;
use domain_list::comparing::{order_names, same_names};
use domain_list::hashing::hash_name;
use domain_name::Name;
use domain_wire::{CanonicalOrd, TotalCanonicalOrd};
use octseq::Octets;
use std::cmp::Ordering;
use std::hash::{Hash, Hasher};

/// Names are equal where their labels are, ignoring ASCII case (RFC 4343).
impl<Octs: Octets> PartialEq for ParsedName<Octs> {
    ghost use Rattle.domain_parsed.specs.ParsedNames.{parsed_labels};

    ghost eq = { on parsed_labels same_name };

    ghost laws = { partial_equiv_from_equiv (on_equiv parsed_labels same_name_is_equivalence) };

    fn eq(&self, other: &ParsedName<Octs>) -> bool {
        same_names(self, other)
    }
}

impl<Octs: Octets> Eq for ParsedName<Octs> {
    ghost use Rattle.domain_parsed.specs.ParsedNames.{parsed_labels};

    ghost laws = { on_equiv parsed_labels same_name_is_equivalence };
}

/// The canonical order of names (RFC 4034, 6.1).
impl<Octs: Octets> Ord for ParsedName<Octs> {
    ghost use Rattle.domain_parsed.specs.ParsedNames.{parsed_labels};

    ghost cmp = { on parsed_labels canonical_order };

    ghost total = { on_total parsed_labels order_is_total };

    ghost matches_partial_cmp = { Prim.search (comparing, rules) };

    ghost matches_eq = { Prim.search (comparing, rules) };

    fn cmp(&self, other: &ParsedName<Octs>) -> Ordering {
        order_names(self, other)
    }
}

impl<Octs: Octets> PartialOrd for ParsedName<Octs> {
    ghost use Rattle.domain_parsed.specs.ParsedNames.{parsed_labels};

    ghost partial_cmp = { as_partial_cmp (on parsed_labels canonical_order) };

    ghost laws = { partial_order_from_agreeing_total (on parsed_labels canonical_order)
        (on_total parsed_labels order_is_total) (λ a b. refl) (λ a b. refl) };

    fn partial_cmp(&self, other: &ParsedName<Octs>) -> Option<Ordering> {
        Some(self.cmp(other))
    }
}

/// The canonical order of names is that of `Ord` (RFC 4034, 6.1).
impl<Octs: Octets, Other: Octets> CanonicalOrd<ParsedName<Other>> for ParsedName<Octs> {
    ghost use Rattle.domain_parsed.specs.ParsedNames.{parsed_labels};

    ghost value_order = { λ a b. canonical_order (parsed_labels a) (parsed_labels b) };

    fn canonical_cmp(&self, other: &ParsedName<Other>) -> Ordering {
        order_names(self, other)
    }
}

impl<Octs: Octets, Other: Octets> CanonicalOrd<Name<Other>> for ParsedName<Octs> {
    ghost use Rattle.domain_parsed.specs.ParsedNames.{parsed_labels};
    ghost use Rattle.domain_name.specs.Names.{name_labels};

    ghost value_order = { λ a b. canonical_order (parsed_labels a) (name_labels b) };

    fn canonical_cmp(&self, other: &Name<Other>) -> Ordering {
        order_names(self, other)
    }
}

impl<Octs: Octets, Other: Octets> CanonicalOrd<ParsedName<Other>> for Name<Octs> {
    ghost use Rattle.domain_parsed.specs.ParsedNames.{parsed_labels};
    ghost use Rattle.domain_name.specs.Names.{name_labels};

    ghost value_order = { λ a b. canonical_order (name_labels a) (parsed_labels b) };

    fn canonical_cmp(&self, other: &ParsedName<Other>) -> Ordering {
        order_names(self, other)
    }
}

impl<Octs: Octets> TotalCanonicalOrd for ParsedName<Octs> {
    ghost use Rattle.domain_parsed.specs.ParsedNames.{parsed_labels};

    ghost total = { on_total parsed_labels order_is_total };
}

/// Writes to the hasher each label's length and its octets in lower case, so that equal names write the same.
impl<Octs: Octets> Hash for ParsedName<Octs> {
    ghost use Rattle.domain_parsed.specs.ParsedNames.{parsed_labels};

    ghost hash_input = { λ name. name_hash_input (parsed_labels name) };

    ghost respects_eq = { λ a b. same_hash_input (parsed_labels a) (parsed_labels b) };

    fn hash<H: Hasher>(&self, state: &mut H) {
        hash_name(self, state);
    }
}
