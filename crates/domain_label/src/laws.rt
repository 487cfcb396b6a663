//! Laws of the definitions.
ghost use Rattle.std.specs.Prelude.{◌≡◌, ℕ, List, length};
ghost use Rattle.domain_label.specs.LabelText.{OneLabel};
ghost use Rattle.domain_label.specs.Lending.{with_octets};
ghost use Rattle.domain_label.specs.Spelling.{IsReadOnce};
ghost use Rattle.domain_label.specs.Splitting.{BeginsWithLabel, SplitFault};
ghost use Rattle.domain_label.specs.Labels.{owned_octets};
ghost use Rattle.domain_label.specs.Wire.{wire, labels_in, IsAbsolute, IsRelative};

/// What the definitions of wire formats say together: octets encode the list that they are the wire format of, so
/// they are the wire format of one list only; and no list is absolute and relative.
pub fn wire_laws()
    ensures spelled { (ls : List (List ℕ)) → labels_in (wire ls) ≡ ls }
    ensures once { (xs ys : List (List ℕ)) → wire xs ≡ wire ys → xs ≡ ys }
    ensures apart { (ls : List (List ℕ)) → IsAbsolute ls → IsRelative ls → ⊥ }
{}

/// What `with_octets` says of a label whose octets were borrowed: those that were written, of which there are as
/// many, are its octets.
pub fn lent_laws()
    ensures { (l ws : _) → length ws ≡ length (owned_octets l) →
        owned_octets (with_octets l ws) ≡ ws }
{}

/// Octets begin with one label, or with none for one reason, and never both. That always one of the two holds is the
/// contract of `Label::split_from`.
pub fn split_laws()
    ensures one_label { (o a b r s : _) → BeginsWithLabel o a r → BeginsWithLabel o b s →
        (a ≡ b) × (r ≡ s) }
    ensures one_fault { (o d e : _) → SplitFault o d → SplitFault o e → d ≡ e }
    ensures not_both { (o l rest e : _) → BeginsWithLabel o l rest → SplitFault o e → ⊥ }
{}

/// Each text is read in exactly one way, as symbols and at most a broken escape after them. It is the text of exactly
/// one label, or has exactly one error, never both.
pub fn scan_laws()
    ensures symbols { (cs : List ℕ) → IsReadOnce cs }
    ensures labels { (cs : List ℕ) → OneLabel cs }
{}
