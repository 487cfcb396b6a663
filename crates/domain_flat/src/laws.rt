//! Laws of the errors of octets in wire format.
ghost use Rattle.std.specs.Prelude.{◌≡◌, ℕ, List, drop};
ghost use Rattle.domain_label.specs.Wire.{IsAbsoluteWire, IsRelativeWire};
ghost use Rattle.domain_wire.specs.Refusals.{Refusal};
ghost use Rattle.domain_flat.specs.Faults.{AbsoluteFault, RelativeFault, StartFault, HaveOneFault, HaveNoFault};
ghost use Rattle.domain_flat.specs.Flat.{NameAt};

/// Octets have at most one first error as an absolute name, as a relative one, and as the start of a name. They never
/// have both the error and the name. At an offset of a message is at most one name without a pointer. The call does
/// nothing: its contract is the facts.
pub fn fault_laws()
    ensures absolute { HaveOneFault AbsoluteFault }
    ensures relative { HaveOneFault RelativeFault }
    ensures start { HaveOneFault StartFault }
    ensures not_absolute { HaveNoFault IsAbsoluteWire AbsoluteFault }
    ensures not_relative { HaveNoFault IsRelativeWire RelativeFault }
    ensures not_at_start { (m : List ℕ) (p e : ℕ) (ls : List (List ℕ)) (r : Refusal) →
        NameAt m p ls e → StartFault (drop p m) r → ⊥ }
    ensures one_name { (m : List ℕ) (p e f : ℕ) (xs ys : List (List ℕ)) → NameAt m p xs e →
        NameAt m p ys f → (xs ≡ ys) × (e ≡ f) }
{}
