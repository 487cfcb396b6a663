//! Laws of builders.
ghost use Rattle.std.specs.Prelude.{ℕ, ◌≤◌, List, Option};
ghost use Rattle.domain_builder.specs.BuilderState.{size};
ghost use Rattle.domain_builder.specs.Inside.{Held, room};
ghost use Rattle.domain_name.specs.Calls.{OneOutcome};
ghost use Rattle.domain_name.specs.declared.calls.BuilderCall.{BuilderCall};

/// Where 254 octets fit, as in an `ArrayVec` of 255 or in a `Vec` with that capacity, each list of calls of a
/// builder has exactly one outcome.
pub fn builder_laws()
    ensures { (limit : Option ℕ) (b : Held) (calls : List BuilderCall) →
        254 ≤ room limit b → size b.built ≤ 254 → OneOutcome limit b calls }
{}
