//! What is shown is read back.
ghost use Rattle.std.specs.Prelude.{ℕ, List, Option};
ghost use Rattle.domain_descriptor.specs.declared.kind.FieldKind.{FieldKind};
ghost use Rattle.domain_rdata_text.specs.Laws.{AreReadBack, ArePlain, AreFound, IsNamed};
ghost use Rattle.domain_rdata_text.specs.Texts.{IsPlain, IsNotPlain};
ghost use Rattle.domain_rdata_text.specs.Values.{Val};

/// The call does nothing: its contract is the law. The text of what the fields of data hold, wherever they are in a
/// message, says the octets of the data, with any origin and without one.
pub fn read_back_law()
    ensures { (kinds : List FieldKind) (m : List ℕ) (p : ℕ) (vs : List Val) (e : ℕ)
        → AreReadBack kinds m p vs e }
{}

/// The call does nothing: its contract is the law. A name that a word is, is in wire format (RFC 1035, 3.1), if the
/// origin is or if there is none: it has labels of 1 to 63 octets, the root, and at most 255 octets.
pub fn name_law()
    ensures { (origin : Option (List ℕ)) (word : List ℕ) → IsNamed origin word }
{}

/// The call does nothing: its contract is the law. No octets are both, data whose names aren't compressed and none. So
/// [`read`](crate::read) returns such octets after `\#` where there is memory.
pub fn plain_law()
    ensures { (kinds : List FieldKind) (os : List ℕ) → IsPlain kinds os → IsNotPlain kinds os → ⊥ }
{}

/// The call does nothing: its contract is the law. The octets of what the fields of data hold are data with these
/// fields, and no name in it is compressed.
pub fn octets_law()
    ensures { (kinds : List FieldKind) (m : List ℕ) (p : ℕ) (vs : List Val) (e : ℕ)
        → ArePlain kinds m p vs e }
{}

/// The call does nothing: its contract is the law. The bitmaps of any types are shown as types, and not after `\#`:
/// they are the types that have these bitmaps.
pub fn types_law()
    ensures { (ts : List ℕ) → AreFound ts }
{}
