//! Facts on the definitions of names in messages.
ghost use Rattle.std.specs.Prelude.{◌≡◌, ◌<◌, ◌≤◌, ◌⊎◌, ◌++◌, length};
ghost use Rattle.domain_label.specs.Wire.{wire, IsAbsoluteName};
ghost use Rattle.domain_reading.specs.Limits.{max_pointers};
ghost use Rattle.domain_reading.specs.Grammar.{PointerAt, Reads, Names, HasNameWithin, LabelRun, FirstLabelAt};
ghost use Rattle.domain_reading.specs.Grammar.{EncodingEnds, HasOneEncoding, IsPlainEncoding};
ghost use Rattle.domain_reading.specs.Faults.{NameFaultAt, HasFault, HasOneFault, Skips, HasSkip, SkipFault, HasSkipFault};
ghost use Rattle.domain_reading.specs.Labels.{labels_at};
ghost use Rattle.domain_reading.specs.Touched.{Touches, KeepsTouched, IsSameFrom, ReadsFrom};

/// Facts on names in messages. The call does nothing: its contract is the facts.
///
/// At an offset at most one list of labels is read, which is an absolute name. What is read in the first octets of a
/// message is read in the whole message, too. At each offset there is a name or an error, never both, and only one
/// error. There is only one encoding of the name at an offset, and only one first label. The octets of an absolute
/// name are read as that name. At each offset there is an encoding to skip or an error, never both. Where a name is
/// read, its encoding can be skipped, and ends at the same offset.
pub fn reads_laws()
    ensures once { (m p j k xs ys : _) → Reads m p j xs → Reads m p k ys → (j ≡ k) × (xs ≡ ys) }
    ensures more { (m u p k ls : _) → Reads m p k ls → Reads (m ++ u) p k ls }
    ensures absolute { (n m p ls : _) → Names n m p ls → IsAbsoluteName ls }
    ensures labels { (m p ls : _) → Names max_pointers m p ls → labels_at m p ≡ ls }
    ensures some { (n m p : _) → HasNameWithin n m p ⊎ HasFault n m p }
    ensures not_both { (n m p ls e : _) → Names n m p ls → NameFaultAt n m p e → ⊥ }
    ensures one_fault { (n m p : _) → HasOneFault n m p }
    ensures one_front { (m p : _) → HasOneEncoding m p }
    ensures one_base { (m p b c : _) → FirstLabelAt m p b → FirstLabelAt m p c → b ≡ c }
    ensures plain { (t u ls : _) → IsAbsoluteName ls → Names 0 (t ++ wire ls ++ u) (length t) ls }
    ensures plain_front { (t u ls : _) → IsAbsoluteName ls → IsPlainEncoding t (wire ls) u }
    ensures skips { (n m p ls : _) → Names n m p ls → HasSkip m p }
    ensures same_end { (m p e f : _) → EncodingEnds m p e → Skips m p f → e ≡ f }
    ensures skips_or_not { (m p : _) → HasSkip m p ⊎ HasSkipFault m p }
    ensures skips_not_both { (m p e d : _) → Skips m p e → SkipFault m p d → ⊥ }
    ensures one_skip_fault { (m p d e : _) → SkipFault m p d → SkipFault m p e → d ≡ e }
{}

/// Facts on names in a message whose octets are overwritten. The call does nothing: its contract is the facts.
///
/// A name is read from some octets of the message (`Touches`). Where these are kept, the same labels are read,
/// whatever the others become. So what is read only from octets at n and after it is read, and is a name, whatever is
/// written before n. A name that is read without a pointer is read from octets at its own offset and after it. A name
/// whose labels and pointer are at n or after it is read from octets at n and after it, where what the pointer leads
/// to is.
pub fn overwriting_laws()
    ensures kept { (m w p k ls : _) (r : Reads m p k ls) → KeepsTouched r w → Reads w p k ls }
    ensures inside { (m p k ls : _) (r : Reads m p k ls) (i : _) → Touches r i → i < length m }
    ensures after { (n m w p ls : _) → ReadsFrom n m p ls → IsSameFrom n m w → ReadsFrom n w p ls }
    ensures more { (n m u p ls : _) → ReadsFrom n m p ls → ReadsFrom n (m ++ u) p ls }
    ensures name { (n k m w p xs ls : _) → ReadsFrom n m p xs → IsSameFrom n m w →
        Names k m p ls → Names k w p ls }
    ensures flat { (m p ls : _) → Names 0 m p ls → ReadsFrom p m p ls }
    ensures labels { (n m p r fs ls : _) → n ≤ p → LabelRun m p fs r → ReadsFrom n m r ls →
        ReadsFrom n m p (fs ++ ls) }
    ensures pointer { (n m p q ls : _) → n ≤ p → PointerAt m p q → q < p → ReadsFrom n m q ls →
        ReadsFrom n m p ls }
{}
