//! What is composed for a field, and for data, is read back.
ghost use Rattle.std.specs.Prelude.{◌≡◌, Bool, ℕ, List};
ghost use Rattle.std.specs.Int.{w8, w16, w32, from_be_bytes};
ghost use Rattle.domain_label.specs.Lowercase.{lowercase_labels};
ghost use Rattle.domain_wire.specs.Addresses.{ipv4_octets, ipv4_of, ipv6_octets, ipv6_of};
ghost use Rattle.domain_rdata.specs.AnyData.{IsAllThatIsLeft};
ghost use Rattle.domain_wire.specs.Values.{FixedAt};
ghost use Rattle.domain_wire.specs.declared.net.Ipv4Addr.{Ipv4Addr};
ghost use Rattle.domain_wire.specs.declared.net.Ipv6Addr.{Ipv6Addr};
ghost use Rattle.domain_fields.specs.Names.{NameFieldAt};
ghost use Rattle.domain_fields.specs.Moves.{NamesMove};
ghost use Rattle.domain_fields.specs.ReadBack.{IsReadBack, IsReadBackWhole, IsDataReadBack};
ghost use Rattle.domain_fields.specs.Sequences.{BothAt};

use crate::field::DataField;
use crate::name_field::{DataName, NameField, UncompressedNameField};
use crate::sequence::Sequence;
use domain_rdata::{ComposeRecordData, UnknownRecordData};
use domain_wire::net::{Ipv4Addr, Ipv6Addr};
use octseq::Octets;

/// A field that is read back from what was composed for it, whatever stands before it in the message and after it.
pub trait ReadBackField: DataField {
    /// What contracts see of what is read.
    ghost Seen: { Type 0 };

    /// A value that is seen so is in the octets at the first offset, and the second offset is its end: what
    /// [`ReadField`](crate::ReadField) reads.
    ghost seen_at: { List ℕ → ℕ → Seen → ℕ → Type 0 };

    /// What is read is like the field: numbers and addresses are the same, names are equal ignoring ASCII case.
    ghost like: { Self → Seen → Type 0 };

    /// The law, for this field. It does nothing.
    fn reads_back(&self)
        ensures { IsReadBack (Self.composed self.now) seen_at (like self.now) };
}

/// A field that is read back from what was composed for it where it is the last one: the octets end with it.
///
/// Each [`ReadBackField`] is one. A field that takes all remaining octets can be one too.
pub trait ReadBackLast: DataField {
    /// What contracts see of what is read.
    ghost Seen: { Type 0 };

    /// A value that is seen so is in the octets at the first offset, and the second offset is its end: what
    /// [`ReadField`](crate::ReadField) reads.
    ghost seen_at: { List ℕ → ℕ → Seen → ℕ → Type 0 };

    /// What is read is like the field, as [`ReadBackField`] has it.
    ghost like: { Self → Seen → Type 0 };

    /// The law, for this field. It does nothing.
    fn reads_back_last(&self)
        ensures { IsReadBackWhole (Self.composed self.now) seen_at (like self.now) };
}

impl ReadBackField for u8 {
    ghost Seen = { ℕ };

    ghost seen_at = { FixedAt 1 (from_be_bytes w8) };

    ghost like = { λ it seen. seen ≡ it };

    fn reads_back(&self) {
        let _number = *self;
    }
}

impl ReadBackField for u16 {
    ghost Seen = { ℕ };

    ghost seen_at = { FixedAt 2 (from_be_bytes w16) };

    ghost like = { λ it seen. seen ≡ it };

    fn reads_back(&self) {
        let _number = *self;
    }
}

impl ReadBackField for u32 {
    ghost Seen = { ℕ };

    ghost seen_at = { FixedAt 4 (from_be_bytes w32) };

    ghost like = { λ it seen. seen ≡ it };

    fn reads_back(&self) {
        let _number = *self;
    }
}

impl ReadBackField for Ipv4Addr {
    ghost Seen = { Ipv4Addr };

    ghost seen_at = { FixedAt 4 ipv4_of };

    ghost like = { λ it seen. ipv4_octets seen ≡ ipv4_octets it };

    fn reads_back(&self) {}
}

impl ReadBackField for Ipv6Addr {
    ghost Seen = { Ipv6Addr };

    ghost seen_at = { FixedAt 16 ipv6_of };

    ghost like = { λ it seen. ipv6_octets seen ≡ ipv6_octets it };

    fn reads_back(&self) {}
}

impl<N: DataName> ReadBackField for NameField<N> {
    ghost Seen = { List (List ℕ) };

    ghost seen_at = { NameFieldAt };

    ghost like = { λ it seen. lowercase_labels seen ≡ lowercase_labels (N.labels it.name) };

    fn reads_back(&self) {}
}

impl<N: DataName> ReadBackField for UncompressedNameField<N> {
    ghost Seen = { List (List ℕ) };

    ghost seen_at = { NameFieldAt };

    ghost like = { λ it seen. lowercase_labels seen ≡ lowercase_labels (N.labels it.name) };

    fn reads_back(&self) {}
}

impl<A: ReadBackField, B: ReadBackField> ReadBackField for Sequence<A, B> {
    ghost Seen = { A.Seen × B.Seen };

    ghost seen_at = { BothAt A.seen_at B.seen_at };

    ghost like = { λ it seen. A.like it.first seen.0 × B.like it.rest seen.1 };

    fn reads_back(&self) {
        self.first.reads_back();
        self.rest.reads_back();
    }
}

impl ReadBackLast for u16 {
    ghost Seen = { ℕ };

    ghost seen_at = { FixedAt 2 (from_be_bytes w16) };

    ghost like = { λ it seen. seen ≡ it };

    fn reads_back_last(&self) {
        self.reads_back()
    }
}

impl ReadBackLast for u32 {
    ghost Seen = { ℕ };

    ghost seen_at = { FixedAt 4 (from_be_bytes w32) };

    ghost like = { λ it seen. seen ≡ it };

    fn reads_back_last(&self) {
        self.reads_back()
    }
}

impl ReadBackLast for Ipv4Addr {
    ghost Seen = { Ipv4Addr };

    ghost seen_at = { FixedAt 4 ipv4_of };

    ghost like = { λ it seen. ipv4_octets seen ≡ ipv4_octets it };

    fn reads_back_last(&self) {
        self.reads_back()
    }
}

impl ReadBackLast for Ipv6Addr {
    ghost Seen = { Ipv6Addr };

    ghost seen_at = { FixedAt 16 ipv6_of };

    ghost like = { λ it seen. ipv6_octets seen ≡ ipv6_octets it };

    fn reads_back_last(&self) {
        self.reads_back()
    }
}

impl<N: DataName> ReadBackLast for NameField<N> {
    ghost Seen = { List (List ℕ) };

    ghost seen_at = { NameFieldAt };

    ghost like = { λ it seen. lowercase_labels seen ≡ lowercase_labels (N.labels it.name) };

    fn reads_back_last(&self) {
        self.reads_back()
    }
}

impl<N: DataName> ReadBackLast for UncompressedNameField<N> {
    ghost Seen = { List (List ℕ) };

    ghost seen_at = { NameFieldAt };

    ghost like = { λ it seen. lowercase_labels seen ≡ lowercase_labels (N.labels it.name) };

    fn reads_back_last(&self) {
        self.reads_back()
    }
}

impl<A: ReadBackField, B: ReadBackLast> ReadBackLast for Sequence<A, B> {
    ghost Seen = { A.Seen × B.Seen };

    ghost seen_at = { BothAt A.seen_at B.seen_at };

    ghost like = { λ it seen. A.like it.first seen.0 × B.like it.rest seen.1 };

    fn reads_back_last(&self) {
        self.first.reads_back();
        self.rest.reads_back_last();
    }
}

/// Record data that is read back from what was composed for it, whatever stands before it in the message. It has to
/// end where the parser ends that reads it, as the data of a record does.
pub trait ReadBackData: ComposeRecordData {
    /// What contracts see of what is read.
    ghost Seen: { Type 0 };

    /// Data of the type with this number that is seen so is in the octets at the first offset, and the second offset
    /// is its end: what [`parse_rdata`](domain_rdata::ParseRecordData::parse_rdata) reads.
    ghost seen_at: { ℕ → List ℕ → ℕ → Seen → ℕ → Type 0 };

    /// What is read is like the data: the same except for the case of names.
    ghost like: { Self → Seen → Type 0 };

    /// The law, for this data. It does nothing.
    fn reads_back(&self)
        ensures { IsDataReadBack Self.ComposeRecordData seen_at like self.now };

    /// Of the octets before it the data asks for its names alone, as a field does ([`DataField`]).
    ghost moves: { (it : Self) (compresses : Bool) (t u s : List ℕ) → NamesMove compresses t u →
        Self.composed it compresses t s → Self.composed it compresses u s };
}

/// The same octets.
impl<Octs: Octets> ReadBackData for UnknownRecordData<Octs> {
    ghost use Rattle.domain_rdata.specs.Unknown.{data_octets};

    ghost Seen = { List ℕ };

    ghost seen_at = { λ _. IsAllThatIsLeft };

    ghost like = { λ it seen. seen ≡ data_octets it };

    ghost moves = { λ _ _ _ _ _ _ same. same };

    fn reads_back(&self) {}
}
