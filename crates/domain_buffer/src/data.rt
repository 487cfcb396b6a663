//! Data of records that have names which may be compressed (RFC 1035, 3.3 and 4.1.4).
ghost use Rattle.std.specs.Prelude.{◌≡◌, ◌≤◌, ◌+◌, length, IfSome, IsNone, MatchOption};
ghost use Rattle.domain_descriptor.specs.Forms.{form};
ghost use Rattle.domain_buffer.specs.Data.{Fields, whole, with_octets, with_form, shape, compressed_shape, IsSmall, IsNameFront, HasNoNameFront, FindsSecondFront, IsNamed, AreDataOf};

use domain_descriptor::table::CLASS_IN;
use domain_descriptor::{FieldForm, FieldKind, compresses_names, form_of, known_fields};
use domain_flat::name_len;

/// Data with names: numbers, a name, another one or nothing, and numbers.
#[derive(Clone, Copy)]
pub struct NamedData<'a> {
    /// The octets before the names: numbers.
    pub before: &'a [u8],
    /// The first name.
    pub first: &'a [u8],
    /// The second name, or nothing.
    pub second: &'a [u8],
    /// The octets after the names: numbers.
    pub after: &'a [u8],
}

/// What data with names are: octets, names, and octets.
#[derive(Clone, Copy, Debug, PartialEq, Eq)]
pub struct Shape {
    /// How many octets come before the names.
    pub before: usize,
    /// How many names there are.
    pub names: usize,
    /// How many octets follow the names.
    pub after: usize,
}

/// The shape of data that have so many octets more, behind those before the names, or behind those after them.
fn with_octets(shape: Shape, len: usize) -> Shape
    requires before { shape.before ≤ 16384 }
    requires after { shape.after ≤ 16384 }
    requires len { len ≤ 16 }
    ensures shape { result ≡ with_octets len shape }
    ensures before { result.before ≤ shape.before + 16 }
    ensures names { result.names ≡ shape.names }
    ensures after { result.after ≤ shape.after + 16 }
{
    if shape.names == 0 {
        Shape {
            before: shape.before + len,
            ..shape
        }
    } else {
        Shape {
            after: shape.after + len,
            ..shape
        }
    }
}

/// The shape of data that have a field more, which is of this kind.
#[tactic(auto, using(crate::proofs::Shapes::fixed_small))]
fn with_field(shape: Shape, kind: FieldKind) -> Shape
    requires before { shape.before ≤ 16384 }
    requires names { shape.names ≤ 16384 }
    requires after { shape.after ≤ 16384 }
    ensures shape { result ≡ with_form shape (form kind) }
    ensures before { result.before ≤ shape.before + 16 }
    ensures names { result.names ≤ shape.names + 1 }
    ensures after { result.after ≤ shape.after + 16 }
{
    match form_of(kind) {
        FieldForm::Name => Shape {
            names: shape.names + 1,
            ..shape
        },
        FieldForm::Fixed(len) => with_octets(shape, len),
        _ => shape,
    }
}

/// The shape of data of these fields.
fn shape_of(kinds: &[FieldKind]) -> Shape
    requires { length kinds.now ≤ 1024 }
    ensures { result ≡ shape kinds.now }
{
    let mut shape = Shape {
        before: 0,
        names: 0,
        after: 0,
    };
    for kind in kinds {
        shape = with_field(shape, *kind);
    }
    shape
}

/// The shape of data of a type in which names may be compressed (RFC 3597, 4).
#[tactic(auto, using(crate::proofs::Shapes::few_fields, crate::proofs::Shapes::small_shape, crate::proofs::Shapes::shape_known))]
fn compressed_shape_of(rtype: u16) -> Option<Shape>
    ensures shape { result ≡ compressed_shape rtype }
    ensures small { IfSome result IsSmall }
{
    if !compresses_names(rtype) {
        return None;
    }
    Some(shape_of(known_fields(rtype, CLASS_IN)))
}

/// How many octets the name has that the octets begin with and that has no pointer.
fn front_len(octets: &[u8]) -> Option<usize>
    ensures { MatchOption result (HasNoNameFront octets.now) (IsNameFront octets.now) }
{
    match name_len(octets) {
        Ok(len) => Some(len),
        Err(_) => None,
    }
}

/// The same of the second name of data that have so many names, or of nothing where they have one.
fn second_len(octets: &[u8], names: usize) -> Option<usize>
    ensures { FindsSecondFront result names octets.now }
{
    match names {
        1 => Some(0),
        2 => front_len(octets),
        _ => None,
    }
}

/// The fields of data of this type, where they are exactly those of a type of RFC 1035 that has names, and no name has
/// a pointer. `None` of all other data: no name in them may be compressed.
pub fn named_data<'a>(rtype: u16, octets: &'a [u8]) -> Option<NamedData<'a>>
    ensures some { IfSome result (AreDataOf rtype octets.now) }
    ensures short { IfSome result (λ d. (length d.before.now ≤ 6) × (length d.after.now ≤ 20)) }
    ensures none { IsNone result → (f : Fields) → IsNamed rtype f → whole f ≡ octets.now → ⊥ }
{
    let Some(shape) = compressed_shape_of(rtype) else {
        return None;
    };
    if octets.len() < shape.before {
        return None;
    }
    let (before, names) = octets.split_at(shape.before);
    let Some(first_len) = front_len(names) else {
        return None;
    };
    let (first, rest) = names.split_at(first_len);
    let Some(other_len) = second_len(rest, shape.names) else {
        return None;
    };
    let (second, after) = rest.split_at(other_len);
    if after.len() != shape.after {
        return None;
    }
    Some(NamedData {
        before,
        first,
        second,
        after,
    })
}
