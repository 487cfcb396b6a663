//! Flat names and their parts.
ghost use Rattle.std.specs.Prelude.{◌≡◌, ◌↔◌, IfSome, IsSome};
ghost use Rattle.domain_label.specs.Labels.{label_octets};
ghost use Rattle.domain_label.specs.Wire.{IsAbsoluteWire};
ghost use Rattle.domain_name.specs.Names.{name_octets};
ghost use Rattle.examples.specs.FlatNames.{NameBeginsWith, HasFront, IsAsLongAsFirst, TellsSecond};

use domain_label::Label;
use domain_name::{Name, RelativeName};

/// A name that is kept as octets in wire format, as `\x07example\x03com\0`. `None` where the octets are no
/// such form.
pub fn known_name(octets: &[u8]) -> Option<Name<&[u8]>>
    ensures some { IsSome result ↔ IsAbsoluteWire octets.now }
    ensures name { IfSome result (λ name. name_octets name ≡ octets.now) }
{
    Name::from_slice(octets).ok()
}

/// The first label of a name, as `www` of `www.example.com`.
pub fn first_label<'a>(name: &'a Name<&[u8]>) -> Option<Label<'a>>
    ensures label { IfSome result (λ label. NameBeginsWith name.now (label_octets label)) }
    ensures some { IsSome result }
{
    name.iter().next()
}

/// The first label of a name, as a name. `None` where no label begins after it, as for the root.
pub fn host<'a>(name: &'a Name<&'a [u8]>) -> Option<RelativeName<&'a [u8]>>
    ensures front { IfSome result (HasFront name.now) }
    ensures first { IfSome result (IsAsLongAsFirst name.now) }
    ensures some { TellsSecond name.now (IsSome result) }
{
    let first = name.first().len() + 1;
    if name.is_label_start(first) {
        let (host, _zone) = name.split(first);
        return Some(host);
    }
    None
}
