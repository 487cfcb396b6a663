//! A text, the name that it spells, the name in a message, and the name in one piece again: its labels stay.
ghost use Rattle.std.specs.Prelude.{◌≡◌, IfOk};
ghost use Rattle.std.specs.Str.{chars};
ghost use Rattle.domain_builder.specs.TextGrammar.{IsTextOfName};
ghost use Rattle.domain_name.specs.Names.{name_labels};
ghost use Rattle.examples.specs.FlatNames.{GivesShown};

use arrayvec::ArrayVec;
use domain_builder::{FromStrError, text_laws};
use domain_name::Name;
use domain_parsed::ParsedName;
use domain_traits::ToName;
use octseq::{OctetsBuilder, Parser};
use std::alloc::Global;

/// Puts a name after the 12 octets of a header, reads it there, and gives it in one piece again.
pub fn put_and_read(alloc: Global, name: &Name<ArrayVec<u8, 255>>) -> Name<ArrayVec<u8, 255>>
    ensures { name_labels result ≡ name_labels name.now }
{
    let mut message = ArrayVec::<u8, 267>::new();
    let Ok(()) = message.append_slice(&[0; 12]) else {
        unreachable!();
    };
    let Ok(()) = message.append_slice(name.as_slice()) else {
        unreachable!();
    };
    let mut parser = Parser::from_ref(message.as_slice());
    let Ok(()) = parser.seek(12) else {
        unreachable!();
    };
    let Ok(read) = ParsedName::parse(&mut parser) else {
        unreachable!();
    };
    let Ok(flat) = read.to_name(alloc) else {
        unreachable!();
    };
    flat
}

/// The name that a text spells, after it was put into a message and read there. The text that a name shows
/// gives that name back.
pub fn through_a_message(alloc: Global, text: &str) -> Result<Name<ArrayVec<u8, 255>>, FromStrError>
    ensures spelled { IfOk result (λ name. IsTextOfName (chars text.now) (name_labels name)) }
    ensures shown { GivesShown name_labels (chars text.now) result }
{
    text_laws();
    match text.parse() {
        Ok(name) => Ok(put_and_read(alloc, &name)),
        Err(e) => Err(e),
    }
}
