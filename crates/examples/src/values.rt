//! Values that are written to and read from messages.
ghost use Rattle.std.specs.Prelude.{◌≡◌, ◌++◌, ◌<◌, length, IsOk, IfOk, IfErr, OnOk, OnErr};
ghost use Rattle.std.specs.Int.{w16, to_be_bytes, from_be_bytes};
ghost use Rattle.domain_wire.specs.Refusals.{refusal, short_input};
ghost use Rattle.domain_wire.specs.declared.error.ParseError.{ParseError};
ghost use Rattle.octseq.specs.Parsing.{position, next, MovesOver, MovesTo};
ghost use Rattle.examples.specs.Parsed.{second_two, InTurn, NotInTurn};

use domain_wire::{Compose, Parse, ParseError, compose_vec, parse_slice};
use octseq::{OctetsBuilder, Parser, ShortBuf};
use std::alloc::Global;

/// Composes two values, or nothing.
pub fn compose_two<A: Compose, B: Compose, Target: OctetsBuilder>(
    first: &A,
    second: &B,
    target: &mut Target,
) -> Result<(), Target::AppendError>
    ensures ok { OnOk result (Target.octets target.new
        ≡ Target.octets target.old ++ A.composed_octets first.now ++ B.composed_octets second.now) }
    ensures unchanged { OnErr result (Target.octets target.new ≡ Target.octets target.old) }
{
    let len = target.as_slice().len();
    first.compose(target)?;
    match second.compose(target) {
        Ok(()) => Ok(()),
        Err(e) => {
            target.truncate(len);
            Err(e)
        }
    }
}

/// Reads two values, one after the other, or neither.
pub fn parse_two<'a, A: Parse<'a> + Drop, B: Parse<'a> + Drop, E: From<ParseError>>(
    parser: &mut Parser<'a>,
) -> Result<(A, B), E>
    ensures ok { IfOk result (λ read.
        InTurn A.encodes B.encodes parser.old (A.model read.0) (B.model read.1) parser.new) }
    ensures moves { OnOk result (MovesTo parser.old parser.new (position parser.new)) }
    ensures err { IfErr result
        (λ e. (told : ParseError) × E.from_gives told e
        × NotInTurn A.encodes A.fails_with B.fails_with parser.old told) }
    ensures unchanged { OnErr result (parser.new ≡ parser.old) }
{
    let mut ahead = *parser;
    let first = A::parse(&mut ahead)?;
    let second = B::parse(&mut ahead)?;
    *parser = ahead;
    Ok((first, second))
}

/// The type and the class of a question, which stand after its name.
pub fn type_and_class(parser: &mut Parser<'_>) -> Result<(u16, u16), ParseError>
    ensures rtype { IfOk result (λ read. read.0 ≡ from_be_bytes w16 (next parser.old 2)) }
    ensures class { IfOk result (λ read. read.1 ≡ from_be_bytes w16 (second_two parser.old)) }
    ensures moves { OnOk result (MovesOver parser.old parser.new 4) }
    ensures unchanged { OnErr result (parser.new ≡ parser.old) }
{
    parse_two(parser)
}

/// The number that these two octets are.
pub fn number(octets: &[u8]) -> Result<u16, ParseError>
    ensures value { IfOk result (λ n. n ≡ from_be_bytes w16 octets.now) }
    ensures found { length octets.now ≡ 2 → IsOk result }
    ensures short { length octets.now < 2 → IfErr result (λ e. refusal e ≡ short_input) }
{
    parse_slice(octets, |parser| u16::parse(parser))
}

/// The octets of a number.
pub fn octets_of(alloc: Global, number: u16) -> Result<Vec<u8>, ShortBuf>
    ensures { IfOk result (λ octets. octets.items ≡ to_be_bytes w16 number) }
{
    compose_vec(alloc, |octets| number.compose(octets))
}
