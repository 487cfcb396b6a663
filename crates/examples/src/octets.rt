//! Reading numbers from octets, without any names.
ghost use Rattle.std.specs.Prelude.{◌≡◌, ◌↔◌, IfOk, IsErr, OnOk, OnErr};
ghost use Rattle.std.specs.Int.{w16, from_be_bytes};
ghost use Rattle.octseq.specs.Parsing.{next, LacksOctets, MovesOver};
ghost use Rattle.examples.specs.Parsed.{second_two};

use octseq::{Parser, ShortInput};

/// Reads two numbers of two octets each.
///
/// `ShortInput` where fewer than four octets are left; the parser then stays.
pub fn two_numbers(parser: &mut Parser<'_>) -> Result<(u16, u16), ShortInput>
    ensures first { IfOk result (λ pair. pair.0 ≡ from_be_bytes w16 (next parser.old 2)) }
    ensures second { IfOk result (λ pair. pair.1 ≡ from_be_bytes w16 (second_two parser.old)) }
    ensures moves { OnOk result (MovesOver parser.old parser.new 4) }
    ensures short { IsErr result ↔ LacksOctets parser.old 4 }
    ensures unchanged { OnErr result (parser.new ≡ parser.old) }
{
    let mut ahead = *parser;
    let first = ahead.parse_u16_be()?;
    let second = ahead.parse_u16_be()?;
    *parser = ahead;
    Ok((first, second))
}
