//! Reading names from messages, and going over their labels.
ghost use Rattle.std.specs.Prelude.{◌≡◌, ◌≤◌, ◌+◌, ◌↔◌, string_bytes, IfOk, IfSome, IsNone, OnOk, OnErr};
ghost use Rattle.domain_label.specs.Text.{text_with_final_dot};
ghost use Rattle.domain_label.specs.Labels.{label_octets};
ghost use Rattle.domain_label.specs.Wire.{Root};
ghost use Rattle.domain_parsed.specs.ParsedNames.{parsed_labels};
ghost use Rattle.domain_reading.specs.Grammar.{Names};
ghost use Rattle.octseq.specs.Parsing.{message, position};
ghost use Rattle.examples.specs.Parsed.{HasTypeAndClass, PassesQuestion, CannotPass, IsTopLabel};

use domain_label::Label;
use domain_parsed::{Heads, ParsedName};
use domain_traits::ToName;
use domain_wire::{ParseError, parse_slice};
use octseq::Parser;
use std::alloc::{AllocError, Global};
use std::sync::ledger::Ledger;

/// The name at the parser's position, and the type and the class after it. An error leaves the parser as it was.
pub fn question<'a>(parser: &mut Parser<'a>) -> Result<(ParsedName<&'a [u8]>, u16, u16), ParseError>
    ensures name { IfOk result
        (λ read. Names 255 (message parser.old) (position parser.old) (parsed_labels read.0)) }
    ensures after { IfOk result (λ read. HasTypeAndClass parser.old read.1 read.2 parser.new) }
    ensures unchanged { OnErr result (parser.new ≡ parser.old) }
{
    let mut ahead = *parser;
    let name = ParsedName::parse(&mut ahead)?;
    let rtype = ahead.parse_u16_be()?;
    let class = ahead.parse_u16_be()?;
    *parser = ahead;
    Ok((name, rtype, class))
}

/// The name that has all of the octets.
pub fn whole_name(octets: &[u8]) -> Result<ParsedName<&[u8]>, ParseError>
    ensures name { IfOk result (λ name. Names 255 octets.now 0 (parsed_labels name)) }
{
    parse_slice(octets, ParsedName::parse)
}

/// Passes over a question: the name, and the four octets of its type and class.
pub fn skip_question(parser: &mut Parser<'_>) -> Result<(), ParseError>
    ensures ok { OnOk result (PassesQuestion parser.old parser.new) }
    ensures err { OnErr result (CannotPass parser.old) }
{
    ParsedName::skip(parser)?;
    parser.advance(4)?;
    Ok(())
}

/// The label right before the root, as `com` of `www.example.com`. `None` for the root.
pub fn top_label<'a>(name: &'a ParsedName<&[u8]>) -> Option<Label<'a>>
    ensures some { IfSome result (λ label. IsTopLabel name.now (label_octets label)) }
    ensures none { IsNone result ↔ (parsed_labels name.now ≡ Root) }
{
    let mut labels = name.iter();
    labels.next_back()?;
    labels.next_back()
}

/// A name for people to read: each label with a dot after it, and the root as a dot.
pub fn shown(name: &ParsedName<&[u8]>, alloc: Global) -> Result<String, AllocError>
    ensures { IfOk result
        (λ text. string_bytes text ≡ text_with_final_dot (parsed_labels name.now)) }
{
    let dotted = name.fmt_with_dot();
    format!(in alloc; "{dotted}")
}

/// The name at the parser's position where it has few pointers, with the heads that are read for it counted. They are
/// 144 at most, whatever the message.
pub fn plain_name<'a, L: Ledger>(
    parser: &mut Parser<'a>,
    heads: &mut Heads<L>,
) -> Result<ParsedName<&'a [u8]>, ParseError>
    ensures name { IfOk result
        (λ name. Names 16 (message parser.old) (position parser.old) (parsed_labels name)) }
    ensures few { heads.new ≤ heads.old + 144 }
{
    ParsedName::parse_counted(parser, 16, heads)
}

/// Counts the heads that a walk from both ends reads: the first and the last label take one each.
pub fn both_ends<L: Ledger>(name: &ParsedName<&[u8]>, heads: &mut Heads<L>)
    ensures { heads.new ≤ heads.old + 2 }
{
    let mut labels = name.iter();
    let _first = labels.next_counted(heads);
    let _last = labels.next_back_counted(heads);
}
