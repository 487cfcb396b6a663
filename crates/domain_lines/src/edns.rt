//! OPT records (RFC 6891, 6.1), as `dig` shows them.
ghost use Rattle.std.specs.Prelude.{◌≡◌, ◌↔◌, Some, IsTrue, OnOk, OnErr};
ghost use Rattle.domain_header.specs.Values.{class_number, ttl_seconds, rcode_number};
ghost use Rattle.domain_message.specs.OptRecords.{dnssec_ok_bit, compact_ok_bit};
ghost use Rattle.domain_lines.specs.Edns.{zero_text, status_text, edns_line, option_line, cut_option_line};
ghost use Rattle.domain_lines.specs.Writing.{PutsOptions};

use crate::flags::word_if;
use crate::streams::Sink;
use domain_field_text::{HexPairs, UnknownText};
use domain_header::{Class, Rcode, Ttl};
use domain_label::hex::hex_character;
use domain_message::EdnsOption;
use domain_tool::tool::WriteFault;
use domain_wire::ParseError;
use std::fmt;

/// Whether the bit DO is set in the TTL of an OPT record.
fn dnssec_ok(ttl: u32) -> bool
    ensures { IsTrue result ↔ (dnssec_ok_bit ttl ≡ 1) }
{
    ttl / 0x8000 % 2 == 1
}

/// Whether the bit CO is set there (RFC 9824).
fn compact_ok(ttl: u32) -> bool
    ensures { IsTrue result ↔ (compact_ok_bit ttl ≡ 1) }
{
    ttl / 0x4000 % 2 == 1
}

/// The bits that must be zero, if they aren't, between the flags and the size.
#[derive(Clone, Copy)]
struct MustBeZero {
    bits: u16,
}

impl fmt::Display for MustBeZero {
    ghost output = { λ it. Some (zero_text it.bits) };

    fn fmt<W: fmt::Write>(&self, f: &mut fmt::Formatter<W>) -> fmt::Result {
        let bits = self.bits;
        if bits == 0 {
            return write!(f, "; ");
        }
        let first = hex_character((bits / 0x1000 % 16) as u8);
        let second = hex_character((bits / 0x100 % 16) as u8);
        let third = hex_character((bits / 0x10 % 16) as u8);
        let fourth = hex_character((bits % 16) as u8);
        write!(f, "; MBZ: 0x{first}{second}{third}{fourth}, ")
    }
}

/// The response code of twelve bits, if it has more than the header's four.
#[derive(Clone, Copy)]
struct LongStatus {
    upper: u8,
    lower: u8,
}

impl fmt::Display for LongStatus {
    ghost output = { λ it. Some (status_text it.upper it.lower) };

    fn fmt<W: fmt::Write>(&self, f: &mut fmt::Formatter<W>) -> fmt::Result {
        if self.upper == 0 {
            return Ok(());
        }
        let code = u16::from(self.upper) * 16 + u16::from(self.lower);
        match code {
            16 => write!(f, ", status: BADVERS"),
            23 => write!(f, ", status: BADCOOKIE"),
            _ => write!(f, ", status: RCODE{code}"),
        }
    }
}

/// The line of an OPT record: its class is a size, and its TTL has the version, the flags and the upper bits of the
/// response code, whose lower four are in the header.
#[derive(Clone, Copy)]
pub(crate) struct EdnsLine {
    pub(crate) class: Class,
    pub(crate) ttl: Ttl,
    pub(crate) rcode: Rcode,
}

impl fmt::Display for EdnsLine {
    ghost output = { λ it.
        Some (edns_line (ttl_seconds it.ttl) (class_number it.class) (rcode_number it.rcode)) };

    fn fmt<W: fmt::Write>(&self, f: &mut fmt::Formatter<W>) -> fmt::Result {
        let ttl = self.ttl.as_secs();
        let version = ttl / 0x1_0000 % 0x100;
        let dnssec_ok = word_if(dnssec_ok(ttl), " do");
        let compact_ok = word_if(compact_ok(ttl), " co");
        let zero = MustBeZero {
            bits: (ttl % 0x4000) as u16,
        };
        let size = self.class.to_int();
        let status = LongStatus {
            upper: (ttl / 0x100_0000) as u8,
            lower: self.rcode.to_int(),
        };
        write!(
            f,
            "; EDNS: version: {version}, flags:{dnssec_ok}{compact_ok}{zero}udp: {size}{status}"
        )
    }
}

/// The line of an option.
#[derive(Clone, Copy)]
struct OptionLine<'a> {
    option: EdnsOption<'a>,
}

impl<'a> fmt::Display for OptionLine<'a> {
    ghost output = { λ it. Some (option_line it.option.code it.option.«data».now) };

    fn fmt<W: fmt::Write>(&self, f: &mut fmt::Formatter<W>) -> fmt::Result {
        let code = self.option.code;
        let octets = HexPairs {
            octets: self.option.data,
        };
        write!(f, "; OPT={code}:{octets}")
    }
}

/// The line of octets that end before an option does.
#[derive(Clone, Copy)]
struct CutOption<'a> {
    octets: &'a [u8],
}

impl<'a> fmt::Display for CutOption<'a> {
    ghost output = { λ it. Some (cut_option_line it.octets.now) };

    fn fmt<W: fmt::Write>(&self, f: &mut fmt::Formatter<W>) -> fmt::Result {
        let octets = UnknownText {
            octets: self.octets,
        };
        let why = ParseError::ShortInput;
        write!(f, "; {octets} ; {why}")
    }
}

/// Writes a line for each option, and one for octets at the end that are no whole option.
pub(crate) fn write_options<W: Sink>(octets: &[u8], output: &mut W) -> Result<(), WriteFault>
    ensures written { OnOk result (PutsOptions octets.now W.Sink output.old output.new) }
    ensures failed { OnErr result (W.failed output.new) }
{
    let mut rest = octets;
    while !rest.is_empty() {
        let Some((option, after)) = EdnsOption::split_from(rest) else {
            output.put_line(CutOption { octets: rest })?;
            return Ok(());
        };
        output.put_line(OptionLine { option })?;
        rest = after;
    }
    Ok(())
}
