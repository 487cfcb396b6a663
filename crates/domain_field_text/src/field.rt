//! A field of record data that is no name, as text (RFC 1035, 5.1).
ghost use Rattle.std.specs.Prelude.{◌≡◌, ◌≤◌, ◌<◌, length, Some, IfSome, option_map};
ghost use Rattle.std.specs.Fmt.{decimal};
ghost use Rattle.std.specs.Net.Text.{ipv4_text};
ghost use Rattle.base64.specs.Engines.{standard};
ghost use Rattle.base64.specs.GeneralPurpose.{encode_of};
ghost use Rattle.domain_header.specs.Rtypes.{rtype_text};
ghost use Rattle.domain_strings.specs.Base16.{base16_text};
ghost use Rattle.domain_strings.specs.Quoted.{quoted};
ghost use Rattle.domain_dnssec.specs.BitmapViews.{bitmaps_types};
ghost use Rattle.domain_dnssec.specs.Times.{time_text};
ghost use Rattle.domain_dnssec.specs.TypesText.{types_text};
ghost use Rattle.domain_svcb.specs.Lists.{ipv6_octets_text};
ghost use Rattle.domain_svcb.specs.ParamText.{params_text};
ghost use Rattle.domain_svcb.specs.ParamsViews.{params_of as svc_params};
ghost use Rattle.domain_field_text.specs.Base32.{base32hex_text};
ghost use Rattle.domain_field_text.specs.FieldTexts.{led, number_of, rtype_of, of_size, few, behind_count, field_octets_text};
ghost use Rattle.domain_field_text.specs.FieldTexts.{optional_text, some_text, any_text, strings_text, tag_of, salt_text, types_of, params_in};
ghost use Rattle.domain_field_text.specs.Held.{HasFieldText};

use domain_descriptor::FieldKind;
use domain_dnssec::{RtypeField, TimeField, TypeBitmaps};
use domain_rdata::Rtype;
use domain_strings::{Base16Octets, Base64Octets, CharString, QuotedOctets, Tag};
use domain_svcb::SvcParams;
use std::net::{IpAddr, Ipv4Addr, Ipv6Addr};

/// What a field holds that is no name, in the type whose text it has.
#[derive(Clone, Copy)]
pub enum FieldText<'a> {
    /// Nothing, where the field may be absent.
    Absent,
    /// A number in decimal digits.
    Number(u32),
    /// A time, `YYYYMMDDHHmmSS` (RFC 4034, 3.2).
    Time(TimeField),
    /// The mnemonic of a type, or `TYPE` and its number (RFC 3597, 5).
    Rtype(RtypeField),
    /// An address.
    Address(IpAddr),
    /// Octets between quotes.
    Quoted(QuotedOctets<&'a [u8]>),
    /// Character strings, each behind the octet that counts it, and each between quotes.
    Strings(&'a [u8]),
    /// Letters and digits.
    Tag(Tag<&'a [u8]>),
    /// A hyphen, in place of octets in hexadecimal digits (RFC 5155, 3.3).
    Hyphen,
    /// Octets in hexadecimal digits.
    Base16(Base16Octets<&'a [u8]>),
    /// Octets in base32hex without padding (RFC 5155, 3.3).
    Base32(&'a [u8]),
    /// Octets in base64.
    Base64(Base64Octets<&'a [u8]>),
    /// The mnemonics of types (RFC 4034, 4.2).
    Types(TypeBitmaps<&'a [u8]>),
    /// Service parameters (RFC 9460, 2.1).
    Params(SvcParams<&'a [u8]>),
}

/// The number that one, two or four octets are.
fn number_of(octets: &[u8]) -> Option<u32>
    ensures { result ≡ number_of octets.now }
{
    match octets {
        [a] => Some(u32::from(*a)),
        [a, b] => Some(u32::from(*a) * 256 + u32::from(*b)),
        [a, b, c, d] => {
            let number = u32::from(*a) * 16777216
                + u32::from(*b) * 65536
                + u32::from(*c) * 256
                + u32::from(*d);
            Some(number)
        }
        _ => None,
    }
}

/// The type of records that two octets are.
fn rtype_of(octets: &[u8]) -> Option<u16>
    ensures { result ≡ rtype_of octets.now }
{
    match octets {
        [a, b] => Some(u16::from(*a) * 256 + u16::from(*b)),
        _ => None,
    }
}

/// The octets behind one that says how many they are.
fn behind_count(octets: &[u8]) -> Option<&[u8]>
    ensures octets { option_map (λ s. s.now) result ≡ behind_count octets.now }
    ensures short { IfSome result (λ s. length s.now ≤ 255) }
{
    let [count, others @ ..] = octets else {
        return None;
    };
    if others.len() == usize::from(*count) {
        return Some(others);
    }
    None
}

/// A number.
fn number_held(octets: &[u8]) -> Option<FieldText<'_>>
    ensures { HasFieldText result (λ first. led first (option_map decimal (number_of octets.now))) }
{
    match number_of(octets) {
        Some(number) => Some(FieldText::Number(number)),
        None => None,
    }
}

/// A time.
fn time_held(octets: &[u8]) -> Option<FieldText<'_>>
    ensures { HasFieldText result
        (λ first. led first (option_map time_text (number_of octets.now))) }
{
    match number_of(octets) {
        Some(seconds) => Some(FieldText::Time(TimeField { seconds })),
        None => None,
    }
}

/// A type of records.
fn rtype_held(octets: &[u8]) -> Option<FieldText<'_>>
    ensures { HasFieldText result
        (λ first. led first (option_map rtype_text (rtype_of octets.now))) }
{
    match rtype_of(octets) {
        Some(number) => {
            let rtype = Rtype::from_int(number);
            Some(FieldText::Rtype(RtypeField { rtype }))
        }
        None => None,
    }
}

/// An IPv4 address.
fn ipv4_held(octets: &[u8]) -> Option<FieldText<'_>>
    ensures { HasFieldText result
        (λ first. led first (option_map ipv4_text (of_size 4 octets.now))) }
{
    let Ok(octets) = <[u8; 4]>::try_from(octets) else {
        return None;
    };
    let address = Ipv4Addr::from_octets(octets);
    Some(FieldText::Address(IpAddr::V4(address)))
}

/// An IPv6 address.
fn ipv6_held(octets: &[u8]) -> Option<FieldText<'_>>
    ensures { HasFieldText result
        (λ first. led first (option_map ipv6_octets_text (of_size 16 octets.now))) }
{
    let Ok(octets) = <[u8; 16]>::try_from(octets) else {
        return None;
    };
    let address = Ipv6Addr::from_octets(octets);
    Some(FieldText::Address(IpAddr::V6(address)))
}

/// Octets between quotes.
fn quoted_held(octets: &[u8]) -> Option<FieldText<'_>>
    ensures { HasFieldText result (λ first. led first (option_map quoted (few octets.now))) }
{
    match QuotedOctets::from_octets(octets) {
        Ok(octets) => Some(FieldText::Quoted(octets)),
        Err(_) => None,
    }
}

/// A character string.
fn string_held(octets: &[u8]) -> Option<FieldText<'_>>
    ensures { HasFieldText result
        (λ first. led first (option_map quoted (behind_count octets.now))) }
{
    match behind_count(octets) {
        Some(string) => quoted_held(string),
        None => None,
    }
}

/// A character string, or none.
fn optional_held(octets: &[u8]) -> Option<FieldText<'_>>
    ensures { HasFieldText result (λ first. optional_text first octets.now) }
{
    if octets.is_empty() {
        return Some(FieldText::Absent);
    }
    string_held(octets)
}

/// Character strings, one or more.
fn strings_held(octets: &[u8]) -> Option<FieldText<'_>>
    ensures { HasFieldText result (λ first. led first (some_text strings_text (Some octets.now))) }
{
    if octets.is_empty() {
        return None;
    }
    Some(FieldText::Strings(octets))
}

/// A tag.
fn tag_held(octets: &[u8]) -> Option<FieldText<'_>>
    ensures { HasFieldText result (λ first. led first (tag_of (behind_count octets.now))) }
{
    let Some(octets) = behind_count(octets) else {
        return None;
    };
    let Ok(string) = CharString::from_octets(octets) else {
        return None;
    };
    match Tag::from_string(string) {
        Ok(tag) => Some(FieldText::Tag(tag)),
        Err(_) => None,
    }
}

/// Octets in hexadecimal digits, or a hyphen.
fn counted_held(octets: &[u8]) -> Option<FieldText<'_>>
    ensures { HasFieldText result
        (λ first. led first (option_map salt_text (behind_count octets.now))) }
{
    let Some(octets) = behind_count(octets) else {
        return None;
    };
    if octets.is_empty() {
        return Some(FieldText::Hyphen);
    }
    match Base16Octets::from_octets(octets) {
        Ok(octets) => Some(FieldText::Base16(octets)),
        Err(_) => None,
    }
}

/// Octets in base32hex, one or more.
fn base32_held(octets: &[u8]) -> Option<FieldText<'_>>
    ensures { HasFieldText result
        (λ first. led first (some_text base32hex_text (behind_count octets.now))) }
{
    let Some(octets) = behind_count(octets) else {
        return None;
    };
    if octets.is_empty() {
        return None;
    }
    Some(FieldText::Base32(octets))
}

/// Octets in hexadecimal digits, one or more.
fn base16_held(octets: &[u8]) -> Option<FieldText<'_>>
    ensures { HasFieldText result (λ first. led first (some_text base16_text (few octets.now))) }
{
    if octets.is_empty() {
        return None;
    }
    match Base16Octets::from_octets(octets) {
        Ok(octets) => Some(FieldText::Base16(octets)),
        Err(_) => None,
    }
}

/// Octets in base64, one or more.
fn base64_held(octets: &[u8]) -> Option<FieldText<'_>>
    ensures { HasFieldText result
        (λ first. led first (some_text (encode_of standard) (few octets.now))) }
{
    if octets.is_empty() {
        return None;
    }
    match Base64Octets::from_octets(octets) {
        Ok(octets) => Some(FieldText::Base64(octets)),
        Err(_) => None,
    }
}

/// The bitmaps of types that octets are.
#[tactic(auto, using(crate::proofs::Blocks::blocks_are, crate::proofs::Blocks::blocks_none))]
fn bitmaps_of(octets: &[u8]) -> Option<TypeBitmaps<&[u8]>>
    requires { 0 < length octets.now }
    ensures { option_map (λ it. bitmaps_types it) result ≡ types_of octets.now }
{
    match TypeBitmaps::from_octets(octets) {
        Ok(bitmaps) => Some(bitmaps),
        Err(_) => None,
    }
}

/// Types, one or more.
fn types_held(octets: &[u8]) -> Option<FieldText<'_>>
    ensures { HasFieldText result
        (λ first. led first (some_text types_text (types_of octets.now))) }
{
    if octets.is_empty() {
        return None;
    }
    let Some(bitmaps) = bitmaps_of(octets) else {
        return None;
    };
    let mut types = bitmaps.iter();
    match types.next() {
        Some(_) => Some(FieldText::Types(bitmaps)),
        None => None,
    }
}

/// Types, or none.
fn optional_types_held(octets: &[u8]) -> Option<FieldText<'_>>
    ensures { HasFieldText result (λ first. any_text types_text first (types_of octets.now)) }
{
    if octets.is_empty() {
        return Some(FieldText::Absent);
    }
    let Some(bitmaps) = bitmaps_of(octets) else {
        return None;
    };
    let mut types = bitmaps.iter();
    match types.next() {
        Some(_) => Some(FieldText::Types(bitmaps)),
        None => Some(FieldText::Absent),
    }
}

/// The service parameters that octets are.
#[tactic(auto, using(crate::proofs::Params::params_are, crate::proofs::Params::params_none))]
fn svc_params_in(octets: &[u8]) -> Option<SvcParams<&[u8]>>
    ensures { option_map (λ it. svc_params it) result ≡ params_in octets.now }
{
    match SvcParams::from_octets(octets) {
        Ok(params) => Some(params),
        Err(_) => None,
    }
}

/// Service parameters, or none.
fn params_held(octets: &[u8]) -> Option<FieldText<'_>>
    ensures { HasFieldText result (λ first. any_text params_text first (params_in octets.now)) }
{
    let Some(params) = svc_params_in(octets) else {
        return None;
    };
    let mut left = params.iter();
    match left.next() {
        Some(_) => Some(FieldText::Params(params)),
        None => Some(FieldText::Absent),
    }
}

impl<'a> FieldText<'a> {
    /// Reads the octets of a field of this kind.
    ///
    /// `None` if they have no text: where they aren't such a field, or it is a name, or has no form of its own. Such
    /// data is written in the form of RFC 3597, 5.
    pub fn read(kind: FieldKind, octets: &'a [u8]) -> Option<FieldText<'a>>
        ensures { HasFieldText result (λ first. field_octets_text first kind octets.now) }
    {
        match kind {
            FieldKind::Number8
            | FieldKind::Number16
            | FieldKind::Number32
            | FieldKind::Ttl
            | FieldKind::Serial => number_held(octets),
            FieldKind::Time => time_held(octets),
            FieldKind::Rtype => rtype_held(octets),
            FieldKind::Ipv4 => ipv4_held(octets),
            FieldKind::Ipv6 => ipv6_held(octets),
            FieldKind::CharString => string_held(octets),
            FieldKind::OptionalString => optional_held(octets),
            FieldKind::CharStrings => strings_held(octets),
            FieldKind::Tag => tag_held(octets),
            FieldKind::QuotedText => quoted_held(octets),
            FieldKind::CountedBase16 => counted_held(octets),
            FieldKind::CountedBase32 => base32_held(octets),
            FieldKind::TypeBitmaps => types_held(octets),
            FieldKind::OptionalTypeBitmaps => optional_types_held(octets),
            FieldKind::SvcParams => params_held(octets),
            FieldKind::Base16 => base16_held(octets),
            FieldKind::Base64 => base64_held(octets),
            FieldKind::Name
            | FieldKind::Number48
            | FieldKind::Number64
            | FieldKind::CountedBase64
            | FieldKind::Octets => None,
        }
    }
}
