//! Values as text (RFC 9460, 2.1, 7 and 8).
ghost use Rattle.std.specs.Prelude.{◌≤◌, length, Some};
ghost use Rattle.domain_svcb.specs.Values.{list_value, no_value, number_value, base64_value, plain_value, value_of_key};
ghost use Rattle.domain_svcb.specs.ValueViews.{known_text, HasText};

use crate::list::{ListKind, ValueList};
use crate::octets_value::OctetsValue;
use base64::display::Base64Display;
use base64::engine::general_purpose::STANDARD;
use std::fmt;

/// A value that is as its key wants it.
#[derive(Clone, Copy)]
pub(crate) enum KnownValue<'a> {
    Nothing,
    Number(u16),
    Items(ValueList<'a>),
    Base64(&'a [u8]),
    Plain(OctetsValue<'a>),
}

impl<'a> fmt::Display for KnownValue<'a> {
    ghost output = { λ it. Some (known_text it) };

    fn fmt<W: fmt::Write>(&self, f: &mut fmt::Formatter<W>) -> fmt::Result {
        match self {
            KnownValue::Nothing => Ok(()),
            KnownValue::Number(number) => write!(f, "=\"{number}\""),
            KnownValue::Items(list) => write!(f, "=\"{list}\""),
            KnownValue::Base64(octets) => {
                let text = Base64Display::new(octets, &STANDARD);
                write!(f, "=\"{text}\"")
            }
            KnownValue::Plain(value) => write!(f, "{value}"),
        }
    }
}

/// The value as a list. `None` where it isn't one.
fn items(kind: ListKind, octets: &[u8]) -> Option<KnownValue<'_>>
    ensures { HasText (list_value kind octets.now) result }
{
    let list = ValueList { kind, octets };
    if !list.is_list() {
        return None;
    }
    Some(KnownValue::Items(list))
}

/// The value that is none. `None` where there is one.
fn nothing<'a>(octets: &[u8]) -> Option<KnownValue<'a>>
    ensures { HasText (no_value octets.now) result }
{
    match octets {
        [] => Some(KnownValue::Nothing),
        _ => None,
    }
}

/// The value as a number of 16 bits. `None` where it isn't two octets.
fn number<'a>(octets: &[u8]) -> Option<KnownValue<'a>>
    ensures { HasText (number_value octets.now) result }
{
    let [high, low] = octets else {
        return None;
    };
    Some(KnownValue::Number(u16::from(*high) * 256 + u16::from(*low)))
}

/// The value in base64. `None` where it has no octet.
fn base64(octets: &[u8]) -> Option<KnownValue<'_>>
    ensures { HasText (base64_value octets.now) result }
{
    if octets.is_empty() {
        return None;
    }
    Some(KnownValue::Base64(octets))
}

/// The value as its octets. `None` where it has none.
fn plain(octets: &[u8]) -> Option<KnownValue<'_>>
    requires { length octets.now ≤ 65535 }
    ensures { HasText (plain_value octets.now) result }
{
    if octets.is_empty() {
        return None;
    }
    Some(KnownValue::Plain(OctetsValue { octets }))
}

/// The value as its key wants it. `None` where it isn't so, and where the key is another.
pub(crate) fn known_value(key: u16, octets: &[u8]) -> Option<KnownValue<'_>>
    requires { length octets.now ≤ 65535 }
    ensures { HasText (value_of_key key octets.now) result }
{
    match key {
        0 => items(ListKind::Keys, octets),
        1 => items(ListKind::Protocols, octets),
        2 => nothing(octets),
        3 => number(octets),
        4 => items(ListKind::Ipv4Hints, octets),
        5 => base64(octets),
        6 => items(ListKind::Ipv6Hints, octets),
        7 => plain(octets),
        8 => nothing(octets),
        _ => None,
    }
}
