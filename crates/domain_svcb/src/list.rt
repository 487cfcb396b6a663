//! Values that are lists, as text (RFC 9460, 7, 8 and A.1).
ghost use Rattle.std.specs.Prelude.{◌≡◌, length, Some};
ghost use Rattle.std.specs.List.{flat_map};
ghost use Rattle.domain_svcb.specs.Lists.{key_text, key_texts, item_octet, item_texts, TakesFirst, is_list, keys_ascend, protocols_fit, with_commas};
ghost use Rattle.domain_svcb.specs.ListViews.{item_text, protocol_text};

use std::fmt;
use std::net::{Ipv4Addr, Ipv6Addr};

/// What a list is of.
#[derive(Clone, Copy, Debug)]
pub(crate) enum ListKind {
    /// Keys, of two octets each.
    Keys,
    /// Protocols, each after an octet that states how many octets it has.
    Protocols,
    /// Addresses of IPv4, of four octets each.
    Ipv4Hints,
    /// Addresses of IPv6, of sixteen octets each.
    Ipv6Hints,
}

/// A key by its mnemonic, or the word `key` and the number where it has none.
#[derive(Clone, Copy)]
pub(crate) struct Key(pub(crate) u16);

impl fmt::Display for Key {
    ghost output = { λ it. Some (key_text it.0) };

    fn fmt<W: fmt::Write>(&self, f: &mut fmt::Formatter<W>) -> fmt::Result {
        match self.0 {
            0 => f.write_str("mandatory"),
            1 => f.write_str("alpn"),
            2 => f.write_str("no-default-alpn"),
            3 => f.write_str("port"),
            4 => f.write_str("ipv4hint"),
            5 => f.write_str("ech"),
            6 => f.write_str("ipv6hint"),
            7 => f.write_str("dohpath"),
            8 => f.write_str("ohttp"),
            key => write!(f, "key{key}"),
        }
    }
}

/// An octet of an item of a list.
#[derive(Clone, Copy)]
struct ItemOctet(u8);

impl fmt::Display for ItemOctet {
    ghost output = { λ it. Some (item_octet it.0) };

    fn fmt<W: fmt::Write>(&self, f: &mut fmt::Formatter<W>) -> fmt::Result {
        let octet = self.0;
        match octet {
            b',' => f.write_str("\\\\,"),
            b'\\' => f.write_str("\\\\\\\\"),
            b'"' => f.write_str("\\\""),
            0x20..=0x7e => write!(f, "{}", char::from(octet)),
            _ => {
                let hundreds = char::from(b'0' + octet / 100);
                let tens = char::from(b'0' + octet / 10 % 10);
                let ones = char::from(b'0' + octet % 10);
                write!(f, "\\{hundreds}{tens}{ones}")
            }
        }
    }
}

/// A protocol as an item of a list.
#[derive(Clone, Copy)]
pub(crate) struct Protocol<'a>(pub(crate) &'a [u8]);

impl<'a> fmt::Display for Protocol<'a> {
    ghost output = { λ it. Some (flat_map item_octet it.0.now) };

    fn fmt<W: fmt::Write>(&self, f: &mut fmt::Formatter<W>) -> fmt::Result {
        for octet in self.0 {
            write!(f, "{}", ItemOctet(*octet))?;
        }
        Ok(())
    }
}

/// An item of a list.
#[derive(Clone, Copy)]
pub(crate) enum Item<'a> {
    Key(u16),
    Protocol(&'a [u8]),
    Ipv4([u8; 4]),
    Ipv6([u8; 16]),
}

impl<'a> fmt::Display for Item<'a> {
    ghost output = { λ it. Some (item_text it) };

    fn fmt<W: fmt::Write>(&self, f: &mut fmt::Formatter<W>) -> fmt::Result {
        match self {
            Item::Key(key) => write!(f, "{}", Key(*key)),
            Item::Protocol(octets) => write!(f, "{}", Protocol(octets)),
            Item::Ipv4(octets) => write!(f, "{}", Ipv4Addr::from_octets(*octets)),
            Item::Ipv6(octets) => write!(f, "{}", Ipv6Addr::from_octets(*octets)),
        }
    }
}

/// Takes off the first key. `None` where there are fewer than two octets.
fn next_key(octets: &[u8]) -> Option<(u16, &[u8])>
    ensures { TakesFirst key_texts key_text octets.now result }
{
    let [high, low, rest @ ..] = octets else {
        return None;
    };
    Some((u16::from(*high) * 256 + u16::from(*low), rest))
}

/// Takes off the first protocol. `None` where none is whole.
fn next_protocol(octets: &[u8]) -> Option<(&[u8], &[u8])>
    ensures { TakesFirst (item_texts ListKind.Protocols) protocol_text octets.now result }
{
    let [len, rest @ ..] = octets else {
        return None;
    };
    let len = usize::from(*len);
    if rest.len() < len {
        return None;
    }
    Some(rest.split_at(len))
}

/// Takes off the first item. `None` where none is whole.
fn next_item<'a>(kind: ListKind, octets: &'a [u8]) -> Option<(Item<'a>, &'a [u8])>
    ensures { TakesFirst (item_texts kind) item_text octets.now result }
{
    match kind {
        ListKind::Keys => {
            let (key, rest) = next_key(octets)?;
            Some((Item::Key(key), rest))
        }
        ListKind::Protocols => {
            let (protocol, rest) = next_protocol(octets)?;
            Some((Item::Protocol(protocol), rest))
        }
        ListKind::Ipv4Hints => {
            let (address, rest) = octets.split_first_chunk::<4>()?;
            Some((Item::Ipv4(*address), rest))
        }
        ListKind::Ipv6Hints => {
            let (address, rest) = octets.split_first_chunk::<16>()?;
            Some((Item::Ipv6(*address), rest))
        }
    }
}

/// Tests that octets are keys of two octets each, which strictly ascend, without 0.
fn are_keys(octets: &[u8]) -> bool
    ensures { result ≡ keys_ascend 1 octets.now }
{
    let mut rest = octets;
    let mut least = 1;
    while let [high, low, after @ ..] = rest {
        let key = u32::from(*high) * 256 + u32::from(*low);
        if key < least {
            return false;
        }
        least = key + 1;
        rest = after;
    }
    rest.is_empty()
}

/// Tests that octets are protocols of one octet or more, each after an octet that states its length.
fn are_protocols(octets: &[u8]) -> bool
    ensures { result ≡ protocols_fit (length octets.now) octets.now }
{
    let mut rest = octets;
    while let [len, after @ ..] = rest {
        let len = usize::from(*len);
        if len < 1 || after.len() < len {
            return false;
        }
        let (_, next) = after.split_at(len);
        rest = next;
    }
    true
}

/// A value that is a list, of one item or more.
#[derive(Clone, Copy)]
pub(crate) struct ValueList<'a> {
    pub(crate) kind: ListKind,
    pub(crate) octets: &'a [u8],
}

impl<'a> ValueList<'a> {
    /// Whether the octets are such a list.
    pub(crate) fn is_list(&self) -> bool
        ensures { result ≡ is_list self.now.kind self.now.octets.now }
    {
        if self.octets.is_empty() {
            return false;
        }
        match self.kind {
            ListKind::Keys => are_keys(self.octets),
            ListKind::Protocols => are_protocols(self.octets),
            ListKind::Ipv4Hints => self.octets.len() % 4 == 0,
            ListKind::Ipv6Hints => self.octets.len() % 16 == 0,
        }
    }
}

/// The items with a comma between two.
impl<'a> fmt::Display for ValueList<'a> {
    ghost output = { λ it. Some (with_commas (item_texts it.kind it.octets.now)) };

    fn fmt<W: fmt::Write>(&self, f: &mut fmt::Formatter<W>) -> fmt::Result {
        let Some((first, after)) = next_item(self.kind, self.octets) else {
            return Ok(());
        };
        write!(f, "{first}")?;
        let mut rest = after;
        while let Some((item, next)) = next_item(self.kind, rest) {
            write!(f, ",{item}")?;
            rest = next;
        }
        Ok(())
    }
}
