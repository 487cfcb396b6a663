//! Service parameters, one after another (RFC 9460, 2.2).
ghost use Rattle.std.specs.Prelude.{◌≡◌, ◌<◌, ◌≤◌, length, IfOk, IfErr, OnOk, Some, MatchOption};
ghost use Rattle.domain_svcb.specs.ParamLaws.{HasParams_prop};
ghost use Rattle.domain_svcb.specs.SvcParams.{FirstNumber, FirstParam, HasParams, NoParams, param_fault};

use crate::list::Key;
use crate::octets_value::OctetsValue;
use crate::params::SvcParamsError;
use crate::value::known_value;
use std::fmt;

/// A parameter: what it is about, and how a client is to connect.
#[derive(Clone, Copy, Debug)]
pub struct SvcParam<'a> {
    key: u16,
    value: &'a [u8],
    ghost short: { length value.now ≤ 65535 },
}

impl<'a> SvcParam<'a> {
    ghost use Rattle.domain_svcb.specs.ParamViews.{param_of};

    /// The number of its key (RFC 9460, 14.3).
    pub fn key(&self) -> u16
        ensures { result ≡ (param_of self.now).0 }
    {
        self.key
    }

    /// The octets of its value, at most 65,535, as they are on the wire.
    pub fn value(&self) -> &'a [u8]
        ensures octets { result.now ≡ (param_of self.now).1 }
        ensures short { length result.now ≤ 65535 }
    {
        self.value
    }
}

/// The mnemonic of its key and the value as the key wants it, where it is so: mandatory, alpn, no-default-alpn, port,
/// ipv4hint, ech, ipv6hint, dohpath and ohttp (RFC 9460, 7 and 8; RFC 9461, 5; RFC 9540, 4). Else `key` and the number
/// of the key, and where the value isn't empty a sign of equality and its octets between quotes (RFC 9460, 2.1).
impl<'a> fmt::Display for SvcParam<'a> {
    ghost use Rattle.domain_svcb.specs.ParamViews.{param_of};
    ghost use Rattle.domain_svcb.specs.ParamText.{param_text};

    ghost output = { λ it. Some (param_text (param_of it)) };

    fn fmt<W: fmt::Write>(&self, f: &mut fmt::Formatter<W>) -> fmt::Result {
        let key = self.key;
        match known_value(key, self.value) {
            Some(value) => write!(f, "{}{value}", Key(key)),
            None => {
                let octets = OctetsValue { octets: self.value };
                write!(f, "key{key}{octets}")
            }
        }
    }
}

/// The first of parameters, and the octets after it.
#[derive(Clone, Copy)]
pub(crate) struct First<'a> {
    pub(crate) key: u16,
    pub(crate) value: &'a [u8],
    pub(crate) rest: &'a [u8],
}

/// Takes off a number of 16 bits. `None` exactly where there are fewer than two octets.
fn first_number(octets: &[u8]) -> Option<(u16, &[u8])>
    ensures { MatchOption result (length octets.now < 2)
        (λ it. FirstNumber octets.now it.0 it.1.now) }
{
    let [high, low, rest @ ..] = octets else {
        return None;
    };
    Some((u16::from(*high) * 256 + u16::from(*low), rest))
}

/// Takes off the first parameter, whose key has to be `least` or more.
pub(crate) fn first_param(octets: &[u8], least: u32) -> Result<First<'_>, SvcParamsError>
    requires { 0 < length octets.now }
    ensures ok { IfOk result
        (λ it. FirstParam least octets.now it.key it.value.now it.rest.now) }
    ensures err { IfErr result (λ e. param_fault least octets.now ≡ Some e) }
{
    let Some((key, after)) = first_number(octets) else {
        return Err(SvcParamsError::ShortInput);
    };
    if u32::from(key) < least {
        return Err(SvcParamsError::KeyOrder);
    }
    let Some((len, after)) = first_number(after) else {
        return Err(SvcParamsError::ShortInput);
    };
    let len = usize::from(len);
    if after.len() < len {
        return Err(SvcParamsError::ShortInput);
    }
    let (value, rest) = after.split_at(len);
    Ok(First { key, value, rest })
}

/// Tests that octets are parameters, whose keys strictly ascend (RFC 9460, 2.2). No octet at all is none.
///
/// The error is the first from the left: `ShortInput` where the octets end inside of a parameter, `KeyOrder` where a
/// key isn't more than that of the parameter before it.
pub(crate) fn check_params(octets: &[u8]) -> Result<(), SvcParamsError>
    ensures ok { OnOk result (HasParams 0 octets.now) }
    ensures err { IfErr result (NoParams octets.now) }
{
    let mut rest = octets;
    let mut least = 0;
    while !rest.is_empty() {
        let first = first_param(rest, least)?;
        least = u32::from(first.key) + 1;
        rest = first.rest;
    }
    Ok(())
}

/// The parameters in octets, in the order of their keys. After the last one it stays at `None`.
#[derive(Clone, Copy, Debug)]
pub struct SvcParamsIter<'a> {
    octets: &'a [u8],
    ghost params: { HasParams 0 octets.now } by { HasParams_prop octets.now },
}

impl<'a> SvcParamsIter<'a> {
    ghost use Rattle.domain_svcb.specs.ParamViews.{params_left};

    /// The parameters that these octets are.
    pub(crate) fn new(octets: &'a [u8]) -> SvcParamsIter<'a>
        requires { HasParams 0 octets.now }
        ensures { (h : HasParams 0 octets.now) → params_left result ≡ h.0 }
    {
        SvcParamsIter { octets }
    }
}

/// Each parameter.
impl<'a> Iterator for SvcParamsIter<'a> {
    ghost use Rattle.std.specs.Iterator.{YieldsFirstBy, item_count};
    ghost use Rattle.domain_svcb.specs.ParamViews.{param_of, params_left};

    type Item = SvcParam<'a>;

    ghost next_gives = { YieldsFirstBy param_of params_left };

    ghost remaining = { item_count params_left };

    fn next(&mut self) -> Option<SvcParam<'a>> {
        if self.octets.is_empty() {
            return None;
        }
        let Ok(first) = first_param(self.octets, 0) else {
            unreachable!();
        };
        self.octets = first.rest;
        Some(SvcParam {
            key: first.key,
            value: first.value,
        })
    }
}
