//! Blocks of type bitmaps, service parameters and tags.
ghost use Rattle.std.specs.Prelude.{◌≡◌, ◌≤◌, ◌<◌, ◌+◌, ◌↔◌, length, IfOk, IfErr, IsTrue};
ghost use Rattle.domain_descriptor.specs.Fields.{BlockAt, BlockFault, BlocksAt, BlocksFault, ParamAt, ParamFault, ParamsAt, ParamsFault, IsTag, TagAt, TagFault};

use crate::fault::DataFault;
use crate::octets::{counted_end, octets_end};
use domain_header::numbers::number_of_16_bits;

/// Whether octets are those of a tag.
fn is_tag(octets: &[u8]) -> bool
    ensures { IsTrue result ↔ IsTag octets.now }
{
    for octet in octets {
        if !octet.is_ascii_alphanumeric() {
            return false;
        }
    }
    !octets.is_empty()
}

/// The offset after a tag.
pub(crate) fn tag_end(message: &[u8], at: usize) -> Result<usize, DataFault>
    requires { at ≤ length message.now }
    ensures ok { IfOk result (TagAt message.now at) }
    ensures err { IfErr result (TagFault message.now at) }
{
    let Some(end) = counted_end(message, at) else {
        return Err(DataFault::ShortInput);
    };
    if !is_tag(&message[at + 1..end]) {
        return Err(DataFault::InvalidTag);
    }
    Ok(end)
}

/// The offset after a block of a type bitmap, whose window has to be `least` or more.
fn block_end(message: &[u8], at: usize, least: u16) -> Result<usize, DataFault>
    requires { at ≤ length message.now }
    ensures ok { IfOk result (BlockAt message.now at least) }
    ensures err { IfErr result (BlockFault message.now at least) }
{
    if message.len() - at < 2 {
        return Err(DataFault::ShortInput);
    }
    if u16::from(message[at]) < least {
        return Err(DataFault::WindowOrder);
    }
    let len = usize::from(message[at + 1]);
    if len < 1 || len > 32 {
        return Err(DataFault::BitmapLength);
    }
    match octets_end(message, at + 2, len) {
        Some(end) => Ok(end),
        None => Err(DataFault::ShortInput),
    }
}

/// The offset after blocks to the end of the octets, or none.
#[tactic(auto, using(crate::proofs::Steps::no_block, crate::proofs::Steps::one_block, crate::proofs::Steps::whole_blocks, crate::proofs::Steps::faulty_blocks))]
pub(crate) fn blocks_end(message: &[u8], begin: usize) -> Result<usize, DataFault>
    requires { begin ≤ length message.now }
    ensures ok { IfOk result (λ e. (e ≡ length message.now) × BlocksAt message.now begin 0) }
    ensures err { IfErr result (BlocksFault message.now begin 0) }
{
    let mut at = begin;
    let mut least = 0;
    'block: while at < message.len() {
        let end = match block_end(message, at, least) {
            Ok(end) => end,
            Err(fault) => return Err(fault),
        };
        least = u16::from(message[at]) + 1;
        at = end;
    }
    Ok(at)
}

/// The offset after a service parameter, whose key has to be `least` or more.
fn param_end(message: &[u8], at: usize, least: u32) -> Result<usize, DataFault>
    requires { at ≤ length message.now }
    ensures ok { IfOk result (ParamAt message.now at least) }
    ensures err { IfErr result (ParamFault message.now at least) }
{
    if message.len() - at < 2 {
        return Err(DataFault::ShortInput);
    }
    if u32::from(number_of_16_bits(message, at)) < least {
        return Err(DataFault::KeyOrder);
    }
    if message.len() - at < 4 {
        return Err(DataFault::ShortInput);
    }
    match octets_end(
        message,
        at + 4,
        usize::from(number_of_16_bits(message, at + 2)),
    ) {
        Some(end) => Ok(end),
        None => Err(DataFault::ShortInput),
    }
}

/// The offset after service parameters to the end of the octets, or none.
#[tactic(auto, using(crate::proofs::Steps::no_param, crate::proofs::Steps::one_param, crate::proofs::Steps::whole_params, crate::proofs::Steps::faulty_params))]
pub(crate) fn params_end(message: &[u8], begin: usize) -> Result<usize, DataFault>
    requires { begin ≤ length message.now }
    ensures ok { IfOk result (λ e. (e ≡ length message.now) × ParamsAt message.now begin 0) }
    ensures err { IfErr result (ParamsFault message.now begin 0) }
{
    let mut at = begin;
    let mut least = 0;
    'param: while at < message.len() {
        let end = match param_end(message, at, least) {
            Ok(end) => end,
            Err(fault) => return Err(fault),
        };
        least = u32::from(number_of_16_bits(message, at)) + 1;
        at = end;
    }
    Ok(at)
}
