//! Blocks of bitmaps, one after another, and the types in them (RFC 4034, 4.1.2).
ghost use Rattle.std.specs.Prelude.{◌≡◌, ◌<◌, ◌≤◌, ◌+◌, ◌*◌, ◌∷◌, [], length, IfOk, IfErr, OnOk, Some, MatchOption};
ghost use Rattle.domain_dnssec.specs.Bits.{ones};
ghost use Rattle.domain_dnssec.specs.BlockLaws.{HasBlocks_prop};
ghost use Rattle.domain_dnssec.specs.TypeBitmaps.{FirstBlock, HasBlocks, NoBlocks, block_fault, blocks_types};

use crate::type_bitmaps::TypeBitmapsError;
use domain_rdata::Rtype;

/// The first block of octets.
#[derive(Clone, Copy)]
pub(crate) struct Block<'a> {
    /// The number of its window.
    pub(crate) window: u8,
    /// Its bitmap, without the octet that states how many octets it has.
    pub(crate) bitmap: &'a [u8],
    /// The octets after the block.
    pub(crate) rest: &'a [u8],
}

/// Takes off the first block, whose window has to be `least` or more.
pub(crate) fn first_block(octets: &[u8], least: u16) -> Result<Block<'_>, TypeBitmapsError>
    ensures ok { IfOk result
        (λ it. FirstBlock least octets.now it.window it.bitmap.now it.rest.now) }
    ensures window { IfOk result (λ it. it.window < 256) }
    ensures err { IfErr result (λ e. block_fault least octets.now ≡ Some e) }
{
    let [window, len, after @ ..] = octets else {
        return Err(TypeBitmapsError::ShortInput);
    };
    if u16::from(*window) < least {
        return Err(TypeBitmapsError::WindowOrder);
    }
    let len = usize::from(*len);
    if len < 1 || len > 32 {
        return Err(TypeBitmapsError::BitmapLength);
    }
    if after.len() < len {
        return Err(TypeBitmapsError::ShortInput);
    }
    let (bitmap, rest) = after.split_at(len);
    Ok(Block {
        window: *window,
        bitmap,
        rest,
    })
}

/// Tests that octets are blocks, one or more, whose windows ascend (RFC 4034, 4.1.2).
///
/// The error is the first from the left:
/// - `ShortInput`, if the octets end where a block is due, or inside a block.
/// - `WindowOrder`, if the window of a block isn't greater than that of the block before it.
/// - `BitmapLength`, if a block has no octet or more than 32.
pub(crate) fn check_blocks(octets: &[u8]) -> Result<(), TypeBitmapsError>
    ensures ok { OnOk result (HasBlocks 0 octets.now) }
    ensures some { OnOk result (0 < length octets.now) }
    ensures err { IfErr result (NoBlocks octets.now) }
{
    let mut rest = octets;
    let mut least = 0;
    loop {
        let block = first_block(rest, least)?;
        least = u16::from(block.window) + 1;
        rest = block.rest;
        if rest.is_empty() {
            return Ok(());
        }
    }
}

/// The highest bit of an octet that is a one, counted from 0, and the octet without it. `None` exactly where there is
/// none.
fn first_one(octet: u8) -> Option<(u8, u8)>
    ensures bits { MatchOption result (ones octet ≡ []) (λ it. ones octet ≡ it.0 ∷ ones it.1) }
    ensures within { MatchOption result (octet ≡ 0) (λ it. it.0 < 8) }
{
    if octet == 0 {
        return None;
    }
    let bit = octet.leading_zeros() as u8;
    Some((bit, octet % (0x80 >> bit)))
}

/// The types in bitmaps, in ascending order. After the last one it stays at `None`.
#[derive(Clone, Copy, Debug)]
pub struct TypesIter<'a> {
    // the type of the first bit of the octet at which it is
    first: u16,
    // what is left of that octet
    octet: u8,
    // the octets of the bitmap after it, and the blocks after that
    bitmap: &'a [u8],
    later: &'a [u8],
    ghost within: { first + 8 + 8 * length bitmap.now ≤ 65536 },
    ghost rest: { HasBlocks 0 later.now } by { HasBlocks_prop later.now },
}

impl<'a> TypesIter<'a> {
    ghost use Rattle.domain_dnssec.specs.TypeViews.{types_left, types_after, octets_left};

    /// The types of these blocks.
    pub(crate) fn new(blocks: &'a [u8]) -> TypesIter<'a>
        requires { HasBlocks 0 blocks.now }
        ensures { (h : HasBlocks 0 blocks.now) → types_left result ≡ blocks_types h.0 }
    {
        TypesIter {
            first: 0,
            octet: 0,
            bitmap: &[],
            later: blocks,
        }
    }

    /// Goes on to the next octet, of this bitmap or of the next block. `None` exactly where there is none.
    fn at_next_octet(&self) -> Option<TypesIter<'a>>
        ensures types { MatchOption result (types_after self.now ≡ [])
            (λ it. types_left it ≡ types_after self.now) }
        ensures fewer { MatchOption result (octets_left self.now ≡ 0)
            (λ it. octets_left it < octets_left self.now) }
    {
        if let [octet, bitmap @ ..] = self.bitmap {
            return Some(TypesIter {
                first: self.first + 8,
                octet: *octet,
                bitmap,
                later: self.later,
            });
        }
        let Ok(block) = first_block(self.later, 0) else {
            return None;
        };
        let [octet, bitmap @ ..] = block.bitmap else {
            unreachable!();
        };
        Some(TypesIter {
            first: u16::from(block.window) * 256,
            octet: *octet,
            bitmap,
            later: block.rest,
        })
    }
}

/// Each type whose bit is a one.
impl<'a> Iterator for TypesIter<'a> {
    ghost use Rattle.std.specs.Iterator.{YieldsFirstBy, item_count};
    ghost use Rattle.domain_rdata.specs.Rtypes.{rtype_number};
    ghost use Rattle.domain_dnssec.specs.TypeViews.{types_left};

    type Item = Rtype;

    ghost next_gives = { YieldsFirstBy rtype_number types_left };

    ghost remaining = { item_count types_left };

    fn next(&mut self) -> Option<Rtype> {
        loop {
            if let Some((bit, octet)) = first_one(self.octet) {
                self.octet = octet;
                return Some(Rtype::from_int(self.first + u16::from(bit)));
            }
            *self = self.at_next_octet()?;
        }
    }
}
