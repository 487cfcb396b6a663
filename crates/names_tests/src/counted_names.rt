//! Names in messages read with a count of their heads, and with a limit on their pointers.
ghost use Rattle.std.specs.Prelude.{◌≡◌, ◌<◌};

use crate::names::SCATTERED;
use domain_parsed::{Heads, ParsedName};
use octseq::Parser;
use std::marker::Brand;
use std::sync::ledger::{Blank, Ledger};

/// The lengths of the first and the last label of the name at an offset, of at most so many pointers.
fn ends_counted<L: Ledger>(
    octets: &[u8],
    offset: usize,
    limit: u8,
    blank: Blank,
) -> Option<(usize, usize)>
    requires name { blank.name ≡ L.name }
    requires parts { blank.parts ≡ L.parts }
    requires some { 0 < blank.parts }
{
    let mut heads = Heads::<L>::new(blank);
    let mut parser = Parser::from_ref(octets);
    parser.seek(offset).ok()?;
    let name = ParsedName::parse_counted(&mut parser, limit, &mut heads).ok()?;
    let mut labels = name.iter();
    let first = labels.next_counted(&mut heads)?;
    let last = labels.next_back_counted(&mut heads)?;
    Some((first.len(), last.len()))
}

fn ends(octets: &[u8], offset: usize, limit: u8) -> Option<(usize, usize)> {
    ends_counted::<Brand>(octets, offset, limit, Blank::new(1))
}

#[test]
fn heads_are_counted(rt: HostRuntime) {
    assert!(rt; ends(SCATTERED, 15, 255) == Some((3, 0)));
    assert!(rt; ends(SCATTERED, 15, 2) == Some((3, 0)));
    assert!(rt; ends(SCATTERED, 15, 1).is_none());
    assert!(rt; ends(SCATTERED, 0, 0) == Some((3, 0)));
}
