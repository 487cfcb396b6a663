//! Names on a target that writes them shorter, where memory is refused.

use crate::memory::MOST_REFUSED;
use crate::names::absolute;
use arrayvec::ArrayVec;
use domain_compress::CompressComposer;
use domain_parsed::ParsedName;
use domain_rdata::Composer;
use domain_traits::ToName;
use octseq::{Octets, Parser};
use std::process::Abort;

/// Draws numbers, always the same ones.
#[derive(Clone, Copy)]
struct Draws {
    state: u32,
}

impl Draws {
    /// A number below `count`, which isn't 0 and is at most 65,536.
    fn below(&mut self, count: u32) -> u32 {
        self.state = self
            .state
            .wrapping_mul(1_664_525)
            .wrapping_add(1_013_904_223);
        if count == 0 {
            return 0;
        }
        self.state / 65536 % count
    }
}

type Drawn = ArrayVec<u8, 32>;

fn put(rt: &impl Abort, octets: &mut Drawn, octet: u8) {
    assert!(rt; octets.try_push(octet).is_ok());
}

/// A name of one to five labels, which have one or two octets out of a few, so that many ends are alike.
fn drawn_name(rt: &impl Abort, seed: u32) -> Drawn {
    let mut draws = Draws { state: seed };
    let mut octets = ArrayVec::new();
    let labels = draws.below(5).wrapping_add(1);
    for _label in 0..labels {
        let len = if draws.below(2) == 0 { 1 } else { 2 };
        put(rt, &mut octets, len);
        for _octet in 0..len {
            let octet = match draws.below(6) {
                0 => b'a',
                1 => b'A',
                2 => b'b',
                3 => b'B',
                4 => b'[',
                _ => b'0',
            };
            put(rt, &mut octets, octet);
        }
    }
    put(rt, &mut octets, 0);
    octets
}

type Target = CompressComposer<Vec<u8>>;

fn appended(rt: &impl Abort, target: &mut Target, octets: &[u8]) -> bool {
    target.append_compressed_name(&absolute(rt, octets)).is_ok()
}

/// The name is read at the offset, without case. The offset after it is answered.
fn read_back(rt: &impl Abort, message: &[u8], offset: usize, octets: &[u8]) -> usize {
    let mut parser = Parser::from_ref(message);
    assert!(rt; parser.seek(offset).is_ok());
    match ParsedName::parse(&mut parser) {
        Ok(name) => assert!(rt;
            name.name_eq(&absolute(rt, octets)),
            "another name at {offset}"
        ),
        Err(_) => panic!(rt; "no name at {offset}"),
    }
    parser.pos()
}

/// Appends names that are drawn, and reads each back. A call that is refused is made again; how many were is
/// answered.
fn refused_of_many(rt: &impl Abort, target: &mut Target) -> usize {
    let mut refusals = 0usize;
    for seed in 0..100u32 {
        let name = drawn_name(rt, seed);
        let offset = target.as_slice().len();
        if !appended(rt, target, name.as_slice()) {
            refusals = refusals.saturating_add(1);
            assert!(rt; target.as_slice().len() == offset);
            assert!(rt; appended(rt, target, name.as_slice()));
        }
        assert!(rt;
            read_back(rt, target.as_slice(), offset, name.as_slice()) == target.as_slice().len()
        );
    }
    refusals
}

/// At most one request for memory is refused: the names end as the same octets as where there is room for all of them.
#[test]
fn names_are_written_or_refused(rt: HostRuntime) {
    let alloc = rt.alloc();
    let (Ok(room), Ok(wide_room)) = (
        Vec::with_capacity(alloc, 64),
        Vec::with_capacity(alloc, 2048),
    ) else {
        assert!(rt; MOST_REFUSED == 1);
        return;
    };
    let mut target = CompressComposer::new(room);
    assert!(rt; refused_of_many(&rt, &mut target) <= usize::from(MOST_REFUSED));
    let mut again = CompressComposer::new(wide_room);
    assert!(rt; refused_of_many(&rt, &mut again) == 0);
    assert!(rt; target.as_slice() == again.as_slice());
}
