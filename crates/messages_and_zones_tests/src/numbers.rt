//! Values that no row of the table shows: hashes and orders of numbers.

use domain_rdata::Rtype;
use domain_serial::Serial;
use std::hash::{DefaultHasher, Hash, Hasher};

fn hash_of<T: Hash>(value: &T) -> u64 {
    let mut hasher = DefaultHasher::new();
    value.hash(&mut hasher);
    hasher.finish()
}

#[test]
fn serials_and_types_are_hashed_as_their_numbers(rt: HostRuntime) {
    for number in [0u16, 1, 255, 256, 32_768, 65_535] {
        assert!(rt; hash_of(&Rtype::from_int(number)) == hash_of(&number));
        let serial = u32::from(number).wrapping_mul(65_537);
        assert!(rt; hash_of(&Serial(serial)) == hash_of(&serial));
    }
}

#[test]
fn types_are_ordered_as_their_numbers(rt: HostRuntime) {
    let numbers = [0u16, 1, 2, 255, 256, 32_768, 65_535];
    for a in numbers {
        for b in numbers {
            let (left, right) = (Rtype::from_int(a), Rtype::from_int(b));
            assert!(rt; left.cmp(&right) == a.cmp(&b) && (left == right) == (a == b));
        }
    }
}
