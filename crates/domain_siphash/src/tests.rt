//! Hashes that others computed.
use crate::siphash_2_4;

/// 0, 1, 2 and so on.
fn counted<const N: usize>() -> [u8; N] {
    let mut octets = [0; N];
    for (i, octet) in octets.iter_mut().enumerate() {
        *octet = (i % 256) as u8;
    }
    octets
}

/// The case of the paper's appendix A.
#[test]
fn the_case_of_the_paper(rt: HostRuntime) {
    assert_eq!(rt;
        siphash_2_4(&counted::<16>(), &counted::<15>()),
        0xa129ca6149be45e5
    );
}

/// As OpenSSL 3.0 has them, under the same key.
#[test]
fn the_hashes_of_openssl(rt: HostRuntime) {
    let octets = counted::<300>();
    for (len, hash) in [
        (0, 0x726fdb47dd0e0e31),
        (1, 0x74f839c593dc67fd),
        (7, 0xab0200f58b01d137),
        (8, 0x93f5f5799a932462),
        (9, 0x9e0082df0ba9e4b0),
        (16, 0x3f2acc7f57c29bdb),
        (63, 0x958a324ceb064572),
        (64, 0xacd2c40b8502cad8),
        (255, 0xa9c169fec74db21a),
        (300, 0x4b0b710db6117839),
    ] {
        assert_eq!(rt;
            siphash_2_4(&counted::<16>(), &octets[..len.min(300)]),
            hash,
            "of {len} octets"
        );
    }
}
