//! Offsets of octets in wire format.
ghost use Rattle.std.specs.Prelude.{IsTrue, ◌↔◌};
ghost use Rattle.domain_label.specs.Wire.{IsWire, labels_in};
ghost use Rattle.domain_flat.specs.Flat.{IsLabelEnd};

/// Whether a label of the wire format begins at the offset, or the octets end there.
pub fn is_label_end(octets: &[u8], offset: usize) -> bool
    requires { IsWire octets.now }
    ensures { IsTrue result ↔ IsLabelEnd (labels_in octets.now) offset }
{
    let mut start = 0;
    while start < offset && start < octets.len() {
        start = start + 1 + octets[start] as usize;
    }
    start == offset
}
