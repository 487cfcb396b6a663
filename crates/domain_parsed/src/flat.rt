//! The labels of a name in uncompressed wire format, found as those of a name in a message.
ghost use Rattle.std.specs.Prelude.{◌≡◌, false};
ghost use Rattle.domain_label.specs.Wire.{IsAbsoluteWire, labels_in};
ghost use Rattle.domain_reading.specs.ParseResult.{HoldsName};
ghost use Rattle.domain_reading.specs.Progress.{labels_found};

use domain_reading::progress::Progress;
use domain_reading::table::MAX_LABELS;
use domain_reading::uncounted::read_name;

/// Finds the labels of a name in uncompressed wire format, and writes their offsets to the beginning of the table.
pub(crate) fn read_flat(octets: &[u8], entries: &mut [u16; MAX_LABELS]) -> Progress
    requires { IsAbsoluteWire octets.now }
    ensures held { HoldsName octets.now result entries.new }
    ensures labels { labels_found octets.now result entries.new ≡ labels_in octets.now }
    ensures contiguous { result.compressed ≡ false }
{
    let mut progress = Progress::new(0);
    let Ok(()) = read_name(octets, &mut progress, entries, 0) else {
        unreachable!();
    };
    progress
}
