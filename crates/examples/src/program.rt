//! The engine of the program, over octets in memory.
ghost use Rattle.std.specs.Prelude.{IsTrue};
ghost use Rattle.examples.specs.MessageOctets.{ShowsFirst};

use domain_tool::tool;
use std::alloc::Global;

/// Prints the name at the start of a message that lies in memory.
pub fn show_first(alloc: Global, message: &[u8], shown: &mut Vec<u8>) -> bool
    ensures { IsTrue result → ShowsFirst message.now shown.old.items shown.new.items }
{
    let mut input = message;
    tool::name_at(alloc, &mut input, shown, 0).is_ok()
}
