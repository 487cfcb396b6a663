//! Lines put together on the stack.
ghost use Rattle.std.specs.Prelude.{IfSome};
ghost use Rattle.domain_tool.specs.Outputs.{IsTextLine};

use arrayvec::ArrayVec;
use std::fmt::Display;
use std::io::Write;

/// How many octets of a line are put together. The longest line that names need, the text of a name of
/// 255 octets with a dot and a newline, has 1,005.
const LINE_LEN: usize = 1024;

/// A text and a newline, where they fit into a line.
pub(crate) fn line_of<D: Display>(text: &D) -> Option<ArrayVec<u8, LINE_LEN>>
    ensures { IfSome result (λ line. IsTextLine (D.output text.now) line.items) }
{
    let mut line = ArrayVec::new();
    match writeln!(line, "{text}") {
        Ok(()) => Some(line),
        Err(_) => None,
    }
}
