//! Lines that are put together and written many at once.
ghost use Rattle.std.specs.Prelude.{◌≡◌, [], OnOk};
ghost use Rattle.domain_tool.specs.Outputs.{BuffersLine, AppendsLines};

use crate::tool::WriteFault;
use std::fmt::Display;
use std::io::Write;

/// How many octets of lines are written at once, or more.
const ENOUGH: usize = 8192;

/// Puts a text and a newline after lines that aren't written yet, and writes all where they are enough.
pub(crate) fn put_line<D: Display + Drop, W: Write>(
    lines: &mut Vec<u8>,
    output: &mut W,
    text: D,
) -> Result<(), WriteFault>
    ensures { OnOk result
        (BuffersLine W.contents (D.output text) output.old lines.old output.new lines.new) }
{
    if writeln!(lines, "{text}").is_err() {
        return Err(WriteFault::Memory);
    }
    if lines.len() < ENOUGH {
        return Ok(());
    }
    write_lines(lines, output)
}

/// Writes the lines that aren't written yet, and leaves none of them.
pub(crate) fn write_lines<W: Write>(lines: &mut Vec<u8>, output: &mut W) -> Result<(), WriteFault>
    ensures none_left { OnOk result (lines.new.items ≡ []) }
    ensures written { OnOk result (AppendsLines W.contents output.old lines.old output.new) }
{
    output.write_all(lines.as_slice())?;
    lines.clear();
    Ok(())
}
