//! The texts of the program's errors, and a message that it lists.

use domain_builder::FromStrError;
use domain_tool::tool::ToolError;
use domain_wire::ParseError;
use std::test::Fail;

/// A question and an answer, whose name is a pointer to that of the question.
pub const ANSWER: &[u8] =
    b"\x12\x34\x81\x80\0\x01\0\x01\0\0\0\0\x01a\0\0\x01\0\x01\xc0\x0c\0\x01\0\x01\0\0\x0e\x10\0\x04\xc0\0\x02\x01";

#[test]
fn errors_of_the_tools_have_texts(rt: HostRuntime) -> Result<(), Fail> {
    for (error, text) in [
        (
            ToolError::Parse(ParseError::ShortInput),
            "unexpected end of input",
        ),
        (
            ToolError::Text(FromStrError::ShortBuf),
            "buffer size exceeded",
        ),
        (ToolError::Read, "reading failed"),
        (ToolError::Write, "writing failed"),
        (ToolError::Memory, "out of memory"),
    ] {
        assert!(rt; error.to_string(rt.alloc())?.as_str() == text);
    }
    Ok(())
}
