//! Prints the name in the first question of a message that is read from standard input.
#![tactic(auto)]

ghost use Rattle.std.specs.Prelude.{IfOk};
ghost use Rattle.domain.specs.Grammar.{Names};
ghost use Rattle.domain.specs.ParsedViews.{parsed_labels};

use domain::base::name::*;
use domain::base::wire::ParseError;
use octseq::Parser;
use std::io::Read;
use std::process::ExitCode;

/// The name of the first question. It follows the 12 octets of the header.
fn question_name(message: &[u8]) -> Result<ParsedName<&[u8]>, ParseError>
    ensures name { IfOk result (λ name. Names 255 message.now 12 (parsed_labels name)) }
{
    let mut parser = Parser::from_ref(message);
    parser.seek(12)?;
    ParsedName::parse(&mut parser)
}

fn main(rt: HostRuntime) -> ExitCode {
    let mut message = Vec::new(rt.alloc());
    if rt.stdin().read_to_end(&mut message).is_err() {
        return ExitCode::from(3);
    }
    match question_name(message.as_slice()) {
        Ok(name) => {
            let _ = println!(rt; "{name}");
            ExitCode::SUCCESS
        }
        Err(e) => {
            let _ = eprintln!(rt; "{e}");
            ExitCode::FAILURE
        }
    }
}
