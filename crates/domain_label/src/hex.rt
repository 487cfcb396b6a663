//! Hexadecimal digits.
ghost use Rattle.std.specs.Prelude.{◌≡◌, ◌<◌};
ghost use Rattle.domain_label.specs.Hex.{hex_digit};

/// The digit from 0 to 9 or a to f that is written for a number below 16.
pub fn hex_character(digit: u8) -> char
    requires { digit < 16 }
    ensures { result ≡ hex_digit digit }
{
    if digit < 10 {
        (digit + b'0') as char
    } else {
        (digit - 10 + b'a') as char
    }
}
