//! Character strings in the data of records (RFC 1035, 3.3).
ghost use Rattle.std.specs.Prelude.{◌↔◌, ◌≤◌, length, IsTrue};
ghost use Rattle.dnsnames_c.specs.Strings.{AreStrings, FindsCharString, GivesDataString};

use domain_descriptor::table::CLASS_IN;
use domain_descriptor::{FieldKind, known_fields};

/// Whether data of this type are character strings and nothing else.
fn are_strings(rtype: u16) -> bool
    ensures { IsTrue result ↔ AreStrings rtype }
{
    matches!(known_fields(rtype, CLASS_IN), [FieldKind::CharStrings])
}

/// The character string that octets begin with at an offset.
fn string_at(octets: &[u8], offset: usize) -> Option<&[u8]>
    requires { offset ≤ length octets.now }
    ensures { FindsCharString octets.now offset result }
{
    let [len, rest @ ..] = &octets[offset..] else {
        return None;
    };
    let len = usize::from(*len);
    if rest.len() < len {
        return None;
    }
    let (string, _) = rest.split_at(len);
    Some(string)
}

/// The next character string in the data of a record of this type, which are the `data_len` octets of the message from
/// `data_at` on: TXT (RFC 1035, 3.3.14), SPF (RFC 4408, 3.1.1), AVC. `passed` is how many octets of the data were
/// passed: 0 for the first string, and then as the call leaves it. `string` becomes the offset of its octets in the
/// message, `string_len` how many there are.
///
/// Returns 27 if all strings were passed, and 21 if the type is another. Returns 1 if the data end past the message,
/// if they end in the string, or if they have no octet, since there is at least one string. In each of these cases
/// nothing is changed.
#[unsafe(no_mangle)]
pub extern "C" fn dnsnames_data_string(
    message: &[u8],
    data_at: usize,
    data_len: usize,
    rtype: u16,
    passed: &mut usize,
    string: &mut usize,
    string_len: &mut usize,
) -> u32
    ensures { GivesDataString message.now data_at data_len rtype result passed.old passed.new
        string.old string.new string_len.old string_len.new }
{
    if !are_strings(rtype) {
        return 21;
    }
    if data_at > message.len() || message.len() - data_at < data_len {
        return 1;
    }
    if *passed > 0 && *passed >= data_len {
        return 27;
    }
    let octets = &message[..data_at + data_len];
    let Some(found) = string_at(octets, data_at + *passed) else {
        return 1;
    };
    *string = data_at + *passed + 1;
    *string_len = found.len();
    *passed = *passed + 1 + found.len();
    0
}
