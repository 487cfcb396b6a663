//! EDNS options that are written and read by name.
ghost use Rattle.std.specs.Prelude.{◌≡◌, ◌≢◌, ◌≤◌, ◌++◌, length};
ghost use Rattle.std.specs.Int.{w16, to_be_bytes};
ghost use Rattle.domain_wire.specs.Refusals.{refusal};
ghost use Rattle.dnsnames_c.specs.NamedOptions.{AddsOption, AddsCookies, AddsSubnet, AddsError};
ghost use Rattle.dnsnames_c.specs.NamedOptions.{ReadsCookies, ReadsSubnet, ReadsError};
ghost use Rattle.dnsnames_c.specs.Status.{refusal_number};

use domain_buffer::builder::put_entry;
use domain_buffer::put::put_at;
use domain_message::option_codes::{CLIENT_SUBNET, COOKIE, EXTENDED_ERROR};
use domain_message::{ClientSubnet, Cookie, EdnsOption, ExtendedError};
use domain_wire::ParseError;

/// The number of why octets aren't what they are read as, or of what can't be written as an option.
fn number_of_refusal(e: ParseError) -> u32
    ensures { result ≡ refusal_number (refusal e) }
{
    match e {
        ParseError::ShortInput => 1,
        ParseError::Form(_) => 28,
    }
}

/// The octets of an option before its data: its code, and how many octets of data follow (RFC 6891, 6.1.2).
fn option_head(code: u16, data_len: u16) -> [u8; 4]
    ensures { result ≡ to_be_bytes w16 code ++ to_be_bytes w16 data_len }
{
    let [a, b] = code.to_be_bytes();
    let [c, d] = data_len.to_be_bytes();
    [a, b, c, d]
}

/// Writes an option after the first `options_len` octets, whose data is in three parts, of which two are short.
fn add_parts(
    options: &mut [u8],
    options_len: &mut usize,
    code: u16,
    first: &[u8],
    second: &[u8],
    third: &[u8],
) -> u32
    requires first { length first.now ≤ 255 }
    requires second { length second.now ≤ 255 }
    ensures { AddsOption code (first.now ++ (second.now ++ third.now)) result options.old
        options_len.old options.new options_len.new }
{
    let start = *options_len;
    if start > options.len() {
        return 20;
    }
    let room = options.len().min(65_535);
    let short = start + 4 + first.len() + second.len();
    if room < short || room - short < third.len() {
        return 8;
    }
    let head = option_head(code, (first.len() + second.len() + third.len()) as u16);
    put_at(&head, options, start);
    put_entry(first, second, third, options, start + 4);
    *options_len = short + third.len();
    0
}

/// Writes an option after the first `options_len` octets, which are options in wire format (RFC 6891, 6.1.2): its
/// code, its length, and its data. Adds its size to `options_len`.
///
/// Returns 20 if `options_len` is more than the buffer has, and 8 if the option doesn't fit, or there would be more
/// than 65,535 octets. Nothing is then changed.
#[unsafe(no_mangle)]
pub extern "C" fn dnsnames_append_option(
    options: &mut [u8],
    options_len: &mut usize,
    code: u16,
    data: &[u8],
) -> u32
    ensures { AddsOption code data.now result options.old options_len.old options.new options_len.new }
{
    add_parts(options, options_len, code, &[], &[], data)
}

/// Writes an option with the cookie of a client, and after it that of a server, if this isn't empty (RFC 7873, 4).
///
/// Returns 28 if the server's has 1 to 7 octets, or more than 32; else 20 and 8 as `dnsnames_append_option` does.
/// Nothing is then changed.
#[unsafe(no_mangle)]
pub extern "C" fn dnsnames_append_cookie(
    options: &mut [u8],
    options_len: &mut usize,
    client: &[u8; 8],
    server: &[u8],
) -> u32
    ensures { AddsCookies client.now server.now result options.old options_len.old options.new
        options_len.new }
{
    if !server.is_empty() {
        let cookie = Cookie {
            client,
            server: Some(server),
        };
        if let Err(e) = cookie.check() {
            return number_of_refusal(e);
        }
    }
    add_parts(options, options_len, COOKIE, &[], client, server)
}

/// Writes an option with the subnet of a client (RFC 7871, 6): the family of its address, how many bits of it are
/// encoded, for how many an answer is meant, and these bits. The address may have more octets than they take, of
/// which the rest isn't written.
///
/// Returns 28 if the family isn't 0, 1 or 2, or its addresses have fewer bits; 1 if the address has. Else returns 20
/// and 8 as `dnsnames_append_option` does. Nothing is then changed.
#[unsafe(no_mangle)]
pub extern "C" fn dnsnames_append_client_subnet(
    options: &mut [u8],
    options_len: &mut usize,
    family: u16,
    source_prefix_len: u8,
    scope_prefix_len: u8,
    address: &[u8],
) -> u32
    ensures { AddsSubnet family source_prefix_len scope_prefix_len address.now result options.old
        options_len.old options.new options_len.new }
{
    let subnet = ClientSubnet {
        family,
        source_prefix_len,
        scope_prefix_len,
        address,
    };
    let (whole, last) = match subnet.cut_address() {
        Ok(cut) => cut,
        Err(e) => return number_of_refusal(e),
    };
    let [a, b] = family.to_be_bytes();
    let head = [a, b, source_prefix_len, scope_prefix_len];
    match last {
        Some(octet) => add_parts(options, options_len, CLIENT_SUBNET, &head, whole, &[octet]),
        None => add_parts(options, options_len, CLIENT_SUBNET, &head, &[], whole),
    }
}

/// Writes an option with an extended error: its code, and its text (RFC 8914, 2).
///
/// Returns 12 if the text isn't UTF-8; else 20 and 8 as `dnsnames_append_option` does. Nothing is then changed.
#[unsafe(no_mangle)]
pub extern "C" fn dnsnames_append_extended_error(
    options: &mut [u8],
    options_len: &mut usize,
    info_code: u16,
    text: &[u8],
) -> u32
    ensures { AddsError info_code text.now result options.old options_len.old options.new
        options_len.new }
{
    let error = ExtendedError { info_code, text };
    if error.utf8_text().is_err() {
        return 12;
    }
    let head = info_code.to_be_bytes();
    add_parts(options, options_len, EXTENDED_ERROR, &[], &head, text)
}

/// Reads the data of an option as cookies (RFC 7873, 4). The first 8 octets are the client's, and the `server_len`
/// after them the server's: none, or 8 to 32.
///
/// Returns 1 if there are fewer than 8 octets, and 28 if there are 9 to 15 or more than 40: nothing is changed.
#[unsafe(no_mangle)]
pub extern "C" fn dnsnames_cookie(option: &[u8], server_len: &mut usize) -> u32
    ensures { ReadsCookies option.now result server_len.old server_len.new }
{
    let (code, data) = (COOKIE, option);
    match Cookie::from_option(EdnsOption { code, data }) {
        Ok(_) => {
            *server_len = option.len() - 8;
            0
        }
        Err(e) => number_of_refusal(e),
    }
}

/// Reads the data of an option as the subnet of a client (RFC 7871, 6): the family of its address, how many bits of
/// it are encoded, and for how many an answer is meant. The octets after the first four are the address.
///
/// Returns 1 where there are fewer than four octets. Else it returns 28 where the family isn't 0, 1 or 2, or where its
/// addresses have fewer bits than are encoded. Else it returns 1 where the address has fewer octets than the bits
/// take, and 28 where it has more, or where a bit after them isn't zero. Nothing is then changed.
#[unsafe(no_mangle)]
pub extern "C" fn dnsnames_client_subnet(
    option: &[u8],
    family: &mut u16,
    source_prefix_len: &mut u8,
    scope_prefix_len: &mut u8,
) -> u32
    ensures given { ReadsSubnet option.now result family.new source_prefix_len.new scope_prefix_len.new }
    ensures family { result ≢ 0 → family.new ≡ family.old }
    ensures source { result ≢ 0 → source_prefix_len.new ≡ source_prefix_len.old }
    ensures scope { result ≢ 0 → scope_prefix_len.new ≡ scope_prefix_len.old }
{
    let (code, data) = (CLIENT_SUBNET, option);
    match ClientSubnet::from_option(EdnsOption { code, data }) {
        Ok(Some(subnet)) => {
            *family = subnet.family;
            *source_prefix_len = subnet.source_prefix_len;
            *scope_prefix_len = subnet.scope_prefix_len;
            0
        }
        Ok(None) => unreachable!(),
        Err(e) => number_of_refusal(e),
    }
}

/// Reads the data of an option as an extended error: its code (RFC 8914, 2). The octets after the first two are its
/// text, which is UTF-8 by its sender's word alone.
///
/// Returns 1 if there are fewer than two octets: nothing is changed.
#[unsafe(no_mangle)]
pub extern "C" fn dnsnames_extended_error(option: &[u8], info_code: &mut u16) -> u32
    ensures { ReadsError option.now result info_code.old info_code.new }
{
    let (code, data) = (EXTENDED_ERROR, option);
    match ExtendedError::from_option(EdnsOption { code, data }) {
        Ok(Some(error)) => {
            *info_code = error.info_code;
            0
        }
        Ok(None) => unreachable!(),
        Err(e) => number_of_refusal(e),
    }
}
