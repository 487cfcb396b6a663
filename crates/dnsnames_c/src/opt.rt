//! OPT records (RFC 6891, 6.1).
ghost use Rattle.std.specs.Prelude.{◌≡◌, ◌≢◌};
ghost use Rattle.domain_message.specs.OptRecords.{taken_size, edns_version, dnssec_ok_bit};
ghost use Rattle.dnsnames_c.specs.Answers.{Sets};
ghost use Rattle.dnsnames_c.specs.Opts.{TellsOptType, extended_code, edns_flags, GivesDataOption};

use domain_message::EdnsOption;

/// Gives what an OPT record states by its class and its TTL (RFC 6891, 6.1.2 and 6.1.3). The first is how many octets
/// its sender takes in a message over UDP, or 512 where it states fewer (6.2.3). The second is the response code of
/// twelve bits, of which the flags of the message's header have the lower four. The others are the version of EDNS,
/// the sixteen flags of EDNS, and DO among these (RFC 3225). Returns 21 if the type isn't OPT: nothing is changed.
#[unsafe(no_mangle)]
pub extern "C" fn dnsnames_opt(
    rtype: u16,
    class: u16,
    ttl: u32,
    flags: u16,
    size: &mut u16,
    rcode: &mut u16,
    version: &mut u8,
    bits: &mut u16,
    dnssec_ok: &mut u32,
) -> u32
    ensures status { TellsOptType rtype result }
    ensures size { Sets result (taken_size class) size.old size.new }
    ensures rcode { Sets result (extended_code ttl flags) rcode.old rcode.new }
    ensures version { Sets result (edns_version ttl) version.old version.new }
    ensures bits { Sets result (edns_flags ttl) bits.old bits.new }
    ensures dnssec_ok { Sets result (dnssec_ok_bit ttl) dnssec_ok.old dnssec_ok.new }
{
    if rtype != 41 {
        return 21;
    }
    *size = if class < 512 { 512 } else { class };
    *rcode = (ttl / 0x100_0000) as u16 * 16 + flags % 16;
    *version = (ttl / 0x1_0000 % 0x100) as u8;
    *bits = (ttl % 0x1_0000) as u16;
    *dnssec_ok = ttl / 0x8000 % 2;
    0
}

/// The next option in the data of an OPT record, which are the `data_len` octets of the message from `data_at` on (RFC
/// 6891, 6.1.2). `passed` is how many octets of the data were passed: 0 for the first option, and then as the call
/// leaves it. `code` becomes its code, `option` the offset of its data in the message, `option_len` how many octets
/// these have.
///
/// 27 where all options were passed; 21 where the type isn't OPT; 1 where the data end past the message or in the
/// option: nothing is changed.
#[unsafe(no_mangle)]
pub extern "C" fn dnsnames_data_option(
    message: &[u8],
    data_at: usize,
    data_len: usize,
    rtype: u16,
    passed: &mut usize,
    code: &mut u16,
    option: &mut usize,
    option_len: &mut usize,
) -> u32
    ensures given { GivesDataOption message.now data_at data_len rtype result passed.old passed.new
        code.new option.new option_len.new }
    ensures code { result ≢ 0 → code.new ≡ code.old }
    ensures option { result ≢ 0 → option.new ≡ option.old }
    ensures option_len { result ≢ 0 → option_len.new ≡ option_len.old }
{
    if rtype != 41 {
        return 21;
    }
    if data_at > message.len() || message.len() - data_at < data_len {
        return 1;
    }
    if *passed >= data_len {
        return 27;
    }
    let octets = &message[..data_at + data_len];
    let Some((found, _)) = EdnsOption::split_from(&octets[data_at + *passed..]) else {
        return 1;
    };
    *code = found.code;
    *option = data_at + *passed + 4;
    *option_len = found.data.len();
    *passed = *passed + 4 + found.data.len();
    0
}
