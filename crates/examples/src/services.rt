//! What a client needs of a service binding (RFC 9460).
ghost use Rattle.std.specs.Prelude.{IfOk};
ghost use Rattle.examples.specs.Services.{TellsPort};

use domain_svcb::{SvcParams, SvcParamsError};

/// The port that parameters tell, where they tell one (RFC 9460, 7.2).
pub fn port_of(octets: &[u8]) -> Result<Option<u16>, SvcParamsError>
    ensures { IfOk result (TellsPort octets.now) }
{
    let params = SvcParams::from_octets(octets)?;
    let Some([high, low]) = params.value(3) else {
        return Ok(None);
    };
    Ok(Some(u16::from(*high) * 256 + u16::from(*low)))
}
