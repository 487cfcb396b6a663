//! Data of a record with a name in it, which is flattened with its name.
ghost use Rattle.std.specs.Prelude.{◌≡◌, IfOk};
ghost use Rattle.domain_name.specs.Names.{name_labels};
ghost use Rattle.domain_parsed.specs.ParsedNames.{parsed_labels};

use domain_name::Name;
use domain_parsed::ParsedName;
use domain_traits::{FlattenInto, FlattenName};
use octseq::ShortBuf;
use std::alloc::Global;

/// A host for the mail of a domain, and how it is preferred to others (RFC 1035, 3.3.9).
#[derive(Drop)]
pub struct Exchange<N> {
    pub preference: u16,
    pub exchange: N,
}

/// The number stays, and the name is flattened.
impl<N: FlattenInto<Target>, Target> FlattenInto<Exchange<Target>> for Exchange<N> {
    ghost same = { λ mail made.
        (made.preference ≡ mail.preference) × N.same mail.exchange made.exchange };

    ghost may_refuse = { λ mail. N.may_refuse mail.exchange };

    fn try_flatten_into(self, alloc: Global) -> Result<Exchange<Target>, ShortBuf> {
        let Exchange {
            preference,
            exchange,
        } = self;
        let exchange = exchange.try_flatten_into(alloc)?;
        Ok(Exchange {
            preference,
            exchange,
        })
    }

    fn flatten_into(self, alloc: Global) -> Result<Exchange<Target>, ShortBuf> {
        self.try_flatten_into(alloc)
    }
}

/// The data of a record, once its message is let go.
pub fn own_exchange(
    mail: Exchange<ParsedName<&[u8]>>,
    alloc: Global,
) -> Result<Exchange<Name<Vec<u8>>>, ShortBuf>
    ensures number { IfOk result (λ made. made.preference ≡ mail.entry.preference) }
    ensures name { IfOk result (λ it. name_labels it.exchange ≡ parsed_labels mail.entry.exchange) }
{
    mail.flatten_into(alloc)
}

/// The same over names of any kind.
pub fn own_any_exchange<N: FlattenName<Name<Vec<u8>>>>(
    mail: Exchange<N>,
    alloc: Global,
) -> Result<Exchange<Name<Vec<u8>>>, ShortBuf>
    ensures number { IfOk result (λ made. made.preference ≡ mail.preference) }
    ensures name { IfOk result (λ made. name_labels made.exchange ≡ N.labels mail.exchange) }
{
    mail.flatten_into(alloc)
}
