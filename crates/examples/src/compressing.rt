//! Writing names into messages, shorter where they can be.
ghost use Rattle.std.specs.Prelude.{◌≡◌, IfOk, OnErr};
ghost use Rattle.examples.specs.MessageOctets.{StandsIn};

use arrayvec::ArrayVec;
use domain_compress::CompressComposer;
use domain_list::AbsoluteLabels;
use domain_name::Name;
use domain_rdata::{ComposeRdataError, ComposeRecordData, Composer};
use octseq::{Octets, ShortBuf};

/// Appends a name to a message, and tells where it is read.
pub fn append_at<'a, Target: Composer, N: AbsoluteLabels<'a>>(
    target: &mut Target,
    name: &'a N,
) -> Result<usize, Target::AppendError>
    ensures stands { IfOk result (StandsIn (Target.octets target.new) (N.labels name.now)) }
    ensures unchanged { OnErr result (Target.octets target.new ≡ Target.octets target.old) }
{
    let offset = target.as_slice().len();
    target.append_compressed_name(name)?;
    Ok(offset)
}

/// Appends the data of a record with its length in front, and then a name, and tells where that is read. Where
/// the name is refused, the data stays.
pub fn append_data_and_name<'a, Target: Composer, Data: ComposeRecordData, N: AbsoluteLabels<'a>>(
    target: &mut Target,
    data: &Data,
    name: &'a N,
) -> Result<usize, ComposeRdataError<Target::AppendError>>
    ensures stands { IfOk result (StandsIn (Target.octets target.new) (N.labels name.now)) }
{
    data.compose_len_rdata(target)?;
    match append_at(target, name) {
        Ok(offset) => Ok(offset),
        Err(e) => Err(ComposeRdataError::Append(e)),
    }
}

/// Both names in one message of at most 512 octets; the second one is written shorter where it ends as
/// the first one does.
pub fn two_owners(
    first: &Name<&[u8]>,
    second: &Name<&[u8]>,
) -> Result<ArrayVec<u8, 512>, ShortBuf> {
    let mut message = CompressComposer::new(ArrayVec::new());
    append_at(&mut message, first)?;
    append_at(&mut message, second)?;
    Ok(message.into_target())
}
