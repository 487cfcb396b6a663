//! Names that are put together, label by label.
ghost use Rattle.std.specs.Prelude.{◌≡◌, ◌++◌, ◌+◌, ◌≤◌, length, IfOk, IsOk};
ghost use Rattle.domain_builder.specs.BuilderState.{empty_state, labelled, size};
ghost use Rattle.domain_label.specs.Wire.{wire};
ghost use Rattle.domain_name.specs.Names.{name_labels};
ghost use Rattle.examples.specs.FlatNames.{one_label};

use arrayvec::ArrayVec;
use domain_builder::FromStrError;
use domain_list::AbsoluteLabels;
use domain_name::{Name, NameBuilder};

/// The name of a host in a zone: a label, if it has octets, and after it the labels of the zone.
///
/// The error says that the label has more than 63 octets, or the name more than 255.
pub fn host_name<'a, N: AbsoluteLabels<'a>>(
    label: &[u8],
    zone: &'a N,
) -> Result<Name<ArrayVec<u8, 255>>, FromStrError>
    ensures ok { IfOk result (λ name. name_labels name ≡ one_label label.now ++ N.labels zone.now) }
    ensures made { length label.now ≤ 63 →
        size (labelled empty_state label.now) + length (wire (N.labels zone.now)) ≤ 255 →
        IsOk result }
{
    let mut builder = NameBuilder::<ArrayVec<u8, 255>>::default();
    builder.append_label(label)?;
    Ok(builder.append_origin(zone)?)
}
