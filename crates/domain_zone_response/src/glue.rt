//! The additional section of a referral.
ghost use Rattle.std.specs.Prelude.{◌≡◌, ◌↔◌, IsTrue, IfOk, OnOk};
ghost use Rattle.domain_name.specs.Names.{name_labels};
ghost use Rattle.domain_zone.specs.Outcomes.{outcome_of};
ghost use Rattle.domain_zone_response.specs.Included.{cut_of, IsRequired};
ghost use Rattle.domain_zone_response.specs.Views.{TakesPart, IsGlue};
ghost use Rattle.domain_zone_signed.specs.SignedViews.{response_view, response_views};
ghost use Rattle.domain_zone_signed.specs.SignedViews.{signed_last, signed_sections};

use domain_name::Name;
use domain_zone::Answer;
use domain_zone_signed::{ResponseRrset, SignedResponse};
use std::alloc::{AllocError, Global};

/// The RRsets of the additional section: those that a referral can't do without before the others.
#[derive(Drop)]
pub(crate) struct Glue<'a> {
    /// The RRsets.
    pub(crate) sets: Vec<ResponseRrset<'a>>,
    /// How many of them are addresses of name servers at or below the cut: in-domain name servers, whose glue is
    /// required (RFC 9471, 3.1).
    pub(crate) required: usize,
}

/// Returns the owner of the name servers of a referral, and else the root.
fn cut_name<'a>(outcome: &Answer<'a>) -> Name<&'a [u8]>
    ensures { name_labels result ≡ cut_of (outcome_of outcome.now) }
{
    match outcome {
        Answer::OutOfZone => Name::root_ref(),
        Answer::Referral(servers) => servers.owner.for_slice(),
        Answer::Found(_) => Name::root_ref(),
        Answer::Redirect(_, _) => Name::root_ref(),
        Answer::TooLong(_) => Name::root_ref(),
        Answer::Synthesized(_) => Name::root_ref(),
        Answer::NameError => Name::root_ref(),
    }
}

/// Whether an RRset of the additional section is required.
fn is_required(set: &ResponseRrset<'_>, cut: &Name<&[u8]>) -> bool
    ensures { IsTrue result ↔ IsRequired (name_labels cut.now) (response_view set.now) }
{
    set.rtype() != 46 && set.owner().ends_with(cut)
}

/// Pushes an RRset to those that are required, or to the others.
fn push_part<'a>(
    set: ResponseRrset<'a>,
    cut: &Name<&[u8]>,
    sets: &mut Vec<ResponseRrset<'a>>,
    others: &mut Vec<ResponseRrset<'a>>,
) -> Result<(), AllocError>
    ensures { OnOk result (TakesPart (name_labels cut.now) (response_view set.entry)
        (response_views sets.old.items) (response_views others.old.items)
        (response_views sets.new.items) (response_views others.new.items)) }
{
    if is_required(&set, cut) {
        sets.push(set)?;
        return Ok(());
    }
    others.push(set)?;
    Ok(())
}

/// Returns the RRsets of the additional section in the order in which they are pushed (RFC 9471, 3.2).
pub(crate) fn glue_of<'a>(
    alloc: Global,
    response: &SignedResponse<'a>,
) -> Result<Glue<'a>, AllocError>
    ensures { IfOk result (IsGlue (cut_of (signed_last response.now))
        (signed_sections response.now).additional) }
{
    let mut sets = Vec::new(alloc);
    let mut others = Vec::new(alloc);
    let cut = cut_name(response.outcome());
    for set in response.additional() {
        push_part(*set, &cut, &mut sets, &mut others)?;
    }
    let required = sets.as_slice().len();
    sets.extend_from_slice(others.as_slice())?;
    Ok(Glue { sets, required })
}
