//! The sections of a response.
ghost use Rattle.std.specs.Prelude.{◌≤◌, IfOk, IsTrue, IsFalse};
ghost use Rattle.domain_header.specs.Values.{class_number};
ghost use Rattle.domain_message_builder.specs.Builders.{target_room};
ghost use Rattle.domain_zone_response.specs.Included.{cut_of};
ghost use Rattle.domain_zone_response.specs.Pushing.{all_records};
ghost use Rattle.domain_zone_response.specs.Views.{FillsRecords};
ghost use Rattle.domain_zone_response.specs.Views.{StopsPushing, PutsSections};
ghost use Rattle.domain_zone_signed.specs.SignedViews.{response_views, signed_last, signed_sections};

use crate::glue::glue_of;
use crate::sets::push_most;
use domain_header::Class;
use domain_message::Section;
use domain_message_builder::MessageBuilder;
use domain_rdata::Composer;
use domain_zone_signed::{ResponseRrset, SignedResponse};
use std::alloc::{AllocError, Global};

/// Pushes the RRsets of a section, of which each is required. Returns whether none was left out.
fn push_required<Target: Composer>(
    message: &mut MessageBuilder<Target>,
    section: Section,
    class: Class,
    sets: &[ResponseRrset<'_>],
) -> bool
    ensures pushed { IsTrue result → FillsRecords section
        (all_records (class_number class) (response_views sets.now)) message.old message.new }
    ensures stops { IsFalse result → StopsPushing section (class_number class)
        (response_views sets.now) message.old message.new }
    ensures capacity { target_room message.old ≤ target_room message.new }
{
    let count = push_most(message, section, class, sets);
    let all = sets.len();
    if count < all {
        return false;
    }
    true
}

/// Pushes the sections of a response, up to the first required RRset that doesn't fit. Returns whether none of these
/// was left out.
pub(crate) fn push_sections<Target: Composer>(
    alloc: Global,
    message: &mut MessageBuilder<Target>,
    class: Class,
    response: &SignedResponse<'_>,
) -> Result<bool, AllocError>
    ensures puts { IfOk result (λ whole. PutsSections (class_number class)
        (cut_of (signed_last response.now)) (signed_sections response.now) whole
        message.old message.new) }
    ensures capacity { target_room message.old ≤ target_room message.new }
{
    let glue = glue_of(alloc, response)?;
    if !push_required(message, Section::Answer, class, response.answers()) {
        return Ok(false);
    }
    if !push_required(message, Section::Authority, class, response.authority()) {
        return Ok(false);
    }
    let count = push_most(message, Section::Additional, class, glue.sets.as_slice());
    if count < glue.required {
        return Ok(false);
    }
    Ok(true)
}
