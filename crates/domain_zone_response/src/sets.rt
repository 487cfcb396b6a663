//! RRsets of a section, each whole.
ghost use Rattle.std.specs.Prelude.{◌≡◌, ◌≤◌, ◌<◌, length, take, IsTrue, IsFalse};
ghost use Rattle.domain_header.specs.Values.{class_number};
ghost use Rattle.domain_message_builder.specs.Builders.{target_room};
ghost use Rattle.domain_zone_response.specs.Pushing.{records_of, all_records};
ghost use Rattle.domain_zone_response.specs.Views.{GainsSome, GainsRecords, FillsRecords};
ghost use Rattle.domain_zone_response.specs.Views.{RrsetDoesNotFit, StopsAfter};
ghost use Rattle.domain_zone_signed.specs.SignedViews.{response_views, response_view};

use crate::rrset::{push_cname, push_rrset, push_signatures};
use domain_header::Class;
use domain_message::Section;
use domain_message_builder::MessageBuilder;
use domain_rdata::Composer;
use domain_zone_signed::{AnswerRrset, ResponseRrset};

/// Pushes the records of an RRset, up to the first that is refused. Returns whether all were pushed.
fn push_set<Target: Composer>(
    message: &mut MessageBuilder<Target>,
    section: Section,
    class: Class,
    set: ResponseRrset<'_>,
) -> bool
    ensures pushed { IsTrue result → GainsRecords section
        (records_of (class_number class) (response_view set.entry)) message.old message.new }
    ensures some { GainsSome section message.old message.new }
    ensures why { IsFalse result → RrsetDoesNotFit section (class_number class)
        (response_view set.entry) message.old }
    ensures capacity { target_room message.old ≤ target_room message.new }
{
    match set {
        ResponseRrset::Rrset(AnswerRrset::Zones(set)) => push_rrset(message, section, class, set),
        ResponseRrset::Rrset(AnswerRrset::Made(cname)) => {
            push_cname(message, section, class, cname)
        }
        ResponseRrset::Signatures(signatures) => {
            push_signatures(message, section, class, signatures)
        }
    }
}

/// Pushes RRsets into a section up to the first that is refused. Returns how many were pushed whole.
fn push_all<Target: Composer>(
    message: &mut MessageBuilder<Target>,
    section: Section,
    class: Class,
    sets: &[ResponseRrset<'_>],
) -> usize
    ensures few { result ≤ length sets.now }
    ensures whole { result ≡ length sets.now → GainsRecords section
        (all_records (class_number class) (response_views sets.now)) message.old message.new }
    ensures some { GainsSome section message.old message.new }
    ensures stops { result < length sets.now → StopsAfter section (class_number class)
        (response_views sets.now) result message.old }
    ensures capacity { target_room message.old ≤ target_room message.new }
{
    for (index, set) in sets.iter().enumerate() {
        let pushed = push_set(message, section, class, *set);
        if !pushed {
            return index;
        }
    }
    sets.len()
}

/// Pushes as many RRsets as fit, the first of a section, each whole. Returns how many.
///
/// Where one doesn't fit, the section is taken away, and those before it are pushed again.
pub(crate) fn push_most<Target: Composer>(
    message: &mut MessageBuilder<Target>,
    section: Section,
    class: Class,
    sets: &[ResponseRrset<'_>],
) -> usize
    ensures few { result ≤ length sets.now }
    ensures fills { FillsRecords section
        (all_records (class_number class) (take result (response_views sets.now)))
        message.old message.new }
    ensures stops { result < length sets.now → StopsAfter section (class_number class)
        (response_views sets.now) result message.old }
    ensures capacity { target_room message.old ≤ target_room message.new }
{
    let mut count = sets.len();
    'fewer: loop {
        let whole = push_all(message, section, class, &sets[..count]);
        if whole == count {
            return count;
        }
        message.rewind(section);
        count = whole;
    }
}
