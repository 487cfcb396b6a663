//! Where a question is referred to.
ghost use Rattle.std.specs.Prelude.{◌≡◌, ◌≤◌, MatchOption, ℕ, List, length};
ghost use Rattle.domain_name.specs.Names.{name_labels};
ghost use Rattle.domain_zone.specs.Records.{records_view, set_view};
ghost use Rattle.domain_zone_laws.specs.Answers.{IsReferred};
ghost use Rattle.domain_zone_laws.specs.Sorted.{IsSorted, IsPlace};
ghost use Rattle.domain_zone_laws.specs.Zone.{RRset, IsZone, IsAt, HasNoCut, IsFirstCut, NS};

use crate::lookup::encloser::is_beside;
use crate::names::Owner;
use domain_list::comparing::eq_names;
use domain_list::laws::order_laws;
use domain_name::{Name, SuffixIter};
use domain_zone_laws::find::find_at;
use domain_zone_laws::zone::{Rrset, ZoneRecords};

/// The name servers of the first cut on the way to a name.
///
/// It looks for name servers at those names alone that exist.
fn first_cut<'a>(
    records: &'a ZoneRecords<Owner>,
    place: usize,
    name: &'a Name<&'a [u8]>,
) -> Option<&'a Rrset<Owner>>
    requires zone { IsZone (records_view records.now) }
    requires sorted { IsSorted (records_view records.now) }
    requires within { place ≤ length (records_view records.now).rrsets }
    requires place { IsPlace (records_view records.now) (name_labels name.now) 0 place }
    ensures { MatchOption result
        (HasNoCut (records_view records.now) (name_labels name.now))
        (λ s. IsFirstCut (records_view records.now) (name_labels name.now) (name_labels s.now.owner)
        × IsAt (records_view records.now) (name_labels s.now.owner) NS (set_view s.now)) }
{
    order_laws();
    let mut first = None;
    let mut suffixes = SuffixIter::new(*name);
    while let Some(suffix) = suffixes.next() {
        if eq_names(&suffix, &records.apex) {
            return first;
        }
        if !is_beside(records, place, &suffix) {
            continue;
        }
        let Some(set) = find_at(records, &suffix, 2) else {
            continue;
        };
        first = Some(set);
    }
    first
}

/// The name servers that a question is referred to.
pub(crate) fn referral<'a>(
    records: &'a ZoneRecords<Owner>,
    place: usize,
    name: &'a Name<&'a [u8]>,
    rtype: u16,
) -> Option<&'a Rrset<Owner>>
    requires zone { IsZone (records_view records.now) }
    requires sorted { IsSorted (records_view records.now) }
    requires within { place ≤ length (records_view records.now).rrsets }
    requires place { IsPlace (records_view records.now) (name_labels name.now) 0 place }
    ensures { MatchOption result
        ((s : RRset) → IsReferred (records_view records.now) (name_labels name.now) rtype s → ⊥)
        (λ s. IsReferred (records_view records.now) (name_labels name.now) rtype
        (set_view s.now)) }
{
    let cut = first_cut(records, place, name)?;
    if rtype == 43 && eq_names(name, &cut.owner) {
        return None;
    }
    Some(cut)
}
