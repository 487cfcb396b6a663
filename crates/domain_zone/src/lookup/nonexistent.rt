//! What a zone answers for a name that doesn't exist.
ghost use Rattle.std.specs.Prelude.{◌≡◌, ◌≤◌, ℕ, List, length, map};
ghost use Rattle.domain_list.specs.Ends.{EndsWith};
ghost use Rattle.domain_name.specs.Names.{name_labels};
ghost use Rattle.domain_zone.specs.Outcomes.{outcome_of, IsRedirection};
ghost use Rattle.domain_zone.specs.Records.{records_view, set_view};
ghost use Rattle.domain_zone_laws.specs.Answers.{Answers, IsAuthoritative};
ghost use Rattle.domain_zone_laws.specs.Sorted.{IsSorted, IsPlace};
ghost use Rattle.domain_zone_laws.specs.Zone.{IsZone, Exists, IsOneName, target};

use crate::lookup::encloser::closest_encloser;
use crate::lookup::outcome::Answer;
use crate::names::Owner;
use domain_list::Chain;
use domain_name::{Name, RelativeName};
use domain_zone_laws::find::find_at;
use domain_zone_laws::reply::{exists, reply_at};
use domain_zone_laws::zone::{Rrset, ZoneRecords};

/// Where a CNAME or a DNAME leads.
fn target_of<'a>(alias: &'a Rrset<Owner>) -> Name<&'a [u8]>
    requires { IsOneName (map (λ d. d.items) alias.now.rdata.items) }
    ensures { name_labels result ≡ target (set_view alias.now) }
{
    let Ok(name) = Name::from_slice(&alias.rdata[0]) else {
        unreachable!();
    };
    name
}

/// What a DNAME above a name makes of it.
fn redirection<'a>(name: Name<&'a [u8]>, dname: &'a Rrset<Owner>) -> Answer<'a>
    requires below { EndsWith (name_labels name) (name_labels dname.now.owner) }
    requires target { IsOneName (map (λ d. d.items) dname.now.rdata.items) }
    ensures { IsRedirection (name_labels name.entry) (set_view dname.now) (outcome_of result) }
{
    let Ok(front) = name.strip_suffix(&dname.owner) else {
        unreachable!();
    };
    let target = target_of(dname);
    match Chain::new(front, target) {
        Ok(substitution) => Answer::Redirect(dname, substitution),
        Err(_) => Answer::TooLong(dname),
    }
}

/// What the zone answers for a name in it that doesn't exist.
pub(crate) fn lookup_nonexistent<'a>(
    records: &'a ZoneRecords<Owner>,
    place: usize,
    name: &'a Name<&'a [u8]>,
    rtype: u16,
) -> Answer<'a>
    requires zone { IsZone (records_view records.now) }
    requires sorted { IsSorted (records_view records.now) }
    requires within { place ≤ length (records_view records.now).rrsets }
    requires place { IsPlace (records_view records.now) (name_labels name.now) 0 place }
    requires ours { IsAuthoritative (records_view records.now) (name_labels name.now) rtype }
    requires missing { Exists (records_view records.now) (name_labels name.now) → ⊥ }
    ensures { Answers (records_view records.now) (name_labels name.now) rtype (outcome_of result) }
{
    let encloser = closest_encloser(records, place, *name);
    if let Some(dname) = find_at(records, &encloser, 39) {
        return redirection(*name, dname);
    }
    let Ok(source) = Chain::new(RelativeName::wildcard_ref(), encloser) else {
        return Answer::NameError;
    };
    if !exists(records, &source) {
        return Answer::NameError;
    }
    Answer::Synthesized(reply_at(records, &source, rtype))
}
