//! A slot for a zone.
ghost use Rattle.std.specs.Prelude.{◌≡◌};
ghost use Rattle.std.specs.Coded.{coded_option};
ghost use Rattle.std.specs.declared.option.Option.{Option};
ghost use Rattle.std.specs.declared.option.Option.TheVariants.{None, Some};
ghost use Rattle.domain_zone.specs.contracts.kept.Zone.{the_row};
ghost use Rattle.domain_zone.specs.declared.kept.Zone.{Zone as Held};
ghost use Rattle.dnsnames_zone_c.specs.Slots.{boxed_zone, loose_zone, slot_owns};

use crate::loose::Loose;
use domain_zone::Zone;
use std::alloc::Global;
use std::marker::Model;
use std::mem::replace;
use std::ptr::null_mut;

/// A zone on the heap, or none. It is for callers that aren't Rattle, which keep it in memory of theirs.
///
/// A slot of two zeros holds none. Whoever keeps it leaves it as the calls leave it, and moves it or copies it only to
/// forget the first.
#[repr(C)]
#[derive(Drop)]
pub(crate) struct ZoneSlot {
    at: *mut u8,
    full: usize,
    pub(crate) ghost held: { Option Held } by { coded_option the_row.coded },
}

/// Returns a null pointer.
fn nowhere() -> *mut u8 {
    null_mut()
}

impl Model for ZoneSlot {
    ghost also_owns = { λ s. slot_owns s.full s.at s.held };
}

impl ZoneSlot {
    /// Returns a slot that holds none.
    fn empty(at: *mut u8) -> ZoneSlot
        ensures { result.held ≡ None }
    {
        ZoneSlot { at, full: 0 }
    }

    /// Returns a slot that holds a zone.
    fn of(zone: Loose<Zone, Global>) -> ZoneSlot
        ensures { result.held ≡ Some zone.value }
    {
        let Loose { at, alloc: _ } = zone;
        ZoneSlot {
            at: at as *mut u8,
            full: 1,
        }
    }

    /// Returns the zone of a slot.
    fn into_loose(self, alloc: Global) -> Option<Loose<Zone, Global>>
        ensures { loose_zone result ≡ self.held }
    {
        let ZoneSlot { at, full } = self;
        if full == 0 {
            None
        } else {
            Some(Loose {
                at: at as *mut Zone,
                alloc,
            })
        }
    }

    /// Takes the zone out, if the slot holds one. It then holds none.
    pub(crate) fn take(&mut self, alloc: Global) -> Option<Box<Zone>>
        ensures taken { boxed_zone result ≡ self.old.held }
        ensures none { self.new.held ≡ None }
    {
        let old = replace(self, ZoneSlot::empty(nowhere()));
        match old.into_loose(alloc) {
            None => None,
            Some(zone) => Some(zone.into_box()),
        }
    }

    /// Puts a zone into the slot. One that it holds is forgotten, and its memory isn't freed: take it out first.
    pub(crate) fn put(&mut self, zone: Box<Zone>)
        ensures { self.new.held ≡ Some zone.value }
    {
        *self = ZoneSlot::of(Loose::of(zone));
    }
}
