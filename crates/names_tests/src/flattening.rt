//! Names and data of the tests' own made flat.
ghost use Rattle.std.specs.Prelude.{◌≡◌, IfOk};
ghost use Rattle.domain_name.specs.Names.{name_labels};

use crate::lists::Numbered;
use crate::names::{SCATTERED, WWW, absolute, parsed};
use arrayvec::ArrayVec;
use domain_name::Name;
use domain_traits::{FlattenInto, FlattenName};
use octseq::ShortBuf;
use std::alloc::Global;
use std::test::Fail;

/// What has a name in it: the name is made flat, and the number stays.
impl<N: FlattenInto<Target>, Target> FlattenInto<Numbered<Target>> for Numbered<N> {
    ghost same = { λ numbered made.
        (made.number ≡ numbered.number) × N.same numbered.name made.name };

    ghost may_refuse = { λ numbered. N.may_refuse numbered.name };

    fn try_flatten_into(self, alloc: Global) -> Result<Numbered<Target>, ShortBuf> {
        let Numbered { name, number } = self;
        let name = name.try_flatten_into(alloc)?;
        Ok(Numbered { name, number })
    }

    fn flatten_into(self, alloc: Global) -> Result<Numbered<Target>, ShortBuf> {
        self.try_flatten_into(alloc)
    }
}

/// The data with its name owned, where a name of any kind is known to keep its labels.
fn own_numbered<N: FlattenName<Name<Vec<u8>>>>(
    numbered: Numbered<N>,
    alloc: Global,
) -> Result<Numbered<Name<Vec<u8>>>, ShortBuf>
    ensures number { IfOk result (λ made. made.number ≡ numbered.number) }
    ensures name { IfOk result (λ made. name_labels made.name ≡ N.labels numbered.name) }
{
    numbered.flatten_into(alloc)
}

/// A name of any kind owned.
fn own<N: FlattenName<Name<Vec<u8>>>>(name: N, alloc: Global) -> Result<Name<Vec<u8>>, ShortBuf>
    ensures { IfOk result (λ made. name_labels made ≡ N.labels name) }
{
    name.flatten_into(alloc)
}

#[test]
fn what_has_a_name_is_flattened(rt: HostRuntime) -> Result<(), Fail> {
    let alloc = rt.alloc();
    let made = own_numbered(
        Numbered {
            name: absolute(&rt, WWW),
            number: 10,
        },
        alloc,
    )?;
    assert!(rt; made.number == 10);
    assert!(rt; made.name.as_slice() == WWW);
    let made = own_numbered(
        Numbered {
            name: parsed(&rt, SCATTERED, 15),
            number: 20,
        },
        alloc,
    )?;
    assert!(rt; made.number == 20);
    assert!(rt; made.name.as_slice() == WWW);
    Ok(())
}

#[test]
fn what_has_a_name_is_refused_where_its_name_is(rt: HostRuntime) -> Result<(), Fail> {
    let alloc = rt.alloc();
    let numbered = Numbered {
        name: parsed(&rt, SCATTERED, 15),
        number: 10,
    };
    let none: Result<Numbered<Name<ArrayVec<u8, 16>>>, ShortBuf> = numbered.flatten_into(alloc);
    assert!(rt; none.is_err());
    let made: Numbered<Name<ArrayVec<u8, 17>>> = numbered.flatten_into(alloc)?;
    assert!(rt; made.name.as_slice() == WWW);
    Ok(())
}

#[test]
fn names_are_owned(rt: HostRuntime) -> Result<(), Fail> {
    let alloc = rt.alloc();
    let flat = own(absolute(&rt, WWW), alloc)?;
    let scattered = own(parsed(&rt, SCATTERED, 15), alloc)?;
    assert!(rt; flat == scattered);
    assert!(rt; scattered.as_slice() == WWW);
    Ok(())
}
