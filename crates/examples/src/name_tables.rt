//! A table of names that strangers choose.
ghost use Rattle.std.specs.HashMap.{IsEmpty, IsUnchanged};
ghost use Rattle.std.specs.Prelude.{IfOk, OnErr};

use domain_name::Name;
use std::alloc::{AllocError, Global};
use std::collections::HashMap;
use std::hash::RandomState;
use std::io;
use std::random::RandomSource;

/// How often each name was asked for. The hasher's key is random, so nobody can choose names that collide.
pub type Asked<'a> = HashMap<Name<&'a [u8]>, u64, RandomState>;

/// A table in which no name was asked for.
pub fn new_table<'a>(alloc: Global, rt: &impl RandomSource) -> io::Result<Asked<'a>>
    ensures { IfOk result IsEmpty }
{
    let hasher = RandomState::new(rt)?;
    Ok(HashMap::with_hasher(alloc, hasher))
}

/// Counts one more question for a name. Names that differ in case alone are one key.
pub fn count_question<'a>(asked: &mut Asked<'a>, name: Name<&'a [u8]>) -> Result<(), AllocError>
    ensures { OnErr result (IsUnchanged asked.old asked.new) }
{
    let count = asked.get(&name).copied().unwrap_or(0);
    asked.insert(name, count.saturating_add(1))?;
    Ok(())
}
