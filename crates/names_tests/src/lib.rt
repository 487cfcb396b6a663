//! Tests of names of what neither a contract nor a table of calls shows: calls over types of one's own, buffers that
//! are full, and memory that is refused.
#![tactic(auto)]

#[cfg(test)]
mod building;
#[cfg(test)]
mod calls;
#[cfg(test)]
mod counted_names;
#[cfg(test)]
mod flattening;
#[cfg(test)]
mod generic;
#[cfg(test)]
mod instants;
#[cfg(test)]
mod kinds;
#[cfg(test)]
mod lists;
#[cfg(test)]
mod memory;
#[cfg(test)]
mod names;
#[cfg(test)]
mod refused;
#[cfg(test)]
mod values;
