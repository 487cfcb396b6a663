//! The questions of a chain of aliases.

use domain_name::Name;

/// The questions of a chain of aliases.
#[derive(Clone, Copy)]
pub struct Questions<'a> {
    /// The name of the first.
    pub name: &'a Name<&'a [u8]>,
    /// The type that each asks for.
    pub rtype: u16,
    /// The names about which the chain goes on to ask.
    pub names: &'a [Name<&'a [u8]>],
}
