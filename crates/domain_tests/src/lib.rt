//! Tests of the public paths of `domain`: each names what a caller looks for there.
#![tactic(auto)]

#[cfg(test)]
mod every_path;
#[cfg(test)]
mod paths;
