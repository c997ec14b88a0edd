//! Tests of single crates, by their public calls: what no contract says, as how often a descriptor is decoded. They are proved here, over
//! what their crates proved once; in a crate of its own each would be proved with all of it once more.
#![tactic(auto)]

#[cfg(test)]
mod disk_calls_out;
#[cfg(test)]
mod packed_rings;
#[cfg(test)]
mod ram;
#[cfg(test)]
mod sets;
#[cfg(test)]
mod split_rings;
