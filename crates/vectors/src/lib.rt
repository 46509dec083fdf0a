//! Worked examples of the public calls of the crates below the driver, as tests. They stand together here, since a crate
//! is proved a second time for the tests of its own.
#![tactic(auto)]

#[cfg(test)]
mod base_roles;
#[cfg(test)]
mod clustering;
#[cfg(test)]
mod commits;
#[cfg(test)]
mod components;
#[cfg(test)]
mod digits;
#[cfg(test)]
mod drawn_bits;
#[cfg(test)]
mod edge_files;
#[cfg(test)]
mod hashes;
#[cfg(test)]
mod least_labels;
#[cfg(test)]
mod lines;
#[cfg(test)]
mod merging;
#[cfg(test)]
mod names;
#[cfg(test)]
mod radii;
#[cfg(test)]
mod ranks;
#[cfg(test)]
mod settings;
#[cfg(test)]
mod silent_dir;
#[cfg(test)]
mod spilling;
#[cfg(test)]
mod splitting;
#[cfg(test)]
mod streams;
#[cfg(test)]
mod texts;
#[cfg(test)]
mod weights;
