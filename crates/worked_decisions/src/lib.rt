//! Searches of small trees, which books fit what was frozen of one, and collections through their
//! handles, beside what was worked out by hand; readers and writers that fail, and what stands for
//! no image and for want of memory. It is a crate of tests alone, so that none of the crates below
//! is proved again with its tests, and searches and books meet in it. What the built program shows
//! as well is tested on that (`tests/program`).
#![tactic(auto)]

#[cfg(test)]
mod counted;
#[cfg(test)]
mod equal;
#[cfg(test)]
mod finding;
#[cfg(test)]
mod fitting;
#[cfg(test)]
mod gate;
#[cfg(test)]
mod handles;
#[cfg(test)]
mod late;
#[cfg(test)]
mod playing;
#[cfg(test)]
mod searches;
#[cfg(test)]
mod small_trees;
#[cfg(test)]
mod steps;
#[cfg(test)]
mod transfers;
#[cfg(test)]
mod values;
#[cfg(test)]
mod workers;
