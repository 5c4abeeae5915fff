// Tests of the call, and of the layers below it.
#![tactic(auto)]

#[cfg(test)]
mod actors;
#[cfg(test)]
mod acts;
#[cfg(test)]
mod bounds;
#[cfg(test)]
mod calls;
#[cfg(test)]
mod facts;
#[cfg(test)]
mod files;
#[cfg(test)]
mod lines;
#[cfg(test)]
mod memories;
#[cfg(test)]
mod options;
#[cfg(test)]
mod places;
#[cfg(test)]
mod printing;
#[cfg(test)]
mod questions;
#[cfg(test)]
mod random_facts;
#[cfg(test)]
mod recordings;
#[cfg(test)]
mod rows;
#[cfg(test)]
mod sources;
#[cfg(test)]
mod structs;
#[cfg(test)]
mod tokens;
#[cfg(test)]
mod topics;
#[cfg(test)]
mod trees;
