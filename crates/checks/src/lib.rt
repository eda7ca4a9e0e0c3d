//! Tests of what no clause says: what files, writers, readers and random bytes of the system do, and that long tables and many texts are quick.
#![tactic(auto)]

#[cfg(test)]
mod files;
#[cfg(test)]
mod hosts;
#[cfg(test)]
mod seeds;
#[cfg(test)]
mod tables;
#[cfg(test)]
mod texts;
