//! Calls whose answer no run of `nyq` shows, each by itself where memory is ample, on values from outside. This crate holds
//! tests alone.
#![tactic(auto)]

#[cfg(test)]
mod lists;
#[cfg(test)]
mod maps;
#[cfg(test)]
mod names;
#[cfg(test)]
mod numbers;
#[cfg(test)]
mod pools;
#[cfg(test)]
mod programs;
