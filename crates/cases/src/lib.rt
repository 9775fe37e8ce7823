//! Examples and limits, run: the sample matrix, the smallest and the largest patterns, each refusal at the last value
//! that is taken and the first that is declined, and a pattern written by a stranger.
#![tactic(auto)]

#[cfg(test)]
mod bring;
#[cfg(test)]
mod columns;
#[cfg(test)]
mod combined;
pub mod diagonal;
#[cfg(test)]
mod grids;
#[cfg(test)]
mod lists;
#[cfg(test)]
mod prices;
#[cfg(test)]
mod reasons;
