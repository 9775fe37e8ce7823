//! The pattern of a grid of points: each point's row has the point itself and its neighbours, and no column is stored.
#![tactic(auto)]

mod grid;

pub use grid::Grid;
