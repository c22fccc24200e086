//! Worked examples on points, tests of edges against triangles, motions, and a grid of cells.
#![tactic(auto)]

#[cfg(test)]
mod boxes;
#[cfg(test)]
mod cells;
#[cfg(test)]
mod intersections;
#[cfg(test)]
mod motions;
#[cfg(test)]
mod places;
#[cfg(test)]
mod points;
#[cfg(test)]
mod same;
