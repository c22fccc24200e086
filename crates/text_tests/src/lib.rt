//! Worked examples on the texts that are read and written, and on desks and sinks.
#![tactic(auto)]

#[cfg(test)]
mod cubes;
#[cfg(test)]
mod desks;
#[cfg(test)]
mod formats;
#[cfg(test)]
mod lines;
#[cfg(test)]
mod logs;
#[cfg(test)]
mod same;
#[cfg(test)]
mod steps;
