//! Worked examples on logs that are replayed, and on what is measured.
#![tactic(auto)]

#[cfg(test)]
mod measures;
#[cfg(test)]
mod meshes;
#[cfg(test)]
mod replays;
#[cfg(test)]
mod same;
