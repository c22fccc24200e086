//! Worked examples on meshes, and on the boxes of faces that move.
#![tactic(auto)]

#[cfg(test)]
mod calls;
#[cfg(test)]
mod meshes;
#[cfg(test)]
mod near;
#[cfg(test)]
mod paths;
#[cfg(test)]
mod plain;
#[cfg(test)]
mod plays;
#[cfg(test)]
mod same;
