//! Worked examples on the five edits, and on passes of them.
#![tactic(auto)]

#[cfg(test)]
mod calls;
#[cfg(test)]
mod edits;
#[cfg(test)]
mod limits;
#[cfg(test)]
mod meshes;
#[cfg(test)]
mod passes;
