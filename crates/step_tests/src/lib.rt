//! Worked examples on how a step is taken, and on lists that are kept from step to step.
#![tactic(auto)]

#[cfg(test)]
mod choices;
#[cfg(test)]
mod impulses;
#[cfg(test)]
mod kept_lists;
#[cfg(test)]
mod meshes;
#[cfg(test)]
mod same;
