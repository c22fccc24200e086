//! Worked examples on whole runs, with faults of the desk and the sink.
#![tactic(auto)]

#[cfg(test)]
mod arguments;
#[cfg(test)]
mod ends;
#[cfg(test)]
mod runs;
#[cfg(test)]
mod same;
