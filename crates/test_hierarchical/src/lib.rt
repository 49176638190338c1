//! Tests of the engine of a plan whose tests have bodies.
#![tactic(auto)]

#[cfg(test)]
mod alone;
#[cfg(test)]
mod bodies;
#[cfg(test)]
mod calls;
#[cfg(test)]
mod endings;
#[cfg(test)]
mod large_units;
#[cfg(test)]
mod limits;
#[cfg(test)]
mod planned;
#[cfg(test)]
mod refusals;
#[cfg(test)]
mod timed;
