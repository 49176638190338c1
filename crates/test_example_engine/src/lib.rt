//! Tests of the example engines, and of engines with a defect, as an author writes them.
#![tactic(auto)]

#[cfg(test)]
mod by_hand;
#[cfg(test)]
mod case_tests;
#[cfg(test)]
mod desk;
#[cfg(test)]
mod evens;
#[cfg(test)]
mod halves;
#[cfg(test)]
mod records;
