//! What tests expect of records, and what a failure shows.
#![tactic(auto)]

#[cfg(test)]
mod expectations;
#[cfg(test)]
mod failed_runs;
