//! Runs: threads that share a lock book, senders on threads of their own, engines run by workers, and
//! plans as the library reads them, what their runs record, and where their reports break.
#![tactic(auto)]

#[cfg(test)]
mod books;
#[cfg(test)]
mod engines;
#[cfg(test)]
mod exclusive_runs;
#[cfg(test)]
mod faults;
#[cfg(test)]
mod meetings;
#[cfg(test)]
mod plans;
#[cfg(test)]
mod refusals;
#[cfg(test)]
mod reports;
#[cfg(test)]
mod runs;
#[cfg(test)]
mod senders;
