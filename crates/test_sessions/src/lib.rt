//! Lock books, claims, replays and sessions of the queue on one thread, at their limits, and where
//! memory is refused.
#![tactic(auto)]

#[cfg(test)]
mod books;
#[cfg(test)]
mod claims;
#[cfg(test)]
mod ends;
#[cfg(test)]
mod faults;
#[cfg(test)]
mod limits;
#[cfg(test)]
mod refusals;
#[cfg(test)]
mod replays;
#[cfg(test)]
mod sessions;
