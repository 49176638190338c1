//! What is asked of records, where the program can't show it: calls that only the library has, long
//! lists, devices that break, and refused memory.
#![tactic(auto)]

#[cfg(test)]
mod conditions;
#[cfg(test)]
mod devices;
#[cfg(test)]
mod executions;
#[cfg(test)]
mod faults;
#[cfg(test)]
mod long_records;
#[cfg(test)]
mod refusals;
#[cfg(test)]
mod selections;
