//! From values to records: lanes, ids and tables, streams, and texts of records.
#![tactic(auto)]

#[cfg(test)]
mod devices;
#[cfg(test)]
mod ids;
#[cfg(test)]
mod lanes;
#[cfg(test)]
mod loading;
#[cfg(test)]
mod pairs;
#[cfg(test)]
mod refusals;
#[cfg(test)]
mod shown;
#[cfg(test)]
mod std_devices;
#[cfg(test)]
mod tables;
#[cfg(test)]
mod texts;
