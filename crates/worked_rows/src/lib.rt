//! The worked rows: jobs, and the console, the steps and the status that a run of each must give.
#![tactic(auto)]

#[cfg(test)]
mod cancels;
#[cfg(test)]
mod compact;
#[cfg(test)]
mod demos;
#[cfg(test)]
mod dialect;
#[cfg(test)]
mod epochs;
#[cfg(test)]
mod faults;
#[cfg(test)]
mod gates;
#[cfg(test)]
mod heads;
#[cfg(test)]
mod hostile;
#[cfg(test)]
mod jogs;
#[cfg(test)]
mod limits;
#[cfg(test)]
mod offsets;
#[cfg(test)]
mod paced;
#[cfg(test)]
mod realtime;
#[cfg(test)]
mod reports;
#[cfg(test)]
mod resets;
#[cfg(test)]
mod rows;
#[cfg(test)]
mod runs;
#[cfg(test)]
mod smooth;
#[cfg(test)]
mod system;
