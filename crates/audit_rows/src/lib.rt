//! What is found of worked texts, and of the texts of worked runs.
#![tactic(auto)]

#[cfg(test)]
mod audits;
#[cfg(test)]
mod runs;
#[cfg(test)]
mod texts;
#[cfg(test)]
mod worked;
