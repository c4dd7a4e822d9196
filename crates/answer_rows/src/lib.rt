//! The worked rows of what a board answers: words, settings and commands, verdicts on lines, what there is to do of each, and
//! the texts of replies.
#![tactic(auto)]

#[cfg(test)]
mod commands;
#[cfg(test)]
mod parsers;
#[cfg(test)]
mod replies;
#[cfg(test)]
mod tasks;
#[cfg(test)]
mod values;
#[cfg(test)]
mod verdicts;
#[cfg(test)]
mod words;
