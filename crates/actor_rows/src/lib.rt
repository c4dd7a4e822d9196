//! The worked rows of the host, of the recorder, and of the link between host and board.
#![tactic(auto)]

#[cfg(test)]
mod attended;
#[cfg(test)]
mod compact;
#[cfg(test)]
mod hosts;
#[cfg(test)]
mod links;
#[cfg(test)]
mod list_board;
#[cfg(test)]
mod recorders;
#[cfg(test)]
mod records;
