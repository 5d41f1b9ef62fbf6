//! What compiled tasks ask: C sources, and the calls that their tasks make at which lines, worked out by hand.
#![tactic(auto)]

#[cfg(test)]
mod answering;
#[cfg(test)]
mod blocks;
#[cfg(test)]
mod calls;
#[cfg(test)]
mod collectives;
#[cfg(test)]
mod directives;
#[cfg(test)]
mod expressions;
pub mod fitting;
#[cfg(test)]
mod library;
#[cfg(test)]
mod limits;
#[cfg(test)]
mod messages;
#[cfg(test)]
mod mpi_frame;
#[cfg(test)]
mod playing;
#[cfg(test)]
mod requests;
#[cfg(test)]
mod showing;
#[cfg(test)]
mod values;
#[cfg(test)]
mod worked;
