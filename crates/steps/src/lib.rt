// What an entry of a tape does: the gate it draws, that gate's options, and the values it turns.
#![tactic(auto)]

mod drawn;
mod greedy;
mod left;
mod memory;
mod options;
pub mod step;

pub use drawn::Drawn;
pub use memory::{Coded, Trial};

// An unjustified gate has at most so many options.
const MOST_OPTIONS: usize = 8;

// The gate that an entry drew, and how many values it turned: 0 where it is stuck. (No Option: a count of 0 is what stuck means, and what the calls promise.)
#[derive(Clone, Copy, Debug, PartialEq, Eq)]
pub struct MoveReport {
    pub gate: usize,
    pub turned: u32,
}
