// Maps: Check, and the children of a gate.
#![tactic(auto)]

pub mod accepted;
pub mod decode;
mod tests;

ghost use Rattle.std.specs.Prelude.{◌≡◌, ◌+◌};
ghost use Rattle.map.specs.Check.{check_answer, check_effect};
ghost use Rattle.map.specs.Children.{children_answer, children_effect, stretch_place, stretch_length};

pub use accepted::{Gate, Map};
use circuit::Refusal;
pub use decode::word;
use std::ops::Range;
pub use tests::accept;

// A map has 1 to this many gates.
pub const MOST_GATES: usize = 1024;

#[derive(Clone, Copy, Debug, PartialEq, Eq)]
pub struct Counts {
    pub gates: usize,
    pub inputs: usize,
    pub children: usize,
    pub codes: usize,
}

// The counts of an accepted map, or the first test that fails.
#[tactic(auto, using(folds::proofs::Tests::bools, circuit::proofs::Refusals::number_some), unfolding(crate::specs::Check::check_answer, crate::specs::Check::check_effect))]
pub fn check(map: &[u8]) -> Result<Counts, Refusal>
    ensures { check_answer result ≡ check_effect map.now }
{
    let accepted = accept(map)?;
    Ok(Counts {
        gates: accepted.gates,
        inputs: accepted.inputs(),
        children: accepted.children,
        codes: accepted.codes,
    })
}

// Where in the map a gate's children stand: an empty range for an input, a gate past the end or a map that Check refuses. (No Option: Children promises empty bytes for these.)
#[tactic(auto, using(crate::proofs::Parts::no_map, crate::proofs::Parts::past_end, crate::proofs::Parts::has_gate_lem), unfolding(crate::specs::Children::stretch_place, crate::specs::Children::stretch_length))]
pub fn stretch(map: &[u8], gate: usize) -> Range<usize>
    ensures start { result.start ≡ stretch_place map.now gate }
    ensures end { result.end ≡ stretch_place map.now gate + stretch_length map.now gate }
{
    let Ok(accepted) = accept(map) else {
        return 0..0;
    };
    if accepted.gates <= gate {
        return 0..0;
    }
    let record = accepted.gate(gate);
    let start = decode::child_place(accepted.gates, record.first);
    start..start + 2 * record.fan()
}

// The stretch of the map that holds a gate's children.
#[tactic(auto, using(crate::proofs::Parts::stretch_within), unfolding(crate::specs::Children::children_answer, crate::specs::Children::children_effect))]
pub fn children(map: &[u8], gate: usize) -> &[u8]
    ensures { children_answer result ≡ children_effect map.entry gate }
{
    &map[stretch(map, gate)]
}
