// Which options of a gate are left: those that turn no coded gate. (`j` below the fan-in is a clause: it is the range of an index.)
ghost use Rattle.std.specs.Prelude.{◌≡◌, ◌<◌};
ghost use Rattle.circuit.specs.Run.{chosen};
ghost use Rattle.circuit.specs.declared.Choice.TheVariants.{Down};
ghost use Rattle.map.specs.Map.{fan_in, circuit};
ghost use Rattle.steps.specs.Options.{child_allowed, option_left, left_of, sought_chosen};

use super::{Drawn, MOST_OPTIONS, options};
use arrayvec::ArrayVec;

// May option i have child j of the gate? It must not turn a coded one.
#[tactic(auto, using(folds::proofs::Tests::bools), unfolding(crate::specs::Options::child_allowed, crate::specs::Options::option_has))]
fn child_allowed(drawn: Drawn, i: usize, j: usize) -> bool
    requires { j < fan_in drawn.gate.map.bytes.now drawn.gate.number }
    ensures { result ≡ child_allowed drawn.entry.s.map.bytes.now drawn.entry.s.bytes.now drawn.entry.gate.number i j }
{
    let gate = drawn.gate;
    let s = drawn.s;
    let x = gate.kid(j);
    !(drawn.coded.has(x) && kinds::turns(gate.kind, s.is_on(gate.number), i, j, s.is_on(x)))
}

// Does option i of the gate turn no coded gate?
fn is_left(drawn: Drawn, i: usize) -> bool
    ensures { result ≡ option_left drawn.entry.s.map.bytes.now drawn.entry.s.bytes.now drawn.entry.gate.number i }
{
    (0..drawn.gate.fan()).all(|j| child_allowed(drawn, i, j))
}

// Lists the options of the gate that are left. (By `push`: `collect` wants an allocator, and `extend` by a `filter` gives a Result to unwrap, with 38 lines of proof more; greedy moves at 64 gates executed 1 to 2 % more by it. Inlined, as `down` is: for a call all of `drawn` is written to memory, some 1 % of a move's instructions at 64 gates.)
#[tactic(auto, using(crate::proofs::Listed::list_none, crate::proofs::Listed::list_left, crate::proofs::Listed::list_not_left, crate::proofs::Listed::few_drawn))]
#[inline(always)]
pub fn list(drawn: Drawn) -> ArrayVec<usize, MOST_OPTIONS>
    ensures { result.items ≡ left_of drawn.entry.s.map.bytes.now drawn.entry.s.bytes.now drawn.entry.gate.number }
{
    let mut left = ArrayVec::new();
    for i in 0..options::count(drawn) {
        if is_left(drawn, i) {
            left.push(i);
        }
    }
    left
}

// Of the options of the gate that are left the one at i modulo their number, if there is one.
#[tactic(auto, using(crate::proofs::Choices::seeks_none, crate::proofs::Choices::seeks_down))]
pub fn seek(drawn: Drawn, i: u8) -> Option<usize>
    ensures { sought_chosen drawn.entry.s.map.bytes.now drawn.entry.s.bytes.now drawn.entry.gate.number result
        ≡ chosen (circuit drawn.entry.s.map.bytes.now) drawn.entry.s.bytes.now drawn.entry.gate.number (Down i) }
{
    let left = list(drawn);
    if left.is_empty() {
        return None;
    }
    Some(left[usize::from(i) % left.len()])
}
