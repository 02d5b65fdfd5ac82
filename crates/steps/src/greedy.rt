// Greedy choices: the option with the smallest interest set after the move.
ghost use Rattle.std.specs.Prelude.{◌≡◌, ◌≤◌, length};
ghost use Rattle.circuit.specs.declared.Choice.TheVariants.{Greedy};
ghost use Rattle.circuit.specs.Run.{chosen};
ghost use Rattle.map.specs.Map.{circuit};
ghost use Rattle.steps.specs.Options.{option_gates, sought_chosen, weights_of, interest_after};

use super::{Drawn, MOST_OPTIONS, Trial, left, options};
use arrayvec::ArrayVec;
use picks::weights;
use state::Values;
use survey::writing;

// Copies s over a trial configuration. (Value by value: `copy_from_slice` asks the C library for memcpy, and the archives ask it for memset alone.)
fn copy(s: &[u8], trial: &mut [u8])
    requires { length s.now ≡ length trial.old }
    ensures { trial.new ≡ s.now }
{
    for (i, value) in s.iter().enumerate() {
        trial[i] = *value;
    }
}

// The size of the interest set after option i of the gate.
fn weigh(drawn: Drawn, i: usize, trial: &mut Trial) -> u16
    ensures { result
        ≡ interest_after drawn.entry.s.map.bytes.now drawn.entry.s.bytes.now (option_gates drawn.entry.s.map.bytes.now drawn.entry.s.bytes.now drawn.entry.gate.number i) }
{
    let s = drawn.s;
    let gates = s.map.gates;
    // (whole slices first: parts of two fields are not lent at once)
    let values = &mut trial.values[..];
    let marks = &mut trial.marks[..];
    let after = &mut values[..gates];
    copy(s.bytes, after);
    options::flip_option(drawn.gate, i, after);
    let sizes = writing::write(
        Values {
            map: s.map,
            bytes: after,
        },
        &mut marks[..gates],
    );
    sizes.interest
}

// The weights of some options of the gate: the sizes of the interest set after them. (By `push`: the closure of a chain would write `trial`, which is no plainer.)
fn weigh_all(drawn: Drawn, left: &[usize], trial: &mut Trial) -> ArrayVec<u16, MOST_OPTIONS>
    requires { length left.now ≤ MOST_OPTIONS }
    ensures { result.items
        ≡ weights_of (interest_after drawn.entry.s.map.bytes.now drawn.entry.s.bytes.now) drawn.entry.s.map.bytes.now drawn.entry.s.bytes.now drawn.entry.gate.number left.now }
{
    let mut weighed = ArrayVec::new();
    for option in left {
        weighed.push(weigh(drawn, *option, trial));
    }
    weighed
}

// Of the options of the gate that are left the one that greedy with option byte i picks, if there is one. A single one is not weighed.
#[tactic(auto, using(crate::proofs::Choices::seeks_none, crate::proofs::Choices::seeks_one, crate::proofs::Choices::seeks_greedy))]
pub fn seek(drawn: Drawn, i: u8, trial: &mut Trial) -> Option<usize>
    ensures { sought_chosen drawn.entry.s.map.bytes.now drawn.entry.s.bytes.now drawn.entry.gate.number result
        ≡ chosen (circuit drawn.entry.s.map.bytes.now) drawn.entry.s.bytes.now drawn.entry.gate.number (Greedy i) }
{
    let left = left::list(drawn);
    match left.as_slice() {
        [] => None,
        [only] => Some(*only),
        several => {
            let weighed = weigh_all(drawn, several, trial);
            Some(several[weights::best(&weighed, i)])
        }
    }
}
