// Evaluate on an accepted map, and the test of a configuration. (`g < gates` is a clause: it is the range of an index.)
ghost use Rattle.std.specs.Prelude.{◌≡◌, true, false, ◌+◌, ◌<◌, ◌≤◌, length};
ghost use Rattle.circuit.specs.Tools.{byte};
ghost use Rattle.circuit.specs.Refusal.{number_given};
ghost use Rattle.circuit.specs.Gate.{kind_of, is_input};
ghost use Rattle.circuit.specs.Circuit.{given};
ghost use Rattle.circuit.specs.Evaluate.{evaluate};
ghost use Rattle.map.specs.Map.{kind_byte, circuit};
ghost use Rattle.map.specs.Check.{first_failed};
ghost use Rattle.state.specs.State.{bits_test, configuration_tests, evaluate_answer};
ghost use Rattle.state.specs.Inner.{evaluate_on_map, RowTested, IsConfigurationOf, AsksInputs, ValuesBy};

use super::Values;
use circuit::{Kind, Refusal};
use map::Map;

// Test 10, by the largest byte: a fold that goes to the end is one that the compiler can do many bytes at a time. (From 0, and not by `max`, which takes the first byte by itself: up to 31 bytes are left over at the end.)
#[tactic(auto, unfolding(crate::specs::State::bits_test))]
pub fn bits_ok(s: &[u8]) -> bool
    ensures { result ≡ bits_test s.now }
{
    s.iter().fold(0, |most, b| most.max(*b)) <= 1
}

// Tests 9 and 10 of a configuration, which they hand on.
#[tactic(auto, using(folds::proofs::Tests::bools, map::proofs::Laws::tests_by), unfolding(crate::specs::State::configuration_tests))]
pub fn configuration<'a>(map: Map<'a>, bytes: &'a [u8]) -> Result<Values<'a>, Refusal>
    ensures number { number_given result ≡ first_failed (configuration_tests map.entry.bytes.now bytes.now) }
    ensures handed_on { IsConfigurationOf map.entry bytes.entry result }
{
    if bytes.len() != map.gates {
        return Err(Refusal::Length);
    }
    if !bits_ok(bytes) {
        return Err(Refusal::Bits);
    }
    Ok(Values { map, bytes })
}

// The value of gate g, where `below` has those of the gates below it: an input's is what `input` says, another's what its children give. With it, the place of the next input.
fn gate_value<F: Fn(usize, usize) -> bool>(
    below: Values,
    g: usize,
    place: usize,
    input: &F,
) -> (bool, usize)
    requires gate { (g < below.map.gates) × (place ≤ g) }
    requires asked { is_input (kind_of (kind_byte below.map.bytes.now g)) ≡ true → F.pre input.now g place }
    ensures input { is_input (kind_of (kind_byte below.entry.map.bytes.now g)) ≡ true → F.post input.now g place result.0 }
    ensures other { is_input (kind_of (kind_byte below.entry.map.bytes.now g)) ≡ false
        → result.0 ≡ given (circuit below.entry.map.bytes.now) below.entry.bytes.now g }
    ensures behind { result.1 ≡ place + byte (is_input (kind_of (kind_byte below.entry.map.bytes.now g))) }
{
    if below.map.kind(g) == Kind::Input {
        (input(g, place), place + 1)
    } else {
        (below.given(g), place)
    }
}

// Writes the value of every gate, in rising order. `input` gives an input's by its gate number and its place among the inputs.
// (The length of `out` is a clause: a struct round a `&mut` would be lent anew for each call, and owe its fact at each write. `place` goes on by hand: a fold over the gates whose closure writes `out` would be no plainer.)
pub fn write_values<F: Fn(usize, usize) -> bool>(map: Map, out: &mut [u8], input: F)
    requires room { length out.old ≡ map.gates }
    requires inputs { AsksInputs (F.pre input) map.bytes.now }
    ensures { ValuesBy (F.post input) map.entry.bytes.now out.new }
{
    let mut place = 0;
    for g in 0..map.gates {
        let (value, behind) = gate_value(Values { map, bytes: out }, g, place, &input);
        out[g] = u8::from(value);
        place = behind;
    }
}

// Evaluate's values: the inputs' stand in the row by their places. (By `== 1`: a row is no `Values`, as it has a byte for each input alone.)
#[tactic(auto, using(crate::proofs::Filling::row_has))]
fn fill(map: Map, row: &[u8], out: &mut [u8])
    requires row_tested { RowTested map.bytes.now row.now }
    requires room { length out.old ≡ map.gates }
    ensures { out.new ≡ evaluate (circuit map.entry.bytes.now) row.now }
{
    write_values(map, out, |_, place| row[place] == 1);
}

// Tests 9, 10 and 14, and the values.
#[tactic(auto, using(folds::proofs::Tests::bools, map::proofs::Laws::tests_by, crate::proofs::Filling::bits_of, crate::proofs::Answers::evaluated_by), unfolding(crate::specs::State::row_tests, crate::specs::Inner::evaluate_on_map))]
pub fn evaluate_accepted(map: Map, row: &[u8], out: &mut [u8]) -> Result<(), Refusal>
    ensures { evaluate_answer result out.new ≡ evaluate_on_map map.entry.bytes.now row.now out.old }
{
    if row.len() != map.inputs() {
        return Err(Refusal::Length);
    }
    if !bits_ok(row) {
        return Err(Refusal::Bits);
    }
    if out.len() < map.gates {
        return Err(Refusal::ShortMemory);
    }
    fill(map, row, &mut out[..map.gates]);
    Ok(())
}
