// Mark on an accepted map. (`r < codes` is a clause: it is the range of an index.)
ghost use Rattle.std.specs.Prelude.{◌≡◌, ◌<◌, get_or, eqb};
ghost use Rattle.folds.specs.Folds.{all_below};
ghost use Rattle.circuit.specs.Circuit.{justified};
ghost use Rattle.map.specs.Map.{gate_count, code_gate, code_value, circuit};
ghost use Rattle.state.specs.State.{mark_answer};
ghost use Rattle.state.specs.Inner.{mark_on_map, shown_by_record};

use super::{Values, values};
use circuit::Refusal;
use map::Map;

// Is every gate an input, or do its children give its value?
fn gates_right(s: Values) -> bool
    ensures { result
        ≡ all_below (gate_count s.entry.map.bytes.now) (justified (circuit s.entry.map.bytes.now) s.entry.bytes.now) }
{
    (0..s.map.gates).all(|g| s.justified(g))
}

// Does the gate of code r have its value?
fn code_shown(s: Values, r: usize) -> bool
    requires { r < s.map.codes }
    ensures { result
        ≡ eqb (get_or s.entry.bytes.now (code_gate s.entry.map.bytes.now r) 0) (code_value s.entry.map.bytes.now r) }
{
    s.bytes[s.map.code_gate(r)] == s.map.code_value(r)
}

// Does every coded gate have its code?
pub fn codes_shown(s: Values) -> bool
    ensures { result ≡ shown_by_record s.entry.map.bytes.now s.entry.bytes.now }
{
    (0..s.map.codes).all(|r| code_shown(s, r))
}

// Tests 9 and 10, and the answer.
#[tactic(auto, using(crate::proofs::Answers::mark_refused), unfolding(crate::specs::Inner::mark_on_map))]
pub fn mark_accepted(map: Map, configuration: &[u8]) -> Result<bool, Refusal>
    ensures { mark_answer result ≡ mark_on_map map.entry.bytes.now configuration.now }
{
    let s = values::configuration(map, configuration)?;
    Ok(gates_right(s) && codes_shown(s))
}
