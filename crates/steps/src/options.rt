// How many options a gate has, and turning the gates of one. (`x < length s` is a clause: it is the range of an index. A value is read by `== 1`, as s is written: a `Values` of it would be made for each read.)
ghost use Rattle.std.specs.Prelude.{◌≡◌, [], ◌∷◌, cond, ◌<◌, ◌≤◌, length};
ghost use Rattle.circuit.specs.Circuit.{on};
ghost use Rattle.circuit.specs.Run.{turn};
ghost use Rattle.kinds.specs.Kinds.{option_turns};
ghost use Rattle.steps.specs.Options.{option_count_of, option_gates};
ghost use Rattle.steps.specs.Steps.{Flipped};

use super::Drawn;
use circuit::Kind;
use map::Gate;

// Turns gate x.
pub fn flip(s: &mut [u8], x: usize)
    requires { x < length s.old }
    ensures { s.new ≡ turn (x ∷ []) s.old }
{
    s[x] = u8::from(s[x] != 1);
}

// Turns child j of a gate of this kind and value, which is gate x, if option i does. Did it? (Kind and value are two parameters, as in `kinds`.)
fn flip_child(kind: Kind, v: bool, i: usize, j: usize, x: usize, s: &mut [u8]) -> bool
    requires { x < length s.old }
    ensures { (s.new
        ≡ cond (option_turns kind v i j (on s.old x)) (turn (x ∷ []) s.old) s.old)
        × (result ≡ option_turns kind v i j (on s.old x)) }
{
    let turns = kinds::turns(kind, v, i, j, s[x] == 1);
    if turns {
        flip(s, x);
    }
    turns
}

// How many options the gate has.
#[tactic(auto, unfolding(crate::specs::Options::option_count_of))]
pub fn count(drawn: Drawn) -> usize
    ensures { result ≡ option_count_of drawn.entry.s.map.bytes.now drawn.entry.s.bytes.now drawn.entry.gate.number }
{
    let gate = drawn.gate;
    kinds::options(gate.kind, drawn.s.is_on(gate.number), gate.fan())
}

// Turns the gates of option i of a gate. Returns how many. (Not by `sum`: a closure that writes s as it counts would be no plainer.)
pub fn flip_option(gate: Gate, i: usize, s: &mut [u8]) -> u32
    requires { gate.map.gates ≤ length s.old }
    ensures { Flipped (option_gates gate.entry.map.bytes.now s.old gate.entry.number i) s.old s.new result }
{
    let v = s[gate.number] == 1;
    let mut turned = 0;
    for j in 0..gate.fan() {
        turned += u32::from(flip_child(gate.kind, v, i, j, gate.kid(j), s));
    }
    turned
}
