// How many clauses there are, and how long their text is.
ghost use Rattle.std.specs.Prelude.{◌≡◌, ◌<◌, ◌≤◌, ◌*◌, length};
ghost use Rattle.map.specs.Map.{most_gates, gate_count, code_count, fan_in, kids_of};
ghost use Rattle.dimacs.specs.Dimacs.{print_head};
ghost use Rattle.export.specs.Export.{text_of};
ghost use Rattle.export.specs.Inner.{Measured, item_size, kids_size, shape_of, units_text, GateMeasured};

use circuit::Kind;
use map::{Gate, Map};
use text::digits;

// How many clauses a gate has, how often they name each of its children, and how many of their literals are negated.
#[derive(Clone, Copy, Debug, PartialEq, Eq)]
struct Shape {
    clauses: usize,
    times: usize,
    negated: usize,
}

// The shape of a gate of this kind with `fan` children.
fn shape_of(kind: Kind, fan: usize) -> Shape
    requires { fan ≤ 8 }
    ensures { result ≡ shape_of kind fan }
{
    let (clauses, times, negated) = match kind {
        Kind::Input => (0, 0, 0),
        Kind::Not => (2, 2, 2),
        Kind::And => (fan + 1, 2, 2 * fan),
        Kind::Or => (fan + 1, 2, fan + 1),
        Kind::Xor => (4, 4, 6),
        Kind::Voter => (6, 4, 9),
    };
    Shape {
        clauses,
        times,
        negated,
    }
}

// The number of gate g's variable, and a blank.
fn item_size(g: usize) -> usize
    requires { g < most_gates }
    ensures { (result ≡ item_size g) × (result ≤ 11) }
{
    digits(g as u32 + 1) + 1
}

// The same of all children.
fn kids_size(gate: Gate, fan: usize) -> usize
    requires { fan ≡ fan_in gate.map.bytes.now gate.number }
    ensures { (result ≡ kids_size (kids_of gate.entry.map.bytes.now gate.entry.number)) × (result ≤ 11 * fan) }
{
    let mut size = 0;
    for j in 0..fan {
        size += item_size(gate.kid(j));
    }
    size
}

// So many clauses, and so many bytes of their text.
#[derive(Clone, Copy, Debug, PartialEq, Eq)]
pub struct Size {
    pub clauses: usize,
    pub bytes: usize,
}

// Of gate g: each clause names the gate, and ends with 0 and a line feed.
fn gate_size(gate: Gate) -> Size
    ensures { GateMeasured gate.entry.map.bytes.now gate.entry.number result.clauses result.bytes }
{
    let fan = gate.fan();
    let shape = shape_of(gate.kind, fan);
    Size {
        clauses: shape.clauses,
        bytes: shape.clauses * (item_size(gate.number) + 2)
            + shape.times * kids_size(gate, fan)
            + shape.negated,
    }
}

// Of all gates.
pub fn gates_size(map: Map) -> Size
    ensures { Measured map.entry.bytes.now (gate_count map.entry.bytes.now) result.clauses result.bytes }
{
    let mut size = Size {
        clauses: 0,
        bytes: 0,
    };
    for g in 0..map.gates {
        let gate = gate_size(map.gate(g));
        size.clauses += gate.clauses;
        size.bytes += gate.bytes;
    }
    size
}

// The bytes of all unit clauses.
pub fn units_size(map: Map) -> usize
    ensures { (result ≡ length (units_text map.entry.bytes.now (code_count map.entry.bytes.now))) × (result ≤ 14 * map.entry.codes) }
{
    let mut size = 0;
    for r in 0..map.codes {
        size += item_size(map.code_gate(r)) + 2 + usize::from(map.code_value(r) != 1);
    }
    size
}

// The bytes of the head: six of its words, two numbers, a blank and a line feed.
fn head_size(variables: u32, clauses: u32) -> usize
    ensures { (result ≡ length (print_head variables clauses)) × (result ≤ 28) }
{
    6 + digits(variables) + 1 + digits(clauses) + 1
}

// Of the whole text, in which the gates' clauses are so many and so long.
pub fn text_size(map: Map, gates: Size) -> usize
    requires { Measured map.bytes.now (gate_count map.bytes.now) gates.clauses gates.bytes }
    ensures { result ≡ length (text_of map.entry.bytes.now) }
{
    let head = head_size(map.gates as u32, (gates.clauses + map.codes) as u32);
    head + gates.bytes + units_size(map)
}
