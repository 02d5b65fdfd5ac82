// The cone and the front, by one pass from the last gate to gate 0.
ghost use Rattle.std.specs.Prelude.{◌≡◌, true, cond, [], ◌∷◌, ◌<◌, ◌≤◌, length, get_or};
ghost use Rattle.circuit.specs.Tools.{byte, same, select};
ghost use Rattle.folds.specs.Folds.{◌or◌};
ghost use Rattle.circuit.specs.Circuit.{on, justified};
ghost use Rattle.circuit.specs.Survey.{reasons};
ghost use Rattle.map.specs.Map.{code_count, fan_in, circuit};
ghost use Rattle.map.specs.Inner.{CodeMarks};
ghost use Rattle.marks.specs.Marks.{cone_marks, MarksOf, ConeTurned, paint, to_one};

use circuit::Kind;
use state::Values;

// Marks that are the cone and the front of a configuration.
#[derive(Clone, Copy, Debug, PartialEq, Eq)]
pub struct Marked<'a> {
    pub s: Values<'a>,
    pub marks: &'a [u8],
    pub ghost are: { marks.now ≡ cone_marks (circuit s.map.bytes.now) s.bytes.now },
}

// The mark of a child that was b: 1 if it is relevant.
fn child_mark(relevant: bool, b: u8) -> u8
    ensures { result ≡ cond relevant 1 b }
{
    if relevant { 1 } else { b }
}

// Child x of a justified gate with value v comes into the cone where all of this gate's children do, or where x has this value. The mark is written in any case: a jump here would often be predicted wrongly.
#[tactic(auto, using(folds::proofs::Tests::bools, crate::proofs::Tables::paint_one, circuit::proofs::Values::beq_same))]
fn mark_child(all: bool, v: bool, x: usize, s: Values, marks: &mut [u8])
    requires { (x < s.map.gates) × (x < length marks.old) }
    ensures { marks.new
        ≡ paint to_one (select (λ y. all or same (on s.entry.bytes.now y) v) (x ∷ [])) marks.old }
{
    let relevant = all || s.is_on(x) == v;
    marks[x] = child_mark(relevant, marks[x]);
}

// The relevant ones of the `fan` children of a justified gate with value v come into the cone.
#[inline(always)]
#[tactic(auto, using(crate::proofs::Tables::paint_select), unfolding(crate::specs::Marks::paint, map::specs::Map::kids_of))]
fn mark_kids(s: Values, g: usize, fan: usize, v: bool, marks: &mut [u8])
    requires gate { (g < s.map.gates) × (s.map.gates ≤ length marks.old) }
    requires g_value { (justified (circuit s.map.bytes.now) s.bytes.now g ≡ true) × (v ≡ on s.bytes.now g) }
    requires long { fan ≡ fan_in s.map.bytes.now g }
    ensures { marks.new ≡ paint to_one (reasons (circuit s.entry.map.bytes.now) s.entry.bytes.now g) marks.old }
{
    let gate = s.map.gate(g);
    let all = kinds::all_relevant(gate.kind);
    for j in 0..fan {
        mark_child(all, v, gate.kid(j), s, marks);
    }
}

// What gate g of the cone, with `fan` children, does: it is in the front, or it brings its relevant children. Is it in the front? (The value is written out, so that the compiler makes code for each: without, runs on wide maps took 2 to 10 % longer, though Survey took 5 % less.)
#[inline(always)]
fn mark_by(s: Values, g: usize, fan: usize, marks: &mut [u8]) -> bool
    requires gate { (g < s.map.gates) × (s.map.gates ≤ length marks.old) }
    requires in_cone { ¬ (get_or marks.old g 0 ≡ 0) }
    requires long { fan ≡ fan_in s.map.bytes.now g }
    ensures { ConeTurned (circuit s.entry.map.bytes.now) s.entry.bytes.now g marks.old marks.new (byte result) }
{
    if !s.justified_by(g, fan) {
        marks[g] = 3;
        return true;
    }
    if s.is_on(g) {
        mark_kids(s, g, fan, true, marks);
    } else {
        mark_kids(s, g, fan, false, marks);
    }
    false
}

// Gate g's turn. Is it in the front? (Each fan-in is written out, as in `given` of `state`; the last arm is no gate's. An input, which is justified and brings nothing, is done first: where the compiler doesn't know that it is, it tests for more kinds behind the children than can be there.)
fn mark_gate(s: Values, g: usize, marks: &mut [u8]) -> bool
    requires { (g < s.map.gates) × (s.map.gates ≤ length marks.old) }
    ensures { ConeTurned (circuit s.entry.map.bytes.now) s.entry.bytes.now g marks.old marks.new (byte result) }
{
    if marks[g] == 0 || s.map.kind(g) == Kind::Input {
        return false;
    }
    let gate = s.map.gate(g);
    match kinds::only_fan_in(gate.kind) {
        Some(1) => mark_by(s, g, 1, marks),
        Some(2) => mark_by(s, g, 2, marks),
        Some(3) => mark_by(s, g, 3, marks),
        _ => match gate.fan() {
            2 => mark_by(s, g, 2, marks),
            3 => mark_by(s, g, 3, marks),
            4 => mark_by(s, g, 4, marks),
            5 => mark_by(s, g, 5, marks),
            6 => mark_by(s, g, 6, marks),
            7 => mark_by(s, g, 7, marks),
            8 => mark_by(s, g, 8, marks),
            fan => mark_by(s, g, fan, marks),
        },
    }
}

// Marks, with the coded gates at 1, become the cone and the front of s. Returns the front's size. (Not by `sum`: a closure that writes the marks as it counts would be no plainer.)
fn pass(s: Values, marks: &mut [u8]) -> u16
    requires room { s.map.gates ≡ length marks.old }
    requires code_marks { CodeMarks s.map.bytes.now (code_count s.map.bytes.now) marks.old }
    ensures { MarksOf (circuit s.entry.map.bytes.now) s.entry.bytes.now marks.new result }
{
    let mut size = 0;
    for g in (0..s.map.gates).rev() {
        if mark_gate(s, g, marks) {
            size += 1;
        }
    }
    size
}

// Writes the cone and the front of s into marks: 1 for a gate in the cone, 3 in the front. Returns the front's size.
#[tactic(auto, using(map::proofs::Laws::marks_none))]
pub fn mark(s: Values, marks: &mut [u8]) -> u16
    requires { s.map.gates ≡ length marks.old }
    ensures { MarksOf (circuit s.entry.map.bytes.now) s.entry.bytes.now marks.new result }
{
    marks.fill(0);
    s.map.mark_coded(marks);
    pass(s, marks)
}
