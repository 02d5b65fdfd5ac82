// The interest set over the marks of cone and front, by one pass from the last gate to gate 0, which counts its size too.
ghost use Rattle.std.specs.Prelude.{◌≡◌, ◌<◌, ◌≤◌, length, leb};
ghost use Rattle.circuit.specs.Tools.{byte};
ghost use Rattle.map.specs.Map.{kids_of, circuit};
ghost use Rattle.marks.specs.Marks.{paint, mark_below, mark_itself, InterestTurned, ConeMarked, Completed};

use map::Map;

// The mark of a gate below an interesting one. One that is in the front waits for its own turn.
#[tactic(auto, unfolding(crate::specs::Marks::mark_below))]
fn mark_below(b: u8) -> u8
    ensures { result ≡ mark_below b }
{
    if b < 2 { b + 4 } else { b }
}

// The mark of an interesting gate, at its turn.
#[tactic(auto, unfolding(crate::specs::Marks::mark_itself))]
fn mark_itself(b: u8) -> u8
    ensures { result ≡ mark_itself b }
{
    if b == 3 { 7 } else { b }
}

// Is a gate with this mark, at its turn, in the front or below an interesting one?
fn interesting(b: u8) -> bool
    ensures { result ≡ leb 2 b }
{
    2 <= b
}

// The children of gate g are interesting.
#[tactic(auto, using(crate::proofs::Tables::paint_next), unfolding(crate::specs::Marks::paint, map::specs::Map::kids_of))]
fn mark_children(map: Map, g: usize, marks: &mut [u8])
    requires { (g < map.gates) × (map.gates ≤ length marks.old) }
    ensures { marks.new ≡ paint mark_below (kids_of map.entry.bytes.now g) marks.old }
{
    let gate = map.gate(g);
    for j in 0..gate.fan() {
        let x = gate.kid(j);
        marks[x] = mark_below(marks[x]);
    }
}

// Gate g's turn: where it is in the front or marked as interesting, so are its children. Does it count in the size of the interest set? (F-5: a NOT gate doesn't.)
#[tactic(auto, unfolding(crate::specs::Marks::interest_turn, crate::specs::Marks::weight_at))]
fn mark_gate(map: Map, g: usize, marks: &mut [u8]) -> bool
    requires { (g < map.gates) × (map.gates ≤ length marks.old) }
    ensures { InterestTurned (circuit map.entry.bytes.now) g marks.old marks.new (byte result) }
{
    if !interesting(marks[g]) {
        return false;
    }
    marks[g] = mark_itself(marks[g]);
    mark_children(map, g, marks);
    kinds::carries_weight(map.kind(g))
}

// Marks that are the cone and the front of a configuration become its survey. Returns the size of the interest set.
pub fn mark(map: Map, marks: &mut [u8]) -> u16
    requires room { map.gates ≡ length marks.old }
    requires cone_marked { ConeMarked (circuit map.bytes.now) marks.old }
    ensures { Completed (circuit map.entry.bytes.now) marks.old marks.new result }
{
    let mut size = 0;
    for g in (0..map.gates).rev() {
        if mark_gate(map, g, marks) {
            size += 1;
        }
    }
    size
}
