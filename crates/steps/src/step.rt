// What an entry does. (The configuration is written, so it is a slice beside what is read: a struct round a `&mut` would be lent anew for each call, and owe its fact at each write, to save one clause. `g < gates` is a clause: it is the range of an index.)
ghost use Rattle.std.specs.Prelude.{◌≡◌, cond, [], ◌∷◌, ◌<◌, ◌≤◌, length, get_or, eqb};
ghost use Rattle.circuit.specs.declared.Choice.TheVariants.{Down, Up};
ghost use Rattle.circuit.specs.Run.{chosen, turned_by};
ghost use Rattle.map.specs.Map.{circuit};
ghost use Rattle.marks.specs.Marks.{MarksOf};
ghost use Rattle.steps.specs.Options.{sought_chosen};
ghost use Rattle.steps.specs.Drawable.{Drawable};
ghost use Rattle.steps.specs.Steps.{Flipped, DidEntry};

use super::{Coded, Drawn, MoveReport, Trial, greedy, left, options};
use circuit::{Choice, Entry};
use marks::cone;
use picks::draw;
use state::Values;

// Turns gate g, of which no option is left. A coded one is stuck: nothing is turned. Returns how many values.
fn turn_itself(g: usize, coded: Coded, s: &mut [u8]) -> u32
    requires { (g < coded.map.gates) × (g < length s.old) }
    ensures { Flipped (cond (eqb (get_or coded.entry.marks.now g 0) 0) (g ∷ []) []) s.old s.new result }
{
    if coded.has(g) {
        return 0;
    }
    options::flip(s, g);
    1
}

// Turns the option of gate g that was sought, or where none is left the gate itself, unless that is coded. Returns how many values.
fn turn_sought(g: usize, sought: Option<usize>, coded: Coded, s: &mut [u8]) -> u32
    requires { (g < coded.map.gates) × (coded.map.gates ≡ length s.old) }
    ensures { Flipped (turned_by g (sought_chosen coded.entry.map.bytes.now s.old g sought)) s.old s.new result }
{
    let Some(i) = sought else {
        return turn_itself(g, coded, s);
    };
    options::flip_option(coded.map.gate(g), i, s)
}

// Turns the option that down with option byte i picks. Returns how many values. (Inlined: see `left::list`.)
#[inline(always)]
fn down(g: usize, i: u8, coded: Coded, s: &mut [u8]) -> u32
    requires { Drawable coded.map.bytes.now coded.map.gates s.old g × (coded.map.gates ≡ length s.old) }
    ensures { Flipped (turned_by g (chosen (circuit coded.entry.map.bytes.now) s.old g (Down i))) s.old s.new result }
{
    let sought = left::seek(Drawn::of(g, coded, s), i);
    turn_sought(g, sought, coded, s)
}

// Turns gate g itself, without a search for options, or if it is coded as down does. Returns how many values.
#[tactic(auto, using(map::proofs::Laws::mark_none, map::proofs::Laws::mark_some), unfolding(circuit::specs::Run::chosen))]
fn up(g: usize, i: u8, coded: Coded, s: &mut [u8]) -> u32
    requires { Drawable coded.map.bytes.now coded.map.gates s.old g × (coded.map.gates ≡ length s.old) }
    ensures { Flipped (turned_by g (chosen (circuit coded.entry.map.bytes.now) s.old g (Up i))) s.old s.new result }
{
    if !coded.has(g) {
        options::flip(s, g);
        return 1;
    }
    down(g, i, coded, s)
}

// Turns what a choice says where gate g is drawn. Returns how many values: 0 where it is stuck. (A `match`: document 01 wants each move to decide by its case.)
fn turn_chosen(g: usize, choice: Choice, coded: Coded, s: &mut [u8], trial: &mut Trial) -> u32
    requires { Drawable coded.map.bytes.now coded.map.gates s.old g × (coded.map.gates ≡ length s.old) }
    ensures { Flipped (turned_by g (chosen (circuit coded.entry.map.bytes.now) s.old g choice)) s.old s.new result }
{
    match choice {
        Choice::Greedy(i) => {
            let sought = greedy::seek(Drawn::of(g, coded, s), i, trial);
            turn_sought(g, sought, coded, s)
        }
        Choice::Down(i) => down(g, i, coded, s),
        Choice::Up(i) => up(g, i, coded, s),
    }
}

// Does an entry on s, whose cone and front the marks show. Returns the drawn gate and how many values it turned: 0, and s is as it was, where the entry is stuck.
#[tactic(auto, using(crate::proofs::Fronts::front_long, crate::proofs::Fronts::drawn_is), unfolding(circuit::specs::Run::entry_turns, circuit::specs::Run::entry_chosen))]
pub fn entry(
    e: Entry,
    front: u16,
    coded: Coded,
    marks: &[u8],
    s: &mut [u8],
    trial: &mut Trial,
) -> MoveReport
    requires sized { coded.map.gates ≡ length s.old }
    requires marks_of { MarksOf (circuit coded.map.bytes.now) s.old marks.now front × (1 ≤ front) }
    ensures { DidEntry (circuit coded.entry.map.bytes.now) s.old e result s.new }
{
    let gate = draw::drawn(marks, draw::place(e.draw, front));
    let turned = turn_chosen(gate, e.choice, coded, s, trial);
    MoveReport { gate, turned }
}

// Brings the marks up to date after values of s were turned, today by the full pass: they are the cone and front of s again. Returns the front's size. (`cone::mark` under a name of its own: the design has one place where a step brings the marks up to date, see docs/DECISIONS.md, 'What does a run cost?'.)
pub fn settle(s: Values, marks: &mut [u8]) -> u16
    requires { s.map.gates ≡ length marks.old }
    ensures { MarksOf (circuit s.entry.map.bytes.now) s.entry.bytes.now marks.new result }
{
    cone::mark(s, marks)
}
