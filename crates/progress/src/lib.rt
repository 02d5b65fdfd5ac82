// A run on an accepted map, step after step, in lent memory.
// The lengths of what is written are clauses: a struct round a `&mut` would be lent anew for each call, and owe its fact at each write.
#![tactic(auto)]

ghost use Rattle.std.specs.Prelude.{◌≡◌, length};
ghost use Rattle.map.specs.Map.{circuit};
ghost use Rattle.progress.specs.Advance.{Begins, Stands, Advances, IsOver};

use circuit::{Ending, Outcome};
use marks::cone;
use state::Values;
use std::ops::ControlFlow;
use steps::{Coded, Trial, step};
use tape::Tape;

// How far a run is: the tape with the place reached on it, what is done so far, and the size of the present front.
#[derive(Clone, Copy, Debug, PartialEq, Eq)]
pub struct Progress<'a> {
    pub tape: Tape<'a>,
    pub moves: u16,
    pub flips: u32,
    pub front: u16,
}

// One step of a run that stands at p: it does the next entry and goes on from there, or it is over. An entry that turns nothing is stuck, and all is as it was. The marks are the cone and front
// of s, before and after.
#[tactic(auto, using(crate::proofs::Advancing::found_advances, crate::proofs::Advancing::stuck_advances, crate::proofs::Advancing::step_next, crate::proofs::Advancing::spent_advances, marks::proofs::Marked::marks_length))]
pub fn advance<'a>(
    p: Progress<'a>,
    coded: Coded,
    s: &mut [u8],
    marks: &mut [u8],
    trial: &mut Trial,
) -> ControlFlow<Ending, Progress<'a>>
    requires sized { coded.map.gates ≡ length s.old }
    requires stands { Stands (circuit coded.map.bytes.now) p s.old marks.old }
    ensures { Advances (circuit coded.entry.map.bytes.now) p.entry s.old result s.new marks.new }
{
    if p.front == 0 {
        return ControlFlow::Break(Ending::Found);
    }
    let Some((e, tape)) = p.tape.read() else {
        return ControlFlow::Break(Ending::Spent(p.front));
    };
    let report = step::entry(e, p.front, coded, marks, s, trial);
    // (A count, and 0 is what stuck means: the report has no other sign, and an `Option` beside it would say the same twice.)
    if report.turned == 0 {
        return ControlFlow::Break(Ending::Stuck);
    }
    let after = Values {
        map: coded.map,
        bytes: s,
    };
    ControlFlow::Continue(Progress {
        tape,
        moves: p.moves + 1,
        flips: p.flips + report.turned,
        front: step::settle(after, marks),
    })
}

// Step after step, until the front is empty, the tape is used up or an entry is stuck. Then s is the last configuration, and the marks are its cone and front.
#[tactic(auto, using(crate::proofs::Going::run_begins))]
pub fn go(tape: &[u8], coded: Coded, s: &mut [u8], marks: &mut [u8], trial: &mut Trial) -> Outcome
    requires sized { (coded.map.gates ≡ length s.old) × (coded.map.gates ≡ length marks.old) }
    requires begins { Begins coded.map.bytes.now s.old tape.now }
    ensures { IsOver (circuit coded.entry.map.bytes.now) s.old tape.now result s.new marks.new }
{
    let start = Values {
        map: coded.map,
        bytes: s,
    };
    let mut p = Progress {
        tape: Tape { src: tape, at: 0 },
        moves: 0,
        flips: 0,
        front: cone::mark(start, marks),
    };
    loop {
        match advance(p, coded, s, marks, trial) {
            ControlFlow::Continue(further) => p = further,
            ControlFlow::Break(ending) => {
                return Outcome {
                    ending,
                    moves: p.moves,
                    flips: p.flips,
                };
            }
        }
    }
}
