// What an entry works with beside the configuration. (`g < gates` is a clause: it is the range of an index.)
ghost use Rattle.std.specs.Prelude.{◌≡◌, ◌<◌, ◌≤◌, length, get_or, eqb, not, replicate};
ghost use Rattle.map.specs.Map.{code_count};
ghost use Rattle.map.specs.Inner.{CodeMarks};

use map::{MOST_GATES, Map};

// The marks of a map's codes: 1 for each coded gate, else 0. (They are lent: with an array of its own `over` would hand out the marked array by a call of memcpy, and the archives ask the C library for memset alone.)
#[derive(Clone, Copy, Debug, PartialEq, Eq)]
pub struct Coded<'a> {
    pub map: Map<'a>,
    pub marks: &'a [u8],
    pub ghost long: { map.gates ≤ length marks.now },
    pub ghost marked: { CodeMarks map.bytes.now (code_count map.bytes.now) marks.now },
}

impl<'a> Coded<'a> {
    // The marks of a map's codes, in lent memory that is all 0.
    pub fn over(map: Map<'a>, marks: &'a mut [u8; MOST_GATES]) -> Self
        requires { marks.old ≡ replicate MOST_GATES 0 }
        ensures { result.map ≡ map.entry }
    {
        map.mark_coded(marks);
        Coded { map, marks }
    }

    // Is gate g coded?
    pub fn has(self, g: usize) -> bool
        requires { g < self.map.gates }
        ensures { result ≡ not (eqb (get_or self.entry.marks.now g 0) 0) }
    {
        self.marks[g] != 0
    }
}

// Memory to weigh options in: a configuration to try, and the marks of its survey. What stands there is overwritten before it is read. (Two arrays: a survey is written beside its configuration, a byte for each gate in both.)
#[derive(Drop, Debug, PartialEq, Eq)]
pub struct Trial {
    pub values: [u8; MOST_GATES],
    pub marks: [u8; MOST_GATES],
}

impl Trial {
    pub fn new() -> Self
        ensures values { result.values ≡ replicate MOST_GATES 0 }
        ensures marks { result.marks ≡ replicate MOST_GATES 0 }
    {
        Trial {
            values: [0; MOST_GATES],
            marks: [0; MOST_GATES],
        }
    }
}
