// An accepted map, and its gates. (A gate stays a number in the lent bytes: the format has it so, and no call allocates. `g < gates` and the like are clauses, as in `decode`.)
ghost use Rattle.std.specs.Prelude.{◌≡◌, ◌+◌, ◌<◌, ◌≤◌, length};
ghost use Rattle.circuit.specs.Evaluate.{inputs_before};
ghost use Rattle.circuit.specs.Gate.{kind_of};
ghost use Rattle.map.specs.Map.{gate_count, code_count, kind_byte, fan_in, code_gate, code_value, circuit};
ghost use Rattle.map.specs.Inner.{ContentsOf, IsMap, GateOf, KidOf, CodeMarks};

use super::decode::Table;
use circuit::Kind;

// A map that Check accepts, with the counts of its table of contents. It is made by `tests::accept` alone, once for each call. (Its fields are those of `Table`, and not a `Table`: eight other crates read
// `map.gates` and `map.bytes`; `map.table.gates` and `map.table.bytes` would be longer and say no more. So `kind`, `inputs`, `code_gate` and `code_value` are its own too, each a line over those of `Table`.)
#[derive(Clone, Copy, Debug, PartialEq, Eq)]
pub struct Map<'a> {
    pub bytes: &'a [u8],
    pub gates: usize,
    pub children: usize,
    pub codes: usize,
    pub ghost contents: { ContentsOf bytes.now gates children codes },
    pub ghost is: { IsMap bytes.now },
}

impl<'a> Map<'a> {
    // The same, to be read as before its acceptance.
    fn table(self) -> Table<'a>
        ensures { (result.bytes ≡ self.entry.bytes) × ((result.gates ≡ self.entry.gates) × ((result.children ≡ self.entry.children) × (result.codes ≡ self.entry.codes))) }
    {
        Table {
            bytes: self.bytes,
            gates: self.gates,
            children: self.children,
            codes: self.codes,
        }
    }

    // The kind of gate g.
    pub fn kind(self, g: usize) -> Kind
        requires { g < self.gates }
        ensures { result ≡ kind_of (kind_byte self.entry.bytes.now g) }
    {
        self.table().kind(g)
    }

    // Gate g, its record read once: where a loop writes, the compiler would read it again each time, as it does not know that slices don't overlap.
    pub fn gate(self, g: usize) -> Gate<'a>
        requires { g < self.gates }
        ensures { (result.map ≡ self.entry) × (result.number ≡ g) }
    {
        Gate {
            map: self,
            number: g,
            kind: self.kind(g),
            first: usize::from(self.table().first_child(g)),
        }
    }

    // The number of inputs.
    pub fn inputs(self) -> usize
        ensures { (result ≡ inputs_before (circuit self.entry.bytes.now) (gate_count self.entry.bytes.now)) × (result ≤ self.entry.gates) }
    {
        self.table().inputs()
    }

    // The gate of code r.
    pub fn code_gate(self, r: usize) -> usize
        requires { r < self.codes }
        ensures { (result ≡ code_gate self.entry.bytes.now r) × (result < self.entry.gates) }
    {
        usize::from(self.table().code_gate(r))
    }

    // The value byte of code r.
    pub fn code_value(self, r: usize) -> u8
        requires { r < self.codes }
        ensures { result ≡ code_value self.entry.bytes.now r }
    {
        self.table().code_value(r)
    }

    // Marks the coded gates with 1, in marks that are all 0. (Their length is a clause: a struct round a `&mut` would be lent anew for each call, and owe its fact at each write.)
    #[tactic(auto, using(crate::proofs::Laws::marks_more))]
    pub fn mark_coded(self, marks: &mut [u8])
        requires { (self.gates ≤ length marks.old) × CodeMarks self.bytes.now 0 marks.old }
        ensures { CodeMarks self.entry.bytes.now (code_count self.entry.bytes.now) marks.new }
    {
        for r in 0..self.codes {
            marks[self.code_gate(r)] = 1;
        }
    }
}

// A gate of an accepted map, with what its record says.
#[derive(Clone, Copy, Debug, PartialEq, Eq)]
pub struct Gate<'a> {
    pub map: Map<'a>,
    pub number: usize,
    pub kind: Kind,
    pub first: usize,
    pub ghost read: { GateOf map.bytes.now number kind first },
}

impl Gate<'_> {
    // Its fan-in. (Not a field: `Values::given` and the cone's `mark_gate` don't ask it of a kind that allows one alone, and a field would be read all the same.)
    pub fn fan(self) -> usize
        ensures { result ≡ fan_in self.entry.map.bytes.now self.entry.number }
    {
        usize::from(self.map.table().fan_in(self.number))
    }

    // Its child j.
    pub fn kid(self, j: usize) -> usize
        requires { j < fan_in self.map.bytes.now self.number }
        ensures { KidOf self.entry.map.bytes.now self.entry.number j result }
    {
        usize::from(self.map.table().any_child(self.first + j))
    }
}
