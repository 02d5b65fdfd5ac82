// The values of a map's gates, and what their children give them. (`g < gates` is a clause: it is the range of an index.)
ghost use Rattle.std.specs.Prelude.{◌≡◌, ◌<◌, ◌≤◌, length};
ghost use Rattle.circuit.specs.Tools.{up_to, select};
ghost use Rattle.circuit.specs.Circuit.{on, given, justified};
ghost use Rattle.map.specs.Map.{fan_in, child_at, circuit};

use circuit::Kind;
use map::Map;

// At least a byte for each gate of a map: a configuration, or one that is being written.
#[derive(Clone, Copy, Debug, PartialEq, Eq)]
pub struct Values<'a> {
    pub map: Map<'a>,
    pub bytes: &'a [u8],
    pub ghost sized: { map.gates ≤ length bytes.now },
}

impl Values<'_> {
    // Is gate g at 1?
    pub fn is_on(self, g: usize) -> bool
        requires { g < self.map.gates }
        ensures { result ≡ on self.entry.bytes.now g }
    {
        self.bytes[g] == 1
    }

    // How many of the `fan` children of gate g are at 1.
    #[inline(always)]
    fn ones(self, g: usize, fan: usize) -> usize
        requires range { g < self.map.gates }
        requires long { fan ≡ fan_in self.map.bytes.now g }
        ensures { (result ≡ length (select (λ j. on self.entry.bytes.now (child_at self.entry.map.bytes.now g j)) (up_to (fan_in self.entry.map.bytes.now g))))
            × (result ≤ fan_in self.entry.map.bytes.now g) }
    {
        let gate = self.map.gate(g);
        (0..fan).map(|j| usize::from(self.is_on(gate.kid(j)))).sum()
    }

    // Do its `fan` children give gate g the value 1?
    #[inline(always)]
    fn given_by(self, g: usize, fan: usize) -> bool
        requires range { g < self.map.gates }
        requires long { fan ≡ fan_in self.map.bytes.now g }
        ensures { result ≡ given (circuit self.entry.map.bytes.now) self.entry.bytes.now g }
    {
        kinds::gives(self.map.gate(g).kind, fan, self.ones(g, fan))
    }

    // Do its children give gate g the value 1? (Each fan-in is written out, by the kind where that allows one alone: the compiler then reads the children without a loop, whose end would often be predicted wrongly. The last arm is an input's.)
    #[inline(always)]
    pub fn given(self, g: usize) -> bool
        requires { g < self.map.gates }
        ensures { result ≡ given (circuit self.entry.map.bytes.now) self.entry.bytes.now g }
    {
        let gate = self.map.gate(g);
        match kinds::only_fan_in(gate.kind) {
            Some(1) => self.given_by(g, 1),
            Some(2) => self.given_by(g, 2),
            Some(3) => self.given_by(g, 3),
            _ => match gate.fan() {
                2 => self.given_by(g, 2),
                3 => self.given_by(g, 3),
                4 => self.given_by(g, 4),
                5 => self.given_by(g, 5),
                6 => self.given_by(g, 6),
                7 => self.given_by(g, 7),
                8 => self.given_by(g, 8),
                fan => self.given_by(g, fan),
            },
        }
    }

    // Is gate g an input, or do its `fan` children give its value?
    #[tactic(auto, using(folds::proofs::Tests::bools, circuit::proofs::Values::beq_same), unfolding(circuit::specs::Circuit::justified))]
    #[inline(always)]
    pub fn justified_by(self, g: usize, fan: usize) -> bool
        requires range { g < self.map.gates }
        requires long { fan ≡ fan_in self.map.bytes.now g }
        ensures { result ≡ justified (circuit self.entry.map.bytes.now) self.entry.bytes.now g }
    {
        self.map.kind(g) == Kind::Input || self.given_by(g, fan) == self.is_on(g)
    }

    // Is gate g an input, or do its children give its value?
    #[tactic(auto, using(folds::proofs::Tests::bools, circuit::proofs::Values::beq_same), unfolding(circuit::specs::Circuit::justified))]
    pub fn justified(self, g: usize) -> bool
        requires { g < self.map.gates }
        ensures { result ≡ justified (circuit self.entry.map.bytes.now) self.entry.bytes.now g }
    {
        self.map.kind(g) == Kind::Input || self.given(g) == self.is_on(g)
    }
}
