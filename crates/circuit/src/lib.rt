// What the engine means, in specs/, with the theorems about it in proofs/. Here stand only the types that code and definitions share.
#![tactic(auto)]

ghost use Rattle.std.specs.Prelude.{◌≡◌};
ghost use Rattle.circuit.specs.Gate.{KindRead};
ghost use Rattle.circuit.specs.Refusal.{number_of};

// A kind of gate. Its place here, from 0 on, is its kind byte.
#[derive(Clone, Copy, Debug, PartialEq, Eq)]
pub enum Kind {
    Input,
    Not,
    And,
    Or,
    Xor,
    Voter,
}

// A kind byte above the last.
#[derive(Clone, Copy, Debug, PartialEq, Eq)]
pub struct UnknownKind(pub u8);

impl TryFrom<u8> for Kind {
    type Error = UnknownKind;

    ghost try_from_gives = { KindRead };

    fn try_from(byte: u8) -> Result<Self, UnknownKind> {
        match byte {
            0 => Ok(Kind::Input),
            1 => Ok(Kind::Not),
            2 => Ok(Kind::And),
            3 => Ok(Kind::Or),
            4 => Ok(Kind::Xor),
            5 => Ok(Kind::Voter),
            _ => Err(UnknownKind(byte)),
        }
    }
}

// Why a call is refused: the test that failed first, with its number. (8 is no longer given.)
#[derive(Clone, Copy, Debug, PartialEq, Eq)]
pub enum Refusal {
    ShortMap = 1,
    GateCount = 2,
    Offsets = 3,
    Kinds = 4,
    Positions = 5,
    Children = 6,
    Codes = 7,
    Length = 9,
    Bits = 10,
    CodesNotShown = 11,
    TapeLength = 12,
    EntryKind = 13,
    ShortMemory = 14,
    EmptyFront = 15,
    ShortText = 16,
}

impl From<Refusal> for u8 {
    ghost from_gives = { λ refusal number. number ≡ number_of refusal };

    fn from(refusal: Refusal) -> u8 {
        // (`as`: this is the `From` itself, and the enum gives each refusal its number)
        refusal as u8
    }
}

// A tape entry's kind with its option byte.
#[derive(Clone, Copy, Debug, PartialEq, Eq)]
pub enum Choice {
    Greedy(u8),
    Down(u8),
    Up(u8),
}

// A tape entry.
#[derive(Clone, Copy, Debug, PartialEq, Eq)]
pub struct Entry {
    pub draw: u16,
    pub choice: Choice,
}

// How a run ends: Spent with the front's size, Stuck at an entry that can't be done, Refused with the test that failed. (One enum of its own, and no `Result` of endings: document 01 names it so.)
#[derive(Clone, Copy, Debug, PartialEq, Eq)]
pub enum Ending {
    Found,
    Spent(u16),
    Stuck,
    Refused(Refusal),
}

// A run's answer: moves is the number of entries done, flips the sum of values turned.
#[derive(Clone, Copy, Debug, PartialEq, Eq)]
pub struct Outcome {
    pub ending: Ending,
    pub moves: u16,
    pub flips: u32,
}
