// A tape, entry by entry.
#![tactic(auto)]

ghost use Rattle.std.specs.Prelude.{◌≡◌, ◌+◌, ◌≤◌, length};
ghost use Rattle.tape.specs.Tape.{choice_of, entry_at, tape_length_test, entry_kinds_test};
ghost use Rattle.tape.specs.Inner.{step_at};

use circuit::{Choice, Entry};

// The longest tape, in bytes.
pub const MOST_TAPE: usize = 65532;

// The tape reader: the lent tape and the place reached. (Not the rest of the tape: document 01 wants the slice with its place.)
#[derive(Clone, Copy, Debug, PartialEq, Eq)]
pub struct Tape<'a> {
    pub src: &'a [u8],
    pub at: usize,
}

impl Tape<'_> {
    // The entry at the place reached with the reader behind it, or none at the end of the tape. The place moves on by four.
    #[tactic(auto, unfolding(crate::specs::Inner::step_at))]
    pub fn read(self) -> Option<(Entry, Self)>
        ensures { result ≡ step_at self.entry }
    {
        if self.src.len() < 4 || self.src.len() - 4 < self.at {
            return None;
        }
        let behind = Tape {
            src: self.src,
            at: self.at + 4,
        };
        Some((entry_at(self.src, self.at), behind))
    }
}

// The choice of an entry's kind byte and option byte. (Not by `try_from`: in every call test 13 has gone over the whole tape first, entries never reached too, so that the last arm is 2.)
fn choice_of(kind: u8, option: u8) -> Choice
    ensures { result ≡ choice_of kind option }
{
    match kind {
        0 => Choice::Greedy(option),
        1 => Choice::Down(option),
        _ => Choice::Up(option),
    }
}

// The entry at a place.
#[tactic(auto, unfolding(crate::specs::Tape::entry_at))]
fn entry_at(tape: &[u8], at: usize) -> Entry
    requires { at + 4 ≤ length tape.now }
    ensures { result ≡ entry_at tape.now at }
{
    Entry {
        draw: map::word(tape, at),
        choice: choice_of(tape[at + 2], tape[at + 3]),
    }
}

// Test 12 for Run.
#[tactic(auto, using(folds::proofs::Tests::bools), unfolding(crate::specs::Tape::tape_length_test))]
pub fn length_ok(tape: &[u8]) -> bool
    ensures { result ≡ tape_length_test tape.now }
{
    tape.len() % 4 == 0 && tape.len() <= MOST_TAPE
}

// Test 13.
pub fn kinds_ok(tape: &[u8]) -> bool
    ensures { result ≡ entry_kinds_test tape.now }
{
    tape.chunks_exact(4).all(|entry| entry[2] <= 2)
}
