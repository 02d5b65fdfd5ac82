// What the code of these crates knows of single kinds of gate. (Others test for an input.) A kind and its gate's value v stay two parameters, here and in those who call: a struct of both would keep no fact, and each `match` by the kind would take it apart again.
#![tactic(auto)]

ghost use Rattle.std.specs.Prelude.{◌≡◌, ◌≤◌};
ghost use Rattle.circuit.specs.declared.Kind.{Kind};
ghost use Rattle.circuit.specs.Gate.{kind_of, fan_in_fits, carries_weight};
ghost use Rattle.kinds.specs.Kinds.{kind_fits, only_fan_in, needed, GivesBy, all_relevant, option_count, in_pair, option_turns};

use circuit::Kind;

// The smallest and the largest fan-in of each kind, in their order. (Tables: a `match` is a jump by the kind for every gate, often predicted wrongly: with it Check took half as long again on deep maps, and Evaluate a seventh more. Two: one table of both took an instruction more for every gate.)
const LEAST: [u8; 6] = [0, 1, 2, 2, 2, 3];

const MOST: [u8; 6] = [0, 1, 8, 8, 2, 3];

// The kind of a kind byte. One above the last kind's is read as the last kind's, as in `kind_of`, so that the compiler needs no jump.
#[tactic(auto, using(crate::proofs::Bytes::past_last))]
pub fn kind_of(byte: u8) -> Kind
    ensures { result ≡ kind_of byte }
{
    Kind::try_from(byte).unwrap_or(Kind::Voter)
}

// A kind, by itself or by its byte, for functions that take either.
pub trait AnyKind {
    ghost named: { Self → Kind };

    fn named(self) -> Kind
        ensures { result ≡ named self };
}

impl AnyKind for Kind {
    ghost named = { λ kind. kind };

    fn named(self) -> Kind {
        self
    }
}

impl AnyKind for u8 {
    ghost named = { kind_of };

    fn named(self) -> Kind {
        kind_of(self)
    }
}

// Is this fan-in allowed for the kind?
#[tactic(auto, using(folds::proofs::Tests::bools))]
pub fn allows(kind: Kind, fan: u8) -> bool
    ensures { result ≡ fan_in_fits kind fan }
{
    // (`as`, here and below: a kind is its place; a `From` would hold the same `as`)
    let place = kind as usize;
    (LEAST[place]..=MOST[place]).contains(&fan)
}

// Test 4: is this a kind's byte, and the fan-in allowed for it?
#[tactic(auto, using(crate::proofs::Fans::fits_by, crate::proofs::Fans::no_kind_fits))]
pub fn fits(kind: u8, fan: u8) -> bool
    ensures { result ≡ kind_fits kind fan }
{
    Kind::try_from(kind).is_ok_and(|known| allows(known, fan))
}

// The fan-in of a kind that allows one alone; none for an input and for kinds of several. (By halves of the kinds, so that it takes two comparisons: a `match` of so many cases is a jump by a table, which is often predicted wrongly.)
pub fn only_fan_in<K: AnyKind>(kind: K) -> Option<usize>
    ensures { result ≡ only_fan_in (K.named kind) }
{
    let kind = kind.named();
    if Kind::Xor as usize <= kind as usize {
        Some(if matches!(kind, Kind::Xor) { 2 } else { 3 })
    } else if matches!(kind, Kind::Not) {
        Some(1)
    } else {
        None
    }
}

// How many children at 1 an AND, an OR or a voter with `fan` children needs to be at 1. (By it AND and OR are told apart without a jump, which would often be predicted wrongly. The other kinds don't go by it.)
fn needed(kind: Kind, fan: usize) -> usize
    ensures { result ≡ needed kind fan }
{
    match kind {
        Kind::And => fan,
        Kind::Or | Kind::Input | Kind::Not | Kind::Xor => 1,
        Kind::Voter => 2,
    }
}

// What a gate of this kind gives where `ones` of its `fan` children are at 1.
#[tactic(auto, using(crate::proofs::Count::kinds_give))]
pub fn gives<K: AnyKind>(kind: K, fan: usize, ones: usize) -> bool
    requires { ones ≤ fan }
    ensures { GivesBy (K.named kind) fan ones result }
{
    let kind = kind.named();
    match kind {
        Kind::Input => false,
        Kind::Not => ones % 2 == 0,
        Kind::Xor => ones % 2 == 1,
        Kind::And | Kind::Or | Kind::Voter => needed(kind, fan) <= ones,
    }
}

// Are all children of a justified gate of this kind relevant, whatever their values are? Else those with its value are.
pub fn all_relevant(kind: Kind) -> bool
    ensures { result ≡ all_relevant kind }
{
    matches!(kind, Kind::Not | Kind::Xor)
}

// Does a gate of this kind count in the size of an interest set? (F-5)
pub fn carries_weight(kind: Kind) -> bool
    ensures { result ≡ carries_weight kind }
{
    !matches!(kind, Kind::Not)
}

// How many options a gate of this kind with value v and `fan` children has.
pub fn options<K: AnyKind>(kind: K, v: bool, fan: usize) -> usize
    ensures { result ≡ option_count (K.named kind) v fan }
{
    match kind.named() {
        Kind::Input => 0,
        Kind::And => if v { 1 } else { fan },
        Kind::Or => if v { fan } else { 1 },
        Kind::Not | Kind::Xor => fan,
        Kind::Voter => 3,
    }
}

// Is child j of three in pair i: first-second, first-third, second-third? Pair i leaves out child 2 - i.
#[tactic(auto, using(crate::proofs::ByPlace::two_by_sum))]
fn in_pair(i: usize, j: usize) -> bool
    ensures { result ≡ in_pair i j }
{
    i.saturating_add(j) != 2
}

// Does option i turn child j, whose value is x?
#[tactic(auto, using(folds::proofs::Tests::bools, circuit::proofs::Values::beq_same))]
pub fn turns<K: AnyKind>(kind: K, v: bool, i: usize, j: usize, x: bool) -> bool
    ensures { result ≡ option_turns (K.named kind) v i j x }
{
    match kind.named() {
        Kind::Input => false,
        Kind::And => if v { !x } else { i == j },
        Kind::Or => if v { i == j } else { x },
        Kind::Not | Kind::Xor => i == j,
        Kind::Voter => in_pair(i, j) && x != v,
    }
}
