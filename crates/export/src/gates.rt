// The clauses of gates, each written over the first bytes of the memory that it is lent; each function returns how many they are.
ghost use Rattle.std.specs.Prelude.{◌≡◌, ◌++◌};
ghost use Rattle.map.specs.Map.{gate_count, fan_in};
ghost use Rattle.text.specs.Written.{Fits, Wrote};
ghost use Rattle.export.specs.Inner.{clause_end, each_text, kids_text, wide_text, pairs_text, not_text, and_text, or_text, parity_text, xor_text, voter_text, gate_text, gates_text};

use super::literals::{at_0_and_1, literal, put_end, put_item, put_three, put_two};
use circuit::Kind;
use map::{Gate, Map};

// Clauses of two literals: the gate's, negated or not, and one of each child, the other way round.
fn put_each(gate: Gate, negated: bool, out: &mut [u8]) -> usize
    requires { Fits (each_text gate.map.bytes.now gate.number negated (fan_in gate.map.bytes.now gate.number)) out.old }
    ensures { Wrote (each_text gate.entry.map.bytes.now gate.entry.number negated (fan_in gate.entry.map.bytes.now gate.entry.number)) out.old out.new result }
{
    let mut at = 0;
    for j in 0..gate.fan() {
        let own = literal(negated, gate.number);
        let kid = literal(!negated, gate.kid(j));
        at += put_two(own, kid, &mut out[at..]);
    }
    at
}

// The literals of all children, the other way round than the gate's, and the clause's end.
fn put_kids(gate: Gate, negated: bool, out: &mut [u8]) -> usize
    requires { Fits (kids_text gate.map.bytes.now gate.number negated (fan_in gate.map.bytes.now gate.number) ++ clause_end) out.old }
    ensures { Wrote (kids_text gate.entry.map.bytes.now gate.entry.number negated (fan_in gate.entry.map.bytes.now gate.entry.number) ++ clause_end) out.old out.new result }
{
    let mut at = 0;
    for j in 0..gate.fan() {
        at += put_item(literal(!negated, gate.kid(j)), &mut out[at..]);
    }
    at + put_end(&mut out[at..])
}

// One clause: the gate's literal, negated or not, and one of each child, the other way round.
fn put_wide(gate: Gate, negated: bool, out: &mut [u8]) -> usize
    requires { Fits (wide_text gate.map.bytes.now gate.number negated) out.old }
    ensures { Wrote (wide_text gate.entry.map.bytes.now gate.entry.number negated) out.old out.new result }
{
    let at = put_item(literal(negated, gate.number), out);
    at + put_kids(gate, negated, &mut out[at..])
}

// The clauses of a NOT.
fn put_not(gate: Gate, out: &mut [u8]) -> usize
    requires one { fan_in gate.map.bytes.now gate.number ≡ 1 }
    requires room { Fits (not_text gate.map.bytes.now gate.number) out.old }
    ensures { Wrote (not_text gate.entry.map.bytes.now gate.entry.number) out.old out.new result }
{
    let (g0, g1) = at_0_and_1(gate.number);
    let (a0, a1) = at_0_and_1(gate.kid(0));
    let at = put_two(g0, a0, out);
    at + put_two(g1, a1, &mut out[at..])
}

// Of an AND.
fn put_and(gate: Gate, out: &mut [u8]) -> usize
    requires { Fits (and_text gate.map.bytes.now gate.number) out.old }
    ensures { Wrote (and_text gate.entry.map.bytes.now gate.entry.number) out.old out.new result }
{
    let at = put_each(gate, true, out);
    at + put_wide(gate, false, &mut out[at..])
}

// Of an OR.
fn put_or(gate: Gate, out: &mut [u8]) -> usize
    requires { Fits (or_text gate.map.bytes.now gate.number) out.old }
    ensures { Wrote (or_text gate.entry.map.bytes.now gate.entry.number) out.old out.new result }
{
    let at = put_wide(gate, true, out);
    at + put_each(gate, false, &mut out[at..])
}

// The clauses of an XOR in which it is negated or not.
fn put_parity(gate: Gate, negated: bool, out: &mut [u8]) -> usize
    requires two { fan_in gate.map.bytes.now gate.number ≡ 2 }
    requires room { Fits (parity_text gate.map.bytes.now gate.number negated) out.old }
    ensures { Wrote (parity_text gate.entry.map.bytes.now gate.entry.number negated) out.old out.new result }
{
    let own = literal(negated, gate.number);
    let (a0, a1) = at_0_and_1(gate.kid(0));
    let b = gate.kid(1);
    let at = put_three(own, a1, literal(!negated, b), out);
    at + put_three(own, a0, literal(negated, b), &mut out[at..])
}

// All of an XOR.
fn put_xor(gate: Gate, out: &mut [u8]) -> usize
    requires two { fan_in gate.map.bytes.now gate.number ≡ 2 }
    requires room { Fits (xor_text gate.map.bytes.now gate.number) out.old }
    ensures { Wrote (xor_text gate.entry.map.bytes.now gate.entry.number) out.old out.new result }
{
    let at = put_parity(gate, true, out);
    at + put_parity(gate, false, &mut out[at..])
}

// Clauses of three literals: a voter's, negated or not, and those of a pair of its children, the other way round.
fn put_pairs(gate: Gate, negated: bool, out: &mut [u8]) -> usize
    requires three { fan_in gate.map.bytes.now gate.number ≡ 3 }
    requires room { Fits (pairs_text gate.map.bytes.now gate.number negated) out.old }
    ensures { Wrote (pairs_text gate.entry.map.bytes.now gate.entry.number negated) out.old out.new result }
{
    let own = literal(negated, gate.number);
    let first = literal(!negated, gate.kid(0));
    let second = literal(!negated, gate.kid(1));
    let third = literal(!negated, gate.kid(2));
    let mut at = put_three(own, first, second, out);
    at += put_three(own, first, third, &mut out[at..]);
    at + put_three(own, second, third, &mut out[at..])
}

// The clauses of a voter.
fn put_voter(gate: Gate, out: &mut [u8]) -> usize
    requires three { fan_in gate.map.bytes.now gate.number ≡ 3 }
    requires room { Fits (voter_text gate.map.bytes.now gate.number) out.old }
    ensures { Wrote (voter_text gate.entry.map.bytes.now gate.entry.number) out.old out.new result }
{
    let at = put_pairs(gate, true, out);
    at + put_pairs(gate, false, &mut out[at..])
}

// Of any gate.
fn put_gate(gate: Gate, out: &mut [u8]) -> usize
    requires { Fits (gate_text gate.map.bytes.now gate.number) out.old }
    ensures { Wrote (gate_text gate.entry.map.bytes.now gate.entry.number) out.old out.new result }
{
    match gate.kind {
        Kind::Input => 0,
        Kind::Not => put_not(gate, out),
        Kind::And => put_and(gate, out),
        Kind::Or => put_or(gate, out),
        Kind::Xor => put_xor(gate, out),
        Kind::Voter => put_voter(gate, out),
    }
}

// Of all gates.
pub fn put_gates(map: Map, out: &mut [u8]) -> usize
    requires { Fits (gates_text map.bytes.now (gate_count map.bytes.now)) out.old }
    ensures { Wrote (gates_text map.entry.bytes.now (gate_count map.entry.bytes.now)) out.old out.new result }
{
    let mut at = 0;
    for g in 0..map.gates {
        at += put_gate(map.gate(g), &mut out[at..]);
    }
    at
}
