// The whole text, and Export on an accepted map.
ghost use Rattle.std.specs.Prelude.{◌≡◌};
ghost use Rattle.map.specs.Map.{gate_count, code_count};
ghost use Rattle.text.specs.Written.{Fits, Wrote};
ghost use Rattle.dimacs.specs.Dimacs.{print_head};
ghost use Rattle.export.specs.Export.{text_of, export_answer};
ghost use Rattle.export.specs.Inner.{units_text, head_rest, Measured, export_on_map};

use super::gates::put_gates;
use super::literals::{literal, put_unit};
use super::sizes::{Size, gates_size, text_size};
use circuit::Refusal;
use map::Map;
use text::{put_byte, put_bytes, put_decimal};

// The unit clauses of all codes.
fn put_units(map: Map, out: &mut [u8]) -> usize
    requires { Fits (units_text map.bytes.now (code_count map.bytes.now)) out.old }
    ensures { Wrote (units_text map.entry.bytes.now (code_count map.entry.bytes.now)) out.old out.new result }
{
    let mut at = 0;
    for r in 0..map.codes {
        let code = literal(map.code_value(r) != 1, map.code_gate(r));
        at += put_unit(code, &mut out[at..]);
    }
    at
}

// Two numbers, a blank between them, and the line's end.
fn put_numbers(variables: u32, clauses: u32, out: &mut [u8]) -> usize
    requires { Fits (head_rest variables clauses) out.old }
    ensures { Wrote (head_rest variables clauses) out.old out.new result }
{
    let mut at = put_decimal(variables, out);
    at += put_byte(b' ', &mut out[at..]);
    at += put_decimal(clauses, &mut out[at..]);
    at + put_byte(b'\n', &mut out[at..])
}

// The head: `p cnf`, the number of variables and that of clauses.
fn put_head(variables: u32, clauses: u32, out: &mut [u8]) -> usize
    requires { Fits (print_head variables clauses) out.old }
    ensures { Wrote (print_head variables clauses) out.old out.new result }
{
    let at = put_bytes(b"p cnf ", out);
    at + put_numbers(variables, clauses, &mut out[at..])
}

// The whole text, in which the gates' clauses are so many.
fn put_text(map: Map, gates: Size, out: &mut [u8]) -> usize
    requires measured { Measured map.bytes.now (gate_count map.bytes.now) gates.clauses gates.bytes }
    requires room { Fits (text_of map.bytes.now) out.old }
    ensures { Wrote (text_of map.entry.bytes.now) out.old out.new result }
{
    let mut at = put_head(map.gates as u32, (gates.clauses + map.codes) as u32, out);
    at += put_gates(map, &mut out[at..]);
    at + put_units(map, &mut out[at..])
}

// Measures the text, then test 16, then writes it.
#[tactic(auto, using(folds::proofs::Tests::bools, map::proofs::Laws::tests_by, crate::proofs::Answers::exported_by), unfolding(crate::specs::Export::text_tests, crate::specs::Inner::export_on_map))]
pub fn export_accepted(map: Map, out: &mut [u8]) -> Result<usize, Refusal>
    ensures { export_answer result out.new ≡ export_on_map map.entry.bytes.now out.old }
{
    let gates = gates_size(map);
    if out.len() < text_size(map, gates) {
        return Err(Refusal::ShortText);
    }
    Ok(put_text(map, gates, out))
}
