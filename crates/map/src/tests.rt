// The tests 1 to 7 of a map, each over all it concerns before the next. (`g < gates` and the like are clauses, as in `decode`.)
ghost use Rattle.std.specs.Prelude.{◌≡◌, ◌+◌, ◌<◌, ◌≤◌, true, false, length, MatchOption};
ghost use Rattle.folds.specs.Folds.{all_below};
ghost use Rattle.circuit.specs.Refusal.{number_given};
ghost use Rattle.map.specs.Map.{gate_count, code_count, fan_in, fan_ins_before};
ghost use Rattle.map.specs.Check.{offsets_test, kind_test, position_test, positions_test, child_test, children_test, code_test};
ghost use Rattle.map.specs.Check.{first_failed, contents_tests, bodies_tests};
ghost use Rattle.map.specs.Inner.{ContentsOf};
ghost use Rattle.map.specs.Accepts.{IsTableOf, IsAccepted};

use super::MOST_GATES;
use super::accepted::Map;
use super::decode::{Placed, Table, child_place, word};
use circuit::Refusal;

// Test 3, by the counts of the table of contents.
#[tactic(auto, using(folds::proofs::Tests::bools), unfolding(crate::specs::Check::offsets_test))]
fn offsets_ok(bytes: &[u8], gates: usize, children: usize, codes: usize) -> bool
    requires long { 12 ≤ length bytes.now }
    requires contents { ContentsOf bytes.now gates children codes }
    ensures { result ≡ offsets_test bytes.now }
{
    let children_at = child_place(gates, 0);
    let codes_at = child_place(gates, children);
    word(bytes, 0) == 12
        && usize::from(word(bytes, 4)) == children_at
        && usize::from(word(bytes, 8)) == codes_at
        && bytes.len() == codes_at + 4 * codes
}

// Tests 1 to 3.
#[tactic(auto, using(crate::proofs::Laws::tests_by, folds::proofs::Tests::bools, crate::proofs::Laws::shaped_of), unfolding(crate::specs::Check::contents_tests))]
pub fn table(bytes: &[u8]) -> Result<Table<'_>, Refusal>
    ensures number { number_given result ≡ first_failed (contents_tests bytes.now) }
    ensures table { IsTableOf bytes.entry result }
{
    if bytes.len() < 12 {
        return Err(Refusal::ShortMap);
    }
    let gates = usize::from(word(bytes, 2));
    let children = usize::from(word(bytes, 6));
    let codes = usize::from(word(bytes, 10));
    if gates == 0 || MOST_GATES < gates {
        return Err(Refusal::GateCount);
    }
    if !offsets_ok(bytes, gates, children, codes) {
        return Err(Refusal::Offsets);
    }
    Ok(Table {
        bytes,
        gates,
        children,
        codes,
    })
}

// Test 4.
fn kinds_ok(map: Table) -> bool
    ensures { result ≡ all_below (gate_count map.entry.bytes.now) (kind_test map.entry.bytes.now) }
{
    (0..map.gates).all(|g| kinds::fits(map.kind_byte(g), map.fan_in(g)))
}

// Test 5 at gate g. The total that comes in is the sum of all fan-ins before gate g; the one that goes out, where the position is right, is the sum before gate g + 1.
#[tactic(auto, using(crate::proofs::Laws::fans_more, folds::proofs::Tests::bools), unfolding(crate::specs::Check::position_test))]
fn position_at(map: Table, g: usize, total: usize) -> Option<usize>
    requires gate { g < map.gates }
    requires total_is { total ≡ fan_ins_before map.bytes.now g }
    ensures { MatchOption result (position_test map.entry.bytes.now g ≡ false) (λ next. (position_test map.entry.bytes.now g ≡ true) × (next ≡ fan_ins_before map.entry.bytes.now (g + 1))) }
{
    if usize::from(map.first_child(g)) == total {
        Some(total + usize::from(map.fan_in(g)))
    } else {
        None
    }
}

// Test 5. One total is kept as the gates go by; after the last it must be the child count.
fn positions_ok(map: Table) -> bool
    ensures { result ≡ positions_test map.entry.bytes.now }
{
    (0..map.gates).try_fold(0, |total, g| position_at(map, g, total)) == Some(map.children)
}

// Test 6 at child j of gate g.
#[tactic(auto, using(folds::proofs::Tests::bools), unfolding(crate::specs::Check::child_test))]
fn child_ok(map: Placed, g: usize, j: usize) -> bool
    requires { (g < map.table.gates) × (j < fan_in map.table.bytes.now g) }
    ensures { result ≡ child_test map.entry.table.bytes.now g j }
{
    let x = map.child(g, j);
    usize::from(x) < g && (j == 0 || map.child(g, j - 1) < x)
}

// Test 6 at gate g.
fn children_ok(map: Placed, g: usize) -> bool
    requires { g < map.table.gates }
    ensures { result ≡ children_test map.entry.table.bytes.now g }
{
    (0..usize::from(map.table.fan_in(g))).all(|j| child_ok(map, g, j))
}

// Test 6.
fn all_children_ok(map: Placed) -> bool
    ensures { result ≡ all_below (gate_count map.entry.table.bytes.now) (children_test map.entry.table.bytes.now) }
{
    (0..map.table.gates).all(|g| children_ok(map, g))
}

// Test 7 at code r.
#[tactic(auto, using(folds::proofs::Tests::bools), unfolding(crate::specs::Check::code_test))]
fn code_ok(map: Table, r: usize) -> bool
    requires { r < map.codes }
    ensures { result ≡ code_test map.entry.bytes.now r }
{
    let x = map.code_gate(r);
    usize::from(x) < map.gates
        && (r == 0 || map.code_gate(r - 1) < x)
        && map.code_value(r) <= 1
        && map.code_zero(r) == 0
}

// Test 7.
fn codes_ok(map: Table) -> bool
    ensures { result ≡ all_below (code_count map.entry.bytes.now) (code_test map.entry.bytes.now) }
{
    (0..map.codes).all(|r| code_ok(map, r))
}

// Tests 4 to 7.
#[tactic(auto, using(crate::proofs::Laws::tests_by, crate::proofs::Laws::places_children), unfolding(crate::specs::Check::bodies_tests))]
fn bodies(map: Table) -> Result<(), Refusal>
    ensures { number_given result ≡ first_failed (bodies_tests map.entry.bytes.now) }
{
    if !kinds_ok(map) {
        return Err(Refusal::Kinds);
    }
    if !positions_ok(map) {
        return Err(Refusal::Positions);
    }
    if !all_children_ok(Placed { table: map }) {
        return Err(Refusal::Children);
    }
    if !codes_ok(map) {
        return Err(Refusal::Codes);
    }
    Ok(())
}

// Tests 1 to 7: the map, or the first that fails.
#[tactic(auto, using(crate::proofs::Facts::verdict_by))]
pub fn accept(bytes: &[u8]) -> Result<Map<'_>, Refusal>
    ensures { IsAccepted bytes.entry result }
{
    let map = table(bytes)?;
    bodies(map)?;
    Ok(Map {
        bytes,
        gates: map.gates,
        children: map.children,
        codes: map.codes,
    })
}
