// Check, Children, Evaluate, Mark and Export for hosts in C and Rust, on byte slices and numbers. Each but children returns the number that it is refused with, or 0. The other numbers of
// its answer go into `numbers`, as many as there are places; a refused call leaves it as it was, like all lent memory.
#![tactic(auto)]

pub mod place;

ghost use Rattle.std.specs.Prelude.{◌≡◌, [], ◌∷◌};
ghost use Rattle.map.specs.Check.{check_effect};
ghost use Rattle.state.specs.State.{evaluate_effect, mark_effect};
ghost use Rattle.export.specs.Export.{export_effect};
ghost use Rattle.abi_state.specs.Numbers.{host_answer, check_for_host, children_numbers, evaluate_for_host, mark_for_host, export_for_host};

use place::Numbers;

// Check. Numbers: gates, inputs, children, codes.
#[tactic(auto, unfolding(map::specs::Check::check_answer))]
#[unsafe(no_mangle)]
pub extern "C" fn peeriewick_check(map: &[u8], numbers: &mut [usize]) -> u8
    ensures { host_answer result [] numbers.new ≡ check_for_host (check_effect map.now) numbers.old }
{
    let answer = map::check(map).map(|c| Numbers([c.gates, c.inputs, c.children, c.codes]));
    place::tell(numbers, answer)
}

// Where in the map the children of a gate stand: its start in numbers 0, its length in bytes in numbers 1.
#[unsafe(no_mangle)]
pub extern "C" fn peeriewick_children(map: &[u8], gate: usize, numbers: &mut [usize])
    ensures { numbers.new ≡ children_numbers map.now gate numbers.old }
{
    let part = map::stretch(map, gate);
    place::place(numbers, &[part.start, part.len()]);
}

// Evaluate. It has no numbers.
#[tactic(auto, unfolding(state::specs::State::evaluate_answer))]
#[unsafe(no_mangle)]
pub extern "C" fn peeriewick_evaluate(map: &[u8], row: &[u8], out: &mut [u8]) -> u8
    ensures { host_answer result (out.new ∷ []) []
        ≡ evaluate_for_host (evaluate_effect map.now row.now out.old) }
{
    let answer = state::evaluate(map, row, out).map(|()| Numbers([]));
    place::tell(&mut [], answer)
}

// Mark. Numbers: 1 for yes, 0 for no.
#[tactic(auto, unfolding(state::specs::State::mark_answer))]
#[unsafe(no_mangle)]
pub extern "C" fn peeriewick_mark(map: &[u8], configuration: &[u8], numbers: &mut [usize]) -> u8
    ensures { host_answer result [] numbers.new
        ≡ mark_for_host (mark_effect map.now configuration.now) numbers.old }
{
    let answer = state::mark(map, configuration).map(|yes| Numbers([usize::from(yes)]));
    place::tell(numbers, answer)
}

// Export. Numbers: the text's length.
#[tactic(auto, unfolding(export::specs::Export::export_answer))]
#[unsafe(no_mangle)]
pub extern "C" fn peeriewick_export(map: &[u8], out: &mut [u8], numbers: &mut [usize]) -> u8
    ensures { host_answer result (out.new ∷ []) numbers.new
        ≡ export_for_host (export_effect map.now out.old) numbers.old }
{
    let answer = export::export(map, out).map(|size| Numbers([size]));
    place::tell(numbers, answer)
}
