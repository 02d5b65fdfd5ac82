// The static library of Check, Children, Evaluate, Mark and Export for hosts in C and Rust: each export calls the function of its name in `abi_state`, on which the other
// levels' static libraries build too, and has its clauses. (Twice, as a static library exports the functions of its own crate alone.)
#![tactic(auto)]

ghost use Rattle.std.specs.Prelude.{◌≡◌, [], ◌∷◌};
ghost use Rattle.map.specs.Check.{check_effect};
ghost use Rattle.state.specs.State.{evaluate_effect, mark_effect};
ghost use Rattle.export.specs.Export.{export_effect};
ghost use Rattle.abi_state.specs.Numbers.{host_answer, check_for_host, children_numbers, evaluate_for_host, mark_for_host, export_for_host};

// Check. Numbers: gates, inputs, children, codes.
#[unsafe(no_mangle)]
pub extern "C" fn peeriewick_check(map: &[u8], numbers: &mut [usize]) -> u8
    ensures { host_answer result [] numbers.new ≡ check_for_host (check_effect map.now) numbers.old }
{
    abi_state::peeriewick_check(map, numbers)
}

// Where in the map the children of a gate stand: its start in numbers 0, its length in bytes in numbers 1.
#[unsafe(no_mangle)]
pub extern "C" fn peeriewick_children(map: &[u8], gate: usize, numbers: &mut [usize])
    ensures { numbers.new ≡ children_numbers map.now gate numbers.old }
{
    abi_state::peeriewick_children(map, gate, numbers);
}

// Evaluate.
#[unsafe(no_mangle)]
pub extern "C" fn peeriewick_evaluate(map: &[u8], row: &[u8], out: &mut [u8]) -> u8
    ensures { host_answer result (out.new ∷ []) []
        ≡ evaluate_for_host (evaluate_effect map.now row.now out.old) }
{
    abi_state::peeriewick_evaluate(map, row, out)
}

// Mark. Numbers: 1 for yes, 0 for no.
#[unsafe(no_mangle)]
pub extern "C" fn peeriewick_mark(map: &[u8], configuration: &[u8], numbers: &mut [usize]) -> u8
    ensures { host_answer result [] numbers.new
        ≡ mark_for_host (mark_effect map.now configuration.now) numbers.old }
{
    abi_state::peeriewick_mark(map, configuration, numbers)
}

// Export. Numbers: the text's length.
#[unsafe(no_mangle)]
pub extern "C" fn peeriewick_export(map: &[u8], out: &mut [u8], numbers: &mut [usize]) -> u8
    ensures { host_answer result (out.new ∷ []) numbers.new
        ≡ export_for_host (export_effect map.now out.old) numbers.old }
{
    abi_state::peeriewick_export(map, out, numbers)
}
