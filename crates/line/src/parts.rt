// The parts of an input, and the line of the run on them, written into memory that holds any line.
ghost use Rattle.std.specs.Prelude.{◌≡◌, ◌≤◌, IfSome, is_some, length};
ghost use Rattle.text.specs.Written.{Wrote};
ghost use Rattle.line.specs.Line.{most_input, run_line, map_part, configuration_part, tape_part, input_test, line_of, line_room};

use super::MOST_INPUT;
use super::report::{put_refused, put_report};
use map::{MOST_GATES, word};
use state::Values;

// Runs, with work and answer memory for every map, and writes the line.
#[tactic(auto, using(text::proofs::Written::wrote_as, crate::proofs::Lines::accepted_line, crate::proofs::Lines::refused_run, crate::proofs::Fits::report_fits, crate::proofs::Fits::refused_fits))]
fn put_run(map: &[u8], configuration: &mut [u8], tape: &[u8], out: &mut [u8]) -> usize
    requires { line_room ≤ length out.old }
    ensures { Wrote (run_line map.now configuration.old tape.now) out.old out.new result }
{
    let mut work = [0u8; MOST_GATES];
    let mut answer = [0u8; MOST_GATES];
    match map::accept(map) {
        Ok(accepted) => {
            let outcome = search::run_accepted(
                accepted,
                configuration,
                tape,
                &mut work,
                &mut answer,
            );
            let values = Values {
                map: accepted,
                bytes: &answer,
            };
            put_report(outcome, values, out)
        }
        Err(refusal) => put_refused(u8::from(refusal), out),
    }
}

// The same on a copy of the configuration, which a run changes.
fn put_run_on_copy(map: &[u8], configuration: &[u8], tape: &[u8], out: &mut [u8]) -> usize
    requires short { length configuration.now ≤ most_input }
    requires room { line_room ≤ length out.old }
    ensures { Wrote (run_line map.now configuration.now tape.now) out.old out.new result }
{
    let mut space = [0u8; MOST_INPUT];
    let copy = &mut space[..configuration.len()];
    copy.copy_from_slice(configuration);
    put_run(map, copy, tape, out)
}

// The parts of an input.
#[derive(Clone, Copy, Debug, PartialEq, Eq)]
struct Parts<'a> {
    map: &'a [u8],
    configuration: &'a [u8],
    tape: &'a [u8],
}

// The parts of an input, where it is exactly these and not too long.
#[tactic(auto, using(folds::proofs::Tests::and_both, folds::proofs::Tests::and_first_false, folds::proofs::Tests::and_second_false), unfolding(crate::specs::Line::input_test))]
fn parts_of(input: &[u8]) -> Option<Parts>
    ensures whole { is_some result ≡ input_test input.now }
    ensures parts { IfSome result (λ p. (p.map.now ≡ map_part input.now) × ((p.configuration.now ≡ configuration_part input.now) × (p.tape.now ≡ tape_part input.now))) }
{
    if MOST_INPUT < input.len() {
        return None;
    }
    if input.len() < 6 {
        return None;
    }
    let a = 6 + usize::from(word(input, 0));
    let b = a + usize::from(word(input, 2));
    if input.len() != b + usize::from(word(input, 4)) {
        return None;
    }
    Some(Parts {
        map: &input[6..a],
        configuration: &input[a..b],
        tape: &input[b..],
    })
}

// Writes the line for an input.
#[tactic(auto, using(text::proofs::Written::wrote_as, crate::proofs::Fits::refused_fits, crate::proofs::Lines::line_refused, crate::proofs::Lines::line_runs, crate::proofs::Lines::configuration_fits))]
pub fn put_line(input: &[u8], out: &mut [u8]) -> usize
    requires { line_room ≤ length out.old }
    ensures { Wrote (line_of input.now) out.old out.new result }
{
    let Some(parts) = parts_of(input) else {
        return put_refused(0, out);
    };
    put_run_on_copy(parts.map, parts.configuration, parts.tape, out)
}
