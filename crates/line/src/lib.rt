// The program's line: what is to be printed for the bytes of standard input.
#![tactic(auto)]

mod parts;
mod report;

ghost use Rattle.std.specs.Prelude.{◌≡◌, ◌≤◌, length};
ghost use Rattle.line.specs.Line.{line_answer, line_effect};

// The longest input that the program takes.
pub const MOST_INPUT: usize = 65536;

// Memory for standard input: one byte more than an input may have tells that it is too long (`CutInput` in specs/Line.antt).
pub const INPUT_ROOM: usize = MOST_INPUT + 1;

// Memory that holds every line (`LineFits` in specs/Line.antt).
pub const LINE_ROOM: usize = 1100;

// Writes the line for an input into the first bytes of `out` and returns how many they are. `LINE_ROOM` bytes hold any line: with less it writes nothing and
// returns 0. (No `Option`: the result is how many bytes were written, and 0 is that too. And no slice of `out`: all of `out` is promised, and memory from which a result borrows has no `out.new`.)
#[tactic(auto, using(crate::proofs::Lines::prints, crate::proofs::Lines::prints_nothing, crate::proofs::Fits::line_inside))]
pub fn line(input: &[u8], out: &mut [u8]) -> usize
    ensures out_after { line_answer result out.new ≡ line_effect input.now out.old }
    ensures upper_bound { result ≤ length out.old }
{
    if out.len() < LINE_ROOM {
        return 0;
    }
    parts::put_line(input, out)
}
