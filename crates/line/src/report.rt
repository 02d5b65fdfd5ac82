// The line of a run, written over the first bytes of the memory that it is lent; each function returns how many they are.
ghost use Rattle.std.specs.Prelude.{◌≡◌, ◌<◌, cond};
ghost use Rattle.circuit.specs.Run.{told};
ghost use Rattle.text.specs.Written.{Fits, Wrote};
ghost use Rattle.line.specs.Inner.{input_text};
ghost use Rattle.line.specs.Line.{row_text, counts_text, found_line, spent_line, stuck_line, refused_line, report};

use circuit::{Ending, Kind, Outcome};
use state::Values;
use text::{put_byte, put_bytes, put_decimal};

// The digit of a value, by whether it is 1.
fn digit_of(is_on: bool) -> u8
    ensures { result ≡ cond is_on 49 48 }
{
    if is_on { b'1' } else { b'0' }
}

// The digit of gate g's value, if it is an input.
fn put_input(answer: Values, g: usize, out: &mut [u8]) -> usize
    requires range { g < answer.map.gates }
    requires room { Fits (input_text answer.map.bytes.now answer.bytes.now g) out.old }
    ensures { Wrote (input_text answer.entry.map.bytes.now answer.entry.bytes.now g) out.old out.new result }
{
    if answer.map.kind(g) == Kind::Input {
        put_byte(digit_of(answer.is_on(g)), out)
    } else {
        0
    }
}

// The row: the digit of each input.
fn put_row(answer: Values, out: &mut [u8]) -> usize
    requires { Fits (row_text answer.map.bytes.now answer.bytes.now) out.old }
    ensures { Wrote (row_text answer.entry.map.bytes.now answer.entry.bytes.now) out.old out.new result }
{
    let mut at = 0;
    for g in 0..answer.map.gates {
        at += put_input(answer, g, &mut out[at..]);
    }
    at
}

// The word, moves and flips.
fn put_counts(word: &[u8], outcome: Outcome, out: &mut [u8]) -> usize
    requires { Fits (counts_text word.now outcome.moves outcome.flips) out.old }
    ensures { Wrote (counts_text word.now outcome.moves outcome.flips) out.old out.new result }
{
    let mut at = put_bytes(word, out);
    at += put_decimal(u32::from(outcome.moves), &mut out[at..]);
    at += put_byte(b' ', &mut out[at..]);
    at + put_decimal(outcome.flips, &mut out[at..])
}

// `FOUND moves flips row`
fn put_found(outcome: Outcome, answer: Values, out: &mut [u8]) -> usize
    requires { Fits (found_line outcome.moves outcome.flips answer.map.bytes.now answer.bytes.now) out.old }
    ensures { Wrote (found_line outcome.moves outcome.flips answer.entry.map.bytes.now answer.entry.bytes.now) out.old out.new result }
{
    let mut at = put_counts(b"FOUND ", outcome, out);
    at += put_byte(b' ', &mut out[at..]);
    at += put_row(answer, &mut out[at..]);
    at + put_byte(b'\n', &mut out[at..])
}

// `SPENT moves flips front`
fn put_spent(outcome: Outcome, front: u16, out: &mut [u8]) -> usize
    requires { Fits (spent_line outcome.moves outcome.flips front) out.old }
    ensures { Wrote (spent_line outcome.moves outcome.flips front) out.old out.new result }
{
    let mut at = put_counts(b"SPENT ", outcome, out);
    at += put_byte(b' ', &mut out[at..]);
    at += put_decimal(u32::from(front), &mut out[at..]);
    at + put_byte(b'\n', &mut out[at..])
}

// `STUCK moves flips`
fn put_stuck(outcome: Outcome, out: &mut [u8]) -> usize
    requires { Fits (stuck_line outcome.moves outcome.flips) out.old }
    ensures { Wrote (stuck_line outcome.moves outcome.flips) out.old out.new result }
{
    let at = put_counts(b"STUCK ", outcome, out);
    at + put_byte(b'\n', &mut out[at..])
}

// `REFUSED number` (the number itself, as the line has it: an `Option<Refusal>`, None for the program's own 0, would only be turned into it here)
pub fn put_refused(number: u8, out: &mut [u8]) -> usize
    requires { Fits (refused_line number) out.old }
    ensures { Wrote (refused_line number) out.old out.new result }
{
    let mut at = put_bytes(b"REFUSED ", out);
    at += put_decimal(u32::from(number), &mut out[at..]);
    at + put_byte(b'\n', &mut out[at..])
}

// The line of a run on an accepted map, which left this answer.
pub fn put_report(outcome: Outcome, answer: Values, out: &mut [u8]) -> usize
    requires { Fits (report (told outcome.ending) outcome.moves outcome.flips answer.map.bytes.now answer.bytes.now) out.old }
    ensures { Wrote (report (told outcome.ending) outcome.moves outcome.flips answer.entry.map.bytes.now answer.entry.bytes.now) out.old out.new result }
{
    match outcome.ending {
        Ending::Found => put_found(outcome, answer, out),
        Ending::Spent(front) => put_spent(outcome, front, out),
        Ending::Stuck => put_stuck(outcome, out),
        Ending::Refused(refusal) => put_refused(u8::from(refusal), out),
    }
}
