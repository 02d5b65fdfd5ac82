// Runs framed cases from standard input through Check, Children, Evaluate, Mark, Survey, Export, Move, Run and the program's line, and prints a line for each.
// A case: an op byte, three u16 (the lengths of the map, of the body and of the output memory), for Move, Run and the program a u32 (the length of the
// tape), for the last two also two u16 (how often the tape is repeated, and the length of the answer memory), the map, the body, the tape.
#![tactic(auto)]

ghost use Rattle.std.specs.Prelude.{◌≤◌, ◌<◌, IfSome, length};

use arrayvec::ArrayVec;
use circuit::{Ending, Outcome, Refusal};
use line::LINE_ROOM;
use map::word;
use reading::read_full;
use std::io;
use std::io::Write;

// What a case runs.
#[derive(Clone, Copy, Debug, PartialEq, Eq)]
enum Op {
    Check,
    Children,
    Evaluate,
    Mark,
    Survey,
    Export,
    Move,
    Run,
    Program,
}

// By the op byte: any that is no other's is Mark.
impl From<u8> for Op {
    fn from(byte: u8) -> Op {
        match byte {
            b'c' => Op::Check,
            b'k' => Op::Children,
            b'e' => Op::Evaluate,
            b's' => Op::Survey,
            b'x' => Op::Export,
            b'v' => Op::Move,
            b'r' => Op::Run,
            b'p' => Op::Program,
            _ => Op::Mark,
        }
    }
}

// A case, with the lengths that it gives to the output or work memory and to the answer memory.
#[derive(Clone, Copy, Debug, PartialEq, Eq)]
struct Case<'a> {
    op: Op,
    map: &'a [u8],
    body: &'a [u8],
    tape: &'a [u8],
    room: usize,
    times: usize,
    answer: usize,
}

// Memory to lend: every byte is 170.
const LENT: [u8; 2048] = [170; 2048];

// So much of the memory as a case asks for.
fn lent(memory: &mut [u8; 2048], room: usize) -> &mut [u8] {
    let end = room.min(memory.len());
    &mut memory[..end]
}

// A configuration, a tape or an input: more bytes than any may have. (One that doesn't fit is refused for its length all the same.)
type Bytes = ArrayVec<u8, 65540>;

// A word, and numbers behind it. (One function for all: where `print!` is inlined its buffer of some 2.5 KB lies on the stack beside the memory of every other case.)
fn print_numbers(rt: &impl Print, word: &[u8], numbers: &[usize]) -> io::Result<()> {
    rt.write_all(word)?;
    for number in numbers {
        print!(rt; " {number}")?;
    }
    Ok(())
}

// (By hand, as `print_outcome`.)
fn print_refused(rt: &impl Print, refusal: Refusal) -> io::Result<()> {
    print!(rt; "REFUSED {}", u8::from(refusal))
}

// In hexadecimal behind a blank, or nothing where there are no bytes.
fn print_memory(rt: &impl Print, bytes: &[u8]) -> io::Result<()> {
    if bytes.is_empty() {
        return Ok(());
    }
    rt.write_all(b" ")?;
    for b in bytes {
        print!(rt; "{b:02x}")?;
    }
    Ok(())
}

// The same, with a dash where there are none.
fn print_configuration(rt: &impl Print, configuration: &[u8]) -> io::Result<()> {
    if configuration.is_empty() {
        return rt.write_all(b" -");
    }
    print_memory(rt, configuration)
}

fn check(rt: &impl Print, map: &[u8]) -> io::Result<()> {
    match map::check(map) {
        Ok(counts) => {
            let numbers = [counts.gates, counts.inputs, counts.children, counts.codes];
            print_numbers(rt, b"OK", &numbers)
        }
        Err(refusal) => print_refused(rt, refusal),
    }
}

fn children(rt: &impl Print, map: &[u8], body: &[u8]) -> io::Result<()> {
    rt.write_all(b"CHILDREN")?;
    if body.len() < 2 {
        return Ok(());
    }
    for child in map::children(map, usize::from(word(body, 0))).chunks_exact(2) {
        print!(rt; " {}", word(child, 0))?;
    }
    Ok(())
}

fn evaluate(rt: &impl Print, case: Case) -> io::Result<()> {
    let mut memory = LENT;
    let out = lent(&mut memory, case.room);
    match state::evaluate(case.map, case.body, out) {
        Ok(()) => rt.write_all(b"DONE"),
        Err(refusal) => print_refused(rt, refusal),
    }?;
    print_memory(rt, out)
}

fn mark(rt: &impl Print, map: &[u8], configuration: &[u8]) -> io::Result<()> {
    match state::mark(map, configuration) {
        Ok(true) => rt.write_all(b"YES"),
        Ok(false) => rt.write_all(b"NO"),
        Err(refusal) => print_refused(rt, refusal),
    }
}

fn survey(rt: &impl Print, case: Case) -> io::Result<()> {
    let mut memory = LENT;
    let out = lent(&mut memory, case.room);
    match survey::survey(case.map, case.body, out) {
        Ok(sizes) => print_numbers(
            rt,
            b"SIZES",
            &[usize::from(sizes.front), usize::from(sizes.interest)],
        ),
        Err(refusal) => print_refused(rt, refusal),
    }?;
    print_memory(rt, out)
}

// (Not inlined: what it needs of the stack would lie beside the memory of every other case.)
#[inline(never)]
fn export(rt: &impl Print, case: Case) -> io::Result<()> {
    let mut memory = LENT;
    let out = lent(&mut memory, case.room);
    match export::export(case.map, out) {
        Ok(size) => print_numbers(rt, b"TEXT", &[size]),
        Err(refusal) => print_refused(rt, refusal),
    }?;
    print_memory(rt, out)
}

fn make_move(
    rt: &impl Print,
    map: &[u8],
    configuration: &mut [u8],
    tape: &[u8],
    work: &mut [u8],
) -> io::Result<()> {
    match search::make_move(map, configuration, tape, work) {
        Ok(turn) => print_numbers(rt, b"MOVED", &[turn.gate, turn.turned as usize]),
        Err(refusal) => print_refused(rt, refusal),
    }?;
    print_configuration(rt, configuration)?;
    print_memory(rt, work)
}

// (By hand and no `Display`: it would serve this function alone, as `line` doesn't print by `write!`, whose contract lets it fail.)
fn print_outcome(rt: &impl Print, outcome: Outcome) -> io::Result<()> {
    let moves = usize::from(outcome.moves);
    let flips = outcome.flips as usize;
    match outcome.ending {
        Ending::Found => print_numbers(rt, b"FOUND", &[moves, flips]),
        Ending::Spent(front) => print_numbers(rt, b"SPENT", &[moves, flips, usize::from(front)]),
        Ending::Stuck => print_numbers(rt, b"STUCK", &[moves, flips]),
        Ending::Refused(refusal) => print_refused(rt, refusal),
    }
}

fn run(
    rt: &impl Print,
    map: &[u8],
    configuration: &mut [u8],
    tape: &[u8],
    work: &mut [u8],
    answer: &mut [u8],
) -> io::Result<()> {
    print_outcome(rt, search::run(map, configuration, tape, work, answer))?;
    print_configuration(rt, configuration)?;
    print_configuration(rt, work)?;
    print_configuration(rt, answer)
}

// Without its line end, which every case gets.
fn program(rt: &impl Print, input: &[u8]) -> io::Result<()> {
    let mut out = [0u8; LINE_ROOM];
    let n = line::line(input, &mut out);
    if n > 0 {
        rt.write_all(&out[..n - 1])?;
    }
    Ok(())
}

// Appends what fits of these bytes.
fn append(bytes: &[u8], to: &mut Bytes) -> io::Result<()> {
    let _taken = to.write(bytes)?;
    Ok(())
}

// The same so many times over.
fn repeat(bytes: &[u8], times: usize, to: &mut Bytes) -> io::Result<()> {
    for _ in 0..times {
        append(bytes, to)?;
    }
    Ok(())
}

// Move on a copy of the configuration, which it changes.
fn move_case(rt: &impl Print, case: Case) -> io::Result<()> {
    let mut configuration = Bytes::new();
    append(case.body, &mut configuration)?;
    let mut memory = LENT;
    let work = lent(&mut memory, case.room);
    make_move(rt, case.map, &mut configuration, case.tape, work)
}

// The same for Run, on the repeated tape.
fn run_case(rt: &impl Print, case: Case) -> io::Result<()> {
    let mut configuration = Bytes::new();
    append(case.body, &mut configuration)?;
    let mut tape = Bytes::new();
    repeat(case.tape, case.times, &mut tape)?;
    let mut work_memory = LENT;
    let mut answer_memory = LENT;
    let work = lent(&mut work_memory, case.room);
    let answer = lent(&mut answer_memory, case.answer);
    run(rt, case.map, &mut configuration, &tape, work, answer)
}

// The program on an input of the case's parts one behind the other.
fn program_case(rt: &impl Print, case: Case) -> io::Result<()> {
    let mut input = Bytes::new();
    append(case.map, &mut input)?;
    append(case.body, &mut input)?;
    repeat(case.tape, case.times, &mut input)?;
    program(rt, &input)
}

// Runs a case and ends its line. (A `match`: each case lends other memory, made only where it is lent, and closures would be a table of functions.)
fn one_case(rt: &impl Print, case: Case) -> io::Result<()> {
    match case.op {
        Op::Check => check(rt, case.map),
        Op::Children => children(rt, case.map, case.body),
        Op::Evaluate => evaluate(rt, case),
        Op::Mark => mark(rt, case.map, case.body),
        Op::Survey => survey(rt, case),
        Op::Export => export(rt, case),
        Op::Move => move_case(rt, case),
        Op::Run => run_case(rt, case),
        Op::Program => program_case(rt, case),
    }?;
    rt.write_all(b"\n")
}

// The length of a case's header.
fn header_length(op: Op) -> usize
    ensures { (7 ≤ result) × (result ≤ 15) }
{
    match op {
        Op::Move => 11,
        Op::Run | Op::Program => 15,
        _ => 7,
    }
}

// The u16 at a place of the header, if the header reaches so far. (What a header lacks counts as 0.)
fn field(header: &[u8], at: usize) -> Option<u16>
    requires { at ≤ 65536 }
{
    let bytes = header.get(at..at + 2)?;
    Some(word(bytes, 0))
}

// The case that stands first, if it is whole, and what is behind it.
fn first_case(s: &[u8]) -> Option<(Case, &[u8])>
    ensures { IfSome result (λ p. length p.1.now < length s.now) }
{
    if s.len() < 7 {
        return None;
    }
    let op = Op::from(s[0]);
    let head = header_length(op);
    if s.len() < head {
        return None;
    }
    let header = &s[..head];
    let body = head + usize::from(word(header, 1));
    let tape = body + usize::from(word(header, 3));
    let end = tape
        + usize::from(field(header, 7).unwrap_or(0))
        + 65536 * usize::from(field(header, 9).unwrap_or(0));
    if s.len() < end {
        return None;
    }
    let case = Case {
        op,
        map: &s[head..body],
        body: &s[body..tape],
        tape: &s[tape..end],
        room: usize::from(word(header, 5)),
        times: usize::from(field(header, 11).unwrap_or(0)),
        answer: usize::from(field(header, 13).unwrap_or(0)),
    };
    Some((case, &s[end..]))
}

fn all_cases(rt: &impl Print, s: &[u8]) -> io::Result<()> {
    let mut rest = s;
    while let Some((case, behind)) = first_case(rest) {
        one_case(rt, case)?;
        rest = behind;
    }
    Ok(())
}

// Reads into `buf`, and runs the cases that it holds.
fn answer(rt: &(impl Input + Print), buf: &mut [u8]) -> io::Result<()> {
    let n = read_full(&mut rt.reader(), buf)?;
    all_cases(rt, &buf[..n])
}

fn main(rt: HostRuntime) -> io::Result<()> {
    let mut buf = [0u8; 524288];
    answer(&rt, &mut buf)
}
