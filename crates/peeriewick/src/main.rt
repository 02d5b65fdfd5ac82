// The program: reads a map, a configuration and a tape from standard input and prints the line of the run on them.
// It only reads and writes. What it hands to `write_all` is the line for all of standard input, as `line_of` says, if reads of standard input bring its bytes in order up to
// its end: no contract says that of standard input (`read_full` does of a reader whose bytes are known), and the tests see it.
#![tactic(auto)]

ghost use Rattle.std.specs.Prelude.{◌≡◌, ◌≤◌, length, take};
ghost use Rattle.line.specs.Line.{input_room, line_room, LineOfAll};

use line::{INPUT_ROOM, LINE_ROOM};
use reading::read_full;
use std::io;

// The line for standard input, of which `buf` took the first n bytes, written into the first bytes of `out`. `buf` has a byte more than an input may have: that is
// needed, and enough (`CutInput`). (With `buf` itself and not its first n bytes: how long it is belongs to what is promised.)
fn line_of<'a>(buf: &[u8], n: usize, out: &'a mut [u8]) -> &'a [u8]
    requires buf_len { (length buf.now ≡ input_room) × (n ≤ length buf.now) }
    requires line_room_in_bounds { line_room ≤ length out.old }
    ensures { LineOfAll (length buf.now) (take n buf.now) result.now }
{
    let size = line::line(&buf[..n], out);
    &out[..size]
}

// Reads into all of `buf`, and prints the line.
fn answer(rt: &(impl Input + Print), buf: &mut [u8]) -> io::Result<()>
    requires { length buf.old ≡ input_room }
{
    let n = read_full(&mut rt.reader(), buf)?;
    let mut out = [0u8; LINE_ROOM];
    rt.write_all(line_of(buf, n, &mut out))
}

fn main(rt: HostRuntime) -> io::Result<()> {
    let mut buf = [0u8; INPUT_ROOM];
    answer(&rt, &mut buf)
}
