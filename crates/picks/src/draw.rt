// The gate that an entry draws.
ghost use Rattle.std.specs.Prelude.{◌≡◌, ◌<◌, ◌≤◌, ◌%◌, length, get_or};
ghost use Rattle.picks.specs.Picks.{front_by};

use crate::nth_place;

// A draw's place in a front of this size.
pub fn place(draw: u16, front: u16) -> usize
    requires { 1 ≤ front }
    ensures { (result ≡ draw % front) × (result < front) }
{
    usize::from(draw % front)
}

// The gate at place k of the front, which the marks show.
#[tactic(auto, using(crate::proofs::Places::places_front))]
pub fn drawn(marks: &[u8], k: usize) -> usize
    requires { k < length (front_by marks.now) }
    ensures { (result ≡ get_or (front_by marks.now) k 0) × (result < length marks.now) }
{
    nth_place(marks, 3, k)
}
