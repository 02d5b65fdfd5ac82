// The best of some weights.
ghost use Rattle.std.specs.Prelude.{◌≡◌, ◌<◌, ◌≤◌, length, get_or};
ghost use Rattle.picks.specs.Picks.{Least, equal_to, best_at};

use crate::nth_place;

// The smallest weight.
fn least(weights: &[u16]) -> u16
    requires { 1 ≤ length weights.now }
    ensures { Least weights.now (length weights.now) result }
{
    weights.iter().copied().min().unwrap()
}

// How many weights are w.
fn ties(weights: &[u16], w: u16) -> usize
    ensures { result ≡ length (equal_to weights.now (length weights.now) w) }
{
    weights.iter().filter(|weight| **weight == w).count()
}

// The place of number k of those that are w.
#[tactic(auto, using(crate::proofs::Places::places_equal))]
fn place(weights: &[u16], w: u16, k: usize) -> usize
    requires { k < length (equal_to weights.now (length weights.now) w) }
    ensures { (result ≡ get_or (equal_to weights.now (length weights.now) w) k 0) × (result < length weights.now) }
{
    nth_place(weights, w, k)
}

// Of the places with the smallest weight, in rising order, the one at i modulo their number.
#[tactic(auto, using(crate::proofs::Best::some_least, crate::proofs::Best::best_is))]
pub fn best(weights: &[u16], i: u8) -> usize
    requires { 1 ≤ length weights.now }
    ensures { (result ≡ best_at weights.now (length weights.now) i) × (result < length weights.now) }
{
    let low = least(weights);
    place(weights, low, usize::from(i) % ties(weights, low))
}
