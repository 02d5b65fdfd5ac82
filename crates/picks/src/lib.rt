// Picks from lists: the gate at a place of the front that marks show, and the best of some weights. (`k < length ..` is a clause: it is the range of an index.)
#![tactic(auto)]

ghost use Rattle.std.specs.Prelude.{◌≡◌, ◌<◌, length, get_or};
ghost use Rattle.picks.specs.Picks.{places_of};

pub mod draw;
pub mod weights;

// The place of number k of the items that equal this one. (By a count of those still to be passed: `filter` and `nth` take a jump at each such item, which makes a move a tenth longer.)
fn nth_place<T: PartialEq + Copy>(items: &[T], item: T, k: usize) -> usize
    requires { k < length (places_of T.eq items.now item) }
    ensures place { result ≡ get_or (places_of T.eq items.now item) k 0 }
    ensures within { result < length items.now }
{
    let mut left = k;
    for (i, x) in items.iter().enumerate() {
        let hit = usize::from(*x == item);
        if left < hit {
            return i;
        }
        left -= hit;
    }
    unreachable!()
}
