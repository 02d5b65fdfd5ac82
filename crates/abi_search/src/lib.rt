// Move and Run for hosts in C and Rust, as `abi_state` has its calls. (A u32 becomes a usize by `as`: there is no `From` for it, and a `try_from` would have a failure to rule out.)
#![tactic(auto)]

ghost use Rattle.std.specs.Prelude.{◌≡◌, [], ◌∷◌};
ghost use Rattle.search.specs.Move.{move_effect};
ghost use Rattle.search.specs.Run.{run_effect};
ghost use Rattle.abi_state.specs.Numbers.{host_answer};
ghost use Rattle.abi_search.specs.Numbers.{move_for_host, run_for_host};

use abi_state::place::{self, Numbers};
use circuit::Ending;

// Move. Numbers: the drawn gate, how many values it turned: 0 where it is stuck.
#[tactic(auto, unfolding(search::specs::Move::move_answer))]
#[unsafe(no_mangle)]
pub extern "C" fn peeriewick_move(
    map: &[u8],
    configuration: &mut [u8],
    entry: &[u8],
    work: &mut [u8],
    numbers: &mut [usize],
) -> u8
    ensures { host_answer result (configuration.new ∷ work.new ∷ []) numbers.new
        ≡ move_for_host (move_effect map.now configuration.old entry.now work.old)
        numbers.old }
{
    let moved = search::make_move(map, configuration, entry, work);
    let answer = moved.map(|r| Numbers([r.gate, r.turned as usize]));
    place::tell(numbers, answer)
}

// Run. Numbers: 1 for Found, 2 for Stuck and 0 for Spent (numbers, as the C interface has all answers), moves, flips, the front's size.
#[tactic(auto, unfolding(search::specs::Run::run_answer))]
#[unsafe(no_mangle)]
pub extern "C" fn peeriewick_run(
    map: &[u8],
    configuration: &mut [u8],
    tape: &[u8],
    work: &mut [u8],
    answer: &mut [u8],
    numbers: &mut [usize],
) -> u8
    ensures { host_answer result (configuration.new ∷ work.new ∷ answer.new ∷ []) numbers.new
        ≡ run_for_host (run_effect map.now configuration.old tape.now work.old answer.old)
        numbers.old }
{
    let outcome = search::run(map, configuration, tape, work, answer);
    let moves = usize::from(outcome.moves);
    let flips = outcome.flips as usize;
    let told = match outcome.ending {
        Ending::Refused(refusal) => Err(refusal),
        Ending::Found => Ok(Numbers([1, moves, flips, 0])),
        Ending::Stuck => Ok(Numbers([2, moves, flips, 0])),
        Ending::Spent(front) => Ok(Numbers([0, moves, flips, usize::from(front)])),
    };
    place::tell(numbers, told)
}
