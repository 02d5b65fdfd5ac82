// Survey for hosts in C and Rust, as `abi_state` has its calls.
#![tactic(auto)]

ghost use Rattle.std.specs.Prelude.{◌≡◌, [], ◌∷◌};
ghost use Rattle.survey.specs.Survey.{survey_effect};
ghost use Rattle.abi_state.specs.Numbers.{host_answer};
ghost use Rattle.abi_survey.specs.Numbers.{survey_for_host};

use abi_state::place::{self, Numbers};

// Survey. Numbers: front, interest.
#[tactic(auto, unfolding(survey::specs::Survey::survey_answer))]
#[unsafe(no_mangle)]
pub extern "C" fn peeriewick_survey(
    map: &[u8],
    configuration: &[u8],
    out: &mut [u8],
    numbers: &mut [usize],
) -> u8
    ensures { host_answer result (out.new ∷ []) numbers.new
        ≡ survey_for_host (survey_effect map.now configuration.now out.old) numbers.old }
{
    let surveyed = survey::survey(map, configuration, out);
    let answer = surveyed.map(|s| Numbers([usize::from(s.front), usize::from(s.interest)]));
    place::tell(numbers, answer)
}
