// A map as DIMACS CNF: Export.
#![tactic(auto)]

mod gates;
mod literals;
mod sizes;
mod whole;

ghost use Rattle.std.specs.Prelude.{◌≡◌};
ghost use Rattle.export.specs.Export.{export_answer, export_effect};

use circuit::Refusal;

// Memory that holds every text (`TextFits` in specs/Export.antt).
pub const MOST_TEXT: usize = 141_716;

// Writes the text into the first bytes of `out`, and returns how many they are.
#[tactic(auto, using(crate::proofs::Answers::exported))]
pub fn export(map: &[u8], out: &mut [u8]) -> Result<usize, Refusal>
    ensures { export_answer result out.new ≡ export_effect map.now out.old }
{
    let accepted = map::accept(map)?;
    whole::export_accepted(accepted, out)
}
