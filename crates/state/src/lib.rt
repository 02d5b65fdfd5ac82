// States of a map: Evaluate and Mark.
#![tactic(auto)]

pub mod gates;
pub mod marking;
pub mod values;

ghost use Rattle.std.specs.Prelude.{◌≡◌};
ghost use Rattle.state.specs.State.{evaluate_answer, evaluate_effect, mark_answer, mark_effect};

use circuit::Refusal;
pub use gates::Values;

// Writes the value of every gate into the first bytes of `out`.
#[tactic(auto, using(crate::proofs::Answers::evaluated))]
pub fn evaluate(map: &[u8], row: &[u8], out: &mut [u8]) -> Result<(), Refusal>
    ensures { evaluate_answer result out.new ≡ evaluate_effect map.now row.now out.old }
{
    let accepted = map::accept(map)?;
    values::evaluate_accepted(accepted, row, out)
}

// Does every gate that isn't an input have the value its children give, and every coded gate its code?
#[tactic(auto, using(crate::proofs::Answers::marked))]
pub fn mark(map: &[u8], configuration: &[u8]) -> Result<bool, Refusal>
    ensures { mark_answer result ≡ mark_effect map.now configuration.now }
{
    let accepted = map::accept(map)?;
    marking::mark_accepted(accepted, configuration)
}
