// Numbers of an answer, put where the host wants them.
ghost use Rattle.std.specs.Prelude.{◌≡◌, set, MatchResult};
ghost use Rattle.circuit.specs.Refusal.{number_of};
ghost use Rattle.abi_state.specs.Numbers.{placed};

use circuit::Refusal;

// The numbers of an accepted call's answer. (A type of its own, as the check infers no contract of a closure that makes a bare array.)
#[derive(Clone, Copy, Debug, PartialEq, Eq)]
pub struct Numbers<const N: usize>(pub [usize; N]);

// Puts x at place i, if there is one.
fn put(numbers: &mut [usize], i: usize, x: usize)
    ensures { numbers.new ≡ set numbers.old i x }
{
    if i < numbers.len() {
        numbers[i] = x;
    }
}

// Puts the numbers of an answer into the first places, as many as there are. (One by one: `copy_from_slice` asks the C library for memcpy, and
// the archives ask it for memset alone.)
#[tactic(auto, using(crate::proofs::Places::placed_none, crate::proofs::Places::placed_next))]
pub fn place(numbers: &mut [usize], answer: &[usize])
    ensures { numbers.new ≡ placed answer.now numbers.old }
{
    for (i, number) in answer.iter().enumerate() {
        put(numbers, i, *number);
    }
}

// Tells a host the answer of a call: puts its numbers where they belong and returns 0, or returns the number that the call is refused with.
pub fn tell<const N: usize>(numbers: &mut [usize], answer: Result<Numbers<N>, Refusal>) -> u8
    ensures { MatchResult answer.entry
        (λ xs. (result ≡ 0) × (numbers.new ≡ placed xs.0 numbers.old))
        (λ refusal. (result ≡ number_of refusal) × (numbers.new ≡ numbers.old)) }
{
    match answer {
        Ok(answer) => {
            place(numbers, &answer.0);
            0
        }
        Err(refusal) => u8::from(refusal),
    }
}
