// Literals and short clauses, each written over the first bytes of the memory that it is lent; each function returns how many they are.
ghost use Rattle.std.specs.Prelude.{◌≡◌, [], ◌∷◌, ◌++◌, ◌<◌};
ghost use Rattle.map.specs.Map.{most_gates};
ghost use Rattle.text.specs.Text.{blank, in_decimal};
ghost use Rattle.text.specs.Written.{Fits, Wrote};
ghost use Rattle.dimacs.specs.Clauses.{at_0, at_1};
ghost use Rattle.dimacs.specs.Dimacs.{print_item, print_clause};
ghost use Rattle.export.specs.Inner.{literal, clause_end};

use dimacs::Literal;
use text::{put_byte, put_decimal};

// The literal of gate g at 0, negated, or at 1.
pub fn literal(negated: bool, g: usize) -> Literal
    requires { g < most_gates }
    ensures { result ≡ literal negated g }
{
    let variable = g as u32 + 1;
    if negated {
        Literal::Negated(variable)
    } else {
        Literal::Plain(variable)
    }
}

// Both.
pub fn at_0_and_1(g: usize) -> (Literal, Literal)
    requires { g < most_gates }
    ensures { (result.0 ≡ at_0 g) × (result.1 ≡ at_1 g) }
{
    (literal(true, g), literal(false, g))
}

// A number and a blank.
#[tactic(auto, using(text::proofs::Written::wrote_next))]
fn put_number(n: u32, out: &mut [u8]) -> usize
    requires { Fits (in_decimal n ++ blank) out.old }
    ensures { Wrote (in_decimal n ++ blank) out.old out.new result }
{
    let at = put_decimal(n, out);
    at + put_byte(b' ', &mut out[at..])
}

// A literal and a blank.
#[tactic(auto, using(text::proofs::Written::wrote_next))]
pub fn put_item(literal: Literal, out: &mut [u8]) -> usize
    requires { Fits (print_item literal) out.old }
    ensures { Wrote (print_item literal) out.old out.new result }
{
    match literal {
        Literal::Plain(variable) => put_number(variable, out),
        Literal::Negated(variable) => {
            let at = put_byte(b'-', out);
            at + put_number(variable, &mut out[at..])
        }
    }
}

// The end of a clause.
#[tactic(auto, using(text::proofs::Written::wrote_next))]
pub fn put_end(out: &mut [u8]) -> usize
    requires { Fits clause_end out.old }
    ensures { Wrote clause_end out.old out.new result }
{
    let at = put_byte(b'0', out);
    at + put_byte(b'\n', &mut out[at..])
}

// A clause of one literal.
#[tactic(auto, using(text::proofs::Written::wrote_next))]
pub fn put_unit(literal: Literal, out: &mut [u8]) -> usize
    requires { Fits (print_clause (literal ∷ [])) out.old }
    ensures { Wrote (print_clause (literal ∷ [])) out.old out.new result }
{
    let at = put_item(literal, out);
    at + put_end(&mut out[at..])
}

// Of two.
#[tactic(auto, using(text::proofs::Written::wrote_next))]
pub fn put_two(first: Literal, second: Literal, out: &mut [u8]) -> usize
    requires { Fits (print_clause (first ∷ second ∷ [])) out.old }
    ensures { Wrote (print_clause (first ∷ second ∷ [])) out.old out.new result }
{
    let at = put_item(first, out);
    at + put_unit(second, &mut out[at..])
}

// Of three.
#[tactic(auto, using(text::proofs::Written::wrote_next))]
pub fn put_three(first: Literal, second: Literal, third: Literal, out: &mut [u8]) -> usize
    requires { Fits (print_clause (first ∷ second ∷ third ∷ [])) out.old }
    ensures { Wrote (print_clause (first ∷ second ∷ third ∷ [])) out.old out.new result }
{
    let at = put_item(first, out);
    at + put_two(second, third, &mut out[at..])
}
