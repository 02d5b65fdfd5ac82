// Clauses and their text in the DIMACS format: definitions in specs/, theorems in proofs/. Here stands only the type that code shares with them.
#![tactic(auto)]

// A literal, by the number of its variable.
#[derive(Clone, Copy, Debug, PartialEq, Eq)]
pub enum Literal {
    Plain(u32),
    Negated(u32),
}
