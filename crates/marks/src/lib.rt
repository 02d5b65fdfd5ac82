// The marks of a survey: a pass for the cone and the front, and one for the interest set. (Marks are bytes, and no enum: a survey is so by the format, in memory that the caller lends.)
// What is written is a slice of its own, and its length and what it then holds (`MarksOf`) stand in each contract: a struct round a `&mut` would be lent anew for each call, and owe its fact at each write, to save one clause.
// That a gate is below `map.gates` is a clause too: it is an argument's range, as an index's.
#![tactic(auto)]

pub mod cone;
pub mod interest;
