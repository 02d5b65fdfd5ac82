// What Move, Run and the line mean, the demands, and document 01's examples, on bytes: statements in specs/, theorems that no function's proof needs in proofs/. It has no code.
#![tactic(auto)]
