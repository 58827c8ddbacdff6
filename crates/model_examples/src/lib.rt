//! Examples of the definitions, worked by hand and checked by computation. There is no code in it: the examples are in
//! `proofs/`, a file a subject.
#![tactic(auto)]
