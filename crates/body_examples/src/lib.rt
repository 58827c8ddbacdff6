//! Examples by computation. Each is a value on which a wrong body would answer something else. There is no code here:
//! the examples are in `proofs/`, a file a subject.
#![tactic(auto)]
