//! Facts on lists that the proofs of several crates cite.
//!
//! There is no code in it. The facts are in `proofs/`, and a crate that cites them lists `list_facts` in `crates.txt`.
//!
//! | file | what it says |
//! |---|---|
//! | `Members` | what a list contains, after a filter and at its head |
//! | `Elements` | what holds of each element, by recursion, holds of those of its parts |
//! | `Cuts` | where a list is cut: at the first element that passes a test, and at each one |
//! | `SliceRange` | the part of a list between two places |
//! | `Zips` | what two lists have in common whose elements agree place by place |
//! | `Sums` | the numbers of a list together |
//! | `Options` | what an `Option` is that was made of another |
//! | `OptionHash` | the hash of an `Option` by that of its value |
//!
//! Look into the library's own lemmas on lists before one is added.
#![tactic(auto)]
