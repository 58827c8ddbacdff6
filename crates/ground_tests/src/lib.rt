//! Tests of the ground: streams of bytes, clauses, the solver and its logs, and made sheets.
#![tactic(auto)]

#[cfg(test)]
mod arena;
#[cfg(test)]
mod clauses;
#[cfg(test)]
mod logs;
#[cfg(test)]
mod made_sheets;
#[cfg(test)]
mod refutations;
#[cfg(test)]
mod solver;
#[cfg(test)]
mod spare_lists;
#[cfg(test)]
mod streams;
#[cfg(test)]
mod trail;
