//! Tests of the commands, from words and bytes to bytes and a status.
#![tactic(auto)]

#[cfg(test)]
mod blocking;
#[cfg(test)]
mod comparing;
#[cfg(test)]
mod dead;
#[cfg(test)]
mod diffing;
#[cfg(test)]
mod faults;
#[cfg(test)]
mod inspecting;
#[cfg(test)]
mod linting;
#[cfg(test)]
mod listing;
#[cfg(test)]
mod minifying;
#[cfg(test)]
mod runs;
#[cfg(test)]
mod same;
#[cfg(test)]
mod style;
#[cfg(test)]
mod texts;
#[cfg(test)]
mod why;
#[cfg(test)]
mod words;
