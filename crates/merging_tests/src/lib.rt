//! Tests of merging: steps, what they reverse and what blocks them, reports, and what whole sheets become.
#![tactic(auto)]

#[cfg(test)]
mod asking;
#[cfg(test)]
mod blocking;
#[cfg(test)]
mod compared;
#[cfg(test)]
mod merges;
#[cfg(test)]
mod moves;
#[cfg(test)]
mod pairs;
#[cfg(test)]
mod plain;
#[cfg(test)]
mod reports;
#[cfg(test)]
mod sheets;
#[cfg(test)]
mod steps;
