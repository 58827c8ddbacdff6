//! Tests of whether two selectors meet, on selectors and documents that are read.
#![tactic(auto)]

#[cfg(test)]
mod dead;
#[cfg(test)]
mod documents;
#[cfg(test)]
mod fits;
#[cfg(test)]
mod pairs;
#[cfg(test)]
mod reading;
#[cfg(test)]
mod shapes;
#[cfg(test)]
mod values;
