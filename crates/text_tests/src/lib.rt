//! Tests of what is read of a text, and of what is printed.
#![tactic(auto)]

#[cfg(test)]
mod families;
#[cfg(test)]
mod limits;
#[cfg(test)]
mod media;
#[cfg(test)]
mod positions;
#[cfg(test)]
mod printing;
#[cfg(test)]
mod reading;
#[cfg(test)]
mod selectors;
#[cfg(test)]
mod sheets;
#[cfg(test)]
mod specificities;
#[cfg(test)]
mod tokens;
#[cfg(test)]
mod values;
