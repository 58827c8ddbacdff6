//! A hasher that is fast at short writes, for digests and for keys that are texts.
#![tactic(auto)]

mod mixer;

pub use mixer::Mixer;
