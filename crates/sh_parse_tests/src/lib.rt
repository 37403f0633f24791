//! Texts and the modules that they stand for.
#![tactic(auto)]

#[cfg(test)]
mod literals;
#[cfg(test)]
mod reading;
