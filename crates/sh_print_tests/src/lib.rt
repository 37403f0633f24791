//! Texts and what they are printed as once they are read.
#![tactic(auto)]

#[cfg(test)]
mod operations;
#[cfg(test)]
mod printing;
#[cfg(test)]
mod regions;
#[cfg(test)]
mod texts;
