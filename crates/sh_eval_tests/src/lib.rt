//! What operations and functions give, computed on small tensors.
#![tactic(auto)]

#[cfg(test)]
mod elements;
#[cfg(test)]
mod functions;
#[cfg(test)]
mod texts;
