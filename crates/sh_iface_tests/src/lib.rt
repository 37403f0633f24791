//! Interfaces of operations at work: whole operands are cut as an option implies, the local part runs
//! on each device, and the parts of all devices together are the whole result.
#![tactic(auto)]

#[cfg(test)]
mod cutting;
#[cfg(test)]
mod elements;
#[cfg(test)]
mod operands;
#[cfg(test)]
mod options;
#[cfg(test)]
mod sources;
#[cfg(test)]
mod values;
