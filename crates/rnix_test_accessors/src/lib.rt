//! Tests of what each accessor returns, on texts that have the parts and on nodes and tokens that were built by hand.
#![tactic(auto)]

#[cfg(test)]
mod built_nodes;
#[cfg(test)]
mod describe;
#[cfg(test)]
mod description;
#[cfg(test)]
mod expressions;
#[cfg(test)]
mod forms;
#[cfg(test)]
mod hand;
#[cfg(test)]
mod parts;
#[cfg(test)]
mod unusual;
