//! Tests of refused memory. Each returns the refusal that it met, if there was one, and otherwise fails only if a result is wrong;
//! `bench/refuse` refuses each growth of each test in turn.
#![tactic(auto)]

#[cfg(test)]
mod again;
#[cfg(test)]
mod builder_calls;
#[cfg(test)]
mod compared;
#[cfg(test)]
mod copied;
#[cfg(test)]
mod parsing;
#[cfg(test)]
mod string_parts;
#[cfg(test)]
mod tokens;
