//! Tests of the layout: formatted texts of many kinds stay the same when they are formatted again. How texts are formatted is tested by bench/layout.
#![tactic(auto)]

#[cfg(test)]
mod comments;
#[cfg(test)]
mod edges;
#[cfg(test)]
mod formatted;
#[cfg(test)]
mod nested;
#[cfg(test)]
mod settling;
#[cfg(test)]
mod tokens;
