//! The machine of steps reads each list of items by the rules of readings.
#![tactic(auto)]
