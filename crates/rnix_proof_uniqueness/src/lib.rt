//! Each reading of some items is what the machine of steps makes of them.
#![tactic(auto)]
