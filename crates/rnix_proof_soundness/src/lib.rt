//! What is read without errors is strict, except for its accepted extensions.
#![tactic(auto)]
