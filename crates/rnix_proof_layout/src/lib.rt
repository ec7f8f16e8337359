//! Two texts with the same items, which touch alike inside paths, have the same tree apart from trivia.
#![tactic(auto)]
