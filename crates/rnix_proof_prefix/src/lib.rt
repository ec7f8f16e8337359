//! If a text begins with the same items as a text without errors, no error begins at these items, unless they end with `{` and `...`.
#![tactic(auto)]
