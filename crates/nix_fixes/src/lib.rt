//! Fixes of syntax errors: the replacements that diagnostics propose, each tried by parsing the new text, which must have fewer errors.
#![tactic(auto)]

mod all_fixes;
mod changed_text;
mod fix;
mod tried;

pub use all_fixes::{FixedText, fixed};
pub use changed_text::{new_text, spliced};
pub use fix::{Fix, fix_of};
