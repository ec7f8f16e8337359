//! Comments in all gaps of expressions of all kinds.

use crate::formatted::{check_repeated, filled};
use std::alloc::{AllocError, Global};
use std::process::Abort;
use std::test::Fail;

// Expressions in which `%` stands for a gap, and `b` for a name.
const PLACES: [&str; 24] = [
    "%a%",
    "[%a%b%]",
    "[%{%}%[%]%(%b%)%]",
    "{%a%=%b%;%c.d%=%e%;%}",
    "rec%{%a%=%[%b%]%;%}",
    "{%a%.%${%b%}%=%c%;%}",
    "{%inherit%a%b%;%inherit%(%c%)%d%;%}",
    "{%a%,%b%?%c%,%...%}%:%d",
    "a%@%{%b%,%c%}%:%d",
    "a%:%b%:%{%c%=%d%;%}",
    "let%a%=%b%;%c%=%d%;%in%e",
    "let%{%a%=%b%;%body%=%c%;%}",
    "with%a%;%b",
    "assert%a%;%b",
    "if%a%then%b%else%if%c%then%d%else%e",
    "a%b%[%c%]%{%d%=%e%;%}",
    "f%(%a%b%)%c",
    "(%a%:%{%b%=%c%;%}%)",
    "a%+%b%*%c%//%{%d%=%e%;%}",
    "a%.%b%or%c",
    "a%?%b%.%c",
    "-%a%->%!%b",
    "{%a%=%''\n  b\n''%;%}",
    "{%a%,%b%}%:%''\n  c ${%d%}\n''",
];

// The long name in place of `b`.
const WIDE: &str =
    "bbbbbbbbbbbbbbbbbbbbbbbbbbbbbbbbbbbbbbbbbbbbbbbbbbbbbbbbbbbbbbbbbbbbbbbbbbbbbbbb";

// Comments with white space around them.
const GAPS: [&str; 62] = [
    "/**/",
    "/**/\n",
    "/**/\n\n",
    "\n/**/",
    "\n/**/\n",
    "\n/**/\n\n",
    "\n\n/**/",
    "\n\n/**/\n",
    "\n\n/**/\n\n",
    "#\n",
    "#\n\n",
    "#\n\n\n",
    "\n#\n",
    "\n#\n\n",
    "\n#\n\n\n",
    "\n\n#\n",
    "\n\n#\n\n",
    "\n\n#\n\n\n",
    "/**//**/",
    "/**//**/\n",
    "/**/\n/**/",
    "/**/\n/**/\n",
    "\n/**//**/",
    "\n/**//**/\n",
    "\n/**/\n/**/",
    "\n/**/\n/**/\n",
    "/**/#\n",
    "/**/#\n\n",
    "/**/\n#\n",
    "/**/\n#\n\n",
    "\n/**/#\n",
    "\n/**/#\n\n",
    "\n/**/\n#\n",
    "\n/**/\n#\n\n",
    "#\n/**/",
    "#\n/**/\n",
    "#\n\n/**/",
    "#\n\n/**/\n",
    "\n#\n/**/",
    "\n#\n/**/\n",
    "\n#\n\n/**/",
    "\n#\n\n/**/\n",
    "#\n#\n",
    "#\n#\n\n",
    "#\n\n#\n",
    "#\n\n#\n\n",
    "\n#\n#\n",
    "\n#\n#\n\n",
    "\n#\n\n#\n",
    "\n#\n\n#\n\n",
    "/*c*/",
    "/*c*/\n",
    "/*c*/\n\n",
    "\n/*c*/",
    "\n/*c*/\n",
    "\n\n/*c*/\n\n",
    "/*c*//* c */\n",
    "/*c*/\n/*c*/\n",
    "\n/*c*/#\n",
    "\n#\n/*c*/\n",
    "/*c*/\r\n",
    "\r\n/*c*/\r\n#\r\n",
];

// An expression with a long name in place of each `b`.
fn widened(alloc: Global, text: &str) -> Result<String, AllocError> {
    let mut wide = String::new(alloc);
    for letter in text.chars() {
        if letter == 'b' {
            wide.push_str(WIDE)?;
        } else {
            wide.push(letter)?;
        }
    }
    Ok(wide)
}

// Checks an expression with each of the comments in all gaps, each time also with the long name.
fn check_comments(rt: &(impl Abort + AllocGlobal), place: &str) -> Result<(), AllocError> {
    for gap in GAPS {
        let text = filled(rt.alloc(), place, gap)?;
        check_repeated(rt, text.as_str())?;
        let wide = widened(rt.alloc(), text.as_str())?;
        check_repeated(rt, wide.as_str())?;
    }
    Ok(())
}

#[test]
fn comments_in_all_gaps_stay_the_same(rt: HostRuntime) -> Result<(), Fail> {
    for place in PLACES {
        check_comments(&rt, place)?;
    }
    Ok(())
}
