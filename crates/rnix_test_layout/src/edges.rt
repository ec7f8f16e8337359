//! Texts whose groups just fit on their lines, or just do not, and texts of few items.

use crate::formatted::{check_repeated, filled};
use std::alloc::{AllocError, Global};
use std::process::Abort;
use std::test::Fail;

// Levels of nesting before those that are compared, whose lines begin beyond column 80 or so.
const LEVELS: usize = 37;

// Expressions in which `%` stands for a name, whose length varies.
const NAMED: [&str; 29] = [
    "{ a = %; }",
    "{ % = a; }",
    "[ a % b ]",
    "[ /* c */ % b ]",
    "f a % { }",
    "f (%) a",
    "f (a: %) (b)",
    "{ a = f (b.%) c; }",
    "{ a = f { b = %; } c; d = (e % [ f ]); }",
    "{ a = % // { b = [ c ]; }; }",
    "a + % * b -> %",
    "if % then a else if b then % else c",
    "let a = %; in a",
    "with %; [ a b ]",
    "(a.b { c = %; }).d e",
    "{ a, b ? %, ... }@c: [ d ]",
    "a: % { b = c; }",
    "{ inherit (a) % b; }",
    "{ a = ''\n  b\n'' + %; }",
    "{ a.${%}.b = a.b or %; }",
    "{ a = (with %; { b = c; }); }",
    "x: y: % [ a\nb ] c",
    "f \"${ % } ${ a }\" [ b ] c",
    "f ./a/${ % }/b [ c d ] [ e ]",
    "{ a = \"${ b }\n${ % }\" + c { d = e; }; }",
    "{ a = ''\n  ${ % } b ${ c }'' { d = e; }; }",
    "{ a = [ b ] ++ % ++ [ c d ]; }",
    "[ (f [ a b ] [ c % ]) (f (a: b: %) { }) (a (b: with c; [ d % ])) ]",
    "{ a = { % = b; } ''\n  c\n''; }",
];

// Expressions that are too wide for a line, with parentheses of about 40 columns in which `%` stands for a name, whose length varies.
const PARENTHESES: [&str; 7] = [
    "f (a %) bbbbbbbbbbbbbbbbbbbbbbbbbbbbbbbbbbbbbbbbbbbbbbbbbbbbbbbbbbbbbb",
    "f (a: %) bbbbbbbbbbbbbbbbbbbbbbbbbbbbbbbbbbbbbbbbbbbbbbbbbbbbbbbbbbbbbb { b = c; }",
    "{ a = f (%) bbbbbbbbbbbbbbbbbbbbbbbbbbbbbbbbbbbbbbbbbbbbbbbbbbbbbbbbbbbbbb (b c); }",
    "{ a = f (b: c %) d bbbbbbbbbbbbbbbbbbbbbbbbbbbbbbbbbbbbbbbbbbbbbbbbbbbbbbbbbbbbbb; }",
    "f a (b + %) bbbbbbbbbbbbbbbbbbbbbbbbbbbbbbbbbbbbbbbbbbbbbbbbbbbbbbbbbbbbbb b",
    "f (\"€\" + %) (c: d) bbbbbbbbbbbbbbbbbbbbbbbbbbbbbbbbbbbbbbbbbbbbbbbbbbbbbbbbbbbbbb",
    "{ a = (c: { d = %; }) { bbbbbbbbbbbbbbbbbbbbbbbbbbbbbbbbbbbbbbbbbbbbbbbbbbbbbbbbbbbbbb = e; }.f; }",
];

// Expressions in which `%` stands for letters of a string or a comment, whose number varies.
const QUOTED: [&str; 7] = [
    "{ a = \"%\"; }",
    "f \"%\" [ \"a\" ] b",
    "[ /* % */ a ]",
    "f (a \"%\") c",
    "{ a = \"\n%\" + b { c = d; }; }",
    "f ''\n  %'' { a = b; }",
    "f ''%\n'' (a \"%\") { } b",
];

// Expressions that are nested: `%` stands for another one.
const NESTED: [&str; 9] = [
    "[\n%]",
    "{\na=%;}",
    "(a:\n%)",
    "let a = %; in b",
    "f {\na = %; }",
    "if a then % else b",
    "a\n+ (b %)",
    "[ # a\n ''\n  b ${%}\n c\n'' ]",
    "(\n/* a */ % # b\n)",
];

// Texts with items that stay apart, with comments in all places, and with little else.
const TEXTS: [&str; 61] = [
    "a - ./b",
    "a - /b",
    "a - ~/b",
    "a - <b>",
    "a - (./b)",
    "- ./a",
    "-/a",
    "- /* b */ ./a",
    "a - # b\n ./c",
    "a - /* b */ /c/d",
    "f (- ./a) (- ~/b)",
    "{ a ? http://b.c/d , e }: f",
    "{ a ? http://b.c/d\n, e }: f",
    "{ a ? http://b.c/d # g\n, e }: f",
    "{ a ? http://b.c/d /* g */ , e }: f",
    "{ a ? (http://b.c/d), e }: f",
    "{ a ? b - ./c , e }: f",
    "[ http://a.b/c http://a.b/c , ]",
    "{ a = http://b.c/d ; }",
    "",
    " ",
    "\n\n",
    "\t\r\n\t",
    "# a",
    "# ä\n# b\n\n\n/* c */",
    "/* a */",
    "\n\n/* a\n b */\r\n",
    "a # b",
    "a\n# b\n\n# c",
    "a /* b */",
    "a /* b */ # c\n\n\n",
    "# a\nb",
    "/* a */ b",
    "/* a */\n\n\n# b\n c",
    "\r\n# a\r\n\r\nb\r\n",
    "[ # a\n]",
    "[ /* a */ ]",
    "[ /* a */ /* b */ c /* d */ # e\n /* f */ ]",
    "[\n# a\n\n# b\n\n\nc\n\n# d\n\n]",
    "[ a /* b */ /* c */ d # e\n# f\n]",
    "{ # a\n}",
    "{ /* a */ }: b",
    "{ a, # b\n c }: d",
    "{ a /* b */ , /* c */ d # e\n, f }: g",
    "(# a\nb)",
    "(/* a */ b /* c */)",
    "f /* a */ b # c\n d",
    "a # b\n + # c\n d",
    "let # a\n b = c; # d\n in # e\n b",
    "let { # a\n body = /* b */ c /* d */; }",
    "if # a\n b then # c\n d else # e\n f",
    "with # a\n b; # c\n d",
    "a: # b\n c: /* d */ e",
    "{ inherit # a\n b /* c */ ; inherit (d) # e\n; }",
    "{\r\n\ta = 1;\r\n\r\n\r\n\t# b\r\n}\r\n",
    "[\ta\tb\r\n\t]\r\n",
    "{ a = ''\r\n\tb\r\n'' ; }",
    "{ a = ''\n\tb\n  c\n\t'' + \"\t\r\n\"; }",
    "\"${ a}${b }${ c }${\nd }${ /* e */ f # g\n }\"",
    "''\n  a ${ b }\n  ${ ''\n  c ${ d }\n '' }\n''",
    "./${ a }/b",
];

// A letter, `count` times.
fn repeated(alloc: Global, letter: char, count: usize) -> Result<String, AllocError> {
    let mut text = String::new(alloc);
    for _ in 0..count {
        text.push(letter)?;
    }
    Ok(text)
}

// Checks each expression with words of 20 lengths from `least` on.
fn check_widths(
    rt: &(impl Abort + AllocGlobal),
    outers: &[&str],
    letter: char,
    least: usize,
) -> Result<(), AllocError> {
    for outer in outers {
        for more in 0usize..20 {
            let count = least.saturating_add(more);
            let word = repeated(rt.alloc(), letter, count)?;
            let text = filled(rt.alloc(), outer, word.as_str())?;
            check_repeated(rt, text.as_str())?;
        }
    }
    Ok(())
}

// An expression inside `levels` levels of another one.
fn nested(alloc: Global, outer: &str, inner: &str, levels: usize) -> Result<String, AllocError> {
    let mut text = filled(alloc, "%", inner)?;
    for _ in 0..levels {
        text = filled(alloc, outer, text.as_str())?;
    }
    Ok(text)
}

// Checks an expression that is nested, with five different numbers of levels.
fn check_levels(rt: &(impl Abort + AllocGlobal), outer: &str) -> Result<(), AllocError> {
    let mut text = nested(
        rt.alloc(),
        outer,
        "f ''\n  a\n   b\n'' [ c (d: e) ]",
        LEVELS,
    )?;
    for _ in 0..5 {
        text = filled(rt.alloc(), outer, text.as_str())?;
        check_repeated(rt, text.as_str())?;
    }
    Ok(())
}

#[test]
fn words_around_the_end_of_a_line_stay_the_same(rt: HostRuntime) -> Result<(), Fail> {
    check_widths(&rt, &NAMED, 'a', 82)?;
    check_widths(&rt, &QUOTED, 'ä', 82)?;
    Ok(())
}

#[test]
fn parentheses_of_half_a_line_stay_the_same(rt: HostRuntime) -> Result<(), Fail> {
    check_widths(&rt, &PARENTHESES, 'a', 25)?;
    Ok(())
}

#[test]
fn deep_levels_stay_the_same(rt: HostRuntime) -> Result<(), Fail> {
    for outer in NESTED {
        check_levels(&rt, outer)?;
    }
    Ok(())
}

#[test]
fn comments_and_small_texts_stay_the_same(rt: HostRuntime) -> Result<(), Fail> {
    for text in TEXTS {
        check_repeated(&rt, text)?;
    }
    Ok(())
}
