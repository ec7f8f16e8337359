//! Edits of texts: in each case what is before the edit, what it replaces, what it writes, and what follows.

use crate::compared::{
    Edit, after_edit, are_same, edit_in_place, is_parse_after, is_parse_after_both, parsed,
};
use std::alloc::{AllocError, Global};
use std::test::Fail;

// Returns the first of the edits after which the parse is not that of the new text.
fn first_wrong<'t>(alloc: Global, edits: &[Edit<'t>]) -> Result<Option<&'t str>, AllocError> {
    for edit in edits {
        if !is_parse_after_both(alloc, *edit)? {
            return Ok(Some(edit.2));
        }
    }
    Ok(None)
}

#[test]
fn an_edit_inside_a_node_gives_the_parse_of_the_new_text(rt: HostRuntime) -> Result<(), Fail> {
    let edits = [
        ("[ a ", "b", "(c d) e", " f ]"),
        ("[ a ", "b ", "", "f ]"),
        ("[", "", " ", "]"),
        ("{ a = 1; ", "", "b = [ 2 ];", " }"),
        ("{ a = ", "1", "{ b = 3; }", "; }"),
        ("(a ", "+", "*", " b)"),
        ("\"x ", "y", "${z} é \\n", " w\""),
        ("''\n  x ", "y", "${z} ''$ é", "\n''"),
        ("[ # one\n  a ", "", "# two\n", "b ]"),
        ("f { a = \"", "", "é", "\"; } [ ]"),
    ];
    assert!(rt; first_wrong(rt.alloc(), &edits)?.is_none());
    Ok(())
}

#[test]
fn an_edit_with_as_many_elements_gives_the_parse_of_the_new_text(
    rt: HostRuntime,
) -> Result<(), Fail> {
    let edits = [
        ("f [ ", "a", "b", " (c) ] { d = \"e\"; } g"),
        ("f [ ", "a", "long", " (c) ] { d = \"e\"; } g"),
        ("f [ ", "name", "é", " (c) ] { d = \"e\"; } g"),
        ("{ a = [ (", "b", "c + d", ") ]; e = [ f ]; }"),
        ("{ a = ", "1", "\"\"", "; b = { c = 2; }; }"),
        (
            "f (rec /* a */ { b = ",
            "cd",
            "c",
            "; }) (let { body = e; })",
        ),
        ("(", "a + b", "a", ") (c d)"),
        ("[ ", " ", "  # e\n", "a ] (c d)"),
    ];
    assert!(rt; first_wrong(rt.alloc(), &edits)?.is_none());
    Ok(())
}

#[test]
fn an_edit_of_other_nodes_gives_the_parse_of_the_new_text(rt: HostRuntime) -> Result<(), Fail> {
    let edits = [
        ("\"${", "a", "b c", "}\""),
        ("let inherit (", "a", "b", ") c; in c"),
        ("({ a, b ? ", "1", "[ 2 ]", " }: a)"),
        ("a.", "b", "c", ".d"),
        ("./x/", "y", "${z}", "/w"),
        ("x: ", "x", "y", ""),
    ];
    assert!(rt; first_wrong(rt.alloc(), &edits)?.is_none());
    Ok(())
}

#[test]
fn an_edit_behind_rec_or_let_gives_the_parse_of_the_new_text(rt: HostRuntime) -> Result<(), Fail> {
    let edits = [
        ("rec { a = ", "1", "2", "; }"),
        ("let { body = ", "1", "2", "; }"),
        ("rec{ ", "a = 1;", "", " }"),
        ("f rec # é\n /* c */ { ", "", "a = b;", " } x"),
        ("(let /* c */ { ", "", "inherit x;", " body = x; })"),
        ("rec { a = ", "1", "rec { b = \"${c}\"; }", "; }"),
    ];
    assert!(rt; first_wrong(rt.alloc(), &edits)?.is_none());
    Ok(())
}

#[test]
fn an_edit_before_the_brace_gives_the_parse_of_the_new_text(rt: HostRuntime) -> Result<(), Fail> {
    let edits = [
        ("", "rec", "", " { a = 1; }"),
        ("", "", "rec ", "{ a = 1; }"),
        ("re", "c", "", " { a = 1; }"),
        ("rec", "", "x", " { a = 1; }"),
        ("rec", " ", "/", " { a = 1; }"),
        ("rec", " ", " # c\n", "{ a = 1; }"),
        ("rec /* a", "", " */ /* b", " */ { a = 1; }"),
        ("rec ", "", "{ } ", "{ a = 1; }"),
        ("rec ", "{", "{ a = 1; } {", " }"),
        ("", "let", "rec", " { body = 1; }"),
        ("let ", "{", "a = 1; in {", " body = 1; }"),
    ];
    assert!(rt; first_wrong(rt.alloc(), &edits)?.is_none());
    Ok(())
}

#[test]
fn an_edit_of_a_bracket_gives_the_parse_of_the_new_text(rt: HostRuntime) -> Result<(), Fail> {
    let edits = [
        ("[ a ", "]", "", " b ]"),
        ("[ a ", "] [", "", " b ]"),
        ("[ a (", "b) [ c", "d", " ] ]"),
        ("", "[", "(", " a ]"),
        ("", "\"", "''", "a\""),
        ("[ ", "", "]", " a ]"),
        ("[ ", "", "] [", " a ]"),
        ("{ a = 1; ", "", "} {", " b = 2; }"),
        ("(a", "", ") (", "b)"),
        ("\"a", "", "\" \"", "b\""),
        ("\"a", "", "${", "b\""),
        ("{ ", "", "a }: { ", " }"),
        ("{ ", "", "a, ... }: { b = a; ", " }"),
    ];
    assert!(rt; first_wrong(rt.alloc(), &edits)?.is_none());
    Ok(())
}

#[test]
fn an_edit_beside_quotes_gives_the_parse_of_the_new_text(rt: HostRuntime) -> Result<(), Fail> {
    let edits = [
        ("''", "", "'", "a''"),
        ("''a", "", "'", "''"),
        ("''a ''", "", "", "$ b''"),
        ("''a", "", "$", "{b}''"),
        ("''", "", "''", "''"),
        ("\"a", "", "\\", "\""),
        ("\"a$", "", "$", "{b}\""),
        ("'", "", "", "' a ''"),
    ];
    assert!(rt; first_wrong(rt.alloc(), &edits)?.is_none());
    Ok(())
}

#[test]
fn an_edit_that_opens_a_comment_gives_the_parse_of_the_new_text(
    rt: HostRuntime,
) -> Result<(), Fail> {
    let edits = [
        ("[ a ", "", "/*", " b ]"),
        ("[ a ", "", "/* */", " b ]"),
        ("[ a ", "", "#", " b ]"),
        ("[ a ", "", "#", " b\n]"),
        ("[ a /* c ", "*/", "", " b ] # */"),
        ("[ a /", "", "*", " b ] /* */"),
    ];
    assert!(rt; first_wrong(rt.alloc(), &edits)?.is_none());
    Ok(())
}

#[test]
fn an_edit_with_errors_gives_the_parse_of_the_new_text(rt: HostRuntime) -> Result<(), Fail> {
    let edits = [
        ("{ a = ", "1", "", "; }"),
        ("{ a = ", "", "1", "; }"),
        ("{ a = ; b = [ ", "1", "2", " ]; }"),
        ("[ ", "1", "= ;", " ]"),
        ("[ (", "a", ")", ") ]"),
        ("({ a, a }: [ ", "b", "c", " ])"),
        ("[ ", "a", "{ b, b }: 1", " ]"),
        ("[ \u{1} ", "a", "b", " ]"),
    ];
    assert!(rt; first_wrong(rt.alloc(), &edits)?.is_none());
    Ok(())
}

// Returns a text of `count` brackets.
fn repeated(alloc: Global, bracket: &str, count: usize) -> Result<String, AllocError> {
    let mut text = String::new(alloc);
    for _ in 0..count {
        text.push_str(bracket)?;
    }
    Ok(text)
}

#[test]
fn an_edit_at_the_limit_of_nesting_gives_the_parse_of_the_new_text(
    rt: HostRuntime,
) -> Result<(), Fail> {
    for (around, inside) in [
        (500, 5),
        (500, 11),
        (500, 12),
        (500, 13),
        (500, 20),
        (511, 1),
        (520, 1),
    ] {
        let mut before = repeated(rt.alloc(), "[", around)?;
        before.push_str(" (")?;
        let after = repeated(rt.alloc(), "]", around)?;
        let mut rest = String::from_str(rt.alloc(), ") ")?;
        rest.push_str(after.as_str())?;
        let mut new = repeated(rt.alloc(), "(", inside)?;
        new.push_str("a")?;
        let closed = repeated(rt.alloc(), ")", inside)?;
        new.push_str(closed.as_str())?;
        let edit = (before.as_str(), "a", new.as_str(), rest.as_str());
        assert!(rt;
            is_parse_after_both(rt.alloc(), edit)?,
            "{around} around {inside}"
        );
    }
    Ok(())
}

// Returns whether the parse after two edits, one after the other, is that of the last text.
fn is_parse_after_two(
    alloc: Global,
    text: &str,
    at: usize,
    last: &str,
) -> Result<bool, AllocError> {
    let parse = parsed(alloc, text)?;
    let Some(parse) = after_edit(alloc, &parse, at, at, "b")? else {
        return Ok(false);
    };
    let Some(parse) = after_edit(alloc, &parse, at, at, "a")? else {
        return Ok(false);
    };
    are_same(alloc, &parse, &parsed(alloc, last)?)
}

// Returns whether two edits in place, one after the other, make the parse that of the last text.
fn is_parse_in_place_after_two(
    alloc: Global,
    text: &str,
    at: usize,
    last: &str,
) -> Result<bool, AllocError> {
    let mut parse = parsed(alloc, text)?;
    let is_edited = edit_in_place(alloc, &mut parse, at, at, "b")?
        && edit_in_place(alloc, &mut parse, at, at, "a")?;
    Ok(is_edited && are_same(alloc, &parse, &parsed(alloc, last)?)?)
}

#[test]
fn edits_in_place_follow_one_another(rt: HostRuntime) -> Result<(), Fail> {
    let alloc = rt.alloc();
    assert!(rt; is_parse_in_place_after_two(alloc, "[ (x ) ]", 5, "[ (x ab) ]")?);
    assert!(rt; is_parse_in_place_after_two(alloc, "[ (x) ] (y)", 4, "[ (xab) ] (y)")?);
    assert!(rt; is_parse_in_place_after_two(alloc, "{ = [ ]; }", 2, "{ ab= [ ]; }")?);
    Ok(())
}

#[test]
fn edits_follow_one_another(rt: HostRuntime) -> Result<(), Fail> {
    assert!(rt; is_parse_after_two(rt.alloc(), "[ (x ) ]", 5, "[ (x ab) ]")?);
    assert!(rt; is_parse_after_two(rt.alloc(), "{ = [ ]; }", 2, "{ ab= [ ]; }")?);
    assert!(rt; is_parse_after(rt.alloc(), ("", "", "1", ""))?);
    Ok(())
}
