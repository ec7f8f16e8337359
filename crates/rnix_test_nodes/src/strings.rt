//! The values of strings, and the names of attributes.

use rnix::Root;
use rnix::ast::{Expr, HasEntry, unescape};
use std::test::Fail;

#[test]
fn texts_stand_for_others(rt: HostRuntime) -> Result<(), Fail> {
    let cases = [
        ("\\\"Hello\\\"", false, "\"Hello\""),
        ("Hello\\n\\\"World\\\" :D", false, "Hello\n\"World\" :D"),
        ("Hello''\\n'''World''' :D", true, "Hello\n''World'' :D"),
        ("\"Hello\"", true, "\"Hello\""),
    ];
    for (text, multiline, wanted) in cases {
        assert_eq!(rt; unescape(rt.alloc(), text, multiline)?.as_str(), wanted);
    }
    Ok(())
}

// Whether a text is a string with the wanted value.
fn has_value(rt: &HostRuntime, text: &str, wanted: &str) -> Result<bool, Fail> {
    let read = Root::parse(rt.alloc(), text)?;
    let Some(Expr::Str(string)) = read.tree().expr() else {
        return Ok(false);
    };
    match string.plain_value(rt.alloc())? {
        Some(value) => Ok(value.as_str() == wanted),
        None => Ok(false),
    }
}

// The wanted values are those that Nix 2.8 prints.
#[test]
fn values_of_strings_are_those_of_nix(rt: HostRuntime) -> Result<(), Fail> {
    let cases = [
        ("''\n  a''\\n   b\n''", "a\n b\n"),
        ("''\n    a''\\n b\n    c''", "a\nb\nc"),
        ("''\n        x''\\\n              ''", "x\n      "),
        ("''\n  a''\\n''\\  b''\\ c''", "a\nb c"),
        ("''\n  a'''\\\n  ''", "a''\\\n"),
        ("''\n  a\n  ''\\ ''", "a\n "),
        ("''\n    \n      ''", "\n"),
        ("''\n  a''$b\n    ''${c}''", "a$b\n  ${c}"),
        ("''    ''", ""),
        ("''''", ""),
        ("\"a\r\nb\rc\\\r\nd\\r\"", "a\nb\nc\r\nd\r"),
        ("\"\"", ""),
    ];
    for (text, wanted) in cases {
        assert!(rt; has_value(&rt, text, wanted)?, "{text}");
    }
    Ok(())
}

// Returns the name of the first attribute of a text that is a set.
fn first_name(rt: &HostRuntime, text: &str) -> Result<Option<String>, Fail> {
    let read = Root::parse(rt.alloc(), text)?;
    let Some(Expr::AttrSet(set)) = read.tree().expr() else {
        return Ok(None);
    };
    let Some(entry) = set.attrpath_values().next() else {
        return Ok(None);
    };
    let Some(path) = entry.attrpath() else {
        return Ok(None);
    };
    match path.attrs().next() {
        Some(attr) => Ok(attr.static_name(rt.alloc())?),
        None => Ok(None),
    }
}

#[test]
fn attributes_are_called_what_nix_calls_them(rt: HostRuntime) -> Result<(), Fail> {
    let cases = [
        ("{ a = 1; }", Some("a")),
        ("{ \"a\" = 1; }", Some("a")),
        ("{ \"\\a\" = 1; }", Some("a")),
        ("{ ${\"a\"} = 1; }", Some("a")),
        ("{ ${''\n  a''} = 1; }", Some("a")),
        ("{ ${x:y} = 1; }", Some("x:y")),
        ("{ ${(\"\\a\")} = 1; }", Some("a")),
        ("{ ${((x:y))} = 1; }", Some("x:y")),
        ("{ ${(''\n  a'')} = 1; }", Some("a")),
        ("{ ${(a)} = 1; }", None),
        ("{ \"\" = 1; }", Some("")),
        ("{ ${''a'b$c$$''} = 1; }", Some("a'b$c$$")),
        ("{ ${''$''} = 1; }", Some("$")),
        ("{ ${''''$''} = 1; }", Some("$")),
        ("{ ${'''''''} = 1; }", Some("''")),
        ("{ ${''''\\n''} = 1; }", Some("\n")),
        ("{ ${''a''\\b''} = 1; }", None),
        ("{ ${''a$''} = 1; }", None),
        ("{ ${''a'''b''} = 1; }", None),
        ("{ \"a${\"b\"}\" = 1; }", None),
        ("{ ${a} = 1; }", None),
        ("{ ''a'' = 1; }", None),
    ];
    for (text, wanted) in cases {
        let name = first_name(&rt, text)?;
        assert!(rt; name.as_ref().map(|name| name.as_str()) == wanted, "{text}");
    }
    Ok(())
}
