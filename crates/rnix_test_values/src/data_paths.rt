//! Paths of data lead to what their names say.

use nix_values::{Data, Item, Value};
use std::alloc::{AllocError, Global};
use std::test::Fail;

// Adds an item.
fn push(
    alloc: Global,
    items: &mut Vec<Item>,
    depth: usize,
    name: &str,
    value: Value,
) -> Result<(), AllocError> {
    items.push(Item {
        depth,
        name: String::from_str(alloc, name)?,
        value,
    })?;
    Ok(())
}

// Nested sets: each has an attribute `another name`, and then one with the next of the names, whose value is the next set or, at last, a number.
fn nested(alloc: Global, names: &[&str]) -> Result<Data, AllocError> {
    let mut items = Vec::new(alloc);
    push(alloc, &mut items, 0, "", Value::Set)?;
    for (number, name) in names.iter().enumerate() {
        let depth = number.saturating_add(1);
        push(alloc, &mut items, depth, "another name", Value::Null)?;
        let is_last = depth == names.len();
        let value = if is_last {
            Value::Integer(1)
        } else {
            Value::Set
        };
        push(alloc, &mut items, depth, name, value)?;
    }
    Ok(Data { items })
}

// Whether a path leads to the number in the nested sets of these names.
fn leads_to_number(alloc: Global, names: &[&str], path: &str) -> Result<bool, AllocError> {
    Ok(match nested(alloc, names)?.part(alloc, path)? {
        Some(part) => matches!(
            part.items.first(),
            Some(Item {
                value: Value::Integer(1),
                ..
            })
        ),
        None => false,
    })
}

#[test]
fn names_are_read_as_in_nix(rt: HostRuntime) -> Result<(), Fail> {
    let cases: [(&str, &[&str]); 12] = [
        ("", &[""]),
        ("a", &["a"]),
        ("a.b-c.0", &["a", "b-c", "0"]),
        (".", &["", ""]),
        ("\"\"", &[""]),
        ("\"0\".0", &["0", "0"]),
        ("a.\"b.c\".d", &["a", "b.c", "d"]),
        ("\"\\\"\"", &["\""]),
        ("\"x\\ty\"", &["x\ty"]),
        ("\"\\${x}\\\\\"", &["${x}\\"]),
        ("\"\\q\"", &["q"]),
        ("${g \"x\"}", &["${g \"x\"}"]),
    ];
    for (path, names) in cases {
        assert!(rt; leads_to_number(rt.alloc(), names, path)?, "{path}");
    }
    Ok(())
}

#[test]
fn a_quote_must_be_closed_before_a_dot_or_the_end(rt: HostRuntime) -> Result<(), Fail> {
    for path in [
        "\"",
        "\"a",
        "a.\"b",
        "\"a\\\"",
        "\"a\\",
        "\"a\"b",
        "\"a\"\"b\"",
    ] {
        for names in [&["a"], &[""], &["ab"], &["a\"b"]] {
            assert!(rt; !leads_to_number(rt.alloc(), names, path)?, "{path}");
        }
    }
    Ok(())
}

// A list with null and a number.
fn list(alloc: Global) -> Result<Data, AllocError> {
    let mut items = Vec::new(alloc);
    push(alloc, &mut items, 0, "", Value::List)?;
    push(alloc, &mut items, 1, "", Value::Null)?;
    push(alloc, &mut items, 1, "", Value::Integer(1))?;
    Ok(Data { items })
}

#[test]
fn a_name_in_quotes_is_no_number_of_an_item(rt: HostRuntime) -> Result<(), Fail> {
    for (path, has_part) in [("1", true), ("\"1\"", false), ("2", false), ("", false)] {
        let part = list(rt.alloc())?.part(rt.alloc(), path)?;
        assert!(rt; part.is_some() == has_part, "{path}");
    }
    Ok(())
}
