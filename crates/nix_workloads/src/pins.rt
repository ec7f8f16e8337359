//! Pins (versions that a file fixes) and other data, as Nix and as JSON.

use crate::draft::Draft;
use crate::template::Template;
use crate::words::Words;
use std::alloc::{AllocError, Global};

// A pin in JSON.
const LOCKED: &str = r#"    "%a-%%": {
      "inputs": { "%b-1": "%c", "%d-2": [ "%e", "%f" ] },
      "locked": {
        "lastModified": 17%3,
        "narHash": "sha256-%g%h%i%j%k%l=",
        "owner": "%m", "repo": "%n", "rev": "%o%p%q%r", "type": "github", "flake": false
      },
      "original": { "owner": "%m", "ref": "%s/%t", "repo": "%n", "type": "github" }
    },
"#;

/// A lock file in JSON, with `pins` pins.
pub fn lock(alloc: Global, words: &Words, seed: u64, pins: usize) -> Result<String, AllocError> {
    let mut draft = Draft::new(alloc, words, seed);
    draft.push("{\n  \"nodes\": {\n")?;
    draft.repeat(&Template::new(alloc, LOCKED)?, pins)?;
    draft.push(
        "    \"root\": { \"inputs\": {} }\n  },\n  \"root\": \"root\",\n  \"version\": 7\n}\n",
    )?;
    Ok(draft.into_text())
}

// Attributes of a JSON object: strings with escapes, and lists.
const STRING: &str = "  \"%a%%\": \"%b\\n\\t\\\"%c\\\" ${%d} \\u00e9\\\\\",\n";

const LIST: &str = "  \"%a%%\": [ %0, -%1, %2.5, true, null ],\n";

/// A JSON object with about `names` names, whose values are strings with escapes and lists.
pub fn flat(alloc: Global, words: &Words, seed: u64, names: usize) -> Result<String, AllocError> {
    let mut draft = Draft::new(alloc, words, seed);
    let (string, list) = (Template::new(alloc, STRING)?, Template::new(alloc, LIST)?);
    draft.push("{\n")?;
    for _turn in 0..names / 2 {
        draft.fill(&string)?;
        draft.fill(&list)?;
    }
    draft.push("  \"last\": 0\n}\n")?;
    Ok(draft.into_text())
}

/// A list of numbers in JSON.
pub fn numbers(
    alloc: Global,
    words: &Words,
    seed: u64,
    count: usize,
) -> Result<String, AllocError> {
    let mut draft = Draft::new(alloc, words, seed);
    draft.push("[\n")?;
    draft.repeat(&Template::new(alloc, "  1%0%1%2,\n  %3,\n")?, count / 2)?;
    draft.push("  0\n]\n")?;
    Ok(draft.into_text())
}

// A pin in Nix.
const PIN: &str = r#"  # %a of %b
  "%a-%%" = {
    version = "%0.%1.%2"; # %c
    src = { url = "https://%d.org/%a.tar.gz"; hash = "sha256-%e%f%g%h%i="; };
    tags = [ "%j" %0 ];
  };
"#;

/// A set of pins in Nix.
pub fn pins(alloc: Global, words: &Words, seed: u64, count: usize) -> Result<String, AllocError> {
    let mut draft = Draft::new(alloc, words, seed);
    draft.push("{\n")?;
    draft.repeat(&Template::new(alloc, PIN)?, count)?;
    draft.push("}\n")?;
    Ok(draft.into_text())
}

// Attributes of nested paths.
const PATHS: &str =
    "  services.%a%%.enable = true;\n  services.%a%%.port = %0;\n  services.%a%%.users.%b.name = \"%c \\\"%d\\\"\";\n";

// An attribute whose value is a list.
const HOSTS: &str = "  hosts.%a%% = [ %0 \"%b\" ./%c/%d.nix ];\n";

/// A set in Nix whose attributes have nested paths.
pub fn paths(alloc: Global, words: &Words, seed: u64, count: usize) -> Result<String, AllocError> {
    let mut draft = Draft::new(alloc, words, seed);
    let (paths, hosts) = (Template::new(alloc, PATHS)?, Template::new(alloc, HOSTS)?);
    draft.push("{\n")?;
    for _entry in 0..count / 10 {
        draft.repeat(&paths, 10)?;
        draft.fill(&hosts)?;
    }
    draft.push("}\n")?;
    Ok(draft.into_text())
}
