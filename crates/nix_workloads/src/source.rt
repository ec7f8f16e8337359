//! Sources with many names.

use crate::draft::Draft;
use crate::template::Template;
use crate::words::Words;
use std::alloc::{AllocError, Global};

// An entry of a set of options.
const OPTION: &str = r#"  services.%a.enable = lib.mkEnableOption "the %b";
  services.%a.text = "a \"%c\" of ${lib.%d config.%a.name} and\t%e";
  services.%a.script = ''
      install ${pkgs.%a}/bin/%b $out
        echo "%c" ''${%d}
      # ${toString (map (%f: %f + %0) [ 1 2 %1 ])}
  '';
  users.%a = if config.%a.enable && !config.%b.off or false then { uid = %0; } else null;
"#;

/// A module with `options` options.
pub fn module(
    alloc: Global,
    words: &Words,
    seed: u64,
    options: usize,
) -> Result<String, AllocError> {
    let mut draft = Draft::new(alloc, words, seed);
    draft.push("{ config, lib, pkgs, ... }:\n{\n")?;
    draft.repeat(&Template::new(alloc, OPTION)?, options)?;
    draft.push("}\n")?;
    Ok(draft.into_text())
}

// What a `let` inside a function begins with.
const OPENED: &str =
    "%a: { %b, %c1 ? %a, ... }@%d2: let\n  %e = %b.%f or (%c1 %a);\n  %g = %j: %j + %e;\n  inherit (%d2) %h;\nin ";

// A use of these names.
const USED: &str = "(%g (%e + %h.%i)) ";

// The beginning of an entry, up to its value.
const NAMED: &str = "%a-%% = ";

// The templates of lets in functions in lets.
#[derive(Drop)]
struct Nesting {
    named: Template,
    opened: Template,
    used: Template,
}

// Adds a template for each level, whose words are those of the level.
fn fill_levels(
    draft: &mut Draft<'_>,
    template: &Template,
    base: u64,
    depth: usize,
) -> Result<(), AllocError> {
    for level in 0..depth {
        draft.fill_by(template, base.wrapping_add(level as u64))?;
    }
    Ok(())
}

// Adds an entry: lets in functions in lets, and a call in the innermost one that uses the names of all.
fn push_entry(draft: &mut Draft<'_>, nesting: &Nesting) -> Result<(), AllocError> {
    draft.fill(&nesting.named)?;
    let depth = draft.numbers().below(16).saturating_add(5);
    let base = draft.numbers().next();
    fill_levels(draft, &nesting.opened, base, depth)?;
    draft.push("f ")?;
    fill_levels(draft, &nesting.used, base, depth)?;
    draft.push(";\n")
}

/// A set whose values are lets in functions in lets, 5 to 20 deep.
pub fn lets(alloc: Global, words: &Words, seed: u64, entries: usize) -> Result<String, AllocError> {
    let mut draft = Draft::new(alloc, words, seed);
    let nesting = Nesting {
        named: Template::new(alloc, NAMED)?,
        opened: Template::new(alloc, OPENED)?,
        used: Template::new(alloc, USED)?,
    };
    draft.push("{ f }: rec {\n")?;
    for _entry in 0..entries {
        push_entry(&mut draft, &nesting)?;
    }
    draft.push("}\n")?;
    Ok(draft.into_text())
}

// A use of a name, alone and in a string.
const USE: &str = "  %a%% = call { %b = version; %c = \"${version}-%0\"; };\n";

/// A set in which one name is bound once and used twice in each of `entries` entries.
pub fn uses(alloc: Global, words: &Words, seed: u64, entries: usize) -> Result<String, AllocError> {
    let mut draft = Draft::new(alloc, words, seed);
    draft.push("let version = \"1.2\"; call = x: x; in {\n")?;
    draft.repeat(&Template::new(alloc, USE)?, entries)?;
    draft.push("}\n")?;
    Ok(draft.into_text())
}
