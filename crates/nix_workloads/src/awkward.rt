//! Texts that nobody writes by hand.

use crate::check::{add_formatted, check_text};
use crate::convert::add_no_data;
use crate::digest::Digest;
use crate::draft::Draft;
use crate::numbers::{Numbers, mixed};
use crate::results::{add_edit, add_element, add_parse};
use crate::template::Template;
use crate::words::Words;
use nix_data::data_of;
use nix_values::json_of;
use rnix::{Root, TextRange};
use rnix_text::Edits;
use std::alloc::{AllocError, Global};
use std::io;

// A text of one template, `times` times a second one, and a third one.
fn repeated(
    alloc: Global,
    words: &Words,
    seed: u64,
    row: [&'static str; 3],
    times: usize,
) -> Result<String, AllocError> {
    let mut draft = Draft::new(alloc, words, seed);
    draft.fill_by(&Template::new(alloc, row[0])?, seed)?;
    draft.repeat(&Template::new(alloc, row[1])?, times)?;
    draft.fill_by(&Template::new(alloc, row[2])?, seed)?;
    Ok(draft.into_text())
}

// Rows of templates, each with the number of its repetitions for each unit of the size.
const ROWS: [([&str; 3], usize); 9] = [
    // brackets that are not closed
    (["", "[(%a ", ""], 150),
    // an error at each entry
    (["{\n", "  %a = ;\n  %b 1;\n", "}\n"], 100),
    // one pattern, one list, one set
    (["{\n", "  %a%%,\n", "  ...\n}:\n%a\n"], 300),
    (["[\n", "  %a%%\n", "]\n"], 500),
    (["{ ", "%a%% = { %b = 1; }; ", "}"], 200),
    // chains of calls, of operators and of selections
    (["%a", " %b%%", "\n"], 500),
    (["%a", " ++ %b", "\n"], 400),
    (["{ x = %a", ".%b%%", "; }\n"], 300),
    // one string
    (["''\n", "  %a ${%b}\n    %c ''$ %d\n", "''\n"], 150),
];

// How many functions are in one another at most: less than the 512 levels that the parser reads.
const MOST_FUNCTIONS: usize = 480;

// Functions in functions. The innermost one uses the name of the outermost one, and names that none of them binds.
fn scopes(alloc: Global, words: &Words, seed: u64, uses: usize) -> Result<String, AllocError> {
    let mut draft = Draft::new(alloc, words, seed);
    let (function, names) = ("%a%%: ", "  outer\n  %a\n");
    draft.push("outer: ")?;
    let inner = uses.min(MOST_FUNCTIONS - 1);
    draft.repeat(&Template::new(alloc, function)?, inner)?;
    draft.push("[\n")?;
    draft.repeat(&Template::new(alloc, names)?, uses)?;
    draft.push("]\n")?;
    Ok(draft.into_text())
}

// A Nix set whose names are long and differ only at the end.
fn alike(alloc: Global, words: &Words, seed: u64, names: usize) -> Result<String, AllocError> {
    let mut draft = Draft::new(alloc, words, seed);
    draft.push("{\n")?;
    let row = "  an-attribute-whose-name-is-long-and-ends-in-%% = %0;\n";
    draft.repeat(&Template::new(alloc, row)?, names)?;
    draft.push("}\n")?;
    Ok(draft.into_text())
}

// Adds the data of a text, as JSON.
fn add_data(alloc: Global, text: &str, digest: &mut Digest) -> Result<(), AllocError> {
    match data_of(alloc, text)? {
        Ok(data) => match json_of(alloc, &data)? {
            Some(json) => digest.add_text(json.as_str()),
            None => digest.add_number(0),
        },
        Err(found) => add_no_data(&found, digest),
    }
    Ok(())
}

// Empties each line but the first, each by an edit, from the last line on.
fn edit_backwards(alloc: Global, text: &str, digest: &mut Digest) -> Result<(), AllocError> {
    let mut edits = Edits::new(alloc, text);
    let mut end = text.len();
    for _line in 0..text.len() {
        let Some(start) = text.get(..end).unwrap_or("").rfind('\n') else {
            break;
        };
        add_edit(edits.replace(start..end, "\n"), digest);
        end = start;
    }
    digest.add_text(edits.apply(alloc)?.as_str());
    Ok(())
}

// Adds the elements that cover random ranges of a text.
fn add_covers(alloc: Global, text: &str, seed: u64, digest: &mut Digest) -> Result<(), AllocError> {
    let read = Root::parse(alloc, text)?;
    add_parse(&read, digest);
    let root = read.syntax();
    let mut numbers = Numbers::new(seed);
    for _place in 0..100 {
        let start = numbers.below(text.len());
        let range = TextRange::new(start, start.saturating_add(2));
        if let Some(element) = root.covering_element(range) {
            add_element(&element, digest);
        }
    }
    Ok(())
}

// Checks a text for each row of templates.
fn check_rows(
    alloc: Global,
    words: &Words,
    seed: u64,
    size: usize,
    digest: &mut Digest,
) -> Result<(), AllocError> {
    for (row, times) in ROWS {
        let text = repeated(alloc, words, seed, row, times.saturating_mul(size))?;
        check_text(alloc, text.as_str(), digest)?;
    }
    Ok(())
}

/// Reads texts of each shape. The numbers of repetitions grow with `size`.
pub fn awkward(
    alloc: Global,
    words: &Words,
    seed: u64,
    size: usize,
    digest: &mut Digest,
) -> io::Result<()> {
    let seed = mixed(seed);
    check_rows(alloc, words, seed, size, digest)?;
    let (line, lines) = (["[ ", "(%a 1) ", "]"], ["[\n", "  %a\n", "]\n"]);
    let long = repeated(alloc, words, mixed(seed), line, size.saturating_mul(1000))?;
    add_formatted(alloc, long.as_str(), digest)?;
    let listed = repeated(alloc, words, seed ^ 1, lines, size.saturating_mul(300))?;
    add_covers(alloc, listed.as_str(), seed, digest)?;
    edit_backwards(alloc, listed.as_str(), digest)?;
    let nested = scopes(alloc, words, seed, size.saturating_mul(80))?;
    check_text(alloc, nested.as_str(), digest)?;
    let named = alike(alloc, words, seed, size.saturating_mul(200))?;
    add_data(alloc, named.as_str(), digest)?;
    Ok(())
}
