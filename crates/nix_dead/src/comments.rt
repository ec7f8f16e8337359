//! Comments that leave out the names of the next line: `# deadnix: skip`, and `# nix-check: ignore unused-name`.

ghost use Rattle.std.specs.Prelude.{◌≡◌};
ghost use Rattle.nix_lints.specs.Ignored.{is_blank, is_separator, ends_before, begins_with_name, has_name, without_blanks, names_of};
ghost use Rattle.nix_dead.specs.Skipped.{is_skip, leaves_out};

// The comment that leaves out all names.
const SKIP: &[u8] = b"# deadnix: skip";

// How a comment that leaves out findings begins; the names of lints follow.
const IGNORE: &[u8] = b"# nix-check: ignore";

// The name of the lint.
const UNUSED: &[u8] = b"unused-name";

// Returns whether a byte is a space, a tab or a carriage return.
fn is_blank(byte: u8) -> bool
    ensures { result ≡ is_blank byte }
{
    byte == b' ' || byte == b'\t' || byte == b'\r'
}

// Returns whether a byte separates names.
fn is_separator(byte: u8) -> bool
    ensures { result ≡ is_separator byte }
{
    is_blank(byte) || byte == b','
}

// Returns whether a name ends before a text.
fn ends_before(text: &[u8]) -> bool
    ensures { result ≡ ends_before text.now }
{
    match text.first() {
        Some(byte) => is_separator(*byte),
        None => true,
    }
}

// Returns whether a text begins with a whole name.
fn begins_with_name(text: &[u8], name: &[u8]) -> bool
    ensures { result ≡ begins_with_name text.now name.now }
{
    text.starts_with(name) && ends_before(&text[name.len()..])
}

// Returns whether a name is among those in a text, each of which follows a separator.
fn has_name(text: &[u8], name: &[u8]) -> bool
    ensures { result ≡ has_name text.now name.now }
{
    for number in 0..text.len() {
        if is_separator(text[number]) && begins_with_name(&text[number + 1..], name) {
            return true;
        }
    }
    false
}

// Returns a line without the blanks before it.
fn without_blanks(line: &[u8]) -> &[u8]
    ensures { result.now ≡ without_blanks line.now }
{
    for number in 0..line.len() {
        if !is_blank(line[number]) {
            return &line[number..];
        }
    }
    &[]
}

// Returns the names of lints in a line, if it is a comment with such names.
fn names_of(line: &[u8]) -> &[u8]
    ensures { result.now ≡ names_of line.now }
{
    let comment = without_blanks(line);
    if comment.starts_with(IGNORE) {
        &comment[IGNORE.len()..]
    } else {
        &[]
    }
}

// Returns whether a line is a comment that leaves out all names.
fn is_skip(line: &[u8]) -> bool
    ensures { result ≡ is_skip line.now }
{
    begins_with_name(without_blanks(line), SKIP)
}

/// Returns whether a line leaves out the unused names of the next line.
pub fn leaves_out(line: &[u8]) -> bool
    ensures { result ≡ leaves_out line.now }
{
    is_skip(line) || has_name(names_of(line), UNUSED)
}
