//! The contents of comments.

ghost use Rattle.std.specs.Prelude.{◌≡◌, ◌≤◌, length, reverse};
ghost use Rattle.std.specs.List.{prefix_len};
ghost use Rattle.nix_formatting.specs.Comments.{is_blank, after_blanks, before_blanks, inside_marks, contents_of};

// Returns whether a byte is a space, a tab or a carriage return.
fn is_blank(byte: u8) -> bool
    ensures { result ≡ is_blank byte }
{
    byte == b' ' || byte == b'\t' || byte == b'\r'
}

// Returns the number of blanks at the start of a text.
fn blanks_at_start(text: &[u8]) -> usize
    ensures count { result ≡ prefix_len is_blank text.now }
    ensures within { result ≤ length text.now }
{
    text.iter().take_while(|byte| is_blank(**byte)).count()
}

// Returns the number of blanks at the end of a text.
fn blanks_at_end(text: &[u8]) -> usize
    ensures count { result ≡ prefix_len is_blank (reverse text.now) }
    ensures within { result ≤ length text.now }
{
    text.iter()
        .rev()
        .take_while(|byte| is_blank(**byte))
        .count()
}

// Returns a text without the blanks at its start.
fn after_blanks(text: &[u8]) -> &[u8]
    ensures { result.now ≡ after_blanks text.now }
{
    &text[blanks_at_start(text)..]
}

// Returns a text without the blanks at its end.
fn before_blanks(text: &[u8]) -> &[u8]
    ensures { result.now ≡ before_blanks text.now }
{
    &text[..text.len() - blanks_at_end(text)]
}

// Returns the bytes of a comment after `#`, or between `/*` and `*/`.
fn inside_marks(comment: &[u8]) -> &[u8]
    ensures { result.now ≡ inside_marks comment.now }
{
    match comment {
        [] => comment,
        [first, rest @ ..] => {
            if *first == b'#' {
                rest
            } else if rest.len() < 3 {
                &rest[rest.len()..]
            } else {
                &rest[1..rest.len() - 2]
            }
        }
    }
}

/// Returns the contents of a comment: the bytes between its marks, without the blanks at both ends.
pub fn contents_of(comment: &[u8]) -> &[u8]
    ensures { result.now ≡ contents_of comment.now }
{
    before_blanks(after_blanks(inside_marks(comment)))
}
