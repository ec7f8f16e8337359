//! Stored lists. A case is a line with two lengths, then a text of the first length in bytes, then its stored result, of the second length, then the
//! end of the line.

/// A text, and its stored result.
#[derive(Clone, Copy)]
pub struct Case<'a> {
    pub text: &'a str,
    pub wanted: &'a str,
}

// The first line, without its end, and what follows it.
fn first_line(list: &str) -> Option<(&str, &str)> {
    list.split_once('\n')
}

// The first `len` bytes, and what follows them.
fn cut<'a>(list: &'a str, len: &str) -> Option<(&'a str, &'a str)> {
    list.split_at_checked(len.parse().ok()?)
}

/// The first case of a list, and the cases after it; `None` if there is no case.
pub fn first_case(list: &str) -> Option<(Case<'_>, &str)> {
    let (head, rest) = first_line(list)?;
    let (text_len, wanted_len) = head.split_once(' ')?;
    let (text, rest) = cut(rest, text_len)?;
    let (wanted, rest) = cut(rest, wanted_len)?;
    let (_end, rest) = first_line(rest)?;
    Some((Case { text, wanted }, rest))
}
