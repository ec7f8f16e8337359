//! Paths.

ghost use Rattle.std.specs.Prelude.{◌≡◌, ◌<◌, ◌≤◌, Some, true, length, slice_index};
ghost use Rattle.std.specs.List.{prefix_len};
ghost use Rattle.rnix_kinds.specs.Lexical.Classes.{class_test};
ghost use Rattle.rnix_kinds.specs.Lexical.Paths.{is_broken, segment, first_segment, slash, home, goes_on_as_path, relative, search_path, path_goes_on, path_cut};

use super::rule::{Change, Cut, Mode, PathStart, plain};
use super::text::{Class, before_pair, begins_space, byte_at, byte_of, char_len, is_in, run_end};
use crate::kinds::SyntaxKind;

// Whether a segment ends with `/` or holds `//`.
fn is_broken(segment: &[u8]) -> bool
    requires { 0 < length segment.now }
    ensures { result ≡ is_broken segment.now }
{
    byte_of(segment, segment.len() - 1) == b'/' || before_pair(segment, b'/', b'/') < segment.len()
}

// A segment whose path characters begin at `from`. It changes the modes by `going` if `${` follows, and otherwise by `ended`.
fn segment(text: &str, start: PathStart, going: Change, ended: Change, from: usize) -> Cut
    requires there { from < length text.now }
    requires some { class_test Class.Path (slice_index text.now from) ≡ true }
    ensures { result ≡ segment start going ended from text.now }
{
    let len = run_end(text, from, Class::Path);
    if byte_at(text, len) == b'$' && byte_at(text, len + 1) == b'{' {
        return Cut {
            kind: start.kind(),
            len,
            change: going,
        };
    }
    let kind = if is_broken(&text.as_bytes()[..len]) {
        SyntaxKind::TOKEN_ERROR
    } else {
        start.kind()
    };
    Cut {
        kind,
        len,
        change: ended,
    }
}

// The segment that begins a path.
fn first_segment(text: &str, start: PathStart, from: usize) -> Cut
    requires there { from < length text.now }
    requires some { class_test Class.Path (slice_index text.now from) ≡ true }
    ensures { result ≡ first_segment start from text.now }
{
    segment(
        text,
        start,
        Change::Open(Mode::Path(start)),
        Change::Stay,
        from,
    )
}

/// Returns `//`, an absolute path, or a division.
#[inline(always)]
pub fn slash(text: &str) -> Cut
    requires { slice_index text.now 0 ≡ 47 }
    ensures { Some result ≡ slash text.now }
{
    let second = byte_at(text, 1);
    if second == b'/' {
        plain(SyntaxKind::TOKEN_UPDATE, 2)
    } else if second == b'$' && byte_at(text, 2) == b'{' || is_in(Class::Path, second) {
        first_segment(text, PathStart::Root, 0)
    } else {
        plain(SyntaxKind::TOKEN_DIV, 1)
    }
}

/// Returns a path from the home folder, or an error over `~` and the next character.
#[inline(always)]
pub fn home(text: &str) -> Cut
    requires { slice_index text.now 0 ≡ 126 }
    ensures { Some result ≡ home text.now }
{
    if byte_at(text, 1) == b'/' {
        return first_segment(text, PathStart::Home, 1);
    }
    let len = if text.len() == 1 {
        1
    } else {
        1 + char_len(&text[1..])
    };
    plain(SyntaxKind::TOKEN_ERROR, len)
}

// Returns whether `/` and a character of a path follow the first `len` bytes.
fn goes_on_as_path(text: &str, len: usize) -> bool
    requires { len ≤ length text.now }
    ensures { result ≡ goes_on_as_path len text.now }
{
    byte_at(text, len) == b'/'
        && len + 1 < text.len()
        && byte_at(text, len + 1) != b'/'
        && byte_at(text, len + 1) != b'*'
        && !begins_space(&text[len + 1..])
}

/// Returns a relative path; `step` is the length of the run of path characters other than `/`.
#[inline(always)]
pub fn relative(text: &str, step: usize) -> Option<Cut>
    requires { step ≡ prefix_len (class_test Class.Step) text.now }
    ensures { result ≡ relative text.now }
{
    // Testing the byte first saves a call after most names.
    if step > 0 && byte_at(text, step) == b'/' && goes_on_as_path(text, step) {
        Some(first_segment(text, PathStart::Relative, 0))
    } else {
        None
    }
}

/// Returns a search path; `angle` is the length of the run of path characters and `<`.
#[inline(always)]
pub fn search_path(text: &str, angle: usize) -> Option<Cut>
    requires { slice_index text.now 0 ≡ 60 → angle ≡ prefix_len (class_test Class.Angle) text.now }
    ensures { result ≡ search_path text.now }
{
    if byte_at(text, 0) != b'<' || byte_at(text, angle) != b'>' {
        return None;
    }
    let end = run_end(text, 1, Class::Path);
    if end == 1 {
        Some(plain(SyntaxKind::TOKEN_LESS, 1))
    } else if byte_at(text, end) == b'>' {
        Some(plain(SyntaxKind::TOKEN_PATH_SEARCH, end + 1))
    } else {
        Some(plain(SyntaxKind::TOKEN_ERROR, end + 1))
    }
}

/// Returns whether a path continues after an interpolation.
pub fn path_goes_on(text: &str) -> bool
    ensures { result ≡ path_goes_on text.now }
{
    byte_at(text, 0) == b'$' && byte_at(text, 1) == b'{' || is_in(Class::Path, byte_at(text, 0))
}

/// Returns the token that continues a path after an interpolation: a segment, or another interpolation.
#[inline(always)]
pub fn path(text: &str, start: PathStart) -> Cut
    requires { path_goes_on text.now ≡ true }
    ensures { result ≡ path_cut start text.now }
{
    if byte_at(text, 0) == b'$' && byte_at(text, 1) == b'{' {
        return Cut {
            kind: SyntaxKind::TOKEN_INTERPOL_START,
            len: 2,
            change: Change::Open(Mode::Interpolation(0)),
        };
    }
    segment(text, start, Change::Stay, Change::Close, 0)
}
