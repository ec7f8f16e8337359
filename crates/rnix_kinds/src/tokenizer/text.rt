//! Bytes and runs of bytes of a text.

ghost use Rattle.std.specs.Prelude.{◌≡◌, ◌<◌, ◌≤◌, true, length, slice_index};
ghost use Rattle.std.specs.List.{prefix_len};
ghost use Rattle.rnix_kinds.specs.Lexical.Texts.{run_end, before_pair, char_len, begins_space, space_len};
ghost use Rattle.rnix_kinds.specs.Lexical.Classes.{class_test};
ghost use Rattle.rnix_kinds.specs.Lexical.ClassTable.{has_flag};

use super::long::{LongClass, long_run_end};

/// A set of bytes whose runs are tokens or parts of tokens.
#[derive(Clone, Copy)]
pub enum Class {
    Digit,
    /// A letter, a digit, `_`, `-` or `'`.
    Name,
    /// A path character.
    Path,
    /// A path character other than `/`.
    Step,
    /// A path character other than `/` and `_`.
    Scheme,
    /// A path character or `<`.
    Angle,
    Uri,
    /// Any byte but a line feed.
    Line,
    /// Any byte but `"`, `\`, `$` and `'`.
    Content,
    /// ASCII white space.
    Blank,
    /// Any byte but `*`.
    Comment,
}

const DIGIT: u8 = 1;

const NAME: u8 = 2;

const PATH: u8 = 4;

const STEP: u8 = 8;

const SCHEME: u8 = 16;

const ANGLE: u8 = 32;

const URI: u8 = 64;

const CONTENT: u8 = 128;

// For each byte, the flags of the classes that contain it.
static CLASSES: [u8; 256] = [
    128, 128, 128, 128, 128, 128, 128, 128, 128, 128, 128, 128, 128, 128, 128, 128, 128, 128, 128,
    128, 128, 128, 128, 128, 128, 128, 128, 128, 128, 128, 128, 128, 128, 192, 0, 128, 64, 192,
    192, 66, 128, 128, 192, 252, 192, 254, 252, 228, 255, 255, 255, 255, 255, 255, 255, 255, 255,
    255, 192, 128, 160, 192, 128, 192, 192, 254, 254, 254, 254, 254, 254, 254, 254, 254, 254, 254,
    254, 254, 254, 254, 254, 254, 254, 254, 254, 254, 254, 254, 254, 254, 254, 128, 0, 128, 128,
    238, 128, 254, 254, 254, 254, 254, 254, 254, 254, 254, 254, 254, 254, 254, 254, 254, 254, 254,
    254, 254, 254, 254, 254, 254, 254, 254, 254, 128, 128, 128, 192, 128, 128, 128, 128, 128, 128,
    128, 128, 128, 128, 128, 128, 128, 128, 128, 128, 128, 128, 128, 128, 128, 128, 128, 128, 128,
    128, 128, 128, 128, 128, 128, 128, 128, 128, 128, 128, 128, 128, 128, 128, 128, 128, 128, 128,
    128, 128, 128, 128, 128, 128, 128, 128, 128, 128, 128, 128, 128, 128, 128, 128, 128, 128, 128,
    128, 128, 128, 128, 128, 128, 128, 128, 128, 128, 128, 128, 128, 128, 128, 128, 128, 128, 128,
    128, 128, 128, 128, 128, 128, 128, 128, 128, 128, 128, 128, 128, 128, 128, 128, 128, 128, 128,
    128, 128, 128, 128, 128, 128, 128, 128, 128, 128, 128, 128, 128, 128, 128, 128, 128, 128, 128,
    128, 128, 128, 128, 128, 128, 128, 128, 128,
];

// Whether the byte has the flag.
#[inline(always)]
fn has_flag(flag: u8, b: u8) -> bool
    ensures { result ≡ has_flag flag b }
{
    CLASSES[b as usize] & flag != 0
}

/// Returns whether the byte is in the class.
#[inline(always)]
pub fn is_in(class: Class, b: u8) -> bool
    ensures { result ≡ class_test class b }
{
    match class {
        Class::Digit => has_flag(DIGIT, b),
        Class::Name => has_flag(NAME, b),
        Class::Path => has_flag(PATH, b),
        Class::Step => has_flag(STEP, b),
        Class::Scheme => has_flag(SCHEME, b),
        Class::Angle => has_flag(ANGLE, b),
        Class::Uri => has_flag(URI, b),
        Class::Content => has_flag(CONTENT, b),
        Class::Line => b != b'\n',
        Class::Blank => matches!(b, b' ' | b'\t'..=b'\r'),
        Class::Comment => b != b'*',
    }
}

/// Returns the byte at `index`, or 0 past the end.
#[inline]
pub fn byte_of(bytes: &[u8], index: usize) -> u8
    ensures { result ≡ slice_index bytes.now index }
{
    if index < bytes.len() { bytes[index] } else { 0 }
}

/// Returns the byte of a text at `index`, or 0 past the end.
#[inline]
pub fn byte_at(text: &str, index: usize) -> u8
    ensures { result ≡ slice_index text.now index }
{
    byte_of(text.as_bytes(), index)
}

// The length of the longest run at the front.
#[inline(always)]
fn run_len(bytes: &[u8], class: Class) -> usize
    ensures len { result ≡ prefix_len (class_test class) bytes.now }
    ensures within { result ≤ length bytes.now }
{
    bytes.iter().take_while(|b| is_in(class, **b)).count()
}

/// Returns where the longest run of the class ends that begins at `from`.
#[inline]
pub fn run_end_of(bytes: &[u8], from: usize, class: Class) -> usize
    requires { from ≤ length bytes.now }
    ensures end { result ≡ run_end (class_test class) from bytes.now }
    ensures within { result ≤ length bytes.now }
    ensures onward { from ≤ result }
{
    from + run_len(&bytes[from..], class)
}

/// Returns where the longest run of the class ends that begins at the byte `from` of a text.
#[inline]
pub fn run_end(text: &str, from: usize, class: Class) -> usize
    requires { from ≤ length text.now }
    ensures end { result ≡ run_end (class_test class) from text.now }
    ensures within { result ≤ length text.now }
    ensures onward { from ≤ result }
{
    run_end_of(text.as_bytes(), from, class)
}

// Returns the number of bytes of white space at the start, in any characters.
#[inline(never)]
fn wide_space_len(text: &str) -> usize
    ensures { result ≡ space_len text.now }
{
    text.len() - text.trim_start().len()
}

/// Returns the number of bytes of white space at the start of the text.
#[inline(never)]
pub fn space_len(text: &str) -> usize
    ensures { result ≡ space_len text.now }
{
    if is_in(Class::Blank, byte_at(text, 0)) {
        let blanks = long_run_end(text.as_bytes(), 1, LongClass::Blank);
        if byte_at(text, blanks) < 128 {
            return blanks;
        }
    }
    wide_space_len(text)
}

/// Returns the number of bytes of white space at the start of a text that begins with a blank. Most often it is one, and no call is needed.
#[inline(always)]
pub fn blank_len(text: &str) -> usize
    requires { class_test Class.Blank (slice_index text.now 0) ≡ true }
    ensures { result ≡ space_len text.now }
{
    match byte_at(text, 1) {
        b'!'..=b'~' => 1,
        _ => space_len(text),
    }
}

/// Returns whether the text begins with white space.
pub fn begins_space(text: &str) -> bool
    ensures { result ≡ begins_space text.now }
{
    match text.chars().next() {
        Some(c) => c.is_whitespace(),
        None => false,
    }
}

/// Returns the length of the first character.
pub fn char_len(text: &str) -> usize
    requires { 0 < length text.now }
    ensures value { result ≡ char_len text.now }
    ensures within { result ≤ length text.now }
{
    match text.chars().next() {
        Some(c) => c.len_utf8(),
        None => 1,
    }
}

/// Returns the number of bytes before the first `a` that `b` follows; if there is none, of all bytes.
pub fn before_pair(bytes: &[u8], a: u8, b: u8) -> usize
    ensures value { result ≡ before_pair a b bytes.now }
    ensures within { result ≤ length bytes.now }
{
    for at in 0..bytes.len() {
        if bytes[at] == a && byte_of(bytes, at + 1) == b {
            return at;
        }
    }
    bytes.len()
}
