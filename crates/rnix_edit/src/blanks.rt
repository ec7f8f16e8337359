//! Blanks and line breaks in a text.

ghost use Rattle.std.specs.Prelude.{◌≡◌, ◌≤◌, length, slice_index};
ghost use Rattle.std.specs.List.{prefix_len};
ghost use Rattle.rnix_edit.specs.Blanks.{is_blank, byte_before, begins_line, blanks_start, blanks_before, blanks_end, line_break_before, follows_opening};

// Returns whether a byte is white space within a line.
fn is_blank(byte: u8) -> bool
    ensures { result ≡ is_blank byte }
{
    byte == b' ' || byte == b'\t'
}

// Returns the byte at an offset, or 0 if the text ends before it.
#[tactic(auto, using(std::proofs::lemmas::List::get_or_past))]
fn byte_at(text: &str, offset: usize) -> u8
    ensures { result ≡ slice_index text.now offset }
{
    let bytes = text.as_bytes();
    if offset < bytes.len() {
        bytes[offset]
    } else {
        0
    }
}

// Returns the byte before an offset, or a line feed at the start of the text.
fn byte_before(text: &str, offset: usize) -> u8
    ensures { result ≡ byte_before text.now offset }
{
    if offset == 0 {
        b'\n'
    } else {
        byte_at(text, offset - 1)
    }
}

/// Returns whether a line begins at an offset.
pub fn begins_line(text: &str, offset: usize) -> bool
    ensures { result ≡ begins_line text.now offset }
{
    byte_before(text, offset) == b'\n'
}

/// Returns whether an opening bracket precedes an offset.
pub fn follows_opening(text: &str, offset: usize) -> bool
    ensures { result ≡ follows_opening text.now offset }
{
    let byte = byte_before(text, offset);
    byte == b'{' || byte == b'[' || byte == b'('
}

// Returns whether a blank precedes an offset.
fn has_blank_before(text: &str, offset: usize) -> bool
    ensures { result ≡ is_blank (byte_before text.now offset) }
{
    is_blank(byte_before(text, offset))
}

/// Returns the start of the blanks before an offset.
pub fn blanks_start(text: &str, offset: usize) -> usize
    ensures { result ≡ blanks_start text.now offset }
{
    let mut start = offset;
    while has_blank_before(text, start) {
        start -= 1;
    }
    start
}

/// Returns the blanks before an offset.
pub fn blanks_before(text: &str, offset: usize) -> &str
    ensures { result.now ≡ blanks_before text.now offset }
{
    let start = blanks_start(text, offset);
    match text.get(start..offset) {
        Some(blanks) => blanks,
        None => "",
    }
}

// Returns the number of blanks at the start of some bytes.
fn blanks_len(bytes: &[u8]) -> usize
    ensures len { result ≡ prefix_len is_blank bytes.now }
    ensures within { result ≤ length bytes.now }
{
    let mut end = 0;
    while end < bytes.len() && is_blank(bytes[end]) {
        end += 1;
    }
    end
}

/// Returns the end of the blanks after an offset.
pub fn blanks_end(text: &str, offset: usize) -> usize
    ensures { result ≡ blanks_end text.now offset }
{
    let bytes = text.as_bytes();
    if offset < bytes.len() {
        offset + blanks_len(&bytes[offset..])
    } else {
        offset
    }
}

/// Returns the line break that ends at an offset, or a line feed if none does.
pub fn line_break_before(text: &str, offset: usize) -> &'static str
    ensures { result.now ≡ line_break_before text.now offset }
{
    if begins_line(text, offset) && byte_before(text, offset.saturating_sub(1)) == b'\r' {
        "\r\n"
    } else {
        "\n"
    }
}
