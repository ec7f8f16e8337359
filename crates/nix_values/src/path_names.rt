//! The names of a dotted path.

ghost use Rattle.std.specs.Prelude.{◌≡◌, ◌==◌, Some, None, map, option_map, IfOk, OnOk, if◌then◌else◌};
ghost use Rattle.nix_values.specs.PathNames.{name_of, path_names, with_digit, index_of, unescaped};

use std::alloc::{AllocError, Global};
use std::mem;

/// A name of a path.
#[derive(Drop)]
pub struct PathName {
    /// The name.
    pub text: String,
    /// The index of a list item, if the name is a number. A name in quotes is that of an attribute, even if it is a number.
    pub index: Option<usize>,
}

// The part of a path that was read last.
#[derive(Clone, Copy, PartialEq, Eq)]
enum State {
    // Nothing of the current name.
    Start,
    // A part of a name without quotes.
    Plain,
    // A part of a name in quotes.
    Quoted,
    // A backslash in quotes.
    Escape,
    // The closing quote of a name.
    Closed,
}

// A path that is being read.
#[derive(Drop)]
struct Reading {
    alloc: Global,
    names: Vec<PathName>,
    text: String,
    is_quoted: bool,
    state: State,
}

// Returns the character that a backslash and a letter mean in quotes.
fn unescaped(letter: char) -> char
    ensures { result ≡ unescaped letter }
{
    match letter {
        'n' => '\n',
        'r' => '\r',
        't' => '\t',
        _ => letter,
    }
}

// Returns a number with one more digit, if the byte is one and the number fits.
fn with_digit(number: usize, byte: u8) -> Option<usize>
    ensures { result ≡ with_digit number byte }
{
    if !byte.is_ascii_digit() {
        return None;
    }
    number.checked_mul(10)?.checked_add((byte - b'0') as usize)
}

// Returns the index that a name is, if it is digits.
fn index_of(name: &[u8]) -> Option<usize>
    ensures { result ≡ index_of name.now }
{
    let (first, others) = name.split_first()?;
    let mut index = with_digit(0, *first)?;
    let mut rest = others;
    while let Some((digit, after)) = rest.split_first() {
        index = with_digit(index, *digit)?;
        rest = after;
    }
    Some(index)
}

impl Reading {
    ghost use Rattle.nix_values.specs.PathNames.{name_of, progress_of, added, opened, ended, plain_read, quoted_read, letter_read, finished};

    // Adds a character to the name.
    fn add(&mut self, letter: char, state: State) -> Result<(), AllocError>
        ensures { OnOk result (progress_of self.new ≡ added letter state (progress_of self.old)) }
    {
        self.state = state;
        self.text.push(letter)
    }

    // Ends the name.
    fn end_name(&mut self) -> Result<(), AllocError>
        ensures { OnOk result (progress_of self.new ≡ ended (progress_of self.old)) }
    {
        self.names.reserve(1)?;
        let text = mem::replace(&mut self.text, String::new(self.alloc));
        let index = if self.is_quoted {
            None
        } else {
            index_of(text.as_str().as_bytes())
        };
        self.names.push(PathName { text, index })?;
        self.is_quoted = false;
        self.state = State::Start;
        Ok(())
    }

    // Reads a character of a name without quotes.
    fn read_plain(&mut self, letter: char) -> Result<(), AllocError>
        ensures { OnOk result (progress_of self.new ≡ plain_read letter (progress_of self.old)) }
    {
        if letter == '.' {
            self.end_name()
        } else {
            self.add(letter, State::Plain)
        }
    }

    // Reads a character of a name in quotes.
    fn read_quoted(&mut self, letter: char) -> Result<(), AllocError>
        ensures { OnOk result (progress_of self.new ≡ quoted_read letter (progress_of self.old)) }
    {
        if letter == '"' {
            self.state = State::Closed;
            return Ok(());
        }
        if letter == '\\' {
            self.state = State::Escape;
            return Ok(());
        }
        self.add(letter, State::Quoted)
    }

    // Reads the first character of a name.
    fn read_first(&mut self, letter: char) -> Result<(), AllocError>
        ensures { OnOk result (progress_of self.new ≡ (if letter == 34 then opened (progress_of self.old) else plain_read letter (progress_of self.old))) }
    {
        if letter == '"' {
            self.is_quoted = true;
            self.state = State::Quoted;
            return Ok(());
        }
        self.read_plain(letter)
    }

    // Reads the character after a closing quote. Returns whether it is allowed: only a dot is.
    fn read_closed(&mut self, letter: char) -> Result<bool, AllocError>
        ensures { IfOk result (λ is_allowed.
            (if letter == 46 then Some (ended (progress_of self.old)) else None) ≡ (if is_allowed then Some (progress_of self.new) else None)) }
    {
        if letter != '.' {
            return Ok(false);
        }
        self.end_name()?;
        Ok(true)
    }

    // Reads a character. Returns whether it is allowed.
    fn read(&mut self, letter: char) -> Result<bool, AllocError>
        ensures { IfOk result (λ is_allowed. letter_read letter (progress_of self.old) ≡ (if is_allowed then Some (progress_of self.new) else None)) }
    {
        match self.state {
            State::Start => self.read_first(letter)?,
            State::Plain => self.read_plain(letter)?,
            State::Quoted => self.read_quoted(letter)?,
            State::Escape => self.add(unescaped(letter), State::Quoted)?,
            State::Closed => return self.read_closed(letter),
        }
        Ok(true)
    }

    // Returns the names, if no quote is open.
    fn finish(mut self) -> Result<Option<Vec<PathName>>, AllocError>
        ensures { IfOk result (λ found. option_map (λ names. map name_of names.items) found ≡ finished (progress_of self)) }
    {
        match self.state {
            State::Quoted | State::Escape => Ok(None),
            State::Start | State::Plain | State::Closed => {
                self.end_name()?;
                let Reading { names, .. } = self;
                Ok(Some(names))
            }
        }
    }
}

/// Returns the names of a dotted path. A name that begins with `"` ends with the next `"` that is not part of an escape, and its escapes are replaced as
/// in a string of Nix. Returns `None` if no quote ends it, or if something other than a dot follows that quote.
pub fn names_of(alloc: Global, path: &str) -> Result<Option<Vec<PathName>>, AllocError>
    ensures { IfOk result (λ found. option_map (λ names. map name_of names.items) found ≡ path_names path.now) }
{
    let mut reading = Reading {
        alloc,
        names: Vec::new(alloc),
        text: String::new(alloc),
        is_quoted: false,
        state: State::Start,
    };
    let mut letters = path.chars();
    while let Some(letter) = letters.next() {
        if !reading.read(letter)? {
            return Ok(None);
        }
    }
    reading.finish()
}
