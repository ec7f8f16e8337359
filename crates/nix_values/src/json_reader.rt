//! The data of a JSON text.

ghost use Rattle.std.specs.Prelude.{◌≡◌, [], None, IfNone, IfSome, IfOk, OnOk, MatchResult, length, string_bytes};
ghost use Rattle.nix_values.specs.Contents.{plain_of, contents};
ghost use Rattle.nix_values.specs.Json.{opening, closing, comma, colon, string, scalar, IsJson};
ghost use Rattle.nix_values.specs.JsonLocations.{last_frame, set_of};
ghost use Rattle.nix_values.specs.JsonErrors.{error_at, json_error};
ghost use Rattle.nix_values.specs.JsonNames.{IsJsonError};
ghost use Rattle.nix_values.specs.JsonReading.{opened, opened_plain, IsNoJson, ReadsJson, ReadsDistinct, ReadsError};
ghost use Rattle.nix_values.specs.RepeatedNames.{HasDistinctNames};

use crate::attributes::Attributes;
use crate::data::{Data, Item, Value};
use crate::json_error::{JsonError, JsonReason, JsonStop, refused};
use crate::json_found::{Found, Location, named_or};
use crate::json_tokens::{Token, after_space, json_token};
use std::alloc::{AllocError, Global};

// The largest number of lists and objects inside one another.
const MOST_DEPTH: usize = 512;

// What may come next.
#[derive(Clone, Copy, PartialEq, Eq)]
enum State {
    Value,
    ValueOrClose,
    Name,
    NameOrClose,
    Colon,
    CommaOrClose,
    End,
}

// A list or a set that is open.
#[derive(Clone, Copy)]
struct Frame {
    // The number of its value.
    node: usize,
    is_set: bool,
}

// What has been read so far.
#[derive(Drop)]
struct Reading {
    alloc: Global,
    found: Found,
    attributes: Attributes,
    frames: Vec<Frame>,
    // The name whose value comes next, and its offset.
    name: Option<(String, usize)>,
    state: State,
}

// Returns the value that an opening bracket begins.
fn opened_value(is_set: bool) -> Value
    ensures { plain_of result ≡ opened_plain is_set }
{
    if is_set { Value::Set } else { Value::List }
}

// Returns what may come next after the opening bracket.
fn opened(is_set: bool) -> State
    ensures { result ≡ opened is_set }
{
    if is_set {
        State::NameOrClose
    } else {
        State::ValueOrClose
    }
}

impl Reading {
    ghost use Rattle.nix_values.specs.JsonReading.{is_value_next, is_name_next, is_close_next, is_comma_next, is_colon_next, is_end, state_behind, IsInside, IsSound, IsAdded, TakesOrNot, TakesTokenOrNot, IsBegun};
    ghost use Rattle.nix_values.specs.declared.json_error.JsonStop.TheVariants.{Refused};
    ghost use Rattle.nix_values.specs.JsonReading.{comma_reason, reason_in, AddsLocation, entries_in, IsPlacedIn, IsTaken, IsNotTaken, IsDistinct};

    // Returns the state before the first token.
    fn new(alloc: Global) -> Reading
        ensures begun { IsBegun result }
        ensures placed { IsPlacedIn result }
        ensures distinct { IsDistinct result }
    {
        Reading {
            alloc,
            found: Found::new(alloc),
            attributes: Attributes::new(alloc),
            frames: Vec::new(alloc),
            name: None,
            state: State::Value,
        }
    }

    // Returns the innermost list or set.
    fn innermost(&self) -> Option<Frame>
        ensures last { result ≡ last_frame self.now.frames.items }
        ensures none { IfNone result (self.now.frames.items ≡ []) }
        ensures some { IfSome result (λ frame. IsInside frame.is_set self.now.frames.items) }
    {
        let count = self.frames.len();
        if count == 0 {
            None
        } else {
            Some(self.frames[count - 1])
        }
    }

    // Returns the state after a value.
    fn after_value(&self) -> State
        ensures { result ≡ state_behind self.now.frames.items }
    {
        match self.innermost() {
            Some(_) => State::CommaOrClose,
            None => State::End,
        }
    }

    // Returns what is missing after a value.
    fn comma_reason(&self) -> JsonReason
        ensures { result ≡ comma_reason (last_frame self.now.frames.items) }
    {
        match self.innermost() {
            Some(frame) if frame.is_set => JsonReason::NoCommaInObject,
            _ => JsonReason::NoCommaInList,
        }
    }

    // Returns what is missing.
    fn expected(&self) -> JsonReason
        ensures { result ≡ reason_in self.now.state self.now.frames.items }
    {
        match self.state {
            State::Value | State::ValueOrClose => JsonReason::NoValue,
            State::Name | State::NameOrClose => JsonReason::NoName,
            State::Colon => JsonReason::NoColon,
            State::CommaOrClose => self.comma_reason(),
            State::End => JsonReason::AfterValue,
        }
    }

    // Returns why a token does not fit.
    fn unexpected(&self, at: usize) -> JsonStop
        ensures { result ≡ Refused (error_at (reason_in self.now.state self.now.frames.items) at) }
    {
        refused(self.expected(), at)
    }

    // Returns the innermost list or set, if it is a set.
    fn innermost_set(&self) -> Option<usize>
        ensures { result ≡ set_of (last_frame self.now.frames.items) }
    {
        match self.innermost() {
            Some(frame) => { if frame.is_set { Some(frame.node) } else { None } }
            None => None,
        }
    }

    // Adds a value to the innermost list or set.
    fn add(&mut self, value: Value, at: usize) -> Result<usize, AllocError>
        requires { IsPlacedIn self.old }
        ensures added { OnOk result (IsAdded self.old (plain_of value) self.new) }
        ensures placed { OnOk result (IsPlacedIn self.new) }
        ensures number { IfOk result (λ number. number ≡ length (entries_in self.old)) }
        ensures located { OnOk result (AddsLocation self.old at self.new) }
    {
        let number = self.found.items.len();
        let depth = self.frames.len();
        let (name, offset) = named_or(self.alloc, self.name.take(), at);
        let set = self.innermost_set();
        self.found
            .attach(self.alloc, &mut self.attributes, set, name.as_str())?;
        self.found.locations.push(Location { offset, set })?;
        self.found.items.push(Item { depth, name, value })?;
        Ok(number)
    }

    // Returns whether a value may come next.
    fn is_value_next(&self) -> bool
        ensures { result ≡ is_value_next self.now.state }
    {
        matches!(self.state, State::Value | State::ValueOrClose)
    }

    // Returns whether a name may come next.
    fn is_name_next(&self) -> bool
        ensures { result ≡ is_name_next self.now.state }
    {
        matches!(self.state, State::Name | State::NameOrClose)
    }

    // Returns whether the end of the innermost list or set may come next.
    fn is_close_next(&self) -> bool
        ensures { result ≡ is_close_next self.now.state }
    {
        matches!(
            self.state,
            State::ValueOrClose | State::NameOrClose | State::CommaOrClose
        )
    }

    // Returns whether a comma may come next.
    fn is_comma_next(&self) -> bool
        ensures { result ≡ is_comma_next self.now.state }
    {
        matches!(self.state, State::CommaOrClose)
    }

    // Returns whether a colon may come next.
    fn is_colon_next(&self) -> bool
        ensures { result ≡ is_colon_next self.now.state }
    {
        matches!(self.state, State::Colon)
    }

    // Returns whether nothing may come next.
    fn is_end(&self) -> bool
        ensures { result ≡ is_end self.now.state }
    {
        matches!(self.state, State::End)
    }

    // Accepts a value that contains no others.
    fn take_scalar(&mut self, value: Value, at: usize) -> Result<(), JsonStop>
        requires sound { IsSound self.old }
        requires placed { IsPlacedIn self.old }
        requires distinct { IsDistinct self.old }
        ensures { TakesOrNot result self.old (scalar (plain_of value)) at self.new }
    {
        if !self.is_value_next() {
            return Err(self.unexpected(at));
        }
        let _number = self.add(value, at)?;
        self.state = self.after_value();
        Ok(())
    }

    // Accepts the beginning of a list or a set.
    fn take_open(&mut self, is_set: bool, at: usize) -> Result<(), JsonStop>
        requires sound { IsSound self.old }
        requires placed { IsPlacedIn self.old }
        requires distinct { IsDistinct self.old }
        ensures { TakesOrNot result self.old (opening is_set) at self.new }
    {
        if !self.is_value_next() {
            return Err(self.unexpected(at));
        }
        if self.frames.len() >= MOST_DEPTH {
            return Err(refused(JsonReason::TooDeep, at));
        }
        let node = self.add(opened_value(is_set), at)?;
        self.frames.push(Frame { node, is_set })?;
        self.state = opened(is_set);
        Ok(())
    }

    // Returns the attribute with a name in the innermost set.
    fn attribute(&self, name: &str) -> Option<usize>
        requires { IsPlacedIn self.now }
        ensures taken { IfSome result (λ number. IsTaken self.now number name.now) }
        ensures free { IfNone result (IsNotTaken self.now name.now) }
    {
        let set = self.innermost()?.node;
        self.attributes.get(&self.found, set, name)
    }

    // Accepts a string: a name or a value.
    fn take_text(&mut self, text: String, at: usize) -> Result<(), JsonStop>
        requires sound { IsSound self.old }
        requires placed { IsPlacedIn self.old }
        requires distinct { IsDistinct self.old }
        ensures { TakesOrNot result self.old (string (string_bytes text)) at self.new }
    {
        if !self.is_name_next() {
            return self.take_scalar(Value::Text(text), at);
        }
        if let Some(number) = self.attribute(text.as_str()) {
            return Err(JsonStop::Refused(JsonError {
                reason: JsonReason::Repeated,
                offset: at,
                first: self.found.offset(number),
            }));
        }
        self.name = Some((text, at));
        self.state = State::Colon;
        Ok(())
    }

    // Accepts the end of a list or a set.
    fn take_close(&mut self, is_set: bool, at: usize) -> Result<(), JsonStop>
        requires sound { IsSound self.old }
        requires placed { IsPlacedIn self.old }
        requires distinct { IsDistinct self.old }
        ensures { TakesOrNot result self.old (closing is_set) at self.new }
    {
        if !self.is_close_next() {
            return Err(self.unexpected(at));
        }
        let Some(frame) = self.innermost() else {
            return Err(self.unexpected(at));
        };
        if frame.is_set != is_set {
            return Err(self.unexpected(at));
        }
        let _closed = self.frames.pop();
        self.state = self.after_value();
        Ok(())
    }

    // Accepts a comma.
    fn take_comma(&mut self, at: usize) -> Result<(), JsonStop>
        requires sound { IsSound self.old }
        requires placed { IsPlacedIn self.old }
        requires distinct { IsDistinct self.old }
        ensures { TakesOrNot result self.old comma at self.new }
    {
        if !self.is_comma_next() {
            return Err(self.unexpected(at));
        }
        let Some(frame) = self.innermost() else {
            return Err(self.unexpected(at));
        };
        self.state = if frame.is_set {
            State::Name
        } else {
            State::Value
        };
        Ok(())
    }

    // Accepts a colon.
    fn take_colon(&mut self, at: usize) -> Result<(), JsonStop>
        requires sound { IsSound self.old }
        requires placed { IsPlacedIn self.old }
        requires distinct { IsDistinct self.old }
        ensures { TakesOrNot result self.old colon at self.new }
    {
        if !self.is_colon_next() {
            return Err(self.unexpected(at));
        }
        self.state = State::Value;
        Ok(())
    }

    // Accepts a token.
    fn take(&mut self, token: Token, at: usize) -> Result<(), JsonStop>
        requires sound { IsSound self.old }
        requires placed { IsPlacedIn self.old }
        requires distinct { IsDistinct self.old }
        ensures { TakesTokenOrNot result self.old token at self.new }
    {
        match token {
            Token::Scalar(value) => self.take_scalar(value, at),
            Token::Text(text) => self.take_text(text, at),
            Token::Open(is_set) => self.take_open(is_set, at),
            Token::Close(is_set) => self.take_close(is_set, at),
            Token::Comma => self.take_comma(at),
            Token::Colon => self.take_colon(at),
            Token::Other => Err(self.unexpected(at)),
        }
    }
}

// Returns the data of a JSON text.
fn read(alloc: Global, text: &str) -> Result<Data, JsonStop>
    ensures read { ReadsJson result text.now }
    ensures distinct { ReadsDistinct result }
    ensures error { ReadsError result text.now }
{
    let mut reading = Reading::new(alloc);
    let mut at = after_space(text, 0);
    while at < text.len() {
        let cut = match json_token(alloc, text, at) {
            Ok(cut) => cut,
            Err(stop) => return Err(stop),
        };
        let end = cut.end;
        match reading.take(cut.token, at) {
            Ok(()) => at = after_space(text, end),
            Err(stop) => return Err(stop),
        }
    }
    if !reading.is_end() {
        return Err(reading.unexpected(at));
    }
    Ok(Data {
        items: reading.found.items,
    })
}

/// Returns the data of a JSON text, or why the text is refused.
pub fn data_of_json(alloc: Global, text: &str) -> Result<Result<Data, JsonError>, AllocError>
    ensures read { IfOk result (λ outcome. MatchResult outcome (λ found. IsJson text.now (contents found)) (λ error. IsNoJson error text.now)) }
    ensures distinct { IfOk result (λ outcome. IfOk outcome (λ found. HasDistinctNames (contents found))) }
    ensures error { IfOk result (λ outcome. MatchResult outcome (λ found. json_error text.now ≡ None) (λ error. IsJsonError text.now error)) }
{
    match read(alloc, text) {
        Ok(found) => Ok(Ok(found)),
        Err(JsonStop::Refused(error)) => Ok(Err(error)),
        Err(JsonStop::Memory) => Err(AllocError),
    }
}
