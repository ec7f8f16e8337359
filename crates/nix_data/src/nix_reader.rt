//! The data of a Nix text.

ghost use Rattle.std.specs.Prelude.{◌≡◌, false, true, Some, None, option_map, is_some, IfOk, IfErr, OnOk, OnErr, MatchResult, string_bytes};
ghost use Rattle.std.specs.List.{list_any};
ghost use Rattle.rnix_kinds.specs.declared.kinds.SyntaxKind.TheVariants as k;
ghost use Rattle.rnix_green.specs.Walk.{elements_of};
ghost use Rattle.rnix_base.specs.Select.{HasKind, those_of, nodes_of};
ghost use Rattle.rnix.specs.NodeKinds.{is_attr};
ghost use Rattle.rnix.specs.Sums.{attr_node};
ghost use Rattle.nix_values.specs.Contents.{plain_of, contents};
ghost use Rattle.nix_data.specs.Added.{path_in, path_left, scalar_begun, begun_as, begun, added, HasData, HasNoData};
ghost use Rattle.nix_data.specs.Meaning.{key_of};
ghost use Rattle.nix_data.specs.Scalars.{scalar_of};
ghost use Rattle.nix_data.specs.Misread.{is_misread_at, IsReadAlike};
ghost use Rattle.nix_data.specs.Written.{IsData, IsNoData};
ghost use Rattle.nix_data.specs.Refusals.{Refuses, ReadsUnless};

use crate::misread::misread;
use crate::no_data::{NoData, Reason};
use crate::scalars::{Stop, evaluated, key, no_data, scalar};
use crate::values::{Entry, Frame, Name, Target, Values};
use nix_values::{Data, Value};
use rnix::ast::{AstChildren, AstNode, Attr, AttrSet, Attrpath, AttrpathValue, Inherit};
use rnix::{NodeOrToken, Root, SyntaxKind, SyntaxNode, TextRange};
use std::alloc::{AllocError, Global};

/// The largest number of levels of nodes that are read. The parser accepts fewer: a list or a set is at most two levels below the one around it.
pub const LEVELS: usize = 2048;

/// How a text is read. If it is lossy, what is not data becomes its source.
#[derive(Clone, Copy)]
pub struct Reader {
    /// The allocator.
    pub alloc: Global,
    /// Whether the text is read lossily.
    pub is_lossy: bool,
}

/// Returns the first token that Nix reads differently, with the reason, if there is one.
pub fn first_misread(root: &SyntaxNode<'_>) -> Option<NoData>
    ensures { is_some result ≡ list_any is_misread_at (elements_of root.now) }
{
    for element in root.descendants_with_tokens() {
        if let NodeOrToken::Token(token) = element {
            if let Some(found) = misread(&token) {
                return Some(found);
            }
        }
    }
    None
}

/// Returns why a text with a token that Nix reads differently is refused: for this token, or for a part before it that is not data.
pub fn first_stop(outcome: Result<(), Stop>, token: NoData) -> Stop {
    match outcome {
        Err(Stop::Memory) => Stop::Memory,
        Err(Stop::NoData(part)) if part.range.start() <= token.range.start() => Stop::NoData(part),
        _ => Stop::NoData(token),
    }
}

impl Reader {
    ghost use Rattle.nix_data.specs.Places.{name_bytes, place_of, values_read};

    // Returns the source of what is not data, if the text is read lossily.
    fn source(&self, node: &SyntaxNode<'_>, stop: Stop) -> Result<String, Stop>
        ensures lossy { OnOk result (self.now.is_lossy ≡ true) }
        ensures same { IfErr result (λ error. self.now.is_lossy ≡ false → error ≡ stop) }
    {
        match stop {
            Stop::NoData(_) if self.is_lossy => Ok(String::from_str(self.alloc, node.text())?),
            stop => Err(stop),
        }
    }

    /// Returns the name of an attribute.
    pub fn name(&self, attr: &Attr<'_>) -> Result<Name, Stop>
        ensures { ReadsUnless self.now.is_lossy result (key_of (attr_node attr.now)) (λ name. string_bytes name.text) }
    {
        let node = attr.syntax();
        let text = match key(self.alloc, attr) {
            Ok(text) => text,
            Err(stop) => self.source(node, stop)?,
        };
        Ok(Name {
            text,
            range: node.text_range(),
        })
    }

    // Returns the value of an expression that is neither a list nor a set.
    fn value(&self, node: &SyntaxNode<'_>) -> Result<Value, Stop>
        ensures { ReadsUnless self.now.is_lossy result (scalar_of node.now) plain_of }
    {
        match scalar(self.alloc, node) {
            Ok(value) => Ok(value),
            Err(stop) => Ok(Value::Text(self.source(node, stop)?)),
        }
    }

    // Adds the value of an expression that is neither a list nor a set.
    fn scalar(&self, values: &mut Values, target: Target, node: &SyntaxNode<'_>) -> Result<(), Stop>
        ensures { ReadsUnless self.now.is_lossy result
            (scalar_begun (place_of target) node.now (values_read values.old)) (λ _. (None, values_read values.new)) }
    {
        let value = self.value(node)?;
        let _number = values.add(self.alloc, target, value, node.text_range())?;
        Ok(())
    }

    // Adds a list. Returns the place of its items.
    fn list(
        &self,
        values: &mut Values,
        target: Target,
        node: &SyntaxNode<'_>,
    ) -> Result<Target, Stop>
        ensures { ReadsUnless self.now.is_lossy result
            (begun_as k.NODE_LIST (place_of target) node.now (values_read values.old)) (λ next. (Some (place_of next), values_read values.new)) }
    {
        let number = values.add(self.alloc, target, Value::List, node.text_range())?;
        Ok(Target::Inside(values.frame(number)))
    }

    // Adds a set with `rec`, which is not data.
    fn recursive_set(
        &self,
        values: &mut Values,
        target: Target,
        node: &SyntaxNode<'_>,
    ) -> Result<(), Stop>
        ensures { OnOk result (self.now.is_lossy ≡ true) }
    {
        let range = node.text_range();
        let source = self.source(node, no_data(Reason::Recursive, range))?;
        let _number = values.add(self.alloc, target, Value::Text(source), range)?;
        Ok(())
    }

    // Adds a set, unless it exists already.
    fn set(
        &self,
        values: &mut Values,
        target: Target,
        node: &SyntaxNode<'_>,
    ) -> Result<Option<Target>, Stop>
        ensures begun { IfOk result (λ next. self.now.is_lossy ≡ false →
            begun_as k.NODE_ATTR_SET (place_of target) node.now (values_read values.old) ≡ Some (option_map place_of next, values_read values.new)) }
        ensures refused { Refuses result (self.now.is_lossy ≡ false → HasKind k.NODE_ATTR_SET node.now →
            begun_as k.NODE_ATTR_SET (place_of target) node.now (values_read values.old) ≡ None) }
    {
        let Some(set) = AttrSet::cast(node.clone()) else {
            return Err(evaluated(node));
        };
        if set.rec_token().is_some() {
            self.recursive_set(values, target, node)?;
            return Ok(None);
        }
        let number = values.set_at(self.alloc, target, node.text_range())?;
        Ok(Some(Target::Inside(values.frame(number))))
    }

    /// Reads the names of a path that are left after the last one in a set, and adds the sets to which names lead. Returns the place to which the path leads.
    /// The path is that of a node.
    pub fn follow<'t>(
        &self,
        values: &mut Values,
        frame: Frame,
        before: Option<Name>,
        attrs: AstChildren<'t, Attr<'t>>,
        node: &SyntaxNode<'_>,
    ) -> Result<Target, Stop>
        ensures { ReadsUnless self.now.is_lossy result
            (path_left frame.first frame.node (option_map name_bytes before) (those_of is_attr attrs.entry) (values_read values.old))
            (λ target. (place_of target, values_read values.new)) }
    {
        let (mut set, mut first) = (frame.node, frame.first);
        let mut last = before;
        for attr in attrs {
            let name = self.name(&attr)?;
            if let Some(before) = last {
                set = values.set_of(self.alloc, Entry { set, name: before }, first)?;
                first = 0;
            }
            last = Some(name);
        }
        match last {
            Some(name) => values.attribute(Entry { set, name }, first),
            None => Err(evaluated(node)),
        }
    }

    // Reads the path of an entry of a set, and adds the sets on the path. Returns the place of the entry's value.
    fn path(&self, values: &mut Values, frame: Frame, path: &Attrpath<'_>) -> Result<Target, Stop>
        ensures { ReadsUnless self.now.is_lossy result
            (path_in frame.first frame.node (nodes_of is_attr path.now) (values_read values.old))
            (λ target. (place_of target, values_read values.new)) }
    {
        Ok(self.follow(values, frame, None, path.attrs(), path.syntax())?)
    }

    // Reads the path of an entry. Returns the place of its value.
    fn entry(
        &self,
        values: &mut Values,
        target: Target,
        node: &SyntaxNode<'_>,
    ) -> Result<Target, Stop>
        ensures begun { IfOk result (λ next. self.now.is_lossy ≡ false →
            begun_as k.NODE_ATTRPATH_VALUE (place_of target) node.now (values_read values.old)
            ≡ Some (Some (place_of next), values_read values.new)) }
        ensures refused { Refuses result (self.now.is_lossy ≡ false → HasKind k.NODE_ATTRPATH_VALUE node.now →
            begun_as k.NODE_ATTRPATH_VALUE (place_of target) node.now (values_read values.old) ≡ None) }
    {
        let (Some(entry), Target::Inside(frame)) = (AttrpathValue::cast(node.clone()), target)
        else {
            return Err(evaluated(node));
        };
        match entry.attrpath() {
            Some(path) => self.path(values, frame, &path),
            None => Err(evaluated(node)),
        }
    }

    // Returns the value for a name in an `inherit`: for the first name the source of the `inherit`, for others an `inherit` of that name, with `..` for
    // the expression from which it inherits.
    fn inherited(
        &self,
        inherit: &Inherit<'_>,
        attr: &Attr<'_>,
        is_first: bool,
    ) -> Result<Value, Stop> {
        if is_first {
            let source = inherit.syntax().text();
            return Ok(Value::Text(String::from_str(self.alloc, source)?));
        }
        let from = if inherit.from().is_some() {
            "(..) "
        } else {
            ""
        };
        let name = attr.syntax().text();
        Ok(Value::Text(format!(in self.alloc; "inherit {from}{name};")?))
    }

    // Adds the names of an `inherit`, if the text is read lossily.
    fn inherit(
        &self,
        values: &mut Values,
        target: Target,
        node: &SyntaxNode<'_>,
    ) -> Result<(), Stop>
        ensures { OnOk result (self.now.is_lossy ≡ true) }
    {
        let (Some(inherit), Target::Inside(frame)) = (Inherit::cast(node.clone()), target) else {
            return Err(evaluated(node));
        };
        if !self.is_lossy {
            return Err(evaluated(node));
        }
        for (number, attr) in inherit.attrs().enumerate() {
            let name = self.name(&attr)?;
            let value = self.inherited(&inherit, &attr, number == 0)?;
            let entry = Entry {
                set: frame.node,
                name,
            };
            let _number = values.add_attribute(self.alloc, entry, value)?;
        }
        Ok(())
    }

    // Adds the node's own value. Returns where the nodes inside it add their values, if they add any.
    fn begin(
        &self,
        values: &mut Values,
        target: Target,
        node: &SyntaxNode<'_>,
    ) -> Result<Option<Target>, Stop>
        ensures { ReadsUnless self.now.is_lossy result
            (begun (place_of target) node.now (values_read values.old)) (λ next. (option_map place_of next, values_read values.new)) }
    {
        match node.kind() {
            SyntaxKind::NODE_ROOT | SyntaxKind::NODE_PAREN => Ok(Some(target)),
            SyntaxKind::NODE_LIST => Ok(Some(self.list(values, target, node)?)),
            SyntaxKind::NODE_ATTR_SET => self.set(values, target, node),
            SyntaxKind::NODE_ATTRPATH_VALUE => Ok(Some(self.entry(values, target, node)?)),
            SyntaxKind::NODE_ATTRPATH => Ok(None),
            SyntaxKind::NODE_INHERIT => {
                self.inherit(values, target, node)?;
                Ok(None)
            }
            _ => {
                self.scalar(values, target, node)?;
                Ok(None)
            }
        }
    }

    /// Adds the values of a node and of those inside it, which nest less than `levels` deep.
    pub fn read(
        &self,
        values: &mut Values,
        levels: usize,
        target: Target,
        node: &SyntaxNode<'_>,
    ) -> Result<(), Stop>
        ensures added { OnOk result (self.now.is_lossy ≡ false →
            added levels (place_of target) node.now (values_read values.old) ≡ Some (values_read values.new)) }
        ensures refused { Refuses result (self.now.is_lossy ≡ false →
            added levels (place_of target) node.now (values_read values.old) ≡ None) }
    {
        if levels == 0 {
            return Err(evaluated(node));
        }
        let Some(mut inside) = self.begin(values, target, node)? else {
            return Ok(());
        };
        for child in node.children() {
            self.read(values, levels - 1, inside.for_node(&child), &child)?;
        }
        Ok(())
    }
}

// Reads the data of a tree without errors.
fn read(alloc: Global, root: &SyntaxNode<'_>, is_lossy: bool) -> Result<Data, Stop>
    ensures alike { OnOk result (IsReadAlike root.now) }
    ensures data { IfOk result (λ found. is_lossy ≡ false → HasData root.now (contents found)) }
    ensures refused { Refuses result (is_lossy ≡ false → HasNoData root.now) }
{
    let mut values = Values::new(alloc);
    let outcome = Reader { alloc, is_lossy }.read(&mut values, LEVELS, Target::Outermost, root);
    // One walk over all tokens is faster than one inside each value.
    if let Some(token) = first_misread(root) {
        return Err(first_stop(outcome, token));
    }
    outcome?;
    Ok(values.finish(alloc)?)
}

/// Returns the data of a tree without errors, or the first part that is not data. If `is_lossy`, such a part becomes a string with its source; only a token
/// that Nix reads differently and an attribute that is already defined are refused.
pub fn data_in(
    alloc: Global,
    root: &SyntaxNode<'_>,
    is_lossy: bool,
) -> Result<Result<Data, NoData>, AllocError>
    ensures alike { IfOk result (λ outcome. OnOk outcome (IsReadAlike root.now)) }
    ensures data { IfOk result (λ outcome. IfOk outcome (λ found. is_lossy ≡ false → HasData root.now (contents found))) }
    ensures refused { IfOk result (λ outcome. OnErr outcome (is_lossy ≡ false → HasNoData root.now)) }
{
    match read(alloc, root, is_lossy) {
        Ok(found) => Ok(Ok(found)),
        Err(Stop::NoData(reason)) => Ok(Err(reason)),
        Err(Stop::Memory) => Err(AllocError),
    }
}

/// Returns the data of a Nix text, or the first part that is not data.
#[tactic(auto, using(crate::proofs::WrittenLemmas::has_errors))]
pub fn data_of(alloc: Global, text: &str) -> Result<Result<Data, NoData>, AllocError>
    ensures { IfOk result (λ outcome. MatchResult outcome (λ found. IsData text.now (contents found)) (λ reason. IsNoData text.now)) }
{
    let parse = Root::parse(alloc, text)?;
    match parse.ok() {
        Ok(root) => data_in(alloc, root.syntax(), false),
        Err(error) => Ok(Err(NoData {
            reason: Reason::Errors,
            range: error.range().unwrap_or(TextRange::empty(text.len())),
            first: None,
        })),
    }
}
