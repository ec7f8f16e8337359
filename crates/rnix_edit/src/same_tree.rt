//! Whether two nodes are equal, with everything inside them.

ghost use Rattle.std.specs.Prelude.{◌≡◌, true, false, map};
ghost use Rattle.std.specs.Bool.{Decides};
ghost use Rattle.rnix_green.specs.Tree.{part_at};
ghost use Rattle.rnix_tree.specs.{Spots.{spot_of, event_of}, WalksAlike.{shown_of}};
ghost use Rattle.rnix_edit.specs.ShownEvents.{shown_by, same_shown};

use rnix::{NodeOrToken, PreorderWithTokens, SyntaxElement, SyntaxKind, SyntaxNode, WalkEvent};

/// What an event of a walk shows: whether its element is entered, whether the element is a node, its kind, and the text of a token.
#[derive(Clone, Copy)]
pub struct ElementEvent<'t> {
    pub enters: bool,
    pub is_node: bool,
    pub kind: SyntaxKind,
    pub text: &'t str,
}

// Returns what an event shows that enters or leaves an element.
fn shown_element<'t>(element: &SyntaxElement<'t>, enters: bool) -> ElementEvent<'t>
    ensures { shown_by result ≡ shown_of (enters, spot_of element.now) }
{
    match element {
        NodeOrToken::Node(node) => ElementEvent {
            enters,
            is_node: true,
            kind: node.kind(),
            text: "",
        },
        NodeOrToken::Token(token) => ElementEvent {
            enters,
            is_node: false,
            kind: token.kind(),
            text: token.text(),
        },
    }
}

// Returns what an event shows.
fn shown<'t>(event: &WalkEvent<SyntaxElement<'t>>) -> ElementEvent<'t>
    ensures { shown_by result ≡ shown_of (event_of event.now) }
{
    match event {
        WalkEvent::Enter(element) => shown_element(element, true),
        WalkEvent::Leave(element) => shown_element(element, false),
    }
}

// Returns whether two events show the same.
fn same_shown(a: ElementEvent<'_>, b: ElementEvent<'_>) -> bool
    ensures { result ≡ same_shown (shown_by a.entry) (shown_by b.entry) }
{
    a.enters == b.enters && a.is_node == b.is_node && a.kind == b.kind && a.text == b.text
}

// Returns whether two events show the same.
fn shows_same(event: &WalkEvent<SyntaxElement<'_>>, other: &WalkEvent<SyntaxElement<'_>>) -> bool
    ensures { Decides result (shown_of (event_of event.now) ≡ shown_of (event_of other.now)) }
{
    same_shown(shown(event), shown(other))
}

// Returns whether two walks show the same.
// Equal parts are passed in one step.
fn are_alike<'t>(mut a: PreorderWithTokens<'t>, mut b: PreorderWithTokens<'t>) -> bool
    ensures { Decides result (map shown_of a.entry ≡ map shown_of b.entry) }
{
    a.pass_alike(usize::MAX, &mut b, usize::MAX);
    while let Some(event) = a.next() {
        let Some(other) = b.next() else {
            return false;
        };
        if !shows_same(&event, &other) {
            return false;
        }
    }
    b.next().is_none()
}

/// Returns whether two nodes are equal, with everything inside them.
pub fn is_same_tree(node: &SyntaxNode<'_>, other: &SyntaxNode<'_>) -> bool
    ensures { Decides result (part_at node.now ≡ part_at other.now) }
{
    are_alike(node.preorder_with_tokens(), other.preorder_with_tokens())
}
