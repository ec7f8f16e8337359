//! Errors, and the elements of a tree to which they belong.

ghost use Rattle.rnix_grammar.specs.Repaired.{others};
ghost use Rattle.rnix_grammar.specs.Ranges.{of_nodes, error_nodes, at_fault, AreErrorsOf};
ghost use Rattle.rnix_parser.specs.ReadingLaws.{OfParsed};

/// The errors other than those at the end of the text are, one by one, those of the NODE_ERROR elements of the tree and of the NODE_PAT_ENTRY
/// elements that repeat the name of an earlier one, in the order in which these close. An error that has a range has that of its NODE_ERROR, or
/// that of the NODE_IDENT with which its NODE_PAT_ENTRY begins. If it is an `UnexpectedWanted`, its NODE_ERROR begins with a token of the kind
/// that it names, and each child is a token, of none of the kinds that it lists as wanted; if it lists what begins an operand, there is one child. The
/// NODE_ERROR of an `UnexpectedExtra` is a child of the root, and that of an `UnexpectedDoubleBind` a child of a NODE_PATTERN. The errors of error
/// nodes alone are those of the NODE_ERROR elements, in the order in which a walk leaves these.
pub fn ranges_of_errors(text: &str)
    ensures order { OfParsed text.now (λ tree faults. AreErrorsOf tree (others faults) (at_fault tree)) }
    ensures nodes { OfParsed text.now (λ tree faults. AreErrorsOf tree (of_nodes faults) (error_nodes tree)) }
{
    let _len = text.len();
}
