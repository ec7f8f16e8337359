//! Texts whose writer fails at one of its writes, each write in turn.

use crate::ends::{NEVER, Output};
use rnix_kinds::tokenize;
use rnix_parser::parse;
use rnix_print::{PrintError, dump, print_text};
use rnix_tree::SyntaxNode;
use std::alloc::Global;
use std::io::ErrorKind;
use std::test::Fail;

const TEXT: &str = "1 +";

// What is printed of the text.
const PRINTED: &str = "error: unexpected end of file
NODE_ROOT@0..3
  NODE_BIN_OP@0..3
    NODE_LITERAL@0..1
      TOKEN_INTEGER@0..1
    TOKEN_WHITESPACE@1..2
    TOKEN_ADD@2..3
";

// What a write that fails returns: an error, or that it wrote nothing.
const FAULTS: [Option<ErrorKind>; 3] = [
    Some(ErrorKind::BrokenPipe),
    Some(ErrorKind::OutOfMemory),
    None,
];

// What is printed to a writer that fails at a write, and the error's kind.
fn print_into(
    alloc: Global,
    fails_at: u64,
    kind: Option<ErrorKind>,
) -> (Option<ErrorKind>, Output) {
    let mut out = Output::new(alloc, fails_at, kind);
    let reported = match print_text(alloc, TEXT, &mut out) {
        Err(PrintError::Write(error)) => Some(error.kind()),
        Ok(_) | Err(PrintError::Memory) => None,
    };
    (reported, out)
}

#[test]
fn a_write_that_fails_is_reported(rt: HostRuntime) {
    let wanted = PRINTED.as_bytes();
    for kind in FAULTS {
        let (_none, good) = print_into(rt.alloc(), NEVER, kind);
        assert!(rt; good.bytes.as_slice() == wanted);
        for write in 0..good.writes {
            let (reported, out) = print_into(rt.alloc(), write, kind);
            assert!(rt;
                reported == Some(kind.unwrap_or(ErrorKind::WriteZero)) && out.stopped(wanted),
                "at {write}"
            );
        }
    }
}

#[test]
fn dump_returns_the_error_of_the_writer(rt: HostRuntime) -> Result<(), Fail> {
    let alloc = rt.alloc();
    let (tree, _errors) = parse(alloc, tokenize(alloc, TEXT))?;
    let root = SyntaxNode::new_root(&tree);
    let mut good = Output::new(alloc, NEVER, None);
    dump(&root, &mut good)?;
    for kind in FAULTS {
        for write in 0..good.writes {
            let mut out = Output::new(alloc, write, kind);
            let reported = dump(&root, &mut out).err().map(|error| error.kind());
            assert!(rt;
                reported == Some(kind.unwrap_or(ErrorKind::WriteZero)),
                "at {write}"
            );
            assert!(rt; out.stopped(good.bytes.as_slice()));
        }
    }
    Ok(())
}
