//! Comparison of the parts of two strings.

ghost use Rattle.std.specs.Prelude.{◌≡◌, true};
ghost use Rattle.rnix_base.specs.Normal.{owned, with_text};
ghost use Rattle.rnix_green.specs.Tree.{text_at};
ghost use Rattle.std.specs.Prelude.{string_bytes};
ghost use Rattle.nix_formatting.specs.Bare.{bare, bare_parts};
ghost use Rattle.nix_formatting.specs.Values.{written_parts};

use rnix::ast::{AstToken, InterpolPart, Str, StrContent};

// Returns whether two parts are interpolations, or texts that are written in the same way.
fn is_same_written<'t>(
    old: &InterpolPart<'t, StrContent<'t>>,
    new: &InterpolPart<'t, StrContent<'t>>,
) -> bool
    ensures { result ≡ true → bare (with_text text_at new.now) ≡ bare (with_text text_at old.now) }
{
    match (old, new) {
        (InterpolPart::Literal(old), InterpolPart::Literal(new)) => {
            old.syntax().text() == new.syntax().text()
        }
        (InterpolPart::Interpolation(_), InterpolPart::Interpolation(_)) => true,
        _ => false,
    }
}

/// Returns whether two strings, as written, have the same texts and the same number of interpolations between them.
#[tactic(auto, using(crate::proofs::ValueLemmas::parts_begun, crate::proofs::ValueLemmas::parts_ended))]
pub fn have_same_written<'t>(old: &Str<'t>, new: &Str<'t>) -> bool
    ensures { result ≡ true → bare_parts (written_parts new.now) ≡ bare_parts (written_parts old.now) }
{
    let mut olds = old.parts();
    let mut news = new.parts();
    while let Some(old_part) = olds.next() {
        let Some(new_part) = news.next() else {
            return false;
        };
        if !is_same_written(&old_part, &new_part) {
            return false;
        }
    }
    news.next().is_none()
}

// Returns whether two normalized parts are interpolations, or the same texts.
fn is_same_normalized(old: &InterpolPart<'_, String>, new: &InterpolPart<'_, String>) -> bool
    ensures { result ≡ true → bare (with_text string_bytes new.now) ≡ bare (with_text string_bytes old.now) }
{
    match (old, new) {
        (InterpolPart::Literal(old), InterpolPart::Literal(new)) => old.as_str() == new.as_str(),
        (InterpolPart::Interpolation(_), InterpolPart::Interpolation(_)) => true,
        _ => false,
    }
}

/// Returns whether two lists of normalized parts have the same texts and the same number of interpolations between them.
pub fn have_same_normalized(
    olds: &[InterpolPart<'_, String>],
    news: &[InterpolPart<'_, String>],
) -> bool
    ensures { result ≡ true → bare_parts (owned news.now) ≡ bare_parts (owned olds.now) }
{
    if olds.len() != news.len() {
        return false;
    }
    for number in 0..olds.len() {
        if !is_same_normalized(&olds[number], &news[number]) {
            return false;
        }
    }
    true
}
