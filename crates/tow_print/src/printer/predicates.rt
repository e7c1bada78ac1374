ghost use Rattle.std.specs.Prelude.{◌≡◌, ◌++◌, [], OnOk, if◌then◌else◌};
ghost use Rattle.tow_print.specs.Parts.{tightness, printed_at};

use super::tests_of::put_test;
use std::alloc::AllocError;
use tow_model::Predicate;

/// Where a predicate stands.
#[derive(Clone, Copy, Debug, PartialEq, Eq)]
pub enum Site {
    /// Where `and` and `or` need no parentheses.
    Whole,
    /// Where `or` needs them.
    Conjunct,
    /// Where both need them.
    Factor,
}

/// Appends a predicate, in parentheses where its place wants them.
pub fn put_predicate(
    text: &mut Vec<u8>,
    predicate: &Predicate,
    site: Site,
) -> Result<(), AllocError>
    ensures { OnOk result (text.new.items
        ≡ text.old.items ++ printed_at predicate.now (tightness site)) }
{
    match predicate {
        Predicate::Is(test) => put_test(text, test),
        Predicate::Not(negated) => {
            text.extend_from_slice(b"not ")?;
            put_predicate(text, negated.get(), Site::Factor)
        }
        Predicate::And(left, right) => {
            let bracketed = site == Site::Factor;
            put_where(text, bracketed, b"(")?;
            put_predicate(text, left.get(), Site::Conjunct)?;
            text.extend_from_slice(b" and ")?;
            put_predicate(text, right.get(), Site::Factor)?;
            put_where(text, bracketed, b")")
        }
        Predicate::Or(left, right) => {
            let bracketed = site != Site::Whole;
            put_where(text, bracketed, b"(")?;
            put_predicate(text, left.get(), Site::Whole)?;
            text.extend_from_slice(b" or ")?;
            put_predicate(text, right.get(), Site::Conjunct)?;
            put_where(text, bracketed, b")")
        }
    }
}

/// Appends the bytes where they are wanted.
fn put_where(text: &mut Vec<u8>, wanted: bool, bytes: &[u8]) -> Result<(), AllocError>
    ensures { OnOk result (text.new.items ≡ text.old.items ++ (if wanted then bytes.now else [])) }
{
    if wanted {
        text.extend_from_slice(bytes)?;
    }
    Ok(())
}
