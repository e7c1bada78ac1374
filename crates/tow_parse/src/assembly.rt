ghost use Rattle.std.specs.Prelude.{◌≡◌, map, Ok, IfOk, IfErr};
ghost use Rattle.tow_language.specs.Raw.{RawList};
ghost use Rattle.tow_language.specs.Fit as fits;
ghost use Rattle.tow_fit.specs.Faults.{Fails};
ghost use Rattle.tow_parse.specs.Parts.{parts_of, raw_part};

mod builder;
mod stack;

use crate::assembly::builder::Builder;
use crate::parsed::Parsed;
use crate::part::Part;
use std::alloc::Global;
use tow_fit::ParseFault;

/// Builds the tree of the parts, each call fitted to the tables, or finds the first call that does not fit. Takes memory for
/// the tree.
pub fn assembled(alloc: Global, parts: Vec<Part>) -> Result<Parsed, ParseFault>
    requires whole { (raw : RawList) × (parts_of raw ≡ map raw_part parts.items) }
    ensures ok { (raw : RawList) → parts_of raw ≡ map raw_part parts.items
        → IfOk result (λ p. (n : fits.Counts) × (fits.fit raw ≡ Ok (p.tree, n))
        × (p.patterns ≡ n.patterns)) }
    ensures err { (raw : RawList) → parts_of raw ≡ map raw_part parts.items
        → IfErr result (λ e. Fails e (fits.fit raw)) }
{
    let mut builder = Builder::new(alloc);
    for part in parts {
        builder.take(alloc, part)?;
    }
    Ok(builder.finish())
}
