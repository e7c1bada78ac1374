//! Laws of the definitions, each the contract of a function without a body.

ghost use Rattle.std.specs.Prelude.{◌<◌};
ghost use Rattle.tow_model.specs.Dates.{DateIs, first_undated};
ghost use Rattle.tow_model.specs.Paths.{ResolvedTwice};

/// The function gives the date field of every second that a date can show.
pub fn date_is(second: u64)
    requires { second < first_undated }
    ensures { DateIs second }
{}

/// A resolved path stays as it is when it is resolved again.
pub fn resolved_twice()
    ensures { ResolvedTwice }
{}
