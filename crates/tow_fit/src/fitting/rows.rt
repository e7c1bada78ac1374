//! The parameters of a call, one by one.

ghost use Rattle.std.specs.Prelude.{◌≡◌, ◌≤◌, length, map};
ghost use Rattle.tow_language.specs.Signatures.{parameter_as};
ghost use Rattle.tow_fit.specs.Fitting.{rows_of};

use tow_language::Parameter;

/// The parameters of a call, in their order. No call of the table has more than three.
#[derive(Clone, Copy, Debug)]
pub(crate) enum Rows {
    None,
    One(Parameter),
    Two(Parameter, Parameter),
    Three(Parameter, Parameter, Parameter),
}

/// The parameters of a row of the table.
pub(crate) fn rows_in(parameters: &[Parameter]) -> Rows
    requires { length parameters.now ≤ 3 }
    ensures { rows_of result ≡ map parameter_as parameters.now }
{
    match parameters {
        [] => Rows::None,
        [a] => Rows::One(*a),
        [a, b] => Rows::Two(*a, *b),
        [a, b, c] => Rows::Three(*a, *b, *c),
        _ => unreachable!(),
    }
}
