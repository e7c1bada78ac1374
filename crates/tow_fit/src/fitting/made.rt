//! The test of a predicate's call, from what its parameters stand for.

ghost use Rattle.std.specs.Prelude.{◌≡◌, ◌∷◌, [], length, IfErr, IfOk};
ghost use Rattle.tow_language.specs.declared.table.Given.TheVariants as givens;
ghost use Rattle.tow_language.specs.declared.table.TestName.TheVariants as tests;
ghost use Rattle.tow_language.specs.Fit as fits;
ghost use Rattle.tow_language.specs.Table as table;
ghost use Rattle.tow_fit.specs.Calls.{counts_of};
ghost use Rattle.tow_fit.specs.Making.{givens_list};

use crate::counts::Counts;
use crate::fault::ParseFault;
use crate::fitting::givens::Givens;
use tow_language::{Given, TestName};
use tow_model::{Bytes, Template, Test};

/// The test of this name; by the table the parameters fit it. Takes memory for the place of a pattern.
pub(crate) fn made_test(
    test: TestName,
    givens: Givens,
    counts: &mut Counts,
) -> Result<Test, ParseFault>
    requires { length (givens_list givens) ≡ length (table.test_parameters test) }
    ensures ok { IfOk result (λ t. fits.made_test test (givens_list givens) (counts_of counts.old)
        ≡ (t, counts_of counts.new)) }
    ensures err { IfErr result (λ e. e ≡ ParseFault.NoMemory) }
{
    match givens {
        Givens::None => Ok(test_of_none(test)),
        Givens::One(given) => Ok(test_of_one(test, given)),
        Givens::Two(first, second) => test_of_two(test, first, second, counts),
        Givens::Three(_, _, _) => Ok(Test::False),
    }
}

fn test_of_none(test: TestName) -> Test
    ensures { (n : fits.Counts) → fits.made_test test [] n ≡ (result, n) }
{
    match test {
        TestName::True => Test::True,
        _ => Test::False,
    }
}

fn test_of_one(test: TestName, given: Given) -> Test
    requires { length (table.test_parameters test) ≡ 1 }
    ensures { (n : fits.Counts) → fits.made_test test (given ∷ []) n ≡ (result, n) }
{
    match test {
        TestName::Path => path(given),
        TestName::PathPrefix => prefix(given),
        TestName::PathSuffix => suffix(given),
        TestName::Method => method(given),
        TestName::Equals => equals(given),
        TestName::Exists => exists(given),
        _ => Test::False,
    }
}

fn test_of_two(
    test: TestName,
    first: Given,
    second: Given,
    counts: &mut Counts,
) -> Result<Test, ParseFault>
    requires { length (table.test_parameters test) ≡ 2 }
    ensures ok { IfOk result (λ t. fits.made_test test (first ∷ second ∷ []) (counts_of counts.old)
        ≡ (t, counts_of counts.new)) }
    ensures err { IfErr result (λ e. e ≡ ParseFault.NoMemory) }
{
    match test {
        TestName::PathTemplate => Ok(path_template(first, second)),
        TestName::Regex => regex(first, second, counts),
        TestName::Contains => Ok(contains(first, second)),
        _ => Ok(Test::False),
    }
}

fn path(given: Given) -> Test
    ensures { (n : fits.Counts) → fits.made_test tests.Path (given ∷ []) n ≡ (result, n) }
{
    match given {
        Given::Texts(paths) => Test::Path(paths),
        _ => Test::False,
    }
}

fn prefix(given: Given) -> Test
    ensures { (n : fits.Counts) → fits.made_test tests.PathPrefix (given ∷ []) n ≡ (result, n) }
{
    match given {
        Given::Texts(paths) => Test::Prefix(paths),
        _ => Test::False,
    }
}

fn suffix(given: Given) -> Test
    ensures { (n : fits.Counts) → fits.made_test tests.PathSuffix (given ∷ []) n ≡ (result, n) }
{
    match given {
        Given::Texts(paths) => Test::Suffix(paths),
        _ => Test::False,
    }
}

fn method(given: Given) -> Test
    ensures { (n : fits.Counts) → fits.made_test tests.Method (given ∷ []) n ≡ (result, n) }
{
    match given {
        Given::Texts(methods) => Test::Method(methods),
        _ => Test::False,
    }
}

fn equals(given: Given) -> Test
    ensures { (n : fits.Counts) → fits.made_test tests.Equals (given ∷ []) n ≡ (result, n) }
{
    match given {
        Given::Templates(values) => Test::Equals(values),
        _ => Test::False,
    }
}

fn exists(given: Given) -> Test
    ensures { (n : fits.Counts) → fits.made_test tests.Exists (given ∷ []) n ≡ (result, n) }
{
    match given {
        Given::Template(value) => Test::Exists(value),
        _ => Test::False,
    }
}

fn path_template(parts: Given, value: Given) -> Test
    ensures { (n : fits.Counts)
        → fits.made_test tests.PathTemplate (parts ∷ value ∷ []) n ≡ (result, n) }
{
    match parts {
        Given::Segments(parts) => match value {
            Given::Template(value) => Test::PathTemplate { parts, value },
            _ => Test::False,
        },
        _ => Test::False,
    }
}

fn regex(pattern: Given, value: Given, counts: &mut Counts) -> Result<Test, ParseFault>
    ensures ok { IfOk result (λ t. fits.made_test tests.Regex (pattern ∷ value ∷ [])
        (counts_of counts.old)
        ≡ (t, counts_of counts.new)) }
    ensures err { IfErr result (λ e. e ≡ ParseFault.NoMemory) }
{
    match pattern {
        Given::Pattern { text, place } => match value {
            Given::Template(value) => numbered(text, place, value, counts),
            _ => Ok(Test::False),
        },
        _ => Ok(Test::False),
    }
}

/// The pattern with its number, which counts from 0 in the order of the text.
fn numbered(
    pattern: Bytes,
    place: usize,
    value: Template,
    counts: &mut Counts,
) -> Result<Test, ParseFault>
    ensures ok { IfOk result (λ t. fits.made_test tests.Regex
        (givens.Pattern pattern place ∷ givens.Template value ∷ []) (counts_of counts.old)
        ≡ (t, counts_of counts.new)) }
    ensures err { IfErr result (λ e. e ≡ ParseFault.NoMemory) }
{
    let Ok(number) = u32::try_from(counts.patterns.len()) else {
        return Err(ParseFault::NoMemory);
    };
    counts.patterns.push(place)?;
    Ok(Test::Regex {
        number,
        pattern,
        value,
    })
}

fn contains(value: Given, search: Given) -> Test
    ensures { (n : fits.Counts)
        → fits.made_test tests.Contains (value ∷ search ∷ []) n ≡ (result, n) }
{
    match value {
        Given::Template(value) => match search {
            Given::Texts(search) => Test::Contains { value, search },
            _ => Test::False,
        },
        _ => Test::False,
    }
}
