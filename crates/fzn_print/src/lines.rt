//! The numbers in the lines of a solution. What can't be read of a line gives numbers of which nothing is said: whether the
//! text was that of the numbers is seen where these are printed again.

ghost use Rattle.std.specs.Prelude.{◌≡◌, ◌++◌, ℕ, List, IfOk, OnOk};
ghost use Rattle.fzn_print.specs.AnswerText.{output_name};
ghost use Rattle.fzn_print.specs.Lines.{ReadsArray, ReadsEntries, ReadsLine, ReadsLines, ReadsOthers, ReadsOutput, ReadsTerm, head_text, put_at};

use crate::arrays::{COMMA, push_count, push_ranges};
use crate::numbers::{behind, read_value};
use constraint_model::{Output, Term};
use std::alloc::{AllocError, Global};

/// Puts a number at the place of a variable.
fn put(values: &mut [i64], term: Term, number: i64)
    ensures { values.new ≡ put_at values.old term number }
{
    if let Term::Var(place) = term {
        let place = place as usize;
        if place < values.len() {
            values[place] = number;
        }
    }
}

/// Reads the value of a term into the values, where it is a variable, and answers the bytes behind it.
fn read_term<'a>(is_bool: bool, term: Term, values: &mut [i64], rest: &'a [u8]) -> &'a [u8]
    ensures { ReadsTerm is_bool term rest.now result.now values.old values.new }
{
    let (number, after) = read_value(rest, is_bool);
    put(values, term, number);
    after
}

/// Reads terms with a comma before each.
fn read_others<'a>(is_bool: bool, terms: &[Term], values: &mut [i64], rest: &'a [u8]) -> &'a [u8]
    ensures { ReadsOthers is_bool terms.now rest.now result.now values.old values.new }
{
    let mut left = rest;
    for term in terms {
        left = read_term(is_bool, *term, values, behind(left, COMMA));
    }
    left
}

/// Reads terms with a comma between each two.
fn read_entries<'a>(is_bool: bool, terms: &[Term], values: &mut [i64], rest: &'a [u8]) -> &'a [u8]
    ensures { ReadsEntries is_bool terms.now rest.now result.now values.old values.new }
{
    match terms.split_first() {
        Some((first, others)) => {
            let rest = read_term(is_bool, *first, values, rest);
            read_others(is_bool, others, values, rest)
        }
        None => rest,
    }
}

/// The text before the entries of an array.
fn array_head(alloc: Global, ranges: &[(i64, i64)]) -> Result<Vec<u8>, AllocError>
    ensures { IfOk result (λ text. text.items ≡ head_text ranges.now) }
{
    let mut text = Vec::from_slice(alloc, b"array")?;
    push_count(&mut text, ranges.len())?;
    text.extend_from_slice(b"d(")?;
    push_ranges(&mut text, ranges)?;
    text.extend_from_slice(b"[")?;
    Ok(text)
}

/// Reads an array.
fn read_array<'a>(
    alloc: Global,
    is_bool: bool,
    ranges: &[(i64, i64)],
    entries: &[Term],
    values: &mut [i64],
    rest: &'a [u8],
) -> Result<&'a [u8], AllocError>
    ensures { IfOk result (λ after. ReadsArray is_bool ranges.now entries.now rest.now after.now values.old values.new) }
{
    let head = array_head(alloc, ranges)?;
    let rest = behind(rest, &head);
    let rest = read_entries(is_bool, entries, values, rest);
    Ok(behind(rest, b"])"))
}

/// Reads the value of an output behind its name, and answers the bytes behind that.
fn read_output<'a>(
    alloc: Global,
    output: &Output,
    values: &mut [i64],
    rest: &'a [u8],
) -> Result<&'a [u8], AllocError>
    ensures { IfOk result (λ after. ReadsOutput output.now rest.now after.now values.old values.new) }
{
    match output {
        Output::Scalar { is_bool, value, .. } => Ok(read_term(*is_bool, *value, values, rest)),
        Output::Array {
            is_bool,
            ranges,
            entries,
            ..
        } => read_array(
            alloc,
            *is_bool,
            ranges.as_slice(),
            entries.as_slice(),
            values,
            rest,
        ),
    }
}

/// The bytes behind the name of an output, where they begin with it.
fn behind_name<'a>(output: &Output, rest: &'a [u8]) -> &'a [u8]
    ensures { (tail : List ℕ) → rest.now ≡ output_name output.now ++ tail → result.now ≡ tail }
{
    match output {
        Output::Scalar { name, .. } => behind(rest, name.as_slice()),
        Output::Array { name, .. } => behind(rest, name.as_slice()),
    }
}

/// Reads the line of an output.
fn read_line<'a>(
    alloc: Global,
    output: &Output,
    values: &mut [i64],
    rest: &'a [u8],
) -> Result<&'a [u8], AllocError>
    ensures { IfOk result (λ after. ReadsLine output.now rest.now after.now values.old values.new) }
{
    let rest = behind(behind_name(output, rest), b" = ");
    let rest = read_output(alloc, output, values, rest)?;
    Ok(behind(rest, b";\n"))
}

/// Reads the lines of outputs.
pub(crate) fn read_lines(
    alloc: Global,
    outputs: &[Output],
    values: &mut [i64],
    rest: &[u8],
) -> Result<(), AllocError>
    ensures { OnOk result (ReadsLines outputs.now rest.now values.old values.new) }
{
    let mut left = rest;
    for output in outputs {
        left = read_line(alloc, output, values, left)?;
    }
    Ok(())
}
