//! Syntax trees of constraints, in words.

use crate::pieces::{put_reference, put_text};
use std::alloc::AllocError;
use trees::{CharsSyntax, ConstraintForm, ConstraintSyntax, EndSyntax, RangeSyntax, RangesSyntax};

/// Writes a mark and an end.
fn put_end(out: &mut String, mark: &str, end: &EndSyntax) -> Result<(), AllocError> {
    match end {
        EndSyntax::Number(number) => write!(out, "{mark}{}", number.it),
        EndSyntax::Reference(reference) => put_reference(out, mark, reference),
    }
}

/// Writes a mark, and an end or the word for no end.
fn put_end_or(
    out: &mut String,
    mark: &str,
    end: &Option<Box<EndSyntax>>,
    word: &str,
) -> Result<(), AllocError> {
    match end {
        Some(end) => put_end(out, mark, end),
        None => write!(out, "{mark}{word}"),
    }
}

/// Writes a mark and a range.
fn put_range(out: &mut String, mark: &str, range: &RangeSyntax) -> Result<(), AllocError> {
    match range {
        RangeSyntax::Single(end) => put_end(out, mark, end),
        RangeSyntax::Between(least, greatest) => {
            put_end_or(out, mark, least, "MIN")?;
            put_end_or(out, "..", greatest, "MAX")
        }
    }
}

/// Writes ranges, the first after a text, and a parenthesis.
fn put_ranges(out: &mut String, first: &str, ranges: &RangesSyntax) -> Result<(), AllocError> {
    let mut mark = first;
    for range in &ranges.ranges {
        put_range(out, mark, range)?;
        mark = " | ";
    }
    out.push_str(if ranges.marker { ", ...)" } else { ")" })
}

/// Writes an alphabet in parentheses.
fn put_chars(out: &mut String, chars: &[CharsSyntax]) -> Result<(), AllocError> {
    let mut mark = "(FROM ";
    for part in chars {
        put_text(out, mark, &part.first.it)?;
        if let Some(last) = &part.last {
            put_text(out, "..", &last.it)?;
        }
        mark = " | ";
    }
    out.push(')')
}

/// Writes a constraint in parentheses.
pub fn put_constraint(out: &mut String, constraint: &ConstraintSyntax) -> Result<(), AllocError> {
    match &constraint.form {
        ConstraintForm::Values(ranges) => put_ranges(out, "(", ranges),
        ConstraintForm::Size(sizes) => put_ranges(out, "(SIZE ", sizes),
        ConstraintForm::From(chars) => put_chars(out, chars),
    }
}

/// Writes constraints, each after a blank.
pub fn put_constraints(
    out: &mut String,
    constraints: &[ConstraintSyntax],
) -> Result<(), AllocError> {
    for constraint in constraints {
        out.push(' ')?;
        put_constraint(out, constraint)?;
    }
    Ok(())
}
