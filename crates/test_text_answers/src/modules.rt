//! Syntax trees of modules, in words.

use crate::pieces::put_names;
use crate::types::put_type;
use crate::values::put_value;
use std::alloc::AllocError;
use trees::{Assignment, At, Import, Module, TagDefault};

/// Writes a mark and an assignment.
fn put_assignment(out: &mut String, mark: &str, assignment: &Assignment) -> Result<(), AllocError> {
    match assignment {
        Assignment::Type(assignment) => {
            write!(out, "{mark}{} ::= ", assignment.name.it)?;
            put_type(out, &assignment.syntax)
        }
        Assignment::Value(assignment) => {
            write!(out, "{mark}{} ", assignment.name.it)?;
            put_type(out, &assignment.syntax)?;
            out.push_str(" ::= ")?;
            put_value(out, &assignment.value)
        }
    }
}

/// Writes assignments, or `nothing` if there are none.
pub fn put_assignments(out: &mut String, assignments: &[Assignment]) -> Result<(), AllocError> {
    if assignments.is_empty() {
        return out.push_str("nothing");
    }
    let mut mark = "";
    for assignment in assignments {
        put_assignment(out, mark, assignment)?;
        mark = "; ";
    }
    Ok(())
}

fn put_imports(out: &mut String, imports: &[Import]) -> Result<(), AllocError> {
    if imports.is_empty() {
        return out.push_str("none");
    }
    let mut mark = "";
    for import in imports {
        out.push_str(mark)?;
        put_names(out, &import.names)?;
        write!(out, " FROM {}", import.module.it)?;
        mark = " ";
    }
    Ok(())
}

fn put_exports(out: &mut String, exports: &Option<Vec<At<String>>>) -> Result<(), AllocError> {
    match exports {
        Some(names) => put_names(out, names),
        None => out.push_str("ALL"),
    }
}

/// Writes a module.
pub fn put_module(out: &mut String, module: &Module) -> Result<(), AllocError> {
    let tags = match module.tag_default {
        TagDefault::Explicit => "EXPLICIT",
        TagDefault::Implicit => "IMPLICIT",
        TagDefault::Automatic => "AUTOMATIC",
    };
    write!(out, "{} {tags} TAGS; EXPORTS ", module.name.it)?;
    put_exports(out, &module.exports)?;
    out.push_str("; IMPORTS ")?;
    put_imports(out, &module.imports)?;
    out.push_str("; ")?;
    put_assignments(out, &module.assignments)
}
