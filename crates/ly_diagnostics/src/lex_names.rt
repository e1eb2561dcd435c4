//! The names that the lines of a rejected lex file define and declare.
use crate::location::{is_blank_byte, is_newline};
use crate::nearest::MOST_NAMES;
use ly_base::{Language, OutOfMemory, leading_name};
use std::alloc::Global;

/// How many conditions are collected at most.
const MOST: usize = 2_000;

/// The names of the conditions that lines declare, and of the initial one, up to the maximum.
pub(crate) fn known_conditions(alloc: Global, text: &[u8]) -> Result<Vec<&[u8]>, OutOfMemory> {
    let mut known: Vec<&[u8]> = Vec::new(alloc);
    known.push(b"INITIAL")?;
    for line in text.split(is_newline) {
        if matches!(line, [b'%', b's' | b'S' | b'x' | b'X', ..]) {
            push_declared(&mut known, line)?;
        }
    }
    Ok(known)
}

/// Adds the names after the first word of a line, if that word declares conditions, up to the maximum.
fn push_declared<'t>(known: &mut Vec<&'t [u8]>, line: &'t [u8]) -> Result<(), OutOfMemory> {
    for name in line.split(is_blank_byte).skip(1) {
        if !name.is_empty() && known.len() < MOST {
            known.push(name)?;
        }
    }
    Ok(())
}

/// The names at the start of the lines before the rules, each once, up to the maximum.
pub(crate) fn defined_names(alloc: Global, text: &[u8]) -> Result<Vec<&[u8]>, OutOfMemory> {
    let mut names: Vec<&[u8]> = Vec::new(alloc);
    for line in text.split(is_newline) {
        if line.starts_with(b"%%") {
            break;
        }
        push_defined(&mut names, line)?;
    }
    Ok(names)
}

/// Adds the name at the start of a line, if there is one and it is new.
fn push_defined<'t>(names: &mut Vec<&'t [u8]>, line: &'t [u8]) -> Result<(), OutOfMemory> {
    if let Some((name, _)) = leading_name(line, Language::Lex)
        && names.len() < MOST_NAMES
        && !names.contains(&name)
    {
        names.push(name)?;
    }
    Ok(())
}
