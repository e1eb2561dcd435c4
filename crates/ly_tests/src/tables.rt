//! Table sets that are too large for a version of the table file. No run shows this, since `build` rejects such files
//! before.

use crate::answers::table_set;
use ly_engine::{FormatFault, TableSet, Version, write_tables};
use std::alloc::{AllocError, Global};
use std::test::Fail;

/// Adds the name of a token.
fn push_token(alloc: Global, yacc: &mut Vec<u8>, number: u32) -> Result<(), AllocError> {
    let name = format!(in alloc; " T{number}")?;
    yacc.extend_from_slice(name.as_bytes())
}

/// A yacc file that declares this many tokens.
fn with_tokens(alloc: Global, count: u32) -> Result<Vec<u8>, AllocError> {
    let mut yacc = Vec::from_slice(alloc, b"%token")?;
    for number in 0..count {
        push_token(alloc, &mut yacc, number)?;
    }
    yacc.extend_from_slice(b"\n%%s : ;")?;
    Ok(yacc)
}

/// The table set of a yacc file that declares this many tokens.
fn set_of_tokens(alloc: Global, count: u32) -> Result<TableSet, Fail> {
    let yacc = with_tokens(alloc, count)?;
    table_set(alloc, b"%%", &yacc)
}

/// Whether a set is too large for version 1.
fn is_too_large(alloc: Global, set: &TableSet) -> bool {
    matches!(
        write_tables(alloc, set, Version::V1),
        Err(FormatFault::TooLargeForVersion)
    )
}

/// Whether the set of a yacc file that declares this many tokens is too large for version 1.
fn are_too_many(alloc: Global, count: u32) -> Result<bool, Fail> {
    let set = set_of_tokens(alloc, count)?;
    let large = is_too_large(alloc, &set);
    drop(set);
    Ok(large)
}

/// With `s`, `$end`, `$undef` and `$accept` these are one symbol more than version 1 has.
#[test]
fn a_set_is_too_large_for_version_1(rt: HostRuntime) -> Result<(), Fail> {
    assert!(rt; are_too_many(rt.alloc(), 4_092)?);
    Ok(())
}
