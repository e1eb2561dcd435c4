//! Table sets, made by functions without contracts. A test that calls these doesn't carry the contracts of the calls
//! inside, so its own proof stays short.

use ly_base::Limits;
use ly_engine::{TableSet, Version, generate, read_tables};
use std::alloc::Global;
use std::test::Fail;

/// The table file of a lex file and a yacc file.
pub(crate) fn table_file(alloc: Global, lex: &[u8], yacc: &[u8]) -> Result<Vec<u8>, Fail> {
    Ok(generate(alloc, lex, yacc, &Limits::V2, Version::V2)?)
}

/// The table set of a table file.
fn set_of(alloc: Global, tables: &[u8]) -> Result<TableSet, Fail> {
    let (set, _version) = read_tables(alloc, tables)?;
    Ok(set)
}

/// The table set of a lex file and a yacc file.
pub(crate) fn table_set(alloc: Global, lex: &[u8], yacc: &[u8]) -> Result<TableSet, Fail> {
    set_of(alloc, &table_file(alloc, lex, yacc)?)
}
