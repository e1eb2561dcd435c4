//! Table sets, and reading and writing table files.
//!
//! A `TableSet` is everything that a driver needs of a lex file and a yacc file. Its type guarantees that its numbers
//! are within their ranges and its parser's tables steady. `write_tables` writes it in a version of the format.
//! `read_tables` reads it back and returns the version (`TableText`). A set has one spelling in each version, a file
//! has one set and one version, and only running out of memory makes reading a set's file fail.
//!
//! The two versions of the format differ in the width of their numbers (`width_of`), and so in the greatest counts
//! (`counts_of`). The modules `numbers`, `front` and `bounds` implement both; everything else takes the version as a
//! parameter.
//!
//! A file is read in four steps: its fields as numbers, by counts only (`raw_reading`); checking these against the
//! ranges of their sections (`sections`); converting them (`conversion`); and checking that the tables are steady
//! (`steadiness`). So a missing field is distinguished from a number out of range, and errors have the order of the
//! definitions. A file that ends within its first six bytes lacks its version, whatever the bytes of the version that
//! it has.
//!
//! - `RawTables` has the same thirteen parts as `TableParts`, but as numbers. They are two types, so that no lemma
//!   needs a parameter for the kind of numbers.
//! - The numbers of slots are written in blocks of 1,024, because reserving memory for each number takes longer than
//!   writing it.
//! - Whether a file's tables are steady is checked on borrowed rows, because a machine's value doesn't include the
//!   bases of its rows.
#![tactic(auto)]

mod bounds;
mod comb_fields;
mod combs;
mod conversion;
mod fault;
mod field;
mod fitting;
mod format_fault;
mod front;
mod laws;
mod numbers;
mod parser_fields;
mod parser_part;
mod parser_sections;
mod plain_fields;
mod raw_reading;
mod raw_tables;
mod reading;
mod row_meaning;
mod row_ranges;
mod rule_meaning;
mod rule_ranges;
mod scan_rule;
mod scanner_fields;
mod scanner_meaning;
mod scanner_part;
mod scanner_ranges;
mod scanner_sections;
mod section;
mod sections;
mod set_counts;
mod steadiness;
mod symbol_part;
mod symbol_ranges;
mod symbol_sections;
mod table_parts;
mod table_set;
mod writing;

pub use fault::TableFault;
pub use format_fault::FormatFault;
pub use laws::{
    a_file_has_one_set, a_refusal_is_exact, a_set_has_one_spelling, a_set_is_spelled_by_numbers,
    a_set_is_within_version_2, numbers_of_a_set_are_within, raw_files_are_told_apart,
};
pub use reading::read_tables;
pub use scan_rule::ScanRule;
pub use set_counts::{SetCounts, counts};
pub use table_parts::TableParts;
pub use table_set::TableSet;
pub use writing::write_tables;
