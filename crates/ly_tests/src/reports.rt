//! Reports of two files: what is written and returned, which part rejects them, and limits that are met exactly.

use ly_base::Limits;
use ly_engine::{GenFault, ReportingFault, generate_report};
use ly_print::MemSink;
use std::alloc::Global;

/// Each byte returns its literal.
const BYTES: &[u8] = b"%%\n. return yytext[0];\n";

/// Writes the report of two files, and returns whether no state has two possible actions.
fn report_into(
    alloc: Global,
    lex: &[u8],
    yacc: &[u8],
    limits: &Limits,
    sink: &mut MemSink,
) -> Result<bool, ReportingFault> {
    generate_report(alloc, lex, yacc, limits, sink)
}

const NO_CONFLICTS: &[u8] = b"removed rules: 0\nconflicts: 0 shift/reduce, 0 reduce/reduce\n";

const DANGLING_ELSE: &[u8] = b"%token IF ELSE X\n%%s : IF s | IF s ELSE s | X ;";

/// Yacc files, whether no state has two possible actions, which no run shows, and their reports.
const REPORTS: [(&[u8], bool, &[u8]); 8] = [
    (b"%%s : ;", true, NO_CONFLICTS),
    (
        b"%token ID\n%%s : l '=' r | r ; l : '*' r | ID ; r : l ;",
        true,
        NO_CONFLICTS,
    ),
    (
        b"%left '+'\n%left '*'\n%%e : e '+' e | e '*' e | 'n' ;",
        false,
        NO_CONFLICTS,
    ),
    (
        b"%token ID\n%nonassoc '<'\n%%e : e '<' e | ID ;",
        false,
        NO_CONFLICTS,
    ),
    (
        b"%left LO\n%left 't'\n%left HI\n\
          %%s : a 't' | b 't' | 'x' 't' ; a : 'x' %prec HI ; b : 'x' %prec LO ;",
        false,
        NO_CONFLICTS,
    ),
    (
        b"%%s : 'x' ; t : 'y' ;",
        true,
        b"removed rules: 1\nremoved rule 2: t : 'y'\nconflicts: 0 shift/reduce, 0 reduce/reduce\n",
    ),
    (
        b"%%s : a | b ; a : 'x' ; b : 'x' ;",
        false,
        b"removed rules: 0\nconflicts: 0 shift/reduce, 1 reduce/reduce\n\
          reduce/reduce after ['x'] before $end: rule 3, not rule 4\n",
    ),
    (
        DANGLING_ELSE,
        false,
        b"removed rules: 0\nconflicts: 1 shift/reduce, 0 reduce/reduce\n\
          shift/reduce after [IF s] before ELSE: shift, not rule 1\n",
    ),
];

/// Whether a yacc file has this report and flag.
fn is_reported_so(alloc: Global, yacc: &[u8], free: bool, wanted: &[u8]) -> bool {
    let mut sink = MemSink::new(alloc);
    let found = report_into(alloc, BYTES, yacc, &Limits::V2, &mut sink);
    matches!(found, Ok(found) if found == free) && sink.bytes() == wanted
}

/// The index of the first of `REPORTS` that differs.
fn reported_otherwise(alloc: Global) -> Option<usize> {
    for (number, (yacc, free, wanted)) in REPORTS.iter().enumerate() {
        if !is_reported_so(alloc, yacc, *free, wanted) {
            return Some(number);
        }
    }
    None
}

#[test]
fn reports_are_written_whole(rt: HostRuntime) {
    assert_eq!(rt; reported_otherwise(rt.alloc()), None);
}

/// Whether a failed write is reported, with how much of the report was written.
fn tells_of_a_failed_write(alloc: Global) -> bool {
    let mut sink = MemSink::failing_after(alloc, 9);
    let free = report_into(alloc, BYTES, DANGLING_ELSE, &Limits::V2, &mut sink);
    matches!(free, Err(ReportingFault::Write { written: 9 }))
        && sink.bytes() == b"removed r".as_slice()
}

#[test]
fn a_report_stops_where_its_writer_fails(rt: HostRuntime) {
    assert!(rt; tells_of_a_failed_write(rt.alloc()));
}

/// Which part rejects two files, as a letter; `-` if none does.
fn refusal(alloc: Global, lex: &[u8], yacc: &[u8], limits: &Limits) -> u8 {
    let mut sink = MemSink::new(alloc);
    match report_into(alloc, lex, yacc, limits, &mut sink) {
        Ok(_) => b'-',
        Err(ReportingFault::Files(fault)) => letter(&fault),
        Err(ReportingFault::Write { .. }) => b'w',
    }
}

/// The letter of an error.
fn letter(fault: &GenFault) -> u8 {
    match fault {
        GenFault::Lex(_) => b'l',
        GenFault::Yacc(_) => b'y',
        GenFault::Join(_) => b'j',
        GenFault::Positions(_) => b'p',
        GenFault::States(_) => b's',
        GenFault::Grammar(_) => b'g',
        GenFault::Automaton(_) => b'a',
        GenFault::Endless { .. } => b'e',
        GenFault::OutOfMemory => b'm',
    }
}

const SMALL: &[u8] = b"%%s : 'x' ;";

const CALC: &[u8] =
    b"%token NUM\n%left '+'\n%left '*'\n%%e : e '+' e | e '*' e | '(' e ')' | NUM ;";

const LITERAL: &[u8] = b"%%\nx return 'x';\n";

const ABB: &[u8] = b"%%\n(a|b)*abb return 'x';\n";

const OVERLAPPING: &[u8] = b"%%\n[a-c] return 'x';\n[c-e] return 'y';\n";

/// A lex file and a yacc file; the limits of weight, of the scanner's states, of the parser's states and of symbols;
/// and which part rejects the files.
type Limited<'a> = (&'a [u8], &'a [u8], [u32; 4], u8);

/// Each limit met exactly, and exceeded by one. If several parts would reject the files, it is the first one.
const LIMITED: [Limited<'static>; 22] = [
    (b"a", b"a", [9, 9, 9, 9], b'l'),
    (BYTES, b"a", [9, 9, 9, 9], b'y'),
    (BYTES, b"%%s : q ;", [9, 9, 9, 9], b'j'),
    (b"%%\na return Y;\n", SMALL, [9, 9, 9, 9], b'j'),
    (BYTES, b"%%s : s 'x' ;", [9, 9, 9, 9], b'g'),
    (BYTES, b"%start s\n%%a : a | 'x' ; s : a ;", [9; 4], b'e'),
    (b"%%\na{8} return 'x';\n", SMALL, [8, 9, 9, 9], b'-'),
    (b"%%\na{9} return 'x';\n", SMALL, [8, 9, 9, 9], b'l'),
    (b"%%\na{4} ;\nb{4} ;\n", SMALL, [8, 9, 9, 9], b'-'),
    (b"%%\na{4} ;\nb{5} ;\n", SMALL, [8, 9, 9, 9], b'p'),
    (ABB, SMALL, [9, 4, 9, 9], b'-'),
    (ABB, SMALL, [9, 3, 9, 9], b's'),
    (OVERLAPPING, SMALL, [9, 4, 9, 9], b'-'),
    (OVERLAPPING, SMALL, [9, 3, 9, 9], b's'),
    (LITERAL, SMALL, [9, 2, 3, 9], b'-'),
    (LITERAL, SMALL, [9, 2, 2, 9], b'a'),
    (LITERAL, SMALL, [9, 1, 3, 9], b's'),
    (LITERAL, CALC, [9, 2, 10, 9], b'-'),
    (LITERAL, CALC, [9, 2, 9, 9], b'a'),
    (LITERAL, b"%%s : ;", [9, 2, 0, 9], b'a'),
    (LITERAL, SMALL, [9, 9, 9, 5], b'-'),
    (LITERAL, SMALL, [9, 9, 9, 4], b'j'),
];

/// These limits.
fn limits_of(limits: [u32; 4]) -> Limits {
    let [weight, scanner, parser, symbols] = limits;
    Limits::V2
        .with_pattern_weight(weight)
        .with_total_weight(weight)
        .with_scanner_states(scanner)
        .with_parser_states(parser)
        .with_symbols(symbols)
}

/// The index of the first of `LIMITED` that another part rejects.
fn refused_otherwise(alloc: Global) -> Option<usize> {
    for (number, (lex, yacc, limits, wanted)) in LIMITED.iter().enumerate() {
        if refusal(alloc, lex, yacc, &limits_of(*limits)) != *wanted {
            return Some(number);
        }
    }
    None
}

#[test]
fn each_limit_is_met_exactly(rt: HostRuntime) {
    assert_eq!(rt; refused_otherwise(rt.alloc()), None);
}
