//! The program: reads its arguments and carries out the command.
//!
//! `ly_cli` parses the arguments into a command, and `perform` carries it out. `answering` has the commands that parse
//! a text, `building`, `checking` and `explaining` have the others. `completion` and `failure` have their results,
//! their exit statuses and the lines on standard error.
//!
//! Files are read whole and in the order of the arguments before anything is judged. But for `run --lines`, nothing is
//! written before the result is known. A regular file is replaced only once its new content is complete (`ly_files`).
#![tactic(auto)]

ghost use Rattle.std.specs.Prelude.{◌≡◌, ◌⊎◌};

mod answering;
mod building;
mod checking;
mod completion;
mod explaining;
mod failure;
mod files;
mod notes;
mod perform;
mod remembering;
mod shown_path;

use crate::remembering::Remembering;
use ly_files::HostFolder;
use ly_print::Counted;
use std::env;
use std::io::{self, ErrorKind, Write};
use std::process::ExitCode;

/// The error for arguments that aren't UTF-8.
const NO_UTF_8: &str =
    "error: invalid UTF-8 was detected in one or more arguments\n\nFor more information, try '--help'.\n";

fn main(rt: HostRuntime) -> ExitCode {
    let alloc = rt.alloc();
    let words: Vec<String> = match env::args(&rt).and_then(|words| Ok(words.collect(alloc)?)) {
        Ok(words) => words,
        Err(why) => return ExitCode::from(without_words(&why, &mut rt.stderr())),
    };
    let status = perform::perform(
        &mut HostFolder(&rt),
        alloc,
        words.as_slice(),
        &mut Remembering::new(alloc, Counted::new(rt.stdin()), may_point(&words)),
        &mut Counted::new(rt.stdout()),
        &mut rt.stderr(),
    );
    ExitCode::from(status)
}

/// Reports why there are no arguments, and returns the exit status: an argument isn't UTF-8, which is a usage error in
/// `clap`'s words, or memory ran out.
fn without_words<E: Write>(why: &io::Error, faults: &mut E) -> u8
    ensures { (result ≡ 3) ⊎ (result ≡ 4) }
{
    let (status, line) = match why.kind() {
        ErrorKind::InvalidData => (4, NO_UTF_8),
        _ => (3, "lytab: out of memory\n"),
    };
    let _ = faults.write_all(line.as_bytes());
    status
}

/// Whether the arguments may ask for locations in the text. Then the text is kept from its first byte on.
fn may_point(words: &[String]) -> bool {
    for word in words {
        if word.as_str() == "--where" {
            return true;
        }
    }
    false
}
