//! Trees as JSON, without spans and with them, if memory runs out and if a writer fails in mid-line.

use crate::answers::table_file;
use crate::memory::{Attempt, Trial, trials_of_all_room};
use ly_engine::{AnswerForm, DriveFault, Outcome, Sink, TextFault, drive, drive_placed};
use ly_print::{Counted, MemSink, MemSource};
use std::alloc::Global;
use std::test::Fail;

const WORDS: &[u8] = b"%%\n[0-9]+ return NUM;\n[ \\n] ;\n. return yytext[0];\n";

const SUMS: &[u8] = b"%token NUM\n%left '+'\n%%\ne : e '+' e { $$ = Add($1,$3); } | NUM ;\n";

const TEXT: &[u8] = b"1 +\n 23";

const LINE: &[u8] = b"{\"node\":\"Add\",\"children\":[{\"token\":\"NUM\",\"text\":\"1\"},\
    {\"token\":\"NUM\",\"text\":\"23\"}]}\n";

const PLACED: &[u8] = b"{\"node\":\"Add\",\"start\":[0,1,1],\"end\":[7,2,4],\"children\":[\
    {\"token\":\"NUM\",\"start\":[0,1,1],\"end\":[1,1,2],\"text\":\"1\"},\
    {\"token\":\"NUM\",\"start\":[5,2,2],\"end\":[7,2,4],\"text\":\"23\"}]}\n";

/// The number of tries: a parser takes more memory than a scanner.
const TRIES: u32 = 16_000;

/// How the tree of `TEXT` is written.
#[derive(Clone, Copy)]
enum Form {
    /// As JSON.
    Json,
    /// As JSON with spans.
    Placed,
}

impl Form {
    /// Its line.
    fn line(self) -> &'static [u8] {
        match self {
            Form::Json => LINE,
            Form::Placed => PLACED,
        }
    }

    /// Parses the text with a table file.
    fn answer<W: Sink>(
        self,
        alloc: Global,
        tables: &[u8],
        writer: &mut W,
    ) -> Result<Outcome, DriveFault> {
        let mut reader = MemSource::new(TEXT);
        match self {
            Form::Json => drive(alloc, tables, AnswerForm::Json, &mut reader, writer),
            Form::Placed => drive_placed(alloc, tables, &mut reader, writer),
        }
    }

    /// Parses it and writes the output to a block.
    fn answer_into(
        self,
        alloc: Global,
        tables: &[u8],
        room: &mut [u8],
    ) -> Result<Outcome, DriveFault> {
        let mut writer = Counted::new(room);
        self.answer(alloc, tables, &mut writer)
    }

    /// Whether the failure of a writer after this many bytes is reported, and exactly these were written.
    fn tells_of_a_failed_write(self, alloc: Global, tables: &[u8], count: usize) -> bool {
        let mut writer = MemSink::failing_after(alloc, count);
        let answered = self.answer(alloc, tables, &mut writer);
        let is_told = matches!(
            answered,
            Err(DriveFault::Text(TextFault::Write { written })) if written == count
        );
        is_told && Some(writer.bytes()) == self.line().get(..count)
    }

    /// The first number of bytes in mid-line after which a failure isn't reported.
    fn untold(self, alloc: Global, tables: &[u8]) -> Option<usize> {
        for count in 0..self.line().len() {
            if !self.tells_of_a_failed_write(alloc, tables, count) {
                return Some(count);
            }
        }
        None
    }
}

/// Parses `TEXT` with a table file, with memory for one byte more than the line of its output has.
#[derive(Drop)]
struct Answer<'t> {
    form: Form,
    tables: &'t [u8],
    room: Vec<u8>,
}

impl Attempt for Answer<'_> {
    fn trial(&mut self, alloc: Global) -> Trial {
        let line = self.form.line();
        self.room.fill(0);
        let answered = self.form.answer_into(alloc, self.tables, &mut self.room);
        let written = self.room.iter().take_while(|byte| **byte != 0).count();
        match answered {
            Ok(Outcome::Tree) if Some(line) == self.room.get(..written) => Trial::Answered,
            Err(DriveFault::Text(TextFault::OutOfMemory)) if written == 0 => Trial::Refused,
            _ => Trial::Wrong,
        }
    }
}

/// How many tries run out of memory, and how many succeed.
fn trials_of(alloc: Global, tables: &[u8], form: Form) -> Result<(u32, u32), Fail> {
    let mut answer = Answer {
        form,
        tables,
        room: vec![in alloc; 0u8; form.line().len() + 1]?,
    };
    trials_of_all_room(alloc, &mut answer, TRIES)
}

/// Both numbers for either form.
fn trials_of_both(alloc: Global) -> Result<[(u32, u32); 2], Fail> {
    let tables = table_file(alloc, WORDS, SUMS)?;
    let json = trials_of(alloc, &tables, Form::Json)?;
    let placed = trials_of(alloc, &tables, Form::Placed)?;
    Ok([json, placed])
}

#[test]
fn want_of_memory_for_trees_is_told(rt: HostRuntime) -> Result<(), Fail> {
    for (refused, answered) in trials_of_both(rt.alloc())? {
        assert!(rt;
            refused > 0 && answered > 0,
            "{refused} refused, {answered} answered"
        );
    }
    Ok(())
}

/// The first unreported failures of either form.
fn untold_of_both(alloc: Global) -> Result<[Option<usize>; 2], Fail> {
    let tables = table_file(alloc, WORDS, SUMS)?;
    Ok([
        Form::Json.untold(alloc, &tables),
        Form::Placed.untold(alloc, &tables),
    ])
}

#[test]
fn a_write_that_fails_in_mid_line_is_told(rt: HostRuntime) -> Result<(), Fail> {
    assert_eq!(rt; untold_of_both(rt.alloc())?, [None, None]);
    Ok(())
}
