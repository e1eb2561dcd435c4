//! Why two files are rejected that are valid and fit together: their grammar doesn't terminate, or derives no text.
use crate::advice::Advice;
use crate::roundabout::{
    Step, derived_alone, is_behind_nothing, needed_in, with_text, without_text,
};
use crate::yacc_offsets::{body_offset, readable, start_location};
use ly_base::{Limits, Location, OutOfMemory, Sym, locate};
use ly_generate::GenFault;
use ly_grammar::{GrammarFault, reduce};
use ly_join::{JoinFault, Spec, Symbol, join};
use ly_lexread::{LexFault, LexFile, read_lex};
use ly_text_buffer::TextBuffer;
use ly_yaccread::YaccFile;
use std::alloc::Global;

/// How many lines or nonterminals are named at most.
const NAMED: usize = 6;

/// The cause of an error.
#[derive(Drop)]
pub(crate) struct Cause {
    /// The location in the yacc file, if there is one.
    pub(crate) at: Option<Location>,
    /// The suggestion.
    pub(crate) advice: Advice,
}

/// Two files that were joined.
#[derive(Drop)]
struct Joined<'t> {
    /// The bytes of the yacc file.
    text: &'t [u8],
    /// The yacc file as it was read.
    file: YaccFile,
    /// The specification of both.
    spec: Spec,
}

/// Finds the cause of an error that isn't in one place of the files.
pub(crate) fn cause_of(
    alloc: Global,
    lex: &[u8],
    yacc: &[u8],
    limits: &Limits,
    fault: &GenFault,
) -> Result<Cause, OutOfMemory> {
    if let Some(cause) = grammar_cause(alloc, lex, yacc, limits, fault)? {
        return Ok(cause);
    }
    let at = match fault {
        GenFault::Grammar(_) => start_location(alloc, yacc)?,
        _ => None,
    };
    Ok(Cause {
        at,
        advice: Advice::of_whole(fault),
    })
}

/// The cause of an error of the grammar, if one is found.
fn grammar_cause(
    alloc: Global,
    lex: &[u8],
    yacc: &[u8],
    limits: &Limits,
    fault: &GenFault,
) -> Result<Option<Cause>, OutOfMemory> {
    if !matches!(fault, GenFault::Grammar(_) | GenFault::Endless { .. }) {
        return Ok(None);
    }
    let Some(joined) = joined_files(alloc, lex, yacc, limits)? else {
        return Ok(None);
    };
    match fault {
        GenFault::Grammar(_) => joined.without_text(alloc),
        GenFault::Endless { .. } => joined.without_end(alloc),
        _ => Ok(None),
    }
}

/// Both files as they are joined. `None` if one of them is invalid, or if they don't fit together.
fn joined_files<'t>(
    alloc: Global,
    lex: &[u8],
    yacc: &'t [u8],
    limits: &Limits,
) -> Result<Option<Joined<'t>>, OutOfMemory> {
    let (Some(lex), Some(file)) = (lex_file(alloc, lex, limits)?, readable(alloc, yacc)?) else {
        return Ok(None);
    };
    match join(alloc, &lex, &file, limits) {
        Ok(spec) => Ok(Some(Joined {
            text: yacc,
            file,
            spec,
        })),
        Err(JoinFault::OutOfMemory) => Err(OutOfMemory),
        Err(_) => Ok(None),
    }
}

/// A lex file as it is read, if it is valid.
fn lex_file(alloc: Global, text: &[u8], limits: &Limits) -> Result<Option<LexFile>, OutOfMemory> {
    match read_lex(alloc, text, limits) {
        Ok(file) => Ok(Some(file)),
        Err(LexFault::OutOfMemory) => Err(OutOfMemory),
        Err(LexFault::Refused { .. }) => Ok(None),
    }
}

impl Joined<'_> {
    /// The cause if the start symbol derives no text.
    fn without_text(&self, alloc: Global) -> Result<Option<Cause>, OutOfMemory> {
        let Some(known) = with_text(alloc, self.spec.grammar())? else {
            return Ok(None);
        };
        let around = without_text(alloc, self.spec.grammar(), &known)?;
        let Some(first) = around.first() else {
            return Ok(None);
        };
        let Some(offset) = self.left_offset(first.rule) else {
            return Ok(None);
        };
        Ok(Some(Cause {
            at: Some(locate(self.text, offset)),
            advice: Advice::Made(self.needs(alloc, &around, &known)?),
        }))
    }

    /// The cause if the parser reduces without end.
    fn without_end(&self, alloc: Global) -> Result<Option<Cause>, OutOfMemory> {
        let reduced = match reduce(alloc, self.spec.grammar()) {
            Ok(reduced) => reduced,
            Err(GrammarFault::OutOfMemory) => return Err(OutOfMemory),
            Err(GrammarFault::StartUnproductive) => return Ok(None),
        };
        let around = derived_alone(alloc, &reduced)?;
        if let Some(rule) = around.iter().map(|step| step.rule).min() {
            let advice = Advice::Made(self.derives_itself(alloc, &around)?);
            return Ok(self.cause_in_body(rule, advice));
        }
        let rules = self.spec.grammar().rules();
        let hidden = (1..rules.len()).find(|rule| is_behind_nothing(&reduced, *rule));
        Ok(match hidden {
            Some(rule) => {
                self.cause_in_body(
                    rule,
                    Advice::Words(
                        "the symbols before the left side in its own body may be empty, so they are reduced \
                        without end",
                    ),
                )
            }
            None => None,
        })
    }

    /// A cause whose location is the body of a rule.
    fn cause_in_body(&self, rule: usize, advice: Advice) -> Option<Cause> {
        Some(Cause {
            at: Some(self.body_location(rule)?),
            advice,
        })
    }

    /// The location of the body of a rule.
    fn body_location(&self, rule: usize) -> Option<Location> {
        let offset = body_offset(&self.file, self.text, rule.checked_sub(1)?)?;
        Some(locate(self.text, offset))
    }

    /// The offset of the left side of a rule.
    fn left_offset(&self, rule: usize) -> Option<usize> {
        let offsets = self.file.rule_offsets.get(rule.checked_sub(1)?)?;
        Some(offsets.left as usize)
    }

    /// Text: what each of these nonterminals needs. Each needs the next one, or others, and the last one the first.
    fn needs(
        &self,
        alloc: Global,
        around: &[Step],
        known: &[bool],
    ) -> Result<Vec<u8>, OutOfMemory> {
        let mut buffer = TextBuffer::new(alloc);
        if let [step] = around
            && self.is_in_each_body(step.to)
        {
            buffer.push(b"each rule of ");
            self.write_name(&mut buffer, step.to);
            buffer.push(b" needs ");
            self.write_name(&mut buffer, step.to);
            buffer.push(b" again: add one that doesn't");
            return buffer.finish();
        }
        for (number, step) in around.iter().take(NAMED).enumerate() {
            if number > 0 {
                buffer.push(b", ");
            }
            let left = self.left(step.rule);
            self.write_name(&mut buffer, left);
            buffer.push(b" needs ");
            self.write_needed(alloc, &mut buffer, left, known)?;
        }
        if around.len() > NAMED {
            buffer.push(b", and so on back to the first");
        }
        buffer.push(b": add a rule that ends this");
        buffer.finish()
    }

    /// Whether each rule of a nonterminal has it in its body.
    fn is_in_each_body(&self, left: Sym) -> bool {
        let rules = self.spec.grammar().rules().iter();
        rules
            .filter(|rule| rule.left() == left)
            .all(|rule| rule.body().contains(&Symbol::Nonterminal(left)))
    }

    /// Appends what a nonterminal without a text needs: for each of its rules the nonterminals of the body that derive
    /// no text. What several rules need is there once.
    fn write_needed(
        &self,
        alloc: Global,
        buffer: &mut TextBuffer,
        left: Sym,
        known: &[bool],
    ) -> Result<(), OutOfMemory> {
        let mut written: Vec<Vec<Sym>> = Vec::new(alloc);
        for rule in self.spec.grammar().rules() {
            let needed = needed_in(alloc, rule.body(), known)?;
            if rule.left() != left || written.contains(&needed) {
                continue;
            }
            if written.len() == NAMED {
                buffer.push(b" or others");
                break;
            }
            buffer.push(if written.is_empty() { b"" } else { b" or " });
            for (number, symbol) in needed.iter().enumerate() {
                buffer.push(if number == 0 { b"" } else { b" and " });
                self.write_name(buffer, *symbol);
            }
            written.push(needed)?;
        }
        Ok(())
    }

    /// Text: a nonterminal derives itself by the rules of these steps.
    fn derives_itself(&self, alloc: Global, around: &[Step]) -> Result<Vec<u8>, OutOfMemory> {
        let mut buffer = TextBuffer::new(alloc);
        let least = around.iter().map(|step| step.rule).min().unwrap_or(0);
        self.write_name(&mut buffer, self.left(least));
        buffer.push(b" derives only itself, by ");
        if around.len() == 1 {
            buffer.push(b"this rule, which is reduced without end: remove it");
        } else {
            write_lines(&mut buffer, &self.lines(alloc, around)?);
            buffer.push(b", which are reduced without end: remove one of them");
        }
        buffer.finish()
    }

    /// The lines on which the bodies of these steps' rules begin, each once, in ascending order.
    fn lines(&self, alloc: Global, around: &[Step]) -> Result<Vec<u64>, OutOfMemory> {
        let mut lines = Vec::new(alloc);
        for step in around {
            if let Some(at) = self.body_location(step.rule) {
                lines.push(at.line)?;
            }
        }
        lines.sort()?;
        lines.dedup();
        Ok(lines)
    }

    /// The left side of a rule.
    fn left(&self, rule: usize) -> Sym {
        match self.spec.grammar().rules().get(rule) {
            Some(rule) => rule.left(),
            None => self.spec.grammar().accept(),
        }
    }

    /// Appends the name of a nonterminal.
    fn write_name(&self, buffer: &mut TextBuffer, number: Sym) {
        buffer.push(b"`");
        buffer.push_symbol(&self.spec, Symbol::Nonterminal(number));
        buffer.push(b"`");
    }
}

/// Appends the lines of the rules that are named.
fn write_lines(buffer: &mut TextBuffer, lines: &[u64]) {
    buffer.push(if lines.len() == 1 {
        b"the rules on line "
    } else {
        b"the rules on lines "
    });
    for (number, line) in lines.iter().take(NAMED).enumerate() {
        if number > 0 {
            let is_last = number.saturating_add(1) == lines.len();
            buffer.push(if is_last { b" and " } else { b", " });
        }
        buffer.push_number(*line);
    }
    if lines.len() > NAMED {
        buffer.push(b" and others");
    }
}
