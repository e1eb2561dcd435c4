use crate::advice::Advice;
use crate::finding::{Finding, Findings, MOST};
use crate::join_mending::mend;
use crate::lex_faults::MendedLex;
use crate::lex_units::{action_start, first_line};
use crate::location::{from_offset, line_start};
use crate::nearest::nearest;
use crate::pieces::behind_piece;
use crate::short::Short;
use crate::yacc_advice::FURTHER_BODY;
use crate::yacc_faults::MendedYacc;
use crate::yacc_offsets::{ends_body, given_offset, symbol_location};
use ly_base::{Language, Limits, Location, OutOfMemory, after_gap, locate};
use ly_generate::GenFault;
use ly_join::{JoinFault, TerminalName, join};
use ly_lexread::{LexAction, Returned};
use ly_text_buffer::TextBuffer;
use ly_yaccread::{SymbolName, WordSpan, YaccFile, word_spans};
use std::alloc::Global;
use std::rc::RcSlice;

/// Two files that are joined again in reduced form each time an error is fixed in the second one.
#[derive(Drop)]
struct Joining<'a> {
    /// The lex file.
    lex: &'a MendedLex,
    /// The yacc file.
    yacc: &'a MendedYacc,
    /// The spans of the words of the yacc file.
    words: Vec<WordSpan>,
    /// The reduced form of both, with the fixes so far.
    short: Short<'a>,
    /// The names that an error was reported for.
    said: Vec<Vec<u8>>,
}

/// Finds the errors of both files together. Each is fixed in what was read of the yacc file, and the files are joined
/// again. Only the first error of a name is reported.
pub(crate) fn find_join_faults(
    alloc: Global,
    findings: &mut Findings,
    lex: &MendedLex,
    yacc: &MendedYacc,
    limits: &Limits,
) -> Result<(), OutOfMemory> {
    let mut joining = Joining {
        lex,
        yacc,
        words: word_spans(alloc, &yacc.text)?,
        short: Short::of(alloc, &lex.actions, &yacc.file)?,
        said: Vec::new(alloc),
    };
    joining.find_faults(alloc, findings, limits)
}

impl Joining<'_> {
    /// Finds the remaining errors and fixes them.
    fn find_faults(
        &mut self,
        alloc: Global,
        findings: &mut Findings,
        limits: &Limits,
    ) -> Result<(), OutOfMemory> {
        findings.begin_next();
        for _ in 0..=MOST {
            match self.next_fault(alloc, limits, findings.is_empty())? {
                Some(fault) => self.take(alloc, findings, &fault)?,
                None => return Ok(()),
            }
        }
        findings.note_more();
        Ok(())
    }

    /// The first remaining error in reduced form. That there are no rules is an error only if no other was found.
    fn next_fault(
        &self,
        alloc: Global,
        limits: &Limits,
        alone: bool,
    ) -> Result<Option<JoinFault>, OutOfMemory> {
        match join(alloc, &self.short.lex, &self.short.yacc, limits).err() {
            Some(JoinFault::LimitPassed { .. }) => Ok(None),
            Some(JoinFault::OutOfMemory) => Err(OutOfMemory),
            Some(JoinFault::NoRules) if !alone => Ok(None),
            fault => Ok(fault),
        }
    }

    /// Adds an error in reduced form, unless its name has one already, and fixes it.
    fn take(
        &mut self,
        alloc: Global,
        findings: &mut Findings,
        short: &JoinFault,
    ) -> Result<(), OutOfMemory> {
        let fault = self.short.restored(alloc, short)?;
        let advice = self.note(alloc, &fault)?;
        mend(alloc, &mut self.short.yacc, short)?;
        match advice {
            Some(advice) => findings.add(Finding {
                at: self.location(&fault),
                fault: GenFault::Join(fault),
                advice,
            }),
            None => Ok(()),
        }
    }

    /// Notes that an error of its name is reported, and returns the suggestion for it. Returns `None` if the name has
    /// an error already.
    fn note(&mut self, alloc: Global, fault: &JoinFault) -> Result<Option<Advice>, OutOfMemory> {
        let name = Vec::from_slice(alloc, name_of(fault))?;
        let is_new = !self.said.contains(&name);
        self.said.push(name)?;
        if !is_new {
            return Ok(None);
        }
        if let JoinFault::PrecedenceTwice(terminal) = fault {
            return Ok(Some(self.leave_one_out(alloc, terminal)?));
        }
        if let JoinFault::TokenOnLeft(name) = fault
            && ends_body(&self.yacc.file, &self.yacc.text, name)
        {
            return Ok(Some(Advice::Words(FURTHER_BODY)));
        }
        Ok(Some(join_advice(alloc, fault, &self.yacc.file, &self.said)?))
    }

    /// The suggestion for a terminal that has two precedences: the line of the first one.
    fn leave_one_out(&self, alloc: Global, terminal: &TerminalName) -> Result<Advice, OutOfMemory> {
        let Some(offset) = given_offset(&self.yacc.file, terminal, 0) else {
            return Ok(Advice::Nothing);
        };
        let mut buffer = TextBuffer::new(alloc);
        buffer.push(b"remove it from one declaration: the first is on line ");
        buffer.push_number(locate(&self.yacc.text, offset).line);
        Ok(Advice::Made(buffer.finish()?))
    }

    /// The location of an error. It is the start of the file if the symbol that the error names isn't found.
    fn location(&self, fault: &JoinFault) -> Location {
        let found = match fault {
            JoinFault::ReturnUndeclared(name) => returned_location(self.lex, name),
            _ => symbol_location(&self.yacc.file, &self.words, &self.yacc.text, fault),
        };
        found.unwrap_or(Location { line: 1, column: 1 })
    }
}

/// The name of the symbol that an error names; empty if it names none.
fn name_of(fault: &JoinFault) -> &[u8] {
    match fault {
        JoinFault::UndefinedSymbol(name)
        | JoinFault::TokenOnLeft(name)
        | JoinFault::UnknownStart(name)
        | JoinFault::ReturnUndeclared(name)
        | JoinFault::PrecUnknown(name) => name,
        _ => b"",
    }
}

/// The location of a name in the first rule of a lex file whose own action returns it.
fn returned_location(lex: &MendedLex, name: &[u8]) -> Option<Location> {
    for (action, start) in lex.actions.iter().zip(lex.rule_starts.iter()) {
        let rule = from_offset(&lex.text, *start);
        let action_text = from_offset(rule, action_start(first_line(rule)));
        if !action_text.starts_with(b"|") && returns(action, name) {
            let returned = returned_in(action_text, name)?;
            return Some(locate(&lex.text, lex.text.len().saturating_sub(returned.len())));
        }
    }
    None
}

/// Whether an action returns a name.
fn returns(action: &LexAction, name: &[u8]) -> bool {
    match &action.returns {
        Returned::Token(token) => token.as_slice() == name,
        _ => false,
    }
}

/// The rest of an action from the name on that it returns.
fn returned_in<'t>(action: &'t [u8], name: &[u8]) -> Option<&'t [u8]> {
    let mut rest = action;
    for _ in 0..action.len() {
        if let Some(returned) = behind_return(rest)
            && ends_behind(returned, name)
        {
            return Some(returned);
        }
        rest = behind_piece(rest);
    }
    None
}

/// What follows a `return` at the start, and blanks, comments and an open parenthesis after it.
fn behind_return(text: &[u8]) -> Option<&[u8]> {
    if !ends_behind(text, b"return") {
        return None;
    }
    let behind = after_gap(text.strip_prefix(b"return")?, Language::Lex);
    Some(match behind.strip_prefix(b"(") {
        Some(inside) => after_gap(inside, Language::Lex),
        None => behind,
    })
}

/// Whether a text begins with a name that ends there.
fn ends_behind(text: &[u8], name: &[u8]) -> bool {
    match text.strip_prefix(name) {
        Some(behind) => !goes_on(behind),
        None => false,
    }
}

/// Whether a text continues with a byte that names may have.
fn goes_on(text: &[u8]) -> bool {
    match text.first() {
        Some(byte) => Language::Lex.continues_name(*byte),
        None => false,
    }
}

/// The suggestion for an error of both files.
fn join_advice(
    alloc: Global,
    fault: &JoinFault,
    file: &YaccFile,
    said: &[Vec<u8>],
) -> Result<Advice, OutOfMemory> {
    let mut names = names_for(alloc, fault, file)?;
    names.retain(|name| !is_said(said, name));
    match nearest(alloc, name_of(fault), &names)? {
        Some(near) => Ok(Advice::Near(Vec::from_slice(alloc, near)?)),
        None => Ok(words_for(fault)),
    }
}

/// Whether a name has an error already.
fn is_said(said: &[Vec<u8>], name: &[u8]) -> bool {
    for other in said {
        if other.as_slice() == name {
            return true;
        }
    }
    false
}

/// The names that may be meant by the name of an error.
fn names_for<'t>(
    alloc: Global,
    fault: &JoinFault,
    file: &'t YaccFile,
) -> Result<Vec<&'t [u8]>, OutOfMemory> {
    let (tokens, left_sides) = match fault {
        JoinFault::UndefinedSymbol(_) => (true, true),
        JoinFault::ReturnUndeclared(_) | JoinFault::PrecUnknown(_) => (true, false),
        JoinFault::UnknownStart(_) => (false, true),
        _ => (false, false),
    };
    let mut names = Vec::new(alloc);
    if tokens {
        push_tokens(&mut names, file)?;
    }
    if left_sides {
        push_left_sides(&mut names, file)?;
    }
    Ok(names)
}

/// Adds the left sides of the rules of a yacc file.
fn push_left_sides<'t>(names: &mut Vec<&'t [u8]>, file: &'t YaccFile) -> Result<(), OutOfMemory> {
    let mut last: Option<&RcSlice<u8>> = None;
    for rule in &file.rules {
        let shared = last.is_some_and(|left| RcSlice::ptr_eq(left, &rule.left));
        last = Some(&rule.left);
        if !shared && names.last() != Some(&rule.left.as_slice()) {
            names.push(&rule.left)?;
        }
    }
    Ok(())
}

/// Adds the names in the declarations of a yacc file.
fn push_tokens<'t>(names: &mut Vec<&'t [u8]>, file: &'t YaccFile) -> Result<(), OutOfMemory> {
    for declaration in &file.declarations {
        for symbol in &declaration.symbols {
            if let SymbolName::Name(name) = symbol {
                names.push(name)?;
            }
        }
    }
    Ok(())
}

/// The suggestion if there is no similar name.
fn words_for(fault: &JoinFault) -> Advice {
    Advice::Words(match fault {
        JoinFault::UndefinedSymbol(_) => "declare it with `%token`, or write a rule for it",
        JoinFault::TokenOnLeft(_) => "remove the declaration, or rename the rule",
        JoinFault::UnknownStart(_) => "name a nonterminal after `%start`",
        JoinFault::ReturnUndeclared(_) => "declare it in the yacc file with `%token`",
        JoinFault::PrecUnknown(_) => "declare it with `%left`, `%right` or `%nonassoc`",
        JoinFault::NoRules => "write a rule after the `%%`: `name : symbols ;`",
        JoinFault::PrecedenceTwice(_) | JoinFault::LimitPassed { .. } | JoinFault::OutOfMemory => {
            return Advice::Nothing;
        }
    })
}
