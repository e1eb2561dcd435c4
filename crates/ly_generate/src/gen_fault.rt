ghost use Rattle.std.specs.Prelude.{◌≡◌};
ghost use Rattle.ly_generate.specs.GenFault.{gen_of_scanner, Becomes};
ghost use Rattle.ly_generate.specs.declared.gen_fault.GenFault.TheVariants as fault;
ghost use Rattle.ly_grammar.specs.declared.fault.GrammarFault.TheVariants as grammar;
ghost use Rattle.ly_join.specs.declared.fault.JoinFault.TheVariants as join;
ghost use Rattle.ly_lexread.specs.declared.fault.LexFault.TheVariants as lex;
ghost use Rattle.ly_lr0.specs.declared.fault.Lr0Fault.TheVariants as automaton;
ghost use Rattle.ly_yaccread.specs.declared.fault.YaccFault.TheVariants as yacc;

use ly_base::{OutOfMemory as NoMemory, StateNo, Sym, locate};
use ly_grammar::GrammarFault;
use ly_join::JoinFault;
use ly_lexread::LexFault;
use ly_lr0::Lr0Fault;
use ly_position::PosFault;
use ly_subset::SubsetFault;
use ly_tokens::ScannerFault;
use ly_yaccread::YaccFault;
use std::alloc::AllocError;
use thiserror::Error;

/// Why a lex file and a yacc file are rejected.
#[derive(Debug, Drop, Error)]
pub enum GenFault {
    /// The lex file is rejected.
    #[error("lex file, {0}")]
    Lex(LexFault),
    /// The yacc file is rejected.
    #[error("yacc file, {0}")]
    Yacc(YaccFault),
    /// The two files don't fit together.
    #[error("{0}")]
    Join(JoinFault),
    /// The patterns together exceed the weight limit.
    #[error("{0}")]
    Positions(PosFault),
    /// The scanner's DFA has too many states before minimization.
    #[error("{0}")]
    States(SubsetFault),
    /// The start symbol derives no text.
    #[error("{0}")]
    Grammar(GrammarFault),
    /// The parser has too many states.
    #[error("{0}")]
    Automaton(Lr0Fault),
    /// A run of the parser's tables makes too many reductions before a token is shifted. This is the first such run.
    #[error("the parser may reduce without end")]
    Endless {
        /// The state below the top of the stack.
        below: StateNo,
        /// The state on top of the stack.
        top: StateNo,
        /// The terminal of the token.
        token: Sym,
        /// The printed name of the terminal.
        name: Vec<u8>,
    },
    /// Out of memory.
    #[error("out of memory")]
    OutOfMemory,
}

impl GenFault {
    ghost use Rattle.ly_generate.specs.GenFault.{gen_name, gen_number};

    /// The number that is printed for the error; `None` for out of memory.
    pub fn number(&self) -> Option<u8>
        ensures { result ≡ gen_number self.now }
    {
        match self {
            GenFault::Lex(fault) => fault.number(),
            GenFault::Yacc(fault) => fault.number(),
            GenFault::Join(fault) => fault.number(),
            GenFault::Positions(fault) => fault.number(),
            GenFault::States(fault) => fault.number(),
            GenFault::Grammar(fault) => fault.number(),
            GenFault::Automaton(fault) => fault.number(),
            GenFault::Endless { .. } => Some(70),
            GenFault::OutOfMemory => None,
        }
    }

    /// The name that is printed for the error.
    pub fn name(&self) -> &'static str
        ensures { result.now ≡ gen_name self.now }
    {
        match self {
            GenFault::Lex(fault) => fault.name(),
            GenFault::Yacc(fault) => fault.name(),
            GenFault::Join(fault) => fault.name(),
            GenFault::Positions(fault) => fault.name(),
            GenFault::States(fault) => fault.name(),
            GenFault::Grammar(fault) => fault.name(),
            GenFault::Automaton(fault) => fault.name(),
            GenFault::Endless { .. } => "Endless",
            GenFault::OutOfMemory => "OutOfMemory",
        }
    }
}

impl GenFault {
    ghost use Rattle.ly_generate.specs.GenFault.{gen_line};

    /// The line of the error, if one of the files with these bytes is rejected. The first line is 1.
    pub fn line(&self, lex: &[u8], yacc: &[u8]) -> Option<u64>
        ensures { result ≡ gen_line self.now lex.now yacc.now }
    {
        match self {
            GenFault::Lex(LexFault::Refused { offset, .. }) => Some(locate(lex, *offset).line),
            GenFault::Yacc(YaccFault::Refused { offset, .. }) => Some(locate(yacc, *offset).line),
            _ => None,
        }
    }
}

impl From<AllocError> for GenFault {
    ghost from_gives = { λ _ e. e ≡ fault.OutOfMemory };

    fn from(_error: AllocError) -> GenFault {
        GenFault::OutOfMemory
    }
}

impl From<NoMemory> for GenFault {
    ghost from_gives = { λ _ e. e ≡ fault.OutOfMemory };

    fn from(_error: NoMemory) -> GenFault {
        GenFault::OutOfMemory
    }
}

impl From<LexFault> for GenFault {
    ghost from_gives = { λ f e. Becomes lex.OutOfMemory fault.Lex f e };

    fn from(fault: LexFault) -> GenFault {
        match fault {
            LexFault::OutOfMemory => GenFault::OutOfMemory,
            fault => GenFault::Lex(fault),
        }
    }
}

impl From<YaccFault> for GenFault {
    ghost from_gives = { λ f e. Becomes yacc.OutOfMemory fault.Yacc f e };

    fn from(fault: YaccFault) -> GenFault {
        match fault {
            YaccFault::OutOfMemory => GenFault::OutOfMemory,
            fault => GenFault::Yacc(fault),
        }
    }
}

impl From<JoinFault> for GenFault {
    ghost from_gives = { λ f e. Becomes join.OutOfMemory fault.Join f e };

    fn from(fault: JoinFault) -> GenFault {
        match fault {
            JoinFault::OutOfMemory => GenFault::OutOfMemory,
            fault => GenFault::Join(fault),
        }
    }
}

impl From<ScannerFault> for GenFault {
    ghost from_gives = { λ f e. e ≡ gen_of_scanner f };

    fn from(fault: ScannerFault) -> GenFault {
        match fault {
            ScannerFault::Positions(fault) => GenFault::Positions(fault),
            ScannerFault::States(fault) => GenFault::States(fault),
            ScannerFault::OutOfMemory => GenFault::OutOfMemory,
        }
    }
}

impl From<GrammarFault> for GenFault {
    ghost from_gives = { λ f e. Becomes grammar.OutOfMemory fault.Grammar f e };

    fn from(fault: GrammarFault) -> GenFault {
        match fault {
            GrammarFault::OutOfMemory => GenFault::OutOfMemory,
            fault => GenFault::Grammar(fault),
        }
    }
}

impl From<Lr0Fault> for GenFault {
    ghost from_gives = { λ f e. Becomes automaton.OutOfMemory fault.Automaton f e };

    fn from(fault: Lr0Fault) -> GenFault {
        match fault {
            Lr0Fault::OutOfMemory => GenFault::OutOfMemory,
            fault => GenFault::Automaton(fault),
        }
    }
}
