ghost use Rattle.std.specs.Prelude.{IfErr, IfOk};
ghost use Rattle.ly_emit.specs.Tables.{AreShapesWithin};
ghost use Rattle.ly_generate.specs.Accepted.{IsRefusedFor};
ghost use Rattle.ly_generate.specs.Generated.{IsSpecification};

use crate::gen_fault::GenFault;
use ly_base::Limits;
use ly_join::{Spec, join};
use ly_lexread::{LexFile, read_lex};
use ly_subset::Dfa;
use ly_tokens::subset_scanner;
use ly_yaccread::read_yacc;
use std::alloc::Global;

/// A lex file and a yacc file as one specification.
#[derive(Drop)]
pub struct Specification {
    /// The lex file.
    pub file: LexFile,
    /// The grammar, and the terminals that the scanner's rules return.
    pub spec: Spec,
    /// The scanner's DFA before minimization. Its states are sets of positions.
    pub subsets: Dfa,
}

/// Reads a lex file and a yacc file as one specification. The DFA of its scanner is within the limits too.
///
/// Its errors are those of `GenFault` that precede making a parser: `Lex`, `Yacc`, `Join`, `Positions`, `States` and
/// `OutOfMemory`.
pub fn read_specification(
    alloc: Global,
    lex: &[u8],
    yacc: &[u8],
    limits: &Limits,
) -> Result<Specification, GenFault>
    ensures says { IfOk result (λ given. IsSpecification limits.now lex.now yacc.now given.file given.spec
        given.subsets) }
    ensures shapes { IfOk result (λ given. AreShapesWithin given.spec) }
    ensures refused { IfErr result (IsRefusedFor limits.now lex.now yacc.now) }
{
    let file = read_lex(alloc, lex, limits)?;
    let yacc = read_yacc(alloc, yacc)?;
    let joined = join(alloc, &file, &yacc, limits);
    drop(yacc);
    let spec = joined?;
    let subsets = subset_scanner(alloc, &file, limits)?;
    Ok(Specification {
        file,
        spec,
        subsets,
    })
}
