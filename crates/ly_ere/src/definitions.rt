ghost use Rattle.std.specs.Prelude.{◌≡◌, ◌≢◌, ◌<◌, ◌≤◌, ◌⊎◌, ℕ, List, [], ◌∷◌, ◌++◌};
ghost use Rattle.std.specs.Prelude.{drop, length, take, Contains, None, Some};
ghost use Rattle.std.specs.Prelude.{IfErr, IfOk, OnOk};
ghost use Rattle.std.specs.Option.{ForSome};
ghost use Rattle.ly_ere.specs.Definitions.{AreDistinct, AreLightNames, AreNames, AreRefused, DefinedText, named_texts};
ghost use Rattle.ly_ere.specs.Elements.{AreElements, Element};
ghost use Rattle.ly_ere.specs.Faults.{IsAtMost, ere_kind};
ghost use Rattle.ly_ere.specs.Names.{Definition};
ghost use Rattle.ly_ere.specs.Patterns.{IsBehind, IsExpression};
ghost use Rattle.ly_ere.specs.Private.Definitions.{AreRead, text_uses};
ghost use Rattle.ly_ere.specs.Private.Faults.{IsReadIn};
ghost use Rattle.ly_ere.specs.Definitions.{IsNoText, known_names};
ghost use Rattle.ly_ere.specs.Private.Turns.{AreInTurn};
ghost use Rattle.ly_ere.specs.declared.fault.EreFault.TheVariants.{OutOfMemory, Refused};
ghost use Rattle.ly_ere.specs.declared.fault.EreFaultKind.TheVariants.{NameCycle, TooHeavy};
ghost use Rattle.ly_ere.specs.declared.fault.ReadFault.TheVariants as read;

use crate::element::next_element;
use crate::fault::{EreFault, EreFaultKind, ReadFault, SyntaxFault, SyntaxKind};
use crate::names::Names;
use crate::re::Re;
use crate::read::{is_behind, read_expression};
use crate::turns::in_turn;
use crate::uses::{renumber, uses};
use ly_base::Limits;
use std::alloc::{AllocError, Global};

/// A definition of a lex file.
#[derive(Clone, Copy)]
pub struct NamedText<'t> {
    /// The name.
    pub name: &'t [u8],
    /// The text of its expression.
    pub text: &'t [u8],
}

/// Reads definitions, which may use one another in any order. They are sorted so that each follows those that it uses:
/// the next one is always the first in the file whose names are all defined by then.
///
/// An error comes with the index of the definition in the list; `OutOfMemory` comes with any index. The error is that
/// of the first definition whose text is no expression or that leads into a cycle of names (`NameCycle`). If there is
/// none, it is that of the first one, in the sorted order, whose weight is above the limit (`TooHeavy`).
pub fn read_names(
    alloc: Global,
    list: &[NamedText<'_>],
    limits: &Limits,
) -> Result<Names, (usize, EreFault)>
    requires distinct { AreDistinct (named_texts list.now) }
    ensures ok { IfOk result (AreNames (named_texts list.now)) }
    ensures light { IfOk result (AreLightNames limits.now.pattern_weight) }
    ensures refused { IfErr result (λ f. AreRefused limits.now.pattern_weight (named_texts list.now) f.0 f.1) }
{
    match read_and_place(alloc, list, limits) {
        Ok(names) => Ok(names),
        Err(refusal) => Err((refusal.place, refusal.fault)),
    }
}

/// Why definitions are rejected.
#[derive(Clone, Copy)]
pub(crate) struct Refusal {
    /// The index of the erroneous definition in the list, or 0 if memory ran out.
    place: usize,
    /// The error of that definition.
    fault: EreFault,
}

impl From<AllocError> for Refusal {
    ghost from_gives = { λ _ r. r ≡ record { place = 0; fault = OutOfMemory } };

    fn from(_error: AllocError) -> Refusal {
        Refusal {
            place: 0,
            fault: EreFault::OutOfMemory,
        }
    }
}

/// Reads the texts and sorts them.
fn read_and_place(alloc: Global, list: &[NamedText<'_>], limits: &Limits) -> Result<Names, Refusal>
    requires distinct { AreDistinct (named_texts list.now) }
    ensures ok { IfOk result (AreNames (named_texts list.now)) }
    ensures light { IfOk result (AreLightNames limits.now.pattern_weight) }
    ensures refused { IfErr result (λ r. AreRefused limits.now.pattern_weight (named_texts list.now) r.place r.fault) }
{
    let texts = read_texts(alloc, list)?;
    let turns = in_turn(alloc, &texts.uses)?;
    if let Some(refusal) = first_refusal(texts.refusal, turns.left) {
        return Err(refusal);
    }
    place(alloc, list, &texts, &turns.order, limits)
}

/// The error of whichever comes first in the list: the first text that is no expression, or the first that leads into a
/// cycle.
fn first_refusal(text: Option<Refusal>, cyclic: Option<usize>) -> Option<Refusal>
    ensures none { result ≡ None → (text ≡ None) × (cyclic ≡ None) }
    ensures some { ForSome result (λ r. (text ≡ Some r) ⊎ ((cyclic ≡ Some r.place) × (r.fault ≡ Refused NameCycle 0))) }
{
    let cycle = match cyclic {
        Some(place) => Refusal {
            place,
            fault: EreFault::Refused {
                kind: EreFaultKind::NameCycle,
                offset: 0,
            },
        },
        None => return text,
    };
    match text {
        Some(refusal) if refusal.place < cycle.place => Some(refusal),
        _ => Some(cycle),
    }
}

/// Texts that have been read. Names are numbered by their index in the list.
#[derive(Drop)]
pub(crate) struct DefinitionTexts {
    /// The expressions of the texts that are valid.
    expressions: Vec<Re>,
    /// For each text the names that it uses; empty if it is no expression.
    uses: Vec<Vec<usize>>,
    /// The error of the first text that is no expression.
    refusal: Option<Refusal>,
}

/// Reads the texts. All names of the list are known in each.
fn read_texts(alloc: Global, list: &[NamedText<'_>]) -> Result<DefinitionTexts, AllocError>
    requires distinct { AreDistinct (named_texts list.now) }
    ensures { IfOk result (AreRead (known_names (named_texts list.now)) (named_texts list.now)) }
{
    let known = all_known(alloc, list)?;
    read_each(alloc, list, &known)
}

/// Reads the texts under names.
fn read_each(
    alloc: Global,
    list: &[NamedText<'_>],
    known: &Names,
) -> Result<DefinitionTexts, AllocError>
    ensures { IfOk result (AreRead known.now (named_texts list.now)) }
{
    let mut texts = DefinitionTexts {
        expressions: Vec::new(alloc),
        uses: Vec::new(alloc),
        refusal: None,
    };
    for definition in list {
        texts.read_one(alloc, definition.text, known)?;
    }
    Ok(texts)
}

impl DefinitionTexts {
    /// Reads the next text.
    fn read_one(&mut self, alloc: Global, text: &[u8], known: &Names) -> Result<(), AllocError>
        ensures { (list : List DefinedText) (d : DefinedText) → AreRead known.now list self.old → d.text ≡ text.now
            → OnOk result (AreRead known.now (list ++ d ∷ []) self.new) }
    {
        match read_text(alloc, text, known) {
            Ok(re) => self.push(alloc, re),
            Err(ReadFault::Syntax(fault)) => self.push_fault(alloc, fault.in_text(text)),
            Err(ReadFault::OutOfMemory) => Err(AllocError),
        }
    }

    /// Adds a text that is an expression.
    fn push(&mut self, alloc: Global, re: Re) -> Result<(), AllocError>
        ensures { (known : List Definition) (list : List DefinedText) (d : DefinedText) → AreRead known list self.old
            → IsExpression known d.text re → OnOk result (AreRead known (list ++ d ∷ []) self.new) }
    {
        let uses = uses(alloc, &re)?;
        self.uses.push(uses)?;
        self.expressions.push(re)?;
        Ok(())
    }

    /// Adds a text that is no expression, with its error.
    fn push_fault(&mut self, alloc: Global, fault: EreFault) -> Result<(), AllocError>
        requires memory { fault ≢ OutOfMemory }
        requires weight { ere_kind fault ≢ Some TooHeavy }
        requires cycle { ere_kind fault ≢ Some NameCycle }
        ensures { (known : List Definition) (list : List DefinedText) (d : DefinedText) → AreRead known list self.old
            → IsNoText known d.text → IsAtMost (length d.text) fault
            → OnOk result (AreRead known (list ++ d ∷ []) self.new) }
    {
        let place = self.uses.len();
        self.uses.push(Vec::new(alloc))?;
        if self.refusal.is_none() {
            self.refusal = Some(Refusal { place, fault });
        }
        Ok(())
    }
}

/// The names, each defined as some byte. With these a text is an expression exactly if it is one with any definitions
/// of all its names.
fn all_known(alloc: Global, list: &[NamedText<'_>]) -> Result<Names, AllocError>
    requires distinct { AreDistinct (named_texts list.now) }
    ensures { IfOk result (λ names. names ≡ known_names (named_texts list.now)) }
{
    let mut known = Names::new(alloc);
    for definition in list {
        let byte = Re::of_byte(alloc, 0)?;
        known = known.with_weighed(alloc, definition.name, byte, 1)?;
    }
    Ok(known)
}

/// Reads the text of an expression.
fn read_text(alloc: Global, text: &[u8], names: &Names) -> Result<Re, ReadFault>
    ensures ok { IfOk result (IsExpression names.now text.now) }
    ensures refused { IfErr result (λ e. e ≢ read.OutOfMemory → IsNoText names.now text.now) }
    ensures at { IfErr result (IsReadIn text.now) }
{
    let (re, length) = read_expression(alloc, text, names)?;
    let rest = &text[length..];
    match rest.first() {
        None => Ok(re),
        Some(b'$') => Err(ReadFault::Syntax(SyntaxFault::at(SyntaxKind::AnchorInside, rest))),
        Some(_) => Err(ReadFault::Syntax(SyntaxFault::at(SyntaxKind::StrayOperator, rest))),
    }
}

/// Adds the definitions of these texts in this order.
fn place(
    alloc: Global,
    list: &[NamedText<'_>],
    texts: &DefinitionTexts,
    order: &[usize],
    limits: &Limits,
) -> Result<Names, Refusal>
    requires distinct { AreDistinct (named_texts list.now) }
    requires read { AreRead (known_names (named_texts list.now)) (named_texts list.now) texts.now }
    requires whole { texts.now.refusal ≡ None }
    requires in_turn { AreInTurn (text_uses texts.now) order.now }
    requires all { (n : ℕ) → n < length list.now → Contains order.now n }
    ensures ok { IfOk result (AreNames (named_texts list.now)) }
    ensures light { IfOk result (AreLightNames limits.now.pattern_weight) }
    ensures refused { IfErr result (λ r. AreRefused limits.now.pattern_weight (named_texts list.now) r.place r.fault) }
{
    let mut names = Names::new(alloc);
    let mut numbers = vec![in alloc; 0; list.len()]?;
    for (number, place) in order.iter().enumerate() {
        let expression = renumber(alloc, &texts.expressions[*place], &numbers)?;
        let definition = &list[*place];
        names = match names.with_definition(alloc, definition.name, expression, limits) {
            Ok(names) => names,
            Err(fault) => {
                return Err(Refusal {
                    place: *place,
                    fault,
                });
            }
        };
        numbers[*place] = number;
    }
    Ok(names)
}

/// The number of bytes of the elements at the start of a line. They end at the end of the line or at the first blank
/// outside strings, bracket expressions and escapes. If something before that is no element, returns the length of the
/// line.
pub fn expression_length(line: &[u8]) -> usize
    ensures within { result ≤ length line.now }
    ensures only { (n : ℕ) (ws : List Element) → n ≤ length line.now → AreElements (take n line.now) ws
        → IsBehind (drop n line.now) → n ≡ result }
{
    let mut at = 0;
    while !is_behind(&line[at..]) {
        match next_element(&line[at..]) {
            Ok((_, length)) => at += length,
            Err(_) => return line.len(),
        }
    }
    at
}
