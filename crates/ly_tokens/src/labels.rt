ghost use Rattle.std.specs.Prelude.{◌≡◌, ◌≤◌, ◌++◌, ℕ, List, length, IfOk, IfSome, OnOk};
ghost use Rattle.std.specs.Bool.{OnTrue};
ghost use Rattle.ly_lexread.specs.Action.{meaning_of};
ghost use Rattle.ly_listing.specs.Labels.{label_for};
ghost use Rattle.ly_print.specs.Text.{name_of, named};
ghost use Rattle.ly_tokens.specs.Private.Labels.{AreLabelsOf, AreLiteralLabels, IsLabelOf, IsOwn};

use crate::file_lexer::count_of;
use ly_base::OutOfMemory;
use ly_lexread::{LexAction, Returned};
use ly_listing::{FIRST_BYTE, NOTHING, RuleLabel, RuleLabels, label_for};
use ly_print::{AnswerForm, Label, Terminal};
use std::alloc::Global;

/// Makes the labels of the tokens that these actions return, in a form. Returns an error if memory runs out.
pub(crate) fn rule_labels(
    alloc: Global,
    form: AnswerForm,
    actions: &[LexAction],
) -> Result<RuleLabels, OutOfMemory>
    ensures { IfOk result (λ l. AreLabelsOf form actions.now l) }
{
    let mut labels = literal_labels(alloc, form)?;
    let mut rules = Vec::with_capacity(alloc, actions.len())?;
    let mut before = None;
    for action in actions {
        let number = number_of(alloc, form, &mut labels, &action.returns, before)?;
        before = Some((&action.returns, number));
        rules.push(RuleLabel {
            number,
            begin: action.begin,
        })?;
    }
    Ok(RuleLabels { labels, rules })
}

/// Returns the number of the label for the token that an action returns. If the action before returns the same name, it
/// is that action's number. Otherwise a new label is added.
fn number_of(
    alloc: Global,
    form: AnswerForm,
    labels: &mut Vec<Label>,
    returned: &Returned,
    before: Option<(&Returned, u32)>,
) -> Result<u32, OutOfMemory>
    requires some { 256 ≤ length labels.old.items }
    requires before { IfSome before (λ b. IsLabelOf form labels.old.items b.0.now b.1) }
    ensures added { OnOk result ((more : List (List ℕ)) × (labels.new.items ≡ labels.old.items ++ more)) }
    ensures is { IfOk result (IsLabelOf form labels.new.items returned.now) }
{
    if let Some((other, number)) = before
        && is_same_token(other, returned)
    {
        return Ok(number);
    }
    Ok(match returned {
        Returned::Nothing => NOTHING,
        Returned::Token(name) => own_label(alloc, form, labels, Terminal::Token(name))?,
        Returned::Literal(byte) => own_label(alloc, form, labels, Terminal::Literal(*byte))?,
        Returned::FirstByte => FIRST_BYTE,
    })
}

/// Whether both return the token with the same name.
fn is_same_token(one: &Returned, other: &Returned) -> bool
    ensures { OnTrue result (meaning_of one.now ≡ meaning_of other.now) }
{
    match (one, other) {
        (Returned::Token(name), Returned::Token(same)) => name.as_slice() == same.as_slice(),
        _ => false,
    }
}

/// Adds the label of a terminal and returns its number.
fn own_label(
    alloc: Global,
    form: AnswerForm,
    labels: &mut Vec<Label>,
    terminal: Terminal<'_>,
) -> Result<u32, OutOfMemory>
    requires { 256 ≤ length labels.old.items }
    ensures added { OnOk result ((more : List (List ℕ)) × (labels.new.items ≡ labels.old.items ++ more)) }
    ensures is { IfOk result (IsOwn labels.new.items (label_for form (name_of (named terminal.entry)))) }
{
    let number = count_of(labels.len())?;
    labels.push(label_for(alloc, form, terminal)?)?;
    Ok(number)
}

/// The labels of the 256 literals.
fn literal_labels(alloc: Global, form: AnswerForm) -> Result<Vec<Label>, OutOfMemory>
    ensures literals { IfOk result (λ labels. AreLiteralLabels form labels.items) }
    ensures count { IfOk result (λ labels. length labels.items ≡ 256) }
{
    let mut labels = Vec::with_capacity(alloc, 256)?;
    for byte in 0..256usize {
        labels.push(label_for(alloc, form, Terminal::Literal(byte as u8))?)?;
    }
    Ok(labels)
}
