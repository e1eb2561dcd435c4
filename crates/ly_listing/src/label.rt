ghost use Rattle.std.specs.Prelude.{◌≡◌, IfOk};
ghost use Rattle.ly_listing.specs.Labels.{label_for};
ghost use Rattle.ly_print.specs.Text.{name_of, named};

use ly_base::OutOfMemory;
use ly_print::{AnswerForm, Label, Terminal, push_json_name, push_name};
use std::alloc::Global;

/// Makes the label of a terminal's tokens: what their lines begin with in a form. It is `NUM"`, or
/// `{"token":"NUM","start":`. Fails if memory runs out.
pub fn label_for(
    alloc: Global,
    form: AnswerForm,
    terminal: Terminal<'_>,
) -> Result<Label, OutOfMemory>
    ensures { IfOk result (λ l. l ≡ label_for form (name_of (named terminal.entry))) }
{
    match form {
        AnswerForm::Plain => Ok(Label::before_leaf(alloc, terminal)?),
        AnswerForm::Json => json_label(alloc, terminal),
    }
}

/// Makes the label of a terminal's tokens in JSON.
fn json_label(alloc: Global, terminal: Terminal<'_>) -> Result<Label, OutOfMemory>
    ensures { IfOk result (λ l. l ≡ label_for AnswerForm.Json (name_of (named terminal.entry))) }
{
    let mut name = Vec::new(alloc);
    push_name(&mut name, terminal)?;
    let mut text = Vec::new(alloc);
    text.extend_from_slice(b"{\"token\":")?;
    push_json_name(&mut text, &name)?;
    text.extend_from_slice(b",\"start\":")?;
    Ok(Label::new(text)?)
}
