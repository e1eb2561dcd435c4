ghost use Rattle.std.specs.Prelude.{◌≡◌, ◌≤◌, ◌++◌, ℕ, length, map, All, IfOk};
ghost use Rattle.std.proofs.Props.{props};
ghost use Rattle.ly_base.specs.Shape.{shape_of};
ghost use Rattle.ly_feed.specs.Private.Labels.{constructors_of, leaf_label, node_label, AreLabels};
ghost use Rattle.ly_feed.specs.Vocabularies.{constructor_in, constructor_of, name_in};
ghost use Rattle.ly_feed.specs.declared.label_form.LabelForm as form;
ghost use Rattle.ly_feed.specs.declared.label_form.LabelForm.TheVariants.{Json, Plain};
ghost use Rattle.ly_feed.specs.declared.names.Names as names;
ghost use Rattle.ly_pack.specs.Values.{rule_from};
ghost use Rattle.ly_print.specs.Json.{json_name};
ghost use Rattle.ly_tree.specs.Json.{as_json};

use crate::label_form::LabelForm;
use crate::names::Names;
use ly_base::{OutOfMemory, RuleNo, RuleTree, Sym};
use ly_pack::TableRule;
use ly_print::{Front, Label, Sink, Terminal, TextWriter, WriteFault, push_json_name};
use ly_tree::{MostBytes, TermNotation, Words};
use std::alloc::Global;

/// The text before those of leaves and the children of nodes, in some form.
#[derive(Drop)]
pub(crate) struct Labels {
    /// The label of each terminal's leaves.
    leaves: Vec<Label>,
    /// The label of each rule's nodes. That of rule 0, which has no constructor, comes first.
    nodes: Vec<Label>,
    /// The label of leaves whose terminal has no name.
    nameless_leaf: Label,
    /// The label of nodes whose rule has no constructor.
    nameless_node: Label,
}

impl Labels {
    /// The labels for these names. It fails if an allocation fails.
    pub(crate) fn new(
        alloc: Global,
        names: Names<'_>,
        form: LabelForm,
    ) -> Result<Labels, OutOfMemory>
        ensures { IfOk result (AreLabels form names.entry) }
    {
        Ok(Labels {
            leaves: leaf_labels(alloc, names.terminals, form)?,
            nodes: node_labels(alloc, names.rules, form)?,
            nameless_leaf: leaf_label(alloc, b"", form)?,
            nameless_node: node_label(alloc, b"", form)?,
        })
    }

    /// The label of a terminal's leaves.
    pub(crate) fn leaf(&self, terminal: Sym) -> &Label
        ensures { (form : form.LabelForm) (names : names.Names) → AreLabels form names self.now
            → result.now ≡ leaf_label form (name_in (map (λ name. name.items) names.terminals.now) terminal.0) }
    {
        match self.leaves.get(terminal.0 as usize) {
            Some(label) => label,
            None => &self.nameless_leaf,
        }
    }

    /// The label of a rule's nodes.
    pub(crate) fn node(&self, rule: RuleNo) -> &Label
        ensures { (form : form.LabelForm) (names : names.Names) → AreLabels form names self.now
            → result.now ≡ node_label form (constructor_in (map rule_from names.rules.now) rule.0) }
    {
        match self.nodes.get(rule.0 as usize) {
            Some(label) => label,
            None => &self.nameless_node,
        }
    }

    /// A length that no label exceeds.
    pub(crate) fn longest(&self) -> usize
        ensures leaves { (form : form.LabelForm) (names : names.Names) → AreLabels form names self.now → (t : ℕ)
            → length (leaf_label form (name_in (map (λ name. name.items) names.terminals.now) t)) ≤ result }
        ensures nodes { (form : form.LabelForm) (names : names.Names) → AreLabels form names self.now → (p : ℕ)
            → length (node_label form (constructor_in (map rule_from names.rules.now) p)) ≤ result }
    {
        let named = longest_of(&self.leaves).max(longest_of(&self.nodes));
        named
            .max(self.nameless_leaf.len())
            .max(self.nameless_node.len())
    }
}

/// The text before those of leaves and the children of nodes in plain text, made once from the names of a table set.
#[derive(Drop)]
pub(crate) struct TermLabels<'a> {
    /// The names.
    names: Names<'a>,
    /// Their labels.
    labels: Labels,
    ghost labels_are: { AreLabels Plain names labels } by { Prim.hlevel props },
}

impl<'a> TermLabels<'a> {
    /// The labels for these names. It fails if an allocation fails.
    pub(crate) fn new(alloc: Global, names: Names<'a>) -> Result<TermLabels<'a>, OutOfMemory>
        ensures { IfOk result (λ labels. labels.names ≡ names.entry) }
    {
        Ok(TermLabels {
            names,
            labels: Labels::new(alloc, names, LabelForm::Plain)?,
        })
    }
}

impl Words for TermLabels<'_> {
    ghost terminals = { λ w t. name_in (map (λ name. name.items) w.names.terminals.now) t };

    ghost constructors = { λ w p. constructor_in (map rule_from w.names.rules.now) p };

    fn leaf_label(&self, terminal: Sym) -> &Label {
        self.labels.leaf(terminal)
    }

    fn node_label(&self, rule: RuleNo) -> &Label {
        self.labels.node(rule)
    }

    fn longest(&self) -> usize {
        self.labels.longest()
    }
}

/// The text before the contents of leaves and the children of nodes in JSON, made once from the names of a table set.
#[derive(Drop)]
pub(crate) struct JsonLabels<'a> {
    /// The names.
    names: Names<'a>,
    /// Their labels.
    labels: Labels,
    ghost labels_are: { AreLabels Json names labels } by { Prim.hlevel props },
}

impl<'a> JsonLabels<'a> {
    /// The labels for these names. It fails if an allocation fails.
    pub(crate) fn new(alloc: Global, names: Names<'a>) -> Result<JsonLabels<'a>, OutOfMemory>
        ensures { IfOk result (λ labels. labels.names ≡ names.entry) }
    {
        Ok(JsonLabels {
            names,
            labels: Labels::new(alloc, names, LabelForm::Json)?,
        })
    }
}

impl TermNotation for JsonLabels<'_> {
    ghost form = { λ l. as_json (record {
      terminal = name_in (map (λ name. name.items) l.names.terminals.now);
      constructor = constructor_in (map rule_from l.names.rules.now);
    }) };

    fn no_term(&self) -> &[u8] {
        b"null"
    }

    fn opens(&self, rule: RuleNo) -> &Label {
        self.labels.node(rule)
    }

    fn push_leaf<S: Sink>(
        &self,
        out: &mut TextWriter,
        writer: &mut S,
        terminal: Sym,
        text: &Front<'_>,
    ) -> Result<(), WriteFault> {
        out.push_json_leaf(writer, self.labels.leaf(terminal), text)
    }

    fn push_closes<S: Sink>(&self, out: &mut TextWriter, writer: &mut S) -> Result<(), WriteFault> {
        out.push_bytes(writer, b"]}")
    }

    fn most(&self) -> Option<MostBytes> {
        // an escape has six bytes; `"bytes":[` and its closing have twelve, with a comma
        Some(MostBytes {
            of_term: self.labels.longest().checked_add(12)?,
            of_byte: 6,
        })
    }
}

/// The label of each terminal's leaves. It fails if an allocation fails.
fn leaf_labels(alloc: Global, names: &[Vec<u8>], form: LabelForm) -> Result<Vec<Label>, OutOfMemory>
    ensures { IfOk result (λ labels. labels.items ≡ map (leaf_label form) (map (λ name. name.items) names.now)) }
{
    let mut labels = Vec::with_capacity(alloc, names.len())?;
    for name in names {
        labels.push(leaf_label(alloc, name, form)?)?;
    }
    Ok(labels)
}

/// The label of each rule's nodes, including rule 0. It fails if an allocation fails.
fn node_labels(
    alloc: Global,
    rules: &[TableRule],
    form: LabelForm,
) -> Result<Vec<Label>, OutOfMemory>
    ensures { IfOk result (λ labels. labels.items ≡ map (node_label form) (constructors_of (map rule_from rules.now))) }
{
    let mut labels = vec![in alloc; node_label(alloc, b"", form)?]?;
    for rule in rules {
        labels.push(node_label(alloc, constructor_of(rule), form)?)?;
    }
    Ok(labels)
}

/// The label of a terminal's leaves, with its name. It fails if an allocation fails.
fn leaf_label(alloc: Global, name: &[u8], form: LabelForm) -> Result<Label, OutOfMemory>
    ensures { IfOk result (λ label. label ≡ leaf_label form name.now) }
{
    match form {
        LabelForm::Plain => Ok(Label::before_leaf(alloc, Terminal::Token(name))?),
        LabelForm::Json => json_label(alloc, b"{\"token\":", name, b","),
        LabelForm::Name => json_label(alloc, b"{\"token\":", name, b""),
    }
}

/// The label of a constructor's nodes. It fails if an allocation fails.
fn node_label(alloc: Global, constructor: &[u8], form: LabelForm) -> Result<Label, OutOfMemory>
    ensures { IfOk result (λ label. label ≡ node_label form constructor.now) }
{
    match form {
        LabelForm::Plain => {
            let mut text = Vec::new(alloc);
            text.extend_from_slice(constructor)?;
            text.push(b'(')?;
            Ok(Label::new(text)?)
        }
        LabelForm::Json => json_label(alloc, b"{\"node\":", constructor, b",\"children\":["),
        LabelForm::Name => json_label(alloc, b"{\"node\":", constructor, b""),
    }
}

/// The label of a name between these two texts. It fails if an allocation fails.
fn json_label(
    alloc: Global,
    before: &[u8],
    name: &[u8],
    behind: &[u8],
) -> Result<Label, OutOfMemory>
    ensures { IfOk result (λ label. label ≡ before.now ++ (json_name name.now ++ behind.now)) }
{
    let mut text = Vec::new(alloc);
    text.extend_from_slice(before)?;
    push_json_name(&mut text, name)?;
    text.extend_from_slice(behind)?;
    Ok(Label::new(text)?)
}

/// The constructor of a rule; empty if it makes no node.
fn constructor_of(rule: &TableRule) -> &[u8]
    ensures { result.now ≡ constructor_of (shape_of rule.now.tree) }
{
    match &rule.tree {
        RuleTree::Build { name, .. } => name,
        RuleTree::Nil | RuleTree::Pass(_) => b"",
    }
}

/// The length of the longest of these labels.
fn longest_of(labels: &[Label]) -> usize
    ensures { All (λ label. length label ≤ result) labels.now }
{
    let mut longest = 0;
    for label in labels {
        longest = longest.max(label.len());
    }
    longest
}
