ghost use Rattle.std.specs.Prelude.{◌≡◌, ◌≤◌, ℕ, length, map, IfOk};
ghost use Rattle.ly_feed.specs.NameMembers.{names_in, node_member, token_member, vocabulary_in};
ghost use Rattle.ly_pack.specs.Values.{rule_from};

use crate::label_form::LabelForm;
use crate::labels::Labels;
use crate::names::Names;
use ly_base::{OutOfMemory, RuleNo, Sym};
use ly_pack::TableRule;
use ly_print::Label;
use ly_tables::TableSet;
use std::alloc::Global;
use std::marker::Model;

/// The first members of JSON objects for leaves and nodes, which contain their names, each made once.
#[derive(Drop)]
pub struct NameLabels<'a> {
    /// The names.
    names: Names<'a>,
    /// Their labels.
    labels: Labels,
}

impl<'a> Model for NameLabels<'a> {
    ghost use Rattle.std.specs.Prelude.{map};
    ghost use Rattle.ly_feed.specs.NameMembers.{Named};
    ghost use Rattle.ly_feed.specs.Private.Labels.{AreLabels};
    ghost use Rattle.ly_feed.specs.declared.label_form.LabelForm.TheVariants.{Name};
    ghost use Rattle.ly_pack.specs.Values.{rule_from};

    ghost Value = { Named };

    ghost view = { λ l. record {
      terminals = map (λ name. name.items) l.names.terminals.now;
      rules = map rule_from l.names.rules.now;
    } };

    ghost invariant = { λ l. AreLabels Name l.names l.labels };
}

impl<'a> NameLabels<'a> {
    /// Those of a table set's names. It fails if an allocation fails.
    pub fn of(alloc: Global, set: &'a TableSet) -> Result<NameLabels<'a>, OutOfMemory>
        ensures { IfOk result (λ labels. labels ≡ names_in set.now) }
    {
        NameLabels::new(alloc, set.terminals(), set.rules())
    }

    /// Those of the names of terminals, and of the constructors of rules, the first of which is rule 1. It fails if an
    /// allocation fails.
    pub fn new(
        alloc: Global,
        terminals: &'a [Vec<u8>],
        rules: &'a [TableRule],
    ) -> Result<NameLabels<'a>, OutOfMemory>
        ensures { IfOk result (λ labels. labels ≡ record {
          terminals = map (λ name. name.items) terminals.now;
          rules = map rule_from rules.now;
        }) }
    {
        let names = Names { terminals, rules };
        Ok(NameLabels {
            names,
            labels: Labels::new(alloc, names, LabelForm::Name)?,
        })
    }

    /// The one of a terminal's leaves.
    pub fn leaf(&self, terminal: Sym) -> &Label
        ensures { result.now ≡ token_member ((vocabulary_in self.now).terminal terminal.0) }
    {
        self.labels.leaf(terminal)
    }

    /// The one of a rule's nodes.
    pub fn node(&self, rule: RuleNo) -> &Label
        ensures { result.now ≡ node_member ((vocabulary_in self.now).constructor rule.0) }
    {
        self.labels.node(rule)
    }

    /// A length that no label exceeds.
    pub fn longest(&self) -> usize
        ensures leaves { (t : ℕ) → length (token_member ((vocabulary_in self.now).terminal t)) ≤ result }
        ensures nodes { (p : ℕ) → length (node_member ((vocabulary_in self.now).constructor p)) ≤ result }
    {
        self.labels.longest()
    }
}
