ghost use Rattle.std.specs.Prelude.{◌≡◌, ℕ, List, [], ◌∷◌, ◌++◌, IfOk, OnOk};
ghost use Rattle.ly_feed.specs.Vocabularies.{constructor_of};
ghost use Rattle.ly_pack.specs.Values.{rule_from};
ghost use Rattle.lytab_c.specs.Naming.{names_of};
ghost use Rattle.lytab_c.specs.Private.Listing.{IsListOf};

use ly_base::{OutOfMemory, RuleTree};
use ly_pack::TableRule;
use ly_tables::TableSet;
use std::alloc::{AllocError, Global};

/// Names one after another, and where each ends.
#[derive(Drop)]
pub struct NameList {
    /// The bytes of all of them.
    pub(crate) bytes: Vec<u8>,
    /// The offset in `bytes` at which each name ends.
    pub(crate) ends: Vec<u64>,
}

impl NameList {
    /// The names of a set: those of its terminals, then the constructors of its rules. Returns an error if memory runs
    /// out.
    pub(crate) fn of(alloc: Global, set: &TableSet) -> Result<NameList, OutOfMemory>
        ensures { IfOk result (IsListOf (names_of set.now)) }
    {
        let mut list = NameList::new(alloc);
        for name in set.terminals() {
            list.push(name)?;
        }
        for rule in set.rules() {
            list.push(constructor_of(rule))?;
        }
        Ok(list)
    }

    /// No names.
    fn new(alloc: Global) -> NameList
        ensures { IsListOf [] result }
    {
        NameList {
            bytes: Vec::new(alloc),
            ends: Vec::new(alloc),
        }
    }

    /// Appends a name. Returns an error if memory runs out.
    fn push(&mut self, name: &[u8]) -> Result<(), AllocError>
        ensures { (names : List (List ℕ)) → IsListOf names self.old
            → OnOk result (IsListOf (names ++ name.now ∷ []) self.new) }
    {
        self.bytes.extend_from_slice(name)?;
        self.ends.push(self.bytes.len() as u64)?;
        Ok(())
    }
}

/// The constructor of a rule; empty if the rule makes no node.
fn constructor_of(rule: &TableRule) -> &[u8]
    ensures { result.now ≡ constructor_of (rule_from rule.now).shape }
{
    match &rule.tree {
        RuleTree::Nil | RuleTree::Pass(_) => b"",
        RuleTree::Build { name, .. } => name,
    }
}
