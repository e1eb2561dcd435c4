ghost use Rattle.std.specs.Prelude.{◌≡◌, ◌≢◌, ◌<◌, ◌≤◌, [], ◌∷◌, ◌++◌, None, Some, length, IfOk, IfErr, IsOk};
ghost use Rattle.ly_ere.specs.Faults.{IsAtMost, ere_kind};
ghost use Rattle.ly_ere.specs.Lengths.{AreNamedLengths, IsSound};
ghost use Rattle.ly_ere.specs.Names.{defined, number_of};
ghost use Rattle.ly_ere.specs.Weight.{AreWeights, weight_of};
ghost use Rattle.ly_ere.specs.declared.fault.EreFault.TheVariants.{OutOfMemory};
ghost use Rattle.ly_ere.specs.declared.fault.EreFaultKind.TheVariants.{TooHeavy};

use crate::fault::{EreFault, EreFaultKind};
use crate::length::{Lengths, lengths_of};
use crate::re::Re;
use crate::weight::weigh;
use ly_base::Limits;
use std::alloc::{AllocError, Global};
use std::collections::HashMap;
use std::marker::Model;

/// The definitions of a lex file: names with their expressions. Each uses earlier ones only.
#[derive(Drop)]
pub struct Names {
    /// The names.
    names: Vec<Vec<u8>>,
    /// The number of each name.
    numbers: HashMap<Vec<u8>, usize>,
    /// The expression of each name.
    definitions: Vec<Re>,
    /// The weight of each expression.
    weights: Vec<u32>,
    /// The lengths of the strings of each expression.
    lengths: Vec<Lengths>,
}

impl Model for Names {
    ghost use Rattle.std.specs.Prelude.{◌≡◌, List, map, zip, length};
    ghost use Rattle.std.specs.Coded.{coded_list, coded_ℕ, coded×};
    ghost use Rattle.ly_ere.specs.ExpressionCode.{expression_code};
    ghost use Rattle.ly_ere.specs.Names.{Definition, AreOrdered};
    ghost use Rattle.ly_ere.specs.Lengths.{AreNamedLengths};
    ghost use Rattle.ly_ere.specs.Private.Definitions.{AreNumbers};
    ghost use Rattle.ly_ere.specs.Weight.{AreWeights};

    ghost Value = { List Definition };

    ghost coded = { coded_list (coded× (coded_list coded_ℕ) expression_code) };

    ghost view = { λ n. zip (map (λ k. k.items) n.names.items) n.definitions.items };

    ghost invariant = { λ n. (length n.names.items ≡ length n.definitions.items) × AreOrdered n.definitions.items
        × AreWeights n.definitions.items n.weights.items × AreNamedLengths n.definitions.items n.lengths.items
        × AreNumbers (λ k. k.items) (zip (map (λ k. k.items) n.names.items) n.definitions.items) n.numbers.entries };
}

impl Names {
    ghost use Rattle.ly_ere.specs.Names.{AreOrdered};

    /// Returns an empty list of definitions.
    pub fn new(alloc: Global) -> Self
        ensures { result ≡ [] }
    {
        Names {
            names: Vec::new(alloc),
            numbers: HashMap::new(alloc),
            definitions: Vec::new(alloc),
            weights: Vec::new(alloc),
            lengths: Vec::new(alloc),
        }
    }

    /// The expressions of the definitions.
    pub fn definitions(&self) -> &[Re]
        ensures these { result.now ≡ defined self.now }
        ensures ordered { AreOrdered result.now }
    {
        &self.definitions
    }

    /// The number of the definition of a name, if it is defined.
    pub(crate) fn find(&self, name: &[u8]) -> Option<usize>
        ensures { result ≡ number_of self.now name.now }
    {
        self.numbers.get(name).copied()
    }

    /// Adds the definition of a new name, which uses earlier names only. Rejects an expression whose weight is above
    /// the limit.
    pub(crate) fn with_definition(
        self,
        alloc: Global,
        name: &[u8],
        definition: Re,
        limits: &Limits,
    ) -> Result<Names, EreFault>
        requires sound { IsSound (length self) definition }
        requires new { number_of self name.now ≡ None }
        ensures ok { IfOk result (λ names. names ≡ self ++ (name.now, definition) ∷ []) }
        ensures light { IsOk result → weight_of (defined self) definition ≤ limits.now.pattern_weight }
        ensures only { IfErr result (λ fault. fault ≢ OutOfMemory → ere_kind fault ≡ Some TooHeavy) }
        ensures heavy { IfErr result (λ fault. ere_kind fault ≡ Some TooHeavy
            → limits.now.pattern_weight < weight_of (defined self) definition) }
        ensures front { IfErr result (IsAtMost 0) }
    {
        let Some(weight) = weigh(alloc, &definition, &self, limits.pattern_weight())? else {
            return Err(EreFault::Refused {
                kind: EreFaultKind::TooHeavy,
                offset: 0,
            });
        };
        Ok(self.with_weighed(alloc, name, definition, weight)?)
    }

    /// Adds a definition whose weight is known.
    pub(crate) fn with_weighed(
        mut self,
        alloc: Global,
        name: &[u8],
        definition: Re,
        weight: u32,
    ) -> Result<Names, AllocError>
        requires sound { IsSound (length self) definition }
        requires new { number_of self name.now ≡ None }
        requires weighed { weight ≡ weight_of (defined self) definition }
        ensures { IfOk result (λ names. names ≡ self ++ (name.now, definition) ∷ []) }
    {
        let lengths = lengths_of(alloc, &definition, &self)?;
        self.numbers
            .insert(Vec::from_slice(alloc, name)?, self.names.len())?;
        self.names.push(Vec::from_slice(alloc, name)?)?;
        self.definitions.push(definition)?;
        self.weights.push(weight)?;
        self.lengths.push(lengths)?;
        Ok(self)
    }

    /// The weight of each definition.
    pub(crate) fn weights(&self) -> &[u32]
        ensures { AreWeights (defined self.now) result.now }
    {
        &self.weights
    }

    /// The lengths of the strings of each definition.
    pub(crate) fn lengths(&self) -> &[Lengths]
        ensures { AreNamedLengths (defined self.now) result.now }
    {
        &self.lengths
    }
}
