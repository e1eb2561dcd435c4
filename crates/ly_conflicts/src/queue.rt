//! A priority queue of pairs of parses, the cheapest first.
use crate::pair::Pair;
use crate::yields::Yields;
use std::alloc::{AllocError, Global};

/// The greatest number of pairs that are queued for a conflict.
const KEPT: usize = 60_000;

/// The greatest cost of a pair.
const DEAREST: usize = 200;

/// The pairs still to be visited, by their cost.
#[derive(Drop)]
pub(crate) struct Queue {
    /// The pairs of each cost.
    pairs: Vec<Vec<Pair>>,
    /// The number of pairs that were added.
    count: usize,
    /// No pair costs less than this.
    cheapest: usize,
}

impl Queue {
    /// Returns an empty queue.
    pub(crate) fn new(alloc: Global) -> Result<Queue, AllocError> {
        let mut pairs = Vec::with_capacity(alloc, DEAREST)?;
        for _ in 0..DEAREST {
            pairs.push(Vec::new(alloc))?;
        }
        Ok(Queue {
            pairs,
            count: 0,
            cheapest: 0,
        })
    }

    /// Whether no more pairs are added.
    pub(crate) fn is_full(&self) -> bool {
        self.count >= KEPT
    }

    /// Adds a pair, unless it costs too much or the queue is full.
    pub(crate) fn push(&mut self, yields: &Yields, pair: Pair) -> Result<(), AllocError> {
        let Some(price) = pair.price(yields) else {
            return Ok(());
        };
        let price = usize::try_from(price).unwrap_or(usize::MAX);
        if self.is_full() || pair.one.is_long() || pair.other.is_long() {
            return Ok(());
        }
        if let Some(pairs) = self.pairs.get_mut(price) {
            pairs.push(pair)?;
            self.count = self.count.saturating_add(1);
            self.cheapest = self.cheapest.min(price);
        }
        Ok(())
    }

    /// Removes one of the cheapest pairs.
    pub(crate) fn pop(&mut self) -> Option<Pair> {
        for price in self.cheapest..DEAREST {
            if let Some(pairs) = self.pairs.get_mut(price)
                && let Some(pair) = pairs.pop()
            {
                self.cheapest = price;
                return Some(pair);
            }
        }
        None
    }
}
