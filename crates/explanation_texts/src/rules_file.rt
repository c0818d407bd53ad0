//! A rules file, with where its rules are written and how often they were asked.

use crate::coverage::RuleCount;
use json_tree::NoMemory;
use request_explainer::{AskedRule, Explanation};
use rule_sources::{RuleSource, rule_sources};
use std::alloc::Global;

/// A rules file that is accepted.
#[derive(Drop)]
pub(crate) struct RulesFile {
    alloc: Global,
    pub(crate) text: String,
    /// The request that deployed it, from 1; of the header 0.
    pub(crate) since: u64,
    pub(crate) sources: Vec<RuleSource>,
    /// How often each of them was asked.
    pub(crate) counts: Vec<RuleCount>,
}

impl RulesFile {
    /// The rules file of a text.
    pub(crate) fn of_text(alloc: Global, text: &str, since: u64) -> Result<RulesFile, NoMemory> {
        let sources = rule_sources(alloc, text.as_bytes())?;
        let mut counts = Vec::with_capacity(alloc, sources.len())?;
        for _ in 0..sources.len() {
            counts.push(RuleCount::none(alloc))?;
        }
        Ok(RulesFile {
            alloc,
            text: String::from_str(alloc, text)?,
            since,
            sources,
            counts,
        })
    }

    /// Where a rule is written.
    pub(crate) fn source_of(&self, asked: &AskedRule<'_>) -> Option<&RuleSource> {
        self.sources.get(self.index_of(asked)?)
    }

    /// Counts the rules that a request asked.
    pub(crate) fn count(
        &mut self,
        request: u64,
        explanation: &Explanation<'_>,
    ) -> Result<(), NoMemory> {
        for asked in &explanation.rules {
            let found = self
                .index_of(asked)
                .and_then(|index| self.counts.get_mut(index));
            if let Some(count) = found {
                count.add(self.alloc, request, asked)?;
            }
        }
        Ok(())
    }

    // Where a rule is among those that are written.
    fn index_of(&self, asked: &AskedRule<'_>) -> Option<usize> {
        let pattern = asked.rule.node.pattern_text();
        self.sources.iter().position(|source| source.kind == asked.kind
            && source.pattern.as_str() == pattern)
    }

    /// Whether a line of the file ends where a byte of an expression was read.
    pub(crate) fn breaks_at(&self, source: &RuleSource, byte: usize) -> bool {
        source
            .place_in_file(byte)
            .and_then(|place| self.text.as_bytes().get(place))
            .is_some_and(|found| *found == b'\n')
    }
}
