//! How often rules and their parts were asked, and what they answered.

use crate::values::put_path;
use evaluator::{Meaning, Outcome, Value};
use explainer::Look;
use expr_places::{Placed, parts, width};
use json_tree::NoMemory;
use request_explainer::AskedRule;
use std::alloc::Global;

/// How often a rule or a part of one was asked, and what it answered.
#[derive(Clone, Copy, Debug)]
pub(crate) struct Count {
    pub(crate) asked: u64,
    /// How often it was true.
    pub(crate) held: u64,
    /// How often it was false.
    pub(crate) failed: u64,
    /// How often it was an error.
    pub(crate) erred: u64,
}

/// What a rule, or a part of one, answered.
#[derive(Clone, Copy, Debug, PartialEq, Eq)]
pub(crate) enum Answer {
    True,
    False,
    Error,
    /// What is no boolean.
    Other,
}

/// What became of all that was asked.
#[derive(Clone, Copy, Debug, PartialEq, Eq)]
pub(crate) enum Shade {
    /// It was never asked.
    Unasked,
    /// It was an error at least once.
    Erred,
    /// It was true each time.
    Held,
    /// It was false each time.
    Failed,
    /// It was true, and it was false.
    Both,
    /// It was never a boolean.
    Plain,
}

impl Count {
    /// What was never asked.
    pub(crate) fn none() -> Count {
        Count {
            asked: 0,
            held: 0,
            failed: 0,
            erred: 0,
        }
    }

    /// Counts one more answer.
    pub(crate) fn add(&mut self, answer: Answer) {
        self.asked = self.asked.saturating_add(1);
        match answer {
            Answer::True => self.held = self.held.saturating_add(1),
            Answer::False => self.failed = self.failed.saturating_add(1),
            Answer::Error => self.erred = self.erred.saturating_add(1),
            Answer::Other => {}
        }
    }

    /// What became of all that was asked.
    pub(crate) fn shade(self) -> Shade {
        match self {
            Count { asked: 0, .. } => Shade::Unasked,
            Count { erred, .. } if erred > 0 => Shade::Erred,
            Count {
                held: 0,
                failed: 0,
                ..
            } => Shade::Plain,
            Count { failed: 0, .. } => Shade::Held,
            Count { held: 0, .. } => Shade::Failed,
            _ => Shade::Both,
        }
    }
}

/// A rule that a request asked at a place.
#[derive(Drop)]
pub(crate) struct Ask {
    /// The number of the request, from 1.
    pub(crate) request: u64,
    pub(crate) place: String,
    pub(crate) answer: Outcome,
}

/// How often a part of a rule was asked: the part with these tokens of its expression.
#[derive(Clone, Copy, Debug)]
pub(crate) struct PartCount {
    pub(crate) at: usize,
    pub(crate) tokens: usize,
    pub(crate) count: Count,
}

/// How often a rule was asked.
#[derive(Drop)]
pub(crate) struct RuleCount {
    pub(crate) count: Count,
    /// In the order of the requests.
    pub(crate) asks: Vec<Ask>,
    /// From left to right, and what has a part before the part; none of a rule that was never asked.
    pub(crate) parts: Vec<PartCount>,
}

impl RuleCount {
    /// What was never asked.
    pub(crate) fn none(alloc: Global) -> RuleCount {
        RuleCount {
            count: Count::none(),
            asks: Vec::new(alloc),
            parts: Vec::new(alloc),
        }
    }

    /// Counts that a request asked the rule.
    pub(crate) fn add(
        &mut self,
        alloc: Global,
        request: u64,
        asked: &AskedRule<'_>,
    ) -> Result<(), NoMemory> {
        let mut place = String::new(alloc);
        put_path(asked.place.keys(), &mut place)?;
        let answer = asked.rule.answer;
        self.count.add(answer_of(answer));
        self.asks.push(Ask {
            request,
            place,
            answer,
        })?;
        if self.parts.is_empty() {
            if let Some(whole) = asked.looks.last() {
                self.parts = all_parts(alloc, whole)?;
            }
        }
        for look in &asked.looks {
            self.count_part(look);
        }
        Ok(())
    }

    // Counts a part that was looked at.
    fn count_part(&mut self, look: &Look<'_>) {
        let found = self
            .parts
            .iter_mut()
            .find(|part| part.at == look.at && part.tokens == look.tokens);
        if let Some(part) = found {
            part.count.add(meant(look.meaning));
        }
    }
}

// An expression that was looked at and its parts, none of which was asked yet.
fn all_parts(alloc: Global, whole: &Look<'_>) -> Result<Vec<PartCount>, NoMemory> {
    let mut found = Vec::new(alloc);
    let mut pending = Vec::new(alloc);
    pending.push(Placed {
        before: whole.at,
        part: whole.part,
    })?;
    // Each part has a token of its own.
    for _ in 0..whole.tokens {
        let Some(next) = pending.pop() else {
            break;
        };
        found.push(uncounted(&next)?)?;
        push_inner(alloc, next, &mut pending)?;
    }
    Ok(found)
}

// Pushes the parts that a part is made of, the first of them last.
fn push_inner<'e>(
    alloc: Global,
    whole: Placed<'e>,
    pending: &mut Vec<Placed<'e>>,
) -> Result<(), NoMemory> {
    for inner in parts(alloc, whole.part)?.iter().rev() {
        pending.push(Placed {
            before: whole.before.saturating_add(inner.before),
            part: inner.part,
        })?;
    }
    Ok(())
}

fn uncounted(placed: &Placed<'_>) -> Result<PartCount, NoMemory> {
    Ok(PartCount {
        at: placed.before,
        tokens: width(placed.part)?,
        count: Count::none(),
    })
}

fn answer_of(outcome: Outcome) -> Answer {
    match outcome {
        Outcome::Yes => Answer::True,
        Outcome::No => Answer::False,
        Outcome::Erred => Answer::Error,
    }
}

fn meant(meaning: Option<Meaning<'_>>) -> Answer {
    match meaning {
        None => Answer::Error,
        Some(Meaning::Value(Value::Truth(true))) => Answer::True,
        Some(Meaning::Value(Value::Truth(false))) => Answer::False,
        Some(_) => Answer::Other,
    }
}
