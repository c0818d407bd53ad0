//! From the text of a rule to its expression.
ghost use Rattle.std.specs.Prelude.{◌≡◌, ◌⊎◌, [], option_and_then, IfOk, IfErr};
ghost use Rattle.serde_json.specs.View.{view};
ghost use Rattle.serde_json.specs.Find.{get};
ghost use Rattle.path_capture.specs.Captures.{names};
ghost use Rattle.expr_parser.specs.View.{view as tree_of};
ghost use Rattle.expr_types.specs.HasSort.{HasSort};
ghost use Rattle.expr_types.specs.Faults.{FirstFault};
ghost use Rattle.expr_types.specs.declared.fault.TypeFault.TheVariants.{NoMemory as of_memory};
ghost use Rattle.rules_reader.specs.Part.{Pattern as PatternTexts, texts};
ghost use Rattle.rules_reader.specs.Book.{stated, kind_name};
ghost use Rattle.rules_reader.specs.Spelled.{place_of, capture_names, SpellsRule, SpellsOptional};
ghost use Rattle.rules_reader.specs.File.{rule_text};
ghost use Rattle.rules_reader.specs.Refusal.{Blames};
ghost use Rattle.rules_reader.specs.Unread.{Stops, of_expr_fault, of_type_fault};
ghost use Rattle.rules_reader.specs.declared.rule_text.Unread.TheVariants.{NoMemory as no_memory};

use crate::fault::{LeftOut, RuleFault, RuleName, RulesFault};
use crate::kind::Kind;
use crate::objects::{captures_of, stand_in};
use crate::shape::rule_text;
use expr_parser::{Expr, ExprFault, parse};
use expr_types::{Checked, Sort, TypeFault, check, sort_of};
use json_tree::NoMemory;
use path_capture::{Captures, Pattern};
use serde_json::Value;
use std::alloc::Global;

// The rule of a kind that an object at a pattern states, if it does; the captures are those of the
// pattern.
pub(crate) fn rule(
    alloc: Global,
    value: &Value,
    kind: Kind,
    pattern: &Pattern,
    captures: &Captures,
) -> Result<Option<Checked>, RulesFault>
    requires { names captures.now ≡ capture_names (texts pattern.now) }
    ensures spelled { IfOk result (SpellsOptional (texts pattern.now) kind (option_and_then rule_text (get (kind_name kind) (view value.now)))) }
    ensures fault { IfErr result (Blames (texts pattern.now) (stated [] kind (option_and_then rule_text (get (kind_name kind) (view value.now))))) }
{
    let Some(text) = rule_text(value, kind) else {
        return Ok(None);
    };
    match checked(alloc, text, kind, captures) {
        Ok(rule) => Ok(Some(rule)),
        Err(Unread::NoMemory) => Err(RulesFault::NoMemory),
        Err(Unread::NoRule(fault)) => {
            let pattern = pattern.copy()?;
            Err(RulesFault::BadRule(RuleName { pattern, kind }, fault))
        }
    }
}

/// Why a text was not read as a rule.
#[derive(Debug, Drop)]
pub enum Unread {
    /// It is not a rule where it stands.
    NoRule(RuleFault),
    NoMemory,
}

impl From<NoMemory> for Unread {
    ghost from_gives = { λ _ unread. unread ≡ no_memory };

    fn from(_refused: NoMemory) -> Unread {
        Unread::NoMemory
    }
}

impl From<ExprFault> for Unread {
    ghost from_gives = { λ fault unread. unread ≡ of_expr_fault fault };

    fn from(fault: ExprFault) -> Unread {
        match fault {
            ExprFault::BadExpression { byte } => Unread::NoRule(RuleFault::BadExpression { byte }),
            ExprFault::NotInProfile(excluded) => {
                Unread::NoRule(RuleFault::NotInProfile(LeftOut::Sign(excluded)))
            }
            ExprFault::NoMemory => Unread::NoMemory,
        }
    }
}

impl From<TypeFault> for Unread {
    ghost from_gives = { λ fault unread. unread ≡ of_type_fault fault };

    fn from(fault: TypeFault) -> Unread {
        match fault {
            TypeFault::NotInProfile(name) => {
                Unread::NoRule(RuleFault::NotInProfile(LeftOut::Name(name)))
            }
            TypeFault::TypeError => Unread::NoRule(RuleFault::TypeError),
            TypeFault::UnknownName(name) => Unread::NoRule(RuleFault::UnknownName(name)),
            TypeFault::NoMemory => Unread::NoMemory,
        }
    }
}

/// The rule of a kind that a text is at a pattern, or why it is not one: what [`compile`](crate::compile) makes of
/// each rule of a file. Time and memory for the tokens of the text and its expression.
pub fn read_rule(
    alloc: Global,
    text: &str,
    kind: Kind,
    pattern: &Pattern,
) -> Result<Checked, Unread>
    ensures spelled { IfOk result (SpellsRule (texts pattern.now) kind text.now) }
    ensures fault { IfErr result (Stops (texts pattern.now) kind text.now) }
{
    let key = stand_in(alloc)?;
    let captures = captures_of(alloc, pattern, &key)?;
    checked(alloc, text, kind, &captures)
}

/// The sort of an expression in a rule of this kind at this pattern, or its first fault, as of a part of such a rule. It
/// costs what [`sort_of`] does, and a list of the captures of the pattern.
pub fn sort_in_rule(
    alloc: Global,
    expr: &Expr,
    kind: Kind,
    pattern: &Pattern,
) -> Result<Sort, TypeFault>
    ensures sorted { IfOk result (HasSort (place_of kind) (capture_names (texts pattern.now)) (tree_of expr.now)) }
    ensures refused { IfErr result (λ fault. FirstFault (place_of kind) (capture_names (texts pattern.now)) (tree_of expr.now) fault ⊎ (fault ≡ of_memory)) }
{
    let Ok(key) = stand_in(alloc) else {
        return Err(TypeFault::NoMemory);
    };
    let Ok(captures) = captures_of(alloc, pattern, &key) else {
        return Err(TypeFault::NoMemory);
    };
    sort_of(alloc, expr, kind.place(), &captures)
}

// The expression that a text spells, which may stand in a rule of this kind below these captures.
fn checked(alloc: Global, text: &str, kind: Kind, captures: &Captures) -> Result<Checked, Unread>
    ensures spelled { IfOk result (λ rule. (at : PatternTexts) → names captures.now ≡ capture_names at → SpellsRule at kind text.now rule) }
    ensures fault { IfErr result (λ unread. (at : PatternTexts) → names captures.now ≡ capture_names at → Stops at kind text.now unread) }
{
    let expr = parse(alloc, text)?;
    let rule = check(alloc, expr, kind.place(), captures)?;
    Ok(rule)
}
