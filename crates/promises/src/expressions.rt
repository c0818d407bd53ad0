//! Reading an expression, and whether a rule holds.
ghost use Rattle.std.specs.Prelude.{◌≡◌, List, Some, true, IfOk, IfErr};
ghost use Rattle.expr_tokens.specs.declared.fault.ExprFault.{ExprFault};
ghost use Rattle.expr_tokens.specs.Answers.{AnswersThis};
ghost use Rattle.expr_parser.specs.Tree.{SyntaxTree};
ghost use Rattle.expr_parser.specs.Text.{SpellsExpression, RefusedText};
ghost use Rattle.expr_parser.specs.View.{view};
ghost use Rattle.evaluator.specs.Env.{env_of, Suits};
ghost use Rattle.evaluator.specs.Holds.{outcome};

use bumpalo::Bump;
use evaluator::{Env, Outcome, evaluate};
use expr_parser::{Expr, ExprFault, parse};
use expr_types::Checked;
use json_tree::NoMemory;
use std::alloc::Global;

/// What [`parse`] promises.
pub fn parsed(alloc: Global, text: &str) -> Result<Expr, ExprFault>
    ensures found { IfOk result (λ expr. SpellsExpression text.now (view expr)) }
    ensures only { (tree : SyntaxTree) → SpellsExpression text.now tree → AnswersThis ExprFault.NoMemory view tree result }
    ensures refused { IfErr result (λ fault. RefusedText text.now fault) }
{
    parse(alloc, text)
}

/// What [`evaluate`] promises of its outcome.
pub fn evaluated<'a>(
    arena: &'a Bump,
    checked: &'a Checked,
    env: &Env<'a, '_>,
) -> Result<Outcome, NoMemory>
    requires { Suits checked.now (env_of env.now) }
    ensures { IfOk result (λ found. found ≡ outcome checked.now.tree (env_of env.now)) }
{
    evaluate(arena, checked, env)
}
