//! From a text to its expression.
ghost use Rattle.std.specs.Prelude.{◌≡◌, ◌≢◌, ◌⊎◌, ◌-◌, ◌<◌, ◌≤◌, ℕ, List, length, nat_eq, if◌then◌else◌, slice_index, IfOk, IfErr};
ghost use Rattle.expr_tokens.specs.declared.fault.ExprFault.{ExprFault};
ghost use Rattle.expr_parser.specs.Tree.{SyntaxTree};
ghost use Rattle.expr_parser.specs.Text.{SpellsExpression, RefusedText};
ghost use Rattle.expr_tokens.specs.Answers.{AnswersThis};
ghost use Rattle.expr_parser.specs.View.{view};

use crate::expr::Expr;
use crate::parser::{ParseFault, expression};
use expr_tokens::{Excluded, ExprFault, scan};
use std::alloc::Global;

/// The expression that the text spells, or why it spells none.
///
/// One pass over the text and one over its tokens. It grows memory for the list of the tokens and
/// that of their places, and once for each node of the expression and what the node keeps.
pub fn parse(alloc: Global, text: &str) -> Result<Expr, ExprFault>
    // What is found is spelled so.
    ensures found { IfOk result (λ expr. SpellsExpression text.now (view expr)) }
    // What is spelled so is found, unless memory is refused.
    ensures only { (tree : SyntaxTree) → SpellsExpression text.now tree → AnswersThis ExprFault.NoMemory view tree result }
    // A fault is the earliest one of the tokens; else it has the place of the first token with which
    // no spelled expression goes on, or says that this is a bracket that is left out.
    ensures refused { IfErr result (λ fault. RefusedText text.now fault) }
{
    let scanned = scan(alloc, text)?;
    match expression(alloc, scanned.tokens.as_slice()) {
        Ok(found) => Ok(found),
        Err(ParseFault::Unexpected { left }) => {
            let byte = place(text, scanned.places.as_slice(), left);
            Err(ExprFault::BadExpression { byte })
        }
        Err(ParseFault::Bracket { .. }) => Err(ExprFault::NotInProfile(Excluded::Bracket)),
        Err(ParseFault::NoMemory) => Err(ExprFault::NoMemory),
    }
}

/// A text spells at most one expression.
pub fn one_expression()
    ensures { (text : List ℕ) (x y : SyntaxTree) → SpellsExpression text x → SpellsExpression text y → x ≡ y }
{}

/// But for want of memory, a text is refused for at most one reason, and for none where it spells an
/// expression.
pub fn one_refusal()
    ensures one { (text : List ℕ) (one other : ExprFault) → RefusedText text one → RefusedText text other → one ≢ ExprFault.NoMemory → other ≢ ExprFault.NoMemory → one ≡ other }
    ensures none { (text : List ℕ) (tree : SyntaxTree) (fault : ExprFault) → SpellsExpression text tree → RefusedText text fault → fault ≡ ExprFault.NoMemory }
{}

/// A text spells an expression, or is refused, and not for want of memory.
pub fn each_text_is_read_or_refused()
    ensures { (text : List ℕ) → ((tree : SyntaxTree) × SpellsExpression text tree) ⊎ ((fault : ExprFault) × RefusedText text fault × (fault ≢ ExprFault.NoMemory)) }
{}

// Where the first of the tokens begins of which so many are left, or else where the text ends.
fn place(text: &str, places: &[usize], left: usize) -> usize
    requires { left ≤ length places.now }
    ensures { result ≡ (if nat_eq left 0 then length text.now else slice_index places.now (length places.now - left)) }
{
    if left == 0 {
        text.len()
    } else {
        places[places.len() - left]
    }
}
