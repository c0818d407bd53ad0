//! From tokens to an expression: by descent, and by climbing the operators' levels.
//!
//! Each function puts what it reads into a place that its caller provides, and returns the tokens that are left: an
//! expression that it returned would lie in memory, and be copied from there at each level.
ghost use Rattle.std.specs.Prelude.{◌≡◌, ◌≢◌, ◌<◌, ◌≤◌, ◌⊎◌, List, length, IfOk, IfErr, []};
ghost use Rattle.expr_parser.specs.Grammar.{level, Spells};
ghost use Rattle.expr_parser.specs.Stopping.{Refused};
ghost use Rattle.expr_parser.specs.Working.Reading.{Whole, Climb, Unary, Items, read, arg_behind, item_behind, call, dotted, group, parts, postfix, primary};
ghost use Rattle.expr_parser.specs.Tree.{SyntaxTree, none};
ghost use Rattle.expr_parser.specs.View.{view, views, arguments};
ghost use Rattle.expr_parser.specs.Working.Gives.{Gives};
ghost use Rattle.expr_tokens.specs.Answers.{AnswersThis};
ghost use Rattle.expr_tokens.specs.declared.token.Token.{Token};
ghost use Rattle.expr_parser.specs.declared.parser.ParseFault.{ParseFault};
ghost use Rattle.expr_parser.specs.declared.parser.ParseFault.TheVariants.{NoMemory as no_memory};

use crate::expr::{Argument, Expr};
use crate::limits::MAX_LEVELS;
use expr_tokens::{Operator, Token};
use std::alloc::{AllocError, AllocFailed, Global};
use std::mem;

/// Why tokens are no expression.
#[derive(Clone, Copy, Debug, PartialEq, Eq)]
pub enum ParseFault {
    /// No expression goes on with the first of the tokens of which so many are left, or, where none
    /// is left, tokens are wanting.
    Unexpected { left: usize },
    /// The first of the tokens of which so many are left is a `[` behind a complete operand, which
    /// would look into a value; the profile leaves that out.
    Bracket { left: usize },
    NoMemory,
}

impl From<AllocError> for ParseFault {
    ghost from_gives = { λ _ fault. fault ≡ no_memory };

    fn from(_refused: AllocError) -> ParseFault {
        ParseFault::NoMemory
    }
}

impl<T: Drop> From<AllocFailed<T>> for ParseFault {
    ghost from_gives = { λ _ fault. fault ≡ no_memory };

    fn from(_refused: AllocFailed<T>) -> ParseFault {
        ParseFault::NoMemory
    }
}

fn level(operator: Operator) -> u8
    ensures { result ≡ level operator }
{
    match operator {
        Operator::Or => 1,
        Operator::And => 2,
        Operator::Equal | Operator::NotEqual => 3,
        Operator::Less | Operator::LessOrEqual | Operator::Greater | Operator::GreaterOrEqual => 4,
        Operator::Add | Operator::Subtract => 5,
        Operator::Multiply | Operator::Remainder => 6,
    }
}

/// The expression that the tokens spell, all of them.
///
/// One pass over the tokens. It grows memory once for a node and for the words that the node keeps,
/// and once for a list and whenever the list outgrows its room. The recursion goes as deep as levels are open, 64 at most, with a bounded number of calls for each.
pub fn expression(alloc: Global, tokens: &[Token]) -> Result<Expr, ParseFault>
    // What is found is spelled so.
    ensures found { IfOk result (λ expr. Spells tokens.now (view expr)) }
    // What is spelled so is found, unless memory is refused.
    ensures only { (tree : SyntaxTree) → Spells tokens.now tree → AnswersThis no_memory view tree result }
    // A fault names the first token that no spelled expression has after the tokens before it.
    ensures refused { IfErr result (λ fault. Refused tokens.now fault) }
{
    let mut found = Expr::Null;
    let rest = whole(alloc, 0, tokens, &mut found)?;
    if !rest.is_empty() {
        return Err(ParseFault::Unexpected { left: rest.len() });
    }
    Ok(found)
}

/// Tokens spell at most one expression.
pub fn one_expression_of_tokens()
    ensures { (tokens : List Token) (x y : SyntaxTree) → Spells tokens x → Spells tokens y → x ≡ y }
{}

/// Tokens spell an expression, or are refused, and not for want of memory.
pub fn each_list_of_tokens_is_read_or_refused()
    ensures { (tokens : List Token) → ((tree : SyntaxTree) × Spells tokens tree) ⊎ ((fault : ParseFault) × Refused tokens fault × (fault ≢ no_memory)) }
{}

// expr := or [ '?' expr ':' expr ]
#[cycle(parser)]
fn whole<'a, 't>(
    alloc: Global,
    depth: usize,
    tokens: &'a [Token<'t>],
    found: &mut Expr,
) -> Result<&'a [Token<'t>], ParseFault>
    ensures gives { Gives (λ rest. (view found.new, rest.now)) result (read Whole depth tokens.now) }
    ensures shorter { IfOk result (λ rest. length rest.now ≤ length tokens.now) }
{
    let rest = climb(alloc, depth, 1, tokens, found)?;
    let [Token::Question, inner @ ..] = rest else {
        return Ok(rest);
    };
    if depth >= MAX_LEVELS {
        return Err(ParseFault::Unexpected { left: rest.len() });
    }
    choice(alloc, depth, inner, found)
}

// expr ':' expr, behind a condition, which is found, and its '?'
#[cycle(parser)]
fn choice<'a, 't>(
    alloc: Global,
    depth: usize,
    tokens: &'a [Token<'t>],
    found: &mut Expr,
) -> Result<&'a [Token<'t>], ParseFault>
    requires { depth < MAX_LEVELS }
    ensures gives { Gives (λ rest. (view found.new, rest.now)) result (parts read depth (view found.old) tokens.now) }
    ensures shorter { IfOk result (λ rest. length rest.now ≤ length tokens.now) }
{
    let mut yes = Box::new(alloc, Expr::Null)?;
    let rest = whole(alloc, depth + 1, tokens, &mut yes)?;
    let [Token::Colon, inner @ ..] = rest else {
        return Err(ParseFault::Unexpected { left: rest.len() });
    };
    let mut no = Box::new(alloc, Expr::Null)?;
    let rest = whole(alloc, depth + 1, inner, &mut no)?;
    let condition = taken(alloc, found)?;
    *found = Expr::Choice(condition, yes, no);
    Ok(rest)
}

// The levels of the operators, from this one on.
#[cycle(parser)]
fn climb<'a, 't>(
    alloc: Global,
    depth: usize,
    least: u8,
    tokens: &'a [Token<'t>],
    found: &mut Expr,
) -> Result<&'a [Token<'t>], ParseFault>
    ensures gives { Gives (λ rest. (view found.new, rest.now)) result (read (Climb least) depth tokens.now) }
    ensures shorter { IfOk result (λ rest. length rest.now ≤ length tokens.now) }
{
    let mut rest = unary(alloc, depth, tokens, found)?;
    loop {
        let [first, after @ ..] = rest else {
            return Ok(rest);
        };
        let Token::Operator(operator) = first else {
            return Ok(rest);
        };
        let operator = *operator;
        if level(operator) < least {
            return Ok(rest);
        }
        let mut right = Box::new(alloc, Expr::Null)?;
        let after = climb(alloc, depth, level(operator) + 1, after, &mut right)?;
        let left = taken(alloc, found)?;
        *found = Expr::Operation(operator, left, right);
        rest = after;
    }
}

// unary := ( '!' | '-' ) unary | postfix
#[cycle(parser)]
fn unary<'a, 't>(
    alloc: Global,
    depth: usize,
    tokens: &'a [Token<'t>],
    found: &mut Expr,
) -> Result<&'a [Token<'t>], ParseFault>
    ensures gives { Gives (λ rest. (view found.new, rest.now)) result (read Unary depth tokens.now) }
    ensures shorter { IfOk result (λ rest. length rest.now ≤ length tokens.now) }
{
    match tokens {
        [Token::Not, inner @ ..] => {
            if depth >= MAX_LEVELS {
                return Err(ParseFault::Unexpected { left: tokens.len() });
            }
            let mut x = Box::new(alloc, Expr::Null)?;
            let rest = unary(alloc, depth + 1, inner, &mut x)?;
            *found = Expr::Not(x);
            Ok(rest)
        }
        [Token::Operator(Operator::Subtract), inner @ ..] => {
            if depth >= MAX_LEVELS {
                return Err(ParseFault::Unexpected { left: tokens.len() });
            }
            let mut x = Box::new(alloc, Expr::Null)?;
            let rest = unary(alloc, depth + 1, inner, &mut x)?;
            *found = Expr::Negate(x);
            Ok(rest)
        }
        _ => postfix(alloc, depth, tokens, found),
    }
}

// postfix := primary { '.' name [ '(' [ arg { ',' arg } ] ')' ] }
#[cycle(parser)]
fn postfix<'a, 't>(
    alloc: Global,
    depth: usize,
    tokens: &'a [Token<'t>],
    found: &mut Expr,
) -> Result<&'a [Token<'t>], ParseFault>
    ensures gives { Gives (λ rest. (view found.new, rest.now)) result (postfix read depth tokens.now) }
    ensures shorter { IfOk result (λ rest. length rest.now ≤ length tokens.now) }
{
    let mut rest = primary(alloc, depth, tokens, found)?;
    while let [Token::Dot, after @ ..] = rest {
        rest = member(alloc, depth, after, found)?;
    }
    if let [Token::OpenBracket, ..] = rest {
        return Err(ParseFault::Bracket { left: rest.len() });
    }
    Ok(rest)
}

// What stands behind a receiver, which is found, and its dot: a name, or a call of it.
#[cycle(parser)]
fn member<'a, 't>(
    alloc: Global,
    depth: usize,
    tokens: &'a [Token<'t>],
    found: &mut Expr,
) -> Result<&'a [Token<'t>], ParseFault>
    ensures gives { Gives (λ rest. (view found.new, rest.now)) result (dotted read depth (view found.old) tokens.now) }
    ensures shorter { IfOk result (λ rest. length rest.now ≤ length tokens.now) }
{
    let [first, rest @ ..] = tokens else {
        return Err(ParseFault::Unexpected { left: 0 });
    };
    let Token::Name(word) = first else {
        return Err(ParseFault::Unexpected { left: tokens.len() });
    };
    let receiver = taken(alloc, found)?;
    let [Token::OpenParenthesis, inner @ ..] = rest else {
        *found = Expr::Member(receiver, word.copy(alloc)?);
        return Ok(rest);
    };
    if depth >= MAX_LEVELS {
        return Err(ParseFault::Unexpected { left: rest.len() });
    }
    let mut arguments = Vec::new(alloc);
    let rest = given(alloc, depth + 1, inner, &mut arguments)?;
    *found = Expr::Call(receiver, word.copy(alloc)?, arguments);
    Ok(rest)
}

// [ arg { ',' arg } ] ')'
#[cycle(parser)]
fn given<'a, 't>(
    alloc: Global,
    depth: usize,
    tokens: &'a [Token<'t>],
    found: &mut Vec<Argument>,
) -> Result<&'a [Token<'t>], ParseFault>
    requires none { found.old.items ≡ [] }
    ensures gives { Gives (λ rest. (arguments found.new.items, rest.now)) result (call read depth tokens.now) }
    ensures shorter { IfOk result (λ rest. length rest.now ≤ length tokens.now) }
{
    if let [Token::CloseParenthesis, rest @ ..] = tokens {
        return Ok(rest);
    }
    let mut rest = argument(alloc, depth, tokens, found)?;
    while let [Token::Comma, after @ ..] = rest {
        rest = argument(alloc, depth, after, found)?;
    }
    let [Token::CloseParenthesis, rest @ ..] = rest else {
        return Err(ParseFault::Unexpected { left: rest.len() });
    };
    Ok(rest)
}

// arg := expr | '[' expr { ',' expr } ']', behind those that are found
#[cycle(parser)]
fn argument<'a, 't>(
    alloc: Global,
    depth: usize,
    tokens: &'a [Token<'t>],
    found: &mut Vec<Argument>,
) -> Result<&'a [Token<'t>], ParseFault>
    ensures gives { Gives (λ rest. (arguments found.new.items, rest.now)) result (arg_behind read depth (arguments found.old.items) tokens.now) }
    ensures shorter { IfOk result (λ rest. length rest.now ≤ length tokens.now) }
{
    let [Token::OpenBracket, inner @ ..] = tokens else {
        let mut value = Expr::Null;
        let rest = whole(alloc, depth, tokens, &mut value)?;
        found.push(Argument::One(value))?;
        return Ok(rest);
    };
    if depth >= MAX_LEVELS {
        return Err(ParseFault::Unexpected { left: tokens.len() });
    }
    let mut list = Vec::new(alloc);
    let rest = elements(alloc, depth + 1, inner, &mut list)?;
    found.push(Argument::List(list))?;
    Ok(rest)
}

// expr { ',' expr } ']'
#[cycle(parser)]
fn elements<'a, 't>(
    alloc: Global,
    depth: usize,
    tokens: &'a [Token<'t>],
    found: &mut Vec<Expr>,
) -> Result<&'a [Token<'t>], ParseFault>
    requires none { found.old.items ≡ [] }
    ensures gives { Gives (λ rest. (views found.new.items, rest.now)) result (read (Items none) depth tokens.now) }
    ensures shorter { IfOk result (λ rest. length rest.now ≤ length tokens.now) }
{
    let mut rest = element(alloc, depth, tokens, found)?;
    while let [Token::Comma, after @ ..] = rest {
        rest = element(alloc, depth, after, found)?;
    }
    let [Token::CloseBracket, rest @ ..] = rest else {
        return Err(ParseFault::Unexpected { left: rest.len() });
    };
    Ok(rest)
}

// An element of a list, behind those that are found.
#[cycle(parser)]
fn element<'a, 't>(
    alloc: Global,
    depth: usize,
    tokens: &'a [Token<'t>],
    found: &mut Vec<Expr>,
) -> Result<&'a [Token<'t>], ParseFault>
    ensures gives { Gives (λ rest. (views found.new.items, rest.now)) result (item_behind read depth (views found.old.items) tokens.now) }
    ensures shorter { IfOk result (λ rest. length rest.now ≤ length tokens.now) }
{
    let mut value = Expr::Null;
    let rest = whole(alloc, depth, tokens, &mut value)?;
    found.push(value)?;
    Ok(rest)
}

#[cycle(parser)]
fn primary<'a, 't>(
    alloc: Global,
    depth: usize,
    tokens: &'a [Token<'t>],
    found: &mut Expr,
) -> Result<&'a [Token<'t>], ParseFault>
    ensures gives { Gives (λ rest. (view found.new, rest.now)) result (primary read depth tokens.now) }
    ensures shorter { IfOk result (λ rest. length rest.now ≤ length tokens.now) }
{
    let [first, rest @ ..] = tokens else {
        return Err(ParseFault::Unexpected { left: 0 });
    };
    *found = match first {
        Token::Number(value) => Expr::Number(*value),
        Token::Text(text) => Expr::Text(text.text(alloc)?),
        Token::True => Expr::True,
        Token::False => Expr::False,
        Token::Null => Expr::Null,
        Token::Name(word) => Expr::Variable(word.copy(alloc)?),
        Token::Capture(word) => Expr::Capture(word.copy(alloc)?),
        Token::OpenParenthesis => {
            if depth >= MAX_LEVELS {
                return Err(ParseFault::Unexpected { left: tokens.len() });
            }
            return group(alloc, depth, rest, found);
        }
        _ => return Err(ParseFault::Unexpected { left: tokens.len() }),
    };
    Ok(rest)
}

// expr ')'
#[cycle(parser)]
fn group<'a, 't>(
    alloc: Global,
    depth: usize,
    tokens: &'a [Token<'t>],
    found: &mut Expr,
) -> Result<&'a [Token<'t>], ParseFault>
    requires { depth < MAX_LEVELS }
    ensures gives { Gives (λ rest. (view found.new, rest.now)) result (group read depth tokens.now) }
    ensures shorter { IfOk result (λ rest. length rest.now ≤ length tokens.now) }
{
    let mut x = Box::new(alloc, Expr::Null)?;
    let rest = whole(alloc, depth + 1, tokens, &mut x)?;
    let [Token::CloseParenthesis, rest @ ..] = rest else {
        return Err(ParseFault::Unexpected { left: rest.len() });
    };
    *found = Expr::Group(x);
    Ok(rest)
}

// What is found, in a growth of its own, where another node is to stand in its place.
fn taken(alloc: Global, found: &mut Expr) -> Result<Box<Expr>, AllocError>
    ensures { IfOk result (λ inner. inner.value ≡ found.old) }
{
    Ok(Box::new(alloc, mem::replace(found, Expr::Null))?)
}
