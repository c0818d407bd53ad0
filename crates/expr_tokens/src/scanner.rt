//! From a text to its tokens.
ghost use Rattle.std.specs.Prelude.{◌≡◌, List, ℕ, ◌⊎◌, IfOk, IfErr};
ghost use Rattle.expr_tokens.specs.declared.fault.ExprFault.{ExprFault};
ghost use Rattle.expr_tokens.specs.declared.fault.ExprFault.TheVariants.{NoMemory, BadExpression};
ghost use Rattle.expr_tokens.specs.declared.token.Token.{Token};
ghost use Rattle.expr_tokens.specs.Spelling.{SpellsTokens, ArePlaces, is_dot, most_bytes};
ghost use Rattle.expr_tokens.specs.Faults.{IsEarliest};
ghost use Rattle.expr_tokens.specs.Answers.{AnswersThis, AnswersFault};
ghost use Rattle.expr_tokens.specs.Working.Scanning.{capped};

use crate::fault::ExprFault;
use crate::front::{front, past_blanks};
use crate::limits::MAX_EXPRESSION_BYTES;
use crate::token::Token;
use std::alloc::Global;

// For how many tokens the list has room at first: as many as most rules have.
const USUAL_TOKENS: usize = 32;

/// The tokens of a text, and beside each the byte where it begins.
#[derive(Debug, Drop)]
pub struct Scanned<'a> {
    pub tokens: Vec<Token<'a>>,
    pub places: Vec<usize>,
}

/// The tokens that the text spells, or its earliest fault.
///
/// It goes over the text once, reads each byte a bounded number of times, and copies none of it: the
/// tokens borrow their words. The list has room for 32 at first, and doubles where it has more. Of a text that is too long, no token that begins
/// at byte 4096 or behind it is read. What may fail but for a fault is memory alone.
pub fn tokens<'a>(alloc: Global, text: &'a str) -> Result<Vec<Token<'a>>, ExprFault>
    // What is answered is spelled.
    ensures found { IfOk result (λ found. SpellsTokens text.now found.items) }
    // What is spelled is answered, unless memory is refused.
    ensures only { (us : List Token) → SpellsTokens text.now us → AnswersThis NoMemory (λ found. found.items) us result }
    // What is refused has this fault as its earliest, unless memory is refused.
    ensures fault { IfErr result (λ fault. (fault ≡ NoMemory) ⊎ IsEarliest text.now fault) }
    // The earliest fault is answered, unless memory is refused.
    ensures earliest { (fault : ExprFault) → IsEarliest text.now fault → AnswersFault fault result }
{
    Ok(scan(alloc, text)?.tokens)
}

/// A text spells at most one list of tokens.
pub fn one_list()
    ensures { (text : List ℕ) (us vs : List Token) → SpellsTokens text us → SpellsTokens text vs → us ≡ vs }
{}

/// A text has at most one earliest fault, and where it spells tokens it has none.
pub fn one_fault()
    ensures one { (text : List ℕ) (one other : ExprFault) → IsEarliest text one → IsEarliest text other → one ≡ other }
    ensures none { (text : List ℕ) (us : List Token) (fault : ExprFault) → SpellsTokens text us → ¬ (IsEarliest text fault) }
{}

/// A text spells tokens, or has an earliest fault.
pub fn each_text_has_tokens_or_a_fault()
    ensures { (text : List ℕ) → ((us : List Token) × SpellsTokens text us) ⊎ ((fault : ExprFault) × IsEarliest text fault) }
{}

/// The same as [`tokens`], with the byte where each token begins.
pub fn scan<'a>(alloc: Global, text: &'a str) -> Result<Scanned<'a>, ExprFault>
    ensures found { IfOk result (λ found. SpellsTokens text.now found.tokens.items) }
    ensures places { IfOk result (λ found. ArePlaces text.now found.tokens.items found.places.items) }
    ensures fault { IfErr result (λ fault. (fault ≡ NoMemory) ⊎ IsEarliest text.now fault) }
{
    let mut tokens = Vec::with_capacity(alloc, USUAL_TOKENS)?;
    let mut places = Vec::with_capacity(alloc, USUAL_TOKENS)?;
    let mut after_dot = false;
    let mut rest = past_blanks(text);
    while !rest.is_empty() {
        let place = text.len() - rest.len();
        if place >= MAX_EXPRESSION_BYTES {
            return Err(too_long());
        }
        let (token, behind) = match front(after_dot, place, rest) {
            Ok(found) => found,
            Err(fault) => return Err(capped(fault)),
        };
        after_dot = is_dot(&token);
        tokens.push(token)?;
        places.push(place)?;
        rest = past_blanks(behind);
    }
    if text.len() > MAX_EXPRESSION_BYTES {
        return Err(too_long());
    }
    Ok(Scanned { tokens, places })
}

fn is_dot(token: &Token) -> bool
    ensures { result ≡ is_dot token.now }
{
    matches!(token, Token::Dot)
}

fn too_long() -> ExprFault
    ensures { result ≡ BadExpression most_bytes }
{
    ExprFault::BadExpression {
        byte: MAX_EXPRESSION_BYTES,
    }
}

// The fault of a token, or that of the length, which comes before it at the byte that is one too
// many.
fn capped(fault: ExprFault) -> ExprFault
    ensures { result ≡ capped fault }
{
    match fault {
        ExprFault::BadExpression { byte } => ExprFault::BadExpression {
            byte: byte.min(MAX_EXPRESSION_BYTES),
        },
        _ => fault,
    }
}
