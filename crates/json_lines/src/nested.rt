//! The drafts that tokens are, and no more than what a message usually has: an array, an object in another
//! that has no members, null below the members of one, a name that stands twice and a number that is not
//! whole are left to the reader of JSON.
ghost use Rattle.std.specs.Prelude.{◌≡◌, ◌≤◌, ℕ, List, false, true, Some, IfSome, length, option_map};
ghost use Rattle.json.specs.Reads.{token_of};
ghost use Rattle.json.specs.Token.{Token as SpecToken};
ghost use Rattle.serde_json.specs.Data.{number, unsigned, string, object, no_members};
ghost use Rattle.serde_json.specs.Find.{of_integer};
ghost use Rattle.serde_json.specs.Read.{number_of, number_from};
ghost use Rattle.json_tree.specs.Leaf.{primitive_of};
ghost use Rattle.json_tree.specs.Json.{data_of, value_of};
ghost use Rattle.json_tree.specs.Draft.{value_of_draft};
ghost use Rattle.path_capture.specs.Write.{draft_or_null};
ghost use Rattle.json_lines.specs.DraftMembers.{members_named, drafts_named};
ghost use Rattle.json_lines.specs.Outline.{IsRead, IsObject, IsMoment, Gives};

use crate::children::Children;
use crate::draft_children::DraftChildren;
use crate::draft_members::DraftMembers;
use crate::token_reader::TokenReader;
use fast_float::Numeral;
use json::Token;
use json_tree::{Draft, Leaf, Node, Number, is_form_of, is_lawful_key};
use std::alloc::Global;
use tree_model::MAX_TEXT_BYTES;

// The greatest number that is positive in 64 bits with a sign.
const MAX_POSITIVE: u64 = i64::MAX as u64;

/// The members that tokens go on with, up to the closing brace, in which objects may nest so deep. None
/// where one of them is no draft, where a name stands twice, and where memory is wanted.
pub(crate) fn named_from<'a>(
    alloc: Global,
    reader: &mut TokenReader<'a>,
    depth: usize,
) -> Option<DraftMembers<'a>>
    ensures value { IfSome result (λ named. Gives depth reader.old (drafts_named named) reader.new) }
    ensures shorter { IfSome result (λ named. length reader.new ≤ length reader.old) }
{
    let mut named = DraftMembers::new(alloc);
    'members: while let Some(name) = reader.next_key()? {
        let token = reader.next()?;
        let draft = draft_or_null_from(alloc, reader, token, depth)?;
        named.put(name, draft)?;
    }
    Some(named)
}

// The draft that begins with a token and goes on in the reader, None inside for null.
fn draft_or_null_from<'a>(
    alloc: Global,
    reader: &mut TokenReader<'a>,
    token: Token<'a>,
    depth: usize,
) -> Option<Option<Draft>>
    ensures value { IfSome result (λ draft. IsRead depth (token_of token.entry) reader.old (value_of_draft (draft_or_null draft)) reader.new) }
    ensures shorter { IfSome result (λ draft. length reader.new ≤ length reader.old) }
{
    match token {
        Token::Null => Some(None),
        token => Some(Some(draft_from(alloc, reader, token, depth)?)),
    }
}

// The draft that begins with a token that is not null, and goes on in the reader. It is inlined into
// its callers: a draft that is handed back lies in memory, and is copied from there.
#[cycle(nested)]
#[inline(always)]
fn draft_from<'a>(
    alloc: Global,
    reader: &mut TokenReader<'a>,
    token: Token<'a>,
    depth: usize,
) -> Option<Draft>
    ensures value { IfSome result (λ draft. IsRead depth (token_of token.entry) reader.old (value_of_draft draft) reader.new) }
    ensures shorter { IfSome result (λ draft. length reader.new ≤ length reader.old) }
{
    match token {
        Token::BeginObject => if depth == 0 {
            None
        } else {
            object_from(alloc, reader, depth - 1)
        },
        token => Some(Draft::fixed(leaf_from(alloc, token)?)),
    }
}

// The leaf that a token is.
#[inline(always)]
fn leaf_from(alloc: Global, token: Token<'_>) -> Option<Node>
    ensures { IfSome result (λ node. (depth : ℕ) (behind : List SpecToken) → IsRead depth (token_of token.entry) behind (value_of node) behind) }
{
    match token {
        Token::String(text) => node_of_text(alloc, text),
        Token::Number(text) => node_of_number(text),
        Token::Bool(truth) => node_of_leaf(Leaf::Truth(truth)),
        _ => None,
    }
}

// The draft whose children tokens go on with, up to the closing brace. None where there is no child or one of them is
// no draft, where a key stands twice, and where memory is wanted.
#[cycle(nested)]
fn object_from<'a>(alloc: Global, reader: &mut TokenReader<'a>, depth: usize) -> Option<Draft>
    ensures value { IfSome result (λ draft. IsObject depth no_members reader.old draft reader.new) }
    ensures shorter { IfSome result (λ draft. length reader.new ≤ length reader.old) }
{
    let mut children = Children::new(alloc)?;
    'children: while let Some(name) = reader.next_key()? {
        let token = reader.next()?;
        if !is_lawful_key(name) {
            if !children.is_empty() {
                return None;
            }
            return moment_from(alloc, reader, name, token);
        }
        let draft = draft_from(alloc, reader, token, depth)?;
        if !draft.is_fixed() {
            let mut drafts = DraftChildren::of(alloc, children)?;
            drafts.put(alloc, name, draft)?;
            return drafts_from(alloc, reader, depth, drafts);
        }
        children.put(alloc, name, draft.into_at_zero())?;
    }
    Some(Draft::fixed(node_of(children)?))
}

// The same, where these are there, since a moment stands among them.
#[cycle(nested)]
fn drafts_from<'a>(
    alloc: Global,
    reader: &mut TokenReader<'a>,
    depth: usize,
    drafts: DraftChildren,
) -> Option<Draft>
    ensures value { IfSome result (λ draft. IsObject depth (drafts_named drafts) reader.old draft reader.new) }
    ensures shorter { IfSome result (λ draft. length reader.new ≤ length reader.old) }
{
    let mut drafts = drafts;
    'children: while let Some(name) = reader.next_key()? {
        if !is_lawful_key(name) {
            return None;
        }
        let token = reader.next()?;
        let draft = draft_from(alloc, reader, token, depth)?;
        drafts.put(alloc, name, draft)?;
    }
    draft_of(alloc, drafts)
}

// The moment, where an object begins with a member of an unlawful key: that member is the form, and stands alone.
fn moment_from<'a>(
    alloc: Global,
    reader: &mut TokenReader<'a>,
    name: &str,
    token: Token<'a>,
) -> Option<Draft>
    ensures { IfSome result (λ draft. IsMoment name.now (token_of token.entry) reader.old draft reader.new) }
{
    let Token::String(text) = token else {
        return None;
    };
    if !is_form_of(name, text) || reader.next_key()?.is_some() {
        return None;
    }
    Draft::moment(alloc).ok()
}

// The node with these children. None where there is no child.
fn node_of(children: Children) -> Option<Node>
    ensures { IfSome result (λ node. value_of node ≡ object (members_named children)) }
{
    if children.is_empty() {
        None
    } else {
        children.into_node().ok()
    }
}

// The draft with these children. None where there is no child.
fn draft_of(alloc: Global, children: DraftChildren) -> Option<Draft>
    ensures { IfSome result (λ draft. value_of_draft draft ≡ object (drafts_named children)) }
{
    if children.is_empty() {
        None
    } else {
        children.into_draft(alloc).ok()
    }
}

fn node_of_text(alloc: Global, text: &str) -> Option<Node>
    ensures { IfSome result (λ node. value_of node ≡ string text.now) }
{
    if text.len() > MAX_TEXT_BYTES {
        return None;
    }
    let leaf = Leaf::words(alloc, text).ok()?;
    node_of_leaf(leaf)
}

fn node_of_leaf(leaf: Leaf) -> Option<Node>
    ensures { IfSome result (λ node. value_of node ≡ data_of (primitive_of leaf)) }
{
    let node = Node::of_leaf(leaf).ok()?;
    Some(node)
}

fn node_of_number(text: &str) -> Option<Node>
    ensures { IfSome result (λ node. option_map number (number_of text.now) ≡ Some (value_of node)) }
{
    let whole = Number::new(integer_of(text)?)?;
    node_of_leaf(Leaf::Whole(whole))
}

/// The tree of a whole number that is not negative. None where it is over the limit.
pub(crate) fn node_of_whole(whole: u64) -> Option<Node>
    ensures { IfSome result (λ node. value_of node ≡ number (unsigned whole)) }
{
    if whole > MAX_POSITIVE {
        return None;
    }
    let number = Number::new(whole as i64)?;
    node_of_leaf(Leaf::Whole(number))
}

// The whole number from -2^63 to 2^63 - 1 that a number's text is.
fn integer_of(text: &str) -> Option<i64>
    ensures { IfSome result (λ integer. number_of text.now ≡ Some (of_integer integer)) }
{
    match positive_of(text) {
        Some(positive) => Some(positive),
        None => negative_of(text),
    }
}

// The whole number from 0 to 2^63 - 1 that a number's text is.
fn positive_of(text: &str) -> Option<i64>
    ensures { IfSome result (λ positive. number_of text.now ≡ Some (of_integer positive)) }
{
    let whole = whole_of(text)?;
    if whole <= MAX_POSITIVE {
        Some(whole as i64)
    } else {
        None
    }
}

/// The whole number from 0 to 2^64 - 1 that a number's text is.
pub(crate) fn whole_of(text: &str) -> Option<u64>
    ensures { IfSome result (λ whole. number_of text.now ≡ Some (unsigned whole)) }
{
    let bytes = text.as_bytes();
    if bytes.is_empty() || bytes[0] == b'-' {
        return None;
    }
    whole_in(&Numeral::scan(bytes))
}

fn whole_in(numeral: &Numeral<'_>) -> Option<u64>
    ensures { IfSome result (λ whole. number_from false numeral.now ≡ Some (unsigned whole)) }
{
    numeral.to_u64()
}

/// The whole number from -2^63 to -1 that a number's text is.
pub(crate) fn negative_of(text: &str) -> Option<i64>
    ensures { IfSome result (λ negative. number_of text.now ≡ Some (of_integer negative)) }
{
    let bytes = text.as_bytes();
    if bytes.is_empty() || bytes[0] != b'-' {
        return None;
    }
    negative_in(&Numeral::scan(&bytes[1..]))
}

fn negative_in(numeral: &Numeral<'_>) -> Option<i64>
    ensures { IfSome result (λ negative. number_from true numeral.now ≡ Some (of_integer negative)) }
{
    let number = numeral.to_i64(true)?;
    if number < 0 { Some(number) } else { None }
}
