//! The header of a script: the rules file that its requests are judged by, the opening tree, and the
//! tokens.
ghost use Rattle.std.specs.Prelude.{◌≡◌, ◌∷◌, [], Ok, Some, None, codes, Option, option_map};
ghost use Rattle.std.specs.List.{list_all, list_any};
ghost use Rattle.std.specs.Str.{bytes_eq};
ghost use Rattle.serde_json.specs.View.{view, members_view};
ghost use Rattle.path_capture.specs.Write.{tree_or_null};
ghost use Rattle.tokens.specs.Tokens.{names_of, has_only};
ghost use Rattle.json_lines.specs.Lines.{Tells};
ghost use Rattle.scripts.specs.Header.{header_of, opening_tree, opening_tokens};
ghost use Rattle.scripts.specs.Header.{Opens};
ghost use Rattle.scripts.specs.Working.Opening.{OpensBy, TellsTokens, fault_of_tokens, header_seen};
ghost use Rattle.serde_json.specs.Find.{get};
ghost use Rattle.serde_json.specs.Data.{Data as AnyData};
ghost use Rattle.scripts.specs.declared.header.HeaderFault.TheVariants.{Line as of_line, Rules as of_rules};

use json_lines::{MemberName, MessageFault, Source, read_value, tree_of_given};
use json_tree::Node;
use rtdb_core::Core;
use rules_reader::{Rules, RulesFault, compile};
use serde_json::{Map, Value};
use std::alloc::Global;
use tokens::{Tokens, TokensFault};

/// Why a header is refused: a fault of the line, of the rules file in it, of the opening tree, or of the
/// tokens.
#[derive(Debug, Drop)]
pub enum HeaderFault {
    Line(MessageFault),
    Rules(RulesFault),
    /// A key or a primitive of the opening tree is not lawful, or one stands too deep.
    Data(MessageFault),
    /// What stands under `tokens` is invalid.
    BadTokens,
    /// The opening tree has more locations than may be.
    TreeFull,
}

impl From<MessageFault> for HeaderFault {
    ghost from_gives = { λ fault header. header ≡ of_line fault };

    fn from(fault: MessageFault) -> HeaderFault {
        HeaderFault::Line(fault)
    }
}

impl From<RulesFault> for HeaderFault {
    ghost from_gives = { λ fault header. header ≡ of_rules fault };

    fn from(fault: RulesFault) -> HeaderFault {
        HeaderFault::Rules(fault)
    }
}

// What a header has.
#[derive(Clone, Copy)]
struct Header<'a> {
    rules: &'a str,
    tokens: Option<&'a Value>,
}

/// What a header opens: a database, and who may sign in to it.
#[derive(Drop)]
pub struct Opened {
    pub core: Core,
    pub tokens: Tokens,
}

/// The database that a header opens, with its tokens, or its first fault: a pass over the line, those of
/// its rules file, and two each over its data and its tokens.
#[tactic(auto, unfolding(crate::specs::Header::header_in))]
pub fn read_header(alloc: Global, line: &[u8]) -> Result<Opened, HeaderFault>
    ensures { Opens line.now result }
{
    let value = read_value(alloc, line)?;
    let Some(header) = header_of(&value) else {
        return Err(HeaderFault::Line(MessageFault::BadRequest));
    };
    let rules = compile(alloc, header.rules.as_bytes())?;
    // No object of theirs has two captures.
    rules.root();
    // They are read before the value is taken apart, and their fault is reported behind that of its tree.
    let tokens = opening_tokens(alloc, header.tokens);
    open(alloc, rules, opening_of(value), tokens)
}

// The member `data` of a header, of which all else is let go.
fn opening_of(mut value: Value) -> Option<Value>
    ensures { option_map (λ opening. view opening) result ≡ get (codes "data") (view value) }
{
    Some(value.get_mut("data")?.take())
}

// What these rules open, with the tree of this value and these tokens.
fn open(
    alloc: Global,
    rules: Rules,
    opening: Option<Value>,
    tokens: Result<Tokens, TokensFault>,
) -> Result<Opened, HeaderFault>
    ensures { (named : Option AnyData) → TellsTokens named tokens → OpensBy rules (option_map (λ value. view value) opening) named result }
{
    match opening_tree(alloc, opening) {
        Ok(tree) => with_tree(alloc, rules, tree, tokens),
        Err(fault) => Err(HeaderFault::Data(fault)),
    }
}

fn with_tree(
    alloc: Global,
    rules: Rules,
    tree: Option<Node>,
    tokens: Result<Tokens, TokensFault>,
) -> Result<Opened, HeaderFault>
    ensures { (value named : Option AnyData) → opening_tree value ≡ Ok (tree_or_null tree) → TellsTokens named tokens → OpensBy rules value named result }
{
    match tokens {
        Ok(tokens) => with_tokens(alloc, rules, tree, tokens),
        Err(fault) => Err(fault_of_tokens(fault)),
    }
}

fn fault_of_tokens(fault: TokensFault) -> HeaderFault
    ensures { result ≡ fault_of_tokens fault }
{
    match fault {
        TokensFault::BadTokens => HeaderFault::BadTokens,
        TokensFault::NoMemory => HeaderFault::Line(MessageFault::NoMemory),
    }
}

fn with_tokens(
    alloc: Global,
    rules: Rules,
    tree: Option<Node>,
    tokens: Tokens,
) -> Result<Opened, HeaderFault>
    ensures { (value named : Option AnyData) → opening_tree value ≡ Ok (tree_or_null tree) → opening_tokens named ≡ Some tokens → OpensBy rules value named result }
{
    match Core::new(alloc, rules, tree) {
        Ok(core) => Ok(Opened { core, tokens }),
        Err(_) => Err(HeaderFault::TreeFull),
    }
}

// The tokens of the member `tokens`: none where there is none.
fn opening_tokens(alloc: Global, named: Option<&Value>) -> Result<Tokens, TokensFault>
    ensures { TellsTokens (option_map (λ value. view value.now) named.entry) result }
{
    match named {
        Some(value) => Tokens::from_json(alloc, value),
        None => Ok(Tokens::new(alloc)),
    }
}

// The tree of the member `data`: null where there is none.
fn opening_tree(alloc: Global, opening: Option<Value>) -> Result<Option<Node>, MessageFault>
    ensures { Tells tree_or_null result (opening_tree (option_map (λ value. view value) opening)) }
{
    match opening {
        Some(value) => tree_of_given(alloc, value),
        None => Ok(None),
    }
}

// The members of a header, where it has no other.
fn header_of(value: &Value) -> Option<Header<'_>>
    ensures { option_map (header_seen (get (codes "data") (view value.now))) result ≡ header_of (view value.now) }
{
    if !has_header_alone(value) {
        return None;
    }
    let rules = Source::Held(value).text_at(MemberName::Rules)?;
    Some(Header {
        rules,
        tokens: value.get("tokens"),
    })
}

fn has_header_alone(value: &Value) -> bool
    ensures { result ≡ has_only (codes "rules" ∷ codes "data" ∷ codes "tokens" ∷ []) (view value.now) }
{
    match value.as_object() {
        Some(members) => are_of_header(members),
        None => true,
    }
}

fn are_of_header(members: &Map<String, Value>) -> bool
    ensures { result ≡ list_all (λ name. list_any (bytes_eq name) (codes "rules" ∷ codes "data" ∷ codes "tokens" ∷ [])) (names_of (members_view members.now.entries)) }
{
    for (name, _) in members.iter() {
        if !is_of_header(name.as_str()) {
            return false;
        }
    }
    true
}

fn is_of_header(name: &str) -> bool
    ensures { result ≡ list_any (bytes_eq name.now) (codes "rules" ∷ codes "data" ∷ codes "tokens" ∷ []) }
{
    name == "rules" || name == "data" || name == "tokens"
}
