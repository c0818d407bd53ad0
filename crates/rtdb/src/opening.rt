//! What a server begins with: the bytes of its files, and the database that they open.
ghost use Rattle.std.specs.Prelude.{◌≡◌, ℕ, List, Option, Some, option_map};
ghost use Rattle.serde_json.specs.Data.{Data as AnyData};
ghost use Rattle.serde_json.specs.View.{view};
ghost use Rattle.path_capture.specs.Write.{tree_or_null};
ghost use Rattle.json_lines.specs.Lines.{Tells, or_fault};
ghost use Rattle.json_lines.specs.declared.fault.MessageFault.TheVariants.{BadJson};
ghost use Rattle.tokens.specs.Tokens.{json_of};
ghost use Rattle.scripts.specs.Header.{opening_tree};
ghost use Rattle.rtdb.specs.Working.{fault_of_tokens};
ghost use Rattle.rtdb.specs.Opening.{Begins, BeginsBy, TellsTokens, bytes_of, opening_value, told_tokens};

use json_lines::{MessageFault, tree_of_given};
use json_tree::Node;
use rtdb_core::Core;
use rules_reader::{Rules, compile};
use scripts::{HeaderFault, Opened};
use serde_json::Value;
use std::alloc::Global;
use tokens::{Tokens, TokensFault};

/// The bytes of a server's files.
#[derive(Drop)]
pub struct Contents {
    pub rules: Vec<u8>,
    pub data_bytes: Option<Vec<u8>>,
    pub tokens: Option<Vec<u8>>,
}

/// The database that these files open, and who may sign in to it; or their first fault: that the opening tree is no
/// JSON, then those of a script's header, in its order. It makes one pass over each file for its value, and those
/// of its rules.
pub fn open_contents(alloc: Global, contents: &Contents) -> Result<Opened, HeaderFault>
    ensures { Begins (bytes_of contents.now) result }
{
    let opening = opening_value(alloc, contents.data_bytes.as_ref())?;
    let rules = compile(alloc, &contents.rules)?;
    // They are read before the tree is made, and their fault comes behind that of the tree.
    let tokens = opening_tokens(alloc, contents.tokens.as_ref());
    open(alloc, rules, opening, tokens)
}

// What these rules open, with the tree of this value and these tokens.
fn open(
    alloc: Global,
    rules: Rules,
    opening: Option<Value>,
    tokens: Result<Tokens, TokensFault>,
) -> Result<Opened, HeaderFault>
    ensures { (told : _) → TellsTokens told tokens → BeginsBy rules (option_map (λ value. view value) opening) told result }
{
    match opening_tree(alloc, opening) {
        Ok(tree) => with_tree(alloc, rules, tree, tokens),
        Err(fault) => Err(HeaderFault::Data(fault)),
    }
}

fn with_tree(
    alloc: Global,
    rules: Rules,
    tree: Option<Node>,
    tokens: Result<Tokens, TokensFault>,
) -> Result<Opened, HeaderFault>
    ensures { (value : Option AnyData) (told : _) → opening_tree value ≡ Ok (tree_or_null tree) → TellsTokens told tokens → BeginsBy rules value told result }
{
    match tokens {
        Ok(tokens) => with_tokens(alloc, rules, tree, tokens),
        Err(fault) => Err(fault_of_tokens(fault)),
    }
}

fn fault_of_tokens(fault: TokensFault) -> HeaderFault
    ensures { result ≡ fault_of_tokens fault }
{
    match fault {
        TokensFault::BadTokens => HeaderFault::BadTokens,
        TokensFault::NoMemory => HeaderFault::Line(MessageFault::NoMemory),
    }
}

fn with_tokens(
    alloc: Global,
    rules: Rules,
    tree: Option<Node>,
    tokens: Tokens,
) -> Result<Opened, HeaderFault>
    ensures { (value : Option AnyData) → opening_tree value ≡ Ok (tree_or_null tree) → BeginsBy rules value (Some tokens) result }
{
    match Core::new(alloc, rules, tree) {
        Ok(core) => Ok(Opened { core, tokens }),
        Err(_) => Err(HeaderFault::TreeFull),
    }
}

// The value of the file of the opening tree: none where there is no file.
fn opening_value(alloc: Global, file: Option<&Vec<u8>>) -> Result<Option<Value>, MessageFault>
    ensures { Tells (option_map view) result (opening_value (option_map (λ bytes. bytes.now.items) file.entry)) }
{
    match file {
        Some(bytes) => Ok(Some(read_json(alloc, bytes)?)),
        None => Ok(None),
    }
}

#[tactic(auto, unfolding(tokens::specs::Tokens::json_of))]
fn read_json(alloc: Global, bytes: &[u8]) -> Result<Value, MessageFault>
    ensures { Tells view result (or_fault BadJson (json_of bytes.now)) }
{
    match Value::from_slice(alloc, bytes) {
        Ok(value) => Ok(value),
        Err(fault) => if fault.is_memory() {
            Err(MessageFault::NoMemory)
        } else {
            Err(MessageFault::BadJson)
        },
    }
}

// The tree of a value: none where there is no value.
fn opening_tree(alloc: Global, opening: Option<Value>) -> Result<Option<Node>, MessageFault>
    ensures { Tells tree_or_null result (opening_tree (option_map (λ value. view value) opening)) }
{
    match opening {
        Some(value) => tree_of_given(alloc, value),
        None => Ok(None),
    }
}

// The tokens of their file: none where there is no file.
fn opening_tokens(alloc: Global, file: Option<&Vec<u8>>) -> Result<Tokens, TokensFault>
    ensures { TellsTokens (told_tokens (option_map (λ bytes. bytes.now.items) file.entry)) result }
{
    match file {
        Some(bytes) => Tokens::read(alloc, bytes),
        None => Ok(Tokens::new(alloc)),
    }
}
