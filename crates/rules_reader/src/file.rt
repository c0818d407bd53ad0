//! From the bytes of a rules file to its rules.
ghost use Rattle.std.specs.Prelude.{◌≡◌, ◌≢◌, ◌<◌, ◌≤◌, ℕ, List, ◌⊎◌, true, length, Some, None, option_map, IfOk, IfErr, IfSome, IsErrOf};
ghost use Rattle.serde_json.specs.View.{view};
ghost use Rattle.rules_reader.specs.File.{is_object, json_of, ReadsAs, top, States};
ghost use Rattle.rules_reader.specs.Refusal.{Refuses, reason};
ghost use Rattle.rules_reader.specs.Book.{Book};
ghost use Rattle.rules_reader.specs.Place.{HasOneCapture};
ghost use Rattle.rules_reader.specs.declared.fault.RulesFault.{RulesFault as RulesFaultValue};

use crate::fault::RulesFault;
use crate::limits::{MAX_FILE_BYTES, MAX_RULES};
use crate::objects::build;
use crate::plain_text::{is_plain, plain};
use crate::rules::Rules;
use crate::shape::count_rules;
use path_capture::Pattern;
use serde_json::Value;
use std::alloc::Global;

// What the plain text of a file is as JSON, if the file is not too long.
fn read(alloc: Global, bytes: &[u8]) -> Result<Value, RulesFault>
    ensures ok { IfOk result (λ value. ReadsAs bytes.now (Some (view value))) }
    ensures err { IfErr result (λ fault. (fault ≡ RulesFault.NoMemory) ⊎ ((fault ≡ RulesFault.BadRulesJson) × ReadsAs bytes.now None)) }
    ensures too_long { MAX_FILE_BYTES < length bytes.now → IsErrOf result RulesFault.BadRulesJson }
{
    if bytes.len() > MAX_FILE_BYTES {
        return Err(RulesFault::BadRulesJson);
    }
    if is_plain(bytes) {
        return read_text(alloc, bytes);
    }
    let text = plain(alloc, bytes)?;
    read_text(alloc, &text)
}

// The JSON value of a text.
fn read_text(alloc: Global, text: &[u8]) -> Result<Value, RulesFault>
    requires { length text.now ≤ MAX_FILE_BYTES }
    ensures ok { IfOk result (λ value. json_of text.now ≡ Some (view value)) }
    ensures err { IfErr result (λ fault. (fault ≡ RulesFault.NoMemory) ⊎ ((fault ≡ RulesFault.BadRulesJson) × (json_of text.now ≡ None))) }
{
    match Value::from_slice(alloc, text) {
        Ok(value) => Ok(value),
        Err(error) => if error.is_memory() {
            Err(RulesFault::NoMemory)
        } else {
            Err(RulesFault::BadRulesJson)
        },
    }
}

// What stands under `rules`, if the value is an object with this one member, an object.
fn top(value: &Value) -> Option<&Value>
    ensures value { option_map (λ v. view v.now) result ≡ top (view value.now) }
    ensures object { IfSome result (λ v. is_object (view v.now) ≡ true) }
{
    let mut members = value.as_object()?.iter();
    let (name, rules) = members.next()?;
    if members.next().is_none() && name.as_str() == "rules" && rules.is_object() {
        Some(rules)
    } else {
        None
    }
}

/// The rules of a rules file: of its plain text, which takes as much memory as the file has bytes
/// until it is read, and none where the file has no slash and no ASCII control character below a
/// space. It makes a few passes over the bytes and over each object, with a copy of the pattern of
/// each; the rules do not borrow the bytes. (Guide "Core syntax"; comments, the limits and what counts
/// as one fault of many are this project's profile.)
pub fn compile(alloc: Global, bytes: &[u8]) -> Result<Rules, RulesFault>
    ensures accepted { IfOk result (States bytes.now) }
    ensures refused { IfErr result (Refuses bytes.now) }
    ensures too_long { MAX_FILE_BYTES < length bytes.now → IsErrOf result RulesFault.BadRulesJson }
{
    let value = read(alloc, bytes)?;
    let Some(rules) = top(&value) else {
        return Err(RulesFault::BadRulesShape(Pattern::new(alloc)));
    };
    let count = count_rules(alloc, rules, &mut Pattern::new(alloc))?;
    if count > MAX_RULES {
        return Err(RulesFault::TooManyRules);
    }
    let root = build(alloc, rules, Pattern::new(alloc))?;
    root.law();
    Ok(Rules::of_root(alloc, root, count)?)
}

/// A file states at most one book, or is refused for at most one reason, and never both; but for want
/// of memory. It does nothing.
pub fn a_file_has_one_answer()
    ensures one_book { (bytes : List ℕ) (a b : Book) → States bytes a → States bytes b → a ≡ b }
    ensures one_reason { (bytes : List ℕ) (d e : RulesFaultValue) → Refuses bytes d → Refuses bytes e → d ≢ RulesFault.NoMemory → e ≢ RulesFault.NoMemory → reason d ≡ reason e }
    ensures never_both { (bytes : List ℕ) (book : Book) (fault : RulesFaultValue) → States bytes book → Refuses bytes fault → fault ≡ RulesFault.NoMemory }
{}

/// A file states a book, or is refused, and not for want of memory; and in each object of what it
/// states at most one part is a capture. It does nothing.
pub fn each_file_has_an_answer()
    ensures some { (bytes : List ℕ) → ((book : Book) × States bytes book) ⊎ ((fault : RulesFaultValue) × Refuses bytes fault × (fault ≢ RulesFault.NoMemory)) }
    ensures one_capture { (bytes : List ℕ) (book : Book) → States bytes book → HasOneCapture book }
{}
