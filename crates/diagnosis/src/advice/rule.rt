//! What to do about a rule that is invalid.

use super::index::advice_on_index;
use super::near::nearest;
use super::quotes::{
    Quotes, around_sign, ends_operand, first_name, is_of_name, last_name, last_word, trimmed,
};
use super::sorts::advice_on_sorts;
use super::uses::{advice_on_use, is_use};
use crate::outline::append_short;
use expr_parser::MAX_LEVELS;
use expr_tokens::MAX_EXPRESSION_BYTES;
use json_tree::NoMemory;
use path_capture::{Part, Pattern};
use rules_reader::{LeftOut, RuleFault, RuleName};
use std::alloc::Global;

/// What to do about a fault of a rule, whose text it is.
pub(crate) fn advice_on_rule(
    alloc: Global,
    fault: &RuleFault,
    rule: &RuleName,
    text: &str,
) -> Result<String, NoMemory> {
    match fault {
        RuleFault::BadExpression { byte } => advice_on_byte(alloc, text.as_bytes(), *byte),
        RuleFault::NotInProfile(LeftOut::Name(name)) => Ok(format!(in alloc;
            "`{}` is not in this language: {}",
            name.as_str(),
            instead_of(name.as_str())
        )?),
        RuleFault::NotInProfile(LeftOut::Sign(sign)) => match sign.name() {
            "[" => advice_on_index(alloc, text.as_bytes()),
            sign => Ok(String::from_str(alloc, advice_on_left_out(sign, text.as_bytes()))?),
        },
        RuleFault::TypeError => advice_on_sorts(alloc, rule, text),
        RuleFault::UnknownName(name) => match advice_on_use(alloc, rule, text)? {
            Some(words) => Ok(words),
            None => if name.as_str().starts_with('$') {
                advice_on_capture(alloc, name.as_str(), &rule.pattern)
            } else {
                advice_on_variable(alloc, name.as_str(), rule, text)
            },
        },
    }
}

// ---- no expression

// What to do about a text with which no expression goes on from a byte on.
fn advice_on_byte(alloc: Global, text: &[u8], byte: usize) -> Result<String, NoMemory> {
    let is_short = text.len() <= MAX_EXPRESSION_BYTES;
    match unclosed_text(text) {
        Some(unclosed) if byte >= text.len() && is_short => advice_on_unclosed(alloc, unclosed),
        _ => Ok(String::from_str(alloc, advice_from_byte(text, byte))?),
    }
}

fn advice_from_byte(text: &[u8], byte: usize) -> &'static str {
    if byte == MAX_EXPRESSION_BYTES && text.len() > MAX_EXPRESSION_BYTES {
        return "a rule has at most 4,096 bytes, and this one has more";
    }
    let Some((front, rest)) = text.split_at_checked(byte) else {
        return "no expression goes on here";
    };
    if rest.is_empty() {
        return advice_on_end(front);
    }
    if let Some(words) = advice_on_sign(front, rest) {
        return words;
    }
    if let Some(words) = advice_on_word(front, rest) {
        return words;
    }
    advice_on_order(front, rest)
}

// How many characters are shown of a text that is not closed, with its quote.
const SHOWN_OF_A_TEXT: usize = 20;

// What to do about a text that ends in quotes, which are those of the first of these bytes.
fn advice_on_unclosed(alloc: Global, unclosed: &[u8]) -> Result<String, NoMemory> {
    let mut words = String::from_str(alloc, "a text is not closed: the one that begins with ")?;
    let shown = String::from_utf8_lossy(alloc, unclosed)?;
    append_short(&shown, SHOWN_OF_A_TEXT, &mut words)?;
    words.push_str(match unclosed {
        [b'\'', ..] => " has no second ', or has one inside of it, which is written \\\\'",
        _ => " has no second \\\"",
    })?;
    Ok(words)
}

// What to do about a text that ends too early.
fn advice_on_end(text: &[u8]) -> &'static str {
    match last_word(text) {
        None => return "a rule may not be empty: write an expression, true or false",
        Some(b'.') => return "a name is missing after the dot",
        Some(b'&' | b'|' | b'=' | b'<' | b'>' | b'!' | b'+' | b'-' | b'*' | b'%' | b'?' | b':') =>
            return "an operand is missing after the last operator",
        _ => {}
    }
    let open = Open::behind(text);
    if open.brackets > 0 {
        "a list is not closed: a ] is missing"
    } else if open.parentheses > 0 {
        "a parenthesis is not closed: a ) is missing"
    } else if open.questions > 0 {
        "a `?` needs both of its parts: `condition ? this : that`"
    } else {
        "the rule ends too early"
    }
}

// What is open behind the front of a text.
#[derive(Clone, Copy)]
struct Open {
    parentheses: usize,
    brackets: usize,
    questions: usize,
    signs: usize,
}

impl Open {
    fn behind(text: &[u8]) -> Open {
        let mut open = Open {
            parentheses: 0,
            brackets: 0,
            questions: 0,
            signs: 0,
        };
        let mut quotes = Quotes::new();
        for byte in text {
            if quotes.open().is_none() {
                open.take(*byte);
            }
            quotes.take(*byte);
        }
        open
    }

    fn take(&mut self, byte: u8) {
        match byte {
            b'(' => self.parentheses = self.parentheses.saturating_add(1),
            b')' => self.parentheses = self.parentheses.saturating_sub(1),
            b'[' => self.brackets = self.brackets.saturating_add(1),
            b']' => self.brackets = self.brackets.saturating_sub(1),
            b'?' => self.questions = self.questions.saturating_add(1),
            b':' => self.questions = self.questions.saturating_sub(1),
            _ => {}
        }
        if matches!(byte, b'!' | b'-') {
            self.signs = self.signs.saturating_add(1);
        } else if !matches!(byte, b' ' | b'(') {
            self.signs = 0;
        }
    }

    // How many levels are open, about.
    fn levels(self) -> usize {
        self.parentheses
            .saturating_add(self.brackets)
            .saturating_add(self.questions)
            .saturating_add(self.signs)
    }
}

// What to do about a sign that no token begins with, or a quote that is not straight.
fn advice_on_sign(front: &[u8], rest: &[u8]) -> Option<&'static str> {
    match rest {
        [b'=', ..] if matches!(front.last(), Some(b'<' | b'>' | b'!' | b'=')) => {
            Some(advice_on_signs(front))
        }
        [b'=', b'>', ..] => Some("`=>` is no operator: write `>=`"),
        [b'=', b'<', ..] => Some("`=<` is no operator: write `<=`"),
        [b'=', b'!', ..] => Some("`=!` is no operator: write `!=`"),
        [b'=', b'=', ..] => None,
        [b'=', ..] if matches!(last_word(front), Some(b'<' | b'>' | b'!' | b'=')) => {
            Some("no space may stand in an operator, as in `>=`")
        }
        [b'=', ..] => Some("`=` compares nothing: write `==`"),
        [b'&', b'&', ..] | [b'|', b'|', ..] => None,
        [b'&', ..] => Some("`&` is no operator: write `&&`"),
        [b'|', ..] => Some("`|` is no operator: write `||`"),
        [b'>', ..] if front.last() == Some(&b'<') => Some("`<>` is no operator: write `!=`"),
        [b';', rest @ ..] if rest.trim_ascii_start().is_empty() => {
            Some("`;` may not stand in a rule: remove it")
        }
        [b';', ..] => Some("`;` may not stand in a rule: join conditions by `&&`"),
        [b'{' | b'}', ..] => Some("{ and } may not stand in a rule"),
        [b'\\', ..] => Some(advice_on_backslash(front)),
        [b'`', ..] | [0xE2, 0x80, 0x98..=0x9F, ..] => {
            Some("a text must be in straight quotes, as 'text'")
        }
        [0x80..=0xFF, ..] => Some("this character may only stand in a text, between ' and '"),
        [b'$', next, ..] if is_of_name(*next) => None,
        [b'$', ..] => Some("a `$` must be followed by the name of a capture, as in `$room`"),
        [b'@' | b'#' | b'^' | b'~' | 0..=0x1F, ..] => {
            Some("this character may only stand in a text, between ' and '")
        }
        _ => None,
    }
}

// What to do about an equals sign too many behind an operator, with which these bytes end.
fn advice_on_signs(front: &[u8]) -> &'static str {
    let signs = front
        .iter()
        .rev()
        .take_while(|byte| matches!(**byte, b'<' | b'>' | b'!' | b'='))
        .count();
    let begin = front.len().saturating_sub(signs);
    match front.get(begin) {
        Some(b'<') => "this equals sign is one too many: write `<=`",
        Some(b'>') => "this equals sign is one too many: write `>=`",
        Some(b'!') => "this equals sign is one too many: write `!=`",
        _ => "this equals sign is one too many: write `==`",
    }
}

fn advice_on_backslash(front: &[u8]) -> &'static str {
    if Quotes::behind(front).open().is_some() {
        "there is no such escape: a backslash is followed by one of \\ ' \" / b f n r t, or u and four digits"
    } else {
        "a backslash may only stand in a text, between ' and '"
    }
}

// What to do about a word that is of another language, or follows one.
fn advice_on_word(front: &[u8], rest: &[u8]) -> Option<&'static str> {
    match first_name(rest) {
        b"and" | b"AND" => return Some("`and` is no operator: write `&&`"),
        b"or" | b"OR" => return Some("`or` is no operator: write `||`"),
        b"is" => return Some(advice_on_is(rest)),
        b"eq" => return Some("`eq` is no operator: write `==`"),
        b"in" => return Some("`in` is no operator: compare by `==`, and join by `||`"),
        _ => {}
    }
    match last_name(front) {
        b"not" | b"NOT" => Some("`not` is no operator: write `!`"),
        b"return" => Some("a rule is one expression: remove `return`"),
        b"if" => Some("there is no `if`: write `condition ? this : that`"),
        b"let" | b"var" | b"const" | b"function" => Some(
            "a rule is one expression: nothing is declared in it",
        ),
        _ => None,
    }
}

// What to do about `is`, by what is asked with it.
fn advice_on_is(rest: &[u8]) -> &'static str {
    let behind = match rest {
        [b'i', b's', behind @ ..] => behind.trim_ascii_start(),
        _ => rest,
    };
    match first_name(behind) {
        b"string" | b"String" =>
            "`is` is no operator: a text is asked for by `newData.isString()`, without `.val()`",
        b"number" | b"int" | b"Number" =>
            "`is` is no operator: a number is asked for by `newData.isNumber()`, without `.val()`",
        b"bool" | b"boolean" | b"Boolean" =>
            "`is` is no operator: true or false is asked for by `newData.isBoolean()`, without `.val()`",
        _ => "`is` is no operator: write `==`",
    }
}

// What to do about a token that may not stand where it stands.
fn advice_on_order(front: &[u8], rest: &[u8]) -> &'static str {
    let open = Open::behind(front);
    let is_behind_operand = ends_operand(front);
    if opens(rest) && open.levels() >= MAX_LEVELS {
        return "over 64 levels are open at once: of parentheses, calls, lists, `!`, `-` and `?`";
    }
    match rest {
        _ if last_word(front) == Some(b'.') => "a name is missing after the dot",
        [b')', ..] if open.parentheses == 0 =>
            "this ) closes nothing: remove it, or add a ( before it",
        [b']', ..] if open.brackets == 0 =>
            "this ] closes nothing: remove it, or add a [ before it",
        [b']', ..] if last_word(front) == Some(b'[') => "a list has one element at least",
        [b'[', ..] => "a list may only stand in a call, as in `hasChildren(['a', 'b'])`",
        [b'(', ..] => match last_name(front) {
            b"now" | b"auth" | b"root" | b"data" | b"newData" | b"query" =>
                "a variable takes no parentheses: remove them",
            _ => "only a method after a dot is called, as in `data.exists()`",
        },
        [b',', ..] if is_behind_operand => "a comma only stands in a call: join conditions by `&&`",
        [b':', ..] if is_behind_operand => "a `:` needs a `?` before it",
        [b'.', ..] => "a dot needs something before it, and a name after it",
        [b'0'..=b'9', ..] if !is_behind_operand => "a number is at most 9,007,199,254,740,991",
        _ => if !is_behind_operand {
            "an operand is missing before this"
        } else if is_split(front, rest) {
            "the text ended before this: a ' inside of a text is written \\\\'"
        } else {
            "an operator is missing before this, as `&&` or `==`"
        },
    }
}

// Whether a token may open a level.
fn opens(rest: &[u8]) -> bool {
    matches!(rest, [b'(' | b'[' | b'!' | b'-' | b'?', ..])
}

// Whether a word follows a text directly.
fn is_split(front: &[u8], rest: &[u8]) -> bool {
    matches!(front.last(), Some(b'\'' | b'"')) && !first_name(rest).is_empty()
}

// The rest of a text that ends in quotes, from the quote on that seems to have no second one: the first of two between
// which a text stands that a word follows directly, else the last.
fn unclosed_text(text: &[u8]) -> Option<&[u8]> {
    let mut quotes = Quotes::new();
    let mut begin = 0usize;
    let mut was_closed = false;
    for (place, byte) in text.iter().enumerate() {
        if was_closed && is_of_name(*byte) {
            break;
        }
        let was_open = quotes.open().is_some();
        quotes.take(*byte);
        if !was_open && quotes.open().is_some() {
            begin = place;
        }
        was_closed = was_open && quotes.open().is_none();
    }
    if Quotes::behind(text).open().is_some() {
        Some(text.split_at_checked(begin)?.1)
    } else {
        None
    }
}

// ---- what is left out

// What to write in the place of a name that is left out.
fn instead_of(name: &str) -> &'static str {
    match name {
        "matches" => "use `contains`, `beginsWith`, `endsWith` or `==`",
        "toLowerCase" | "toUpperCase" => "compare the text as it is, or store it as you compare it",
        _ => "there are no priorities",
    }
}

fn advice_on_left_out(sign: &str, text: &[u8]) -> &'static str {
    match sign {
        "/" => advice_on_slash(text),
        _ => "numbers are whole in this language: no point, as in 1.5, and no exponent, as in 1e3",
    }
}

// What to write in the place of Firestore's paths.
const EXISTS: &str =
    "a call of a path is of Firestore: write `root.child('users').child(auth.uid).exists()`, with your own path";

const GET: &str =
    "a call of a path is of Firestore: here what is stored is `root.child('users').child(auth.uid).child('role').val()`, with your own path";

fn advice_on_slash(text: &[u8]) -> &'static str {
    match around_sign(text, b'/', &[]) {
        Some((_, [b'/', b'/' | b'*', ..])) =>
            "a comment may not stand in the text of a rule: put it before the rule",
        Some((front, _)) if is_in_path(front) => "a path stands in quotes, as in `child('a/b')`",
        Some((front, _)) if matches!(called(front), b"exists" | b"existsAfter") => EXISTS,
        Some((front, _)) if matches!(called(front), b"get" | b"getAfter") => GET,
        Some((front, _)) if !ends_operand(front) =>
            "regular expressions are not in this language: use `contains`, `beginsWith`, `endsWith` or `==`",
        _ => "`/` is not in this language: multiply the other side instead",
    }
}

// Whether a slash behind these bytes is that of a path without quotes.
fn is_in_path(front: &[u8]) -> bool {
    let name = last_name(front).len();
    let end = trimmed(front).len().saturating_sub(name);
    let mut before = front.split_at_checked(end).map_or(front, |parts| parts.0);
    if let [rest @ .., b'$'] = before {
        before = rest;
    }
    matches!(called(before), b"child" | b"hasChild")
}

// The name of the call whose parenthesis was opened last, where that is the last of these bytes.
fn called(front: &[u8]) -> &[u8] {
    match trimmed(front) {
        [call @ .., b'('] => last_name(call),
        _ => b"",
    }
}

// ---- names

const VARIABLES: [&str; 9] = [
    "auth", "now", "root", "data", "newData", "query", "true", "false", "null",
];

// What to do about a capture that does not stand above a rule.
fn advice_on_capture(alloc: Global, name: &str, pattern: &Pattern) -> Result<String, NoMemory> {
    if let Some(other) = capture_like(name, pattern) {
        return Ok(format!(in alloc;
            "there is no `{name}` above this rule: did you mean `${other}`?"
        )?);
    }
    let mut words = format!(in alloc; "`{name}` is no capture above this rule")?;
    let mut count = 0usize;
    for index in 0..pattern.len() {
        let Some(Part::Capture(capture)) = pattern.part(index) else {
            continue;
        };
        let joint = if count == 0 { ": there is " } else { ", " };
        words.push_str(joint)?;
        words.push_str(format!(in alloc; "`${}`", capture.text())?.as_str())?;
        count = count.saturating_add(1);
    }
    if count == 0 {
        words.push_str(": there is none")?;
    }
    Ok(words)
}

// The first capture of a pattern whose name, with its `$`, is like this one; it is given without.
fn capture_like<'a>(name: &str, pattern: &'a Pattern) -> Option<&'a str> {
    let name = name.strip_prefix('$')?;
    for index in 0..pattern.len() {
        if let Some(Part::Capture(capture)) = pattern.part(index) {
            if nearest(name, &[capture.text()]).is_some() {
                return Some(capture.text());
            }
        }
    }
    None
}

// Whether a capture of this name, with its `$` left out, stands in a pattern.
fn has_capture(pattern: &Pattern, name: &str) -> bool {
    for index in 0..pattern.len() {
        if let Some(Part::Capture(capture)) = pattern.part(index) {
            if capture.text() == name {
                return true;
            }
        }
    }
    false
}

// What to do about an unknown variable, or one that may not stand in such a rule.
fn advice_on_variable(
    alloc: Global,
    name: &str,
    rule: &RuleName,
    text: &str,
) -> Result<String, NoMemory> {
    let kind = rule.kind.name();
    if name == "newData" {
        return Ok(format!(in alloc;
            "there is no `newData` in a `{kind}`, where nothing is written: use `data`"
        )?);
    }
    if name == "query" {
        return Ok(format!(in alloc; "there is no `query` in a `{kind}`: it stands in a `.read`")?);
    }
    if matches!(name, "uid" | "provider" | "token") {
        return advice_on_part_of_auth(alloc, name, rule, text);
    }
    if has_capture(&rule.pattern, name) {
        return Ok(format!(in alloc; "there is no `{name}`: did you mean `${name}`?")?);
    }
    if is_use(name) {
        return Ok(format!(in alloc;
            "`{name}` stands after a dot, as in `data.{name}` or `data.val().{name}`"
        )?);
    }
    match instead_of_variable(name) {
        Some(words) => Ok(format!(in alloc; "there is no `{name}`: {words}")?),
        None => match nearest(name, &VARIABLES) {
            Some(other) => Ok(format!(in alloc; "there is no `{name}`: did you mean `{other}`?")?),
            None => Ok(format!(in alloc;
                "there is no `{name}`: a text stands in quotes, as '{name}'"
            )?),
        },
    }
}

// What to do about a part of `auth` that stands alone: it is meant, or a capture of its name, unless that stands in the
// rule already.
fn advice_on_part_of_auth(
    alloc: Global,
    name: &str,
    rule: &RuleName,
    text: &str,
) -> Result<String, NoMemory> {
    let capture = format!(in alloc; "${name}")?;
    if has_capture(&rule.pattern, name) && !text.contains(capture.as_str()) {
        return Ok(format!(in alloc;
            "there is no `{name}` alone: a capture's name begins with `$`: did you mean `${name}`?"
        )?);
    }
    Ok(format!(in alloc; "there is no `{name}` alone: did you mean `auth.{name}`?")?)
}

// What to write in the place of a variable of another language.
fn instead_of_variable(name: &str) -> Option<&'static str> {
    match name {
        "undefined" | "None" | "nil" | "NULL" => Some("did you mean `null`?"),
        "request" | "resource" | "firebase" | "database" | "snapshot" | "this" => Some(
            "the variables are auth, now, root, data, newData and query",
        ),
        "user" | "currentUser" => Some("did you mean `auth`?"),
        "timestamp" | "time" | "Date" => Some("did you mean `now`?"),
        _ => None,
    }
}
