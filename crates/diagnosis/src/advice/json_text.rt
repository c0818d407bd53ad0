//! What to do about a file that is not JSON, and where.

use super::near::nearest;
use super::quotes::{first_name, is_space};
use json_tree::NoMemory;
use rules_reader::MAX_FILE_BYTES;
use std::alloc::Global;

/// What a file should be: it is JSON, with comments where it has rules.
#[derive(Clone, Copy, Debug)]
pub(crate) enum FileSort {
    Rules,
    Data,
    Tokens,
}

impl FileSort {
    fn is_rules(self) -> bool {
        matches!(self, FileSort::Rules)
    }
}

/// Where to look in a file that is not JSON, and what to do: the place is that at which reading stopped, or one before
/// it at which more is to be seen. The text is the plain text of a rules file, and else the file itself.
pub(crate) fn advice_on_json(
    alloc: Global,
    sort: FileSort,
    file: &[u8],
    text: &[u8],
    place: usize,
) -> Result<(usize, String), NoMemory> {
    if sort.is_rules() && text.len() > MAX_FILE_BYTES {
        let words = "a rules file has at most 1,048,576 bytes, and this one has more";
        return Ok((0, String::from_str(alloc, words)?));
    }
    let mut front = Front::new(alloc, sort);
    for (at, byte) in text.iter().enumerate().take(place) {
        front.line.take(at, file.get(at).copied());
        front.take(at, *byte)?;
    }
    let rest = text.split_at_checked(place).map_or(text, |parts| parts.1);
    let (place, words) = front.advice(file, place, rest);
    Ok((place, String::from_str(alloc, words)?))
}

// A bracket that is open.
#[derive(Clone, Copy)]
struct Bracket {
    byte: u8,
    place: usize,
    line: Line,
}

// What was read before a place.
#[derive(Drop)]
struct Front {
    sort: FileSort,
    // The line of the file.
    line: Line,
    open: Vec<Bracket>,
    // Where the text in quotes begins that is open.
    quote: Option<usize>,
    is_escaped: bool,
    // The last text in quotes that is closed, from its first quote to behind its last.
    text: (usize, usize),
    // Whether a colon came behind the last opening brace or comma.
    has_colon: bool,
    // The last byte outside of quotes that is not a space, and its place; of a text in quotes its last quote.
    last: Option<(u8, usize)>,
    // The first closing bracket that is of another kind than what it closes, and its place.
    bad: Option<(u8, usize)>,
    // The first opening bracket whose line is indented further than that of the one that closes it.
    unclosed: Option<usize>,
    // The first closing bracket whose line is indented further than that of the one that it closes.
    surplus: Option<usize>,
    // The first opening bracket that stands where a name should.
    nameless: Option<usize>,
    // The first closing bracket that stands where a value should.
    valueless: Option<usize>,
    // The last bracket, if it is an opening one and no comma came behind it.
    fresh: Option<usize>,
    // The first comment that is not closed.
    comment: Option<usize>,
}

impl Front {
    fn new(alloc: Global, sort: FileSort) -> Front {
        Front {
            sort,
            line: Line::from(0),
            open: Vec::new(alloc),
            quote: None,
            is_escaped: false,
            text: (0, 0),
            has_colon: false,
            last: None,
            bad: None,
            unclosed: None,
            surplus: None,
            nameless: None,
            valueless: None,
            fresh: None,
            comment: None,
        }
    }

    fn take(&mut self, at: usize, byte: u8) -> Result<(), NoMemory> {
        if let Some(begin) = self.quote {
            self.take_quoted(begin, at, byte);
            return Ok(());
        }
        if is_space(byte) {
            return Ok(());
        }
        let before = self.last.replace((byte, at));
        match byte {
            b'"' => self.quote = Some(at),
            b'{' | b'[' => self.open(at, byte, before)?,
            b'}' | b']' => self.close(at, byte, before),
            b',' => {
                self.has_colon = false;
                self.fresh = None;
            }
            b':' => self.has_colon = true,
            b'*' => self.begin_comment(before),
            _ => {}
        }
        Ok(())
    }

    // Takes an asterisk, and the byte before it.
    fn begin_comment(&mut self, before: Option<(u8, usize)>) {
        if let (Some((b'/', at)), None) = (before, self.comment) {
            self.comment = Some(at);
        }
    }

    // Takes an opening bracket, and the byte before it.
    fn open(&mut self, at: usize, byte: u8, before: Option<(u8, usize)>) -> Result<(), NoMemory> {
        let wants_name = self.is_in_object() && matches!(before, Some((b'{' | b',', _)));
        if wants_name && self.nameless.is_none() {
            self.nameless = Some(at);
        }
        self.has_colon = false;
        self.fresh = Some(at);
        self.open.push(Bracket {
            byte,
            place: at,
            line: self.line,
        })?;
        Ok(())
    }

    fn take_quoted(&mut self, begin: usize, at: usize, byte: u8) {
        if self.is_escaped {
            self.is_escaped = false;
        } else if byte == b'\\' {
            self.is_escaped = true;
        } else if byte == b'"' {
            self.quote = None;
            self.text = (begin, at.saturating_add(1));
            self.last = Some((byte, at));
        }
    }

    // Takes a closing bracket, and the byte before it.
    fn close(&mut self, at: usize, byte: u8, before: Option<(u8, usize)>) {
        if matches!(before, Some((b':', _))) && self.valueless.is_none() {
            self.valueless = Some(at);
        }
        self.fresh = None;
        match self.open.pop() {
            Some(bracket) if is_pair(bracket.byte, byte) => self.compare(bracket, at, before),
            _ => if self.bad.is_none() {
                self.bad = Some((byte, at));
            },
        }
    }

    // Compares how the lines of two brackets are indented, where the second begins its line or follows another closing
    // one in it.
    fn compare(&mut self, opening: Bracket, closing: usize, before: Option<(u8, usize)>) {
        let (first, second) = (opening.line, self.line);
        if first.begin == second.begin {
            return;
        }
        let begins = second.begin.saturating_add(second.indent) == closing;
        let follows = match before {
            Some((b'}' | b']', place)) => place >= second.begin,
            _ => false,
        };
        if begins && first.indent > second.indent && self.unclosed.is_none() {
            self.unclosed = Some(opening.place);
        }
        if (begins || follows) && first.indent < second.indent && self.surplus.is_none() {
            self.surplus = Some(closing);
        }
    }
}

// A closing bracket is of another kind than what it closes.
fn advice_on_bad(bad: (u8, usize)) -> (usize, &'static str) {
    let (byte, place) = bad;
    if byte == b']' {
        (place, "this ] closes a {: expected }")
    } else {
        (place, "this } closes a [: expected ]")
    }
}

fn is_pair(opening: u8, closing: u8) -> bool {
    matches!((opening, closing), (b'{', b'}') | (b'[', b']'))
}

// Where a line begins, and by how many bytes it is indented.
#[derive(Clone, Copy)]
struct Line {
    begin: usize,
    indent: usize,
}

impl Line {
    fn from(begin: usize) -> Line {
        Line { begin, indent: 0 }
    }

    // Takes a byte of a file, which is in the line or ends it.
    fn take(&mut self, at: usize, byte: Option<u8>) {
        match byte {
            Some(b'\n') => *self = Line::from(at.saturating_add(1)),
            Some(b' ' | b'\t') if self.begin.saturating_add(self.indent) == at => self.indent = self
                .indent
                .saturating_add(1),
            _ => {}
        }
    }
}

impl Front {
    // Where to look, and what to do, where reading stopped at a place, from which this is the rest.
    fn advice(&self, file: &[u8], place: usize, rest: &[u8]) -> (usize, &'static str) {
        if let Some(bad) = self.bad {
            return advice_on_bad(bad);
        }
        if let Some(begin) = self.quote {
            return advice_in_quotes(begin, place, rest);
        }
        if let Some(bracket) = self.valueless {
            return (bracket, NO_VALUE);
        }
        if let Some(found) = self.advice_on_brackets(place) {
            return found;
        }
        if rest.is_empty() {
            return self.advice_on_end(place);
        }
        if let Some(found) = self.advice_on_text(file, place, rest) {
            return found;
        }
        if let Some(words) = self.advice_on_bytes(rest) {
            return (place, words);
        }
        if let Some(number) = number_before(file, place, rest) {
            return (number, "this number is too large");
        }
        self.advice_on_order(place, rest)
    }

    // The same, where what begins at the place may stand elsewhere.
    fn advice_on_order(&self, place: usize, rest: &[u8]) -> (usize, &'static str) {
        match (self.last, rest) {
            (None, _) => (place, advice_at_top(self.sort, rest)),
            (Some(_), _) if self.open.is_empty() => self.advice_behind(place, rest),
            (Some((b',', comma)), [b'}' | b']', ..]) => (
                comma,
                "no comma may stand before a closing bracket: remove it",
            ),
            (Some((b'{', _)), _) => (place, self.advice_on_name(rest)),
            (Some((b',', _)), _) if self.is_in_object() => (place, self.advice_on_name(rest)),
            (Some((b':' | b'[' | b',', _)), _) => self.advice_on_value(place, rest),
            _ => (place, self.advice_behind_member(rest)),
        }
    }

    // What begins with bytes that may stand nowhere outside of quotes.
    fn advice_on_bytes(&self, rest: &[u8]) -> Option<&'static str> {
        match rest {
            [b'/', b'*', ..] if self.sort.is_rules() => Some(UNCLOSED_COMMENT),
            [b'/' | b'#', ..] | [b'-', b'-', ..] if self.sort.is_rules() => {
                Some("a comment begins with //")
            }
            [b'/', b'/' | b'*', ..] | [b'#', ..] => {
                Some("this file may not have comments: remove it")
            }
            _ => if is_no_text(rest) {
                Some(NO_TEXT)
            } else {
                None
            },
        }
    }

    fn is_in_object(&self) -> bool {
        self.open.last().is_some_and(|bracket| bracket.byte == b'{')
    }

    // A bracket has no name before it, a comment is not closed, brackets stand too deep, or a colon stands in a list.
    fn advice_on_brackets(&self, place: usize) -> Option<(usize, &'static str)> {
        if let Some(bracket) = self.nameless {
            return Some((bracket, "a name and a colon are missing before this"));
        }
        if let Some(comment) = self.comment.filter(|_| self.sort.is_rules()) {
            return Some((comment, UNCLOSED_COMMENT));
        }
        if self.open.len() > MOST_NESTED {
            let bracket = self.open.last()?.place;
            return Some((
                bracket,
                "objects and lists stand in one another 127 deep at most",
            ));
        }
        match self.last {
            Some((b':', colon)) if !self.open.is_empty() && !self.is_in_object() => {
                Some(self.advice_on_colon(colon.min(place)))
            }
            _ => None,
        }
    }

    // A colon stands in a list.
    fn advice_on_colon(&self, colon: usize) -> (usize, &'static str) {
        match self.fresh {
            Some(bracket) => (
                bracket,
                "a list has no names and colons: write { in the place of this [",
            ),
            None => (
                colon,
                "a list has no colon: should its [ be a {, or is its ] missing before this?",
            ),
        }
    }

    // The file ends too early.
    fn advice_on_end(&self, place: usize) -> (usize, &'static str) {
        if self.last.is_none() {
            return (place, advice_on_nothing(self.sort));
        }
        match (self.unclosed, self.open.last()) {
            (Some(bracket), _) => (
                bracket,
                "this bracket seems to be left open: the file ends without its closing one",
            ),
            (None, Some(bracket)) => (bracket.place, "this bracket is not closed"),
            _ => (place, "the file ends too early"),
        }
    }

    // Something stands behind the whole object.
    fn advice_behind(&self, place: usize, rest: &[u8]) -> (usize, &'static str) {
        match (self.surplus, rest) {
            (Some(bracket), [b'}' | b']' | b',', ..]) => (
                bracket,
                "this bracket seems to be one too many: the file's object ends too early",
            ),
            (None, [b'}' | b']', ..]) => (place, "this bracket closes nothing: remove it"),
            _ => (
                place,
                "the file's object ended before this, and nothing may follow it",
            ),
        }
    }

    // What stands at a place that is the beginning of a text in quotes, or directly behind one.
    fn advice_on_text(
        &self,
        file: &[u8],
        place: usize,
        rest: &[u8],
    ) -> Option<(usize, &'static str)> {
        let (begin, end) = self.text;
        if end == place && place > 0 {
            if has_line_feed(file, begin, end) {
                return Some((
                    begin,
                    "the text that begins here does not end where it should: is its closing quote missing?",
                ));
            }
            if self.is_name_over_a_colon(file) {
                return Some((
                    begin,
                    "this name has a colon in it: is its closing quote missing?",
                ));
            }
            if !matches!(rest, [b':' | b'{' | b'[' | b'=' | b',' | b'}' | b']', ..]) {
                return Some((place, self.advice_behind_text()));
            }
        }
        match rest {
            [b'"', rest @ ..] => fault_in_quotes(self.sort, place.saturating_add(1), rest),
            _ => None,
        }
    }

    // Whether the last text is a name, and has a colon.
    fn is_name_over_a_colon(&self, file: &[u8]) -> bool {
        let (begin, end) = self.text;
        let text = file.split_at_checked(end).map_or(file, |parts| parts.0);
        self.is_in_object() && !self.has_colon && text.iter().skip(begin).any(|byte| *byte == b':')
    }

    // Something stands directly behind a text.
    fn advice_behind_text(&self) -> &'static str {
        if self.sort.is_rules() {
            "the text ended before this: inside of a rule write ' or \\\" for a double quote"
        } else {
            "the text ended before this: inside of it write \\\" for a double quote"
        }
    }

    // What stands behind a name or behind a value.
    fn advice_behind_member(&self, rest: &[u8]) -> &'static str {
        let is_name = self.is_in_object()
            && !self.has_colon
            && self.last.is_some_and(|last| last.0 == b'"');
        match (is_name, rest) {
            (true, [b'=', ..]) => "expected : in the place of =",
            (true, [b'"' | b'{' | b'[', ..]) => "a colon is missing before this",
            (true, _) => "a colon and a value are missing before this",
            (false, [b'"' | b'{' | b'[', ..]) => "a comma is missing before this",
            (false, [b';', ..]) => "expected , in the place of ;",
            (false, _) => if self.is_in_object() {
                "expected , or }"
            } else {
                "expected , or ]"
            },
        }
    }
}

fn has_line_feed(file: &[u8], from: usize, to: usize) -> bool {
    match file.split_at_checked(to) {
        Some((front, _)) => front.iter().skip(from).any(|byte| *byte == b'\n'),
        None => false,
    }
}

// What stands at a place in quotes that begin at another, where no text goes on.
fn advice_in_quotes(begin: usize, place: usize, rest: &[u8]) -> (usize, &'static str) {
    match rest {
        [] => (begin, "this text is not closed: a double quote is missing"),
        [0x80..=0xFF, ..] => (place, NO_TEXT),
        _ => (place, CONTROL),
    }
}

// How deep objects and lists may stand in one another.
const MOST_NESTED: usize = 127;

// Where the number begins at whose end reading stopped, though something may follow that does.
fn number_before(file: &[u8], place: usize, rest: &[u8]) -> Option<usize> {
    let (front, _) = file.split_at_checked(place)?;
    let may_follow = matches!(
        rest,
        [b',' | b'}' | b']' | b' ' | b'\n' | b'\r' | b'\t', ..]
    );
    if !may_follow || !front.last()?.is_ascii_digit() {
        return None;
    }
    let length = front
        .iter()
        .rev()
        .take_while(|byte| byte.is_ascii_digit()
            || matches!(**byte, b'+' | b'-' | b'.' | b'e' | b'E'))
        .count();
    Some(place.saturating_sub(length))
}

const NO_VALUE: &str = "a value is missing before this";

const UNCLOSED_COMMENT: &str = "this comment is not closed: a */ is missing";

const CONTROL: &str = "this control character may not stand in a text";

const NO_TEXT: &str = "this byte is not UTF-8: save the file as UTF-8";

// Whether no character in UTF-8 begins here.
fn is_no_text(rest: &[u8]) -> bool {
    for length in 1..=4usize {
        if let Some((front, _)) = rest.split_at_checked(length) {
            if str::from_utf8(front).is_ok() {
                return false;
            }
        }
    }
    !rest.is_empty()
}

// The file has nothing.
fn advice_on_nothing(sort: FileSort) -> &'static str {
    match sort {
        FileSort::Rules => "the file is empty: write { \"rules\": { .. } }",
        FileSort::Data => "the file is empty: write {} where nothing should stand",
        FileSort::Tokens => "the file is empty: write { \"tokens\": { .. } }",
    }
}

// Nothing stands before.
fn advice_at_top(sort: FileSort, rest: &[u8]) -> &'static str {
    if matches!(rest, [0xEF, 0xBB, 0xBF, ..]) {
        return "a byte order mark stands here: save the file as UTF-8 without one";
    }
    match sort {
        FileSort::Rules => "expected an object: { \"rules\": { .. } }",
        FileSort::Data => "expected an object: { .. }",
        FileSort::Tokens => "expected an object: { \"tokens\": { .. } }",
    }
}

impl Front {
    // What stands where a name is wanted.
    fn advice_on_name(&self, rest: &[u8]) -> &'static str {
        if self.sort.is_rules() && are_two_words(rest) {
            return "a name must be in double quotes, and a comment begins with //";
        }
        advice_on_no_name(rest)
    }
}

// Whether two words come first, with a space between them.
fn are_two_words(rest: &[u8]) -> bool {
    let length = first_name(rest).len();
    match rest.split_at_checked(length) {
        Some((_, [b' ', next, ..])) => length > 0 && next.is_ascii_alphanumeric(),
        _ => false,
    }
}

fn advice_on_no_name(rest: &[u8]) -> &'static str {
    match rest {
        [b',', ..] => "this comma is one too many",
        [b'\'', ..] => "a name must be in double quotes, not in single ones",
        [0xE2, 0x80, 0x98..=0x9F, ..] => "a name must be in straight double quotes, \"",
        [byte, ..] if byte.is_ascii_alphabetic() || matches!(byte, b'.' | b'$' | b'_') =>
            "a name must be in double quotes",
        _ => "expected a name in double quotes, or }",
    }
}

impl Front {
    // What stands where a value is wanted.
    fn advice_on_value(&self, place: usize, rest: &[u8]) -> (usize, &'static str) {
        let word = first_name(rest);
        let behind = place.saturating_add(word.len());
        let words = match rest {
            [b',' | b'}' | b']', ..] => NO_VALUE,
            [b'\'', ..] => "a text must be in double quotes, not in single ones",
            [0xE2, 0x80, 0x98..=0x9F, ..] => "a text must be in straight double quotes, \"",
            [b'0'..=b'9' | b'-' | b'+' | b'.', ..] => self.advice_on_number(),
            _ => match word {
                b"true" | b"false" | b"null" => {
                    return (behind, advice_behind_word(rest, word.len()));
                }
                _ => self.advice_on_word(word),
            },
        };
        (place, words)
    }

    fn advice_on_number(&self) -> &'static str {
        if self.sort.is_rules() {
            "this is not a number of JSON, and a rule must be in double quotes, or true or false"
        } else {
            "this is not a number of JSON"
        }
    }

    // What to do about a word that is not a value.
    fn advice_on_word(&self, word: &[u8]) -> &'static str {
        match str::from_utf8(word) {
            Ok("True" | "TRUE") => return "write `true` in lower case",
            Ok("False" | "FALSE") => return "write `false` in lower case",
            Ok(word) if nearest(word, &["true"]).is_some() => return "did you mean `true`?",
            Ok(word) if nearest(word, &["false"]).is_some() => return "did you mean `false`?",
            Ok(word) if nearest(word, &["null"]).is_some() => return "did you mean `null`?",
            _ => {}
        }
        match (word, self.sort) {
            (b"None" | b"nil" | b"undefined", _) => "did you mean `null`?",
            ([], FileSort::Rules) =>
                "expected a value: a text in double quotes, true, false or an object",
            ([], _) =>
                "expected a value: a text in double quotes, a number, true, false, null, an object or a list",
            (_, FileSort::Rules) => "a rule must be in double quotes, unless it is true or false",
            (_, _) => "a text must be in double quotes",
        }
    }
}

// What stands behind a word of so many bytes.
fn advice_behind_word(rest: &[u8], length: usize) -> &'static str {
    match rest.get(length) {
        Some(b';') => "expected , in the place of ;",
        _ => "expected , or a closing bracket",
    }
}

// What is wrong in quotes, from behind the first of them on.
fn fault_in_quotes(sort: FileSort, begin: usize, rest: &[u8]) -> Option<(usize, &'static str)> {
    let mut is_escaped = false;
    for (at, byte) in rest.iter().enumerate() {
        let place = begin.saturating_add(at);
        if is_escaped {
            is_escaped = false;
            let (_, behind) = rest.split_at_checked(at)?;
            if let Some(words) = advice_on_escape(sort, behind) {
                return Some((place.saturating_sub(1), words));
            }
        } else if *byte == b'\\' {
            is_escaped = true;
        } else if *byte == b'"' {
            return None;
        } else if let Some(words) = advice_on_control(*byte) {
            let ends_line = matches!(*byte, b'\n' | b'\r');
            return Some((
                if ends_line {
                    begin.saturating_sub(1)
                } else {
                    place
                },
                words,
            ));
        }
    }
    Some((
        begin.saturating_sub(1),
        "this text is not closed: a double quote is missing",
    ))
}

// What is wrong with a byte of a text, where it is a control character.
fn advice_on_control(byte: u8) -> Option<&'static str> {
    match byte {
        b'\n' | b'\r' => Some(
            "this text is not closed in its line: a double quote is missing, or \\n for a line feed",
        ),
        b'\t' => Some("a tab in a text is written \\t"),
        0..=0x1F => Some(CONTROL),
        _ => None,
    }
}

// What is wrong with an escape, from behind its backslash on.
fn advice_on_escape(sort: FileSort, rest: &[u8]) -> Option<&'static str> {
    match rest {
        [b'"' | b'\\' | b'/' | b'b' | b'f' | b'n' | b'r' | b't', ..] => None,
        [b'u', a, b, c, d, ..] if are_hexadecimal(&[*a, *b, *c, *d]) => {
            if matches!((a, b), (b'd' | b'D', b'8'..=b'9' | b'a'..=b'f' | b'A'..=b'F')) {
                Some("this escape is half of a pair: write both halves, or the character itself")
            } else {
                None
            }
        }
        [b'u', ..] => Some("\\u must be followed by four hexadecimal digits"),
        _ if sort.is_rules() => Some(
            "JSON has no such escape: write two backslashes for one, and four in a text of a rule",
        ),
        _ => Some("JSON has no such escape: write two backslashes for one"),
    }
}

fn are_hexadecimal(bytes: &[u8]) -> bool {
    bytes.iter().all(|byte| byte.is_ascii_hexdigit())
}
