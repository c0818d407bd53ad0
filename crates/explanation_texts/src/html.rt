//! The text of a page.

use crate::coverage::{Count, Shade};
use json_tree::NoMemory;
use std::alloc::Global;

/// A text of HTML that grows.
#[derive(Drop)]
pub(crate) struct Html {
    pub(crate) alloc: Global,
    text: String,
}

impl Html {
    /// The front of a page.
    pub(crate) fn new(alloc: Global) -> Result<Html, NoMemory> {
        Ok(Html {
            alloc,
            text: String::from_str(alloc, FRONT)?,
        })
    }

    /// The whole page.
    pub(crate) fn end(self) -> Result<String, NoMemory> {
        let Html { mut text, .. } = self;
        text.push_str("</body>\n</html>\n")?;
        Ok(text)
    }

    /// Appends HTML.
    pub(crate) fn tag(&mut self, html: &str) -> Result<(), NoMemory> {
        self.text.push_str(html)?;
        Ok(())
    }

    /// Appends a text, which no browser takes for HTML.
    pub(crate) fn words(&mut self, words: &str) -> Result<(), NoMemory> {
        for letter in words.chars() {
            self.letter(letter)?;
        }
        Ok(())
    }

    /// Appends a character, which no browser takes for HTML.
    pub(crate) fn letter(&mut self, letter: char) -> Result<(), NoMemory> {
        match letter {
            '&' => self.text.push_str("&amp;")?,
            '<' => self.text.push_str("&lt;")?,
            '>' => self.text.push_str("&gt;")?,
            '"' => self.text.push_str("&quot;")?,
            _ => self.text.push(letter)?,
        }
        Ok(())
    }

    /// Appends a number.
    pub(crate) fn number(&mut self, number: u64) -> Result<(), NoMemory> {
        self.tag(format!(in self.alloc; "{number}")?.as_str())
    }

    /// Appends how often something was asked, and what it answered.
    pub(crate) fn count(&mut self, count: Count) -> Result<(), NoMemory> {
        if count.asked == 0 {
            return self.tag("never asked");
        }
        self.tag("asked ")?;
        self.times(count.asked)?;
        self.answers(count.held, "true")?;
        self.answers(count.failed, "false")?;
        self.answers(count.erred, "an error")
    }

    // How often something had this answer, if it had it at all.
    fn answers(&mut self, times: u64, answer: &str) -> Result<(), NoMemory> {
        if times == 0 {
            return Ok(());
        }
        self.tag(", ")?;
        self.times(times)?;
        self.tag(" ")?;
        self.tag(answer)
    }

    fn times(&mut self, times: u64) -> Result<(), NoMemory> {
        match times {
            1 => self.tag("once"),
            2 => self.tag("twice"),
            _ => {
                self.number(times)?;
                self.tag(" times")
            }
        }
    }
}

/// The class of what has this shade.
pub(crate) fn class_of(shade: Shade) -> &'static str {
    match shade {
        Shade::Unasked => "unasked",
        Shade::Erred => "erred",
        Shade::Held => "held",
        Shade::Failed => "failed",
        Shade::Both => "both",
        Shade::Plain => "plain",
    }
}

const FRONT: &str = r#"<!doctype html>
<html lang="en">
<head>
<meta charset="utf-8">
<meta name="viewport" content="width=device-width, initial-scale=1">
<title>What was asked of the rules</title>
<style>
:root { color-scheme: light dark; --paper: #fff; --ink: #1d1f23; --dim: #6b7280; --line: #d7dae0; --held: #c9efd0; --failed: #ffd3cf; --both: #fdeab0; --erred: #e3cffa; --unasked: #e4e6ea; }
@media (prefers-color-scheme: dark) { :root { --paper: #17191d; --ink: #e4e6ea; --dim: #9aa1ac; --line: #363a42; --held: #1c4a2a; --failed: #642522; --both: #55450f; --erred: #472b6b; --unasked: #34373d; } }
body { background: var(--paper); color: var(--ink); font: 15px/1.5 system-ui, sans-serif; margin: 2rem auto; max-width: 70rem; padding: 0 1.5rem 50vh; }
h1 { font-size: 1.5rem; }
h2 { font-size: 1.15rem; margin-top: 2rem; }
h3 { font-size: 1rem; margin: 0 2rem .5rem 0; }
a { color: inherit; }
code, pre { font: 13px/1.55 ui-monospace, monospace; }
pre { overflow-x: auto; }
.file { border: 1px solid var(--line); border-radius: 6px; padding: .75rem 0; }
.file b { background: var(--paper); font-weight: normal; }
.file i { background: var(--paper); color: var(--dim); display: inline-block; font-style: normal; padding-right: 1rem; text-align: right; user-select: none; width: 3rem; }
.file a { text-decoration: none; border-radius: 3px; }
.file a:hover { outline: 1px solid currentColor; }
.file a:target { outline: 2px solid currentColor; }
.held { background: var(--held); }
.failed { background: var(--failed); }
.both { background: var(--both); }
.erred { background: var(--erred); }
.unasked { background: var(--unasked); color: var(--dim); text-decoration: underline dashed; }
.legend span { border-radius: 3px; margin-right: .5rem; padding: .1rem .4rem; }
.dim { color: var(--dim); }
.panel { background: var(--paper); border-top: 2px solid var(--ink); bottom: 0; display: none; left: 0; max-height: 45vh; overflow: auto; padding: 1rem 2rem; position: fixed; right: 0; }
.panel:target { display: block; }
.panel ol, .requests { list-style: none; padding: 0; }
.close { position: absolute; right: 1.5rem; top: 1rem; }
</style>
</head>
<body>
"#;
