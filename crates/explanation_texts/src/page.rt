//! The page of a script: its rules files with how often each rule and each part of it was asked, as HTML.

use crate::coverage::{Ask, PartCount, RuleCount};
use crate::findings::{Place, findings_of};
use crate::html::{Html, class_of};
use crate::marks::{Mark, marks_of};
use crate::rules_file::RulesFile;
use evaluator::Outcome;
use json_tree::NoMemory;
use rule_sources::RuleSource;
use std::alloc::Global;

/// A request that asked rules, or would have asked some.
#[derive(Drop)]
pub(crate) struct JudgedRequest {
    /// Its number, from 1.
    pub(crate) request: u64,
    pub(crate) is_refused: bool,
    /// Its front, as one line.
    pub(crate) front: String,
    /// Its explanation.
    pub(crate) text: String,
}

/// The page of these rules files and requests, with a sentence that counts the requests. It takes time linear in what
/// it shows.
pub(crate) fn page_of(
    alloc: Global,
    files: &[RulesFile],
    requests: &[JudgedRequest],
    sentence: &str,
) -> Result<String, NoMemory> {
    let mut html = Html::new(alloc)?;
    html.tag("<h1>What was asked of the rules</h1>\n<p>")?;
    html.words(sentence)?;
    html.tag(".")?;
    html.tag(LEGEND)?;
    for (index, file) in files.iter().enumerate() {
        put_file(&mut html, index, file)?;
    }
    put_requests(&mut html, requests)?;
    for (index, file) in files.iter().enumerate() {
        put_panels(&mut html, index, file)?;
    }
    for request in requests {
        put_request(&mut html, request)?;
    }
    html.end()
}

// A rules file: what was never asked, what is idle, and its text.
fn put_file(html: &mut Html, index: usize, file: &RulesFile) -> Result<(), NoMemory> {
    html.tag("<h2>The rules of the ")?;
    if file.since == 0 {
        html.tag("header")?;
    } else {
        html.tag("deployment by request ")?;
        html.number(file.since)?;
    }
    html.tag("</h2>\n")?;
    put_unasked(html, index, file)?;
    put_findings(html, index, file)?;
    put_text(html, index, file)
}

// The rules that were never asked.
fn put_unasked(html: &mut Html, index: usize, file: &RulesFile) -> Result<(), NoMemory> {
    html.tag("<h3>Rules that no request asked</h3>\n<ul>\n")?;
    let mut is_none = true;
    for (rule, source) in file.sources.iter().enumerate() {
        if is_asked(file, rule) {
            continue;
        }
        is_none = false;
        html.tag(format!(in html.alloc; "<li><a href=\"#rule-{index}-{rule}\">")?.as_str())?;
        put_name(html, source)?;
        html.tag("</a></li>\n")?;
    }
    html.tag(if is_none {
        "<li class=\"dim\">Each was asked.</li>\n</ul>\n"
    } else {
        "</ul>\n"
    })
}

fn is_asked(file: &RulesFile, rule: usize) -> bool {
    file.counts
        .get(rule)
        .is_some_and(|count| count.count.asked > 0)
}

// A rule by its kind, its pattern and its line.
fn put_name(html: &mut Html, source: &RuleSource) -> Result<(), NoMemory> {
    html.tag("<code>")?;
    html.tag(source.kind.name())?;
    html.tag("</code> of <code>")?;
    html.words(source.pattern.as_str())?;
    let line = source.line();
    html.tag(format!(in html.alloc; "</code>, line {line}")?.as_str())
}

// What in the file can't matter, or can't be met.
fn put_findings(html: &mut Html, index: usize, file: &RulesFile) -> Result<(), NoMemory> {
    html.tag("<h3>What can't matter, or can't be met</h3>\n<ul>\n")?;
    let findings = findings_of(html.alloc, file.text.as_bytes())?;
    for (place, finding) in &findings {
        let Place { line, column } = *place;
        html.tag(format!(in html.alloc;
            "<li><a href=\"#line-{index}-{line}\">Line {line}, column {column}</a>: "
        )?.as_str())?;
        html.words(finding.as_str())?;
        html.tag(".</li>\n")?;
    }
    html.tag(if findings.is_empty() {
        "<li class=\"dim\">Nothing that is certain.</li>\n</ul>\n"
    } else {
        "</ul>\n"
    })
}

// The text of a file, its lines numbered, its rules and their parts marked.
fn put_text(html: &mut Html, index: usize, file: &RulesFile) -> Result<(), NoMemory> {
    let marks = marks_of(html.alloc, file)?;
    let mut next: usize = 0;
    let mut line: usize = 1;
    html.tag("<pre class=\"file\">")?;
    put_begin_of_line(html, index, line)?;
    let mut is_indent = true;
    for (place, letter) in file.text.as_str().char_indices() {
        if is_indent && letter != ' ' {
            html.tag("</b>")?;
            is_indent = false;
        }
        next = put_marks(html, index, file, &marks, next, place)?;
        html.letter(letter)?;
        if letter == '\n' {
            line = line.saturating_add(1);
            put_begin_of_line(html, index, line)?;
            is_indent = true;
        }
    }
    html.tag(if is_indent {
        "</b></pre>\n"
    } else {
        "</pre>\n"
    })
}

// The number of a line, and what begins its indentation.
fn put_begin_of_line(html: &mut Html, index: usize, line: usize) -> Result<(), NoMemory> {
    html.tag(format!(in html.alloc; "<i id=\"line-{index}-{line}\">{line}</i><b>")?.as_str())
}

// The marks from one of them on that are at a place of the file or before it, and which is the next one.
fn put_marks(
    html: &mut Html,
    index: usize,
    file: &RulesFile,
    marks: &[Mark],
    first: usize,
    place: usize,
) -> Result<usize, NoMemory> {
    let mut next = first;
    for mark in marks.get(first..).unwrap_or(&[]) {
        if mark.place() > place {
            break;
        }
        put_mark(html, index, file, *mark)?;
        next = next.saturating_add(1);
    }
    Ok(next)
}

fn put_mark(html: &mut Html, index: usize, file: &RulesFile, mark: Mark) -> Result<(), NoMemory> {
    match mark {
        Mark::Rule { rule, .. } => match (file.sources.get(rule), file.counts.get(rule)) {
            (Some(source), Some(count)) => put_rule(html, index, rule, source, count),
            _ => Ok(()),
        },
        Mark::Part { rule, part, .. } => {
            match file
                .counts
                .get(rule)
                .and_then(|count| count.parts.get(part))
            {
                Some(part) => put_part(html, part),
                None => Ok(()),
            }
        }
        Mark::EndOfPart { .. } => html.tag("</span>"),
        Mark::EndOfRule { .. } => html.tag("</a>"),
    }
}

fn put_rule(
    html: &mut Html,
    index: usize,
    rule: usize,
    source: &RuleSource,
    count: &RuleCount,
) -> Result<(), NoMemory> {
    let class = class_of(count.count.shade());
    html.tag(format!(in html.alloc;
        "<a class=\"{class}\" id=\"rule-{index}-{rule}\" href=\"#asked-{index}-{rule}\" title=\""
    )?.as_str())?;
    html.tag(source.kind.name())?;
    html.tag(" of ")?;
    html.words(source.pattern.as_str())?;
    html.tag(": ")?;
    html.count(count.count)?;
    html.tag("\">")
}

fn put_part(html: &mut Html, part: &PartCount) -> Result<(), NoMemory> {
    html.tag("<span class=\"")?;
    html.tag(class_of(part.count.shade()))?;
    html.tag("\" title=\"")?;
    html.count(part.count)?;
    html.tag("\">")
}

// The requests, each with a link to its explanation.
fn put_requests(html: &mut Html, requests: &[JudgedRequest]) -> Result<(), NoMemory> {
    html.tag("<h2>Requests that the rules judged</h2>\n<ol class=\"requests\">\n")?;
    for request in requests {
        html.tag("<li>")?;
        put_link(html, request.request, request.is_refused)?;
        html.tag(" <code>")?;
        html.words(request.front.as_str())?;
        html.tag("</code></li>\n")?;
    }
    html.tag("</ol>\n")
}

fn put_link(html: &mut Html, request: u64, is_refused: bool) -> Result<(), NoMemory> {
    let class = if is_refused { "failed" } else { "held" };
    html.tag(format!(in html.alloc;
        "<a class=\"{class}\" href=\"#request-{request}\">Request {request}</a>"
    )?.as_str())
}

// For each rule of a file the requests that asked it, which are shown where its rule is clicked.
fn put_panels(html: &mut Html, index: usize, file: &RulesFile) -> Result<(), NoMemory> {
    for (rule, (source, count)) in file.sources.iter().zip(file.counts.iter()).enumerate() {
        html.tag(format!(in html.alloc;
            "<section class=\"panel\" id=\"asked-{index}-{rule}\">\n<a class=\"close\" href=\"#rule-{index}-{rule}\">Close</a>\n<h3>"
        )?.as_str())?;
        put_name(html, source)?;
        html.tag(": ")?;
        html.count(count.count)?;
        html.tag("</h3>\n<ol>\n")?;
        put_asks(html, &count.asks)?;
        html.tag("</ol>\n</section>\n")?;
    }
    Ok(())
}

fn put_asks(html: &mut Html, asks: &[Ask]) -> Result<(), NoMemory> {
    for ask in asks {
        let (class, answer) = match ask.answer {
            Outcome::Yes => ("held", "true"),
            Outcome::No => ("failed", "false"),
            Outcome::Erred => ("erred", "an error"),
        };
        let request = ask.request;
        html.tag(format!(in html.alloc;
            "<li><a href=\"#request-{request}\">Request {request}</a>, at <code>"
        )?.as_str())?;
        html.words(ask.place.as_str())?;
        html.tag(format!(in html.alloc;
            "</code>: <span class=\"{class}\">{answer}</span></li>\n"
        )?.as_str())?;
    }
    Ok(())
}

// The explanation of a request, which is shown where the request is clicked.
fn put_request(html: &mut Html, request: &JudgedRequest) -> Result<(), NoMemory> {
    let number = request.request;
    html.tag(format!(in html.alloc;
        "<section class=\"panel\" id=\"request-{number}\">\n<a class=\"close\" href=\"#closed\">Close</a>\n<pre>"
    )?.as_str())?;
    html.words(request.text.as_str().trim_end())?;
    html.tag("</pre>\n</section>\n")
}

const LEGEND: &str =
    "</p>\n<p class=\"legend\"><span class=\"held\">true each time</span><span class=\"failed\">false each time</span><span class=\"both\">true and false</span><span class=\"erred\">an error at least once</span><span class=\"unasked\">never asked</span></p>\n<p class=\"dim\">Point at a rule or at a part of it for its counts. Click a rule for the requests that asked it, and a request for its explanation. Runs of disconnect actions and listeners that are judged again are not counted.</p>\n";
