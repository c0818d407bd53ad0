//! What is recorded of a script.

use crate::page::{JudgedRequest, page_of};
use crate::report::{Fate, Report, front_of};
use crate::rules_file::RulesFile;
use json_tree::NoMemory;
use judge::Verdict;
use request_explainer::Explanation;
use rtdb_model::Event;
use std::alloc::Global;

/// What is recorded of a script: the text of its explanations, and for a page its rules files, with how often each rule
/// was asked, and its requests.
#[derive(Drop)]
pub struct Records {
    alloc: Global,
    all: bool,
    has_page: bool,
    report: Report,
    // The last of these is in force.
    files: Vec<RulesFile>,
    requests: Vec<JudgedRequest>,
}

impl Records {
    /// What is recorded of a script with these rules in its header, before its first request: with or without
    /// explanations of requests that are granted, and what a page needs.
    pub fn new(
        alloc: Global,
        all: bool,
        has_page: bool,
        rules: String,
    ) -> Result<Records, NoMemory> {
        let mut files = Vec::new(alloc);
        files.push(RulesFile::of_text(alloc, rules.as_str(), 0)?)?;
        Ok(Records {
            alloc,
            all,
            has_page,
            report: Report::new(alloc),
            files,
            requests: Vec::new(alloc),
        })
    }

    /// The allocator that it keeps.
    pub fn alloc(&self) -> Global {
        self.alloc
    }

    /// Whether explanations of requests that are granted are recorded.
    pub fn takes_granted(&self) -> bool {
        self.all || self.has_page
    }

    /// Counts a request.
    pub fn count(&mut self, fate: Fate) {
        self.report.count(fate);
    }

    /// Takes the rules that the request deployed which was counted last.
    pub fn deploy(&mut self, rules: &str) -> Result<(), NoMemory> {
        let since = self.report.total();
        self.files
            .push(RulesFile::of_text(self.alloc, rules, since)?)?;
        Ok(())
    }

    /// Records the explanation of the request that was counted last.
    pub fn add(
        &mut self,
        line: &[u8],
        event: &Event,
        explanation: &Explanation<'_>,
    ) -> Result<(), NoMemory> {
        let request = self.report.total();
        let is_refused = !matches!(explanation.verdict, Verdict::Granted);
        let Some(rules) = self.files.last_mut() else {
            return Ok(());
        };
        if self.all || is_refused {
            self.report
                .append(request, line, event, explanation, rules)?;
        }
        if self.has_page {
            rules.count(request, explanation)?;
            let mut own = Report::new(self.alloc);
            own.append(request, line, event, explanation, rules)?;
            self.requests.push(JudgedRequest {
                request,
                is_refused,
                front: front_of(self.alloc, line)?,
                text: own.text(),
            })?;
        }
        Ok(())
    }

    /// The page.
    pub fn page(&self) -> Result<String, NoMemory> {
        let sentence = self.report.sentence()?;
        page_of(self.alloc, &self.files, &self.requests, sentence.as_str())
    }

    /// The text of the explanations, with a count of the requests last.
    pub fn text(self) -> Result<String, NoMemory> {
        let Records { report, .. } = self;
        let sentence = report.sentence()?;
        let mut text = report.text();
        text.push_str(sentence.as_str())?;
        text.push('\n')?;
        Ok(text)
    }
}
