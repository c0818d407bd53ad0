//! All that is found in a rules file.
ghost use Rattle.std.specs.Prelude.{◌≡◌, [], IfOk};
ghost use Rattle.std.specs.List.{AllByRecursion};
ghost use Rattle.rules_reader.specs.Book.{Book};
ghost use Rattle.rules_reader.specs.File.{States};
ghost use Rattle.lint.specs.Finding.{IsCertain};

use crate::captures::all_rules;
use crate::finding::Finding;
use crate::members::Outline;
use crate::search::Search;
use json_tree::NoMemory;
use rules_reader::{Rules, RulesFault, a_file_has_one_answer, compile, plain};
use std::alloc::Global;

/// What in a rules file has no effect or can't be met, in the order in which it is written; nothing of a file that is
/// refused. Each member has one finding at most.
///
/// It is for a person who waits: it reads the file twice, and climbs down to the object of each member; with captures
/// that may be unused it compares each rule with all others and with each of these captures.
pub fn lint(alloc: Global, file: &[u8]) -> Result<Vec<Finding>, NoMemory>
    // Each finding holds of what the file states.
    ensures certain { IfOk result (λ findings. (book : Book) → States file.now book → AllByRecursion (IsCertain book) findings.items) }
    // A file that is refused states nothing.
    ensures refused { IfOk result (λ findings. ((book : Book) → ¬ (States file.now book)) → findings.items ≡ []) }
{
    a_file_has_one_answer();
    match compile(alloc, file) {
        Ok(rules) => {
            let text = plain(alloc, file)?;
            findings_of(alloc, &rules, &text)
        }
        Err(RulesFault::NoMemory) => Err(NoMemory),
        Err(_) => Ok(Vec::new(alloc)),
    }
}

// What is found in rules, the plain text of whose file this is.
fn findings_of(alloc: Global, rules: &Rules, text: &[u8]) -> Result<Vec<Finding>, NoMemory>
    ensures { IfOk result (λ findings. AllByRecursion (IsCertain rules.now) findings.items) }
{
    match str::from_utf8(text) {
        Ok(words) => findings_in(alloc, rules, &Outline::read(alloc, words)?),
        Err(_) => Ok(Vec::new(alloc)),
    }
}

// What is found in rules at these members.
fn findings_in(alloc: Global, rules: &Rules, outline: &Outline) -> Result<Vec<Finding>, NoMemory>
    ensures { IfOk result (λ findings. AllByRecursion (IsCertain rules.now) findings.items) }
{
    let search = Search {
        alloc,
        root: rules.root(),
        outline,
        all: all_rules(alloc, rules, outline)?,
    };
    search.findings()
}
