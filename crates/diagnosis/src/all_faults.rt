//! All that is wrong with a rules file.
ghost use Rattle.std.specs.Prelude.{ℕ, List, ◌≡◌, ◌≢◌, ◌<◌, ◌≤◌, None, Some, IfOk, IfSome, option_map, length};
ghost use Rattle.std.specs.List.{AllByRecursion};
ghost use Rattle.serde_json.specs.View.{view};
ghost use Rattle.rules_reader.specs.Book.{Book};
ghost use Rattle.rules_reader.specs.File.{States, json_of};
ghost use Rattle.rules_reader.specs.Plain.{IsPlain};
ghost use Rattle.rules_reader.specs.Refusal.{Refuses};
ghost use Rattle.rules_reader.specs.declared.fault.RulesFault.TheVariants.{NoMemory as no_memory};
ghost use Rattle.diagnosis.specs.Finding.{IsAnswered, AreFindings, IsRight, IsPlaceOf};

use crate::advice::{FileSort, advice_on_json};
use crate::end_of_json::end_of_json;
use crate::finding::{Diagnosis, Finding};
use crate::search::Search;
use crate::spots::spots;
use crate::written::read_text;
use json_tree::NoMemory;
use rules_reader::{MAX_FILE_BYTES, RulesFault, compile, plain};
use std::alloc::Global;

/// The most faults that are named.
pub const MAX_FINDINGS: usize = 20;

/// What is wrong with a rules file, `None` where nothing is: the fault that a deployment of it answers, and others, in
/// the order in which they are written, with the places where they show.
///
/// It is for a person who waits: it reads a file that is refused once more for each place that it names, and for a
/// rule's place the rule once more for each of its bytes.
pub fn diagnose(alloc: Global, file: &[u8]) -> Result<Option<Diagnosis>, NoMemory>
    // Nothing is found where the file is accepted, and there alone.
    ensures accepted { IfOk result (λ found. found ≡ None → (book : Book) × States file.now book) }
    // The answered one is what a deployment answers.
    ensures answered { IfOk result (λ found. IfSome found (λ diagnosis. IsAnswered file.now diagnosis.answered)) }
    // The others are faults of the file, too.
    ensures others { IfOk result (λ found. IfSome found (λ diagnosis. AreFindings file.now diagnosis.others.items)) }
    ensures few { IfOk result (λ found. IfSome found (λ diagnosis. length diagnosis.others.items < MAX_FINDINGS)) }
{
    match compile(alloc, file) {
        Ok(_) => Ok(None),
        Err(RulesFault::NoMemory) => Err(NoMemory),
        Err(fault) => {
            let text = plain(alloc, file)?;
            Ok(Some(diagnosis_of(alloc, file, &text, fault)?))
        }
    }
}

// What is wrong with a text, which is refused for this fault.
fn diagnosis_of(
    alloc: Global,
    file: &[u8],
    text: &[u8],
    fault: RulesFault,
) -> Result<Diagnosis, NoMemory>
    ensures answered { IfOk result (λ diagnosis. (diagnosis.answered.fault ≡ fault) × IfSome diagnosis.answered.place (IsPlaceOf text.now fault)) }
    ensures others { IfOk result (λ diagnosis. AllByRecursion (IsRight text.now) diagnosis.others.items) }
    ensures few { IfOk result (λ diagnosis. length diagnosis.others.items < MAX_FINDINGS) }
{
    let Some(value) = read_text(alloc, text)? else {
        return diagnosis_of_json(alloc, file, text, fault);
    };
    let Ok(words) = str::from_utf8(text) else {
        return diagnosis_of_json(alloc, file, text, fault);
    };
    let found = spots(alloc, words)?;
    let search = Search {
        alloc,
        text,
        value: &value,
        spots: &found,
    };
    let spot = search.spot_of(&fault)?;
    let others = search.others(spot)?;
    let (place, advice) = search.answered(&fault, spot)?;
    let before = rank(&others, place);
    let answered = Finding {
        fault,
        place,
        advice,
    };
    Ok(Diagnosis {
        answered,
        others,
        before,
    })
}

// The one fault of a text that is no JSON, or too long.
fn diagnosis_of_json(
    alloc: Global,
    file: &[u8],
    text: &[u8],
    fault: RulesFault,
) -> Result<Diagnosis, NoMemory>
    ensures answered { IfOk result (λ diagnosis. (diagnosis.answered.fault ≡ fault) × IfSome diagnosis.answered.place (IsPlaceOf text.now fault)) }
    ensures others { IfOk result (λ diagnosis. AllByRecursion (IsRight text.now) diagnosis.others.items) }
    ensures few { IfOk result (λ diagnosis. length diagnosis.others.items < MAX_FINDINGS) }
{
    let stopped = fault_in_json(alloc, text)?;
    let (place, advice) = advice_on_json(alloc, FileSort::Rules, file, text, stopped)?;
    let place = place.min(text.len());
    let answered = Finding {
        place: place_in_json(&fault, place),
        fault,
        advice,
    };
    Ok(Diagnosis {
        answered,
        others: Vec::new(alloc),
        before: 0,
    })
}

// The place, where the fault is that of a text that is no JSON.
fn place_in_json(fault: &RulesFault, place: usize) -> Option<usize>
    ensures { (text : List ℕ) → place ≤ length text → IfSome result (IsPlaceOf text fault.now) }
{
    match fault {
        RulesFault::BadRulesJson => Some(place),
        _ => None,
    }
}

// Where a text stops to be JSON, or is too long.
fn fault_in_json(alloc: Global, text: &[u8]) -> Result<usize, NoMemory>
    ensures { IfOk result (λ place. place ≤ length text.now) }
{
    if text.len() > MAX_FILE_BYTES {
        return Ok(MAX_FILE_BYTES);
    }
    end_of_json(alloc, text)
}

// How many of these findings are written before a place.
fn rank(findings: &Vec<Finding>, place: Option<usize>) -> usize {
    findings
        .iter()
        .filter(|finding| finding.place < place)
        .count()
}
