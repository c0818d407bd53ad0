//! What is wrong with a rules file, and where.

use rules_reader::RulesFault;

/// A fault of a rules file, and where it shows.
#[derive(Debug, Drop)]
pub struct Finding {
    /// For which fault a deployment refuses a file that has this one alone.
    pub fault: RulesFault,
    /// The byte of the file where it shows, from 0, where that was found.
    pub place: Option<usize>,
    /// What is wrong and what to do, in a line of text.
    pub advice: String,
}

/// What is wrong with a rules file.
#[derive(Debug, Drop)]
pub struct Diagnosis {
    /// The fault that a deployment answers.
    pub answered: Finding,
    /// The others, in the order in which they are written.
    pub others: Vec<Finding>,
    /// How many of the others are written before the one that is answered.
    pub before: usize,
}
