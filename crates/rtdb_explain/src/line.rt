//! The command line, by `clap`.

use clap::error::ErrorKind;
use clap::{Arg, ArgAction, ArgMatches, Command, Error};
use std::alloc::Global;

/// What the words of a command line want.
#[derive(Clone, Copy, Debug, PartialEq, Eq)]
pub(crate) enum Task<'a> {
    Explain(Options<'a>),
    /// To lint the rules file of this name.
    Lint(&'a str),
}

/// What is wanted of the explanations of a script.
#[derive(Clone, Copy, Debug, PartialEq, Eq)]
pub(crate) struct Options<'a> {
    /// Whether requests that are granted are explained too.
    pub(crate) all: bool,
    /// The file that the page is written to.
    pub(crate) page: Option<&'a str>,
}

/// Why words are no order.
#[derive(Drop)]
pub(crate) enum LineFault {
    /// The fault of the line, or a request for help or for the version, which has its text.
    Line(Error),
    NoMemory,
}

/// What these words want, of which the first is the program's name.
pub(crate) fn order<'a>(alloc: Global, words: &'a [String]) -> Result<Task<'a>, LineFault> {
    match parse(alloc, words) {
        Ok(found) => Ok(match found.get_str("lint") {
            Some(name) => Task::Lint(name),
            None => Task::Explain(Options {
                all: found.get_flag("all"),
                page: found.get_str("page"),
            }),
        }),
        Err(error) => if error.kind() == ErrorKind::OutOfMemory {
            Err(LineFault::NoMemory)
        } else {
            Err(LineFault::Line(error))
        },
    }
}

fn parse<'a>(alloc: Global, words: &'a [String]) -> Result<ArgMatches<'a>, Error> {
    let all = Arg::new(alloc, "all")
        .long("all")
        .action(ArgAction::SetTrue)
        .help("Explains the requests that are granted, too");
    let page = Arg::new(alloc, "page").long("page").value_name("FILE").help(
        "Writes a page (HTML) that shows which rules were asked, and what they answered",
    );
    let lint = Arg::new(alloc, "lint")
        .long("lint")
        .value_name("RULES")
        .help(
            "Reads no script, and names what in a rules file certainly has no effect or can't be met",
        )
        .conflicts_with("all")?
        .conflicts_with("page")?;
    let program = Command::new(alloc, "rtdb_explain")
        .version("0.1.0")
        .about("Says why the requests of a script are refused, which it reads from standard input")
        .arg(all)?
        .arg(page)?
        .arg(lint)?;
    program.try_get_matches_from(words)
}
