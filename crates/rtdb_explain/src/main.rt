//! `rtdb_explain`: why the requests of a script are refused.
//!
//! It reads a script as `rtdb run` does, and says of each request that the rules refuse which rules were asked, what
//! each of them answers, and which part of it decided. Which rules these are, and what each part means, is the
//! contract of [`explain_read`](request_explainer::explain_read) and of
//! [`explain_writes`](request_explainer::explain_writes), and that they are about this event in this state that of
//! [`explained`](reasons::explained); the words, and the page, are only tested. That what it finds in a rules file
//! without a script is certain is the contract of [`lint`](lint::lint).
#![tactic(auto)]

mod line;
mod reasons;
mod replay;

use explanation_texts::{Records, findings_in_words};
use line::{LineFault, Options, Task, order};
use replay::explain_script;
use rules_reader::{MAX_FILE_BYTES, RulesFault, compile};
use std::alloc::Global;
use std::fs::File;
use std::process::ExitCode;
use std::{env, fs, io};

const DONE: u8 = 0;

const REFUSED: u8 = 1;

const BAD_LINE: u8 = 2;

const FAILED: u8 = 3;

const NO_MEMORY: u8 = 4;

// The most bytes that are read of a rules file. One that has as many is refused.
const MOST_READ: u64 = MAX_FILE_BYTES as u64 + 1;

fn main(rt: HostRuntime) -> ExitCode {
    let status = match words_of(&rt) {
        Ok(words) => obey(&rt, &words),
        Err(fault) => match fault.kind() {
            io::ErrorKind::OutOfMemory => out_of_memory(&rt),
            _ => say(&rt, BAD_LINE, "the words of the command line are no text"),
        },
    };
    ExitCode::from(status)
}

// Does what the words want, of which the first is the program's name, and answers the status to end with.
fn obey(rt: &HostRuntime, words: &[String]) -> u8 {
    match order(rt.alloc(), words) {
        Ok(Task::Explain(options)) => explain(rt, options),
        Ok(Task::Lint(name)) => check(rt, name),
        Err(LineFault::Line(error)) => {
            let _reported = eprint!(rt; "{error}");
            BAD_LINE
        }
        Err(LineFault::NoMemory) => out_of_memory(rt),
    }
}

fn explain(rt: &HostRuntime, options: Options<'_>) -> u8 {
    let script = match input(rt, rt.alloc()) {
        Ok(script) => script,
        Err(fault) => return stream_fault(rt, &fault),
    };
    match explain_script(rt.alloc(), &script, options) {
        Ok(Some(records)) => show(rt, options, records),
        Ok(None) => say(
            rt,
            REFUSED,
            "the header of the script is refused: `rtdb run` and `rtdb check` say why",
        ),
        Err(_) => out_of_memory(rt),
    }
}

// Writes the page, if one is wanted, and prints the explanations.
fn show(rt: &HostRuntime, options: Options<'_>, records: Records) -> u8 {
    if let Some(name) = options.page {
        let Ok(page) = records.page() else {
            return out_of_memory(rt);
        };
        if let Err(fault) = fs::write(rt, name, page.as_str()) {
            return file_fault(rt, &fault, "can't write", name);
        }
    }
    match records.text() {
        Ok(text) => print(rt, DONE, &text),
        Err(_) => out_of_memory(rt),
    }
}

// Prints what is found in a rules file.
fn check(rt: &HostRuntime, name: &str) -> u8 {
    let file = match first_bytes(rt, rt.alloc(), name) {
        Ok(file) => file,
        Err(fault) => return file_fault(rt, &fault, "can't read", name),
    };
    match compile(rt.alloc(), &file) {
        Ok(_) => print_findings(rt, &file),
        Err(RulesFault::NoMemory) => out_of_memory(rt),
        Err(_) => say(rt, REFUSED, "the rules are refused: `rtdb check` says why"),
    }
}

fn print_findings(rt: &HostRuntime, file: &[u8]) -> u8 {
    match findings_in_words(rt.alloc(), file) {
        Ok(text) => if text.is_empty() {
            print(
                rt,
                DONE,
                "Nothing that certainly can't matter or can't be met.\n",
            )
        } else {
            print(rt, REFUSED, &text)
        },
        Err(_) => out_of_memory(rt),
    }
}

// The first bytes of a file.
fn first_bytes(rt: &HostRuntime, alloc: Global, name: &str) -> io::Result<Vec<u8>> {
    let mut bytes = Vec::new(alloc);
    io::Read::read_to_end(
        &mut io::Read::take(File::open(rt, name)?, MOST_READ),
        &mut bytes,
    )?;
    Ok(bytes)
}

fn file_fault(rt: &HostRuntime, fault: &io::Error, words: &str, name: &str) -> u8 {
    if fault.kind() == io::ErrorKind::OutOfMemory {
        return out_of_memory(rt);
    }
    let _reported = eprintln!(rt; "rtdb_explain: {words} {name}");
    FAILED
}

// The whole input.
fn input(rt: &HostRuntime, alloc: Global) -> io::Result<Vec<u8>> {
    let mut bytes = Vec::new(alloc);
    io::Read::read_to_end(&mut rt.reader(), &mut bytes)?;
    Ok(bytes)
}

fn print(rt: &HostRuntime, status: u8, text: &str) -> u8 {
    match print!(rt; "{text}") {
        Ok(()) => status,
        Err(fault) => stream_fault(rt, &fault),
    }
}

fn stream_fault(rt: &HostRuntime, fault: &io::Error) -> u8 {
    match fault.kind() {
        io::ErrorKind::OutOfMemory => out_of_memory(rt),
        _ => say(rt, FAILED, "input or output failed"),
    }
}

// The words of the command line, the program's name first.
fn words_of(rt: &HostRuntime) -> io::Result<Vec<String>> {
    let mut words = Vec::new(rt.alloc());
    for word in env::args(rt)? {
        if words.push(word).is_err() {
            return Err(io::Error::from(io::ErrorKind::OutOfMemory));
        }
    }
    Ok(words)
}

fn out_of_memory(rt: &HostRuntime) -> u8 {
    say(rt, NO_MEMORY, "out of memory")
}

// Says what is wrong. That saying so may fail changes nothing.
fn say(rt: &HostRuntime, status: u8, words: &str) -> u8 {
    let _reported = eprintln!(rt; "rtdb_explain: {words}");
    status
}
