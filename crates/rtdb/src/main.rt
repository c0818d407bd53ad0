//! `rtdb`: a realtime tree database under Security Rules.
//!
//! `rtdb run` reads a script of JSON lines, a rules file and then requests, and answers each line;
//! `rtdb check FILE` says whether a rules file is accepted; `rtdb serve` serves the database that its files open over
//! WebSockets. What they print is the contract of [`command`], which for a script is that of
//! [`run_last_script`](scripts::run_last_script): each read and write is granted exactly when the rules hold at some
//! prefix, each denial names its rules, and what is refused changes nothing.
#![tactic(auto)]

mod command;
mod contents;
mod explain;
mod files;
mod opening;
mod printing;
mod serve;

use command::{BAD_LINE, command, out_of_memory};
use files::SystemFiles;
use printing::Printing;
use scripts::{Reading, Writing};
use sessions::HallCaller;
use std::process::ExitCode;
use std::{env, io, thread};

// All is done on a second thread, where the system gives one. The stack of the first grows as it is used, and where the
// system refuses that, the program is killed: a stranger's rules file that nests deep could do so. The stack of the second
// is there from the start.
fn main(rt: HostRuntime) -> ExitCode {
    let obeyed = || match words_of(&rt) {
        Ok(words) => command(
            &rt,
            &HallCaller::new(&rt),
            rt.alloc(),
            &words,
            &SystemFiles::new(&rt),
            &mut Reading::new(rt.reader()),
            &mut Printing::new(Writing::new(io::writer(&rt))),
            &mut rt.stderr(),
        ),
        Err(fault) => match fault.kind() {
            io::ErrorKind::OutOfMemory => out_of_memory(&mut rt.stderr()),
            _ => refuse(&rt),
        },
    };
    let (status, ()) = thread::join(&rt, obeyed, || ());
    ExitCode::from(status)
}

// The words of the command line, the program's name first.
fn words_of(rt: &HostRuntime) -> io::Result<Vec<String>> {
    let mut words = Vec::new(rt.alloc());
    for word in env::args(rt)? {
        if words.push(word).is_err() {
            return Err(io::Error::from(io::ErrorKind::OutOfMemory));
        }
    }
    Ok(words)
}

// Says that the words are no text. That saying so may fail changes nothing.
fn refuse(rt: &HostRuntime) -> u8 {
    let _reported = eprintln!(rt; "rtdb: the words of the command line are no text");
    BAD_LINE
}
