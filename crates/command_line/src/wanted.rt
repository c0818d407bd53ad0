//! What a command line wants.
ghost use Rattle.std.specs.Prelude.{◌≤◌};
ghost use Rattle.command_line.specs.declared.wanted.TheConstants.{MAX_WORKERS, MAX_ROUNDS};

use clap::Error;

/// The last port that there is.
pub const MAX_PORT: u64 = 65_535;

/// The most workers that a server has.
pub const MAX_WORKERS: u64 = 64;

/// The most connections that each worker serves.
pub const MAX_ROUNDS: u64 = 1_000_000;

/// The workers of a server whose words don't say how many.
pub const USUAL_WORKERS: u64 = 4;

/// The connections of each worker where the words don't say how many.
pub const USUAL_ROUNDS: u64 = MAX_ROUNDS;

/// What a server is to serve, and how.
#[derive(Clone, Copy, Debug, PartialEq, Eq)]
pub struct ServeOptions<'a> {
    /// The name of the rules file.
    pub rules_file: &'a str,
    /// The name of the file of the opening tree.
    pub data_file: Option<&'a str>,
    /// The name of the file of the tokens.
    pub tokens_file: Option<&'a str>,
    /// The port to listen on.
    pub port: u16,
    /// How many threads serve, each one connection at a time.
    pub workers: u64,
    /// How many connections each worker serves, one after another.
    pub rounds: u64,
    pub ghost has_port: { 1 ≤ port },
    pub ghost has_workers: { 1 ≤ workers },
    pub ghost few_workers: { workers ≤ MAX_WORKERS },
    pub ghost has_rounds: { 1 ≤ rounds },
    pub ghost few_rounds: { rounds ≤ MAX_ROUNDS },
}

/// What the words of a command line want.
#[derive(Clone, Copy, Debug, PartialEq, Eq)]
pub enum Order<'a> {
    /// To check the rules file of this name.
    Check(&'a str),
    /// To run a script from the input.
    Run,
    /// To serve sessions over sockets.
    Serve(ServeOptions<'a>),
}

/// Why words are no order.
#[derive(Drop)]
pub enum LineFault {
    /// The fault of the line, or a request for help or for the version, which has its text.
    Line(Error),
    NoMemory,
}
