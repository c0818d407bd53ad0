//! The command line, by `clap`.
ghost use Rattle.std.specs.Prelude.{◌≡◌, ◌≤◌, ◌⊎◌, ℕ, List, [], ◌∷◌, Some, false, map, drop, codes, string_bytes, Contains, IfOk, IfErr, IfSome};
ghost use Rattle.clap.specs.Words.{Text, app_of, fault_of, found_of, one_of, rows_of, rule_of, subcommand_of, subcommand_rows_of, FailsBy};
ghost use Rattle.clap.specs.declared.builder.command.Command.TheViews.{out-Command};
ghost use Rattle.command_line.specs.Order.{the_program, serve_app, option, number, Wanted, Served, checks, serves, wanted, served, served_by, wanted_by, number_at, number_of, AreOrder, Orders, IsLineFault, IsGiven, IsNumberIn};
ghost use Rattle.command_line.specs.Working.{AreOptions, IsReady};

use crate::wanted::{
    LineFault, MAX_PORT, MAX_ROUNDS, MAX_WORKERS, Order, ServeOptions, USUAL_ROUNDS, USUAL_WORKERS,
};
use clap::builder::ValueParser;
use clap::error::ErrorKind;
use clap::{Arg, ArgMatches, Command, Error};
use std::alloc::{AllocError, Global};

/// What these words want, of which the first is the program's name: `check` with a file, `serve` with its
/// options, or `run`, as no further word does. What they are else, a request for help among them, is a fault of
/// the line. It makes the program's description, and goes over the words once.
pub fn order<'a>(alloc: Global, words: &'a [String]) -> Result<Order<'a>, LineFault>
    ensures ok { IfOk result (Orders (map string_bytes words.entry.now)) }
    ensures err { IfErr result (IsLineFault (map string_bytes words.entry.now)) }
{
    match parse(alloc, words) {
        Ok(found) => Ok(order_of(&found)),
        Err(error) => if error.kind() == ErrorKind::OutOfMemory {
            Err(LineFault::NoMemory)
        } else {
            Err(LineFault::Line(error))
        },
    }
}

// What the command wants that was found.
fn order_of<'a>(found: &ArgMatches<'a>) -> Order<'a>
    requires { IsReady (subcommand_rows_of found.now) }
    ensures { wanted (subcommand_rows_of found.now) ≡ Some (wanted_by result) }
{
    if let Some(check) = found.subcommand_matches("check") {
        return Order::Check(check.get_str("FILE").unwrap());
    }
    if let Some(serve) = found.subcommand_matches("serve") {
        return Order::Serve(options_of(serve));
    }
    Order::Run
}

fn options_of<'a>(serve: &ArgMatches<'a>) -> ServeOptions<'a>
    requires { AreOptions (rows_of (found_of serve.now)) }
    ensures { served (rows_of (found_of serve.now)) ≡ Some (served_by result) }
{
    ServeOptions {
        rules_file: serve.get_str("rules").unwrap(),
        data_file: serve.get_str("data"),
        tokens_file: serve.get_str("tokens"),
        port: number_at(serve, "port").unwrap() as u16,
        workers: number_at(serve, "workers").unwrap_or(USUAL_WORKERS),
        rounds: number_at(serve, "rounds").unwrap_or(USUAL_ROUNDS),
    }
}

// The number of an option, where it is given.
fn number_at(serve: &ArgMatches<'_>, name: &str) -> Option<u64>
    requires { IfSome (one_of name.now (rows_of (found_of serve.now))) (IsNumberIn 1 1000000) }
    ensures { result ≡ number_at name.now (rows_of (found_of serve.now)) }
{
    serve.get_one::<u64>(name)
}

// What `clap` finds in the words.
fn parse<'a>(alloc: Global, words: &'a [String]) -> Result<ArgMatches<'a>, Error>
    ensures found { IfOk result (λ found. subcommand_rows_of found ≡ subcommand_of the_program (map string_bytes words.entry.now)) }
    ensures fails { FailsBy (fault_of the_program (map string_bytes words.entry.now)) result }
{
    let file = Arg::new(alloc, "FILE")
        .required(true)
        .help("The rules file to check");
    let check = Command::new(alloc, "check")
        .about("Checks a rules file, and says how many rules it has or why it is refused")
        .arg(file)?;
    let run = Command::new(alloc, "run").about(
        "Runs a script from standard input, as without a command",
    );
    let serve = serve_command(alloc)?;
    let program = Command::new(alloc, "rtdb")
        .version("0.1.0")
        .about("A realtime tree database under Security Rules")
        .subcommand(check)?
        .subcommand(run)?
        .subcommand(serve)?;
    program.try_get_matches_from(words)
}

fn serve_command<'a>(alloc: Global) -> Result<Command<'a>, AllocError>
    ensures app { IfOk result (λ command. app_of command ≡ serve_app) }
    ensures own { IfOk result (λ command. (out-Command command).has_globals ≡ false) }
{
    let rules = file_option(alloc, "rules", "The rules file").required(true);
    let data = file_option(alloc, "data", "The tree to begin with, as JSON");
    let tokens = file_option(alloc, "tokens", "Who may sign in, as JSON");
    let port = number_option(alloc, "port", MAX_PORT, "The port of 127.0.0.1").required(true);
    let workers = number_option(
        alloc,
        "workers",
        MAX_WORKERS,
        "Clients at once [default: 4]",
    );
    let rounds = number_option(
        alloc,
        "rounds",
        MAX_ROUNDS,
        "Clients of each worker [default: 1000000]",
    );
    Command::new(alloc, "serve")
        .about("Serves the database over WebSockets")
        .arg(rules)?
        .arg(data)?
        .arg(tokens)?
        .arg(port)?
        .arg(workers)?
        .arg(rounds)
}

// `--NAME FILE`.
fn file_option<'a>(alloc: Global, name: &'a str, help: &'a str) -> Arg<'a>
    ensures rule { rule_of result ≡ option name.entry.now }
    ensures own { result.global ≡ false }
{
    Arg::new(alloc, name)
        .long(name)
        .value_name("FILE")
        .help(help)
}

// `--NAME NUMBER`, from 1 to `most`.
fn number_option<'a>(alloc: Global, name: &'a str, most: u64, help: &'a str) -> Arg<'a>
    ensures rule { rule_of result ≡ number name.entry.now 1 most }
    ensures own { result.global ≡ false }
{
    Arg::new(alloc, name)
        .long(name)
        .value_name("NUMBER")
        .value_parser(ValueParser::unsigned(1, most))
        .help(help)
}

/// The file that a check wants is one of the words behind the program's name, and `check` without a file is no
/// order.
pub fn a_check_names_one_of_the_words()
    ensures named { (words : List Text) (name : List ℕ) → AreOrder words (checks name) → Contains (drop 1 words) name }
    ensures missing { (program : List ℕ) (order : Wanted) → AreOrder (program ∷ codes "check" ∷ []) order → ⊥ }
{}

/// The rules file and the port that a server wants stand in the words behind the program's name, and `serve` without
/// them is no order. Its numbers lie in their ranges; the last clauses have these, and the usual ones, in numbers.
pub fn a_server_has_its_rules_and_its_port()
    ensures rules { (words : List Text) (options : Served) → AreOrder words (serves options) → IsGiven (drop 1 words) (codes "rules") options.rules_file }
    ensures port { (words : List Text) (options : Served) → AreOrder words (serves options)
        → (text : Text) × IsGiven (drop 1 words) (codes "port") text × IsNumberIn 1 MAX_PORT text × (options.port ≡ number_of text) }
    ensures workers { (words : List Text) (options : Served) → AreOrder words (serves options) → (1 ≤ options.workers) × (options.workers ≤ MAX_WORKERS) }
    ensures rounds { (words : List Text) (options : Served) → AreOrder words (serves options) → (1 ≤ options.rounds) × (options.rounds ≤ MAX_ROUNDS) }
    ensures missing { (program : List ℕ) (order : Wanted) → AreOrder (program ∷ codes "serve" ∷ []) order → ⊥ }
    ensures ranges { (MAX_PORT ≡ 65535) × (MAX_WORKERS ≡ 64) × (MAX_ROUNDS ≡ 1000000) }
    ensures usual { (USUAL_WORKERS ≡ 4) × (USUAL_ROUNDS ≡ 1000000) }
{}

/// Words in which `clap` finds no fault are an order: none of them lacks what its command needs.
pub fn faultless_words_are_an_order()
    ensures { (words : List Text) → fault_of the_program words ≡ [] → (order : Wanted) × AreOrder words order }
{}
