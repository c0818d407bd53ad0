//! What the program does for the words of its command line.
ghost use Rattle.std.specs.Prelude.{◌≡◌, ◌≢◌, ◌<◌, ◌⊎◌, [], map, length, string_bytes, true, false, IfOk};
ghost use Rattle.std.specs.Io.KnownBytes.{Appends};
ghost use Rattle.clap.specs.Words.{fault_of};
ghost use Rattle.scripts.specs.Said.{as_line};
ghost use Rattle.sessions.specs.Calls.{AsksAny};
ghost use Rattle.command_line.specs.Order.{the_program, Wanted, AreOrder};
ghost use Rattle.rtdb.specs.Status.{bad_line, done, failed, no_memory, status_of};
ghost use Rattle.rtdb.specs.Command.{IsChecked, HasChecked, HasRun, HasDone};
ghost use Rattle.rtdb.specs.Working.{IsTooLong};

use crate::explain::explain_rules;
use crate::files::{Files, ReadFault};
use crate::printing::Printing;
use crate::serve::serve;
use answers::{write_accepted, write_rules_fault};
use bumpalo::Bump;
use command_line::{LineFault, Order, order};
use json_tree::NoMemory;
use rules_reader::{MAX_FILE_BYTES, compile};
use scripts::{ScriptEnd, Sink, Source, run_last_script, send_text};
use sessions::Caller;
use std::alloc::Global;
use std::io;
use std::net::{Net, TcpListener, TcpStream};
use std::thread::Threads;
use std::time::Clock;

// The statuses that the program ends with: all was done.
pub(crate) const DONE: u8 = 0;

// A file was refused.
pub(crate) const REFUSED: u8 = 1;

/// A fault of the command line.
pub const BAD_LINE: u8 = 2;

// A file could not be read, or an output not be written.
pub(crate) const FAILED: u8 = 3;

// Want of memory.
const NO_MEMORY: u8 = 4;

/// Does what the words want, of which the first is the program's name, and answers the status to end
/// with. What is wrong with the words, a file or a stream, and that memory is used up, is reported to `faults`; that
/// this may fail changes nothing. A check holds the file in memory, and its plain text; of a file that is longer
/// than a rules file may be it reads one byte more than that, and so does a server, which holds its other files whole.
pub fn command<
    R: Net<Listener = TcpListener, Stream = TcpStream> + Threads + Clock + Sync,
    Q: Caller + Sync,
    F: Files,
    I: Source,
    W: Sink,
    E: io::Write,
>(
    rt: &R,
    caller: &Q,
    alloc: Global,
    words: &[String],
    files: &F,
    input: &mut I,
    output: &mut Printing<W>,
    faults: &mut E,
) -> u8
    requires unread { I.reads input.old ≡ 0 }
    requires input { I.failed input.old ≡ false }
    requires output { W.failed output.old.sink ≡ false }
    requires asks { AsksAny Q.asks }
    // An order is obeyed, where memory suffices to find it.
    ensures order { (wanted : Wanted) → AreOrder (map string_bytes words.now) wanted
        → HasDone (F.bytes files.now) wanted (record { left = I.left input.old; source = record { left = I.left input.new; failed = I.failed input.new; reads = I.reads input.new }; before = W.written output.old.sink; after = W.written output.new.sink; has_failed = W.failed output.new.sink }) result
        ⊎ ((result ≡ no_memory) × Appends (W.written output.old.sink) (W.written output.new.sink) []) }
    // An output that failed is reported.
    ensures broken { W.failed output.new.sink ≡ true → result ≡ failed }
    // Words that are not an order are refused, and nothing is printed.
    ensures fault { fault_of the_program (map string_bytes words.now) ≢ []
        → ((result ≡ bad_line) ⊎ (result ≡ no_memory)) × Appends (W.written output.old.sink) (W.written output.new.sink) [] }
    // Where all is done, no fault is reported.
    ensures quiet { result ≡ done → E.contents faults.new ≡ E.contents faults.old }
{
    match order(alloc, words) {
        Ok(Order::Check(name)) => check(alloc, files, name, &mut output.sink, faults),
        Ok(Order::Run) => run(alloc, input, &mut output.sink, faults),
        Ok(Order::Serve(options)) => serve(rt, caller, alloc, files, &options, output, faults),
        Err(LineFault::Line(error)) => {
            let _reported = write!(faults, "{error}");
            BAD_LINE
        }
        Err(LineFault::NoMemory) => out_of_memory(faults),
    }
}

// Reports that memory is used up, and says the status.
pub(crate) fn out_of_memory<E: io::Write>(faults: &mut E) -> u8
    ensures { result ≡ no_memory }
{
    let _reported = writeln!(faults, "rtdb: out of memory");
    NO_MEMORY
}

// Runs a script.
fn run<R: Source, W: Sink, E: io::Write>(
    alloc: Global,
    input: &mut R,
    output: &mut W,
    faults: &mut E,
) -> u8
    requires unread { R.reads input.old ≡ 0 }
    requires input { R.failed input.old ≡ false }
    requires output { W.failed output.old ≡ false }
    ensures ran { HasRun (record { left = R.left input.old; source = record { left = R.left input.new; failed = R.failed input.new; reads = R.reads input.new }; before = W.written output.old; after = W.written output.new; has_failed = W.failed output.new }) result }
    ensures broken { W.failed output.new ≡ true → result ≡ failed }
    ensures quiet { result ≡ done → E.contents faults.new ≡ E.contents faults.old }
{
    let mut arena = Bump::new(alloc);
    let end = run_last_script(alloc, input, output, &mut arena);
    report(end, faults);
    status_of(end)
}

// Reports how a script ended, where that is neither its own end nor a header that is refused.
fn report<E: io::Write>(end: ScriptEnd, faults: &mut E)
    ensures quiet { status_of end ≡ done → E.contents faults.new ≡ E.contents faults.old }
{
    match end {
        ScriptEnd::Finished | ScriptEnd::BadHeader => {}
        ScriptEnd::ReadFault | ScriptEnd::WriteFault => {
            let _reported = writeln!(faults, "rtdb: input or output failed");
        }
        ScriptEnd::NoMemory => {
            let _status = out_of_memory(faults);
        }
    }
}

fn status_of(end: ScriptEnd) -> u8
    ensures { result ≡ status_of end }
{
    match end {
        ScriptEnd::Finished => DONE,
        ScriptEnd::BadHeader => REFUSED,
        ScriptEnd::ReadFault | ScriptEnd::WriteFault => FAILED,
        ScriptEnd::NoMemory => NO_MEMORY,
    }
}

// Checks a rules file, and prints whether it is accepted.
fn check<F: Files, W: Sink, E: io::Write>(
    alloc: Global,
    files: &F,
    name: &str,
    output: &mut W,
    faults: &mut E,
) -> u8
    requires { W.failed output.old ≡ false }
    ensures checked { HasChecked (F.bytes files.now name.now) (W.written output.old) (W.written output.new) (W.failed output.new) result }
    ensures broken { W.failed output.new ≡ true → result ≡ failed }
    ensures quiet { result ≡ done → E.contents faults.new ≡ E.contents faults.old }
{
    match files.read(alloc, name, MAX_FILE_BYTES) {
        Ok(bytes) => match answer(alloc, &bytes) {
            Ok(answer) => {
                explain_rules(alloc, answer.status, name, &bytes, faults);
                print(&answer, output, faults)
            }
            Err(_) => out_of_memory(faults),
        },
        Err(ReadFault::Unreadable) => {
            let _reported = writeln!(faults, "rtdb: can't read {name}");
            FAILED
        }
        Err(ReadFault::NoMemory) => out_of_memory(faults),
    }
}

// A line to be printed, and the status that goes with it.
#[derive(Drop)]
pub(crate) struct Told {
    pub(crate) line: Vec<u8>,
    pub(crate) status: u8,
}

// The answer to a file of these bytes.
fn answer(alloc: Global, bytes: &[u8]) -> Result<Told, NoMemory>
    ensures checked { IfOk result (λ answer. IsChecked bytes.now answer.line.items answer.status) }
    ensures too_long { MAX_FILE_BYTES < length bytes.now → IfOk result (λ answer. IsTooLong answer.line.items answer.status) }
{
    match compile(alloc, bytes) {
        Ok(rules) => Ok(Told {
            line: as_line(write_accepted(alloc, rules.count())?)?,
            status: DONE,
        }),
        Err(fault) => Ok(Told {
            line: as_line(write_rules_fault(alloc, &fault)?)?,
            status: REFUSED,
        }),
    }
}

pub(crate) fn as_line(mut text: Vec<u8>) -> Result<Vec<u8>, NoMemory>
    ensures { IfOk result (λ line. line.items ≡ as_line text.items) }
{
    text.push(b'\n')?;
    Ok(text)
}

// Prints an answer, and says the status.
pub(crate) fn print<W: Sink, E: io::Write>(answer: &Told, output: &mut W, faults: &mut E) -> u8
    requires { W.failed output.old ≡ false }
    ensures printed { ((result ≡ answer.now.status) × Appends (W.written output.old) (W.written output.new) answer.now.line.items) ⊎ ((result ≡ failed) × (W.failed output.new ≡ true)) }
    ensures broken { W.failed output.new ≡ true → result ≡ failed }
    ensures quiet { result ≡ done → E.contents faults.new ≡ E.contents faults.old }
{
    match send_text(output, &answer.line) {
        Ok(()) => answer.status,
        Err(_) => no_output(faults),
    }
}

// Reports that nothing can be printed, and says the status.
pub(crate) fn no_output<E: io::Write>(faults: &mut E) -> u8
    ensures { result ≡ failed }
{
    let _reported = writeln!(faults, "rtdb: input or output failed");
    FAILED
}
