//! What the program does to serve.
ghost use Rattle.std.specs.Prelude.{◌≡◌, ◌⊎◌, true, false, IfOk, OnOk, ◌++◌};
ghost use Rattle.scripts.specs.Said.{as_line, header_fault_text};
ghost use Rattle.rtdb.specs.Command.{HasServed};
ghost use Rattle.command_line.specs.Order.{served_by};
ghost use Rattle.sessions.specs.Calls.{AsksAny};
ghost use Rattle.rtdb.specs.Status.{done, failed, no_memory, refused};
ghost use Rattle.rtdb.specs.Working.{IsServedOr, IsTold};

use crate::command::{DONE, FAILED, REFUSED, Told, as_line, no_output, out_of_memory, print};
use crate::contents::read_contents;
use crate::explain::explain_fault;
use crate::files::Files;
use crate::opening::open_contents;
use crate::printing::Printing;
use answers::AnswerWriter;
use command_line::ServeOptions;
use json_tree::NoMemory;
use locked_server::Hall;
use rtdb_core::{Core, Refusal};
use scripts::{HeaderFault, Opened, Sink};
use server::{Listener, OpenGate, ServerFault, Shifts, serve_on};
use sessions::Caller;
use std::alloc::Global;
use std::io;
use std::net::{Net, TcpListener, TcpStream};
use std::thread::Threads;
use std::time::Clock;

/// Serves the database that the files open, or prints why they open none.
pub fn serve<
    R: Net<Listener = TcpListener, Stream = TcpStream> + Threads + Clock + Sync,
    Q: Caller + Sync,
    F: Files,
    W: Sink,
    E: io::Write,
>(
    rt: &R,
    caller: &Q,
    alloc: Global,
    files: &F,
    options: &ServeOptions<'_>,
    output: &mut Printing<W>,
    faults: &mut E,
) -> u8
    requires output { W.failed output.old.sink ≡ false }
    requires asks { AsksAny Q.asks }
    ensures served { HasServed (F.bytes files.now) (served_by options.now) (W.written output.old.sink) (W.written output.new.sink) (W.failed output.new.sink) result }
    ensures broken { W.failed output.new.sink ≡ true → result ≡ failed }
    ensures quiet { result ≡ done → E.contents faults.new ≡ E.contents faults.old }
{
    match read_contents(alloc, files, options, faults) {
        Ok(contents) => match open_contents(alloc, &contents) {
            Ok(opened) => listen(rt, caller, alloc, opened, options, output, faults),
            Err(fault) => {
                explain_fault(alloc, &fault, options, &contents, faults);
                refuse(alloc, &fault, &mut output.sink, faults)
            }
        },
        Err(status) => status,
    }
}

// Listens on the port, and serves.
fn listen<
    R: Net<Listener = TcpListener, Stream = TcpStream> + Threads + Clock + Sync,
    Q: Caller + Sync,
    W: Sink,
    E: io::Write,
>(
    rt: &R,
    caller: &Q,
    alloc: Global,
    opened: Opened,
    options: &ServeOptions<'_>,
    output: &mut Printing<W>,
    faults: &mut E,
) -> u8
    requires output { W.failed output.old.sink ≡ false }
    requires asks { AsksAny Q.asks }
    ensures served { IsServedOr opened (served_by options.now) (W.written output.old.sink) (W.written output.new.sink) (W.failed output.new.sink) result }
    ensures broken { W.failed output.new.sink ≡ true → result ≡ failed }
    ensures quiet { result ≡ done → E.contents faults.new ≡ E.contents faults.old }
{
    let Opened { core, tokens } = opened;
    let Ok(listener) = Listener::bind(rt, options.port) else {
        return no_listener(faults);
    };
    let Ok((hall, mut seat)) = Hall::new(alloc, core) else {
        return out_of_memory(faults);
    };
    let shifts = Shifts {
        workers: options.workers,
        rounds: options.rounds,
    };
    let end = serve_on(
        rt, caller, alloc, &listener, &hall, &mut seat, &tokens, &OpenGate, shifts, output,
    );
    let core = caller.close(hall, seat);
    match end {
        Ok(()) => give_up(core),
        Err(ServerFault::Output) => no_output(faults),
        Err(ServerFault::NoMemory) => out_of_memory(faults),
    }
}

// Gives up the database that a server leaves, and says the status.
fn give_up(core: Core) -> u8
    ensures { result ≡ done }
{
    drop(core);
    DONE
}

// Reports that nothing listens.
fn no_listener<E: io::Write>(faults: &mut E) -> u8
    ensures { result ≡ failed }
{
    let _reported = writeln!(faults, "rtdb: can't listen");
    FAILED
}

// Prints why files open no database.
fn refuse<W: Sink, E: io::Write>(
    alloc: Global,
    fault: &HeaderFault,
    output: &mut W,
    faults: &mut E,
) -> u8
    requires { W.failed output.old ≡ false }
    ensures told { IsTold fault.now (W.written output.old) (W.written output.new) (W.failed output.new) result }
    ensures broken { W.failed output.new ≡ true → result ≡ failed }
{
    match refusal(alloc, fault) {
        Ok(refusal) => print(&refusal, output, faults),
        Err(_) => out_of_memory(faults),
    }
}

// The line that reports a fault, and the status that goes with it.
fn refusal(alloc: Global, fault: &HeaderFault) -> Result<Told, NoMemory>
    ensures line { IfOk result (λ refusal. refusal.line.items ≡ as_line (header_fault_text fault.now)) }
    ensures status { IfOk result (λ refusal. refusal.status ≡ refused) }
{
    let mut out = AnswerWriter::new(alloc);
    put_fault(fault, &mut out)?;
    Ok(Told {
        line: as_line(out.end())?,
        status: REFUSED,
    })
}

fn put_fault(fault: &HeaderFault, out: &mut AnswerWriter) -> Result<(), NoMemory>
    ensures before { out.new.before ≡ out.old.before }
    ensures text { OnOk result (out.new.text ≡ out.old.text ++ header_fault_text fault.now) }
{
    match fault {
        HeaderFault::Line(fault) | HeaderFault::Data(fault) => out.put_fault(*fault),
        HeaderFault::Rules(fault) => out.put_rules_fault(fault),
        HeaderFault::BadTokens => out.put_bad_tokens(),
        HeaderFault::TreeFull => out.put_refusal(&Refusal::TreeFull),
    }
}
