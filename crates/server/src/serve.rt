//! A server, from its first line to its last.
ghost use Rattle.std.specs.Prelude.{◌≡◌, ◌↔◌, true, false, string_bytes, IfOk, IsErrOf, OnOk};
ghost use Rattle.std.specs.Thread.{IsSync};
ghost use Rattle.std.specs.Io.KnownBytes.{Appends};
ghost use Rattle.server.specs.Served.{HasPrinted, IsCutShort, listening_text, served_text};

use crate::fault::ServerFault;
use crate::listener::{Listener, Waker};
use crate::printer::Printer;
use crate::rounds::WorkPlace;
use crate::shifts::{Shifts, work_all};
use locked_server::{Hall, Seat};
use sessions::{Caller, Gate};
use std::alloc::{AllocError, Global};
use std::net::{Net, TcpListener, TcpStream};
use std::thread::Threads;
use std::time;
use tokens::Tokens;

/// Serves sessions until each worker has served its rounds. It prints `listening 127.0.0.1:P` at the start, where P is
/// the port of the listener, and `served N` once all workers have ended, where N is how many entries the history of the
/// hall has. A connection whose handshake fails is a round too. Where the system gives no connection, a worker tries again
/// each 100 milliseconds, and an hour of that is a round. Where the caller can't store what it is to keep, each worker ends
/// once its client has gone. Worker w, from 1, serves its clients as session w. A client may say nothing for 5 seconds in
/// its handshake, may leave what is sent to it unread for 5 seconds, and sends at most 2 MiB a message; a session has
/// 1,000,000,000 turns, and waits 20 milliseconds in each for a message. With no workers, or no rounds, nobody is served.
pub fn serve_on<
    R: Net<Listener = TcpListener, Stream = TcpStream> + Threads + time::Clock + Sync,
    Q: Caller + Sync,
    G: Gate + Sync,
    W: Printer,
>(
    rt: &R,
    caller: &Q,
    alloc: Global,
    listener: &Listener,
    hall: &Hall,
    seat: &mut Seat,
    tokens: &Tokens,
    gate: &G,
    shifts: Shifts,
    output: &mut W,
) -> Result<(), ServerFault>
    requires hall { seat.old.hall ≡ hall.now }
    requires asks { Q.asks hall.now }
    requires output { W.failed output.old ≡ false }
    ensures hall { seat.new.hall ≡ hall.now }
    ensures printed { OnOk result (HasPrinted tokens.now shifts listener.now seat.old seat.new (W.printed output.old) (W.printed output.new)) }
    ensures failed { IsErrOf result ServerFault.Output ↔ (W.failed output.new ≡ true) }
    ensures wanting { IsErrOf result ServerFault.NoMemory → IsCutShort listener.now (W.printed output.old) (W.printed output.new) }
{
    let place = WorkPlace {
        rt,
        caller,
        alloc,
        listener,
        hall,
        tokens,
        gate,
        rounds: shifts.rounds,
    };
    serve_all(&place, seat, shifts.workers, output)
}

// Prints the first line, lets all workers serve, and prints the last line.
fn serve_all<R: Waker + Threads + time::Clock + Sync, Q: Caller + Sync, G: Gate + Sync, W: Printer>(
    place: &WorkPlace<'_, R, Q, G>,
    seat: &mut Seat,
    workers: u64,
    output: &mut W,
) -> Result<(), ServerFault>
    requires sync { IsSync R.row × IsSync Q.row × IsSync G.row }
    requires hall { seat.old.hall ≡ place.now.hall.now }
    requires asks { Q.asks place.now.hall.now }
    requires output { W.failed output.old ≡ false }
    ensures hall { seat.new.hall ≡ place.now.hall.now }
    ensures printed { OnOk result (HasPrinted place.now.tokens.now (record { workers = workers; rounds = place.now.rounds }) place.now.listener.now seat.old seat.new (W.printed output.old) (W.printed output.new)) }
    ensures failed { IsErrOf result ServerFault.Output ↔ (W.failed output.new ≡ true) }
    ensures wanting { IsErrOf result ServerFault.NoMemory → IsCutShort place.now.listener.now (W.printed output.old) (W.printed output.new) }
{
    print_listening(place.alloc, place.listener, output)?;
    work_all(place, seat, 0, workers);
    let entries = place.hall.news(seat);
    print_served(place.alloc, entries, output)
}

// Prints where the server listens.
fn print_listening<W: Printer>(
    alloc: Global,
    listener: &Listener,
    output: &mut W,
) -> Result<(), ServerFault>
    requires { W.failed output.old ≡ false }
    ensures printed { OnOk result (Appends (W.printed output.old) (W.printed output.new) (listening_text listener.now) × (W.failed output.new ≡ false)) }
    ensures failed { IsErrOf result ServerFault.Output ↔ (W.failed output.new ≡ true) }
    ensures wanting { IsErrOf result ServerFault.NoMemory → W.printed output.new ≡ W.printed output.old }
{
    let first_line = listening_line(alloc, listener.port())?;
    output.print(first_line.as_bytes())?;
    Ok(())
}

// Prints how many entries the history has.
fn print_served<W: Printer>(alloc: Global, entries: u64, output: &mut W) -> Result<(), ServerFault>
    requires { W.failed output.old ≡ false }
    ensures printed { OnOk result (Appends (W.printed output.old) (W.printed output.new) (served_text entries)) }
    ensures failed { IsErrOf result ServerFault.Output ↔ (W.failed output.new ≡ true) }
    ensures wanting { IsErrOf result ServerFault.NoMemory → W.printed output.new ≡ W.printed output.old }
{
    let last_line = served_line(alloc, entries)?;
    output.print(last_line.as_bytes())?;
    Ok(())
}

fn listening_line(alloc: Global, port: u16) -> Result<String, AllocError>
    ensures { IfOk result (λ line. string_bytes line ≡ listening_text port) }
{
    format!(in alloc; "listening 127.0.0.1:{port}\n")
}

fn served_line(alloc: Global, entries: u64) -> Result<String, AllocError>
    ensures { IfOk result (λ line. string_bytes line ≡ served_text entries) }
{
    format!(in alloc; "served {entries}\n")
}
