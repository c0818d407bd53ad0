//! A client behind a WebSocket.
ghost use Rattle.std.specs.Prelude.{◌≡◌, ◌≢◌, ◌↔◌, false, IfOk};
ghost use Rattle.std.specs.Str.{IsUtf8};
ghost use Rattle.tungstenite.specs.Content.{text as content_with};
ghost use Rattle.tungstenite.specs.Socket.{content_of};
ghost use Rattle.sessions.specs.Sockets.{AwaitsClose, IsFinished, IsMessage, IsRead, IsReadFor, IsSaid, IsTakenFor, IsUnsentFor, IsWritten};

use crate::caller::Caller;
use crate::peer::{Peer, Received, Sent};
use std::alloc::Global;
use std::io::{self, ErrorKind, Read, Write};
use tungstenite::{Error, MaskKeys, Message, WebSocket};

/// A client behind a WebSocket. It receives messages of text and of bytes alike, and sends text. Contracts see whether
/// it has closed, has failed, has lost something, or was finished with, and what each call reads from its socket or
/// writes to it.
#[derive(Drop)]
pub struct SocketPeer<S, K> {
    alloc: Global,
    socket: WebSocket<S, K>,
    closed: bool,
    failed: bool,
    lost: bool,
    finished: bool,
}

// How often it reads, at most, to see that the client has closed too.
const CLOSING_READS: usize = 16;

impl<S: Read + Write + Drop, K: MaskKeys + Drop> SocketPeer<S, K> {
    /// The client at the other end of this socket, whose handshake is done. It takes no memory.
    pub fn new(alloc: Global, socket: WebSocket<S, K>) -> SocketPeer<S, K>
        ensures { (result.closed ≡ false) × (result.failed ≡ false) × (result.lost ≡ false) × (result.finished ≡ false) }
    {
        SocketPeer {
            alloc,
            socket,
            closed: false,
            failed: false,
            lost: false,
            finished: false,
        }
    }

    /// The socket, which may be used no more for a session.
    pub fn into_socket(self) -> WebSocket<S, K> {
        self.socket
    }
}

impl<S: Read + Write + Drop, K: MaskKeys + Drop> Peer for SocketPeer<S, K> {
    ghost use Rattle.std.specs.Prelude.{None};
    ghost use Rattle.sessions.specs.Sockets.{IsFinished, IsRead, IsSaid};

    ghost traffic = { λ peer. record { left = None; sent = None; closed = peer.closed; failed = peer.failed; lost = peer.lost; finished = peer.finished } };

    ghost has_received = { λ before received after. IsRead S.remaining before.socket received after.socket };

    ghost has_sent = { λ before text sent after. IsSaid S.contents before.socket text sent after.socket };

    ghost has_finished = { λ before after. IsFinished S.remaining S.contents before.socket after.socket };

    fn receive(&mut self) -> Received {
        let received = read_message(self.alloc, &mut self.socket);
        match &received {
            Received::Message(_) | Received::Nothing => {}
            Received::Closed => self.closed = true,
            Received::Broken => self.failed = true,
            Received::NoMemory => self.lost = true,
        }
        received
    }

    fn send<Q: Caller>(&mut self, text: &[u8], _caller: &Q) -> Sent {
        let sent = write_text(self.alloc, &mut self.socket, text);
        match sent {
            Sent::Done => {}
            Sent::Broken => self.failed = true,
            Sent::NoMemory => self.lost = true,
        }
        sent
    }

    // Sends a close, where none was sent yet, and reads up to the client's, 16 times at most.
    fn finish(&mut self) {
        self.finished = true;
        close_socket(&mut self.socket);
    }
}

fn close_socket<S: Read + Write + Drop, K: MaskKeys + Drop>(socket: &mut WebSocket<S, K>)
    ensures { IsFinished S.remaining S.contents socket.old socket.new }
{
    match socket.close(None) {
        Ok(()) => await_close(socket),
        Err(_) => {}
    }
}

// Reads up to the client's close.
fn await_close<S: Read + Write + Drop, K: MaskKeys + Drop>(socket: &mut WebSocket<S, K>)
    ensures { AwaitsClose S.remaining socket.old socket.new }
{
    for _ in 0..CLOSING_READS {
        if is_last(&socket.read()) {
            return;
        }
    }
}

// Whether nothing more comes behind what was read.
fn is_last(read: &Result<Message, Error>) -> bool {
    match read {
        Ok(_) => false,
        Err(error) => !matches!(received_for(error), Received::Nothing),
    }
}

// Reads the next message. The client's close is the end at its first sign: what is sent behind it would be a fault.
fn read_message<S: Read + Write + Drop, K: MaskKeys + Drop>(
    alloc: Global,
    socket: &mut WebSocket<S, K>,
) -> Received
    ensures { IsRead S.remaining socket.old result socket.new }
{
    match socket.read() {
        Ok(message) => received_of(alloc, &message),
        Err(error) => received_for(&error),
    }
}

// What a message is to a session.
fn received_of(alloc: Global, message: &Message) -> Received
    ensures { IsTakenFor message.now result }
{
    match message {
        Message::Text(text) => copy_of(alloc, text.as_str().as_bytes()),
        Message::Binary(bytes) => copy_of(alloc, bytes.as_slice()),
        Message::Ping(_) | Message::Pong(_) => Received::Nothing,
        Message::Close(_) => Received::Closed,
    }
}

// A message of these bytes.
fn copy_of(alloc: Global, bytes: &[u8]) -> Received
    ensures { IsMessage bytes.now result }
{
    match bytes.to_vec(alloc) {
        Ok(copy) => Received::Message(copy),
        Err(_) => Received::NoMemory,
    }
}

// What a fault of a read is to a session.
fn received_for(error: &Error) -> Received
    ensures { IsReadFor error.now result }
{
    match error {
        Error::ConnectionClosed => Received::Closed,
        Error::OutOfMemory => Received::NoMemory,
        Error::Io(error) => match cause_of(error) {
            Cause::Wait => Received::Nothing,
            Cause::Memory => Received::NoMemory,
            Cause::Fault => Received::Broken,
        },
        _ => Received::Broken,
    }
}

// Writes a text as one message.
fn write_text<S: Read + Write + Drop, K: MaskKeys + Drop>(
    alloc: Global,
    socket: &mut WebSocket<S, K>,
    text: &[u8],
) -> Sent
    ensures { IsSaid S.contents socket.old text.now result socket.new }
{
    match message_of(alloc, text) {
        Ok(message) => write_message(socket, message),
        Err(Unsaid::NoText) => Sent::Broken,
        Err(Unsaid::Memory) => Sent::NoMemory,
    }
}

fn write_message<S: Read + Write + Drop, K: MaskKeys + Drop>(
    socket: &mut WebSocket<S, K>,
    message: Message,
) -> Sent
    ensures { IsWritten S.contents socket.old (content_of message) result socket.new }
{
    match socket.send(message) {
        Ok(()) => Sent::Done,
        Err(error) => unsent_for(&error),
    }
}

// What a fault of a write is to a session.
fn unsent_for(error: &Error) -> Sent
    ensures fault { IsUnsentFor error.now result }
    ensures unsent { result ≢ Sent.Done }
{
    match error {
        Error::OutOfMemory => Sent::NoMemory,
        Error::Io(error) => match cause_of(error) {
            Cause::Memory => Sent::NoMemory,
            Cause::Wait | Cause::Fault => Sent::Broken,
        },
        _ => Sent::Broken,
    }
}

// Why bytes are no message.
#[derive(Clone, Copy)]
enum Unsaid {
    // They are no UTF-8.
    NoText,
    // There was no memory for it.
    Memory,
}

// The message that says a text. WebSocket has text as UTF-8 alone, which the text of an answer is.
fn message_of(alloc: Global, text: &[u8]) -> Result<Message, Unsaid>
    ensures said { IfOk result (λ message. content_of message ≡ content_with text.now) }
    ensures no_text { (result ≡ Err Unsaid.NoText) ↔ ¬ (IsUtf8 text.now) }
{
    let Ok(text) = str::from_utf8(text) else {
        return Err(Unsaid::NoText);
    };
    match Message::text(alloc, text) {
        Ok(message) => Ok(message),
        Err(_) => Err(Unsaid::Memory),
    }
}

// Why a stream gave or took nothing.
#[derive(Clone, Copy)]
enum Cause {
    // The time is over that it may take, or a signal ended it early, as where the program was stopped and goes on.
    Wait,
    // There was no memory for it.
    Memory,
    // The connection failed.
    Fault,
}

fn cause_of(error: &io::Error) -> Cause {
    match error.kind() {
        ErrorKind::WouldBlock | ErrorKind::TimedOut | ErrorKind::Interrupted => Cause::Wait,
        ErrorKind::OutOfMemory => Cause::Memory,
        _ => Cause::Fault,
    }
}
