//! Whom a session speaks to, and what stands beside it.
use crate::caller::Caller;
use rtdb_core::MAX_MOMENT;

/// What a peer gives where it is asked for a message.
#[derive(Debug, Drop)]
pub enum Received {
    /// A message.
    Message(Vec<u8>),
    /// No message has come yet.
    Nothing,
    /// The peer sends no more messages.
    Closed,
    /// The connection failed.
    Broken,
    /// A message has come, and is lost, since there is no memory for it.
    NoMemory,
}

/// Whether a text was sent.
#[derive(Clone, Copy, Debug, PartialEq, Eq)]
pub enum Sent {
    /// All of it.
    Done,
    /// The connection failed.
    Broken,
    /// There was no memory to send it.
    NoMemory,
}

/// The other side of a session. Contracts see the messages that are still to be received and the texts that were sent,
/// where it reports them, and whether it has closed, has failed, has lost something, or was finished with. What its
/// calls do beside that, each peer says for itself.
pub trait Peer: Drop {
    ghost use Rattle.std.specs.Prelude.{◌≡◌, ℕ, List, true};
    ghost use Rattle.sessions.specs.Traffic.{Traffic, IsOpen};
    ghost use Rattle.sessions.specs.Peers.{Receives, Sends};
    ghost use Rattle.sessions.specs.declared.peer.Received.{Received};
    ghost use Rattle.sessions.specs.declared.peer.Sent.{Sent};

    ghost traffic: { Self → Traffic };

    // How it comes to give this where it is asked for a message.
    ghost has_received: { Self → Received → Self → Type 0 };

    // How it comes to say this where it is given a text.
    ghost has_sent: { Self → List ℕ → Sent → Self → Type 0 };

    // What it does to finish.
    ghost has_finished: { Self → Self → Type 0 };

    /// The next message, if one has come. It may wait a moment for one.
    fn receive(&mut self) -> Received
        requires { IsOpen (traffic self.old) }
        ensures receives { Receives (traffic self.old) result (traffic self.new) }
        ensures own { has_received self.old result self.new };

    /// Sends a text. The caller is there for the contract alone: all that it has shown is stored before anything is
    /// sent.
    fn send<Q: Caller>(&mut self, text: &[u8], caller: &Q) -> Sent
        requires open { IsOpen (traffic self.old) }
        requires stored { Q.is_stored caller.now }
        ensures sends { Sends (traffic self.old) text.now result (traffic self.new) }
        ensures own { has_sent self.old text.now result self.new };

    /// Ends the conversation, however it stands.
    fn finish(&mut self)
        ensures finishes { traffic self.new ≡ record (traffic self.old) { finished = true } }
        ensures own { has_finished self.old self.new };
}

/// What a session calls as it goes on: tests hold a session here, and a server does nothing.
pub trait Gate {
    /// The session has read its n-th message, and has not made the call that it asks for.
    fn message_read(&self, session: u64, n: u64);

    /// The session has sent the answer to its n-th message.
    fn answered(&self, session: u64, n: u64);
}

/// Where moments come from, in milliseconds since 1970. Contracts see those that it has given, where it reports them.
pub trait Clock {
    ghost use Rattle.std.specs.Prelude.{◌≤◌, ℕ, List, [], ◌∷◌, Option};
    ghost use Rattle.sessions.specs.Traffic.{Adds};

    ghost moments: { Self → Option (List ℕ) };

    /// The moment that it is. It may be earlier than one before.
    fn now(&mut self) -> u64
        ensures within { result ≤ MAX_MOMENT }
        ensures given { Adds (moments self.old) (result ∷ []) (moments self.new) };
}
