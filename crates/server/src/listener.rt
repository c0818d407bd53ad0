//! Where a server listens.
ghost use Rattle.std.specs.Prelude.{◌≡◌, ◌≢◌, IfOk};

use std::io;
use std::marker::Model;
use std::net::{Net, SocketAddr, TcpListener, TcpStream};

/// A listener on 127.0.0.1. Contracts see its port.
#[derive(Drop)]
pub struct Listener {
    sockets: TcpListener,
    port: u16,
}

impl Model for Listener {
    ghost use Rattle.std.specs.Prelude.{ℕ};

    ghost Value = { ℕ };

    ghost view = { λ listener. listener.port };
}

impl Listener {
    /// Listens on this port, or where it is 0 on one that the system chooses, and reports. An error where the port
    /// can't be had.
    pub fn bind<R: Net<Listener = TcpListener, Stream = TcpStream>>(
        rt: &R,
        port: u16,
    ) -> io::Result<Listener>
        ensures { IfOk result (λ listener. port ≢ 0 → listener ≡ port) }
    {
        let address = SocketAddr::from(([127, 0, 0, 1], port));
        let sockets = TcpListener::bind(rt, address)?;
        let port = if port == 0 {
            sockets.local_addr()?.port()
        } else {
            port
        };
        Ok(Listener { sockets, port })
    }

    /// Its port.
    pub fn port(&self) -> u16
        ensures { result ≡ self.now }
    {
        self.port
    }

    /// Waits for the next connection. None where the system gives no connection.
    pub(crate) fn accept(&self) -> Option<TcpStream> {
        let (stream, _) = self.sockets.accept().ok()?;
        Some(stream)
    }
}

/// What can wake whoever waits for a connection.
pub(crate) trait Waker {
    /// Lets one who waits at this listener have a connection, which ends at once.
    fn wake(&self, listener: &Listener);
}

impl<R: Net<Listener = TcpListener, Stream = TcpStream>> Waker for R {
    fn wake(&self, listener: &Listener) {
        let address = SocketAddr::from(([127, 0, 0, 1], listener.port));
        drop(TcpStream::connect(self, address));
    }
}
