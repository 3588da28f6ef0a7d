//! A peer over a stream of TCP.
ghost use Rattle.std.specs.Prelude.{◌≡◌, None};
ghost use Rattle.span_relay.specs.Peers.{IsPeerAddress};

use crate::peer::{Peer, PeerFault};
use http_conn::{SendFault, send_over};
use span_io::{Form, Limits, StreamDuplex};
use std::alloc::Global;
use std::io;
use std::io::ErrorKind;
use std::net::{Net, OpenStream, SocketAddr, TcpStream, ToSocketAddrs};
use std::time::Duration;

/// How many seconds it waits for a connection, a read or a write.
const LONGEST: u64 = 30;

/// A peer over TCP, to which each body is posted over a connection of its own. It counts each failure but want of
/// memory, and doesn't tell what was sent.
#[derive(Drop)]
pub struct TcpPeer<R: Net> {
    alloc: Global,
    net: R,
    faults: u64,
}

impl<R: Net> TcpPeer<R> {
    pub fn new(alloc: Global, net: R) -> TcpPeer<R>
        ensures { ⟦<TcpPeer<R> as Peer>⟧.wire result ≡ record { sent = None; faults = 0 } }
    {
        TcpPeer {
            alloc,
            net,
            faults: 0,
        }
    }

    /// How often it failed.
    pub fn faults(&self) -> u64
        ensures { result ≡ (⟦<TcpPeer<R> as Peer>⟧.wire self.now).faults }
    {
        self.faults
    }

    // Posts a body over a new connection.
    fn post(&self, address: &str, form: Form, body: &[u8]) -> Result<u16, SendFault>
        requires { IsPeerAddress address.now }
    {
        match connected(&self.net, address) {
            Ok(stream) => {
                let mut conn = StreamDuplex::new(stream);
                send_over(
                    self.alloc,
                    &mut conn,
                    address,
                    form,
                    body,
                    &Limits::shipped(),
                )
            }
            Err(error) => match error.kind() {
                ErrorKind::OutOfMemory => Err(SendFault::OutOfMemory),
                _ => Err(SendFault::Write),
            },
        }
    }
}

// A connection to the first of the addresses of a host that answers in time.
fn connected<R: Net>(net: &R, address: &str) -> io::Result<R::Stream> {
    let mut last = io::Error::from(ErrorKind::NotFound);
    for one in address.to_socket_addrs(net)? {
        match connected_to(net, &one) {
            Ok(stream) => return Ok(stream),
            Err(error) => last = error,
        }
    }
    Err(last)
}

fn connected_to<R: Net>(net: &R, address: &SocketAddr) -> io::Result<R::Stream> {
    let longest = Duration::from_secs(LONGEST);
    let stream = TcpStream::connect_timeout(net, address, longest)?;
    stream.set_read_timeout(Some(longest))?;
    stream.set_write_timeout(Some(longest))?;
    Ok(stream)
}

impl<R: Net> Peer for TcpPeer<R> {
    ghost wire = { λ p. record { sent = None; faults = p.faults } };

    fn send(&mut self, address: &str, form: Form, body: &[u8]) -> Result<u16, PeerFault> {
        match self.post(address, form, body) {
            Ok(status) => Ok(status),
            Err(SendFault::OutOfMemory) => Err(PeerFault::OutOfMemory),
            Err(SendFault::Read | SendFault::Write | SendFault::BadAnswer) => {
                self.faults = self.faults.saturating_add(1);
                Err(PeerFault::Failed)
            }
        }
    }
}
