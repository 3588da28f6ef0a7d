//! A post over a socket of UDP.
ghost use Rattle.std.specs.Prelude.{◌≡◌, ◌≤◌, length, IfSome};
ghost use Rattle.span_agent.specs.Posts.{untold};

use crate::post::Post;
use span_io::Failed;
use std::io::ErrorKind;
use std::net::{Net, UdpSocket};

/// The most bytes that a datagram has.
const MOST_BYTES: usize = 65_535;

/// A post over a UDP socket of std. It counts each error of the socket, and tells neither its address nor its
/// datagrams nor its course. It listens at exactly the address that it is asked for.
#[derive(Drop)]
pub struct SocketPost<R: Net> {
    net: R,
    socket: Option<UdpSocket>,
    faults: u64,
}

impl<R: Net> SocketPost<R> {
    pub fn new(net: R) -> SocketPost<R>
        ensures { ⟦<SocketPost<R> as Post>⟧.mailbox result
            ≡ untold 0 }
    {
        SocketPost {
            net,
            socket: None,
            faults: 0,
        }
    }

    // The next datagram, where it listens. A call that a signal interrupted is made again.
    fn next(&self, buf: &mut [u8]) -> Option<usize>
        ensures bound { IfSome result (λ n. n ≤ length buf.new) }
        ensures size { length buf.new ≡ length buf.old }
    {
        let socket = self.socket.as_ref()?;
        'tries: for _ in 0..u64::MAX {
            match socket.recv_from(buf) {
                Ok((size, _)) => return Some(size),
                Err(error) if error.kind() == ErrorKind::Interrupted => {}
                Err(_) => return None,
            }
        }
        None
    }
}

impl<R: Net> Post for SocketPost<R> {
    ghost mailbox = { λ p. untold p.faults };

    ghost tells = { λ p. tt };

    fn listen(&mut self, address: &str) -> Result<(), Failed> {
        match UdpSocket::bind(&self.net, address) {
            Ok(socket) => {
                self.socket = Some(socket);
                Ok(())
            }
            Err(_) => {
                self.faults = self.faults.saturating_add(1);
                Err(Failed)
            }
        }
    }

    fn receive(&mut self, buf: &mut [u8]) -> Result<usize, Failed> {
        match self.next(buf) {
            Some(size) if size <= MOST_BYTES => Ok(size),
            _ => {
                self.faults = self.faults.saturating_add(1);
                Err(Failed)
            }
        }
    }
}
