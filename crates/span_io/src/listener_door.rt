//! A door over a listener of TCP.
ghost use Rattle.std.specs.Prelude.{◌≡◌, ◌<◌, None, IsSome};
ghost use Rattle.span_io.specs.Outside.{last_count};

use crate::door::Door;
use crate::source::Failed;
use crate::stream_duplex::StreamDuplex;
use std::net::{Net, OpenListener, OpenStream, TcpListener};
use std::time::Duration;

/// A door over a listener of std. It counts each error of the listener, and the connections that are out, and
/// tells neither its address nor its connections, nor how its calls went.
#[derive(Drop)]
pub struct ListenerDoor<R: Net> {
    net: R,
    listener: Option<R::Listener>,
    faults: u64,
    out: u64,
}

impl<R: Net> ListenerDoor<R> {
    pub fn new(net: R) -> ListenerDoor<R>
        ensures { ⟦<ListenerDoor<R> as Door>⟧.doorway result ≡ record {
          faults = 0;
          out = 0;
          address = None;
          listening = None;
          astray = None;
          waiting = None;
          closed = None;
          course = None;
        } }
    {
        ListenerDoor {
            net,
            listener: None,
            faults: 0,
            out: 0,
        }
    }

    // The next connection, where it listens and not too many are out.
    fn next(&self) -> Option<R::Stream>
        ensures { IsSome result → self.now.out < last_count }
    {
        if self.out == u64::MAX {
            return None;
        }
        let listener = self.listener.as_ref()?;
        match listener.accept() {
            Ok((stream, _)) => in_time(stream),
            Err(_) => None,
        }
    }
}

/// The stream, of which a read or a write fails once it has waited 30 seconds.
fn in_time<S: OpenStream + Drop>(stream: S) -> Option<S> {
    let longest = Some(Duration::from_secs(30));
    stream.set_read_timeout(longest).ok()?;
    stream.set_write_timeout(longest).ok()?;
    Some(stream)
}

impl<R: Net> Door for ListenerDoor<R> {
    type Conn = StreamDuplex<R::Stream>;

    ghost doorway = { λ d. record {
      faults = d.faults;
      out = d.out;
      address = None;
      listening = None;
      astray = None;
      waiting = None;
      closed = None;
      course = None;
    } };

    ghost tells = { λ d. tt };

    fn listen(&mut self, address: &str) -> Result<(), Failed> {
        match TcpListener::bind(&self.net, address) {
            Ok(listener) => {
                self.listener = Some(listener);
                Ok(())
            }
            Err(_) => {
                self.faults = self.faults.saturating_add(1);
                Err(Failed)
            }
        }
    }

    fn accept(&mut self) -> Result<StreamDuplex<R::Stream>, Failed> {
        match self.next() {
            Some(stream) => {
                self.out += 1;
                Ok(StreamDuplex::new(stream))
            }
            None => {
                self.faults = self.faults.saturating_add(1);
                Err(Failed)
            }
        }
    }

    // The connection ends as the stream is let go.
    fn close(&mut self, _conn: StreamDuplex<R::Stream>) {
        self.out -= 1;
    }
}
