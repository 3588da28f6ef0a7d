//! A peer over a socket of this machine.
use span_io::Form;
use span_relay::{Peer, PeerFault, TcpPeer};
use std::net::{OpenListener, TcpListener};
use std::test::Fail;

// An address at which nobody listens: that of a listener that was let go.
fn free_address(rt: &HostRuntime) -> Result<String, Fail> {
    let listener = TcpListener::bind(rt, "127.0.0.1:0")?;
    let address = listener.local_addr()?;
    Ok(format!(in rt.alloc(); "{address}")?)
}

#[test]
fn fails_where_nobody_listens(rt: HostRuntime) -> Result<(), Fail> {
    let address = free_address(&rt)?;
    assert!(rt; http_conn::is_address(address.as_bytes()));
    let mut peer = TcpPeer::new(rt.alloc(), &rt);
    let answer = peer.send(address.as_str(), Form::ZipkinJson, b"[]");
    assert!(rt; answer == Err(PeerFault::Failed));
    assert_eq!(rt; peer.faults(), 1);
    Ok(())
}
