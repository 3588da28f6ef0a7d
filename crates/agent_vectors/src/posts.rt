//! A post over a socket of this machine.
use span_agent::{Post, SocketPost};
use span_io::Failed;
use std::net::UdpSocket;
use std::test::Fail;

// An address at which nothing listens: that of a socket that was let go.
fn free_address(rt: &HostRuntime) -> Result<String, Fail> {
    let socket = UdpSocket::bind(rt, "127.0.0.1:0")?;
    let address = socket.local_addr()?;
    Ok(format!(in rt.alloc(); "{address}")?)
}

#[test]
fn receives_from_a_socket(rt: HostRuntime) -> Result<(), Fail> {
    let address = free_address(&rt)?;
    let mut buf = vec![in rt.alloc(); 0; 65_535]?;
    let mut post = SocketPost::new(&rt);
    assert!(rt; post.listen("127.0.0.1") == Err(Failed));
    post.listen(address.as_str())?;
    let client = UdpSocket::bind(&rt, "127.0.0.1:0")?;
    client.send_to(b"first", address.as_str())?;
    client.send_to(b"", address.as_str())?;
    let given = post.receive(buf.as_mut_slice())?;
    assert!(rt; &buf.as_slice()[..given] == b"first".as_slice());
    assert!(rt; post.receive(buf.as_mut_slice())? == 0);
    Ok(())
}
