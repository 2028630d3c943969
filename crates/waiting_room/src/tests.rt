use super::*;
use hl_base::Failed;
use std::io::{Read, Write};
use std::net::{Ipv4Addr, SocketAddr, TcpListener, TcpStream};
use std::rt::Clock;
use std::sync::Wait;
use std::test::Fail;

const MESSAGE: &[u8] = b"GET /balance HTTP/1.1\r\nHost: localhost\r\n\r\n";

const REPLY: &[u8] = b"HTTP/1.1 204 No Content\r\n\r\n";

/// Whether a connection brings one message and then its end, and takes the reply.
fn serves<R: Wait + Clock>(rt: &R, caller: Caller) -> Result<bool, Failed> {
    let mut caller = caller;
    let mut room = [0u8; 64];
    let count = caller.read(rt, &mut room)?;
    let is_whole = count == MESSAGE.len() && room.starts_with(MESSAGE);
    let has_ended = caller.read(rt, &mut room)? == 0;
    let sent = caller.write(rt, REPLY)?;
    caller.leave(rt, 0, 0);
    Ok(is_whole && has_ended && sent == REPLY.len())
}

/// Whether the next connection of an entrance is served so.
fn serves_next<R: Wait + Clock>(rt: &R, entrance: &Entrance) -> bool {
    match entrance.next(rt) {
        Some(caller) => matches!(serves(rt, caller), Ok(true)),
        None => false,
    }
}

/// Whether a reply comes.
fn is_answered(peer: &mut TcpStream) -> bool {
    let mut room = [0u8; 27];
    peer.read_exact(&mut room).is_ok() && room.starts_with(REPLY)
}

#[test]
fn a_connection_comes_again_with_each_message(rt: HostRuntime) -> Result<(), Fail> {
    let listener = TcpListener::bind(&rt, SocketAddr::from((Ipv4Addr::LOCALHOST, 0)))?;
    let address = listener.local_addr()?;
    let entrance = Entrance::over(&rt, listener, true)?;
    let mut peer = TcpStream::connect(&rt, address)?;
    for _message in 0..2 {
        peer.write_all(MESSAGE)?;
        assert!(rt; serves_next(&rt, &entrance));
        assert!(rt; is_answered(&mut peer));
    }
    Ok(())
}
