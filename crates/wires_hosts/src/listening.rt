use crate::host_address::HostAddress;
use std::io;
use std::net::{Net, TcpListener, TcpStream};

/// A listener at this address; at port 0 on one that the system gives. Who asks it for a connection doesn't wait for
/// one.
pub fn listen_at<R: Net<Stream = TcpStream, Listener = TcpListener>>(
    rt: &R,
    address: HostAddress,
) -> io::Result<TcpListener> {
    let listener = address.bind(rt)?;
    listener.set_nonblocking(true)?;
    Ok(listener)
}
