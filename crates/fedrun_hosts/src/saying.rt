use crate::fault::HostFault;
use crate::listen_fault::ListenFault;
use fedrun_words::Fault;
use std::io::Write;
use std::net::TcpListener;

/// Says where the coordinator listens, at once.
pub(crate) fn say_listening<'a, O: Write>(
    listener: &TcpListener,
    out: &mut O,
) -> Result<(), Fault<'a, HostFault<'a>>> {
    let address = match listener.local_addr() {
        Ok(address) => address,
        Err(error) => return Err(Fault::More(HostFault::CannotListen(ListenFault::of(&error)))),
    };
    match writeln!(out, "listening {address}") {
        Ok(()) => flush(out),
        Err(_) => Err(Fault::CannotWrite),
    }
}

/// Says that the run is finished.
pub(crate) fn say_finished<'a, O: Write>(out: &mut O) -> Result<(), Fault<'a, HostFault<'a>>> {
    match writeln!(out, "finished") {
        Ok(()) => flush(out),
        Err(_) => Err(Fault::CannotWrite),
    }
}

fn flush<'a, O: Write>(out: &mut O) -> Result<(), Fault<'a, HostFault<'a>>> {
    match out.flush() {
        Ok(()) => Ok(()),
        Err(_) => Err(Fault::CannotWrite),
    }
}
