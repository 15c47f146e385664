//! The real objects: a host that listens, links over TCP, and the machine's clock.

use mj_links::{
    Came, Clock, Host, LineRead, Link, MachineClock, Numbered, Opened, Sent, TcpHost, Wire,
};
use std::alloc::Global;
use std::io;
use std::io::{Read, Write};
use std::net::{Ipv4Addr, Net, TcpStream};
use std::thread::join;

// Opens the first of some ports that is free.
fn open_some<H: Host>(host: &mut H) -> Option<u16> {
    for port in 42_600..42_700 {
        if let Opened::Ready = host.open(port) {
            return Some(port);
        }
    }
    None
}

// The link that comes within some seconds.
fn await_link<H: Host>(host: &H) -> Option<H::Link> {
    for _ in 0..500u32 {
        if let Came::Link(link) = host.accept(0) {
            return Some(link);
        }
    }
    None
}

// Answers the one line that comes on the first link: whether all went well, and the input ended then, not before.
fn answer<H: Host>(alloc: Global, host: &H) -> bool {
    let Some(link) = await_link(host) else {
        return false;
    };
    let mut wire = Wire::new(link);
    let mut line = Vec::new(alloc);
    let read = is_answered(&mut wire, &mut line);
    wire.into_link().shut();
    read
}

fn is_answered<L: Link>(wire: &mut Wire<L>, line: &mut Vec<u8>) -> bool {
    !wire.has_ended()
        && wire.read_line(line) == LineRead::Line
        && line.as_slice() == b"chi".as_slice()
        && wire.send(b"ron\n") == Sent::Whole
        && wire.read_line(line) == LineRead::Ended
        && wire.has_ended()
        && wire.read_line(line) == LineRead::Ended
}

// Whether this is answered to a line at a port, where one is open.
fn is_told<R: Net<Stream = TcpStream>>(rt: &R, port: Option<u16>, wanted: [u8; 4]) -> bool {
    match port {
        Some(port) => match ask(rt, port) {
            Ok(answer) => answer == wanted,
            Err(_) => false,
        },
        None => false,
    }
}

// Says a line and the beginning of another to a port, and gives what is answered to the first.
fn ask<R: Net<Stream = TcpStream>>(rt: &R, port: u16) -> io::Result<[u8; 4]> {
    let mut stream = TcpStream::connect(rt, (Ipv4Addr::LOCALHOST, port))?;
    stream.write_all(b"chi\np")?;
    let mut answer = [0; 4];
    stream.read_exact(&mut answer)?;
    Ok(answer)
}

#[test]
fn a_line_and_its_answer_go_over_tcp(rt: HostRuntime) {
    let alloc = rt.alloc();
    let mut host = TcpHost::new(&rt, 1000);
    let port = open_some(&mut host);
    let shared = &host;
    let (answered, told) = join(
        &rt,
        || answer(alloc, shared),
        || is_told(&rt, port, *b"ron\n"),
    );
    assert!(rt; port.is_some() && answered && told);
}

fn is_refused<H: Host>(host: &mut H, port: u16) -> bool {
    match host.open(port) {
        Opened::Ready => false,
        Opened::Failed(fault) => fault.by() == 255,
    }
}

fn nothing_comes<H: Host>(host: &H) -> bool {
    matches!(&host.accept(1), Came::Nothing)
}

// Whether a port that is open to one host is not opened to another, and nothing comes to either.
fn is_left_out<H: Host>(open: &mut H, late: &mut H) -> bool {
    match open_some(open) {
        Some(port) => is_refused(late, port) && nothing_comes(late) && nothing_comes(open),
        None => false,
    }
}

#[test]
fn nothing_comes_to_a_host_that_is_not_open(rt: HostRuntime) {
    let (mut open, mut late) = (TcpHost::new(&rt, 1000), TcpHost::new(&rt, 1000));
    assert!(rt; is_left_out(&mut open, &mut late));
}

#[test]
fn the_clock_of_the_machine_goes_on(rt: HostRuntime) {
    let mut clock = MachineClock::new(&rt);
    let first = clock.now();
    assert!(rt; 0 < first && first.saturating_add(15) < clock.now());
}
