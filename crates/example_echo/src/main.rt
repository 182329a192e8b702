//! `example_echo`: a service of byte streams with two clients at once. docs/LIBRARY.md walks through it.
//!
//! Three hosts in one process. Each packet that one puts out is delivered at once, and none is lost; over a network that loses
//! some, the hosts would be ticked too. The windows are of two packets, so that a text of three goes in two parts.
#![tactic(auto)]

use chaos_conn::ConnConfig;
use chaos_host::{CallFault, ConnId, Host, HostDelivered};
use chaos_packet::{Outbox, Packet, PktNum, body_of};
use chaos_stream::{HostStream, Peek};
use std::alloc::{AllocError, Global};
use std::io;
use std::process::ExitCode;

const SERVER: u16 = 0o401;

const ANN: u16 = 0o402;

const BOB: u16 = 0o403;

/// The windows, in packets.
const WINDOW: u16 = 2;

/// The room of an outbox.
const ROOM: usize = 8;

const ROUNDS: usize = 4;

/// Two packets' bytes and 24 more.
const LONG: [u8; 1000] = [b'A'; 1000];

/// A host, and what it puts out.
#[derive(Drop)]
struct Node {
    host: Host,
    out: Outbox,
}

/// The server, and a stream for each of its clients.
#[derive(Drop)]
struct Server {
    node: Node,
    streams: Vec<HostStream>,
}

/// A client, and what it still has to say.
#[derive(Drop)]
struct Client {
    name: &'static str,
    node: Node,
    stream: HostStream,
    left: &'static [u8],
    ended: bool,
}

/// A host at this address that listens to ECHO, where there is memory for it.
fn new_node(alloc: Global, address: u16) -> Option<Node> {
    let mut host = Host::new(alloc, address, 4, ConnConfig::with_window(WINDOW)).ok()?;
    host.listen(b"ECHO").ok()?;
    let out = Outbox::new(alloc, ROOM).ok()?;
    Some(Node { host, out })
}

/// A client that asks the server.
fn new_client(
    alloc: Global,
    name: &'static str,
    address: u16,
    left: &'static [u8],
) -> Option<Client> {
    let mut node = new_node(alloc, address)?;
    if node.out.room() == 0 {
        return None;
    }
    let id = node
        .host
        .connect(SERVER, b"ECHO", PktNum(1), 0, &mut node.out)
        .ok()?;
    Some(Client {
        name,
        node,
        stream: HostStream::new(id),
        left,
        ended: false,
    })
}

/// Takes a packet in. A request is accepted, and the result names its connection.
fn take(node: &mut Node, packet: &Packet) -> Option<ConnId> {
    if node.out.room() < 2 {
        return None;
    }
    let HostDelivered::Requested(id) = node.host.deliver(packet, 0, &mut node.out) else {
        return None;
    };
    let _accepted = node.host.accept(id, PktNum(100), 0, &mut node.out);
    Some(id)
}

/// Delivers all that a client put out. Each connection gets a stream of its own.
fn carry_to(server: &mut Server, from: &mut Node) -> Result<(), AllocError> {
    for _ in 0..ROOM {
        let Some(packet) = from.out.take() else {
            return Ok(());
        };
        if let Some(id) = take(&mut server.node, &packet) {
            server.streams.push(HostStream::new(id))?;
        }
    }
    Ok(())
}

/// Delivers all that the server put out.
fn carry_from(server: &mut Node, ann: &mut Node, bob: &mut Node) {
    for _ in 0..ROOM {
        let Some(packet) = server.out.take() else {
            return;
        };
        let _nobody_asks = match packet.dst {
            ANN => take(ann, &packet),
            _ => take(bob, &packet),
        };
    }
}

/// Sends back what is in front of a stream: as many bytes as the client's window takes, and the rest stays where it lies.
///
/// A reply and a status go out at most. The bytes are those of one packet, so the reply leaves room.
fn echo(host: &mut Host, stream: &mut HostStream, out: &mut Outbox) -> Result<(), CallFault> {
    if out.room() < 2 {
        return Ok(());
    }
    match stream.peek(host)? {
        Peek::Bytes(bytes) => {
            let text = body_of(bytes);
            let said = stream.put_bytes(host, text.as_slice(), 0, out)?;
            if out.room() > 0 {
                stream.consume(host, said, out)?;
            }
        }
        Peek::Eof => {
            if stream.put_eof(host, 0, out).is_ok() {
                stream.consume(host, 0, out)?;
            }
        }
        Peek::Nothing | Peek::Ended => {}
    }
    Ok(())
}

/// Serves each client in turn, an item of each.
fn serve(server: &mut Server) -> Result<(), CallFault> {
    for stream in server.streams.iter_mut() {
        echo(&mut server.node.host, stream, &mut server.node.out)?;
    }
    Ok(())
}

/// Says what the window takes of what is left, and then the end.
fn say(client: &mut Client) -> Result<(), CallFault> {
    let node = &mut client.node;
    let said = client
        .stream
        .put_bytes(&mut node.host, client.left, 0, &mut node.out)?;
    client.left = &client.left[said..];
    if client.left.is_empty() && !client.ended && node.out.room() > 0 {
        let ended = client.stream.put_eof(&mut node.host, 0, &mut node.out);
        client.ended = ended.is_ok();
    }
    Ok(())
}

/// Prints what came, item by item.
fn hear<R: Print>(rt: &R, round: usize, client: &mut Client) -> io::Result<()> {
    let node = &mut client.node;
    for _ in 0..ROOM {
        if node.out.room() == 0 {
            return Ok(());
        }
        let count = match client.stream.peek(&node.host) {
            Ok(Peek::Bytes(bytes)) => {
                println!(rt; "{round}: {} hears {} bytes", client.name, bytes.len())?;
                bytes.len()
            }
            Ok(Peek::Eof) => {
                println!(rt; "{round}: {} hears the end", client.name)?;
                0
            }
            _ => return Ok(()),
        };
        let _done = client.stream.consume(&mut node.host, count, &mut node.out);
    }
    Ok(())
}

/// A round: the clients speak, the server answers each of them, and they listen.
fn play(server: &mut Server, ann: &mut Client, bob: &mut Client) -> Option<()> {
    say(ann).ok()?;
    say(bob).ok()?;
    carry_to(server, &mut ann.node).ok()?;
    carry_to(server, &mut bob.node).ok()?;
    for _ in 0..WINDOW {
        serve(server).ok()?;
        carry_from(&mut server.node, &mut ann.node, &mut bob.node);
    }
    Some(())
}

/// All rounds.
fn talk<R: Print>(
    rt: &R,
    server: &mut Server,
    ann: &mut Client,
    bob: &mut Client,
) -> io::Result<bool> {
    for round in 0..ROUNDS {
        if play(server, ann, bob).is_none() {
            return Ok(false);
        }
        hear(rt, round, ann)?;
        hear(rt, round, bob)?;
    }
    Ok(ann.ended && bob.ended)
}

/// The server, and its clients, where there is memory for them.
fn new_all(alloc: Global) -> Option<(Server, Client, Client)> {
    let server = Server {
        node: new_node(alloc, SERVER)?,
        streams: Vec::new(alloc),
    };
    let ann = new_client(alloc, "Ann", ANN, &LONG)?;
    let bob = new_client(alloc, "Bob", BOB, b"Is the file system up?")?;
    Some((server, ann, bob))
}

/// The program.
fn main(rt: HostRuntime) -> ExitCode {
    let Some((mut server, mut ann, mut bob)) = new_all(rt.alloc()) else {
        return ExitCode::from(4);
    };
    match talk(&rt, &mut server, &mut ann, &mut bob) {
        Ok(true) => ExitCode::SUCCESS,
        _ => ExitCode::FAILURE,
    }
}
