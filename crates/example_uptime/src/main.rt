//! `example_uptime`: a service of your own, the simple transaction UPTIME, and its client. docs/LIBRARY.md walks through it.
//!
//! Two hosts in one process, and a clock that goes from one moment at which something is due to the next. The first request
//! is lost on its way, so the client sends the request again.
#![tactic(auto)]

use chaos_conn::{ConnConfig, Delivered};
use chaos_host::{Host, HostDelivered};
use chaos_packet::{Outbox, Packet, PktNum};
use std::alloc::Global;
use std::io;
use std::process::ExitCode;

const CLIENT: u16 = 0o402;

const SERVER: u16 = 0o401;

/// The room of an outbox: what a tick may put out at most, the usual send window.
const ROOM: usize = 13;

const TURNS: usize = 8;

/// A host, and what it puts out.
#[derive(Drop)]
struct Node {
    host: Host,
    out: Outbox,
}

/// A host at this address that listens to UPTIME, where there is memory for it.
fn new_node(alloc: Global, address: u16) -> Option<Node> {
    let mut host = Host::new(alloc, address, 4, ConnConfig::usual()).ok()?;
    host.listen(b"UPTIME").ok()?;
    let out = Outbox::new(alloc, ROOM).ok()?;
    Some(Node { host, out })
}

/// How long a host has been up that began at moment 0: 60ths of a second in 32 bits, low byte first.
fn uptime(now: u64) -> [u8; 4] {
    ((now / 50 * 3 % 0x1_0000_0000) as u32).to_le_bytes()
}

/// The server's user: each request is answered by one ANS. A delivery and an answer put a packet out each.
fn serve(node: &mut Node, packet: &Packet, now: u64) {
    if node.out.room() < 2 {
        return;
    }
    if let HostDelivered::Requested(id) = node.host.deliver(packet, now, &mut node.out) {
        let _answered = node.host.answer(id, &uptime(now), &mut node.out);
    }
}

/// The client's user: the time that an ANS carries. The ANS ends the connection, which is then released. After any other packet
/// the release is refused, and changes nothing.
fn hear(node: &mut Node, packet: &Packet, now: u64) -> Option<u32> {
    if node.out.room() < 2 {
        return None;
    }
    let HostDelivered::At(id, became) = node.host.deliver(packet, now, &mut node.out) else {
        return None;
    };
    let _released = node.host.release(id, &mut node.out);
    time_in(&became)
}

/// The time that an ANS carries.
fn time_in(became: &Delivered) -> Option<u32> {
    let Delivered::Answered(answer) = became else {
        return None;
    };
    let bytes = answer.bytes().first_chunk::<4>()?;
    Some(u32::from_le_bytes(*bytes))
}

/// Does what is due in each slot.
fn tick(node: &mut Node, now: u64) {
    for slot in 0..node.host.conns() {
        if node.out.room() < usize::from(node.host.config().send_cap()) {
            return;
        }
        let _ticked = node.host.tick(slot, now, &mut node.out);
    }
}

/// Asks, loses the request, and goes from moment to moment until the answer came.
fn talk<R: Print>(rt: &R, client: &mut Node, server: &mut Node) -> io::Result<bool> {
    if client.out.room() == 0 {
        return Ok(false);
    }
    let _asked = client
        .host
        .connect(SERVER, b"UPTIME", PktNum(1), 0, &mut client.out);
    let _lost = client.out.take();
    println!(rt; "0: asked, and the request is lost")?;
    for _ in 0..TURNS {
        let Some(now) = client.host.next_due() else {
            return Ok(false);
        };
        tick(client, now);
        println!(rt; "{now}: what was due is done")?;
        let Some(request) = client.out.take() else {
            continue;
        };
        serve(server, &request, now);
        let Some(answer) = server.out.take() else {
            continue;
        };
        if let Some(up) = hear(client, &answer, now) {
            println!(rt; "{now}: up for {up} 60ths of a second")?;
            return Ok(client.host.next_due().is_none());
        }
    }
    Ok(false)
}

/// The program.
fn main(rt: HostRuntime) -> ExitCode {
    let (Some(mut client), Some(mut server)) = (
        new_node(rt.alloc(), CLIENT),
        new_node(rt.alloc(), SERVER),
    ) else {
        return ExitCode::from(4);
    };
    match talk(&rt, &mut client, &mut server) {
        Ok(true) => ExitCode::SUCCESS,
        _ => ExitCode::FAILURE,
    }
}
