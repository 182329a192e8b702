//! `example_talk`: two users' byte streams over a connection whose ends the caller holds. docs/LIBRARY.md walks through it.
//!
//! Both ends are in one process, and each packet that one puts out is delivered to the other at once.
#![tactic(auto)]

use chaos_conn::{Conn, ConnConfig, End};
use chaos_packet::{Outbox, PktNum};
use chaos_stream::{Peek, StreamIn, put_bytes, put_eof};
use std::alloc::Global;
use std::io;
use std::process::ExitCode;

const ANN: End = End {
    address: 0o401,
    index: 0o401,
};

const BOB: End = End {
    address: 0o402,
    index: 0o401,
};

/// The room of an outbox: a usual send window, and a packet more.
const ROOM: usize = 14;

/// An end, where its user reads, and what it puts out.
#[derive(Drop)]
struct Side {
    conn: Conn,
    stream: StreamIn,
    out: Outbox,
}

/// An inactive end, where there is memory for it.
fn new_side(alloc: Global) -> Option<Side> {
    Some(Side {
        conn: Conn::new(alloc, ConnConfig::usual()).ok()?,
        stream: StreamIn::new(),
        out: Outbox::new(alloc, ROOM).ok()?,
    })
}

/// Delivers all that one end put out to the other.
fn carry(from: &mut Side, to: &mut Side, now: u64) {
    for _ in 0..ROOM {
        if to.out.room() == 0 {
            return;
        }
        let Some(packet) = from.out.take() else {
            return;
        };
        let _became = to.conn.deliver(&packet, now, &mut to.out);
    }
}

/// Asks, takes the request and accepts it: after the OPN both ends are open.
fn open(ann: &mut Side, bob: &mut Side) -> bool {
    if ann.out.room() == 0 || bob.out.room() == 0 {
        return false;
    }
    let asked = ann
        .conn
        .request(ANN, BOB.address, b"TALK", PktNum(1), 0, &mut ann.out);
    let Some(request) = ann.out.take() else {
        return false;
    };
    let taken = bob.conn.take_request(&request, BOB, 0);
    let accepted = bob.conn.accept(PktNum(100), 0, &mut bob.out);
    carry(bob, ann, 0);
    carry(ann, bob, 0);
    asked.is_ok() && taken.is_ok() && accepted.is_ok()
}

/// Says a text and ends the stream; a text longer than the windows would have to be offered again, from where it was cut.
fn say(side: &mut Side, text: &[u8], now: u64) -> bool {
    let said = put_bytes(&mut side.conn, text, now, &mut side.out);
    if side.out.room() == 0 {
        return false;
    }
    let ended = put_eof(&mut side.conn, now, &mut side.out);
    said == text.len() && ended.is_ok()
}

/// Prints what came, item by item.
fn hear<R: Print>(rt: &R, name: &str, side: &mut Side) -> io::Result<()> {
    for _ in 0..ROOM {
        if side.out.room() == 0 {
            return Ok(());
        }
        let count = match side.stream.peek(&side.conn) {
            Peek::Bytes(bytes) => {
                println!(rt;
                    "{name} reads {}",
                    str::from_utf8(bytes).unwrap_or("no text")
                )?;
                bytes.len()
            }
            Peek::Eof => {
                println!(rt; "{name} reads the end")?;
                0
            }
            Peek::Nothing | Peek::Ended => return Ok(()),
        };
        side.stream.consume(&mut side.conn, count, &mut side.out);
    }
    Ok(())
}

/// Opens, says one text each way, and closes.
fn talk<R: Print>(rt: &R, ann: &mut Side, bob: &mut Side) -> io::Result<bool> {
    let mut well = open(ann, bob);
    well = say(ann, b"Is the file system up?", 10) && well;
    carry(ann, bob, 10);
    hear(rt, "Bob", bob)?;
    well = say(bob, b"Since noon.", 20) && well;
    carry(bob, ann, 20);
    hear(rt, "Ann", ann)?;
    if ann.out.room() > 0 {
        let closed = ann.conn.close(b"Goodbye.", &mut ann.out);
        well = closed.is_ok() && well;
    }
    carry(ann, bob, 30);
    println!(rt; "Bob's end: {:?}", bob.conn.state())?;
    Ok(well)
}

/// The program.
fn main(rt: HostRuntime) -> ExitCode {
    let (Some(mut ann), Some(mut bob)) = (new_side(rt.alloc()), new_side(rt.alloc())) else {
        return ExitCode::from(4);
    };
    match talk(&rt, &mut ann, &mut bob) {
        Ok(true) => ExitCode::SUCCESS,
        _ => ExitCode::FAILURE,
    }
}
