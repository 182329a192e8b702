//! An input in memory, and an output that keeps nothing.
ghost use Rattle.std.specs.Prelude.{None, Some};

use crate::input::ReadOnce;
use crate::output::WriteOnce;
use std::io;
use std::io::{Error, ErrorKind, Read};

/// An input in memory, whose reads are interrupted so often before they give its bytes: by it the
/// clauses of [`ReadOnce`] can be met where interruptions are known.
#[derive(Drop)]
pub struct MemInput<'a> {
    pub rest: &'a [u8],
    pub interruptions: u64,
}

/// The way of an input in memory, of which it is known when it will be interrupted.
pub struct ByMemory;

impl<'a> ReadOnce<MemInput<'a>> for ByMemory {
    ghost remaining = { λ input. Some input.rest.now };

    ghost interruptions = { λ input. Some input.interruptions };

    fn read_once(reader: &mut MemInput<'a>, chunk: &mut [u8]) -> io::Result<usize> {
        if reader.interruptions > 0 {
            reader.interruptions -= 1;
            return Err(Error::from(ErrorKind::Interrupted));
        }
        reader.rest.read(chunk)
    }
}

/// An output that keeps none of its bytes, whose writes are interrupted so often before it takes
/// some: by it the clauses of [`WriteOnce`] can be met where interruptions and flushes are known.
#[derive(Drop)]
pub struct MemSink {
    pub interruptions: u64,
    pub is_flushed: bool,
}

impl WriteOnce<MemSink> for ByMemory {
    ghost contents = { λ _. None };

    ghost interruptions = { λ sink. Some sink.interruptions };

    ghost is_flushed = { λ sink. Some sink.is_flushed };

    fn write_once(writer: &mut MemSink, bytes: &[u8]) -> io::Result<usize> {
        if writer.interruptions > 0 {
            writer.interruptions -= 1;
            return Err(Error::from(ErrorKind::Interrupted));
        }
        writer.is_flushed = false;
        Ok(bytes.len())
    }

    fn flush_once(writer: &mut MemSink) -> io::Result<()> {
        writer.is_flushed = true;
        Ok(())
    }
}
