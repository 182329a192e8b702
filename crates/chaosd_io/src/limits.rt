//! The sizes that the engines keep to, each with its unit.
ghost use Rattle.std.specs.Prelude.{◌≡◌};
ghost use Rattle.chaosd_io.specs.declared.limits.TheConstants.{INPUT_LIMIT, LINE_LIMIT, KEPT_LEN, BUFFER_LEN, CHUNK_LEN, INTERRUPTIONS};

/// The most bytes of an input.
pub const INPUT_LIMIT: usize = 1_048_576;

/// The most bytes of a line of a script, without the byte that ends it and a carriage return before
/// that.
pub const LINE_LIMIT: usize = 4_096;

/// How many bytes of a line are kept that began in an earlier chunk: as many as a line may have, a
/// carriage return, and one more, which shows that it is too long.
pub const KEPT_LEN: usize = LINE_LIMIT + 2;

/// How many bytes a write buffer collects before it hands them on.
pub const BUFFER_LEN: usize = 16_384;

/// How many bytes are asked of a reader at a time.
pub const CHUNK_LEN: usize = 16_384;

/// How often the reads of a run may be interrupted, together.
pub const INTERRUPTIONS: u64 = 2_000_000;

/// The limits as numerals.
pub fn law_limits()
    // An input has at most 1,048,576 bytes.
    ensures input { INPUT_LIMIT ≡ 1048576 }
    // A line of a script has at most 4,096 bytes. Of each line 4,098 bytes are kept.
    ensures line { LINE_LIMIT ≡ 4096 }
    ensures kept { KEPT_LEN ≡ 4098 }
    // A buffer and a chunk have 16,384 bytes.
    ensures buffer { BUFFER_LEN ≡ 16384 }
    ensures chunk { CHUNK_LEN ≡ 16384 }
    // A run's reads may be interrupted 2,000,000 times.
    ensures interruptions { INTERRUPTIONS ≡ 2000000 }
{}
