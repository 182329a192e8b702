//! How a turn serves.
ghost use Rattle.std.specs.Prelude.{◌≡◌};
ghost use Rattle.file_server.specs.Serve.{mode_of};

use chaos_link::Carriage;

/// How a turn of a server serves the connection of a slot.
#[derive(Clone, Copy, PartialEq, Eq)]
pub enum ServeMode {
    /// Once: one command at most, whose reply goes out at once.
    Once,
    /// In a burst: command after command, until nothing in front can be served, [`BURST`] commands
    /// were served, or more than so many packets wait. The replies go out together.
    ///
    /// [`BURST`]: crate::BURST
    Burst,
}

impl ServeMode {
    /// How a service by this carriage serves: in bursts where packets share datagrams.
    pub fn of(carriage: Carriage) -> Self
        // A service serves in bursts by carriage 2, and once a turn by carriage 1.
        ensures { result ≡ mode_of carriage }
    {
        match carriage {
            Carriage::One => ServeMode::Once,
            Carriage::Two => ServeMode::Burst,
        }
    }
}
