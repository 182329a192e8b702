//! The moments of a client, and how long it waits.
ghost use Rattle.std.specs.Prelude.{◌≡◌};
ghost use Rattle.file_client.specs.Pace.{usual_timing};

use crate::patience::Patience;
use chaos_node::Epoch;

/// When a client's run began, with the numbers and indices that its connections begin with, and how
/// long the client waits for a reply.
#[derive(Clone, Copy)]
pub struct Timing {
    pub epoch: Epoch,
    pub patience: Patience,
}

impl Timing {
    /// A run that began then, with the usual patience.
    pub fn usual(epoch: Epoch) -> Self
        // A usual timing has this epoch and the usual patience.
        ensures { result ≡ usual_timing epoch }
    {
        Timing {
            epoch,
            patience: Patience::usual(),
        }
    }
}
