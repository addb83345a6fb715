//! Why a call of a client is refused.
ghost use Rattle.std.specs.Prelude.{◌≡◌};
ghost use Rattle.cf_client.specs.declared.fault.ClientFault.TheVariants.{Memory};

use std::alloc::AllocError;
use thiserror::Error;

/// Why a call of a client is refused. Of several causes the first named here is given, but that a text is `Memory` if memory
/// is refused while it is read. A refused call changes nothing.
#[derive(Clone, Copy, PartialEq, Eq, Debug, Drop, Error)]
pub enum ClientFault {
    /// The text is none of a node's.
    #[error("unreadable")]
    Bad,
    /// The call doesn't fit what the client is doing.
    #[error("not now")]
    NotNow,
    /// All command ids of this connection are used, of which the last is 4,294,967,295.
    #[error("no command id is left")]
    AtLastId,
    /// Memory was refused.
    #[error("out of memory")]
    Memory,
}

impl From<AllocError> for ClientFault {
    ghost from_gives = { λ _ e. e ≡ Memory };

    fn from(_refused: AllocError) -> ClientFault {
        ClientFault::Memory
    }
}
