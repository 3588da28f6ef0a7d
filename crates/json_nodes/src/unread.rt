//! Why bytes are no JSON, or were not read.
use json::Invalid;
use std::alloc::AllocError;

/// Why bytes gave no nodes.
#[derive(Clone, Copy, Debug, PartialEq, Eq)]
pub enum Unread {
    /// They are no value of JSON that nests 127 levels at most, or a number in it is too large for a double.
    BadJson,
    OutOfMemory,
}

impl From<Invalid> for Unread {
    ghost use Rattle.json_nodes.specs.declared.unread.Unread.TheVariants.{BadJson};
    ghost use Rattle.std.specs.Prelude.{◌≡◌};

    ghost from_gives = { λ _ e. e ≡ BadJson };

    fn from(_invalid: Invalid) -> Unread {
        Unread::BadJson
    }
}

impl From<AllocError> for Unread {
    ghost use Rattle.json_nodes.specs.declared.unread.Unread.TheVariants.{OutOfMemory};
    ghost use Rattle.std.specs.Prelude.{◌≡◌};

    ghost from_gives = { λ _ e. e ≡ OutOfMemory };

    fn from(_refused: AllocError) -> Unread {
        Unread::OutOfMemory
    }
}
