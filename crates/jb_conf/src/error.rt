//! Why a settings file is refused.
ghost use Rattle.std.specs.Prelude.{◌≡◌};
ghost use Rattle.jb_conf.specs.declared.error.ConfError.TheVariants.{OutOfMemory as no_memory};

use crate::Field;
use jb_base::OutOfMemory;
use thiserror::Error;

/// Why [`read`](crate::read) gives no board: the first test, in the order of the fields, that the file fails.
#[derive(Clone, Copy, Debug, PartialEq, Eq, Error)]
pub enum ConfError {
    /// The bytes are no TOML document; those that are not UTF-8 are none.
    #[error("the settings are no TOML document")]
    NotToml,
    /// A field that has to be there is not.
    #[error("{field} is missing")]
    Missing { field: Field },
    /// A field holds something else than the text, the whole number or the array of tables that it has to hold.
    #[error("{field} is of another kind than it has to be")]
    WrongKind { field: Field },
    /// A field's value is outside its range; of `slots`, also where all areas so far have too many together.
    #[error("{field} is out of its range")]
    OutOfRange { field: Field },
    /// A field's value is that of an area or a user before it.
    #[error("{field} is the same as one before it")]
    Repeated { field: Field },
    /// The digest of this user, counted from 1, is not 64 hexadecimal digits.
    #[error("user.{user}.digest is not 64 hexadecimal digits")]
    BadDigest { user: u32 },
    /// The allocator gave no memory.
    #[error("out of memory")]
    OutOfMemory,
}

impl From<OutOfMemory> for ConfError {
    ghost from_gives = { λ _ error. error ≡ no_memory };

    fn from(_: OutOfMemory) -> ConfError {
        ConfError::OutOfMemory
    }
}
