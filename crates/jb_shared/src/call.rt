//! A call as it is handed on.

use jb_base::User;
use jb_model::Command;

/// Who calls, at which moment in seconds since 1970, and what.
#[derive(Clone, Copy)]
pub(crate) struct Call<'c> {
    pub(crate) user: &'c User,
    pub(crate) moment: u32,
    pub(crate) command: &'c Command,
}
