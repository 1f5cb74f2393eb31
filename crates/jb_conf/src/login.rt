//! The log-in of users.
ghost use Rattle.std.specs.Prelude.{◌≡◌, ◌++◌, bytes_eq, position};
ghost use Rattle.sha2.specs.Sha256.{sha256};
ghost use Rattle.jb_bytes.specs.Name.{same_name};
ghost use Rattle.jb_conf.specs.LogIn.{logs_in};

use crate::{Board, BoardUser};
use sha2::{Digest, Sha256};

/// The SHA-256 of a salt and a password behind it.
fn digest_of(salt: &[u8], password: &[u8]) -> [u8; 32]
    ensures { result ≡ sha256 (salt.now ++ password.now) }
{
    let mut hasher = Sha256::new();
    hasher.update(salt);
    hasher.update(password);
    hasher.finalize()
}

/// Whether the two digests are the same. All bytes are compared, wherever they differ first.
fn is_same_digest(one: &[u8; 32], other: &[u8; 32]) -> bool
    ensures { result ≡ bytes_eq one.now other.now }
{
    let mut differing = 0;
    for (at, byte) in one.iter().enumerate() {
        differing |= *byte ^ other[at];
    }
    differing == 0
}

/// Whether the user has this name.
pub(crate) fn has_name(user: &BoardUser, name: &[u8]) -> bool
    ensures { result ≡ same_name user.now.user.name name.now }
{
    user.user.name.as_slice().eq_ignore_ascii_case(name)
}

/// The place of the first user who has this name. All users are looked at, also those behind it.
fn place_of(users: &[BoardUser], name: &[u8]) -> Option<usize>
    ensures { result ≡ position (λ user. same_name user.user.name name.now) users.now }
{
    let mut place = None;
    for (at, user) in users.iter().enumerate() {
        place = place.or(has_name(user, name).then_some(at));
    }
    place
}

/// The place, counted from 0, of the first user who has this name (with `A` to `Z` as `a` to `z`) and this password; none
/// where no user has both. No two users of a board have one name.
///
/// One digest is made whether a user has the name or not, and all of it is compared; all users are looked at, whichever has
/// it. So the time depends on the number of users and on the lengths of the name, the password and the salt. It does not tell
/// whether there is a user of the name, nor which one, but by one thing: names are compared up to their first byte that
/// differs, so that a name takes the longer the more users' names begin as it does.
pub fn check_login(board: &Board, name: &[u8], password: &[u8]) -> Option<u32>
    ensures { result ≡ position (logs_in name.now password.now) board.now.users }
{
    let users = board.users.as_slice();
    let place = place_of(users, name);
    // Where nobody has the name, the first user stands in, so that a digest is made all the same.
    let user = users.get(place.unwrap_or(0))?;
    let digest = digest_of(user.salt.as_slice(), password);
    let is_right = is_same_digest(&digest, &user.digest);
    // `&` and not `&&`: the digest is needed whatever the place is.
    if place.is_some() & is_right {
        place.map(|at| at as u32)
    } else {
        None
    }
}
