//! How many bytes of .JHR a message takes.
ghost use Rattle.std.specs.Prelude.{◌≡◌, ◌+◌, ◌-◌, ◌^◌, length, min};
ghost use Rattle.jb_bytes.specs.Subfields.{subfield_bytes};

use jb_bytes::Subfields;

/// The bytes of .JHR that a message with these subfields takes, its header and the subfields behind it, told as 2^64 - 1
/// where they are more.
pub fn headed_length(subfields: &Subfields) -> u64
    ensures { result ≡ min (76 + length (subfield_bytes subfields.now)) (2 ^ 64 - 1) }
{
    (subfields.as_bytes().len() as u64).saturating_add(76)
}
