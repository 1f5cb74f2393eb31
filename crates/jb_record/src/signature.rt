//! The four bytes with which each header begins (JAM, "Header file").
ghost use Rattle.std.specs.Prelude.{◌≡◌, ◌≤◌, ◌↔◌, IsTrue, length, take};
ghost use Rattle.jb_record.specs.Fields.{signature};

/// `JAM` and a zero byte.
pub(crate) const SIGNATURE: [u8; 4] = *b"JAM\0";

/// Whether the bytes begin with the signature.
pub(crate) fn is_signed(bytes: &[u8]) -> bool
    requires { 4 ≤ length bytes.now }
    ensures { IsTrue result ↔ (take 4 bytes.now ≡ signature) }
{
    &bytes[..4] == SIGNATURE.as_slice()
}
