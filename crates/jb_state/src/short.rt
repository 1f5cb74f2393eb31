//! The first bytes of a byte string, kept in place.

/// The first `N` bytes of a byte string, with zeros after its end, and its whole length.
#[derive(Clone, Copy)]
pub struct Short<const N: usize> {
    pub first: [u8; N],
    pub length: u32,
}

impl<const N: usize> Short<N> {
    ghost use Rattle.std.specs.Prelude.{◌≡◌, ◌<◌, ◌^◌, length};
    ghost use Rattle.jb_state.specs.Short.{kept_of, short_of};

    /// The first bytes of these.
    pub fn of(bytes: &[u8]) -> Short<N>
        requires { length bytes.now < 2 ^ 32 }
        ensures { result ≡ short_of N bytes.now }
    {
        let mut first = [0; N];
        let kept = bytes.len().min(N);
        first[..kept].copy_from_slice(&bytes[..kept]);
        Short {
            first,
            length: bytes.len() as u32,
        }
    }

    /// The bytes that are kept, without the zeros after them.
    pub fn as_slice(&self) -> &[u8]
        ensures { result.now ≡ kept_of N self.now }
    {
        let kept = (self.length as usize).min(N);
        &self.first[..kept]
    }
}
