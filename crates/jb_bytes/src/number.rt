//! Numbers in files: two or four bytes, the lowest first (JAM, "Data types").
ghost use Rattle.std.specs.Prelude.{◌≡◌, ◌+◌, ◌^◌, ◌<◌, ◌≤◌, length};
ghost use Rattle.jb_bytes.specs.Number.{number_at, with_number};

/// The number of two bytes at a place.
pub fn get_u16(bytes: &[u8], at: usize) -> u16
    requires { at + 2 ≤ length bytes.now }
    ensures { result ≡ number_at 2 at bytes.now }
{
    bytes[at] as u16 + bytes[at + 1] as u16 * 256
}

/// The number of four bytes at a place.
pub fn get_u32(bytes: &[u8], at: usize) -> u32
    requires { at + 4 ≤ length bytes.now }
    ensures { result ≡ number_at 4 at bytes.now }
{
    get_u16(bytes, at) as u32 + get_u16(bytes, at + 2) as u32 * 65_536
}

/// Writes a number of two bytes at a place.
pub fn put_u16(bytes: &mut [u8], at: usize, value: u16)
    requires { at + 2 ≤ length bytes.old }
    ensures exact { bytes.new ≡ with_number 2 at value bytes.old }
    ensures fits { value < 2 ^ 16 }
{
    bytes[at] = (value % 256) as u8;
    bytes[at + 1] = (value / 256) as u8;
}

/// Writes a number of four bytes at a place.
pub fn put_u32(bytes: &mut [u8], at: usize, value: u32)
    requires { at + 4 ≤ length bytes.old }
    ensures exact { bytes.new ≡ with_number 4 at value bytes.old }
    ensures fits { value < 2 ^ 32 }
{
    bytes[at] = (value % 256) as u8;
    bytes[at + 1] = (value / 256 % 256) as u8;
    bytes[at + 2] = (value / 256 / 256 % 256) as u8;
    bytes[at + 3] = (value / 256 / 256 / 256 % 256) as u8;
}
