//! The remainder by tables: eight bytes a step, then the rest byte by byte.
ghost use Rattle.std.specs.Prelude.{◌≡◌, ◌<◌};
ghost use Rattle.jb_bytes.specs.Crc.{crc_byte, crc_from, jam_crc_of};
ghost use Rattle.jb_crc.specs.Share.{share_of};

use crate::tables::TABLES;

/// What a byte adds to the CRC of itself and of the bytes that follow it, so many of them. `low` is the byte of the CRC
/// before into which it is combined.
fn share(further: usize, low: u8, byte: u8) -> u32
    requires { further < 8 }
    ensures { result ≡ share_of further low byte }
{
    TABLES[further][(low ^ byte.to_ascii_lowercase()) as usize]
}

/// The CRC after one more byte.
fn after_byte(crc: u32, byte: u8) -> u32
    ensures { result ≡ crc_byte crc byte }
{
    share(0, (crc % 256) as u8, byte) ^ (crc >> 8)
}

/// The CRC after eight more bytes.
fn after_block(crc: u32, block: &[u8; 8]) -> u32
    ensures { result ≡ crc_from crc block.now }
{
    let [first, second, third, fourth] = crc.to_le_bytes();
    share(7, first, block[0])
        ^ share(6, second, block[1])
        ^ share(5, third, block[2])
        ^ share(4, fourth, block[3])
        ^ share(3, 0, block[4])
        ^ share(2, 0, block[5])
        ^ share(1, 0, block[6])
        ^ share(0, 0, block[7])
}

/// The CRC of these bytes (JAM, "CRC"). The CRC of no bytes is `0xffff_ffff`.
pub fn jam_crc(bytes: &[u8]) -> u32
    ensures { result ≡ jam_crc_of bytes.now }
{
    let mut crc = 0xffff_ffff;
    let mut rest = bytes;
    while let Some((block, behind)) = rest.split_first_chunk::<8>() {
        crc = after_block(crc, block);
        rest = behind;
    }
    for byte in rest {
        crc = after_byte(crc, *byte);
    }
    crc
}
