//! A base without a message (JAM, "Header file").
ghost use Rattle.std.specs.Prelude.{◌≡◌, [], IfOk};
ghost use Rattle.jb_image.specs.Records.{IsFixedReadAgain};
ghost use Rattle.jb_disk.specs.RedoView.{HasRoom};
ghost use Rattle.jb_image.specs.Stands.{fixed_of};
ghost use Rattle.jb_record.specs.declared.fixed.TheConstants.{FIXED_HEADER_BYTES};

use jb_base::OutOfMemory;
use jb_disk::{FileId, Length, Redo};
use jb_record::{FIXED_HEADER_BYTES, FixedHeader, RESERVED_BYTES, encode_fixed};
use jb_state::{Loaded, LoadedMarks, LoadedSlots};
use std::alloc::Global;

/// PasswordCRC of a base without a password.
pub const NO_PASSWORD: u32 = 0xFFFF_FFFF;

ghost use Rattle.jb_change.specs.NewBase.{MakesBase, base_lengths, base_pieces, new_loaded};

/// The fixed header of a base that is made at this moment.
fn new_header(moment: u32) -> FixedHeader
    ensures { result ≡ fixed_of (new_loaded moment) }
{
    FixedHeader {
        created: moment,
        counter: 0,
        active: 0,
        password: NO_PASSWORD,
        base: 1,
        reserved: [0; RESERVED_BYTES],
    }
}

/// The area of that base, as it is loaded.
pub fn new_loaded(alloc: Global, moment: u32) -> Result<Loaded, OutOfMemory>
    ensures { IfOk result (λ loaded. loaded ≡ new_loaded moment) }
{
    let slots = LoadedSlots::new(alloc)?;
    let marks = LoadedMarks::new(alloc)?;
    let fixed = new_header(moment);
    let reserved = fixed.reserved;
    Ok(Loaded {
        created: fixed.created,
        counter: fixed.counter,
        active: fixed.active,
        password: fixed.password,
        reserved,
        base: fixed.base,
        slots,
        marks,
        headers_len: FIXED_HEADER_BYTES as u64,
        texts_len: 0,
    })
}

/// Puts the change that makes that base of empty files into an empty redo. Each of the four files is given its length, so that
/// other programs find it. It takes no memory.
pub fn put_base(redo: &mut Redo, moment: u32)
    requires no_lengths { redo.old.lengths ≡ [] }
    requires no_pieces { redo.old.pieces ≡ [] }
    requires room { HasRoom 4 1 FIXED_HEADER_BYTES redo.old }
    ensures { MakesBase moment redo.new }
{
    put(redo, moment);
}

fn put(redo: &mut Redo, moment: u32)
    requires no_lengths { redo.old.lengths ≡ [] }
    requires no_pieces { redo.old.pieces ≡ [] }
    requires room { HasRoom 4 1 FIXED_HEADER_BYTES redo.old }
    ensures lengths { redo.new.lengths ≡ base_lengths }
    ensures pieces { redo.new.pieces ≡ base_pieces moment }
    ensures back { IsFixedReadAgain (new_loaded moment) }
{
    let header = encode_fixed(&new_header(moment));
    redo.put_len(Length {
        file: FileId::Jhr,
        len: FIXED_HEADER_BYTES as u64,
    });
    redo.put_len(Length {
        file: FileId::Jdt,
        len: 0,
    });
    redo.put_len(Length {
        file: FileId::Jdx,
        len: 0,
    });
    redo.put_len(Length {
        file: FileId::Jlr,
        len: 0,
    });
    redo.put_bytes(FileId::Jhr, 0, &header);
}
