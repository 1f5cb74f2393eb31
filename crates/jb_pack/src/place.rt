//! Where the next message goes.
ghost use Rattle.std.specs.Prelude.{◌+◌, ◌<◌, ◌≤◌, ◌^◌};
ghost use Rattle.jb_limits.specs.declared.limits.TheConstants.{HEADERS_CEILING, TEXTS_CEILING};
ghost use Rattle.jb_state.specs.Loaded.{header_size};

use jb_state::LoadedMessage;
use jb_subfield::headed_length;

/// The number of the next slot, the places in bytes of the next header in .JHR and of the next text in .JDT, and how many
/// live messages come before them.
#[derive(Clone, Copy)]
pub(crate) struct Place {
    pub(crate) number: u32,
    pub(crate) header_at: u32,
    pub(crate) text_at: u32,
    pub(crate) live: u32,
}

ghost use Rattle.jb_pack.specs.Places.{IsBehind};

/// The place right behind a live message that is put at this one.
pub(crate) fn behind(message: &LoadedMessage, place: Place) -> Place
    requires headers { place.header_at + header_size message.now ≤ HEADERS_CEILING }
    requires texts { place.text_at + message.now.text_len ≤ TEXTS_CEILING }
    requires number { place.number + 1 < 2 ^ 32 }
    requires live { place.live + 1 < 2 ^ 32 }
    ensures { IsBehind message.now place result }
{
    Place {
        number: place.number + 1,
        header_at: place.header_at + headed_length(&message.subfields) as u32,
        text_at: place.text_at + message.text_len,
        live: place.live + 1,
    }
}
