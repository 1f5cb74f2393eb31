//! Whether a wildmat takes a name.
ghost use Rattle.std.specs.Prelude.{◌≡◌, unwrap_or};
ghost use Rattle.jb_wildmat.specs.Wildmats.{is_negated, pattern_of, takes, word_of};

use crate::pattern::pattern_takes;

/// Whether a pattern has a `!` before it.
fn is_negated(item: &[u8]) -> bool
    ensures { result ≡ is_negated item.now }
{
    item.first() == Some(&b'!')
}

/// A pattern without the `!` before it.
fn pattern_of(item: &[u8]) -> &[u8]
    ensures { result.now ≡ pattern_of item.now }
{
    match item.split_first() {
        Some((b'!', pattern)) => pattern,
        _ => item,
    }
}

/// Whether a name is taken, after one pattern more.
fn after(taken: bool, item: &[u8], name: &[u8]) -> bool
    ensures { result ≡ unwrap_or (word_of item.now name.now) taken }
{
    if pattern_takes(pattern_of(item), name) {
        !is_negated(item)
    } else {
        taken
    }
}

/// Whether a wildmat takes a name: the last of its patterns that takes the name decides, and one with a `!` before it
/// leaves the name out. `?` takes one byte, which is one character of an ASCII name.
///
/// Nothing is refused: what RFC 3977 allows in no pattern (`[`, `\`, `]`, and a `!` behind its front) stands for itself.
pub fn takes(wildmat: &[u8], name: &[u8]) -> bool
    ensures { result ≡ takes wildmat.now name.now }
{
    let mut taken = false;
    for item in wildmat.split(|byte| *byte == b',') {
        taken = after(taken, item, name);
    }
    taken
}
