//! The words of a line, and parts of a text.
ghost use Rattle.std.specs.Prelude.{◌≡◌, ◌+◌, ◌≤◌, drop, length, take, IfSome, nat_lt};
ghost use Rattle.jb_news.specs.Words.{behind_of, ends_with, front_of, is_blank, place_of, says, word_end, words_of};
ghost use Rattle.jb_news.specs.FirstWords.{words_given};

/// Where the first of these bytes is, or behind all.
pub(crate) fn place_of(byte: u8, text: &[u8]) -> usize
    ensures place { result ≡ place_of byte text.now }
    ensures within { result ≤ length text.now }
{
    for (place, other) in text.iter().enumerate() {
        if *other == byte {
            return place;
        }
    }
    text.len()
}

/// Where the first blank is, or behind all.
fn word_end(text: &[u8]) -> usize
    ensures place { result ≡ word_end text.now }
    ensures within { result ≤ length text.now }
{
    for (place, byte) in text.iter().enumerate() {
        if is_blank(*byte) {
            return place;
        }
    }
    text.len()
}

/// Whether a byte is a space or a tab.
fn is_blank(byte: u8) -> bool
    ensures { result ≡ is_blank byte }
{
    byte == b' ' || byte == b'\t'
}

/// What stands behind the byte at this place, if anything.
pub(crate) fn behind(text: &[u8], place: usize) -> &[u8]
    requires { place ≤ length text.now }
    ensures { result.now ≡ drop (place + 1) text.now }
{
    let (_, after) = text.split_at((place + 1).min(text.len()));
    after
}

/// A text around the first of some bytes.
#[derive(Clone, Copy)]
pub(crate) struct Sides<'a> {
    /// What stands before it: all where there is none.
    pub(crate) front: &'a [u8],
    /// What stands behind it.
    pub(crate) behind: &'a [u8],
    /// Whether there is one.
    pub(crate) found: bool,
}

/// The text around the first of these bytes.
pub(crate) fn around(byte: u8, text: &[u8]) -> Sides<'_>
    ensures front { result.front.now ≡ front_of byte text.now }
    ensures behind { result.behind.now ≡ behind_of byte text.now }
    ensures found { result.found ≡ nat_lt (place_of byte text.now) (length text.now) }
{
    let place = place_of(byte, text);
    Sides {
        front: &text[..place],
        behind: behind(text, place),
        found: place < text.len(),
    }
}

/// The first word of a text, and what stands behind it.
#[derive(Clone, Copy)]
pub(crate) struct FirstWord<'a> {
    pub(crate) word: &'a [u8],
    pub(crate) behind: &'a [u8],
}

/// The first word of a text, where it has one. It takes a time that grows as the text.
pub(crate) fn first_word(text: &[u8]) -> Option<FirstWord<'_>>
    ensures words { words_given result ≡ words_of text.now }
    ensures word { IfSome result (λ first. length first.word.now ≤ length text.now) }
    ensures behind { IfSome result (λ first. length first.behind.now ≤ length text.now) }
{
    let mut rest = text;
    while !rest.is_empty() {
        let end = word_end(rest);
        let word = &rest[..end];
        let after = behind(rest, end);
        if !word.is_empty() {
            return Some(FirstWord {
                word,
                behind: after,
            });
        }
        rest = after;
    }
    None
}

/// Whether a word is this one, in either case.
pub(crate) fn says(name: &[u8], word: &[u8]) -> bool
    ensures { result ≡ says name.now word.now }
{
    word.eq_ignore_ascii_case(name)
}

/// Whether a text ends with this byte.
pub(crate) fn ends_with(byte: u8, text: &[u8]) -> bool
    ensures { result ≡ ends_with byte text.now }
{
    match text.split_last() {
        Some((last, _)) => *last == byte,
        None => false,
    }
}
