//! Whether one pattern takes a name.
ghost use Rattle.std.specs.Prelude.{◌≡◌, ℕ, ◌<◌, ◌≤◌, ◌∷◌, Bool, List, length, true, false, MatchOption};
ghost use Rattle.jb_wildmat.specs.Wildmats.{pattern_takes, sign_takes};
ghost use Rattle.jb_wildmat.specs.Along.{IsAlong, TakesNone};

/// What is left of a pattern and of a name.
#[derive(Clone, Copy)]
pub(crate) struct Rest<'a> {
    pub(crate) pattern: &'a [u8],
    pub(crate) name: &'a [u8],
}

/// How a pattern goes along a name, from the front of both to its first `*`.
#[derive(Clone, Copy)]
pub(crate) enum Along<'a> {
    /// It has no `*`, and takes the name.
    Taken,
    /// It does not take the name.
    Missed,
    /// It goes on behind a `*`, with what is left of both.
    Star(Rest<'a>),
}

/// Whether a sign that is no `*` takes a byte.
fn sign_takes(sign: u8, byte: u8) -> bool
    ensures { result ≡ sign_takes sign byte }
{
    sign == b'?' || sign == byte
}

/// What stands behind the byte at the front of a name, if this sign takes it.
fn behind(sign: u8, name: &[u8]) -> Option<&[u8]>
    ensures { MatchOption result (TakesNone sign name.now)
        (λ rest. (byte : ℕ) × (name.now ≡ byte ∷ rest.now) × (sign_takes sign byte ≡ true)) }
{
    let (byte, rest) = name.split_first()?;
    sign_takes(sign, *byte).then_some(rest)
}

/// Goes along a name to the first `*` of a pattern. It takes a time that grows as what stands before that.
fn go_along<'a>(pattern: &'a [u8], name: &'a [u8]) -> Along<'a>
    ensures { IsAlong result pattern.now name.now }
{
    let mut signs = pattern;
    let mut left = name;
    while let Some((sign, later)) = signs.split_first() {
        if *sign == b'*' {
            return Along::Star(Rest {
                pattern: later,
                name: left,
            });
        }
        match behind(*sign, left) {
            Some(rest) => left = rest,
            None => return Along::Missed,
        }
        signs = later;
    }
    if left.is_empty() {
        Along::Taken
    } else {
        Along::Missed
    }
}

/// Whether a pattern takes a name. It takes a time that grows at most as the two multiplied: behind each `*` the first place
/// at which the pattern goes along to the next one is as good as any later.
pub(crate) fn pattern_takes(pattern: &[u8], name: &[u8]) -> bool
    ensures { result ≡ pattern_takes pattern.now name.now }
{
    let mut rest = match go_along(pattern, name) {
        Along::Taken => return true,
        Along::Missed => return false,
        Along::Star(rest) => rest,
    };
    loop {
        match go_along(rest.pattern, rest.name) {
            Along::Taken => return true,
            Along::Star(later) => rest = later,
            Along::Missed => match rest.name.split_first() {
                Some((_, later)) => rest.name = later,
                None => return false,
            },
        }
    }
}
