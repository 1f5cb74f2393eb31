//! The rounds of a bell over its areas.
ghost use Rattle.std.specs.Prelude.{◌≡◌, ◌+◌, IfNone, IfSome, Some};
ghost use Rattle.std.specs.Option.{option_map};
ghost use Rattle.jb_host.specs.Real.{next_in_turn, rings_in};

/// How often a bell rings, where that has an end.
pub(crate) fn rings_of(areas: u32, minutes: u32, calls: Option<u32>) -> Option<u32>
    ensures { result ≡ rings_in areas minutes calls }
{
    if minutes == 0 || areas == 0 {
        return Some(0);
    }
    calls.map(|_| areas)
}

/// How many rings are left behind the next one, where there is one.
pub(crate) fn left_behind(left: Option<u32>) -> Option<Option<u32>>
    ensures some { IfSome result (λ after. left ≡ option_map (λ n. n + 1) after) }
    ensures none { IfNone result (left ≡ Some 0) }
{
    match left {
        Some(0) => None,
        Some(n) => Some(Some(n - 1)),
        None => Some(None),
    }
}

/// The area that comes behind one, and the first behind the last.
pub(crate) fn area_behind(last: u32, areas: u32) -> u32
    ensures { result ≡ next_in_turn areas last }
{
    if last < areas { last + 1 } else { 1 }
}
