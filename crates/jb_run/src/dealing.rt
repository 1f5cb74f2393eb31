//! Rows with an element for each of several lists, dealt to their ends and collected from there.
ghost use Rattle.std.specs.Prelude.{◌≡◌, ◌+◌, ◌<◌, ◌≤◌, ℕ, All, IfOk, [], length, vec_capacity};
ghost use Rattle.jb_run.specs.Rows.{AreRoomy, HaveRoom, IsDealt, lists_of};

use jb_base::OutOfMemory;
use std::alloc::Global;

/// So many empty lists, with room for so many elements each.
pub(crate) fn roomy_lists<T: Drop>(
    alloc: Global,
    lists: usize,
    count: usize,
) -> Result<Vec<Vec<T>>, OutOfMemory>
    ensures { IfOk result (λ made. AreRoomy made.items lists count) }
{
    let mut made = Vec::with_capacity(alloc, lists)?;
    while made.len() < lists {
        made.push_reserved(Vec::with_capacity(alloc, count)?);
    }
    Ok(made)
}

/// Deals a row: its first element goes behind the first list, and so on. The row is empty then, and keeps its room.
pub(crate) fn deal<T>(lists: &mut Vec<Vec<T>>, row: &mut Vec<T>)
    requires count { length row.old.items ≡ length lists.old.items }
    requires room { All (λ list. length list.items < vec_capacity list) lists.old.items }
    ensures dealt { IsDealt (lists_of lists.old.items) row.old.items (lists_of lists.new.items) }
    ensures empty { row.new.items ≡ [] }

    // All keep their room.
    ensures row_room { vec_capacity row.new ≡ vec_capacity row.old }
    ensures list_room { (count : ℕ) → HaveRoom count lists.old.items → HaveRoom count lists.new.items }
{
    while let Some(one) = row.pop() {
        let place = row.len();
        lists[place].push_reserved(one);
    }
}

/// Collects a row: the last element of the first list, and so on.
pub(crate) fn collect<T>(lists: &mut Vec<Vec<T>>, row: &mut Vec<T>)
    requires last { All (λ list. 0 < length list.items) lists.old.items }
    requires empty { row.old.items ≡ [] }
    requires room { length lists.old.items ≤ vec_capacity row.old }
    ensures { IsDealt (lists_of lists.new.items) row.new.items (lists_of lists.old.items) }
{
    while row.len() < lists.len() {
        let place = row.len();
        let Some(one) = lists[place].pop() else {
            unreachable!()
        };
        row.push_reserved(one);
    }
}
