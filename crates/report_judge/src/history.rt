//! The list of an index, replayed from the empty map. It stands key by key as keys rise, and the
//! changes of one key in their order.
use crate::acts::{Act, Reach};
use crate::asked::Line;
use crate::changes::Change;
use crate::judging::Lie;
use crate::keys::compare_fields;
use std::cmp::Ordering;

/// Sorts the list of each index, in which each put has a key that isn't there, and each set or del
/// one that is.
pub(crate) fn replay(changes: &mut Vec<Change<'_>>) -> Result<(), Lie> {
    let sorted = changes.sort_by(|one, other| {
        let order = one.index.cmp(&other.index);
        order.then(compare_fields(one.key, other.key))
    });
    match sorted {
        Ok(()) => check_law(changes),
        Err(_) => Err(Lie::NoMemory),
    }
}

/// Each change has its key there or absent, as it wants it.
fn check_law(changes: &[Change<'_>]) -> Result<(), Lie> {
    let mut index = 0;
    let mut key = "";
    let mut is_there = false;
    for change in changes {
        let is_same = change.index == index && change.key == key;
        if !change.act.is_allowed(is_there && is_same) {
            return Err(Lie::Unlawful {
                index: change.index,
                change: change.point,
            });
        }
        index = change.index;
        key = change.key;
        is_there = change.act.writes_row();
    }
    Ok(())
}

/// How many changes stand before a tuple: those of lower keys, and of the keys that it equals those
/// among the first so many of the list.
fn count_before(list: &[Change<'_>], tuple: &str, point: u64) -> usize {
    list.partition_point(|change| match compare_fields(tuple, change.key) {
        Ordering::Greater => true,
        Ordering::Equal => change.point <= point,
        Ordering::Less => false,
    })
}

/// The row that a line asks about, after so many changes of the list, if it is there.
pub(crate) fn row_asked<'a>(
    line: &Line<'_>,
    list: &[Change<'a>],
    point: u64,
) -> Option<(&'a str, &'a str)> {
    match line.act {
        Act::Seek(reach) => row_sought(list, reach, line.key, point),
        _ => row_of(list, line.key, point),
    }
}

/// The row of a key: its last change writes it, which is the one before those behind the point.
fn row_of<'a>(list: &[Change<'a>], key: &str, point: u64) -> Option<(&'a str, &'a str)> {
    let place = count_before(list, key, point).wrapping_sub(1);
    match row_left(list, place, point) {
        Some(row) if row.0 == key => Some(row),
        _ => None,
    }
}

/// The row that a seek finds.
fn row_sought<'a>(
    list: &[Change<'a>],
    reach: Reach,
    tuple: &str,
    point: u64,
) -> Option<(&'a str, &'a str)> {
    match reach {
        Reach::From => first_row(list, count_before(list, tuple, 0), point),
        Reach::Past => first_row(list, count_before(list, tuple, u64::MAX), point),
        Reach::UpTo => last_row(list, count_before(list, tuple, u64::MAX), point),
        Reach::Before => last_row(list, count_before(list, tuple, 0), point),
    }
}

/// The first row that a change from this place on leaves.
fn first_row<'a>(list: &[Change<'a>], start: usize, point: u64) -> Option<(&'a str, &'a str)> {
    for place in start..list.len() {
        if let Some(row) = row_left(list, place, point) {
            return Some(row);
        }
    }
    None
}

/// The last row that a change before this place leaves.
fn last_row<'a>(list: &[Change<'a>], end: usize, point: u64) -> Option<(&'a str, &'a str)> {
    for place in (0..end).rev() {
        if let Some(row) = row_left(list, place, point) {
            return Some(row);
        }
    }
    None
}

/// The row of the key of the change at this place, if that is the last one of the key among the
/// first so many of the list, and writes it.
fn row_left<'a>(list: &[Change<'a>], place: usize, point: u64) -> Option<(&'a str, &'a str)> {
    let Some(change) = list.get(place) else {
        return None;
    };
    let is_last = match list.get(place.wrapping_add(1)) {
        Some(next) => next.point > point || next.key != change.key,
        None => true,
    };
    let is_row = is_last && change.point <= point && change.act.writes_row();
    is_row.then_some((change.key, change.value))
}
