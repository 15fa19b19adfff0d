//! The row that a seek asks for, found in a plain map by looking at each row.
use report_judge::Reach;
use std::cmp::Ordering;
use std::collections::BTreeMap;

/// The first row behind the cut of a seek ahead, or the last one before that of a seek back.
pub(crate) fn sought<'a>(
    rows: &BTreeMap<&'a str, &'a str>,
    reach: Reach,
    tuple: &str,
) -> Option<(&'a str, &'a str)> {
    let mut before: Option<(&'a str, &'a str)> = None;
    let mut behind: Option<(&'a str, &'a str)> = None;
    for (key, value) in rows.iter() {
        if !is_cut_off(reach, tuple, key) {
            behind = Some((*key, *value));
            break;
        }
        before = Some((*key, *value));
    }
    if looks_ahead(reach) { behind } else { before }
}

fn looks_ahead(reach: Reach) -> bool {
    matches!(reach, Reach::From | Reach::Past)
}

/// Whether the key stands before the cut.
fn is_cut_off(reach: Reach, tuple: &str, key: &str) -> bool {
    let order = compare(tuple, key);
    match reach {
        Reach::From | Reach::Before => order.is_gt(),
        Reach::Past | Reach::UpTo => order.is_ge(),
    }
}

/// How a tuple stands to a key, which it equals where it is the key's first fields. A comma comes
/// before all that a drawn field has, so whole texts stand as their fields do.
fn compare(tuple: &str, key: &str) -> Ordering {
    match key.strip_prefix(tuple) {
        Some(rest) if rest.is_empty() || rest.starts_with(',') => Ordering::Equal,
        _ => tuple.cmp(key),
    }
}
