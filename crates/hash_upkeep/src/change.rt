//! What one row more or less changes among the entries of its block.
ghost use Rattle.std.specs.Prelude.{◌≡◌, IsSome, option_to_list};
ghost use Rattle.index_page.specs.Rows.{find_row};
ghost use Rattle.hash_law.specs.Entries.{unless_alike};
ghost use Rattle.hash_law.specs.Changes.{newly_entered, brought_in, driven_out};
ghost use Rattle.hash_upkeep.specs.Hashing.{CanHash};
ghost use Rattle.hash_upkeep.specs.Change.{few_nodes, ChangesAt};

use crate::few::Few;
use crate::hashing::{Hashing, shares_fold};
use chain_arena::Node;
use index_page::{Page, Place};

/// What a row brings in, and what it drives out.
#[derive(Clone, Copy)]
pub(crate) struct RowChange {
    pub(crate) brought: Few,
    pub(crate) driven: Few,
}

/// What the row at a place brings in and drives out among the others.
pub(crate) fn row_change_at(page: &Page, place: Place, how: &Hashing) -> RowChange
    requires row { IsSome (find_row place page.now.rows) }
    requires hash { CanHash how.now page.now }
    ensures { ChangesAt how.now page.now.rows place result }
{
    page.is_in_order();
    let (prev, next) = page.beside(place);
    let node = how.node(page, place);
    let before = how.node_beside(page, prev);
    let after = how.node_beside(page, next);
    if how.params.left {
        change_between(before, node, after)
    } else {
        change_between(after, node, before)
    }
}

/// The same of a node, by the neighbour that decides of it and the one of which it decides.
fn change_between(leads: Option<Node>, node: Node, follows: Option<Node>) -> RowChange
    ensures brought { few_nodes result.brought ≡ brought_in leads node follows }
    ensures driven { few_nodes result.driven ≡ driven_out leads node follows }
{
    RowChange {
        brought: Few {
            first: unless_shared(leads, node),
            second: newly_led(leads, Some(node), follows),
        },
        driven: Few {
            first: newly_led(Some(node), leads, follows),
            second: None,
        },
    }
}

/// The node, unless its neighbour has its fold.
fn unless_shared(neighbour: Option<Node>, node: Node) -> Option<Node>
    ensures { option_to_list result ≡ unless_alike neighbour node }
{
    if shares_fold(&neighbour, node.fold) {
        None
    } else {
        Some(node)
    }
}

/// The follower, if it wasn't entered beside `old` and is beside `new`.
fn newly_led(old: Option<Node>, new: Option<Node>, follows: Option<Node>) -> Option<Node>
    ensures { option_to_list result ≡ newly_entered old new follows }
{
    let node = follows?;
    if shares_fold(&old, node.fold) {
        unless_shared(new, node)
    } else {
        None
    }
}
