//! A walk along the rows of a page, in which each row's fold is looked up once.
ghost use Rattle.std.specs.Prelude.{◌≡◌, ◌∷◌, ◌<◌, [], length, IfNone, IfSome, Some};
ghost use Rattle.std.specs.Bool.{OnFalse, OnTrue};
ghost use Rattle.hash_upkeep.specs.Hashing.{CanHash, row_entries};
ghost use Rattle.hash_upkeep.specs.Walk.{IsOnWalk, entries_ahead, nodes_from_node};

use crate::hashing::{Hashing, shares_fold};
use chain_arena::Node;
use index_page::Page;

/// Where a walk is: the node of the row that it passed last, and of the one ahead.
#[derive(Clone, Copy)]
pub(crate) struct RowWalk {
    pub(crate) passed: Option<Node>,
    pub(crate) ahead: Option<Node>,
    // the number of the row ahead, by which the one after it is found; no clause speaks of it
    number: usize,
}

impl RowWalk {
    /// A walk that has passed no row.
    pub(crate) fn before(page: &Page, how: &Hashing) -> RowWalk
        requires hash { CanHash how.now page.now }
        ensures on { IsOnWalk how.now page.now.rows result }
        ensures ahead { entries_ahead how.now page.now.rows result
            ≡ row_entries how.now page.now.rows }
    {
        page.is_in_order();
        RowWalk {
            passed: None,
            ahead: how.node_beside(page, page.first()),
            number: 0,
        }
    }

    /// Passes the row ahead, and answers whether it is entered.
    fn pass(&mut self, page: &Page, how: &Hashing, node: Node) -> bool
        requires hash { CanHash how.now page.now }
        requires there { self.old.ahead ≡ Some node }
        requires on { IsOnWalk how.now page.now.rows self.old }
        ensures stays_on { IsOnWalk how.now page.now.rows self.new }
        ensures entered { OnTrue result (entries_ahead how.now page.now.rows self.old
            ≡ node ∷ entries_ahead how.now page.now.rows self.new) }
        ensures passed_over { OnFalse result (entries_ahead how.now page.now.rows self.old
            ≡ entries_ahead how.now page.now.rows self.new) }
        ensures nearer { length (nodes_from_node how.now page.now.rows self.new.ahead)
            < length (nodes_from_node how.now page.now.rows self.old.ahead) }
    {
        page.is_in_order();
        let next = how.node_beside(page, page.next_near(node.place, self.number));
        self.number = self.number.wrapping_add(1);
        let neighbour = if how.params.left { self.passed } else { next };
        self.passed = Some(node);
        self.ahead = next;
        !shares_fold(&neighbour, node.fold)
    }

    /// The next entry, once the rows up to it are passed.
    pub(crate) fn next_entry(&mut self, page: &Page, how: &Hashing) -> Option<Node>
        requires hash { CanHash how.now page.now }
        requires on { IsOnWalk how.now page.now.rows self.old }
        ensures stays_on { IsOnWalk how.now page.now.rows self.new }
        ensures some { IfSome result (λ node. entries_ahead how.now page.now.rows self.old
            ≡ node ∷ entries_ahead how.now page.now.rows self.new) }
        ensures none { IfNone result (entries_ahead how.now page.now.rows self.old ≡ []) }
    {
        while let Some(node) = self.ahead {
            if self.pass(page, how, node) {
                return Some(node);
            }
        }
        None
    }
}
