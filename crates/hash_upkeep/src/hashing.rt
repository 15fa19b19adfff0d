//! How a leaf is hashed, and the nodes of its rows.
ghost use Rattle.std.specs.Prelude.{◌≡◌, IfSome, IsSome, Option, Some};
ghost use Rattle.index_page.specs.Rows.{Row, find_row, IsAt};
ghost use Rattle.hash_law.specs.Entries.{has_fold};
ghost use Rattle.hash_law.specs.Laws.{node_if};
ghost use Rattle.hash_law.specs.Blocks.{folds_of};
ghost use Rattle.hash_upkeep.specs.Hashing.{CanHash, hashing_if, row_node};

use chain_arena::Node;
use index_page::{Page, Place};
use key_tuple::{Params, fold};

/// How a leaf is hashed: for which index, as which block, with which parameters, and to how many
/// bits its folds are cut.
#[derive(Clone, Copy)]
pub struct Hashing {
    pub index: u32,
    pub block: u32,
    pub params: Params,
    pub bits: u8,
}

impl Hashing {
    /// The node of the row at a place.
    pub(crate) fn node(&self, page: &Page, place: Place) -> Node
        requires row { IsSome (find_row place page.now.rows) }
        requires hash { CanHash self.now page.now }
        ensures { (row : Row) → find_row place page.now.rows ≡ Some row
            → result ≡ row_node self.now row }
    {
        let row = page.row(place);
        Node {
            fold: fold(self.index, &row, &self.params, self.bits),
            block: self.block,
            place,
        }
    }

    /// The same where there may be no row.
    pub(crate) fn node_beside(&self, page: &Page, place: Option<Place>) -> Option<Node>
        requires row { IfSome place (λ at. IsSome (find_row at page.now.rows)) }
        requires hash { CanHash self.now page.now }
        ensures { (row : Option Row) → IsAt page.now.rows place row → result
            ≡ node_if (folds_of self.now.bits self.now.index self.now.params) self.now.block row }
    {
        match place {
            Some(place) => Some(self.node(page, place)),
            None => None,
        }
    }
}

/// How a block of an index is hashed, if it is with some parameters.
pub(crate) fn hashing_if(index: u32, block: u32, bits: u8, built: Option<Params>) -> Option<Hashing>
    ensures { result ≡ hashing_if index block bits built }
{
    match built {
        Some(params) => Some(Hashing {
            index,
            block,
            params,
            bits,
        }),
        None => None,
    }
}

/// Whether there is a neighbour, and it has this fold.
pub(crate) fn shares_fold(neighbour: &Option<Node>, fold: u64) -> bool
    ensures { result ≡ has_fold neighbour.now fold }
{
    match neighbour {
        Some(other) => other.fold == fold,
        None => false,
    }
}
