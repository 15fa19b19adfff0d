//! Two pages whose rows become those of the first.
ghost use Rattle.std.specs.Prelude.{◌≡◌, OnOk, OnErr};
ghost use Rattle.key_tuple.specs.Order.{FieldList};
ghost use Rattle.tree_merging.specs.Merges.{SuitsPair, MergesPage};

use index_page::Page;
use key_tuple::NoMemory;

/// Moves all rows of the right page behind those of the left one, which names the right one's next
/// page then. After `NoMemory` both pages are as before.
pub(crate) fn merge_pages(left: &mut Page, right: &mut Page) -> Result<(), NoMemory>
    requires { (at : FieldList) × SuitsPair left.old right.old at }
    ensures ok { OnOk result (MergesPage left.old left.new right.old right.new) }
    ensures err { OnErr result (left.new ≡ left.old) }
    ensures right_err { OnErr result (right.new ≡ right.old) }
{
    left.is_in_order();
    right.is_in_order();
    let (prev, head) = (left.head().prev, *right.head());
    right.move_all(left)?;
    left.link(prev, head.next);
    right.link(Some(head.number), None);
    left.is_in_order();
    Ok(())
}
