//! What the law says that a row or a tail changes among the entered nodes.
ghost use Rattle.std.specs.Prelude.{◌≡◌, ◌++◌, option_to_list};
ghost use Rattle.hash_law.specs.Entries.{unless_alike};
ghost use Rattle.hash_law.specs.Changes.{leader, follower, newly_entered, brought_in, driven_out, seam};

use chain_arena::Node;

/// The node, unless its neighbour has the same fold.
fn unless_alike(neighbour: Option<Node>, node: Node) -> Option<Node>
    ensures { option_to_list result ≡ unless_alike neighbour node }
{
    match neighbour {
        Some(other) if other.fold == node.fold => None,
        _ => Some(node),
    }
}

/// The follower, if it wasn't entered beside `old` and is beside `new`.
fn newly_entered(old: Option<Node>, new: Option<Node>, follows: Option<Node>) -> Option<Node>
    ensures { option_to_list result ≡ newly_entered old new follows }
{
    let node = follows?;
    match unless_alike(old, node) {
        None => unless_alike(new, node),
        Some(_) => None,
    }
}

/// The neighbour of a gap that decides whether a node there is entered, and the other one.
#[tactic(auto, using(crate::proofs::LastLemmas::first_at, crate::proofs::LastLemmas::last_at))]
fn neighbours(left: bool, before: &[Node], after: &[Node]) -> (Option<Node>, Option<Node>)
    ensures leads { result.0 ≡ leader left before.now after.now }
    ensures follows { result.1 ≡ follower left before.now after.now }
{
    let last = before.last().copied();
    let first = after.first().copied();
    if left { (last, first) } else { (first, last) }
}

/// What a node between these brings in, two at most, and what it drives out.
pub(crate) fn row_change(
    left: bool,
    before: &[Node],
    node: Node,
    after: &[Node],
) -> (Option<Node>, Option<Node>, Option<Node>)
    ensures brings { let led = leader left before.now after.now in
        let follows = follower left before.now after.now in
        option_to_list result.0 ++ option_to_list result.1 ≡ brought_in led node follows }
    ensures drives { let led = leader left before.now after.now in
        let follows = follower left before.now after.now in
        option_to_list result.2 ≡ driven_out led node follows }
{
    let (led, follows) = neighbours(left, before, after);
    let parted = newly_entered(led, Some(node), follows);
    let driven = newly_entered(Some(node), led, follows);
    (unless_alike(led, node), parted, driven)
}

/// The node before a tail that is entered only without it.
pub(crate) fn seam(left: bool, before: &[Node], tail: &[Node]) -> Option<Node>
    ensures { option_to_list result ≡ seam left before.now tail.now }
{
    if left {
        return None;
    }
    let (first, last) = neighbours(left, before, tail);
    newly_entered(first, None, last)
}
