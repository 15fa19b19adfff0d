//! Pages by their numbers: the roots, and new ones.
ghost use Rattle.std.specs.Prelude.{◌≤◌};

use crate::claims::ensure;
use crate::setup::{Asked, Grove};
use buffer_pool::PoolError;
use std::process::Abort;
use std::sync::Wait;

/// What is asked for, and the block that has it where there is such a page.
static ASKED: [(Asked, Option<u32>); 6] = [
    ((0, 0, 0), Some(0)),
    ((1, 1, 0), Some(1)),
    ((0, 1, 0), None),
    ((0, 0, 1), None),
    ((2, 0, 0), None),
    ((3, 1, 0), None),
];

/// Whether each of these is found so.
fn are_found<R: Wait>(grove: &mut Grove, wait: &R) -> bool {
    for (asked, block) in ASKED.iter() {
        if grove.block_of(asked, wait) != *block {
            return false;
        }
    }
    true
}

/// Where there are so many pages, the roots alone are pages of the trees, and a new page has that
/// number each time, which is taken again, or is refused.
fn assert_pages<R: AllocGlobal + Abort + Wait>(rt: &R, pages: u32, number: Result<u32, PoolError>)
    requires { (2 ≤ pages) × (pages ≤ 100) }
{
    let mut grove = Grove::open(rt, pages);
    let are_so = are_found(&mut grove, rt)
        && grove.root_block(rt) == 0
        && grove.new_number(rt) == number
        && grove.new_number(rt) == number
        && are_found(&mut grove, rt);
    ensure(rt, are_so, "the roots, and this number twice");
}

#[test]
fn roots_alone_are_pages_of_the_trees_and_may_take_all_numbers(rt: HostRuntime) {
    assert_pages(&rt, 4, Ok(2));
    assert_pages(&rt, 2, Err(PoolError::SpaceFull));
}
