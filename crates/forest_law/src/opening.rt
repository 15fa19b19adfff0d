//! What a space of trees begins with.
ghost use Rattle.std.specs.Prelude.{◌≡◌, ◌≤◌, IfOk, OnOk, []};
ghost use Rattle.hash_partition.specs.Part.{empty_part};
ghost use Rattle.forest_law.specs.declared.objects.Object.TheVariants as object;
ghost use Rattle.forest_law.specs.Opening.{empty_page, first_image, first_frame};
ghost use Rattle.forest_law.specs.Opening.{first_tree, first_where};
ghost use Rattle.forest_law.specs.Opening.{IsFirstPool, AreFirstObjects, AddsEach};

use crate::layout::ForestLayout;
use crate::objects::{Frame, Object, Pool, Stored, Tree, Where};
use block_ages::Ages;
use hash_partition::Partition;
use index_page::{Page, PageHead};
use key_tuple::NoMemory;
use learning::BlockFigures;
use std::alloc::Global;

/// The pool, a tree for each index, the partitions, and a frame for each block: each index's empty
/// root is an image, no partition has a node, no frame a page, and each frame this clock.
pub fn first_forest(
    alloc: Global,
    layout: &ForestLayout,
    clock: u64,
) -> Result<Vec<Object>, NoMemory>
    requires room { layout.now.indexes ≤ layout.now.pages }
    ensures { IfOk result (λ objects. AreFirstObjects layout.now clock objects.items) }
{
    let mut objects = Vec::new(alloc);
    objects.push(Object::Pool(first_pool(alloc, layout)?))?;
    push_trees(&mut objects, layout.indexes)?;
    push_parts(alloc, &mut objects, layout)?;
    push_frames(&mut objects, layout.blocks, clock)?;
    Ok(objects)
}

/// The pool with each root as the image of its number, and each other number free.
fn first_pool(alloc: Global, layout: &ForestLayout) -> Result<Pool, NoMemory>
    requires room { layout.now.indexes ≤ layout.now.pages }
    ensures { IfOk result (λ pool. IsFirstPool layout.now pool) }
{
    Ok(Pool {
        place: first_places(alloc, layout)?,
        images: first_images(alloc, layout)?,
        ages: Ages::new(alloc, layout.blocks)?,
        tick: 0,
    })
}

/// Where the page of each number is at the opening.
fn first_places(alloc: Global, layout: &ForestLayout) -> Result<Vec<Where>, NoMemory>
    ensures { IfOk result (λ place. AddsEach [] place.items layout.now.pages
        (first_where layout.now.indexes)) }
{
    let mut place = Vec::new(alloc);
    for n in 0..layout.pages {
        place.push(first_where(layout.indexes, n))?;
    }
    Ok(place)
}

/// Where the page of a number is at the opening.
fn first_where(indexes: u32, n: u32) -> Where
    ensures { result ≡ first_where indexes n }
{
    if n < indexes {
        Where::Image
    } else {
        Where::Free
    }
}

/// The image of each number at the opening.
fn first_images(alloc: Global, layout: &ForestLayout) -> Result<Vec<Option<Stored>>, NoMemory>
    ensures { IfOk result (λ images. AddsEach [] images.items layout.now.pages
        (first_image layout.now)) }
{
    let mut images = Vec::new(alloc);
    for n in 0..layout.pages {
        images.push(first_image(alloc, layout, n)?)?;
    }
    Ok(images)
}

/// The image of a number at the opening: the empty root of the index of that number, if there is
/// one.
fn first_image(alloc: Global, layout: &ForestLayout, n: u32) -> Result<Option<Stored>, NoMemory>
    ensures { IfOk result (λ image. image ≡ first_image layout.now n) }
{
    if n < layout.indexes {
        let page = empty_page(alloc, n, layout.fields[n as usize])?;
        Ok(Some(Stored {
            page,
            low: None,
            high: None,
        }))
    } else {
        Ok(None)
    }
}

/// A tree for each index, behind what is there.
fn push_trees(objects: &mut Vec<Object>, indexes: u32) -> Result<(), NoMemory>
    ensures { OnOk result
        (AddsEach objects.old.items objects.new.items indexes (λ i. object.Tree (first_tree i))) }
{
    for index in 0..indexes {
        objects.push(Object::Tree(Tree {
            index,
            root: index,
            height: 0,
        }))?;
    }
    Ok(())
}

/// The partitions, without nodes, behind what is there.
fn push_parts(
    alloc: Global,
    objects: &mut Vec<Object>,
    layout: &ForestLayout,
) -> Result<(), NoMemory>
    ensures { OnOk result (AddsEach objects.old.items objects.new.items layout.now.parts
        (λ k. object.Part (empty_part layout.now.nodes layout.now.blocks))) }
{
    for _part in 0..layout.parts {
        let partition = Partition::new(alloc, layout.cells, layout.nodes, layout.blocks)?;
        objects.push(Object::Part(partition))?;
    }
    Ok(())
}

/// A frame without a page for each block, at this clock, behind what is there.
fn push_frames(objects: &mut Vec<Object>, blocks: u32, clock: u64) -> Result<(), NoMemory>
    ensures { OnOk result (AddsEach objects.old.items objects.new.items blocks
        (λ b. object.Frame (first_frame clock))) }
{
    for block in 0..blocks {
        objects.push(Object::Frame(first_frame(clock)))?;
    }
    Ok(())
}

/// The empty first page of an index, for keys of so many fields.
fn empty_page(alloc: Global, index: u32, fields: u8) -> Result<Page, NoMemory>
    ensures { IfOk result (λ page. page ≡ empty_page index fields) }
{
    let page = Page::empty(
        alloc,
        PageHead {
            number: index,
            index,
            level: 0,
            prev: None,
            next: None,
            fields,
        },
    )?;
    Ok(page)
}

/// A frame without a page, of which nothing is known, at this clock.
fn first_frame(clock: u64) -> Frame
    ensures { result ≡ first_frame clock }
{
    Frame {
        page: None,
        low: None,
        high: None,
        clock,
        figures: BlockFigures::opening(),
        hashed: None,
    }
}
