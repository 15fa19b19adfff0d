//! Laws of the pages in frames and of images: what whoever takes a frame or the pool knows of them.
ghost use Rattle.forest_law.specs.FramePages.{FramesTellPages, FramesHaveOnePage};
ghost use Rattle.forest_law.specs.FramePages.{CutsHavePages, RootsHaveCuts};
ghost use Rattle.forest_law.specs.Images.{ImagesTellPages};

/// The page in a frame is the state's page of its number, in order by itself, and sound where it is
/// in the trees.
pub fn frames_tell_pages()
    ensures { FramesTellPages }
{}

/// No two frames have pages of one number.
pub fn frames_have_one_page()
    ensures { FramesHaveOnePage }
{}

/// An image is the state's page of its number, in order by itself. Each page whose place says so
/// has one, and no other page.
pub fn images_tell_pages()
    ensures { ImagesTellPages }
{}

/// The page of the trees that has a cut is one of the state, of the index and level asked for.
pub fn cuts_have_pages()
    ensures { CutsHavePages }
{}

/// An index's root has each cut, and is the page of the index's number.
pub fn roots_have_cuts()
    ensures { RootsHaveCuts }
{}
