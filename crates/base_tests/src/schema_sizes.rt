//! The settings of a schema.
use map_history::Sizes;
use script::{DEFAULT_SIZES, read_schema};

/// Schemas that are read: a setting stands before the indexes.
pub(crate) const GOOD_SETTINGS: &str = "\
    blocks 8\nindex t 1\n|pages 8\nindex t 1\n|parts 8\nindex t 1\n|cells 8\nindex t 1\n|\
    nodes 8\nindex t 1\n|fold_bits 8\nindex t 1\n|max_changes 8\nindex t 1\n|\
    nodes 0\nindex t 1\n|pages 4294967295\nindex t 1\n|\
    pages 8\n# and\nblocks 8\n\nindex t 1\nindex u 2\n|\
    max_changes 1\nfold_bits 2\nnodes 3\ncells 4\nparts 5\npages 6\nblocks 7\nindex t 1";

/// Schemas that are bad at their first line: a setting wants one number.
pub(crate) const BAD_SETTINGS: &str = "\
    pages\nindex t 1\n|pages 08\nindex t 1\n|pages 8 8\nindex t 1\n|\
    pages 4294967296\nindex t 1\n|pages 0x8\nindex t 1\n|pages -8\nindex t 1\n|\
    pages  8\nindex t 1\n|Pages 8\nindex t 1\n|page 8\nindex t 1\n";

/// Schemas that are bad at their second line: a setting stands once and before an index.
pub(crate) const LATE_SETTINGS: &str = "\
    pages 8\npages 8\nindex t 1\n|max_changes 8\nmax_changes 9\nindex t 1\n|\
    index t 1\npages 8\n|index t 1\nblocks 8\nindex u 1\n";

#[test]
fn other_settings_stay_as_usual(rt: HostRuntime) {
    let wanted = Sizes {
        pages: 2,
        nodes: 0,
        ..DEFAULT_SIZES
    };
    let schema = read_schema(rt.alloc(), b"pages 2\nnodes 0\nindex t 1\n");
    assert!(rt; schema.expect(&rt, "a schema").sizes == wanted);
}
