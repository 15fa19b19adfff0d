//! Folds against values of another program.
use crate::setup::tuple_of;
use key_tuple::{Fields, Params, fold};
use std::process::Abort;

/// The number of an index, fields, how many of them and how many bytes of the next one are folded,
/// how many bits are kept, and the fold. The number alone, the bytes `foob`, is a vector that the
/// hash is published with, and of one field the lowest bit is that of its bytes.
type Folded = (u32, &'static [&'static [u8]], (u8, u16), u8, u64);

static FOLDS: [Folded; 11] = [
    (7, &[b"ab", b"xyz"], (0, 0), 64, 0x4d25_6f7f_9dce_0810),
    (7, &[b"ab", b"xyz"], (0, 1), 64, 0xe4a4_e6d9_2518_5803),
    (7, &[b"ab", b"xyz"], (1, 9), 64, 0x013f_0a6f_8855_05f0),
    (7, &[b"ab", b"xyz"], (1, 9), 20, 0x5_05f0),
    (0x666f_6f62, &[], (0, 0), 64, 0xdd12_0e79_0c25_12af),
    (0, &[b"a"], (1, 0), 1, 1),
    (0, &[b"b"], (1, 0), 1, 0),
    (0, &[b"c"], (1, 0), 1, 1),
    (0, &[b"d"], (1, 0), 1, 0),
    (0, &[b"e"], (1, 0), 1, 1),
    (0x0102_0304, &[&[0; 300]], (1, 0), 64, 0x7f5e_bf75_e890_9b68),
];

#[test]
fn prefixes_are_folded(rt: HostRuntime) {
    for row in FOLDS.iter() {
        assert!(rt; is_folded_so(&rt, row));
    }
}

fn is_folded_so<R: AllocGlobal + Abort>(rt: &R, row: &Folded) -> bool {
    let (index, parts, (fields, bytes), bits, want) = row;
    let params = Params {
        fields: *fields,
        bytes: *bytes,
        left: true,
    };
    let tuple = tuple_of(rt, parts);
    let is_within = params.asked_fields() <= u16::from(tuple.count());
    assert!(rt; is_within && 1 <= *bits && *bits <= 64);
    fold(*index, &tuple, &params, *bits) == *want
}
