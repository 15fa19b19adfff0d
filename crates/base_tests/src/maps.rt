//! A row's life in a map, seeks in all modes, and a scan that is lent.
use crate::files::lines_of;
use crate::setup::{MEMORY, key_of, tuple_of, value_of};
use key_tuple::{Key, Mode, Value};
use map_history::{Change, Op, OpRef, Reply, RowBuf, answer, apply, make};
use std::collections::BTreeMap;
use std::process::Abort;

/// The only line of a lane, the reply, and the value that is left in the buffer.
type Asked = (&'static [u8], Reply, &'static [u8]);

static LIFE: [Asked; 9] = [
    (b"put t a x", Reply::Ok, b""),
    (b"get t a", Reply::Found, b"x"),
    (b"put t a y", Reply::Duplicate, b"x"),
    (b"get t a", Reply::Found, b"x"),
    (b"set t a y", Reply::Ok, b"x"),
    (b"get t a", Reply::Found, b"y"),
    (b"del t a", Reply::Ok, b"y"),
    (b"get t a", Reply::Absent, b"y"),
    (b"set t a z", Reply::Absent, b"y"),
];

/// Seeks among the four rows, of which each value is of one row.
static SEEKS: [Asked; 8] = [
    (b"seek rows ge a,y", Reply::Found, b"r"),
    (b"seek rows ge a", Reply::Found, b"p"),
    (b"seek rows g a,x", Reply::Found, b"r"),
    (b"seek rows g a,x,1", Reply::Found, b"q"),
    (b"seek rows g a", Reply::Absent, b"q"),
    (b"seek rows le a,x", Reply::Found, b"q"),
    (b"seek rows l a,y", Reply::Found, b"q"),
    (b"seek rows l a", Reply::Absent, b"q"),
];

/// The index of those rows, and that of the other one.
const SCHEMA: &[u8] = b"index rows 3\nindex t 1\n";

/// The second and the third field of rows whose first one is `a`, and their values.
static ROWS: [(&[u8], &[u8], &[u8]); 4] = [
    (b"y", b"2", b"s"),
    (b"x", b"1", b"p"),
    (b"y", b"1", b"r"),
    (b"x", b"2", b"q"),
];

fn put_row<R: AllocGlobal + Abort>(
    rt: &R,
    map: &mut BTreeMap<Key, Value>,
    parts: &[&[u8]],
    bytes: &[u8],
) {
    let put = Change::Put {
        key: key_of(rt, parts),
        value: value_of(rt, bytes),
    };
    apply(map, &put).expect(rt, MEMORY);
}

/// A map of those rows.
fn four_rows<R: AllocGlobal + Abort>(rt: &R) -> BTreeMap<Key, Value> {
    let mut map = BTreeMap::new(rt.alloc());
    for (second, third, bytes) in ROWS.iter() {
        put_row(rt, &mut map, &[b"a", second, third], bytes);
    }
    map
}

/// Asks a map, and makes the change that it allows: it replies so, and this value is left.
fn replies_to<R: Abort>(
    rt: &R,
    map: &mut BTreeMap<Key, Value>,
    out: &mut RowBuf,
    op: &Op,
    (want, left): (Reply, &[u8]),
) -> bool {
    if let Op::Scan { .. } = op {
        rt.panic("a scan")
    }
    let reply = answer(map, op, out);
    make(map, op).expect(rt, MEMORY);
    reply == want && out.value() == left
}

/// The map replies as the rows say, one after another.
fn replies_so<R: AllocGlobal + Abort>(
    rt: &R,
    map: &mut BTreeMap<Key, Value>,
    out: &mut RowBuf,
    asked: &[Asked],
) -> bool {
    for (lane, want, left) in asked {
        let lines = lines_of(rt, SCHEMA, lane);
        let line = lines.first().expect(rt, "a line");
        if !replies_to(rt, map, out, &line.op, (*want, left)) {
            return false;
        }
    }
    true
}

#[test]
fn a_row_is_put_read_and_taken_out(rt: HostRuntime) {
    let mut map = BTreeMap::new(rt.alloc());
    let mut out = RowBuf::new(rt.alloc()).expect(&rt, MEMORY);
    assert!(rt; replies_so(&rt, &mut map, &mut out, &LIFE) && map.is_empty());
}

/// What no lane can ask: a seek of the last row, by no field, and a scan.
fn unspelled<R: AllocGlobal + Abort>(rt: &R) -> Vec<Op> {
    let mut ops = Vec::new(rt.alloc());
    ops.push(Op::Seek {
        index: 0,
        mode: Mode::Le,
        tuple: tuple_of(rt, &[]),
    })
    .expect(rt, MEMORY);
    ops.push(Op::Scan {
        index: 3,
        from: tuple_of(rt, &[]),
        to: None,
        limit: 9,
    })
    .expect(rt, MEMORY);
    ops
}

#[test]
fn seeks_find_the_rows_at_their_cuts(rt: HostRuntime) {
    let mut map = four_rows(&rt);
    let mut out = RowBuf::new(rt.alloc()).expect(&rt, MEMORY);
    assert!(rt; replies_so(&rt, &mut map, &mut out, &SEEKS));
    let ops = unspelled(&rt);
    let last = ops.first().expect(&rt, "a seek");
    assert!(rt; replies_to(&rt, &mut map, &mut out, last, (Reply::Found, b"s")));
}

/// The last operation is lent as a scan of this index with this limit.
fn lends_scan(ops: &[Op], wanted: u32, most: u32) -> bool {
    let Some(op) = ops.last() else {
        return false;
    };
    match op.borrow() {
        OpRef::Scan { index, limit, .. } => index == wanted && limit == most,
        _ => false,
    }
}

#[test]
fn an_operation_is_lent(rt: HostRuntime) {
    assert!(rt; lends_scan(&unspelled(&rt), 3, 9));
}
