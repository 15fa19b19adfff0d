//! What a report says is what was read.
use crate::setup::{read, report_of};
use key_tuple::Fields;
use map_history::{Change, How, Note};
use report_reading::{ReadAnswer, ReadEntry, ReadLine, ReadReply, ReadTold};

/// The reply to a line and its point, of a search that was cold and taught nothing.
fn replied(told: &ReadLine) -> Option<(&ReadReply, u64)> {
    match &told.told {
        ReadTold::Plain(
            ReadAnswer::Replied {
                reply,
                point,
                columns,
            },
        ) if columns.how == How::Cold && columns.note == Note::No => Some((reply, *point)),
        _ => None,
    }
}

/// Whether the row was put.
fn is_put(entry: &ReadEntry) -> bool {
    match &entry.change {
        Change::Put { key, value } => {
            key.count() == 1
                && key.field(0) == b"a".as_slice()
                && value.as_bytes() == b"x".as_slice()
        }
        _ => false,
    }
}

#[test]
fn a_report_is_read(rt: HostRuntime) {
    let report = report_of(&rt);
    let read = read(&rt, &report).expect(&rt, "a report");
    assert!(rt; read.lanes.len() == 1 && read.parts.len() == 1);
    let lane = &read.lanes[0];
    assert!(rt; lane.len() == 4);
    assert!(rt; lane[0].line == 1 && lane[1].line == 2 && lane[2].line == 3 && lane[3].line == 4);
    assert!(rt; matches!(replied(&lane[0]), Some((ReadReply::Done, 1))));
    assert!(rt;
        matches!(replied(&lane[1]), Some((ReadReply::Value(value), 1)) if value.as_bytes() == b"x".as_slice())
    );
    assert!(rt; matches!(replied(&lane[2]), Some((ReadReply::Done, 2))));
    assert!(rt; matches!(replied(&lane[3]), Some((ReadReply::Absent, 2))));
    let part = &read.parts[0];
    assert!(rt; part.len() == 2);
    assert!(rt; part[0].lane == 1 && part[0].line == 1 && is_put(&part[0]));
    assert!(rt;
        part[1].lane == 1 && part[1].line == 3 && matches!(part[1].change, Change::Del { .. })
    );
}
