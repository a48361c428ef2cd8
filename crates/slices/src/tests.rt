//! Filters on examples.
use super::{filter_slice, filter_slice_in_place};
use kernels::Event;
use selection::{Run, Selection, Window};

#[test]
fn bytes_by_bitmap(rt: HostRuntime) {
    let window = Window {
        bytes: &[0b0101_1010],
        start: 1,
        len: 5,
    };
    let mut out = [9u8; 4];
    assert_eq!(rt;
        filter_slice(&[10u8, 20, 30, 40, 50], Selection::Bitmap(window), &mut out),
        Ok(3)
    );
    assert_eq!(rt; out, [10, 30, 40, 9]);
}

#[test]
fn floats_by_indices(rt: HostRuntime) {
    let values = [0.5f32, 1.5, 2.5, 3.5];
    let picked = Selection::Indices {
        indices: &[1, 3],
        len: 4,
    };
    let mut out = [0f32; 2];
    assert_eq!(rt; filter_slice(&values, picked, &mut out), Ok(2));
    assert_eq!(rt; out, [1.5, 3.5]);
}

#[test]
fn too_few_places(rt: HostRuntime) {
    let picked = Selection::Runs {
        runs: &[Run { start: 0, end: 3 }],
        len: 3,
    };
    let mut out = [7u8, 8];
    assert_eq!(rt;
        filter_slice(&[1u8, 2, 3], picked, &mut out).map_err(|refusal| refusal.number()),
        Err(7)
    );
    assert_eq!(rt; out, [7, 8]);
}

#[test]
fn events_by_runs(rt: HostRuntime) {
    let mut events = [event(10), event(20), event(30), event(40), event(50)];
    let picked = Selection::Runs {
        runs: &[Run { start: 0, end: 1 }, Run { start: 2, end: 4 }],
        len: 5,
    };
    assert_eq!(rt; filter_slice_in_place(&mut events, picked), Ok(3));
    assert_eq!(rt;
        events,
        [event(10), event(30), event(40), event(40), event(50)]
    );
}

#[test]
fn numbers_by_indices(rt: HostRuntime) {
    let mut values = [10u64, 20, 30, 40, 50];
    let picked = Selection::Indices {
        indices: &[1, 3],
        len: 5,
    };
    assert_eq!(rt; filter_slice_in_place(&mut values, picked), Ok(2));
    assert_eq!(rt; values, [20, 40, 30, 40, 50]);
}

#[test]
fn another_length(rt: HostRuntime) {
    let mut values = [1u64, 2, 3];
    let picked = Selection::Indices {
        indices: &[2],
        len: 4,
    };
    assert_eq!(rt;
        filter_slice_in_place(&mut values, picked).map_err(|refusal| refusal.number()),
        Err(8)
    );
    assert_eq!(rt; values, [1, 2, 3]);
}

fn event(time: u64) -> Event {
    Event {
        time,
        lift: 1,
        code: 2,
    }
}
