//! Bits picked by examples.
use super::bits::filter_bitbuffer_by_mask;
use super::pext::pext_fallback;
use selection::{Run, Selection, Window};

fn window(bytes: &[u8], start: u64, len: u64) -> Window<'_> {
    Window { bytes, start, len }
}

#[test]
fn takes_bits_out(rt: HostRuntime) {
    assert_eq!(rt; pext_fallback(0xB2, 0x5A), 5);
    assert_eq!(rt; pext_fallback(0xB2, 0), 0);
    assert_eq!(rt;
        pext_fallback(0x0123_4567_89AB_CDEF, u64::MAX),
        0x0123_4567_89AB_CDEF
    );
}

#[test]
fn picks_by_a_bitmap(rt: HostRuntime) {
    let mut out = [0xFF, 0xFF];
    let mask = Selection::Bitmap(window(&[0x5A], 0, 8));
    assert_eq!(rt;
        filter_bitbuffer_by_mask(window(&[0xB2], 0, 8), mask, &mut out),
        Ok(4)
    );
    assert_eq!(rt; out, [5, 0xFF]);
}

#[test]
fn picks_from_a_bit_inside_a_byte(rt: HostRuntime) {
    let mut out = [0xFF];
    let mask = Selection::Bitmap(window(&[0xD0, 0x02], 3, 8));
    assert_eq!(rt;
        filter_bitbuffer_by_mask(window(&[0x90, 0x05], 3, 8), mask, &mut out),
        Ok(4)
    );
    assert_eq!(rt; out, [5]);
}

#[test]
fn picks_by_indices(rt: HostRuntime) {
    let mut out = [0xFF];
    let list = Selection::Indices {
        indices: &[1, 3, 4, 6],
        len: 8,
    };
    assert_eq!(rt;
        filter_bitbuffer_by_mask(window(&[0xB2], 0, 8), list, &mut out),
        Ok(4)
    );
    assert_eq!(rt; out, [5]);
}

#[test]
fn picks_by_runs(rt: HostRuntime) {
    let mut out = [0; 9];
    let list = Selection::Runs {
        runs: &[Run { start: 1, end: 71 }],
        len: 72,
    };
    let bytes = [2, 0, 0, 0, 0, 0, 0, 0, 0xFF];
    assert_eq!(rt;
        filter_bitbuffer_by_mask(window(&bytes, 0, 72), list, &mut out),
        Ok(70)
    );
    assert_eq!(rt; out, [1, 0, 0, 0, 0, 0, 0, 0x80, 0x3F]);
}

#[test]
fn refuses_and_writes_nothing(rt: HostRuntime) {
    let mut out = [0xAA];
    let list = Selection::Indices {
        indices: &[1, 1],
        len: 8,
    };
    assert_eq!(rt;
        filter_bitbuffer_by_mask(window(&[0xB2], 0, 8), list, &mut out).map_err(|refusal| (
            refusal.number(),
            refusal.place()
        )),
        Err((3, 1))
    );
    let mask = Selection::Bitmap(window(&[0x5A], 0, 7));
    assert_eq!(rt;
        filter_bitbuffer_by_mask(window(&[0xB2], 0, 8), mask, &mut out).map_err(|refusal| (
            refusal.number(),
            refusal.place()
        )),
        Err((8, 0))
    );
    assert_eq!(rt; out, [0xAA]);
}
