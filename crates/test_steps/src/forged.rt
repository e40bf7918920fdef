use packet_forge::{ForgeFault, blank, hold};
use pixel_planes::{NoMemory, Picture, Plane, same};
use reference_frames::{State, step};
use std::alloc::Global;
use std::process::Abort;
use std::test::Fail;
use vp8_tables::Tables;

/// The tables whose entries are these bytes.
fn tables_of(rt: &impl Abort, bytes: &[u8]) -> Tables {
    Tables::read(bytes).expect(rt, "3,012 bytes")
}

/// Tables whose update probabilities are all 255, and whose other entries are 128.
fn tables(rt: &impl Abort, alloc: Global) -> Result<Tables, NoMemory> {
    let mut bytes = vec![in alloc; 128; 3012]?;
    bytes.as_mut_slice()[1056..2112].fill(255);
    Ok(tables_of(rt, bytes.as_slice()))
}

// The pairs as encoded by a separate encoder, written in Python after RFC 6386, section 7.3.
const BLANK_16: [u8; 18] = [
    0x10, 1, 0, 0x9D, 1, 0x2A, 16, 0, 16, 0, 0, 0, 0, 0, 3, 0x65, 0x40, 0,
];

const BLANK_40: [u8; 20] = [
    0x50, 1, 0, 0x9D, 1, 0x2A, 40, 0, 24, 0, 0, 0, 0, 0, 3, 0x65, 0x71, 0x9E, 0x38, 0,
];

const HOLD_16: [u8; 15] = [0x91, 1, 0, 0, 0, 0, 0, 0, 6, 0xC6, 0xBD, 0x5C, 0xA8, 2, 0];

const HOLD_40: [u8; 15] = [
    0x91, 1, 0, 0, 0, 0, 0, 0, 6, 0xC6, 0xBD, 0x5C, 0xA8, 2, 0x20,
];

/// Checks the bytes of a forged packet.
fn expect_bytes(rt: &impl Abort, packet: Result<Vec<u8>, ForgeFault>, want: &[u8]) {
    let packet = forged(rt, packet);
    assert_eq!(rt; packet.as_slice(), want);
}

#[test]
fn packets_have_their_bytes(rt: HostRuntime) -> Result<(), Fail> {
    let alloc = rt.alloc();
    let tables = tables(&rt, alloc)?;
    expect_bytes(&rt, blank(alloc, &tables, 16, 16), &BLANK_16);
    expect_bytes(&rt, blank(alloc, &tables, 40, 24), &BLANK_40);
    expect_bytes(&rt, hold(alloc, &tables, 16, 16), &HOLD_16);
    expect_bytes(&rt, hold(alloc, &tables, 40, 24), &HOLD_40);
    Ok(())
}

#[test]
fn sides_are_1_to_16383(rt: HostRuntime) {
    let alloc = rt.alloc();
    for (width, height) in [(0, 16), (16, 0), (16_384, 16), (16, 16_384)] {
        let blank = blank(alloc, &Tables::flat(), width, height);
        assert_eq!(rt; blank.err().map(|fault| fault.word()), Some("Size"));
        let hold = hold(alloc, &Tables::flat(), width, height);
        assert_eq!(rt; hold.err().map(|fault| fault.word()), Some("Size"));
    }
}

/// A key packet of 16 by 16 samples that reads 0 at every bit: its luma is 129 below row 3.
const KEY: [u8; 10] = [0x10, 0, 0, 0x9D, 1, 0x2A, 16, 0, 16, 0];

/// Whether each of the first 16 samples of a row is 128; past an edge the sample at the edge repeats.
fn is_grey_row(plane: &Plane, y: i64) -> bool {
    (0..16).all(|x| plane.sample(x, y) == 128)
}

/// Whether the first 16 rows are.
fn is_grey(plane: &Plane) -> bool {
    for y in 0..16 {
        if !is_grey_row(plane, y) {
            return false;
        }
    }
    true
}

/// Whether a picture is 128 in that square of each plane.
fn is_grey_picture(picture: &Picture) -> bool {
    is_grey(picture.luma()) && is_grey(picture.cb()) && is_grey(picture.cr())
}

/// The state after a packet that is decoded from none, with tables whose entries are all 128, and its picture.
fn decoded(rt: &impl Abort, alloc: Global, packet: &[u8]) -> (State, Picture) {
    let decoded = step(alloc, &Tables::flat(), None, packet);
    decoded.expect(rt, "a key packet")
}

/// The same from a state.
fn decoded_after(rt: &impl Abort, alloc: Global, state: &State, packet: &[u8]) -> (State, Picture) {
    let decoded = step(alloc, &Tables::flat(), Some(state), packet);
    decoded.expect(rt, "a packet after a state")
}

/// A packet that was forged.
fn forged(rt: &impl Abort, packet: Result<Vec<u8>, ForgeFault>) -> Vec<u8> {
    packet.expect(rt, "a forged packet")
}

/// Checks that a packet after a state shows this picture, and returns the state after it.
fn expect_held(
    rt: &impl Abort,
    alloc: Global,
    state: &State,
    hold: &[u8],
    picture: &Picture,
) -> State {
    let (after, held) = decoded_after(rt, alloc, state, hold);
    assert!(rt; same(picture, &held));
    after
}

/// Checks that a blank packet is grey, and that its picture is held.
fn expect_grey(rt: &impl Abort, alloc: Global, blank: &[u8], hold: &[u8]) {
    let (state, picture) = decoded(rt, alloc, blank);
    assert!(rt; is_grey_picture(&picture));
    expect_held(rt, alloc, &state, hold, &picture);
}

/// Checks that a picture that is not grey is held, and stays the last reference.
fn expect_key_held(rt: &impl Abort, alloc: Global, hold: &[u8]) {
    let (state, picture) = decoded(rt, alloc, KEY.as_slice());
    let after = expect_held(rt, alloc, &state, hold, &picture);
    expect_last(rt, &after, &picture);
}

/// Checks that a picture is not grey and is the last reference.
fn expect_last(rt: &impl Abort, state: &State, picture: &Picture) {
    assert!(rt; !is_grey_picture(picture));
    assert!(rt; same(picture, &state.references().last));
}

#[test]
fn frames_are_grey_and_held(rt: HostRuntime) {
    let alloc = rt.alloc();
    let blank = forged(&rt, blank(alloc, &Tables::flat(), 16, 16));
    let hold = forged(&rt, hold(alloc, &Tables::flat(), 16, 16));
    expect_grey(&rt, alloc, blank.as_slice(), hold.as_slice());
    expect_key_held(&rt, alloc, hold.as_slice());
}
