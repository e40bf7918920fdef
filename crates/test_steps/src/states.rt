use bool_coder::Encoder;
use pixel_planes::{NoMemory, Picture, Recycled, same};
use reference_frames::{State, same_state, step, step_with};
use std::alloc::Global;
use std::process::Abort;
use std::test::Fail;
use vp8_tables::Tables;

/// A key packet of 16 by 16 samples that reads 0 at every bit.
const KEY: [u8; 10] = [0x10, 0, 0, 0x9D, 1, 0x2A, 0x10, 0, 0x10, 0];

/// The state after a packet that is decoded from none.
fn state_after(rt: &impl Abort, alloc: Global, packet: &[u8]) -> State {
    let decoded = step(alloc, &Tables::flat(), None, packet);
    decoded.expect(rt, "a key packet").0
}

/// The state after the key packet.
pub(crate) fn key_state(rt: &impl Abort, alloc: Global) -> State {
    state_after(rt, alloc, &KEY)
}

/// A packet with no key tag whose fields are 0 up to its quantizers, and continue with these
/// digits and then with zeros. Its picture is 128 throughout, which the key packet's is not.
fn inter_packet(alloc: Global, digits: &[u8]) -> Result<Vec<u8>, NoMemory> {
    let first = first_partition(alloc, digits)?;
    inter_packet_of(alloc, first.as_slice())
}

/// A shown packet with no key tag and this first partition, of less than 2,048 bytes.
pub(crate) fn inter_packet_of(alloc: Global, first: &[u8]) -> Result<Vec<u8>, NoMemory> {
    let mut packet = Vec::new(alloc);
    packet.push((0x11 + first.len() % 8 * 32) as u8)?;
    packet.extend_from_slice(&[(first.len() / 8 % 256) as u8, 0])?;
    packet.extend_from_slice(first)?;
    Ok(packet)
}

/// The first partition of such a packet.
fn first_partition(alloc: Global, digits: &[u8]) -> Result<Vec<u8>, NoMemory> {
    let mut encoder = Encoder::new(alloc);
    write_fields(&mut encoder, digits)?;
    encoder.finish()
}

fn write_fields(encoder: &mut Encoder, digits: &[u8]) -> Result<(), NoMemory> {
    for _ in 0..26 {
        encoder.bit(false, 128)?;
    }
    for digit in digits {
        encoder.bit(*digit == b'1', 128)?;
    }
    Ok(())
}

/// Whether the state after such a packet equals the state before it.
fn keeps(rt: &impl Abort, alloc: Global, digits: &[u8]) -> Result<bool, Fail> {
    let packet = inter_packet(alloc, digits)?;
    let state = key_state(rt, alloc);
    Ok(is_kept(rt, alloc, &state, packet.as_slice()))
}

/// Whether the state after a packet equals the state before it.
fn is_kept(rt: &impl Abort, alloc: Global, state: &State, packet: &[u8]) -> bool {
    let decoded = step(alloc, &Tables::flat(), Some(state), packet);
    let (new, _) = decoded.expect(rt, "a packet after a state");
    same_state(state, &new)
}

// Golden and altref are refreshed or copied, then come their sign biases, refresh_entropy and
// refresh_last. All references are one picture here, so a copy changes nothing.
#[test]
fn references_change_alone(rt: HostRuntime) -> Result<(), Fail> {
    let alloc = rt.alloc();
    assert!(rt; keeps(&rt, alloc, b"0000000000")?);
    assert!(rt; keeps(&rt, alloc, b"0010100000")?);
    assert!(rt; !keeps(&rt, alloc, b"10000000")?);
    assert!(rt; !keeps(&rt, alloc, b"01000000")?);
    assert!(rt; !keeps(&rt, alloc, b"0000000001")?);
    assert!(rt; !keeps(&rt, alloc, b"0000001000")?);
    assert!(rt; !keeps(&rt, alloc, b"0000000100")?);
    Ok(())
}

/// A packet with another width below 256.
fn widened(mut packet: [u8; 10], width: u8) -> [u8; 10] {
    packet[6] = width;
    packet
}

/// A key packet of this width and 16 rows that reads 0 at every bit.
fn wide_key(width: u8) -> [u8; 10] {
    widened(KEY, width)
}

/// Steps a packet with the recycled planes and with fresh ones, and returns whether both give the
/// same. The planes of the first are then the recycled ones.
fn steps_alike(
    rt: &impl Abort,
    alloc: Global,
    recycled: &mut Recycled,
    state: Option<&State>,
    packet: &[u8],
) -> bool {
    let fresh = step(alloc, &Tables::flat(), state, packet).expect(rt, "a packet that decodes");
    let decoded = step_with(alloc, &Tables::flat(), recycled, state, packet);
    is_put_back(recycled, decoded.expect(rt, "the same packet"), &fresh)
}

/// Whether two steps gave the same. The planes of the first are then the recycled ones.
fn is_put_back(
    recycled: &mut Recycled,
    decoded: (State, Picture),
    fresh: &(State, Picture),
) -> bool {
    let (state, picture) = decoded;
    let is_alike = same_state(&state, &fresh.0) && same(&picture, &fresh.1);
    recycled.put(picture);
    state.drop_into(recycled);
    is_alike
}

#[test]
fn spare_planes_change_no_step(rt: HostRuntime) -> Result<(), Fail> {
    let inter = inter_packet(rt.alloc(), b"0000000001")?;
    let mut recycled = Recycled::new();
    for width in [16, 16, 40, 8] {
        expect_alike(&rt, rt.alloc(), &mut recycled, width, inter.as_slice());
    }
    Ok(())
}

/// Checks that a key packet of this width, and a packet after another one, are stepped alike with recycled planes.
fn expect_alike(rt: &impl Abort, alloc: Global, recycled: &mut Recycled, width: u8, inter: &[u8]) {
    assert!(rt; steps_alike(rt, alloc, recycled, None, &wide_key(width)));
    let state = key_state(rt, alloc);
    assert!(rt; steps_alike(rt, alloc, recycled, Some(&state), inter));
}
