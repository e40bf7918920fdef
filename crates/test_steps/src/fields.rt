//! States that differ in one field of the context or in the segment map only are not the same. Packets make them.

use crate::states::{inter_packet_of, key_state};
use bool_coder::Encoder;
use frame_header::Context;
use pixel_planes::{NoMemory, Picture, same};
use reference_frames::{State, same_state, step};
use std::alloc::Global;
use std::process::Abort;
use std::test::Fail;
use vp8_tables::{Tables, VECTOR_UPDATE_PROBABILITIES};

/// A field of the context, by one of its entries if it has several.
#[derive(Clone, Copy, Debug)]
enum Field {
    Coefficient,
    RowVector,
    ColumnVector,
    LumaMode,
    ChromaMode,
    IsAbsolute,
    Quantizer,
    Level,
    ReferenceDelta,
    ModeDelta,
}

/// A part of a header: bits at even odds, each a digit; that many bits that are 0; or the updates of the vector probabilities up to one
/// of them, which becomes 6.
#[derive(Clone, Copy)]
enum Part {
    Digits(&'static [u8]),
    Zeros(usize),
    Vector(usize, usize),
}

/// A field, and the parts of an inter frame's header that changes it only. All bits after them are 0.
struct Case {
    field: Field,
    parts: &'static [Part],
}

fn write_digits(encoder: &mut Encoder, digits: &[u8]) -> Result<(), NoMemory> {
    for digit in digits {
        encoder.bit(*digit == b'1', 128)?;
    }
    Ok(())
}

fn write_zeros(encoder: &mut Encoder, count: usize) -> Result<(), NoMemory> {
    for _ in 0..count {
        encoder.bit(false, 128)?;
    }
    Ok(())
}

/// Writes the updates of the vector probabilities up to this one.
fn write_vector(encoder: &mut Encoder, changed: usize) -> Result<(), NoMemory> {
    let updates = VECTOR_UPDATE_PROBABILITIES;
    for (place, prob) in updates[0].iter().chain(updates[1].iter()).enumerate() {
        encoder.bit(place == changed, *prob)?;
        if place == changed {
            return write_digits(encoder, b"0000011");
        }
    }
    Ok(())
}

fn write_part(encoder: &mut Encoder, part: Part) -> Result<(), NoMemory> {
    match part {
        Part::Digits(digits) => write_digits(encoder, digits),
        Part::Zeros(count) => write_zeros(encoder, count),
        Part::Vector(component, place) => write_vector(encoder, component % 2 * 19 + place % 19),
    }
}

fn write_parts(encoder: &mut Encoder, parts: &[Part]) -> Result<(), NoMemory> {
    for part in parts {
        write_part(encoder, *part)?;
    }
    Ok(())
}

/// A first partition of these parts.
fn partition_of(alloc: Global, parts: &[Part]) -> Result<Vec<u8>, NoMemory> {
    let mut encoder = Encoder::new(alloc);
    write_parts(&mut encoder, parts)?;
    encoder.finish()
}

/// Changes a field as the packet of its case does.
fn change(context: &mut Context, field: Field) {
    match field {
        Field::Coefficient => context.probabilities.coefficients[1055] = 7,
        Field::RowVector => context.probabilities.vectors[0][18] = 6,
        Field::ColumnVector => context.probabilities.vectors[1][0] = 6,
        Field::LumaMode => context.probabilities.y_modes[3] = 7,
        Field::ChromaMode => context.probabilities.uv_modes[2] = 7,
        Field::IsAbsolute => context.segments.is_absolute = true,
        Field::Quantizer => context.segments.quantizers[3] = -7,
        Field::Level => context.segments.levels[0] = -7,
        Field::ReferenceDelta => context.deltas.reference[2] = -7,
        Field::ModeDelta => context.deltas.mode[3] = -7,
    }
}

/// A context with one field changed.
fn changed(context: &Context, field: Field) -> Context {
    let mut other = *context;
    change(&mut other, field);
    other
}

/// Whether two states differ, and in this field of the context.
fn differ_in(old: &State, new: &State, field: Field) -> bool {
    !same_state(old, new)
        && changed(old.context(), field) == *new.context()
        && old.segment_map() == new.segment_map()
}

/// Whether a packet after a state makes one that differs in this field.
fn changes(rt: &impl Abort, alloc: Global, state: &State, packet: &[u8], field: Field) -> bool {
    let decoded = step(alloc, &Tables::flat(), Some(state), packet);
    let (new, _) = decoded.expect(rt, "a packet after a state");
    differ_in(state, &new, field)
}

fn expect_case(rt: &impl Abort, alloc: Global, case: &Case) -> Result<(), Fail> {
    let first = partition_of(alloc, case.parts)?;
    let packet = inter_packet_of(alloc, first.as_slice())?;
    let state = key_state(rt, alloc);
    let is_changed = changes(rt, alloc, &state, packet.as_slice(), case.field);
    assert!(rt; is_changed, "{:?}", case.field);
    Ok(())
}

#[test]
fn context_changes_alone(rt: HostRuntime) -> Result<(), Fail> {
    for case in CASES {
        expect_case(&rt, rt.alloc(), case)?;
    }
    Ok(())
}

/// The fields from `refresh_golden` to `refresh_last`: the probabilities of this frame remain, and no reference is refreshed.
const REMAIN: Part = Part::Digits(b"0000000010");

// After 26 bits up to the quantizers and ten of `REMAIN` come the updates of 1,056 coefficient probabilities, the skip flag, three
// probabilities of references, and the updates of the modes' and of the vectors' probabilities.
const CASES: &[Case] = &[
    Case {
        field: Field::Coefficient,
        parts: &[
            Part::Zeros(26),
            REMAIN,
            Part::Zeros(1055),
            Part::Digits(b"100000111"),
        ],
    },
    Case {
        field: Field::LumaMode,
        parts: &[
            Part::Zeros(26),
            REMAIN,
            Part::Zeros(1081),
            Part::Digits(b"101110000010101101000110000000111"),
        ],
    },
    Case {
        field: Field::ChromaMode,
        parts: &[
            Part::Zeros(26),
            REMAIN,
            Part::Zeros(1082),
            Part::Digits(b"1101000100110010100000111"),
        ],
    },
    Case {
        field: Field::RowVector,
        parts: &[
            Part::Zeros(26),
            REMAIN,
            Part::Zeros(1083),
            Part::Vector(0, 18),
        ],
    },
    Case {
        field: Field::ColumnVector,
        parts: &[
            Part::Zeros(26),
            REMAIN,
            Part::Zeros(1083),
            Part::Vector(1, 0),
        ],
    },
    Case {
        field: Field::IsAbsolute,
        parts: &[Part::Digits(b"1011")],
    },
    Case {
        field: Field::Quantizer,
        parts: &[Part::Digits(b"1010000100001111")],
    },
    Case {
        field: Field::Level,
        parts: &[Part::Digits(b"1010000010001111")],
    },
    Case {
        field: Field::ReferenceDelta,
        parts: &[Part::Zeros(11), Part::Digits(b"110010001111")],
    },
    Case {
        field: Field::ModeDelta,
        parts: &[Part::Zeros(11), Part::Digits(b"11000000010001111")],
    },
];

/// A key packet of 16 by 16 samples whose macroblock is in a segment, two digits of the map's tree.
fn segment_packet(alloc: Global, segment: &'static [u8]) -> Result<Vec<u8>, NoMemory> {
    let parts = [
        // Two fields, then segments: a map, no data, and its three probabilities, each 128.
        Part::Digits(b"00110110000000110000000110000000"),
        // The filter level to refresh_entropy, the coefficient probabilities, and the skip flag.
        Part::Zeros(26 + 1056 + 1),
        Part::Digits(segment),
    ];
    let first = partition_of(alloc, &parts)?;
    let mut packet = Vec::new(alloc);
    packet.push((0x10 + first.len() % 8 * 32) as u8)?;
    packet.extend_from_slice(&[(first.len() / 8 % 256) as u8, 0])?;
    packet.extend_from_slice(&[0x9D, 1, 0x2A, 16, 0, 16, 0])?;
    packet.extend_from_slice(first.as_slice())?;
    Ok(packet)
}

/// The state after a key packet, and its picture.
fn key_step(rt: &impl Abort, alloc: Global, packet: &[u8]) -> (State, Picture) {
    step(alloc, &Tables::flat(), None, packet).expect(rt, "a key packet")
}

/// Whether two steps differ in their segment maps, and in nothing else.
fn differ_in_map(one: &(State, Picture), other: &(State, Picture)) -> bool {
    !same_state(&one.0, &other.0)
        && one.0.segment_map() == [0].as_slice()
        && other.0.segment_map() == [3].as_slice()
        && *one.0.context() == *other.0.context()
        && same(&one.1, &other.1)
}

fn maps_differ(rt: &impl Abort, alloc: Global, first: &[u8], last: &[u8]) -> bool {
    let one = key_step(rt, alloc, first);
    let other = key_step(rt, alloc, last);
    differ_in_map(&one, &other)
}

#[test]
fn segment_map_changes_alone(rt: HostRuntime) -> Result<(), Fail> {
    let alloc = rt.alloc();
    let first = segment_packet(alloc, b"00")?;
    let last = segment_packet(alloc, b"11")?;
    assert!(rt; maps_differ(&rt, alloc, first.as_slice(), last.as_slice()));
    Ok(())
}
