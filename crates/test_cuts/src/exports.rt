// The packets of frames. Packets are copied and not decoded, so short ones stand for real ones.
use lossless_cuts::{CutFault, Target, export_packets};
use packet_edits::{EditFault, Store};
use packet_forge::hold;
use packet_times::Duration;
use std::alloc::{AllocError, Global};
use std::process::Abort;
use std::test::Fail;
use stream_files::{Bytes, Packet, Packets};
use vp8_tables::Tables;

/// Key packets and inter packets, shown and hidden. Of the long key packet the header is accepted, at 16 by 16.
const KEY: &[u8] = &[0x10, 0, 1];

const OTHER_KEY: &[u8] = &[0x10, 0, 2];

const WHOLE_KEY: &[u8] = &[0x10, 0, 0, 0x9D, 0x01, 0x2A, 16, 0, 16, 0];

const HIDDEN_KEY: &[u8] = &[0x00, 0, 1];

const HIDDEN_WHOLE_KEY: &[u8] = &[0x00, 0, 0, 0x9D, 0x01, 0x2A, 16, 0, 16, 0];

const FIRST: &[u8] = &[0x11, 0, 1];

const SECOND: &[u8] = &[0x11, 0, 2];

const THIRD: &[u8] = &[0x11, 0, 3];

const HIDDEN_FIRST: &[u8] = &[0x01, 0, 1];

const HIDDEN_SECOND: &[u8] = &[0x01, 0, 2];

const NONE: &[u8] = &[];

/// The packet that shows a frame, in a case: its bytes, or a hold packet of 16 by 16.
enum Want {
    Copy(&'static [u8]),
    Hold,
}

/// The packets of two sources, frames by source and packet, and the packets of the export.
struct Case {
    sources: [&'static [&'static [u8]]; 2],
    frames: &'static [(usize, usize)],
    want: &'static [Want],
}

fn packets_of(alloc: Global, rows: &[&[u8]]) -> Result<Packets, AllocError> {
    let mut packets = Vec::new(alloc);
    for row in rows {
        let packet = Packet {
            stamp: 0,
            bytes: Bytes::from_slice(alloc, row)?,
        };
        packets.push(packet)?;
    }
    Ok(Packets::new(packets))
}

fn stored(alloc: Global, rows: &[&[u8]]) -> Result<Store, EditFault> {
    let packets = packets_of(alloc, rows).map_err(|_| EditFault::NoMemory)?;
    let usual = Duration {
        units: 1,
        rate: 30,
        scale: 1,
    };
    let mut store = Store::starting(alloc, 0, usual);
    store.push_all(packets)?;
    Ok(store)
}

fn targets_of(alloc: Global, frames: &[(usize, usize)]) -> Result<Vec<Target>, AllocError> {
    let mut targets = Vec::new(alloc);
    for (source, place) in frames {
        targets.push(Target {
            source: *source,
            place: *place,
            width: 16,
            height: 16,
        })?;
    }
    Ok(targets)
}

/// Whether a packet is the wanted one.
fn is_wanted(packet: &Bytes, want: &Want, held: &[u8]) -> bool {
    match want {
        Want::Copy(bytes) => packet.as_slice() == *bytes,
        Want::Hold => packet.as_slice() == held,
    }
}

fn expect_packets<R: Abort>(rt: &R, packets: &[Bytes], want: &[Want], held: &[u8]) {
    assert_eq!(rt; packets.len(), want.len());
    for (packet, want) in packets.iter().zip(want) {
        assert!(rt; is_wanted(packet, want, held));
    }
}

fn expect_export<R: Abort>(
    rt: &R,
    alloc: Global,
    stores: &[Store],
    case: &Case,
) -> Result<(), Fail> {
    let tables = Tables::flat();
    let targets = targets_of(alloc, case.frames)?;
    let packets = export_packets(alloc, &tables, stores, &targets)?;
    let held = hold(alloc, &tables, 16, 16)?;
    expect_packets(rt, &packets, case.want, &held);
    Ok(())
}

fn expect_case<R: Abort>(rt: &R, alloc: Global, case: &Case) -> Result<(), Fail> {
    let mut stores = Vec::new(alloc);
    for rows in case.sources {
        let store = stored(alloc, rows)?;
        let Ok(()) = stores.push(store) else {
            return Err("out of memory".into());
        };
    }
    expect_export(rt, alloc, &stores, case)
}

const CASES: &[Case] = &[
    // A cut after two frames: they are decoded and not shown.
    Case {
        sources: [&[KEY, FIRST, SECOND, THIRD], &[]],
        frames: &[(0, 2), (0, 3)],
        want: &[
            Want::Copy(HIDDEN_KEY),
            Want::Copy(HIDDEN_FIRST),
            Want::Copy(SECOND),
            Want::Copy(THIRD),
        ],
    },
    // A cut out of the middle: the packets between are hidden.
    Case {
        sources: [&[KEY, FIRST, SECOND, THIRD], &[]],
        frames: &[(0, 0), (0, 3)],
        want: &[
            Want::Copy(KEY),
            Want::Copy(HIDDEN_FIRST),
            Want::Copy(HIDDEN_SECOND),
            Want::Copy(THIRD),
        ],
    },
    // With a key packet between, the lead begins there.
    Case {
        sources: [&[KEY, FIRST, OTHER_KEY, SECOND, THIRD], &[]],
        frames: &[(0, 0), (0, 4)],
        want: &[
            Want::Copy(KEY),
            Want::Copy(&[0x00, 0, 2]),
            Want::Copy(HIDDEN_SECOND),
            Want::Copy(THIRD),
        ],
    },
    // Another source begins at its key packet.
    Case {
        sources: [&[KEY, FIRST], &[OTHER_KEY, SECOND]],
        frames: &[(0, 0), (1, 1), (0, 1)],
        want: &[
            Want::Copy(KEY),
            Want::Copy(&[0x00, 0, 2]),
            Want::Copy(SECOND),
            Want::Copy(HIDDEN_KEY),
            Want::Copy(FIRST),
        ],
    },
    // Frames in reverse order begin at the key packet each.
    Case {
        sources: [&[KEY, FIRST], &[]],
        frames: &[(0, 1), (0, 0)],
        want: &[Want::Copy(HIDDEN_KEY), Want::Copy(FIRST), Want::Copy(KEY)],
    },
    // A dropped frame is held, and left out of a lead.
    Case {
        sources: [&[KEY, NONE, FIRST], &[]],
        frames: &[(0, 1)],
        want: &[Want::Copy(HIDDEN_KEY), Want::Hold],
    },
    Case {
        sources: [&[KEY, NONE, FIRST], &[]],
        frames: &[(0, 2)],
        want: &[Want::Copy(HIDDEN_KEY), Want::Copy(FIRST)],
    },
    // A frame that is shown again is held if it is the last reference, and else decoded again.
    Case {
        sources: [&[WHOLE_KEY, FIRST], &[]],
        frames: &[(0, 0), (0, 0), (0, 1)],
        want: &[Want::Copy(WHOLE_KEY), Want::Hold, Want::Copy(FIRST)],
    },
    Case {
        sources: [&[WHOLE_KEY, FIRST], &[]],
        frames: &[(0, 1), (0, 1)],
        want: &[
            Want::Copy(HIDDEN_WHOLE_KEY),
            Want::Copy(FIRST),
            Want::Copy(HIDDEN_WHOLE_KEY),
            Want::Copy(FIRST),
        ],
    },
    // No frame has no packet.
    Case {
        sources: [&[KEY], &[]],
        frames: &[],
        want: &[],
    },
];

#[test]
fn exports_have_these_packets(rt: HostRuntime) -> Result<(), Fail> {
    for case in CASES {
        expect_case(&rt, rt.alloc(), case)?;
    }
    Ok(())
}
