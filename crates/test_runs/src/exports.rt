use frame_header::{Cause, is_shown};
use frame_session::{CutFault, Export, ExportFault, Refusal, Session};
use std::alloc::Global;
use std::process::Abort;
use std::test::Fail;
use stream_files::{Head, Packet, ivf_read};
use test_fixtures::{HIDDEN, INTER, KEY, WIDE_KEY, ivf_of};
use vp8_tables::Tables;

/// A packet of an export: its time stamp, the index of the packet that it copies, and whether it is shown.
type Row = (u64, usize, bool);

/// A file of these packets, a script over it, and the size and the packets of its export, or why there is none.
struct Case {
    packets: &'static [&'static [u8]],
    script: &'static [u8],
    answer: Result<(u16, u16, &'static [Row]), ExportFault>,
}

fn session_of(alloc: Global, packets: &[&[u8]]) -> Result<Session, Fail> {
    let text = ivf_of(alloc, packets)?;
    let file = ivf_read(alloc, text.as_slice())?;
    let files = vec![in alloc; file]?;
    Ok(Session::new(alloc, Tables::flat(), 4, files)?)
}

/// Whether a packet is a copy of another one, which exists, but for its show bit.
fn is_copy(packet: &[u8], of: Option<&&[u8]>) -> bool {
    let Some(of) = of else {
        return false;
    };
    packet.len() == of.len()
        && packet.first().map(|byte| byte | 0x10) == of.first().map(|byte| byte | 0x10)
        && packet.get(1..) == of.get(1..)
}

fn expect_row<R: Abort>(rt: &R, case: &Case, packet: &Packet, row: Row) {
    let (stamp, of, shown) = row;
    let bytes = packet.bytes.as_slice();
    assert!(rt;
        packet.stamp == stamp && is_shown(bytes) == shown,
        "{row:?}"
    );
    assert!(rt; is_copy(bytes, case.packets.get(of)), "{row:?}");
}

fn expect_rows<R: Abort>(rt: &R, case: &Case, packets: &[Packet], rows: &[Row]) {
    assert_eq!(rt; packets.len(), rows.len());
    for (packet, row) in packets.iter().zip(rows) {
        expect_row(rt, case, packet, *row);
    }
}

fn expect_export<R: Abort>(rt: &R, case: &Case, export: &Export) {
    let Ok((width, height, rows)) = case.answer else {
        assert!(rt; false, "an export");
        return;
    };
    let head = Head {
        width,
        height,
        rate: 30,
        scale: 1,
    };
    assert!(rt; export.head == head);
    let hidden = rows.iter().filter(|(_, _, shown)| !shown).count();
    assert!(rt; export.len() == rows.len() && export.hidden() == hidden);
    expect_rows(rt, case, export.packets.as_slice(), rows);
}

fn expect_case<R: Abort + AllocGlobal>(rt: &R, case: &Case) -> Result<(), Fail> {
    let mut session = session_of(rt.alloc(), case.packets)?;
    assert!(rt; session.set_script(case.script).is_ok());
    match session.export() {
        Ok(export) => expect_export(rt, case, &export),
        Err(fault) => assert!(rt; case.answer.err() == Some(fault), "{fault:?}"),
    }
    Ok(())
}

fn expect_cases<R: Abort + AllocGlobal>(rt: &R, cases: &[Case]) -> Result<(), Fail> {
    for case in cases {
        expect_case(rt, case)?;
    }
    Ok(())
}

const SIX: &[&[u8]] = &[KEY, INTER, INTER, INTER, INTER, INTER];

// Frames 2 and 3 of a key packet and five others: the first two are hidden, and have the time stamp of the first frame.
// Nothing but the show bit changes. A crop of the whole picture and a fade of weight 256 change no sample.
#[test]
fn cuts_are_exported(rt: HostRuntime) -> Result<(), Fail> {
    expect_cases(&rt, CUTS)
}

const CUTS: &[Case] = &[
    Case {
        packets: SIX,
        script: b"trim 0 2 2",
        answer: Ok((
            16,
            16,
            &[(0, 0, false), (0, 1, false), (0, 2, true), (1, 3, true)],
        )),
    },
    Case {
        packets: SIX,
        script: b"trim 0 0 2; trim 0 4 2; splice 1 2",
        answer: Ok((
            16,
            16,
            &[
                (0, 0, true),
                (1, 1, true),
                (2, 2, false),
                (2, 3, false),
                (2, 4, true),
                (3, 5, true),
            ],
        )),
    },
    Case {
        packets: &[KEY, INTER, KEY, INTER],
        script: b"trim 0 0 1; trim 0 3 1; splice 1 2",
        answer: Ok((16, 16, &[(0, 0, true), (1, 2, false), (1, 3, true)])),
    },
    // Frames in reverse order.
    Case {
        packets: &[KEY, INTER],
        script: b"trim 0 1 1; trim 0 0 1; splice 1 2",
        answer: Ok((16, 16, &[(0, 0, false), (0, 1, true), (1, 0, true)])),
    },
    // A hidden packet in a lead.
    Case {
        packets: &[KEY, HIDDEN, INTER, INTER],
        script: b"trim 0 2 1",
        answer: Ok((
            16,
            16,
            &[(0, 0, false), (0, 1, false), (0, 2, false), (0, 3, true)],
        )),
    },
    // Packets of no bytes are not in a lead.
    Case {
        packets: &[KEY, &[], INTER, INTER],
        script: b"trim 0 3 1",
        answer: Ok((16, 16, &[(0, 0, false), (0, 2, false), (0, 3, true)])),
    },
    Case {
        packets: &[KEY, WIDE_KEY],
        script: b"-",
        answer: Ok((16, 16, &[(0, 0, true), (1, 1, true)])),
    },
    Case {
        packets: &[KEY, INTER],
        script: b"crop 0 0 0 16 16; fade 1 0 2 256 256",
        answer: Ok((16, 16, &[(0, 0, true), (1, 1, true)])),
    },
    Case {
        packets: SIX,
        script: b"trim 0 0 0",
        answer: Ok((0, 0, &[])),
    },
];

// A frame of which the script changes samples, and a frame that is refused: the first one is reported.
#[test]
fn exports_are_refused(rt: HostRuntime) -> Result<(), Fail> {
    expect_cases(&rt, REFUSED)
}

const REFUSED: &[Case] = &[
    Case {
        packets: SIX,
        script: b"fade 0 2 2 256 0",
        answer: Err(ExportFault::Changed { frame: 3, node: 1 }),
    },
    // The first node that changes samples, after one that keeps them.
    Case {
        packets: SIX,
        script: b"crop 0 0 0 16 16; fade 1 0 1 128 128; crop 2 0 0 8 8",
        answer: Err(ExportFault::Changed { frame: 0, node: 2 }),
    },
    // A crop past the picture is a refusal, also after a node that changes samples.
    Case {
        packets: SIX,
        script: b"crop 0 8 0 10 4",
        answer: Err(ExportFault::Frame {
            frame: 0,
            refusal: Refusal::CropOutside,
        }),
    },
    Case {
        packets: SIX,
        script: b"fade 0 0 1 128 128; crop 1 8 0 10 4",
        answer: Err(ExportFault::Frame {
            frame: 0,
            refusal: Refusal::CropOutside,
        }),
    },
    // The first frame is reported: one that is changed before one that is refused.
    Case {
        packets: &[KEY, &[0x11, 0], INTER],
        script: b"crop 0 0 0 8 8",
        answer: Err(ExportFault::Changed { frame: 0, node: 1 }),
    },
    // 17 frames, 16 times doubled.
    Case {
        packets: &[
            KEY, INTER, INTER, INTER, INTER, INTER, INTER, INTER, INTER, INTER, INTER, INTER,
            INTER, INTER, INTER, INTER, INTER,
        ],
        script: b"splice 0 0;splice 1 1;splice 2 2;splice 3 3;splice 4 4;splice 5 5;splice 6 6;splice 7 7;splice 8 8;splice 9 9;splice 10 10;splice 11 11;splice 12 12;splice 13 13;splice 14 14;splice 15 15",
        answer: Err(ExportFault::Packets(CutFault::Full)),
    },
    Case {
        packets: &[KEY, &[0x11, 0], INTER],
        script: b"trim 0 2 1",
        answer: Err(ExportFault::Frame {
            frame: 0,
            refusal: BROKEN,
        }),
    },
    Case {
        packets: &[KEY, &[0x11, 0], INTER],
        script: b"-",
        answer: Err(ExportFault::Frame {
            frame: 1,
            refusal: BROKEN,
        }),
    },
];

const BROKEN: Refusal = Refusal::Packet {
    source: 0,
    place: 1,
    cause: Cause::ShortPacket,
};

// The size of the first frame that was served does not matter. Each packet has a record of 12 bytes more, and a byte more than that since it ends empty.
#[test]
fn sizes_do_not_refuse_exports(rt: HostRuntime) -> Result<(), Fail> {
    let mut session = session_of(rt.alloc(), &[KEY, WIDE_KEY])?;
    assert!(rt; session.frame(1).is_ok() && session.frame(0).is_err());
    let export = session.export().map_err(|_| "no export")?;
    assert!(rt; export.head.width == 16 && export.packets.len() == 2);
    assert!(rt; export.bytes() == 32 + 2 * 23);
    let mut file = Vec::new(rt.alloc());
    assert!(rt; export.save(&mut file).is_ok() && file.len() == 78);
    Ok(())
}
