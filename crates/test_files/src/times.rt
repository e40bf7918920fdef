// Times of frames. The expected time stamps and heads are those of exact fractions, by compare/library/exact_times.py.
use packet_times::{Duration, head_for, stamps_of};
use pixel_planes::NoMemory;
use std::alloc::Global;
use std::process::Abort;
use std::test::Fail;
use stream_files::Head;

/// Frames by the units, the rate and the scale of their durations; the rate and scale of a head, and those of an export with this head; and the time
/// stamps in units of both, with that of a frame after the last one.
struct Times {
    head: (u32, u32),
    durations: &'static [(u64, u32, u32)],
    export: (u32, u32),
    stamps: &'static [u64],
    exported: &'static [u64],
}

fn head_of((rate, scale): (u32, u32)) -> Head {
    Head {
        width: 16,
        height: 9,
        rate,
        scale,
    }
}

fn durations_of(alloc: Global, rows: &[(u64, u32, u32)]) -> Result<Vec<Duration>, NoMemory> {
    let mut durations = Vec::new(alloc);
    for (units, rate, scale) in rows {
        durations.push(Duration {
            units: *units,
            rate: *rate,
            scale: *scale,
        })?;
    }
    Ok(durations)
}

fn expect_times<R: Abort>(rt: &R, alloc: Global, times: &Times) -> Result<(), NoMemory> {
    let durations = durations_of(alloc, times.durations)?;
    let head = head_of(times.head);
    let export = head_for(alloc, head, &durations)?;
    assert_eq!(rt; export, head_of(times.export));
    let stamps = stamps_of(alloc, head, &durations)?;
    assert!(rt; stamps.as_slice() == times.stamps, "{}", times.head.0);
    let stamps = stamps_of(alloc, export, &durations)?;
    assert!(rt; stamps.as_slice() == times.exported, "{}", times.export.0);
    Ok(())
}

// Clips of 30 and of 20 frames a second, halves of units, no rate, 29.97, frames shorter than a unit, the greatest time stamps, and units of which no
// greatest one fits 32 bits.
#[test]
fn times_by_exact_fractions(rt: HostRuntime) -> Result<(), Fail> {
    for times in CASES {
        expect_times(&rt, rt.alloc(), times)?;
    }
    Ok(())
}

const CASES: &[Times] = &[
    Times {
        head: (30, 1),
        durations: &[
            (1, 30, 1),
            (1, 30, 1),
            (1, 30, 1),
            (1, 20, 1),
            (1, 20, 1),
            (1, 20, 1),
        ],
        export: (60, 1),
        stamps: &[0, 1, 2, 3, 5, 6, 8],
        exported: &[0, 2, 4, 6, 9, 12, 15],
    },
    Times {
        head: (60, 1),
        durations: &[
            (1, 30, 1),
            (1, 30, 1),
            (1, 30, 1),
            (1, 20, 1),
            (1, 20, 1),
            (1, 20, 1),
        ],
        export: (60, 1),
        stamps: &[0, 2, 4, 6, 9, 12, 15],
        exported: &[0, 2, 4, 6, 9, 12, 15],
    },
    Times {
        head: (30, 1),
        durations: &[(1, 20, 1), (1, 20, 1), (1, 20, 1), (1, 20, 1), (1, 20, 1)],
        export: (20, 1),
        stamps: &[0, 2, 3, 5, 6, 8],
        exported: &[0, 1, 2, 3, 4, 5],
    },
    Times {
        head: (0, 1),
        durations: &[(1, 20, 1), (1, 20, 1), (1, 20, 1), (1, 20, 1)],
        export: (20, 1),
        stamps: &[0, 2, 3, 5, 6],
        exported: &[0, 1, 2, 3, 4],
    },
    Times {
        head: (25, 1),
        durations: &[
            (1, 30000, 1001),
            (2, 30000, 1001),
            (1, 25, 1),
            (1, 30000, 1001),
        ],
        export: (30000, 1),
        stamps: &[0, 1, 3, 4, 5],
        exported: &[0, 1001, 3003, 4203, 5204],
    },
    Times {
        head: (7, 1),
        durations: &[(1, 30, 1), (1, 30, 1), (1, 30, 1)],
        export: (30, 1),
        stamps: &[0, 1, 2, 3],
        exported: &[0, 1, 2, 3],
    },
    Times {
        head: (30, 1),
        durations: &[(2, 15, 1), (1, 0, 1), (4, 20, 1), (1, 15, 1)],
        export: (60, 1),
        stamps: &[0, 4, 5, 11, 13],
        exported: &[0, 8, 10, 22, 26],
    },
    Times {
        head: (1000, 1),
        durations: &[
            (33, 1000, 1),
            (1, 30, 1),
            (34, 1000, 1),
            (1, 30, 1),
            (1, 30, 1),
        ],
        export: (3000, 1),
        stamps: &[0, 33, 66, 100, 134, 167],
        exported: &[0, 99, 199, 301, 401, 501],
    },
    Times {
        head: (1, 1),
        durations: &[(18446744073709551615, 1, 1), (18446744073709551615, 1, 1)],
        export: (1, 1),
        stamps: &[0, 18446744073709551615, 18446744073709551615],
        exported: &[0, 18446744073709551615, 18446744073709551615],
    },
    Times {
        head: (4294967295, 1),
        durations: &[(1, 4294967291, 1), (1, 4294967279, 1)],
        export: (4294967295, 1),
        stamps: &[0, 1, 2],
        exported: &[0, 1, 2],
    },
    Times {
        head: (90000, 1),
        durations: &[(9223372036854775808, 1, 2), (5, 90000, 1)],
        export: (90000, 1),
        stamps: &[0, 18446744073709551615, 18446744073709551615],
        exported: &[0, 18446744073709551615, 18446744073709551615],
    },
    Times {
        head: (24, 1),
        durations: &[(3, 90000, 1001), (3, 90000, 1001), (1, 50, 2), (1, 50, 2)],
        export: (90000, 1),
        stamps: &[0, 1, 2, 3, 4],
        exported: &[0, 3003, 6006, 9606, 13206],
    },
    Times {
        head: (24, 1),
        durations: &[
            (7, 30, 1),
            (9, 30, 1),
            (1, 1000, 1),
            (1, 30, 1),
            (7, 30, 1),
            (2, 1000, 1),
        ],
        export: (3000, 1),
        stamps: &[0, 6, 13, 14, 15, 19, 20],
        exported: &[0, 700, 1600, 1603, 1703, 2403, 2409],
    },
    Times {
        head: (30, 2),
        durations: &[
            (2, 25, 1001),
            (1, 1000, 1001),
            (7, 30, 1),
            (1, 1000, 1),
            (5, 50, 1),
            (9, 30, 1001),
        ],
        export: (3000, 1),
        stamps: &[0, 1201, 1216, 1220, 1221, 1222, 5727],
        exported: &[0, 240240, 243243, 243943, 243946, 244246, 1145146],
    },
    Times {
        head: (24, 2),
        durations: &[
            (3, 30, 1001),
            (4, 24, 1),
            (9, 30, 1001),
            (1, 1000, 1),
            (8, 1000, 1),
            (6, 50, 1001),
        ],
        export: (3000, 1),
        stamps: &[0, 1201, 1203, 4807, 4808, 4809, 6248],
        exported: &[0, 300300, 300800, 1201700, 1201703, 1201727, 1562087],
    },
    Times {
        head: (1000, 1001),
        durations: &[
            (5, 25, 1),
            (4, 30, 1001),
            (5, 1000, 1),
            (6, 50, 1),
            (2, 30, 1001),
            (7, 25, 1),
        ],
        export: (3000, 1),
        stamps: &[0, 1, 133, 134, 135, 200, 201],
        exported: &[0, 600, 401000, 401015, 401375, 601575, 602415],
    },
];
