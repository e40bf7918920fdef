use frame_header::is_shown;
use packet_edits::{EditFault, RestampFault, Store};
use packet_times::usual_duration;
use pixel_planes::NoMemory;
use std::alloc::Global;
use std::io::{self, ErrorKind, Write};
use std::process::Abort;
use std::test::Fail;
use stream_files::{Bytes, Head, Packet, Packets, WriteFault, ivf_read};

/// The greatest `u64`, which is never the id of a packet.
const LAST: u64 = 18_446_744_073_709_551_615;

/// Tags of a shown and of a hidden packet.
const SHOWN: &[u8] = &[0x11, 0, 0];

const HIDDEN: &[u8] = &[0x01, 0, 0];

/// A packet of these bytes.
fn packet_of(alloc: Global, stamp: u64, bytes: &[u8]) -> Result<Packet, NoMemory> {
    let bytes = Bytes::from_slice(alloc, bytes)?;
    Ok(Packet { stamp, bytes })
}

fn packets_of(alloc: Global, rows: &[(u64, &[u8])]) -> Result<Packets, NoMemory> {
    let mut packets = Vec::new(alloc);
    for (stamp, bytes) in rows {
        packets.push(packet_of(alloc, *stamp, bytes)?)?;
    }
    Ok(Packets::new(packets))
}

/// A packet of no bytes.
fn empty_packet(alloc: Global) -> Packet {
    Packet {
        stamp: 0,
        bytes: Bytes::new(Vec::new(alloc)),
    }
}

/// `count` packets of no bytes.
fn empty_packets(alloc: Global, count: usize) -> Result<Packets, NoMemory> {
    let mut packets = Vec::with_capacity(alloc, count)?;
    for _ in 0..count {
        packets.push(empty_packet(alloc))?;
    }
    Ok(Packets::new(packets))
}

/// A packet of a store: its id, its time stamp and its bytes.
type Row = (u64, u64, &'static [u8]);

/// An edit of a store.
#[derive(Clone, Copy, Debug)]
enum Edit {
    /// This number of packets of no bytes at the end.
    Push(usize),
    /// At an index, a packet with a time stamp and bytes.
    Insert(u64, u64, &'static [u8]),
    /// At an index, other bytes.
    Replace(u64, &'static [u8]),
    Delete(u64),
    /// From an index to an index.
    Move(u64, u64),
    /// At an index, a packet of another store.
    Copy(u64, u64),
    /// At an index, a packet of the same store.
    CopyWithin(u64, u64),
    /// At an index, the show bit set or cleared.
    ShowBit(u64, bool),
    /// Marks a packet.
    Mark(usize),
    /// Removes the mark of a packet.
    Unmark(usize),
}

/// An edit with its answer. After it the store has exactly these packets, of which exactly the ones
/// at these indexes are shown and marked.
struct Step {
    edit: Edit,
    answer: Result<(), EditFault>,
    rows: &'static [Row],
    shown: &'static [usize],
    marked: &'static [usize],
}

/// Whether a store has exactly these packets, each with its id, its stamp and its bytes.
fn holds(store: &Store, rows: &[Row]) -> bool {
    store.len() == rows.len()
        && rows.iter().enumerate().all(|(i, (id, stamp, bytes))| {
            store.id(i) == *id && store.stamp(i) == *stamp && store.packet(i) == *bytes
        })
}

/// Whether exactly the packets at these indexes are marked.
fn marks(store: &Store, places: &[usize]) -> bool {
    (0..store.len()).all(|i| store.marked(i) == places.contains(&i))
}

/// Marks a packet, if there is one at the index.
fn mark_at(store: &mut Store, place: usize) {
    if place < store.len() {
        store.set_mark(place);
    }
}

/// Removes the mark of a packet, if there is one at the index.
fn unmark_at(store: &mut Store, place: usize) {
    if place < store.len() {
        store.clear_mark(place);
    }
}

/// Whether exactly the packets at these indexes are shown.
fn shows(store: &Store, places: &[usize]) -> bool {
    store.frames() == places.len()
        && places
            .iter()
            .enumerate()
            .all(|(n, place)| store.shown(n as u64) == Some(*place))
        && store.shown(places.len() as u64).is_none()
        && store.shown(LAST).is_none()
}

/// Whether the number of shown packets before each index is that of the packets whose bytes say so.
fn counts_shown(store: &Store) -> bool {
    let mut shown = 0_usize;
    for at in 0..store.len() {
        if store.shown_before(at) != shown {
            return false;
        }
        if is_shown(store.packet(at)) {
            shown = shown.saturating_add(1);
        }
    }
    store.shown_before(store.len()) == shown && store.shown_before(usize::MAX) == shown
}

/// Makes an edit. Copies of other packets are those of `other`.
fn make(alloc: Global, store: &mut Store, other: &Store, edit: Edit) -> Result<(), EditFault> {
    match edit {
        Edit::Push(count) => push_empty(alloc, store, count),
        Edit::Insert(at, stamp, bytes) => store.insert(at, stamp, bytes_of(alloc, bytes)?),
        Edit::Replace(at, bytes) => store.replace(at, bytes_of(alloc, bytes)?),
        Edit::Delete(at) => store.delete(at),
        Edit::Move(from, to) => store.move_to(from, to),
        Edit::Copy(at, from) => store.copy_from(at, other, from),
        Edit::CopyWithin(at, from) => store.copy_within(at, from),
        Edit::ShowBit(at, shown) => store.set_show_bit(at, shown),
        Edit::Mark(place) => {
            mark_at(store, place);
            Ok(())
        }
        Edit::Unmark(place) => {
            unmark_at(store, place);
            Ok(())
        }
    }
}

/// Appends packets of no bytes.
fn push_empty(alloc: Global, store: &mut Store, count: usize) -> Result<(), EditFault> {
    let packets = empty_packets(alloc, count).map_err(|_| EditFault::NoMemory)?;
    store.push_all(packets)
}

fn bytes_of(alloc: Global, bytes: &[u8]) -> Result<Bytes, EditFault> {
    Bytes::from_slice(alloc, bytes).map_err(|_| EditFault::NoMemory)
}

/// A store with these packets of a file of this head, whose first has the id `first_id`.
fn stored_of(
    alloc: Global,
    first_id: u64,
    head: Head,
    rows: &[(u64, &[u8])],
) -> Result<Store, EditFault> {
    let packets = packets_of(alloc, rows).map_err(|_| EditFault::NoMemory)?;
    let usual = usual_duration(alloc, head, packets.as_slice()).map_err(|_| EditFault::NoMemory)?;
    let mut store = Store::starting(alloc, first_id, usual);
    store.push_all(packets)?;
    Ok(store)
}

/// A store with these packets of a file of 30 frames a second.
fn stored(alloc: Global, first_id: u64, rows: &[(u64, &[u8])]) -> Result<Store, EditFault> {
    stored_of(alloc, first_id, HEAD, rows)
}

/// Makes edits in sequence, and checks the answer of each and what it leaves.
fn expect_steps<R: Abort>(rt: &R, alloc: Global, store: &mut Store, other: &Store, steps: &[Step]) {
    for step in steps {
        let answer = make(alloc, store, other, step.edit);
        assert!(rt; answer == step.answer, "{:?}", step.edit);
        expect_packets(rt, store, step);
    }
}

/// Checks what a step leaves.
fn expect_packets<R: Abort>(rt: &R, store: &Store, step: &Step) {
    assert!(rt; holds(store, step.rows), "packets after {:?}", step.edit);
    assert!(rt; shows(store, step.shown), "shown after {:?}", step.edit);
    assert!(rt; counts_shown(store), "counts after {:?}", step.edit);
    assert!(rt; marks(store, step.marked), "marked after {:?}", step.edit);
}

/// Makes edits that are answered with these errors, and change nothing.
fn expect_faults<R: Abort>(
    rt: &R,
    alloc: Global,
    store: &mut Store,
    other: &Store,
    cases: &[(Edit, EditFault)],
) {
    for (edit, fault) in cases {
        let answer = make(alloc, store, other, *edit);
        assert!(rt; answer == Err(*fault), "{edit:?}");
    }
}

/// What is done to a store, or asked of it.
enum Check {
    /// Edits that are answered with these errors, and change nothing.
    Faults(&'static [(Edit, EditFault)]),
    /// Edits with their answers, and what each leaves.
    Steps(&'static [Step]),
    /// Edits, after each of which exactly the packets at these indexes are marked.
    Marks(&'static [(Edit, &'static [usize])]),
    /// The same, and the marks are found one after another.
    Found(&'static [(Edit, &'static [usize])]),
    /// The number of packets, and exactly the marked ones.
    Left(usize, &'static [usize]),
    /// How many packets are shown, and the index of the shown packet with each number up to that.
    Shown(usize, &'static [(u64, Option<usize>)]),
    /// The last packet with a key tag before each index.
    LastKeys(&'static [(usize, Option<usize>)]),
    /// The first packet with a key tag from an index on, before another.
    NextKeys(&'static [(usize, usize, Option<usize>)]),
    /// The size in the last key packet before each index.
    Sizes(&'static [(u64, Option<(u16, u16)>)]),
    /// The bytes of the file that is saved.
    Saved(&'static [u8]),
    /// And of the file that is saved padded.
    Padded(&'static [u8]),
    /// And the time stamps of the file that is saved with new ones, padded or not.
    Restamped(bool, &'static [u64]),
}

/// A list of packets, the first of which has the id `first_id`, and its checks in sequence. Copies of
/// other packets are those of `other`.
struct Case {
    first_id: u64,
    other: &'static [(u64, &'static [u8])],
    packets: &'static [(u64, &'static [u8])],
    checks: &'static [Check],
}

/// Makes the checks of a case. A test that only calls this is proved in a second or two.
fn expect_case<R: Abort>(rt: &R, alloc: Global, case: &Case) -> Result<(), Fail> {
    let other = stored_of(alloc, 0, SLOW, case.other)?;
    expect_over(rt, alloc, &other, case)?;
    Ok(())
}

fn expect_over<R: Abort>(
    rt: &R,
    alloc: Global,
    other: &Store,
    case: &Case,
) -> Result<(), EditFault> {
    let mut store = stored(alloc, case.first_id, case.packets)?;
    expect_checks(rt, alloc, &mut store, other, case.checks);
    Ok(())
}

fn expect_checks<R: Abort>(
    rt: &R,
    alloc: Global,
    store: &mut Store,
    other: &Store,
    checks: &[Check],
) {
    for check in checks {
        expect_check(rt, alloc, store, other, check);
    }
}

fn expect_check<R: Abort>(rt: &R, alloc: Global, store: &mut Store, other: &Store, check: &Check) {
    match check {
        Check::Faults(cases) => expect_faults(rt, alloc, store, other, cases),
        Check::Steps(steps) => expect_steps(rt, alloc, store, other, steps),
        Check::Marks(cases) => expect_marks(rt, alloc, store, other, cases),
        Check::Found(cases) => expect_found(rt, alloc, store, other, cases),
        Check::Left(count, marked) => {
            assert!(rt; store.len() == *count && marks(store, marked), "{count}");
        }
        Check::Shown(count, cases) => expect_shown(rt, store, *count, cases),
        Check::LastKeys(keys) => expect_last_keys(rt, store, keys),
        Check::NextKeys(keys) => expect_next_keys(rt, store, keys),
        Check::Sizes(sizes) => expect_sizes(rt, store, sizes),
        Check::Saved(bytes) => expect_saved(rt, alloc, store, bytes),
        Check::Padded(bytes) => expect_padded(rt, alloc, store, bytes),
        Check::Restamped(pads, stamps) => expect_restamped(rt, alloc, store, *pads, stamps),
    }
}

const A: Row = (0, 10, b"a");

#[test]
fn insertions(rt: HostRuntime) -> Result<(), Fail> {
    expect_case(&rt, rt.alloc(), &INSERTIONS)
}

const INSERTIONS: Case = Case {
    first_id: 0,
    other: &[],
    packets: &[(10, b"a"), (20, HIDDEN), (30, SHOWN)],
    checks: &[Check::Steps(&[
        Step {
            edit: Edit::Push(0),
            answer: Ok(()),
            rows: &[A, (1, 20, HIDDEN), (2, 30, SHOWN)],
            shown: &[0, 2],
            marked: &[],
        },
        Step {
            edit: Edit::Insert(1, 15, SHOWN),
            answer: Ok(()),
            rows: &[A, (3, 15, SHOWN), (1, 20, HIDDEN), (2, 30, SHOWN)],
            shown: &[0, 1, 3],
            marked: &[2],
        },
    ])],
};

/// Moves in sequence.
#[test]
fn moves(rt: HostRuntime) -> Result<(), Fail> {
    expect_case(&rt, rt.alloc(), &MOVED)
}

const MOVED: Case = Case {
    first_id: 0,
    other: &[],
    packets: &[(10, b"a"), (15, SHOWN), (20, HIDDEN), (30, SHOWN)],
    checks: &[Check::Steps(MOVES)],
};

const B: Row = (1, 15, SHOWN);

const C: Row = (2, 20, HIDDEN);

const D: Row = (3, 30, SHOWN);

const MOVES: &[Step] = &[
    Step {
        edit: Edit::Move(0, 2),
        answer: Ok(()),
        rows: &[B, C, A, D],
        shown: &[0, 2, 3],
        marked: &[0, 2, 3],
    },
    Step {
        edit: Edit::Move(3, 0),
        answer: Ok(()),
        rows: &[D, B, C, A],
        shown: &[0, 1, 3],
        marked: &[0, 1, 3],
    },
    Step {
        edit: Edit::Move(2, 1),
        answer: Ok(()),
        rows: &[D, C, B, A],
        shown: &[0, 2, 3],
        marked: &[0, 1, 2, 3],
    },
];

/// Copies from another store and within one, to both ends.
#[test]
fn copies(rt: HostRuntime) -> Result<(), Fail> {
    expect_case(&rt, rt.alloc(), &COPIED)
}

// Ids 0 and 1 are those of the other packets too.
const COPIED: Case = Case {
    first_id: 0,
    other: &[(10, b"a"), (20, HIDDEN)],
    packets: &[(30, SHOWN)],
    checks: &[Check::Steps(COPIES)],
};

const OWN: Row = (0, 30, SHOWN);

const FIRST_COPY: Row = (1, 20, HIDDEN);

const SECOND_COPY: Row = (2, 10, b"a");

const THIRD_COPY: Row = (3, 10, b"a");

const COPIES: &[Step] = &[
    Step {
        edit: Edit::Copy(0, 1),
        answer: Ok(()),
        rows: &[FIRST_COPY, OWN],
        shown: &[1],
        marked: &[1],
    },
    Step {
        edit: Edit::Copy(2, 0),
        answer: Ok(()),
        rows: &[FIRST_COPY, OWN, SECOND_COPY],
        shown: &[1, 2],
        marked: &[1],
    },
    Step {
        edit: Edit::CopyWithin(1, 2),
        answer: Ok(()),
        rows: &[FIRST_COPY, THIRD_COPY, OWN, SECOND_COPY],
        shown: &[1, 2, 3],
        marked: &[2],
    },
    Step {
        edit: Edit::CopyWithin(4, 0),
        answer: Ok(()),
        rows: &[FIRST_COPY, THIRD_COPY, OWN, SECOND_COPY, (4, 20, HIDDEN)],
        shown: &[1, 2, 3],
        marked: &[2],
    },
];

/// The errors of copies, in their order.
#[test]
fn copies_that_are_refused(rt: HostRuntime) -> Result<(), Fail> {
    expect_case(&rt, rt.alloc(), &COPIES_REFUSED)
}

// The last of 1,048,576 packets has the greatest id that a packet may have.
const COPIES_REFUSED: Case = Case {
    first_id: LAST - 1_048_576,
    other: &[(10, b"a")],
    packets: &[],
    checks: &[
        Check::Marks(&[(Edit::Push(1_048_576), &[])]),
        Check::Faults(COPIES_INTO_FULL),
        Check::Marks(&[(Edit::Delete(1), &[1])]),
        Check::Faults(COPIES_WITHOUT_IDS),
        Check::Left(1_048_575, &[1]),
    ],
};

const COPIES_INTO_FULL: &[(Edit, EditFault)] = &[
    (Edit::Copy(1_048_577, 0), EditFault::Place),
    (Edit::Copy(0, 1), EditFault::Place),
    (Edit::Copy(LAST, LAST), EditFault::Place),
    (Edit::CopyWithin(1_048_577, 0), EditFault::Place),
    (Edit::CopyWithin(0, 1_048_576), EditFault::Place),
    (Edit::Copy(0, 0), EditFault::Full),
    (Edit::CopyWithin(1_048_576, 0), EditFault::Full),
];

const COPIES_WITHOUT_IDS: &[(Edit, EditFault)] = &[
    (Edit::Copy(1_048_576, 0), EditFault::Place),
    (Edit::Copy(1_048_575, 0), EditFault::Spent),
    (Edit::CopyWithin(0, 0), EditFault::Spent),
];

#[test]
fn replacements_and_deletions(rt: HostRuntime) -> Result<(), Fail> {
    expect_case(&rt, rt.alloc(), &REPLACED)
}

const REPLACED: Case = Case {
    first_id: 0,
    other: &[],
    packets: &[(30, SHOWN), (20, HIDDEN), (15, SHOWN), (10, b"a")],
    checks: &[Check::Steps(REPLACEMENTS)],
};

const OLD: Row = (3, 10, b"a");

const NEW: Row = (4, 15, HIDDEN);

const REPLACEMENTS: &[Step] = &[
    Step {
        edit: Edit::Replace(2, HIDDEN),
        answer: Ok(()),
        rows: &[(0, 30, SHOWN), (1, 20, HIDDEN), NEW, OLD],
        shown: &[0, 3],
        marked: &[3],
    },
    Step {
        edit: Edit::Delete(0),
        answer: Ok(()),
        rows: &[(1, 20, HIDDEN), NEW, OLD],
        shown: &[2],
        marked: &[0, 2],
    },
    Step {
        edit: Edit::Replace(0, b""),
        answer: Ok(()),
        rows: &[(5, 20, b""), NEW, OLD],
        shown: &[0, 2],
        marked: &[1, 2],
    },
];

// A packet that is hidden or shown keeps its id, its time stamp and its mark, and no other packet is marked.
#[test]
fn packets_are_hidden_and_shown(rt: HostRuntime) -> Result<(), Fail> {
    expect_case(&rt, rt.alloc(), &SHOW_BITS)
}

const SHOW_BITS: Case = Case {
    first_id: 0,
    other: &[],
    packets: &[(30, SHOWN), (20, HIDDEN), (15, &[0xFF, 7, 8, 9]), (10, b"")],
    checks: &[Check::Faults(WITHOUT_BITS), Check::Steps(HIDDEN_AND_SHOWN)],
};

const WITHOUT_BITS: &[(Edit, EditFault)] = &[
    (Edit::ShowBit(3, false), EditFault::NoBit),
    (Edit::ShowBit(3, true), EditFault::NoBit),
    (Edit::ShowBit(4, false), EditFault::Place),
    (Edit::ShowBit(LAST, true), EditFault::Place),
];

const NO_BYTES: Row = (3, 10, b"");

const HIDDEN_AND_SHOWN: &[Step] = &[
    Step {
        edit: Edit::ShowBit(0, false),
        answer: Ok(()),
        rows: &[
            (0, 30, HIDDEN),
            (1, 20, HIDDEN),
            (2, 15, &[0xFF, 7, 8, 9]),
            NO_BYTES,
        ],
        shown: &[2, 3],
        marked: &[],
    },
    Step {
        edit: Edit::Mark(2),
        answer: Ok(()),
        rows: &[
            (0, 30, HIDDEN),
            (1, 20, HIDDEN),
            (2, 15, &[0xFF, 7, 8, 9]),
            NO_BYTES,
        ],
        shown: &[2, 3],
        marked: &[2],
    },
    Step {
        edit: Edit::ShowBit(2, false),
        answer: Ok(()),
        rows: &[
            (0, 30, HIDDEN),
            (1, 20, HIDDEN),
            (2, 15, &[0xEF, 7, 8, 9]),
            NO_BYTES,
        ],
        shown: &[3],
        marked: &[2],
    },
    Step {
        edit: Edit::ShowBit(1, true),
        answer: Ok(()),
        rows: &[
            (0, 30, HIDDEN),
            (1, 20, SHOWN),
            (2, 15, &[0xEF, 7, 8, 9]),
            NO_BYTES,
        ],
        shown: &[1, 3],
        marked: &[2],
    },
    Step {
        edit: Edit::ShowBit(1, true),
        answer: Ok(()),
        rows: &[
            (0, 30, HIDDEN),
            (1, 20, SHOWN),
            (2, 15, &[0xEF, 7, 8, 9]),
            NO_BYTES,
        ],
        shown: &[1, 3],
        marked: &[2],
    },
];

/// Edits at indexes where no packet is.
#[test]
fn indexes_without_packets(rt: HostRuntime) -> Result<(), Fail> {
    expect_case(&rt, rt.alloc(), &TWO)
}

const TWO: Case = Case {
    first_id: 0,
    other: &[],
    packets: &[(10, b"a"), (20, b"b")],
    checks: &[Check::Faults(OUTSIDE), Check::Steps(AT_THE_END)],
};

const OUTSIDE: &[(Edit, EditFault)] = &[
    (Edit::Insert(3, 0, b"x"), EditFault::Place),
    (Edit::Insert(LAST, 0, b"x"), EditFault::Place),
    (Edit::Replace(2, b"x"), EditFault::Place),
    (Edit::Replace(LAST, b"x"), EditFault::Place),
    (Edit::Delete(2), EditFault::Place),
    (Edit::Delete(LAST), EditFault::Place),
    (Edit::Move(2, 0), EditFault::Place),
    (Edit::Move(LAST, 0), EditFault::Place),
    (Edit::Move(0, 2), EditFault::Place),
    (Edit::Move(0, LAST), EditFault::Place),
];

const AT_THE_END: &[Step] = &[
    Step {
        edit: Edit::Delete(2),
        answer: Err(EditFault::Place),
        rows: &[A, (1, 20, b"b")],
        shown: &[0, 1],
        marked: &[],
    },
    Step {
        edit: Edit::Insert(2, 30, b"c"),
        answer: Ok(()),
        rows: &[A, (1, 20, b"b"), (2, 30, b"c")],
        shown: &[0, 1, 2],
        marked: &[],
    },
];

#[test]
fn ids_that_are_spent(rt: HostRuntime) -> Result<(), Fail> {
    let alloc = rt.alloc();
    expect_case(&rt, alloc, &ONE_ID_LEFT)?;
    expect_case(&rt, alloc, &NO_ID_LEFT)
}

const ONE_ID_LEFT: Case = Case {
    first_id: LAST - 1,
    other: &[],
    packets: &[],
    checks: &[Check::Steps(LAST_ID)],
};

const NO_ID_LEFT: Case = Case {
    first_id: LAST,
    other: &[],
    packets: &[],
    checks: &[Check::Steps(NO_ID)],
};

const LAST_ROW: Row = (LAST - 1, 7, b"x");

const LAST_ID: &[Step] = &[
    Step {
        edit: Edit::Push(2),
        answer: Err(EditFault::Spent),
        rows: &[],
        shown: &[],
        marked: &[],
    },
    Step {
        edit: Edit::Insert(0, 7, b"x"),
        answer: Ok(()),
        rows: &[LAST_ROW],
        shown: &[0],
        marked: &[],
    },
    Step {
        edit: Edit::Insert(1, 0, b"y"),
        answer: Err(EditFault::Spent),
        rows: &[LAST_ROW],
        shown: &[0],
        marked: &[],
    },
    Step {
        edit: Edit::Insert(2, 0, b"y"),
        answer: Err(EditFault::Place),
        rows: &[LAST_ROW],
        shown: &[0],
        marked: &[],
    },
    Step {
        edit: Edit::Replace(0, b"y"),
        answer: Err(EditFault::Spent),
        rows: &[LAST_ROW],
        shown: &[0],
        marked: &[],
    },
    Step {
        edit: Edit::Push(1),
        answer: Err(EditFault::Spent),
        rows: &[LAST_ROW],
        shown: &[0],
        marked: &[],
    },
    Step {
        edit: Edit::Push(0),
        answer: Ok(()),
        rows: &[LAST_ROW],
        shown: &[0],
        marked: &[],
    },
    Step {
        edit: Edit::Delete(0),
        answer: Ok(()),
        rows: &[],
        shown: &[],
        marked: &[],
    },
];

const NO_ID: &[Step] = &[Step {
    edit: Edit::Insert(0, 0, b"x"),
    answer: Err(EditFault::Spent),
    rows: &[],
    shown: &[],
    marked: &[],
}];

#[test]
fn the_most_packets(rt: HostRuntime) -> Result<(), Fail> {
    expect_case(&rt, rt.alloc(), &MOST)
}

const MOST: Case = Case {
    first_id: 0,
    other: &[],
    packets: &[],
    checks: &[
        Check::Marks(&[(Edit::Push(1_048_576), &[])]),
        Check::Faults(NO_ROOM),
        Check::Marks(&[(Edit::Delete(0), &[0]), (Edit::Insert(0, 0, HIDDEN), &[1])]),
        Check::Shown(
            1_048_575,
            &[(1_048_575, None), (1_048_574, Some(1_048_575))],
        ),
        Check::Left(1_048_576, &[1]),
    ],
};

const NO_ROOM: &[(Edit, EditFault)] = &[
    (Edit::Push(1), EditFault::Full),
    (Edit::Insert(0, 0, b"x"), EditFault::Full),
    (Edit::Insert(1_048_577, 0, b"x"), EditFault::Place),
];

/// The marks after each edit of four packets, and marks that are set and removed.
#[test]
fn marks_of_edits(rt: HostRuntime) -> Result<(), Fail> {
    expect_case(&rt, rt.alloc(), &FOUR_MARKED)
}

const FOUR_MARKED: Case = Case {
    first_id: 0,
    other: &[],
    packets: &[(0, SHOWN), (0, SHOWN), (0, SHOWN), (0, SHOWN)],
    checks: &[Check::Marks(MARKED)],
};

/// Makes edits in sequence, after each of which exactly the packets at these indexes are marked.
fn expect_marks<R: Abort>(
    rt: &R,
    alloc: Global,
    store: &mut Store,
    other: &Store,
    cases: &[(Edit, &[usize])],
) {
    for (edit, marked) in cases {
        assert!(rt; make(alloc, store, other, *edit) == Ok(()), "{edit:?}");
        assert!(rt; marks(store, marked), "{edit:?}");
    }
}

const MARKED: &[(Edit, &[usize])] = &[
    (Edit::Insert(1, 0, HIDDEN), &[2]),
    (Edit::Unmark(2), &[]),
    (Edit::Replace(1, HIDDEN), &[2]),
    (Edit::Delete(2), &[2]),
    (Edit::Unmark(2), &[]),
    (Edit::Move(3, 0), &[0, 1]),
    (Edit::Mark(3), &[0, 1, 3]),
];

/// The index of the first marked packet of these.
fn next_mark_of(store: &Store, from: usize, end: usize) -> Option<usize> {
    if from <= end && end <= store.len() {
        store.next_mark(from, end)
    } else {
        None
    }
}

/// The index of the first packet with a key tag of these.
fn next_key_of(store: &Store, from: usize, end: usize) -> Option<usize> {
    if from <= end && end <= store.len() {
        store.next_key(from, end)
    } else {
        None
    }
}

/// The index of the last packet with a key tag before an index.
fn last_key_of(store: &Store, at: usize) -> Option<usize> {
    if at <= store.len() {
        store.last_key(at)
    } else {
        None
    }
}

/// Whether exactly the packets at these indexes are marked, which are found in sequence.
fn finds_marks(store: &Store, places: &[usize]) -> bool {
    let mut from = 0;
    for place in places {
        if next_mark_of(store, from, store.len()) != Some(*place) {
            return false;
        }
        if next_mark_of(store, from, *place).is_some() {
            return false;
        }
        from = place.saturating_add(1);
    }
    next_mark_of(store, from, store.len()).is_none() && marks(store, places)
}

/// Makes edits in sequence, after each of which the packets at these indexes are found as marked.
fn expect_found<R: Abort>(
    rt: &R,
    alloc: Global,
    store: &mut Store,
    other: &Store,
    cases: &[(Edit, &[usize])],
) {
    for (edit, marked) in cases {
        assert!(rt; make(alloc, store, other, *edit) == Ok(()), "{edit:?}");
        assert!(rt; finds_marks(store, marked), "{edit:?}");
    }
}

/// Marks of more than 4,096 packets, which are found in the same run of 1,024 packets, in a later one
/// and after the last whole run. The only key packet is at index 1,024.
#[test]
fn marks_of_long_lists(rt: HostRuntime) -> Result<(), Fail> {
    expect_case(&rt, rt.alloc(), &LONG_LIST)
}

const LONG_LIST: Case = Case {
    first_id: 0,
    other: &[],
    packets: &[],
    checks: &[
        Check::Found(FOUND),
        Check::LastKeys(LAST_KEYS),
        Check::NextKeys(NEXT_KEYS),
    ],
};

fn expect_shown<R: Abort>(rt: &R, store: &Store, count: usize, cases: &[(u64, Option<usize>)]) {
    assert!(rt; store.frames() == count);
    for (number, place) in cases {
        assert!(rt; store.shown(*number) == *place, "{number}");
        let at = place.unwrap_or(usize::MAX);
        assert!(rt; store.shown_before(at) as u64 == *number, "{number}");
    }
}

fn expect_last_keys<R: Abort>(rt: &R, store: &Store, keys: &[(usize, Option<usize>)]) {
    for (at, key) in keys {
        assert!(rt; last_key_of(store, *at) == *key, "{at}");
    }
}

fn expect_next_keys<R: Abort>(rt: &R, store: &Store, keys: &[(usize, usize, Option<usize>)]) {
    for (from, end, key) in keys {
        assert!(rt; next_key_of(store, *from, *end) == *key, "{from} {end}");
    }
}

const FOUND: &[(Edit, &[usize])] = &[
    (Edit::Push(4_097), &[]),
    (Edit::Mark(4_096), &[4_096]),
    (Edit::Mark(0), &[0, 4_096]),
    (Edit::Mark(1_023), &[0, 1_023, 4_096]),
    (Edit::Mark(1_024), &[0, 1_023, 1_024, 4_096]),
    (Edit::Mark(3_071), &[0, 1_023, 1_024, 3_071, 4_096]),
    (
        Edit::Insert(1_024, 0, &[0x10, 0, 0]),
        &[0, 1_023, 1_025, 3_072, 4_097],
    ),
    (Edit::Delete(0), &[0, 1_022, 1_024, 3_071, 4_096]),
    (Edit::Move(3_071, 2), &[0, 2, 3, 1_023, 1_025, 3_072, 4_096]),
    (Edit::Unmark(1_025), &[0, 2, 3, 1_023, 3_072, 4_096]),
];

const LAST_KEYS: &[(usize, Option<usize>)] = &[
    (1_024, None),
    (1_025, Some(1_024)),
    (4_097, Some(1_024)),
];

const NEXT_KEYS: &[(usize, usize, Option<usize>)] = &[
    (0, 4_097, Some(1_024)),
    (1_024, 4_097, Some(1_024)),
    (0, 1_024, None),
    (1_025, 4_097, None),
];

/// The size in the last key packet before each index.
#[test]
fn sizes_before_places(rt: HostRuntime) -> Result<(), Fail> {
    expect_case(&rt, rt.alloc(), &SIZED)
}

fn expect_sizes<R: Abort>(rt: &R, store: &Store, sizes: &[(u64, Option<(u16, u16)>)]) {
    for (at, size) in sizes {
        assert!(rt; store.size_at(*at) == *size, "{at}");
    }
}

/// A key packet of 16 by 9 samples, one of 300 by 9, and one that is cut off before its size.
const SIZED: Case = Case {
    first_id: 0,
    other: &[],
    packets: &[
        (0, SHOWN),
        (0, &[0x10, 0, 0, 0x9D, 1, 0x2A, 16, 0, 9, 0x40]),
        (0, HIDDEN),
        (0, &[0x10, 0, 0, 0x9D, 1, 0x2A, 0x2C, 0x81, 9, 0, 7]),
        (0, &[0x10, 0, 0, 0x9D, 1, 0x2A]),
        (0, SHOWN),
    ],
    checks: &[
        Check::Sizes(SIZES),
        Check::Marks(&[(Edit::Delete(4), &[4])]),
        Check::Sizes(&[(LAST, Some((300, 9)))]),
    ],
};

const SIZES: &[(u64, Option<(u16, u16)>)] = &[
    (0, None),
    (1, None),
    (2, Some((16, 9))),
    (3, Some((16, 9))),
    (4, Some((300, 9))),
    (5, None),
    (6, None),
    (LAST, None),
];

/// A writer that returns only errors.
#[derive(Drop)]
struct Broken {}

impl Write for Broken {
    fn write(&mut self, _buf: &[u8]) -> io::Result<usize> {
        Err(ErrorKind::Other.into())
    }

    fn flush(&mut self) -> io::Result<()> {
        Err(ErrorKind::Other.into())
    }
}

const HEAD: Head = Head {
    width: 16,
    height: 9,
    rate: 30,
    scale: 1,
};

/// A header with the number of packets.
const EMPTY: &[u8] = &[
    b'D', b'K', b'I', b'F', 0, 0, 32, 0, b'V', b'P', b'8', b'0', 16, 0, 9, 0, 30, 0, 0, 0, 1, 0, 0,
    0, 0, 0, 0, 0, 0, 0, 0, 0,
];

/// The same, and one record per packet.
const SAVED: &[u8] = &[
    b'D', b'K', b'I', b'F', 0, 0, 32, 0, b'V', b'P', b'8', b'0', 16, 0, 9, 0, 30, 0, 0, 0, 1, 0, 0,
    0, 2, 0, 0, 0, 0, 0, 0, 0, //
    3, 0, 0, 0, 20, 0, 0, 0, 0, 0, 0, 0, 0x11, 0, 0, //
    0, 0, 0, 0, 1, 2, 0, 0, 0, 0, 0, 0x80,
];

/// A file of no packets, and one of two.
#[test]
fn saves_the_packets(rt: HostRuntime) -> Result<(), Fail> {
    let alloc = rt.alloc();
    expect_case(&rt, alloc, &NO_PACKETS)?;
    expect_case(&rt, alloc, &TWO_PACKETS)
}

const NO_PACKETS: Case = Case {
    first_id: 7,
    other: &[],
    packets: &[],
    checks: &[Check::Saved(EMPTY)],
};

const TWO_PACKETS: Case = Case {
    first_id: 7,
    other: &[],
    packets: &[(20, SHOWN), (0x8000_0000_0000_0201, b"")],
    checks: &[Check::Saved(SAVED)],
};

/// Saves the packets, and saves them into a writer that returns only errors.
fn expect_saved<R: Abort>(rt: &R, alloc: Global, store: &Store, bytes: &[u8]) {
    let mut saved = Vec::new(alloc);
    assert!(rt; store.save(&mut saved, HEAD) == Ok(()));
    assert!(rt; saved.as_slice() == bytes);
    assert!(rt; store.save(&mut Broken {}, HEAD) == Err(WriteFault::Write));
}

fn expect_padded<R: Abort>(rt: &R, alloc: Global, store: &Store, bytes: &[u8]) {
    let mut saved = Vec::new(alloc);
    assert!(rt; store.save_padded(&mut saved, HEAD) == Ok(()));
    assert!(rt; saved.as_slice() == bytes);
    assert!(rt; store.save_padded(&mut Broken {}, HEAD) == Err(WriteFault::Write));
}

/// A file of 20 frames a second.
const SLOW: Head = Head {
    width: 16,
    height: 9,
    rate: 20,
    scale: 1,
};

/// Saves the packets with new time stamps, and saves them so into a writer that returns only errors.
fn expect_restamped<R: Abort>(rt: &R, alloc: Global, store: &Store, pads: bool, stamps: &[u64]) {
    let mut saved = Vec::new(alloc);
    assert!(rt; store.save_restamped(&mut saved, HEAD, pads) == Ok(()));
    match ivf_read(alloc, saved.as_slice()) {
        Ok(file) => {
            expect_stamps(rt, file.packets.as_slice(), stamps);
            assert!(rt; are_copies(store, file.packets.as_slice(), pads), "{pads}");
        }
        Err(_) => assert!(rt; false, "the file is not read"),
    }
    assert!(rt; store.save_restamped(&mut Broken {}, HEAD, pads) == Err(RestampFault::Write));
}

/// Whether these are the packets of a store, each of which is one byte longer if they are padded.
fn are_copies(store: &Store, packets: &[Packet], pads: bool) -> bool {
    store.len() == packets.len()
        && packets.iter().enumerate().all(|(i, packet)| {
            let bytes = packet.bytes.as_slice();
            let of = store.packet(i);
            bytes.starts_with(of) && bytes.len().saturating_sub(of.len()) == usize::from(pads)
        })
}

/// Checks the time stamps of packets.
fn expect_stamps<R: Abort>(rt: &R, packets: &[Packet], stamps: &[u64]) {
    assert_eq!(rt; packets.len(), stamps.len());
    for (packet, stamp) in packets.iter().zip(stamps) {
        assert_eq!(rt; packet.stamp, *stamp);
    }
}

// Steps of 3 units, one of 5 over a hidden packet, and 3 for the last packet, which has the median. After the edits: a
// packet of another file (4 units of 1/20 second are 6 of 1/30), one of no file (the median), a packet moved to the
// front with its 5 units, and a hidden packet at the end.
#[test]
fn time_stamps_by_durations(rt: HostRuntime) -> Result<(), Fail> {
    expect_case(&rt, rt.alloc(), &RESTAMPED)
}

const RESTAMPED: Case = Case {
    first_id: 0,
    other: &[(100, SHOWN), (104, SHOWN)],
    packets: &[
        (10, SHOWN),
        (13, SHOWN),
        (16, SHOWN),
        (20, HIDDEN),
        (21, SHOWN),
    ],
    checks: &[
        Check::Restamped(false, &[0, 3, 6, 11, 11]),
        Check::Steps(&[Step {
            edit: Edit::Copy(1, 0),
            answer: Ok(()),
            rows: &[
                (0, 10, SHOWN),
                (5, 100, SHOWN),
                (1, 13, SHOWN),
                (2, 16, SHOWN),
                (3, 20, HIDDEN),
                (4, 21, SHOWN),
            ],
            shown: &[0, 1, 2, 3, 5],
            marked: &[2],
        }]),
        Check::Restamped(false, &[0, 3, 9, 12, 17, 17]),
        Check::Marks(&[
            (Edit::Insert(0, 7, SHOWN), &[1, 3]),
            (Edit::Move(4, 0), &[0, 1, 2, 4, 5]),
            (Edit::Replace(1, SHOWN), &[0, 2, 4, 5]),
            (Edit::Move(5, 6), &[0, 2, 4, 5, 6]),
        ]),
        Check::Restamped(false, &[0, 5, 8, 11, 17, 20, 23]),
        Check::Restamped(true, &[0, 5, 8, 11, 17, 20, 23]),
    ],
};

// Three frames of 1/20 second, which are 1.5 units of 1/30 second each, of which a packet in between is hidden: the sums 1.5, 3 and 4.5 are rounded half up, and
// not each frame. The packet of the file itself has the median step, 1.
#[test]
fn time_stamps_of_two_rates(rt: HostRuntime) -> Result<(), Fail> {
    expect_case(&rt, rt.alloc(), &TWO_RATES)
}

const TWO_RATES: Case = Case {
    first_id: 0,
    other: &[(100, SHOWN), (101, SHOWN)],
    packets: &[(7, SHOWN)],
    checks: &[
        Check::Marks(&[
            (Edit::Copy(1, 0), &[]),
            (Edit::Copy(2, 1), &[]),
            (Edit::Insert(2, 9, HIDDEN), &[3]),
            (Edit::Copy(4, 0), &[3]),
            (Edit::Copy(5, 1), &[3]),
        ]),
        Check::Restamped(false, &[0, 1, 3, 3, 4, 6]),
    ],
};

/// Packets whose last token partition is empty: a key frame, another frame, and a key frame with two
/// partitions, whose first has one byte. Then packets that are saved as they are: with a byte in the last
/// partition, of no bytes, too short for a tag, of version 4, and without a start code.
const UNPADDED_PACKETS: &[(u64, &[u8])] = &[
    (0, &[0x10, 0, 0, 0x9D, 0x01, 0x2A, 0x10, 0, 0x10, 0]),
    (1, &[0x11, 0, 0]),
    (
        2,
        &[
            0x30, 0x01, 0, 0x9D, 0x01, 0x2A, 0x10, 0, 0x10, 0, 0x80, 0x19, 0x94, 0xFF, 0x6E, 0xDE,
            0x0E, 0, 0, 0x01, 0, 0, 0x55,
        ],
    ),
    (3, &[0x10, 0, 0, 0x9D, 0x01, 0x2A, 0x10, 0, 0x10, 0, 0x05]),
    (
        4,
        &[
            0x30, 0x01, 0, 0x9D, 0x01, 0x2A, 0x10, 0, 0x10, 0, 0x80, 0x19, 0x94, 0xFF, 0x6E, 0xDE,
            0x0E, 0, 0, 0x01, 0, 0, 0x55, 0x07,
        ],
    ),
    (5, &[]),
    (6, &[0x11, 0]),
    (7, &[0x19, 0, 0]),
    (8, &[0x10, 0, 0, 0x9D, 0x01, 0x2B, 0x10, 0, 0x10, 0]),
];

/// The file of these packets, padded: a byte 00 after the first three, which their sizes count.
const PADDED: &[u8] = &[
    b'D', b'K', b'I', b'F', 0, 0, 32, 0, b'V', b'P', b'8', b'0', 16, 0, 9, 0, 30, 0, 0, 0, 1, 0, 0,
    0, 9, 0, 0, 0, 0, 0, 0, 0, //
    11, 0, 0, 0, 0, 0, 0, 0, 0, 0, 0, 0, //
    0x10, 0, 0, 0x9D, 0x01, 0x2A, 0x10, 0, 0x10, 0, 0, //
    4, 0, 0, 0, 1, 0, 0, 0, 0, 0, 0, 0, //
    0x11, 0, 0, 0, //
    24, 0, 0, 0, 2, 0, 0, 0, 0, 0, 0, 0, //
    0x30, 0x01, 0, 0x9D, 0x01, 0x2A, 0x10, 0, 0x10, 0, 0x80, 0x19, 0x94, 0xFF, 0x6E, 0xDE, 0x0E, 0,
    0, 0x01, 0, 0, 0x55, 0, //
    11, 0, 0, 0, 3, 0, 0, 0, 0, 0, 0, 0, //
    0x10, 0, 0, 0x9D, 0x01, 0x2A, 0x10, 0, 0x10, 0, 0x05, //
    24, 0, 0, 0, 4, 0, 0, 0, 0, 0, 0, 0, //
    0x30, 0x01, 0, 0x9D, 0x01, 0x2A, 0x10, 0, 0x10, 0, 0x80, 0x19, 0x94, 0xFF, 0x6E, 0xDE, 0x0E, 0,
    0, 0x01, 0, 0, 0x55, 0x07, //
    0, 0, 0, 0, 5, 0, 0, 0, 0, 0, 0, 0, //
    2, 0, 0, 0, 6, 0, 0, 0, 0, 0, 0, 0, //
    0x11, 0, //
    3, 0, 0, 0, 7, 0, 0, 0, 0, 0, 0, 0, //
    0x19, 0, 0, //
    10, 0, 0, 0, 8, 0, 0, 0, 0, 0, 0, 0, //
    0x10, 0, 0, 0x9D, 0x01, 0x2B, 0x10, 0, 0x10, 0, //
];

#[test]
fn pads_empty_last_partitions(rt: HostRuntime) -> Result<(), Fail> {
    expect_case(&rt, rt.alloc(), &UNPADDED)
}

const UNPADDED: Case = Case {
    first_id: 0,
    other: &[],
    packets: UNPADDED_PACKETS,
    checks: &[Check::Padded(PADDED)],
};

#[test]
fn words(rt: HostRuntime) {
    assert_eq!(rt; EditFault::Place.word(), "Place");
    assert_eq!(rt; EditFault::Full.word(), "Full");
    assert_eq!(rt; EditFault::Spent.word(), "Spent");
    assert_eq!(rt; EditFault::NoMemory.word(), "NoMemory");
}
