use std::process::Abort;
use vp8_tables::{TableFault, Tables};

// Byte i is 37 i + i div 256, modulo 256, so each stride shows.
fn counted_text<const N: usize>() -> [u8; N] {
    let mut text = [0u8; N];
    for (i, byte) in text.iter_mut().enumerate() {
        *byte = ((i % 256 * 37 + i / 256) % 256) as u8;
    }
    text
}

/// Entries by kind, band, context and node.
const COEFFICIENTS: &[([usize; 4], u8)] = &[
    ([0, 0, 0, 10], 114),
    ([0, 0, 2, 0], 46),
    ([0, 1, 0, 0], 197),
    ([1, 0, 0, 0], 41),
    ([3, 7, 2, 10], 127),
];

const UPDATES: &[([usize; 4], u8)] = &[([0, 0, 0, 0], 164), ([3, 7, 2, 10], 35)];

/// Entries by the modes above and to the left, and the node.
const KEY_SUBS: &[([usize; 3], u8)] = &[
    ([0, 0, 8], 112),
    ([0, 1, 0], 149),
    ([1, 0, 0], 74),
    ([9, 9, 8], 58),
];

fn coefficient_of(tables: &Tables, at: [usize; 4]) -> u8 {
    tables.coefficient(at[0] % 4, at[1] % 8, at[2] % 3, at[3] % 11)
}

fn update_of(tables: &Tables, at: [usize; 4]) -> u8 {
    tables.update(at[0] % 4, at[1] % 8, at[2] % 3, at[3] % 11)
}

fn key_sub_of(tables: &Tables, at: [usize; 3]) -> u8 {
    tables.key_sub(at[0] % 10, at[1] % 10, at[2] % 9)
}

fn expect_entries<R: Abort>(rt: &R, tables: &Tables) {
    for (at, entry) in COEFFICIENTS {
        assert!(rt; coefficient_of(tables, *at) == *entry, "{at:?}");
    }
    for (at, entry) in UPDATES {
        assert!(rt; update_of(tables, *at) == *entry, "{at:?}");
    }
    for (at, entry) in KEY_SUBS {
        assert!(rt; key_sub_of(tables, *at) == *entry, "{at:?}");
    }
}

#[test]
fn entries_stand_in_index_order(rt: HostRuntime) {
    let tables = Tables::read(&counted_text::<3012>()).expect(&rt, "3012 bytes");
    expect_entries(&rt, &tables);
    assert_eq!(rt; Tables::flat().update(2, 5, 1, 4), 128);
}

#[test]
fn other_lengths_are_refused(rt: HostRuntime) {
    let shorter = Tables::read(&counted_text::<3011>());
    assert_eq!(rt; shorter.err(), Some(TableFault::Length));
    let longer = Tables::read(&counted_text::<3013>());
    assert_eq!(rt; longer.err(), Some(TableFault::Length));
    assert_eq!(rt; TableFault::Length.word(), "Length");
}
