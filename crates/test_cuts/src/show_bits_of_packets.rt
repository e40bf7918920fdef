// Show bits, by RFC 6386, section 9.1: bit 4 of the first byte.
use frame_header::{ShowFault, set_show_bit, with_show_bit};
use std::alloc::Global;
use std::process::Abort;
use std::test::Fail;

/// A packet, and the packet with its show bit cleared and set.
struct Case {
    packet: &'static [u8],
    hidden: &'static [u8],
    shown: &'static [u8],
}

const CASES: &[Case] = &[
    Case {
        packet: &[0x30, 1, 0, 0x9D],
        hidden: &[0x20, 1, 0, 0x9D],
        shown: &[0x30, 1, 0, 0x9D],
    },
    Case {
        packet: &[0x01, 0, 0],
        hidden: &[0x01, 0, 0],
        shown: &[0x11, 0, 0],
    },
    Case {
        packet: &[0xFF, 0xFF, 0xFF],
        hidden: &[0xEF, 0xFF, 0xFF],
        shown: &[0xFF, 0xFF, 0xFF],
    },
];

fn expect_copy<R: Abort>(
    rt: &R,
    alloc: Global,
    packet: &[u8],
    shown: bool,
    want: &[u8],
) -> Result<(), Fail> {
    let copy = with_show_bit(alloc, packet, shown)?;
    assert_eq!(rt; copy.as_slice(), want);
    Ok(())
}

#[test]
fn copies_have_the_bit(rt: HostRuntime) -> Result<(), Fail> {
    for case in CASES {
        expect_copy(&rt, rt.alloc(), case.packet, false, case.hidden)?;
        expect_copy(&rt, rt.alloc(), case.packet, true, case.shown)?;
    }
    Ok(())
}

#[test]
fn short_packets_have_none(rt: HostRuntime) {
    let mut short = [0x10, 0];
    assert!(rt; !set_show_bit(&mut short, false));
    assert_eq!(rt; short, [0x10, 0]);
    assert!(rt; with_show_bit(rt.alloc(), &[], true).err() == Some(ShowFault::NoBit));
}
