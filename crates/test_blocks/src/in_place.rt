ghost use Rattle.std.specs.Prelude.{◌≡◌, ◌≤◌, length};
ghost use Rattle.std.specs.Option.{ForSome};
ghost use Rattle.intra_predict.specs.InPlace.{HoldsBlock};
ghost use Rattle.intra_predict.specs.WholeSample.{side_of};

use intra_predict::{BlockSize, Corner, WholeMode, whole, whole_in_place};
use std::process::Abort;

/// The samples of a plane: neighbours differ, and so do the differences between them.
fn plane() -> [u8; 960] {
    let mut samples = [0; 960];
    for k in 0..960 {
        samples[k] = ((k * 89 % 251 + k / 5 * 13) % 256) as u8;
    }
    samples
}

/// 16 samples, the first at index `first` and each further one `step` after the last.
fn gathered(samples: &[u8; 960], first: usize, step: usize) -> [u8; 16]
    requires { (first ≤ 960) × (step ≤ 16512) }
{
    let mut side = [0; 16];
    for k in 0..16 {
        if let Some(sample) = samples.get(first + k * step) {
            side[k] = *sample;
        }
    }
    side
}

/// A side of a block, `None` if it is outside the frame.
fn inside(is_outside: bool, side: &[u8]) -> Option<&[u8]>
    ensures { ForSome result (λ samples. length samples.now ≡ length side.now) }
{
    if is_outside { None } else { Some(side) }
}

/// The plane after `whole` predicted one of its blocks from its sides, which are gathered before.
fn by_sides<R: Abort>(rt: &R, mode: WholeMode, size: BlockSize, corner: Corner) -> [u8; 960]
    requires { HoldsBlock corner (side_of size) 960 }
{
    let side = size.side();
    assert!(rt; side <= 16);
    let across = corner.across;
    let start = across * corner.row + corner.column;
    let mut samples = plane();
    let above = gathered(&samples, start.saturating_sub(across), 1);
    let left = gathered(&samples, start.saturating_sub(1), across);
    let before = gathered(&samples, start.saturating_sub(across + 1), 1);
    let diagonal = match (corner.row, corner.column) {
        (0, _) => 127,
        (_, 0) => 129,
        _ => before[0],
    };
    let above = inside(corner.row == 0, &above[..side]);
    let left = inside(corner.column == 0, &left[..side]);
    whole(
        mode,
        size,
        above,
        left,
        diagonal,
        &mut samples[start..],
        across,
    );
    samples
}

fn expect_same<R: Abort>(rt: &R, mode: WholeMode, size: BlockSize, corner: Corner)
    requires { HoldsBlock corner (side_of size) 960 }
{
    let expected = by_sides(rt, mode, size, corner);
    let mut samples = plane();
    whole_in_place(mode, size, &mut samples, corner);
    assert!(rt; samples == expected, "{mode:?} {size:?} {corner:?}");
}

fn expect_both_sizes<R: Abort>(rt: &R, mode: WholeMode, corner: Corner)
    requires { HoldsBlock corner 16 960 }
{
    expect_same(rt, mode, BlockSize::Sixteen, corner);
    expect_same(rt, mode, BlockSize::Eight, corner);
}

/// At the top and the left edge of the frame, at each of them, and inside it.
fn expect_edges<R: Abort>(rt: &R, mode: WholeMode, across: usize)
    requires { (24 ≤ across) × (across ≤ 40) }
{
    let corner = Corner {
        across,
        column: 0,
        row: 0,
    };
    expect_both_sizes(rt, mode, corner);
    expect_both_sizes(
        rt,
        mode,
        Corner {
            column: 8,
            ..corner
        },
    );
    expect_both_sizes(rt, mode, Corner { row: 7, ..corner });
    expect_both_sizes(
        rt,
        mode,
        Corner {
            across,
            column: 8,
            row: 7,
        },
    );
}

/// In rows without a border, and in rows of two other lengths.
#[test]
fn blocks_in_place_are_those_from_gathered_sides(rt: HostRuntime) {
    for mode in [WholeMode::Dc, WholeMode::V, WholeMode::H, WholeMode::Tm] {
        expect_edges(&rt, mode, 24);
        expect_edges(&rt, mode, 27);
        expect_edges(&rt, mode, 40);
    }
}
