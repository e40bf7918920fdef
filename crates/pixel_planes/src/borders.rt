//! Rows of samples that are apart from each other in a block, and rows with a border.
ghost use Rattle.std.specs.Prelude.{◌≡◌, ◌+◌, ◌*◌, ◌<◌, ◌≤◌, length, is_some, IfSome, ℕ, pos, ◌+ℤ◌, slice_range, take};
ghost use Rattle.pixel_planes.specs.ReferenceSamples.{clamped_coordinate, spans_within};
ghost use Rattle.pixel_planes.specs.Layout.{rows_of, bordered_side, bordered_row, flat_plane, layout_of, shown_in, apart_in, IsLaidOut, IsBordered, HasBorderedRows, HasFilledEnds, HasEdgesRepeated};
ghost use Rattle.std.specs.Simd.Lanes.{put_chunk};

/// A coordinate clamped to a side of 1 to 16,384: 0 before it, its last index after it.
pub(crate) fn held(place: i64, side: usize) -> usize
    requires { (0 < side) × (side ≤ 16384) }
    ensures value { result ≡ clamped_coordinate side place }
    ensures within { result < side }
{
    if place < 0 {
        0
    } else if place >= side as i64 {
        side - 1
    } else {
        place as usize
    }
}

/// The distance of this coordinate from the start of the border, if this one and those after it,
/// `count` in all, are in the side or its border.
pub(crate) fn place(at: i64, count: usize, side: usize, border: usize) -> Option<usize>
    requires some { 0 < count }
    requires small { (side ≤ 16384) × (border ≤ 64) }
    ensures within { is_some result ≡ spans_within side border at count }
    ensures value { IfSome result (λ found. (pos found ≡ at +ℤ pos border) × (found + count ≤ bordered_side side border)) }
{
    if at < -(border as i64) || at >= (side + border) as i64 {
        return None;
    }
    let found = (at + border as i64) as usize;
    if count <= side + 2 * border - found {
        Some(found)
    } else {
        None
    }
}

/// Moves the rows of a block to its front, one directly after the other, unless they are there.
pub(crate) fn join(samples: &mut Vec<u8>, first: usize, stride: usize, width: usize, height: usize)
    requires sides { (width ≤ stride) × (stride ≤ 16512) × (height ≤ 16384) }
    requires front { stride ≡ width → first ≡ 0 }
    requires room { first + height * stride ≤ length samples.old.items }
    ensures value { take (width * height) samples.new.items ≡ rows_of samples.old.items first stride width height }
    ensures len { length samples.new.items ≡ length samples.old.items }
{
    if stride != width {
        pack(samples, first, stride, width, height);
    }
}

/// Moves rows that are `stride` apart, starting at index `first`, to the front of the block, one
/// directly after the other.
fn pack(samples: &mut Vec<u8>, first: usize, stride: usize, width: usize, height: usize)
    requires sides { (width ≤ stride) × (stride ≤ 16512) × (height ≤ 16384) }
    requires room { first + height * stride ≤ length samples.old.items }
    ensures value { take (width * height) samples.new.items ≡ rows_of samples.old.items first stride width height }
    ensures len { length samples.new.items ≡ length samples.old.items }
{
    for y in 0..height {
        let start = first + y * stride;
        samples.copy_within(start..start + width, y * width);
    }
}

/// Moves the rows of a block, which are `stride` apart, to their positions inside the border, unless
/// they are there.
pub(crate) fn part(samples: &mut [u8], stride: usize, width: usize, height: usize, border: usize)
    requires wide { (0 < width) × (width ≤ 16384) }
    requires high { (0 < height) × (height ≤ 16384) }
    requires border { border ≤ 64 }
    requires room { length samples.old ≡ bordered_side width border * bordered_side height border }
    ensures rows { (first : ℕ) → IsLaidOut (layout_of width height border first stride) samples.old → apart_in width height border samples.new ≡ shown_in (layout_of width height border first stride) samples.old }
    ensures len { length samples.new ≡ length samples.old }
{
    if stride == width && border > 0 {
        spread(samples, width, height, border);
    }
}

/// Brings the border of a block up to date, whose rows are `stride` apart. They are then in their
/// positions inside the border.
pub(crate) fn surround(
    samples: &mut [u8],
    stride: usize,
    width: usize,
    height: usize,
    border: usize,
)
    requires wide { (0 < width) × (width ≤ 16384) }
    requires high { (0 < height) × (height ≤ 16384) }
    requires border { border ≤ 64 }
    requires room { length samples.old ≡ bordered_side width border * bordered_side height border }
    ensures bordered { (first : ℕ) → IsLaidOut (layout_of width height border first stride) samples.old → IsBordered (shown_in (layout_of width height border first stride) samples.old) border samples.new }
    ensures len { length samples.new ≡ length samples.old }
{
    if stride == width && border > 0 {
        spread(samples, width, height, border);
    } else {
        fill(samples, width, height, border);
    }
}

/// Fills the border around the rows of a block, which are in their positions inside it.
fn fill(samples: &mut [u8], width: usize, height: usize, border: usize)
    requires wide { (0 < width) × (width ≤ 16384) }
    requires high { (0 < height) × (height ≤ 16384) }
    requires border { border ≤ 64 }
    requires room { length samples.old ≡ bordered_side width border * bordered_side height border }
    ensures bordered { IsBordered (apart_in width height border samples.old) border samples.new }
    ensures len { length samples.new ≡ length samples.old }
{
    fill_ends(samples, width, height, border);
    repeat_edges(samples, width + 2 * border, height, border);
}

/// Fills the border at both ends of each row.
fn fill_ends(samples: &mut [u8], width: usize, height: usize, border: usize)
    requires wide { (0 < width) × (width ≤ 16384) }
    requires high { (0 < height) × (height ≤ 16384) }
    requires border { border ≤ 64 }
    requires room { length samples.old ≡ bordered_side width border * bordered_side height border }
    ensures rows { HasFilledEnds width height border samples.old samples.new }
    ensures len { length samples.new ≡ length samples.old }
{
    let stride = width + 2 * border;
    for y in 0..height {
        let start = (border + y) * stride;
        fill_row_ends(&mut samples[start..start + stride], width, border);
    }
}

/// Fills the border at both ends of a row, which is between them.
fn fill_row_ends(row: &mut [u8], width: usize, border: usize)
    requires small { (0 < width) × (width ≤ 16384) × (border ≤ 64) }
    requires room { length row.old ≡ bordered_side width border }
    ensures { row.new ≡ bordered_row border (slice_range row.old border (border + width)) }
{
    let (left, rest) = row.split_at_mut(border);
    let (middle, right) = rest.split_at_mut(width);
    left.fill(middle[0]);
    right.fill(middle[width - 1]);
}

/// Spreads the rows at the front of a block over it, each with its border, and repeats the first
/// and the last one above and below them.
fn spread(samples: &mut [u8], width: usize, height: usize, border: usize)
    requires wide { (0 < width) × (width ≤ 16384) }
    requires high { (0 < height) × (height ≤ 16384) }
    requires border { (0 < border) × (border ≤ 64) }
    requires room { length samples.old ≡ bordered_side width border * bordered_side height border }
    ensures bordered { IsBordered (flat_plane width height samples.old) border samples.new }
    ensures len { length samples.new ≡ length samples.old }
{
    spread_rows(samples, width, height, border);
    repeat_edges(samples, width + 2 * border, height, border);
}

/// Repeats the first and the last one of the `height` rows in the middle of a block above and below
/// them, as often as the border is wide.
fn repeat_edges(samples: &mut [u8], stride: usize, height: usize, border: usize)
    requires high { (0 < height) × (height ≤ 16384) }
    requires small { (stride ≤ 16512) × (border ≤ 64) }
    requires room { length samples.old ≡ stride * bordered_side height border }
    ensures rows { HasEdgesRepeated stride height border samples.old samples.new }
    ensures len { length samples.new ≡ length samples.old }
{
    let (above, rest) = samples.split_at_mut(border * stride);
    let (rows, below) = rest.split_at_mut(height * stride);
    repeat_row(&rows[..stride], border, above);
    repeat_row(&rows[(height - 1) * stride..height * stride], border, below);
}

/// Spreads the rows at the front of a block over it, each with its border, from the last to the
/// first.
fn spread_rows(samples: &mut [u8], width: usize, height: usize, border: usize)
    requires wide { (0 < width) × (width ≤ 16384) }
    requires high { (0 < height) × (height ≤ 16384) }
    requires border { (0 < border) × (border ≤ 64) }
    requires room { length samples.old ≡ bordered_side width border * bordered_side height border }
    ensures rows { HasBorderedRows width height border samples.old samples.new }
    ensures len { length samples.new ≡ length samples.old }
{
    let stride = width + 2 * border;
    for y in (0..height).rev() {
        spread_row(samples, y * width, (border + y) * stride, width, border);
    }
}

/// Writes a row `count` times, one directly after the other.
fn repeat_row(row: &[u8], count: usize, out: &mut [u8])
    requires small { (length row.now ≤ 16512) × (count ≤ 64) }
    requires room { length out.old ≡ count * length row.now }
    ensures rows { (y : ℕ) → y < count → slice_range out.new (y * length row.now) (y * length row.now + length row.now) ≡ row.now }
    ensures len { length out.new ≡ length out.old }
{
    for y in 0..count {
        out[y * row.len()..(y + 1) * row.len()].copy_from_slice(row);
    }
}

/// Copies the row at index `from`, with its border, to index `to`, which is after it.
fn spread_row(samples: &mut [u8], from: usize, to: usize, width: usize, border: usize)
    requires small { (0 < width) × (width ≤ 16384) × (border ≤ 64) }
    requires following { from + width ≤ to }
    requires room { to + bordered_side width border ≤ length samples.old }
    ensures { samples.new ≡ put_chunk to samples.old (bordered_row border (slice_range samples.old from (from + width))) }
{
    let (front, back) = samples.split_at_mut(to);
    write_bordered(
        &front[from..from + width],
        &mut back[..width + 2 * border],
        border,
    );
}

/// Writes a row with its border.
fn write_bordered(row: &[u8], out: &mut [u8], border: usize)
    requires some { 0 < length row.now }
    requires small { (length row.now ≤ 16384) × (border ≤ 64) }
    requires room { length out.old ≡ bordered_side (length row.now) border }
    ensures { out.new ≡ bordered_row border row.now }
{
    let (left, rest) = out.split_at_mut(border);
    let (middle, right) = rest.split_at_mut(row.len());
    left.fill(row[0]);
    middle.copy_from_slice(row);
    right.fill(row[row.len() - 1]);
}
