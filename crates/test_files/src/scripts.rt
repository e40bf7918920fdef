ghost use Rattle.std.specs.Prelude.{◌≡◌, ◌<◌, ◌≤◌};
ghost use Rattle.pixel_planes.specs.Pictures.{shown_height};

use pixel_planes::{Component, NoMemory, Picture, Plane, Planes, same};
use script_nodes::{ApplyFault, CropOutside, Script, ScriptFault, Step, Trace, apply};
use std::alloc::Global;
use std::process::Abort;
use std::test::Fail;

/// Sixteen nodes.
const SIXTEEN: &[u8] = b"trim 0 0 1;trim 0 0 1;trim 0 0 1;trim 0 0 1;trim 0 0 1;trim 0 0 1;\
trim 0 0 1;trim 0 0 1;trim 0 0 1;trim 0 0 1;trim 0 0 1;trim 0 0 1;trim 0 0 1;trim 0 0 1;trim 0 0 1;\
trim 0 0 1";

/// Seventeen nodes.
const SEVENTEEN: &[u8] = b"trim 0 0 1;trim 0 0 1;trim 0 0 1;trim 0 0 1;trim 0 0 1;trim 0 0 1;\
trim 0 0 1;trim 0 0 1;trim 0 0 1;trim 0 0 1;trim 0 0 1;trim 0 0 1;trim 0 0 1;trim 0 0 1;trim 0 0 1;\
trim 0 0 1; trim 9 0 1";

/// Seventeen nodes and a word that is not a node.
const BROKEN: &[u8] = b"trim 0 0 1;trim 0 0 1;trim 0 0 1;trim 0 0 1;trim 0 0 1;trim 0 0 1;\
trim 0 0 1;trim 0 0 1;trim 0 0 1;trim 0 0 1;trim 0 0 1;trim 0 0 1;trim 0 0 1;trim 0 0 1;trim 0 0 1;\
trim 0 0 1;trim 0 0 1;blur 0";

/// Parts of a clip of 2^32 frames at most, 68,719,476,736 frames at most in all.
const LONGEST: &[u8] =
    b"splice 0 0;splice 1 1;splice 2 2;splice 3 3;splice 4 4;splice 5 5;splice 6 6;\
splice 7 7;splice 8 8;splice 9 9;splice 10 10;splice 11 11;parts 12 0 4294967295 12 0 4294967295 \
12 0 4294967295 12 0 4294967295 12 0 4294967295 12 0 4294967295 12 0 4294967295 12 0 4294967295 \
12 0 4294967295 12 0 4294967295 12 0 4294967295 12 0 4294967295 12 0 4294967295 12 0 4294967295 \
12 0 4294967295 12 0 4294967295 0 0 16";

/// One frame more, and a frame of it.
const TOO_LONG: &[u8] =
    b"splice 0 0;splice 1 1;splice 2 2;splice 3 3;splice 4 4;splice 5 5;splice 6 6;\
splice 7 7;splice 8 8;splice 9 9;splice 10 10;splice 11 11;parts 12 0 4294967295 12 0 4294967295 \
12 0 4294967295 12 0 4294967295 12 0 4294967295 12 0 4294967295 12 0 4294967295 12 0 4294967295 \
12 0 4294967295 12 0 4294967295 12 0 4294967295 12 0 4294967295 12 0 4294967295 12 0 4294967295 \
12 0 4294967295 12 0 4294967295 0 0 17;trim 13 0 1";

/// The name of the error of a text over one source, or the number of frames that its script makes of three.
fn parsed(alloc: Global, text: &[u8]) -> (&'static str, u64) {
    match Script::parse(alloc, text, 1) {
        Ok(script) => ("script", script.length(&[3])),
        Err(fault) => (fault.word(), 0),
    }
}

/// The name of the error of a text over two sources, or the number of frames that its script makes of two
/// and three.
fn parsed_of_two(alloc: Global, text: &[u8]) -> (&'static str, u64) {
    match Script::parse(alloc, text, 2) {
        Ok(script) => ("script", script.length(&[2, 3])),
        Err(fault) => (fault.word(), 0),
    }
}

/// A script's text, and the name of its error or the number of frames of its script.
type Text = (&'static [u8], (&'static str, u64));

const TEXTS: &[Text] = &[
    (b"-", ("script", 3)),
    (b"  - ", ("script", 3)),
    (SIXTEEN, ("script", 1)),
    (b"trim 0 1 2; splice 1 0", ("script", 5)),
    (b"  trim  0  1  9  ;splice 1 1 ", ("script", 4)),
    (b"trim 0 3 1", ("script", 0)),
    (b"trim 0 4294967295 4294967295", ("script", 0)),
    (b"crop 0 4294967294 0 16383 16383", ("script", 3)),
    (b"fade 0 0 1 0 256;trim 1 0 2", ("script", 2)),
    (b"source 0", ("script", 3)),
    (b"source 00; splice 0 1", ("script", 6)),
    (b"parts 0 1 2 0 0 3", ("script", 5)),
    (b"parts 0 1 4 0 2 0 0 0 1", ("script", 3)),
    (b" parts  0 0 0 ", ("script", 0)),
    (
        b"trim 0 0 2;parts 1 1 1 0 0 3;fade 2 0 1 0 256",
        ("script", 4),
    ),
    (LONGEST, ("script", 196_611)),
    (b"", ("Syntax", 0)),
    (b";", ("Syntax", 0)),
    (b"trim 0 0 1;", ("Syntax", 0)),
    (b"-;trim 0 0 1", ("Syntax", 0)),
    (b"- 1", ("Syntax", 0)),
    (b"blur 0", ("Syntax", 0)),
    (b"trim 0 0", ("Syntax", 0)),
    (b"trim 0 0 1 1", ("Syntax", 0)),
    (b"trim 0 0 +1", ("Syntax", 0)),
    (b"trim 0 0 00000000001", ("Syntax", 0)),
    (b"source", ("Syntax", 0)),
    (b"source 0 0", ("Syntax", 0)),
    (b"source 1; blur 0", ("Syntax", 0)),
    (b"parts", ("Syntax", 0)),
    (b"parts 0 0", ("Syntax", 0)),
    (b"parts 0 0 1 0", ("Syntax", 0)),
    (b"parts 0 0 1 0 0 -1", ("Syntax", 0)),
    (b"parts 9 9 4294967296;blur 0", ("Syntax", 0)),
    (BROKEN, ("Syntax", 0)),
    (SEVENTEEN, ("Nodes", 0)),
    (b"trim 1 0 1", ("Reference", 0)),
    (b"source 1", ("Reference", 0)),
    (b"splice 0 2;trim 1 0 4294967296", ("Reference", 0)),
    (b"parts 0 0 4294967296 1 0 1", ("Reference", 0)),
    (b"parts 0 4294967296 1", ("Number", 0)),
    (b"parts 0 0 1 0 0 4294967296", ("Number", 0)),
    (TOO_LONG, ("Number", 0)),
    (b"crop 0 1 0 4 4", ("Number", 0)),
    (b"crop 0 0 0 0 4", ("Number", 0)),
    (b"crop 0 0 0 4 16384", ("Number", 0)),
    (b"trim 0 4294967296 1", ("Number", 0)),
    (b"fade 0 0 0 0 0", ("Number", 0)),
    (b"fade 0 0 1 0 257", ("Number", 0)),
];

#[test]
fn reads_each_text(rt: HostRuntime) {
    expect_texts(&rt, TEXTS);
}

fn expect_texts<R: Abort + AllocGlobal>(rt: &R, texts: &[Text]) {
    for (text, want) in texts {
        assert!(rt; parsed(rt.alloc(), text) == *want, "at {text:?}");
    }
}

const TEXTS_OF_TWO: &[Text] = &[
    (b"-", ("script", 2)),
    (b"source 0", ("script", 2)),
    (b"source 1", ("script", 3)),
    (b"source 1; splice 0 1", ("script", 5)),
    (
        b"splice 0 0; source 1; trim 2 1 9; splice 1 3",
        ("script", 6),
    ),
    (b"source 2", ("Reference", 0)),
    (b"source 1; source 10; crop 0 1 0 4 4", ("Reference", 0)),
    (b"source 9999999999", ("Reference", 0)),
    (b"source 1; trim 1 4294967296 1", ("Number", 0)),
];

#[test]
fn reads_each_text_over_two_sources(rt: HostRuntime) {
    expect_texts_of_two(&rt, TEXTS_OF_TWO);
}

fn expect_texts_of_two<R: Abort + AllocGlobal>(rt: &R, texts: &[Text]) {
    for (text, want) in texts {
        assert!(rt; parsed_of_two(rt.alloc(), text) == *want, "at {text:?}");
    }
}

/// The frame of a source of three that a frame of a script comes from.
fn frame_of(alloc: Global, text: &[u8], frame: u64) -> Result<Option<u64>, ScriptFault> {
    let script = Script::parse(alloc, text, 1)?;
    Ok(script.trace(&[3], frame).map(|found| found.1))
}

/// The source and its frame that a frame of a script over sources of two, three and four comes from.
fn origin_of(alloc: Global, text: &[u8], frame: u64) -> Result<Option<(usize, u64)>, ScriptFault> {
    let script = Script::parse(alloc, text, 3)?;
    Ok(
        script
            .trace(&[2, 3, 4], frame)
            .map(|found| (found.0, found.1)),
    )
}

#[test]
fn names_the_source_of_each_frame(rt: HostRuntime) -> Result<(), Fail> {
    expect_origins(&rt, ORIGINS)
}

/// A script's text, a frame, and its source and the frame there.
type Origin = (&'static [u8], u64, Option<(usize, u64)>);

fn expect_origins<R: Abort + AllocGlobal>(rt: &R, origins: &[Origin]) -> Result<(), Fail> {
    for (text, frame, want) in origins {
        let origin = origin_of(rt.alloc(), text, *frame)?;
        assert!(rt; origin == *want, "at {text:?} {frame}");
    }
    Ok(())
}

const ORIGINS: &[Origin] = &[
    (b"source 1; splice 0 1", 0, Some((0, 0))),
    (b"source 1; splice 0 1", 1, Some((0, 1))),
    (b"source 1; splice 0 1", 2, Some((1, 0))),
    (b"source 1; splice 0 1", 4, Some((1, 2))),
    (b"source 1; splice 0 1", 5, None),
    (b"source 2; trim 1 1 2; splice 2 0", 1, Some((2, 2))),
    (b"source 2; trim 1 1 2; splice 2 0", 2, Some((0, 0))),
    (b"source 2; trim 1 1 2; splice 2 0", 4, None),
    (b"source 2; fade 1 0 4 0 256", 3, Some((2, 3))),
    (b"-", 1, Some((0, 1))),
    (b"source 0", 1, Some((0, 1))),
    (b"source 0", 2, None),
    (b"source 0; splice 1 0", 3, Some((0, 1))),
    (b"splice 0 0", 3, Some((0, 1))),
    (WHOLE_PARTS, 0, Some((0, 1))),
    (WHOLE_PARTS, 1, Some((1, 0))),
    (WHOLE_PARTS, 2, Some((1, 1))),
    (WHOLE_PARTS, 3, Some((2, 3))),
    (WHOLE_PARTS, 4, Some((1, 2))),
    (WHOLE_PARTS, 5, None),
    (CUT_PARTS, 0, Some((0, 1))),
    (CUT_PARTS, 1, Some((1, 0))),
    (CUT_PARTS, 2, Some((1, 1))),
    (CUT_PARTS, 3, Some((2, 3))),
    (CUT_PARTS, 4, Some((1, 2))),
    (CUT_PARTS, 5, None),
];

/// Parts of sources of two, three and four frames, one of them of no frame.
const WHOLE_PARTS: &[u8] = b"source 1; source 2; parts 0 1 1 1 0 2 2 3 1 0 0 0 1 2 1";

/// The same, of which some ask for more frames than their source has.
const CUT_PARTS: &[u8] = b"source 1; source 2; parts 0 1 7 1 0 2 2 3 9 0 2 5 1 2 2";

#[test]
fn a_source_without_a_count_has_no_frames(rt: HostRuntime) -> Result<(), Fail> {
    let script = Script::parse(rt.alloc(), b"source 1; splice 1 0", 2)?;
    expect_no_frames_without_a_count(&rt, &script);
    Ok(())
}

fn expect_no_frames_without_a_count<R: Abort>(rt: &R, script: &Script) {
    assert_eq!(rt; script.length(&[3]), 3);
    assert_eq!(rt; script.length(&[]), 0);
    assert!(rt; place_of(&script.trace(&[3], 2)) == Some((0, 2)));
    assert!(rt; script.trace(&[], 0).is_none());
}

/// The source and its frame of what was found for a frame of a script.
fn place_of(found: &Option<(usize, u64, Trace)>) -> Option<(usize, u64)> {
    match found {
        None => None,
        Some((source, frame, _)) => Some((*source, *frame)),
    }
}

/// A frame of a source, and what a script does to it.
struct Traced {
    source: usize,
    frame: u64,
    steps: usize,
    /// The step with this number fades it to this weight.
    weight: (usize, u16),
    /// The size that a picture of each size gets.
    sizes: &'static [((u16, u16), Result<(u16, u16), CropOutside>)],
}

/// Checks what was found for a frame of a script.
fn expect_traced<R: Abort>(rt: &R, found: &Option<(usize, u64, Trace)>, want: &Traced) {
    assert!(rt; place_of(found) == Some((want.source, want.frame)));
    match found {
        None => {}
        Some((_, _, trace)) => expect_trace(rt, trace, want),
    }
}

fn expect_trace<R: Abort>(rt: &R, trace: &Trace, want: &Traced) {
    let (number, weight) = want.weight;
    assert_eq!(rt; trace.steps().len(), want.steps);
    assert!(rt; trace.steps().get(number) == Some(&Step::Weigh(weight)));
    for ((width, height), size) in want.sizes {
        assert!(rt; trace.size(*width, *height) == *size, "{width} {height}");
    }
}

#[test]
fn crops_and_fades_another_source(rt: HostRuntime) -> Result<(), Fail> {
    let script = Script::parse(rt.alloc(), b"source 1; crop 1 2 4 6 8; fade 2 1 2 0 256", 2)?;
    expect_traced(&rt, &script.trace(&[1, 3], 2), &CROPPED_AND_FADED);
    Ok(())
}

const CROPPED_AND_FADED: Traced = Traced {
    source: 1,
    frame: 2,
    steps: 2,
    weight: (1, 128),
    sizes: &[((8, 12), Ok((6, 8))), ((7, 12), Err(CropOutside))],
};

#[test]
fn frames_come_from_their_source(rt: HostRuntime) -> Result<(), Fail> {
    expect_frames(&rt, b"trim 0 1 2; splice 1 0", FRAMES)
}

/// Frames of a script, each with its frame in the source.
const FRAMES: &[(u64, Option<u64>)] = &[
    (0, Some(1)),
    (1, Some(2)),
    (2, Some(0)),
    (4, Some(2)),
    (5, None),
    (u64::MAX, None),
];

fn expect_frames<R: Abort + AllocGlobal>(
    rt: &R,
    text: &[u8],
    frames: &[(u64, Option<u64>)],
) -> Result<(), Fail> {
    for (frame, want) in frames {
        let found = frame_of(rt.alloc(), text, *frame)?;
        assert!(rt; found == *want, "at {frame}");
    }
    Ok(())
}

#[test]
fn traces_have_steps_and_sizes(rt: HostRuntime) -> Result<(), Fail> {
    let text = b"crop 0 2 4 6 8; fade 1 1 2 0 256; crop 2 0 0 2 2";
    let script = Script::parse(rt.alloc(), text, 1)?;
    expect_traced(&rt, &script.trace(&[3], 2), &CROPPED_TWICE);
    Ok(())
}

const CROPPED_TWICE: Traced = Traced {
    source: 0,
    frame: 2,
    steps: 3,
    weight: (1, 128),
    sizes: &[((8, 12), Ok((2, 2))), ((7, 12), Err(CropOutside))],
};

#[test]
fn faded_frames_have_a_weight(rt: HostRuntime) -> Result<(), Fail> {
    let faded = Script::parse(rt.alloc(), b"trim 0 1 2; fade 1 0 2 256 0", 1)?;
    expect_traced(&rt, &faded.trace(&[3], 0), &FADED);
    assert_eq!(rt; Script::empty(rt.alloc()).length(&[3]), 3);
    Ok(())
}

const FADED: Traced = Traced {
    source: 0,
    frame: 1,
    steps: 1,
    weight: (0, 256),
    sizes: &[],
};

/// Writes this number and those 7, 14 and so on above it, modulo 256.
fn number(samples: &mut [u8], first: u8) {
    let mut number = first;
    for sample in samples {
        *sample = number;
        number = number.wrapping_add(7);
    }
}

/// A picture of this shown width, 1 to 48, and a height of 15. Its coded samples are 0, 7, 14 and so
/// on, or 1, 8, 15 in the red difference.
fn numbered(alloc: Global, width: u16) -> Result<Picture, NoMemory>
    requires { (0 < width) × (width ≤ 48) }
{
    let blocks = usize::from(width.div_ceil(16));
    let mut planes = Planes {
        luma: Plane::make(alloc, 16 * blocks, 16, 0)?,
        cb: Plane::make(alloc, 8 * blocks, 8, 0)?,
        cr: Plane::make(alloc, 8 * blocks, 8, 0)?,
    };
    number(planes.luma.samples_mut(), 0);
    number(planes.cb.samples_mut(), 0);
    number(planes.cr.samples_mut(), 1);
    Picture::share(alloc, planes, width, 15)
}

/// A script applied to its first frame.
fn first_frame(alloc: Global, text: &[u8], picture: &Picture) -> Result<Picture, Fail> {
    let script = Script::parse(alloc, text, 1)?;
    let (_, _, trace) = script.trace(&[1], 0).ok_or("no frame")?;
    Ok(apply(alloc, picture, &trace)?)
}

const COMPONENTS: [Component; 3] = [Component::Luma, Component::Cb, Component::Cr];

/// The number of shown rows of a component of a picture.
fn row_count(picture: &Picture, component: Component) -> usize
    ensures { result ≡ shown_height picture.now component }
{
    let height = usize::from(picture.height());
    match component {
        Component::Luma => height,
        Component::Cb | Component::Cr => height.div_ceil(2),
    }
}

/// A sample at half its weight and black at the other half, by the formula.
fn half(component: Component, sample: u8) -> u32 {
    let black = match component {
        Component::Luma => 16,
        Component::Cb | Component::Cr => 128,
    };
    (128 * u32::from(sample) + (256 - 128) * black + 128) / 256
}

/// Whether each sample of the row is the other's at half its weight.
fn is_half(component: Component, row: &[u8], other: &[u8]) -> bool {
    row.len() == other.len()
        && row
            .iter()
            .zip(other)
            .all(|(a, b)| u32::from(*a) == half(component, *b))
}

/// Whether each shown sample is the other picture's at half its weight.
fn is_half_of(picture: &Picture, other: &Picture) -> bool {
    if picture.width() != other.width() || picture.height() != other.height() {
        return false;
    }
    for component in COMPONENTS {
        for y in 0..row_count(other, component) {
            let row = picture.shown_row(component, y);
            if !is_half(component, row, other.shown_row(component, y)) {
                return false;
            }
        }
    }
    true
}

#[test]
fn fades_at_every_width(rt: HostRuntime) -> Result<(), Fail> {
    for width in 1..=40 {
        assert!(rt; fades_at(rt.alloc(), width)?, "at {width}");
    }
    Ok(())
}

/// Whether a script fades a picture of this width to half its weight.
fn fades_at(alloc: Global, width: u16) -> Result<bool, Fail>
    requires { (0 < width) × (width ≤ 48) }
{
    let picture = numbered(alloc, width)?;
    let faded = first_frame(alloc, b"fade 0 0 1 128 0", &picture)?;
    Ok(is_half_of(&faded, &picture))
}

/// Whether a row of a component of a picture has these samples.
fn has_row(picture: &Picture, component: Component, y: usize, samples: &[u8]) -> bool {
    y < row_count(picture, component) && picture.shown_row(component, y) == samples
}

/// A script's text, and the size and rows of its first frame.
struct Shown {
    text: &'static [u8],
    size: (u16, u16),
    /// The number of rows of the blue difference.
    cb_rows: usize,
    rows: &'static [(Component, usize, &'static [u8])],
}

/// Applies scripts to a picture of this width, and checks the size and rows of each first frame.
fn expect_shown<R: Abort>(rt: &R, alloc: Global, width: u16, shown: &[Shown]) -> Result<(), Fail>
    requires { (0 < width) × (width ≤ 48) }
{
    let picture = numbered(alloc, width)?;
    for want in shown {
        expect_frame(rt, alloc, &picture, want)?;
    }
    Ok(())
}

fn expect_frame<R: Abort>(
    rt: &R,
    alloc: Global,
    picture: &Picture,
    want: &Shown,
) -> Result<(), Fail> {
    let made = first_frame(alloc, want.text, picture)?;
    expect_rows(rt, &made, want);
    Ok(())
}

fn expect_rows<R: Abort>(rt: &R, made: &Picture, want: &Shown) {
    assert_eq!(rt; (made.width(), made.height()), want.size);
    assert_eq!(rt; row_count(made, Component::Cb), want.cb_rows);
    for (component, y, samples) in want.rows {
        assert!(rt; has_row(made, *component, *y, samples), "{y} {samples:?}");
    }
}

#[test]
fn fades_a_row(rt: HostRuntime) -> Result<(), Fail> {
    expect_shown(&rt, rt.alloc(), 5, FADED_ROWS)
}

const FADED_ROWS: &[Shown] = &[
    Shown {
        text: b"fade 0 3 9 128 0",
        size: (5, 15),
        cb_rows: 8,
        rows: &[
            (Component::Luma, 0, &[8, 12, 15, 19, 22]),
            (Component::Cb, 0, &[64, 68, 71]),
        ],
    },
    Shown {
        text: b"fade 0 1 9 0 256",
        size: (5, 15),
        cb_rows: 8,
        rows: &[
            (Component::Luma, 14, &[16, 16, 16, 16, 16]),
            (Component::Cr, 7, &[128, 128, 128]),
        ],
    },
];

#[test]
fn crops_a_picture(rt: HostRuntime) -> Result<(), Fail> {
    expect_shown(&rt, rt.alloc(), 16, CROPPED)
}

const CROPPED: &[Shown] = &[Shown {
    text: b"crop 0 8 2 8 4",
    size: (8, 4),
    cb_rows: 2,
    rows: &[
        (Component::Luma, 0, &[24, 31, 38, 45, 52, 59, 66, 73]),
        (
            Component::Luma,
            3,
            &[104, 111, 118, 125, 132, 139, 146, 153],
        ),
        (Component::Cb, 0, &[84, 91, 98, 105]),
        (Component::Cr, 1, &[141, 148, 155, 162]),
    ],
}];

#[test]
fn crops_twice_and_to_odd_sizes(rt: HostRuntime) -> Result<(), Fail> {
    expect_shown(&rt, rt.alloc(), 16, ODD)
}

const ODD: &[Shown] = &[
    Shown {
        text: b"crop 0 2 4 10 8; crop 1 2 2 3 3",
        size: (3, 3),
        cb_rows: 2,
        rows: &[(Component::Luma, 2, &[156, 163, 170])],
    },
    Shown {
        text: b"crop 0 2 4 3 3",
        size: (3, 3),
        cb_rows: 2,
        rows: &[
            (Component::Luma, 2, &[174, 181, 188]),
            (Component::Cb, 1, &[175, 182]),
        ],
    },
];

/// The name of the error of a script's first frame, or `picture`.
fn made(alloc: Global, text: &[u8], picture: &Picture) -> Result<&'static str, Fail> {
    let script = Script::parse(alloc, text, 1)?;
    let (_, _, trace) = script.trace(&[1], 0).ok_or("no frame")?;
    Ok(apply(alloc, picture, &trace).map_or_else(ApplyFault::word, |_| "picture"))
}

#[test]
fn refuses_crops_outside(rt: HostRuntime) -> Result<(), Fail> {
    assert!(rt; CropOutside.word() == "CropOutside");
    let picture = numbered(rt.alloc(), 16)?;
    expect_answers(&rt, &picture, OUTSIDE)
}

/// A script's text, and the name of the error of its first frame.
type Answer = (&'static [u8], &'static str);

fn expect_answers<R: Abort + AllocGlobal>(
    rt: &R,
    picture: &Picture,
    answers: &[Answer],
) -> Result<(), Fail> {
    for (text, want) in answers {
        let answer = made(rt.alloc(), text, picture)?;
        assert!(rt; answer == *want, "at {text:?}");
    }
    Ok(())
}

const OUTSIDE: &[Answer] = &[
    (b"crop 0 8 0 10 4", "CropOutside"),
    (b"crop 0 0 12 4 4", "CropOutside"),
    (b"crop 0 0 0 16 15", "picture"),
    (b"crop 0 0 0 4 4; crop 1 2 0 4 2", "CropOutside"),
    (b"fade 0 0 1 5 5; crop 1 4294967294 0 1 1", "CropOutside"),
];

#[test]
fn an_empty_trace_shares_the_picture(rt: HostRuntime) -> Result<(), Fail> {
    assert!(rt; shares(rt.alloc(), b"trim 0 0 9")?);
    Ok(())
}

/// Whether the first frame of a script is the picture that it is applied to.
fn shares(alloc: Global, text: &[u8]) -> Result<bool, Fail> {
    let picture = numbered(alloc, 7)?;
    let shared = first_frame(alloc, text, &picture)?;
    Ok(same(&shared, &picture))
}
