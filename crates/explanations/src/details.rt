// The numbers that explain a refusal.
ghost use Rattle.std.specs.Prelude.{◌≡◌, ◌≤◌};
ghost use Rattle.frame_session.specs.Sessions.{packet_count};
ghost use Rattle.request_lines.specs.Requests.{asked_by};
ghost use Rattle.explanations.specs.Details.{IsDetail, IsSizeDetail, IsUnsized, bit_detail, bytes_detail, copy_detail, edit_detail, frame_detail, no_packet_of, past_end_of, place_detail, question_detail, side_detail, sizes_detail, sizes_of};

use frame_session::{Refusal, Session, Size};
use pixel_planes::is_side;
use request_lines::{Edit, Hex, Line, Question, read_line};

/// The numbers that explain a refusal, if it has such numbers.
#[derive(Clone, Copy, Debug, PartialEq, Eq)]
pub enum Detail {
    Nothing,
    /// The number of bytes of the packet that is broken, or that has no show bit.
    Bytes(usize),
    /// There is no packet `at` in a source of `count` packets.
    NoPacket { at: u64, source: u64, count: u64 },
    /// Nothing can be inserted at index `at` of a source of `count` packets.
    PastEnd { at: u64, source: u64, count: u64 },
    /// The width of a blank packet.
    Width(u64),
    /// The height of a blank packet.
    Height(u64),
    /// No packet before this index has a key tag.
    NoKey(u64),
    /// Packet `key` is the last one with a key tag before an index, and has no size.
    NoSize { key: usize, at: u64 },
    /// There is no frame `n` among `count`.
    NoFrame { n: u64, count: u64 },
    /// The size of the frame, and of the first one that was served.
    Sizes { asked: (u16, u16), first: Size },
}

/// The packet of the current source that does not exist.
fn no_packet_of(session: &Session, at: u64) -> Detail
    ensures { result ≡ no_packet_of session.now.state at }
{
    Detail::NoPacket {
        at,
        source: session.current() as u64,
        count: session.count().0,
    }
}

/// The index of the current source at which nothing can be inserted.
fn past_end_of(session: &Session, at: u64) -> Detail
    ensures { result ≡ past_end_of session.now.state at }
{
    Detail::PastEnd {
        at,
        source: session.current() as u64,
        count: session.count().0,
    }
}

/// The packet that a copy does not find, or the index that it does not.
fn copy_detail(session: &Session, source: u64, from: u64, at: u64) -> Detail
    ensures { result ≡ copy_detail session.now.state source from at }
{
    let count = session.packets_in(source);
    if from < count {
        past_end_of(session, at)
    } else {
        Detail::NoPacket {
            at: from,
            source,
            count,
        }
    }
}

/// Which index of an edit has no packet.
fn edit_detail(session: &Session, edit: &Edit<Hex<'_>>) -> Detail
    ensures { result ≡ edit_detail session.now.state edit.now }
{
    match edit {
        Edit::Insert { at, .. } | Edit::Blank { at, .. } | Edit::Hold { at } => {
            past_end_of(session, *at)
        }
        Edit::Replace { at, .. } | Edit::Delete { at } | Edit::ShowBit { at, .. } => {
            no_packet_of(session, *at)
        }
        Edit::Move { from, to } => {
            let missing = if *from < session.count().0 {
                *to
            } else {
                *from
            };
            no_packet_of(session, missing)
        }
        Edit::Copy { source, from, at } => copy_detail(session, *source, *from, *at),
    }
}

/// Which packet of a question does not exist.
fn question_detail(session: &Session, question: Question) -> Detail
    ensures { result ≡ question_detail session.now.state question }
{
    match question {
        Question::Packet { at } | Question::Macroblocks { at } | Question::Header { at } => {
            no_packet_of(session, at)
        }
        Question::List { first, .. } | Question::Check { first, .. } => past_end_of(session, first),
        Question::Script | Question::Origins { .. } => Detail::Nothing,
    }
}

/// Which index of a request has no packet.
fn place_detail(session: &Session, line: &Line<'_>) -> Detail
    ensures { result ≡ place_detail session.now.state line.now }
{
    match line {
        Line::Edit(edit) => edit_detail(session, edit),
        Line::Ask(question) => question_detail(session, *question),
        _ => Detail::Nothing,
    }
}

/// The frame of a request that does not exist, and how many there are.
fn frame_detail(session: &Session, line: &Line<'_>) -> Detail
    ensures { result ≡ frame_detail session.now.state line.now }
{
    match line {
        Line::Frame(n) => Detail::NoFrame {
            n: *n,
            count: session.count().1,
        },
        Line::Ask(Question::Origins { first, .. }) => Detail::NoFrame {
            n: *first,
            count: session.count().1,
        },
        _ => Detail::Nothing,
    }
}

/// The size of a frame, and of the first one that was served.
fn sizes_of(asked: Option<(u16, u16)>, first: Option<Size>) -> Detail
    ensures { result ≡ sizes_of asked first }
{
    match (asked, first) {
        (Some(asked), Some(first)) => Detail::Sizes { asked, first },
        (Some(_), None) | (None, _) => Detail::Nothing,
    }
}

fn sizes_detail(session: &Session, line: &Line<'_>) -> Detail
    ensures { result ≡ sizes_detail session.now.state line.now }
{
    match line {
        Line::Frame(n) => sizes_of(session.stated_size(*n), session.first_size()),
        _ => Detail::Nothing,
    }
}

/// Which side is not allowed.
fn side_detail(width: u64, height: u64) -> Detail
    ensures { result ≡ side_detail width height }
{
    if is_side(width) {
        Detail::Height(height)
    } else {
        Detail::Width(width)
    }
}

/// Why there is no size before an index.
fn unsized_detail(session: &Session, at: u64) -> Detail
    ensures { at ≤ packet_count session.now.state → IsUnsized session.now.state at result }
{
    match session.key_before(at) {
        None => Detail::NoKey(at),
        Some(key) => Detail::NoSize { key, at },
    }
}

/// Why a request has no size.
fn size_detail(session: &Session, line: &Line<'_>) -> Detail
    ensures { IsSizeDetail session.now.state line.now result }
{
    match line {
        Line::Edit(Edit::Blank { width, height, .. }) => side_detail(*width, *height),
        Line::Edit(Edit::Hold { at }) => unsized_detail(session, *at),
        _ => Detail::Nothing,
    }
}

/// The number of bytes of a packet that has no show bit.
fn bit_detail(session: &Session, line: &Line<'_>) -> Detail
    ensures { result ≡ bit_detail session.now.state line.now }
{
    match line {
        Line::Edit(Edit::ShowBit { at, .. }) => {
            bytes_detail(session.packet_len(session.current(), *at as usize))
        }
        _ => Detail::Nothing,
    }
}

/// The number of bytes of a packet that is broken.
fn bytes_detail(count: Option<usize>) -> Detail
    ensures { result ≡ bytes_detail count }
{
    match count {
        Some(count) => Detail::Bytes(count),
        None => Detail::Nothing,
    }
}

/// The numbers that explain the refusal of a line by this session. Nothing is decoded.
pub fn detail_of(session: &Session, line: &[u8], refusal: Refusal) -> Detail
    ensures { IsDetail session.now.state (asked_by line.now) refusal result }
{
    let request = read_line(line).unwrap_or(Line::Unknown);
    match refusal {
        Refusal::Place => place_detail(session, &request),
        Refusal::NoBit => bit_detail(session, &request),
        Refusal::Size => size_detail(session, &request),
        Refusal::NoSuchFrame => frame_detail(session, &request),
        Refusal::SizeDiffers => sizes_detail(session, &request),
        Refusal::Packet { source, place, .. } => bytes_detail(session.packet_len(source, place)),
        _ => Detail::Nothing,
    }
}
