//! Decoding of a stream, one packet after another.

ghost use Rattle.std.specs.Prelude.{◌≡◌, ◌+◌, ◌^◌, ◌<◌, IfOk, None, OnOk};
ghost use Rattle.std.specs.Option.{option_copied, option_map};
ghost use Rattle.reference_frames.specs.Steps.{step_of};
ghost use Rattle.stream_steps.specs.Decoding.{left_by, outcome, reported_at};
ghost use Rattle.stream_checks.specs.Frames.{frame_of};

use frame_header::{has_key_tag, is_shown};
use pixel_planes::{NoMemory, Picture, Recycled};
use reference_frames::{State, StepFault, step_with};
use std::alloc::Global;
use stream_files::Packet;
use stream_steps::Broken;
use vp8_tables::Tables;

/// A position between two packets of a stream: the number of packets before it, and what they
/// left: a state, no state yet, or a broken stream.
#[derive(Drop)]
pub(crate) struct Decoding {
    alloc: Global,
    place: usize,
    progress: Result<Option<State>, Broken>,
    // The planes of an earlier picture, for the next one.
    recycled: Recycled,
}

/// The picture of a packet that decodes and the state after it, or the break of the stream.
type Outcome = Result<(State, Picture), Broken>;

/// The outcome of the packet at an index, by the state before it.
fn step_at(
    alloc: Global,
    tables: &Tables,
    recycled: &mut Recycled,
    place: usize,
    state: Option<&State>,
    packet: &[u8],
) -> Result<Outcome, NoMemory>
    ensures { IfOk result (λ found. found ≡ reported_at place (step_of tables.now (option_copied state.entry) packet.now)) }
{
    match step_with(alloc, tables, recycled, state, packet) {
        Ok(decoded) => Ok(Ok(decoded)),
        Err(StepFault::Refused(cause)) => Ok(Err(Broken { place, cause })),
        Err(StepFault::NoMemory) => Err(NoMemory),
    }
}

impl Decoding {
    /// The position before the first packet.
    pub fn new(alloc: Global) -> Decoding
        ensures place { result.place ≡ 0 }
        ensures progress { result.progress ≡ Ok None }
    {
        Decoding {
            alloc,
            place: 0,
            progress: Ok(None),
            recycled: Recycled::new(),
        }
    }

    /// The outcome of a packet.
    fn outcome(&mut self, tables: &Tables, packet: &[u8]) -> Result<Outcome, NoMemory>
        ensures found { IfOk result (λ found. found ≡ outcome tables.now self.old.place self.old.progress packet.now) }
        ensures place { self.new.place ≡ self.old.place }
        ensures progress { self.new.progress ≡ self.old.progress }
    {
        if has_key_tag(packet) {
            return step_at(
                self.alloc,
                tables,
                &mut self.recycled,
                self.place,
                None,
                packet,
            );
        }
        match &self.progress {
            Ok(state) => step_at(
                self.alloc,
                tables,
                &mut self.recycled,
                self.place,
                state.as_ref(),
                packet,
            ),
            Err(broken) => Ok(Err(*broken)),
        }
    }

    /// Goes to the position after a packet that left `progress`. Planes of the state before it that
    /// nothing else shares become the recycled ones.
    fn pass(&mut self, progress: Result<Option<State>, Broken>)
        requires { self.old.place + 1 < 2 ^ 64 }
        ensures place { self.new.place ≡ self.old.place + 1 }
        ensures progress { self.new.progress ≡ progress }
    {
        let before = std::mem::replace(&mut self.progress, progress);
        if let Ok(Some(state)) = before {
            state.drop_into(&mut self.recycled);
        }
        self.place += 1;
    }

    /// Decodes the next packet. Its picture, if it is shown and decodes.
    pub fn next(&mut self, tables: &Tables, packet: &Packet) -> Result<Option<Picture>, NoMemory>
        requires { self.old.place + 1 < 2 ^ 64 }
        ensures frame { IfOk result (λ shown. option_map (λ picture. record { stamp = packet.now.stamp; picture = picture }) shown ≡ frame_of packet.now (outcome tables.now self.old.place self.old.progress packet.now.bytes)) }
        ensures place { OnOk result (self.new.place ≡ self.old.place + 1) }
        ensures progress { OnOk result (self.new.progress ≡ left_by (outcome tables.now self.old.place self.old.progress packet.now.bytes)) }
    {
        let bytes = packet.bytes.as_slice();
        match self.outcome(tables, bytes)? {
            Ok((state, picture)) => {
                self.pass(Ok(Some(state)));
                if is_shown(bytes) {
                    Ok(Some(picture))
                } else {
                    self.recycled.put(picture);
                    Ok(None)
                }
            }
            Err(broken) => {
                self.pass(Err(broken));
                Ok(None)
            }
        }
    }

    /// Drops the picture of a packet. Its planes become the recycled ones if nothing else shares them.
    pub fn put(&mut self, picture: Picture)
        ensures place { self.new.place ≡ self.old.place }
        ensures progress { self.new.progress ≡ self.old.progress }
    {
        self.recycled.put(picture);
    }
}
