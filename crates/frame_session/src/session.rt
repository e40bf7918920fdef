ghost use Rattle.std.specs.Prelude.{◌≡◌, ◌<◌, ◌≤◌, IfOk, IfSome, OnErr, OnOk, is_ok, length, map, option_map, slice_get, slice_set};
ghost use Rattle.std.specs.List.{All};
ghost use Rattle.std.specs.Io.KnownBytes.{Appends};
ghost use Rattle.stream_files.specs.Texts.{written_text};
ghost use Rattle.packet_edits.specs.Saved.{packets_of, padded_packets_of, restamped};
ghost use Rattle.packet_edits.specs.Shown.{shown_indexes, stream_of};
ghost use Rattle.stream_steps.specs.Decoding.{outcomes};
ghost use Rattle.state_cache.specs.Costs.{Costs};
ghost use Rattle.state_cache.specs.Reaching.{OthersDrop, of_states};
ghost use Rattle.state_cache.specs.Walks.{IsWalk};
ghost use Rattle.frame_session.specs.Cached.{shown_counts_of, store_at, store_of_file};
ghost use Rattle.frame_session.specs.Sessions.{head_of_first, rate_of_first, spare_of};
ghost use Rattle.frame_session.specs.IsOrNoMemory.{IsOrNoMemory, IsFrameOrNoMemory};
ghost use Rattle.frame_session.specs.Edits.{EditAnswers, WrittenAnswers};

mod exports;
mod known;
mod origins;
mod questions;

use crate::keeping::{edit_cached, picture_at};
use crate::refusal::Refusal;
use crate::size::Size;
use arrayvec::ArrayVec;
pub use exports::ExportFault;
use packet_edits::{RestampFault, Store};
use packet_times::usual_duration;
use pixel_planes::{NoMemory, Picture};
use request_lines::{Edit, Hex};
use script_nodes::{Script, apply};
use session_questions::Lister;
use state_cache::{Cache, Capacity};
use std::alloc::Global;
use std::io::Write;
use std::marker::Model;
use stream_files::{FrameRate, Head, Stream, WriteFault};
use vp8_tables::Tables;

/// The sources, 1 to 8 streams, and the edits and script applied to them so far, with decoded states that
/// are cached between requests.
#[derive(Drop)]
pub struct Session {
    alloc: Global,
    tables: Tables,
    head: Head,
    frame_rate: FrameRate,
    stores: Vec<Store>,
    current: usize,
    script: Script,
    spare: u64,
    size: Option<Size>,
    cache: Cache,
    lister: Lister,
}

impl Model for Session {
    ghost use Rattle.frame_session.specs.Cached.{IsOpen, SessionValue, lists_of};

    ghost Value = { SessionValue };

    ghost view = { λ s. record { state = record { tables = s.tables; head = s.head; frame_rate = s.frame_rate; lists = lists_of s.stores.items; current = s.current; script = s.script; spare = s.spare; size = s.size; decoded = s.cache.decoded }; stores = s.stores.items; cache = s.cache } };

    ghost invariant = { λ s. IsOpen s.tables s.stores.items s.current s.cache s.lister };
}

impl Session {
    ghost use Rattle.frame_session.specs.Cached.{CacheWithout, FrameCosts, IsSession, begun, id_removed, lists_of, needs_picture, packet_of_frame, store_at, stores_after};
    ghost use Rattle.frame_session.specs.Edits.{list_at};
    ghost use Rattle.frame_session.specs.Told.{packet_len};
    ghost use Rattle.frame_session.specs.Sessions.{IsAfterFrame, choice_answer, current_list, edit_answer, now_after_choice, now_after_edit, now_after_script, fits, frame_count, frame_of, rate_due, packet_count, picture_from, script_answer, shown_counts, size_given};

    /// A session over the packets of 1 to 8 files, as of `within`, that caches at most so many decoded states, 1
    /// to 4,096.
    pub fn new(
        alloc: Global,
        tables: Tables,
        states: u16,
        files: Vec<Stream>,
    ) -> Result<Session, NoMemory>
        requires states { (1 ≤ states) × (states ≤ 4096) }
        requires sources { (1 ≤ length files.items) × (length files.items ≤ 8) }
        requires few { All (λ file. length file.packets ≤ 1048576) files.items }
        ensures { IfOk result (λ session. session ≡ begun tables (of_states states) files.items) }
    {
        Session::within(alloc, tables, Capacity::of_states(states), files)
    }

    /// A session over the packets of 1 to 8 files, at most 1,048,576 each: one source for each file, numbered
    /// from 0. `capacity` is that of the decoded states that are cached for all sources together, 1 to 4,096; the
    /// cache starts empty. The packets of each source get ids starting at 0, edits act on source 0, and the
    /// script is empty.
    ///
    /// `NoMemory` if out of memory for the packet lists or the cache.
    pub fn within(
        alloc: Global,
        tables: Tables,
        capacity: Capacity,
        files: Vec<Stream>,
    ) -> Result<Session, NoMemory>
        requires capacity { (1 ≤ capacity.states) × (capacity.states ≤ 4096) }
        requires sources { (1 ≤ length files.items) × (length files.items ≤ 8) }
        requires few { All (λ file. length file.packets ≤ 1048576) files.items }
        ensures { IfOk result (λ session. session ≡ begun tables capacity files.items) }
    {
        let Ok(cache) = Cache::new(alloc, capacity) else {
            return Err(NoMemory);
        };
        let head = head_of_first(&files);
        let frame_rate = rate_of_first(&files);
        let spare = spare_of(&files);
        let stores = stores_of(alloc, files)?;
        Ok(Session {
            alloc,
            tables,
            head,
            frame_rate,
            stores,
            current: 0,
            script: Script::empty(alloc),
            spare,
            size: None,
            cache,
            lister: Lister::new(alloc),
        })
    }

    /// The picture of the packet at index `place` of a source.
    fn decoded_at(&mut self, source: usize, place: usize) -> Result<Picture, Refusal>
        requires source { source < length self.old.stores }
        requires place { place < length (store_at self.old.stores source).list.entries }
        ensures returned { IsOrNoMemory (picture_from source (slice_get (outcomes self.old.state.tables (stream_of (list_at self.old.state.lists source))) place)) result }
        ensures after { self.new.state ≡ record self.old.state { decoded = self.new.state.decoded } }
        ensures packets { self.new.stores ≡ slice_set self.old.stores source (store_at self.new.stores source) }
        ensures others { OthersDrop source self.old.cache self.new.cache }
        ensures costs { Costs self.old.state.tables source (store_at self.old.stores source) self.old.cache place (is_ok result) (store_at self.new.stores source) self.new.cache }
        ensures walks { IsWalk self.old.state.tables source (store_at self.old.stores source) self.old.cache place (is_ok result) (store_at self.new.stores source) self.new.cache }
        ensures reached { needs_picture result ≡ is_ok result }
        ensures capacity { self.new.cache.capacity ≡ self.old.cache.capacity }
        ensures rises { self.old.state.decoded ≤ self.new.state.decoded }
    {
        picture_at(
            &self.tables,
            &mut self.stores,
            &mut self.cache,
            source,
            place,
        )
    }

    /// The number of shown packets of each source.
    fn shown_counts(&self) -> ArrayVec<u64, 8>
        ensures value { result.items ≡ shown_counts self.now.state }
        ensures few { All (λ count. count ≤ 1048576) result.items }
        ensures sources { length result.items ≡ length self.now.stores }
    {
        shown_counts(&self.stores)
    }

    /// The index of shown packet `frame` of a source, if there is one.
    fn shown_place(&self, source: usize, frame: u64) -> Option<usize>
        requires { source < length self.now.stores }
        ensures place { result ≡ slice_get (shown_indexes (stream_of (list_at self.now.state.lists source))) frame }
        ensures within { IfSome result (λ place. place < length (store_at self.now.stores source).list.entries) }
    {
        self.stores[source].shown(frame)
    }

    /// Whether a picture has the size of the stream, if that is fixed.
    fn fits(&self, size: Size) -> bool
        ensures { result ≡ fits self.now.state.size size }
    {
        match self.size {
            None => true,
            Some(fixed) => fixed == size,
        }
    }

    /// Frame `n` of the current script over the current shown packets of the sources, counted from 0. The
    /// picture's coded samples outside its shown size are left open.
    ///
    /// Refused as `NoSuchFrame` if the script serves fewer frames; `Packet` if the packet that the
    /// frame comes from is broken; `CropOutside` if a crop reaches past the size that it is applied to;
    /// `SizeDiffers` if the frame does not have the size of the first frame served, of whichever source; and
    /// `NoMemory`, instead of any of these but the first.
    pub fn frame(&mut self, n: u64) -> Result<Picture, Refusal>
        ensures returned { IsFrameOrNoMemory (frame_of self.old.state n) result }
        ensures after { IsAfterFrame self.old.state (size_given result) self.new.state }
        ensures costs { FrameCosts (packet_of_frame self.old.state n) self.old result self.new }
        ensures capacity { self.new.cache.capacity ≡ self.old.cache.capacity }
    {
        let counts = self.shown_counts();
        let Some((source, frame, trace)) = self.script.trace(&counts, n) else {
            return Err(Refusal::NoSuchFrame);
        };
        let Some(place) = self.shown_place(source, frame) else {
            return Err(Refusal::NoSuchFrame);
        };
        let picture = self.decoded_at(source, place)?;
        let made = match apply(self.alloc, &picture, &trace) {
            Ok(made) => made,
            Err(fault) => return Err(Refusal::by_apply(fault)),
        };
        let size = Size {
            width: made.width(),
            height: made.height(),
        };
        if !self.fits(size) {
            return Err(Refusal::SizeDiffers);
        }
        self.size = Some(size);
        Ok(made)
    }

    /// Chooses the source on which edits act from now on, and returns the number of its packets.
    ///
    /// Refused as `Source` if there is no such source: the current one remains then. What questions found is kept up to the choice
    /// of another source.
    pub fn choose(&mut self, source: u64) -> Result<u64, Refusal>
        ensures returned { result ≡ choice_answer self.old.state source }
        ensures after { self.new ≡ record self.old { state = now_after_choice source self.old.state } }
    {
        if source >= self.stores.len() as u64 {
            return Err(Refusal::Source);
        }
        if source as usize == self.current {
            return Ok(self.stores[self.current].len() as u64);
        }
        self.current = source as usize;
        self.lister = Lister::new(self.alloc);
        Ok(self.stores[self.current].len() as u64)
    }

    /// Sets the script that a text writes, and returns the number of packets of the current source.
    ///
    /// Refused as `Syntax`, `Nodes`, `Reference`, `Number` and then `NoMemory`, each over the whole
    /// text: the old script remains then.
    pub fn set_script(&mut self, text: &[u8]) -> Result<u64, Refusal>
        ensures returned { IsOrNoMemory (script_answer self.old.state text.now) result }
        ensures after { self.new ≡ record self.old { state = now_after_script text.now self.old.state result } }
    {
        match Script::parse(self.alloc, text, self.stores.len() as u64) {
            Ok(script) => {
                self.script = script;
                Ok(self.stores[self.current].len() as u64)
            }
            Err(fault) => Err(Refusal::by_script(fault)),
        }
    }

    /// Makes an edit of the current source's packets, and returns their new number. The other sources do not
    /// change.
    ///
    /// Refusals come in this order. An insertion: `Place` if `at` is above the number of packets, `Full` if
    /// there are 1,048,576 packets, `Spent` if no id is left, and `NoMemory`. A copy: `Source` if there is no
    /// such source, `Place` if it has no packet `from`, and then those of an insertion. A forged packet, after
    /// `Spent`: `Size` if no frame has the size, `TooLarge` if its first partition has more than 524,287
    /// bytes, and `NoMemory`, which may also come instead of `TooLarge`. A replacement: `Place` if there
    /// is no packet at `at`, and `Spent`. A change of a show bit: `Place` if there is no packet at `at`, `NoBit` if it has fewer than
    /// 3 bytes, and `NoMemory`. A deletion or a move: `Place` if there is no packet at one of its indices. A refused edit changes
    /// nothing.
    pub fn edit(&mut self, edit: Edit) -> Result<u64, Refusal>
        ensures returned { EditAnswers self.old.state.tables self.old.state.lists (current_list self.old.state) edit result }
        ensures after { self.new.state ≡ now_after_edit edit self.old.state result }
        ensures stores { self.new.stores ≡ stores_after self.old.state.tables self.old.state.current edit self.old.stores result }
        ensures cache { CacheWithout self.old.state.current (id_removed edit (current_list self.old.state) result) self.old.cache self.new.cache }
        ensures refused { OnErr result (self.new ≡ self.old) }
    {
        let edited = edit_cached(
            self.alloc,
            &self.tables,
            &mut self.stores,
            &mut self.cache,
            self.current,
            edit,
        );
        self.lister = Lister::new(self.alloc);
        edited
    }

    /// Makes an edit whose bytes are decoded only once nothing else is refused.
    pub(crate) fn edit_written(&mut self, edit: Edit<Hex<'_>>) -> Result<u64, Refusal>
        ensures returned { WrittenAnswers self.old.state.tables self.old.state.lists (current_list self.old.state) edit.entry result }
        ensures after { self.new.state ≡ now_after_edit edit.entry self.old.state result }
        ensures stores { self.new.stores ≡ stores_after self.old.state.tables self.old.state.current edit.entry self.old.stores result }
        ensures cache { CacheWithout self.old.state.current (id_removed edit.entry (current_list self.old.state) result) self.old.cache self.new.cache }
        ensures refused { OnErr result (self.new ≡ self.old) }
    {
        match edit {
            Edit::Insert { at, stamp, bytes } => {
                if let Err(fault) = self.stores[self.current].may_insert(at) {
                    return Err(Refusal::by(fault));
                }
                match bytes.read(self.alloc) {
                    Ok(bytes) => self.edit(Edit::Insert { at, stamp, bytes }),
                    Err(_) => Err(Refusal::NoMemory),
                }
            }
            Edit::Replace { at, bytes } => {
                if let Err(fault) = self.stores[self.current].may_replace(at) {
                    return Err(Refusal::by(fault));
                }
                match bytes.read(self.alloc) {
                    Ok(bytes) => self.edit(Edit::Replace { at, bytes }),
                    Err(_) => Err(Refusal::NoMemory),
                }
            }
            Edit::Delete { at } => self.edit(Edit::Delete { at }),
            Edit::Move { from, to } => self.edit(Edit::Move { from, to }),
            Edit::Copy { source, from, at } => self.edit(Edit::Copy { source, from, at }),
            Edit::Blank { at, width, height } => self.edit(Edit::Blank { at, width, height }),
            Edit::Hold { at } => self.edit(Edit::Hold { at }),
            Edit::ShowBit { at, shown } => self.edit(Edit::ShowBit { at, shown }),
        }
    }

    /// The number of packets of the current source, and the number of frames that the script serves.
    pub fn count(&self) -> (u64, u64)
        ensures packets { result.0 ≡ packet_count self.now.state }
        ensures frames { result.1 ≡ frame_count self.now.state }
    {
        let packets = self.stores[self.current].len() as u64;
        (packets, self.script.length(&self.shown_counts()))
    }

    /// The number of bytes of the packet at index `place` of a source, if there is one.
    pub fn packet_len(&self, source: usize, place: usize) -> Option<usize>
        ensures { result ≡ packet_len self.now.state source place }
    {
        if source < self.stores.len() {
            packet_len(&self.stores[source], place)
        } else {
            None
        }
    }

    /// The number of decoding steps made, whatever their result; at most 18,446,744,073,709,551,615.
    pub fn decoded(&self) -> u64
        ensures value { result ≡ self.now.state.decoded }
        ensures sound { IsSession self.now.state.tables self.now.stores self.now.state.current self.now.cache }
    {
        self.cache.decoded()
    }

    /// The frame rate of source 0, as long as no frame was served and the line that opens the frames is not written.
    pub(crate) fn rate_due(&self) -> Option<FrameRate>
        ensures { result ≡ rate_due self.now.state }
    {
        match self.size {
            None => Some(self.frame_rate),
            Some(_) => None,
        }
    }

    /// Writes the current packets of source 0 as an IVF file, with the head of its file. No memory is taken,
    /// and the session does not change.
    ///
    /// `Write` if the writer returns an error; part of the file may have been written.
    pub fn save<W: Write>(&self, w: &mut W) -> Result<(), WriteFault>
        ensures { OnOk result (Appends (W.contents w.old) (W.contents w.new) (written_text self.now.state.head (packets_of (list_at self.now.state.lists 0)))) }
    {
        self.stores[0].save(w, self.head)
    }

    /// Writes the current packets of source 0 as [`save`](Session::save) does, with a byte 00 after each
    /// packet whose last token partition is empty: it is decoded as before, and players that use libvpx
    /// show it too. No memory is taken, and the session does not change.
    ///
    /// `Write` if the writer returns an error; part of the file may have been written.
    pub fn save_padded<W: Write>(&self, w: &mut W) -> Result<(), WriteFault>
        ensures { OnOk result (Appends (W.contents w.old) (W.contents w.new) (written_text self.now.state.head (padded_packets_of (list_at self.now.state.lists 0)))) }
    {
        self.stores[0].save_padded(w, self.head)
    }

    /// Writes the current packets of source 0 as an IVF file with new time stamps, in the units of the head of its file:
    /// the first shown packet has time stamp 0, and each other one the time after the shown packets before it, or one more
    /// than the time stamp before it if that is greater. For the time the units of the durations are summed for each time
    /// base, and each sum is rounded half up. A hidden packet has the time stamp of the next shown one. A packet is shown
    /// for as long as in the file that it was read from, and any other packet for the median step of source 0. With `pads`
    /// packets are padded as in [`save_padded`](Session::save_padded). The session does not change.
    ///
    /// `Write` if the writer returns an error, and `NoMemory` if memory for the sums of the time bases is refused; part of
    /// the file may have been written.
    pub fn save_restamped<W: Write>(&self, w: &mut W, pads: bool) -> Result<(), RestampFault>
        ensures { OnOk result (Appends (W.contents w.old) (W.contents w.new) (written_text self.now.state.head (restamped pads self.now.state.head (list_at self.now.state.lists 0).entries))) }
    {
        self.stores[0].save_restamped(w, self.head, pads)
    }

    /// The number of trailing bytes after the last whole record of each file, of all files together.
    pub fn spare(&self) -> u64
        ensures { result ≡ self.now.state.spare }
    {
        self.spare
    }
}

/// The head of the first file.
fn head_of_first(files: &[Stream]) -> Head
    requires { 1 ≤ length files.now }
    ensures { result ≡ head_of_first files.now }
{
    files[0].head
}

/// The rate of the frames of the first file.
fn rate_of_first(files: &[Stream]) -> FrameRate
    requires { 1 ≤ length files.now }
    ensures { result ≡ rate_of_first files.now }
{
    files[0].frame_rate
}

/// The number of trailing bytes of all files, at most 18,446,744,073,709,551,615.
fn spare_of(files: &[Stream]) -> u64
    ensures { result ≡ spare_of files.now }
{
    let mut spare: u64 = 0;
    for file in files {
        spare = spare.saturating_add(file.spare);
    }
    spare
}

/// The packets of each file, with no mark.
fn stores_of(alloc: Global, files: Vec<Stream>) -> Result<Vec<Store>, NoMemory>
    requires { All (λ file. length file.packets ≤ 1048576) files.items }
    ensures { IfOk result (λ stores. stores.items ≡ map store_of_file files.items) }
{
    let mut stores = Vec::new(alloc);
    for file in files {
        let Ok(store) = store_of_file(alloc, file) else {
            return Err(NoMemory);
        };
        let Ok(()) = stores.push(store) else {
            return Err(NoMemory);
        };
    }
    Ok(stores)
}

/// The packets of a file, with no mark.
fn store_of_file(alloc: Global, file: Stream) -> Result<Store, NoMemory>
    requires { length file.packets ≤ 1048576 }
    ensures { IfOk result (λ store. store ≡ store_of_file file) }
{
    let usual = usual_duration(alloc, file.head, file.packets.as_slice())?;
    let mut store = Store::starting(alloc, 0, usual);
    match store.push_all(file.packets) {
        Ok(()) => Ok(store),
        Err(_) => Err(NoMemory),
    }
}

/// The number of shown packets of each of at most 8 sources.
fn shown_counts(stores: &[Store]) -> ArrayVec<u64, 8>
    requires { length stores.now ≤ 8 }
    ensures value { result.items ≡ shown_counts_of stores.now }
    ensures few { All (λ count. count ≤ 1048576) result.items }
{
    let mut counts = ArrayVec::new();
    for store in stores {
        counts.push(shown_count(store));
    }
    counts
}

/// The number of bytes of the packet at an index, if there is one.
fn packet_len(store: &Store, place: usize) -> Option<usize>
    ensures { result ≡ option_map length (slice_get (stream_of store.now.list) place) }
{
    if place < store.len() {
        Some(store.packet(place).len())
    } else {
        None
    }
}

/// The number of shown packets of a source.
fn shown_count(store: &Store) -> u64
    ensures value { result ≡ length (shown_indexes (stream_of store.now.list)) }
    ensures few { result ≤ 1048576 }
{
    store.prove_few();
    store.frames() as u64
}
