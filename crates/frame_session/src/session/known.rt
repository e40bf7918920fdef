// What is known of a session, to explain why a request was refused.
ghost use Rattle.std.specs.Prelude.{◌≡◌, ◌<◌, ◌≤◌, IfSome, is_some, length, nat_lt};
ghost use Rattle.packet_edits.specs.Nearest.{IsLast};
ghost use Rattle.packet_edits.specs.Shown.{stream_of};
ghost use Rattle.packet_edits.specs.Sizes.{key_tag_at};
ghost use Rattle.frame_session.specs.Cached.{packet_of_frame};
ghost use Rattle.frame_session.specs.Sessions.{current_list};
ghost use Rattle.frame_session.specs.Told.{packets_in, stated_size};

use super::Session;
use crate::size::Size;
use packet_edits::Store;

impl Session {
    ghost use Rattle.frame_session.specs.Edits.{list_at};

    /// The source on which edits act.
    pub fn current(&self) -> usize
        ensures { result ≡ self.now.state.current }
    {
        self.current
    }

    /// The packets of a source, if there is such a source.
    pub fn list(&self, source: usize) -> Option<&Store>
        ensures list { IfSome result (λ list. list.now.list ≡ list_at self.now.state.lists source) }
        ensures there { is_some result ≡ nat_lt source (length self.now.state.lists) }
    {
        if source < self.stores.len() {
            Some(&self.stores[source])
        } else {
            None
        }
    }

    /// The number of packets of a source; 0 if there is no such source.
    pub fn packets_in(&self, source: u64) -> u64
        ensures { result ≡ packets_in self.now.state source }
    {
        if source < self.stores.len() as u64 {
            self.stores[source as usize].len() as u64
        } else {
            0
        }
    }

    /// The index of the last packet before `at` of the current source that has a key tag, if one has.
    pub fn key_before(&self, at: u64) -> Option<usize>
        ensures { at ≤ length (current_list self.now.state).entries → IsLast (key_tag_at (stream_of (current_list self.now.state))) 0 at result }
    {
        let store = &self.stores[self.current];
        if at <= store.len() as u64 {
            store.last_key(at as usize)
        } else {
            None
        }
    }

    /// The size of the first frame that was served, if one was.
    pub fn first_size(&self) -> Option<Size>
        ensures { result ≡ self.now.state.size }
    {
        self.size
    }

    /// The source and the index of the packet that frame `n` of the current script comes from, if there is such a frame.
    pub fn packet_of(&self, n: u64) -> Option<(usize, usize)>
        ensures packet { result ≡ packet_of_frame self.now.state n }
        ensures source { IfSome result (λ packet. packet.0 < length self.now.state.lists) }
        ensures within { IfSome result (λ packet. packet.1 < length (list_at self.now.state.lists packet.0).entries) }
    {
        let (source, frame, _) = self.script.trace(&self.shown_counts(), n)?;
        let place = self.shown_place(source, frame)?;
        Some((source, place))
    }

    /// The size of frame `n` of the current script, from the last key packet up to its own and the crops; `None` if
    /// there is no such frame, if the key packet has no size, or if a crop reaches past the edge. Nothing is decoded.
    pub fn stated_size(&self, n: u64) -> Option<(u16, u16)>
        ensures { result ≡ stated_size self.now.state n }
    {
        let (source, frame, trace) = self.script.trace(&self.shown_counts(), n)?;
        let place = self.shown_place(source, frame)?;
        let store = &self.stores[source];
        store.prove_few();
        let (width, height) = store.size_at(place as u64 + 1)?;
        trace.size(width, height).ok()
    }
}
