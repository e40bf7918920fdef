// The lines of packets.
ghost use Rattle.std.specs.Prelude.{◌≡◌, ◌+◌, ◌≤◌, IfSome, OnOk, length};
ghost use Rattle.std.specs.List.{concat};
ghost use Rattle.std.specs.Io.KnownBytes.{Appends};
ghost use Rattle.vp8_tables.specs.Tables.{TableEntries};
ghost use Rattle.session_questions.specs.Kept.{IsListed, IsLister};
ghost use Rattle.session_questions.specs.Lines.{lines_from};
ghost use Rattle.session_questions.specs.Places.{position_at};

use crate::lister::Lister;
use crate::places::position_before;
use packet_edits::Store;
use std::io::Write;
use stream_facts::{Position, write_object};
use stream_files::WriteFault;

/// Writes the lines of `count` packets, the first of which has the index `first` and comes after this position.
fn write_from<W: Write>(
    w: &mut W,
    store: &Store,
    position: Position,
    first: usize,
    count: usize,
) -> Result<(), WriteFault>
    requires within { first + count ≤ length store.now.list.entries }
    requires position { position ≡ position_at store.now.list first }
    ensures { OnOk result (Appends (W.contents w.old) (W.contents w.new) (concat (lines_from store.now.list first count))) }
{
    let mut position = position;
    store.prove_few();
    for at in first..first + count {
        let facts = position.next_of(store.stamp(at), store.packet(at));
        write_object(w, facts)?;
    }
    Ok(())
}

impl Lister {
    /// Writes a line for each of `count` packets, the first of which has the index `first`: a JSON object with its facts, as `vp8list
    /// --json` writes it of the file to which the packets are saved. Only headers are read: those of these packets, and those from the
    /// last accepted key packet before them on, or from the packet on with which the last question for lines began, if that is nearer or
    /// sooner done.
    ///
    /// `Write` if the writer returns an error; part of the lines may have been written.
    pub fn write_lines<W: Write>(
        &mut self,
        w: &mut W,
        store: &Store,
        first: usize,
        count: usize,
    ) -> Result<(), WriteFault>
        requires within { first + count ≤ length store.now.list.entries }
        requires kept { IfSome self.old.listed (IsListed store.now.list) }
        ensures written { OnOk result (Appends (W.contents w.old) (W.contents w.new) (concat (lines_from store.now.list first count))) }
        ensures kept { (tables : TableEntries) → IsLister tables store.now.list self.old → IsLister tables store.now.list self.new }
    {
        let position = position_before(store, self.listed, first);
        self.listed = Some(position);
        write_from(w, store, position, first, count)
    }
}
