//! The packets of any source as a file.
ghost use Rattle.std.specs.Prelude.{◌≡◌, ◌++◌, IfSome, OnOk, false};
ghost use Rattle.stream_files.specs.Texts.{written_text};
ghost use Rattle.wokureti_c.specs.Saves.{IsSavedSource, head_at, is_source, saved_packets};

use crate::engine::Engine;
use crate::statuses::{MEMORY, OK, SOURCE};
use packet_edits::Store;
use std::alloc::Global;
use stream_files::{Head, WriteFault};

/// Writes packets as an IVF file with this head, padded or not, with new time stamps or their own.
fn write_list(
    w: &mut Vec<u8>,
    list: &Store,
    head: Head,
    pads: bool,
    restamps: bool,
) -> Result<(), WriteFault>
    ensures { OnOk result (w.new.items ≡ w.old.items ++ written_text head (saved_packets pads restamps head list.now.list)) }
{
    if restamps {
        list.save_restamped(w, head, pads)
            .map_err(|_| WriteFault::Write)
    } else if pads {
        list.save_padded(w, head)
    } else {
        list.save(w, head)
    }
}

/// The file of packets, if there is memory for it.
fn text_of(alloc: Global, list: &Store, head: Head, pads: bool, restamps: bool) -> Option<Vec<u8>>
    ensures { IfSome result (λ text. text.items ≡ written_text head (saved_packets pads restamps head list.now.list)) }
{
    let mut text = Vec::new(alloc);
    match write_list(&mut text, list, head, pads, restamps) {
        Ok(()) => Some(text),
        Err(_) => None,
    }
}

/// The head of the file of a source; all fields are 0 if there is no such source.
fn head_at(heads: &[Head], source: usize) -> Head
    ensures { result ≡ head_at heads.now source }
{
    match heads.get(source) {
        Some(head) => *head,
        None => Head {
            width: 0,
            height: 0,
            rate: 0,
            scale: 0,
        },
    }
}

/// Writes the file of the packets of a source, which is the text afterwards: 0, or the number of the error.
pub fn save_source(
    alloc: Global,
    engine: &mut Engine,
    source: usize,
    pads: bool,
    restamps: bool,
) -> u32
    ensures saved { result ≡ 0 → IsSavedSource engine.old source pads restamps engine.new }
    ensures absent { result ≡ 17 → (is_source engine.old source ≡ false) × (engine.new ≡ engine.old) }
    ensures memory { result ≡ 3 → engine.new ≡ engine.old }
{
    let Some(list) = engine.session.list(source) else {
        return SOURCE;
    };
    let head = head_at(engine.heads.as_slice(), source);
    let Some(text) = text_of(alloc, list, head, pads, restamps) else {
        return MEMORY;
    };
    engine.text = text;
    OK
}
