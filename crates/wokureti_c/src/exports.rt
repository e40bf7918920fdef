//! The calls of the library.
ghost use Rattle.std.specs.Prelude.{◌≡◌, ◌<◌, None, Some, false, length as count};
ghost use Rattle.frame_session.specs.Cached.{of_bytes, of_states};
ghost use Rattle.wokureti_c.specs.Calls.{IsAnswered, IsExplained, IsRefused, IsSaved, IsServed, IsTooLarge, KeepsRest, Over};
ghost use Rattle.wokureti_c.specs.Exports.{IsExported, IsUnexported};
ghost use Rattle.wokureti_c.specs.Openings.{IsNotOpened, IsOpened, files_in};
ghost use Rattle.wokureti_c.specs.Rooms.{with_bytes};
ghost use Rattle.wokureti_c.specs.Saves.{IsSavedSource, is_source};
ghost use Rattle.wokureti_c.specs.Statuses.{version_number};
ghost use Rattle.wokureti_c.specs.declared.engine.Engine.{Engine};

use crate::engine::Engine;
use crate::exporting::{Unexported, export};
use crate::frames::{Fault, Shown, show};
use crate::handle::{Handle, put, take};
use crate::opening::{Opened, open};
use crate::requests::{answer, explain, save};
use crate::rooms::copy;
use crate::saving::save_source;
use crate::statuses::{CLOSED, MEMORY, OK};
use frame_session::Capacity;
use std::alloc::Global;

/// The version of the library, 0.16.0: 10,000 times the first number, 100 times the second, and the third.
#[unsafe(no_mangle)]
pub extern "C" fn wk_version() -> u32
    ensures { result ≡ version_number 0 16 0 }
{
    1600
}

/// Ends the session of a handle, if it holds one. The handle holds nothing afterwards.
#[unsafe(no_mangle)]
pub extern "C" fn wk_close(handle: &mut Handle, alloc: Global)
    ensures { handle.new.held ≡ None }
{
    let engine = take(handle, alloc);
    drop(engine);
}

/// Puts what was opened into a handle. `MEMORY` if out of memory; the handle is unchanged then.
fn hold(handle: &mut Handle, alloc: Global, opened: Opened) -> u32
    ensures held { result ≡ 0 → (engine : Engine) × (handle.new.held ≡ Some engine) × (engine.session ≡ opened.session) × (engine.heads ≡ opened.heads) }
    ensures memory { 0 < result → (result ≡ 3) × (handle.new.held ≡ handle.old.held) }
{
    let Opened { session, heads } = opened;
    let engine = Engine {
        session,
        heads,
        text: Vec::new(alloc),
        answered: 0,
        refused: None,
    };
    let Ok(engine) = Box::new(alloc, engine) else {
        return MEMORY;
    };
    put(handle, engine);
    OK
}

/// Opens a session over one to eight IVF files, which lie one after the other in `files`, each up to its end in
/// `ends`. `states`, 1 to 4,096, is the most decoded states that are cached. No bytes of tables are those of RFC
/// 6386. What the handle held is ended first; it holds nothing afterwards unless the result is 0.
#[unsafe(no_mangle)]
pub extern "C" fn wk_open(
    handle: &mut Handle,
    alloc: Global,
    files: &[u8],
    ends: &[usize],
    states: u16,
    tables: &[u8],
    reported: &mut Fault,
) -> u32
    ensures opened { result ≡ 0 → (engine : Engine) × (handle.new.held ≡ Some engine) × IsOpened (files_in files.now ends.now) (of_states states) tables.now engine }
    ensures refused { 0 < result → IsNotOpened files.now ends.now states tables.now result reported.new }
    ensures closed { 0 < result → handle.new.held ≡ None }
{
    wk_close(handle, alloc);
    match open(alloc, files, ends, Capacity::of_states(states), tables) {
        Ok(opened) => hold(handle, alloc, opened),
        Err(fault) => fault.report(reported),
    }
}

/// Opens a session as `wk_open` does, with a limit in bytes: the pictures of the cached states, four for each, take at
/// most `bytes`, or are those of the newest state alone. At most 4,096 states are cached.
#[unsafe(no_mangle)]
pub extern "C" fn wk_open_bytes(
    handle: &mut Handle,
    alloc: Global,
    files: &[u8],
    ends: &[usize],
    bytes: u64,
    tables: &[u8],
    reported: &mut Fault,
) -> u32
    ensures opened { result ≡ 0 → (engine : Engine) × (handle.new.held ≡ Some engine) × IsOpened (files_in files.now ends.now) (of_bytes bytes) tables.now engine }
    ensures refused { 0 < result → IsNotOpened files.now ends.now 4096 tables.now result reported.new }
    ensures closed { 0 < result → handle.new.held ≡ None }
{
    wk_close(handle, alloc);
    match open(alloc, files, ends, Capacity::of_bytes(bytes), tables) {
        Ok(opened) => hold(handle, alloc, opened),
        Err(fault) => fault.report(reported),
    }
}

/// Puts the three planes of frame `n` of the current script into rooms of the caller's, whose rows lie the strides
/// of `shown` apart. Its size is reported, also where there is too little room.
#[unsafe(no_mangle)]
pub extern "C" fn wk_frame(
    handle: &mut Handle,
    alloc: Global,
    n: u64,
    y: &mut [u8],
    cb: &mut [u8],
    cr: &mut [u8],
    shown: &mut Shown,
) -> u32
    ensures served { result ≡ 0 → Over handle.old.held handle.new.held (λ old new. IsServed old.session n shown.old shown.new (record { y = y.old; cb = cb.old; cr = cr.old }) (record { y = y.new; cb = cb.new; cr = cr.new }) new.session) }
    ensures room { result ≡ 5 → Over handle.old.held handle.new.held (λ old new. IsTooLarge old.session n shown.new (record { y = y.old; cb = cb.old; cr = cr.old }) (record { y = y.new; cb = cb.new; cr = cr.new }) new.session) }
    ensures refused { 15 < result → Over handle.old.held handle.new.held (λ old new. IsRefused old.session n result shown.new (record { y = y.old; cb = cb.old; cr = cr.old }) (record { y = y.new; cb = cb.new; cr = cr.new }) new.session) }
    ensures rest { KeepsRest handle.old.held handle.new.held }
    ensures closed { handle.old.held ≡ None → (result ≡ 4) × (handle.new.held ≡ None) }
{
    let Some(mut engine) = take(handle, alloc) else {
        return CLOSED;
    };
    let status = show(&mut engine.session, n, y, cb, cr, shown);
    put(handle, engine);
    status
}

/// Answers a request line. Its reply, as `vp8serve --live` writes it, is the text of the handle afterwards; the bytes of a
/// frame go nowhere.
#[unsafe(no_mangle)]
pub extern "C" fn wk_request(
    handle: &mut Handle,
    alloc: Global,
    line: &[u8],
    length: &mut usize,
) -> u32
    ensures answered { result ≡ 0 → Over handle.old.held handle.new.held (λ old new. IsAnswered old line.now new × (length.new ≡ count new.text.items)) }
    ensures memory { result ≡ 3 → handle.new.held ≡ handle.old.held }
    ensures closed { handle.old.held ≡ None → (result ≡ 4) × (handle.new.held ≡ None) }
{
    let Some(mut engine) = take(handle, alloc) else {
        return CLOSED;
    };
    let status = answer(alloc, &mut engine, line);
    *length = engine.text.len();
    put(handle, engine);
    status
}

/// Writes why the last request line was refused, as `vp8serve --explain` does, which is the text of the handle afterwards: nothing if it was
/// answered otherwise, or if there was no memory to keep the line.
#[unsafe(no_mangle)]
pub extern "C" fn wk_why(handle: &mut Handle, alloc: Global, length: &mut usize) -> u32
    ensures explained { result ≡ 0 → Over handle.old.held handle.new.held (λ old new. IsExplained old new × (length.new ≡ count new.text.items)) }
    ensures memory { result ≡ 3 → handle.new.held ≡ handle.old.held }
    ensures closed { handle.old.held ≡ None → (result ≡ 4) × (handle.new.held ≡ None) }
{
    let Some(mut engine) = take(handle, alloc) else {
        return CLOSED;
    };
    let status = explain(alloc, &mut engine);
    *length = engine.text.len();
    put(handle, engine);
    status
}

/// Writes the packets of source 0 as an IVF file, which is the text of the handle afterwards; with `pads` with
/// a byte 00 after each packet whose last token partition is empty.
#[unsafe(no_mangle)]
pub extern "C" fn wk_save(handle: &mut Handle, alloc: Global, pads: bool, length: &mut usize) -> u32
    ensures saved { result ≡ 0 → Over handle.old.held handle.new.held (λ old new. IsSaved old pads new × (length.new ≡ count new.text.items)) }
    ensures memory { result ≡ 3 → handle.new.held ≡ handle.old.held }
    ensures closed { handle.old.held ≡ None → (result ≡ 4) × (handle.new.held ≡ None) }
{
    let Some(mut engine) = take(handle, alloc) else {
        return CLOSED;
    };
    let status = save(alloc, &mut engine, pads);
    *length = engine.text.len();
    put(handle, engine);
    status
}

/// Writes the packets of a source as an IVF file, which is the text of the handle afterwards: padded with `pads` as by `wk_save`, and with
/// `restamps` with new time stamps, by which each shown packet is shown for as long as in its file.
#[unsafe(no_mangle)]
pub extern "C" fn wk_save_source(
    handle: &mut Handle,
    alloc: Global,
    source: usize,
    pads: bool,
    restamps: bool,
    length: &mut usize,
) -> u32
    ensures saved { result ≡ 0 → Over handle.old.held handle.new.held (λ old new. IsSavedSource old source pads restamps new × (length.new ≡ count new.text.items)) }
    ensures absent { result ≡ 17 → Over handle.old.held handle.new.held (λ old new. (is_source old source ≡ false) × (new ≡ old)) }
    ensures memory { result ≡ 3 → handle.new.held ≡ handle.old.held }
    ensures closed { handle.old.held ≡ None → (result ≡ 4) × (handle.new.held ≡ None) }
{
    let Some(mut engine) = take(handle, alloc) else {
        return CLOSED;
    };
    let status = save_source(alloc, &mut engine, source, pads, restamps);
    *length = engine.text.len();
    put(handle, engine);
    status
}

/// Writes the frames of the current script as an IVF file, without coding and without decoding, which is the text of the handle
/// afterwards. A byte 00 follows each packet whose last token partition is empty, whatever `_pads` is. If a frame cannot be exported,
/// it is reported why, and nothing changes.
#[unsafe(no_mangle)]
pub extern "C" fn wk_export(
    handle: &mut Handle,
    alloc: Global,
    _pads: bool,
    length: &mut usize,
    reported: &mut Unexported,
) -> u32
    ensures exported { result ≡ 0 → Over handle.old.held handle.new.held (λ old new. IsExported old new × (length.new ≡ count new.text.items)) }
    ensures refused { 15 < result → Over handle.old.held handle.new.held (λ old new. IsUnexported old.session.state result reported.new × (new ≡ old)) }
    ensures memory { result ≡ 3 → Over handle.old.held handle.new.held (λ old new. new ≡ old) }
    ensures closed { handle.old.held ≡ None → (result ≡ 4) × (handle.new.held ≡ None) }
{
    let Some(mut engine) = take(handle, alloc) else {
        return CLOSED;
    };
    let status = export(alloc, &mut engine, reported);
    *length = engine.text.len();
    put(handle, engine);
    status
}

/// Copies the text that the last request, save or export left to the front of a room, and reports its length, also where there is
/// too little room.
#[unsafe(no_mangle)]
pub extern "C" fn wk_text(
    handle: &mut Handle,
    alloc: Global,
    room: &mut [u8],
    length: &mut usize,
) -> u32
    ensures text { result ≡ 0 → Over handle.old.held handle.new.held (λ old new. (new ≡ old) × (room.new ≡ with_bytes 0 old.text.items room.old) × (length.new ≡ count old.text.items)) }
    ensures room { result ≡ 5 → (handle.new.held ≡ handle.old.held) × (room.new ≡ room.old) }
    ensures closed { handle.old.held ≡ None → (result ≡ 4) × (handle.new.held ≡ None) }
{
    let Some(engine) = take(handle, alloc) else {
        return CLOSED;
    };
    *length = engine.text.len();
    let status = copy(engine.text.as_slice(), room);
    put(handle, engine);
    status
}
