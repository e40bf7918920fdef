//! The frames of the script as a file.
ghost use Rattle.std.specs.Prelude.{◌≡◌, ◌<◌, IfErr, IfOk, IfSome};
ghost use Rattle.frame_session.specs.Exported.{IsExportFile};
ghost use Rattle.wokureti_c.specs.Exports.{IsExported, IsUnexported, Reports, ReportsRefusal, exported_text};

use crate::engine::Engine;
use crate::statuses::{CHANGED, MEMORY, OK, number_of_cut_fault, number_of_refusal};
use frame_session::{Export, ExportFault, Refusal, Session};
use std::alloc::Global;

/// Why the frames of the script are not exported: the first frame that is not, the number of the first node that changes
/// samples of it, or the packet that broke its source.
#[repr(C)]
#[derive(Drop)]
pub struct Unexported {
    pub frame: u64,
    pub node: u64,
    pub source: u64,
    pub packet: u64,
}

/// The number of a refusal of a frame. Its packet is reported if decoding refuses that.
fn report_refusal(refusal: Refusal, reported: &mut Unexported) -> u32
    ensures reported { ReportsRefusal refusal result reported.new }
    ensures frame { reported.new.frame ≡ reported.old.frame }
{
    if let Refusal::Packet { source, place, .. } = refusal {
        reported.source = source as u64;
        reported.packet = place as u64;
    }
    number_of_refusal(refusal)
}

/// The number of the error. What is known of the frame is reported.
fn report(fault: ExportFault, reported: &mut Unexported) -> u32
    ensures { Reports fault result reported.new }
{
    match fault {
        ExportFault::Frame { frame, refusal } => {
            reported.frame = frame;
            report_refusal(refusal, reported)
        }
        ExportFault::Changed { frame, node } => {
            reported.frame = frame;
            reported.node = node;
            CHANGED
        }
        ExportFault::Packets(fault) => number_of_cut_fault(fault),
    }
}

/// The export of the frames of a session, or the number of the error.
fn export_of(session: &Session, reported: &mut Unexported) -> Result<Export, u32>
    ensures file { IfOk result (IsExportFile session.now.state) }
    ensures refused { IfErr result (λ number. IsUnexported session.now.state number reported.new) }
    ensures number { IfErr result (λ number. 0 < number) }
{
    match session.export() {
        Ok(export) => Ok(export),
        Err(fault) => Err(report(fault, reported)),
    }
}

/// The file of an export, if there is memory for it.
fn text_of(alloc: Global, export: &Export) -> Option<Vec<u8>>
    ensures { IfSome result (λ text. text.items ≡ exported_text export.now) }
{
    let Ok(mut text) = Vec::with_capacity(alloc, export.bytes() as usize) else {
        return None;
    };
    match export.save(&mut text) {
        Ok(()) => Some(text),
        Err(_) => None,
    }
}

/// Writes the file of the frames of the script, which is the text afterwards: 0, or the number of the error. Nothing else changes.
pub fn export(alloc: Global, engine: &mut Engine, reported: &mut Unexported) -> u32
    ensures exported { result ≡ 0 → IsExported engine.old engine.new }
    ensures refused { 15 < result → IsUnexported engine.old.session.state result reported.new × (engine.new ≡ engine.old) }
    ensures memory { result ≡ 3 → engine.new ≡ engine.old }
{
    let export = match export_of(&engine.session, reported) {
        Ok(export) => export,
        Err(number) => return number,
    };
    let Some(text) = text_of(alloc, &export) else {
        return MEMORY;
    };
    engine.text = text;
    OK
}
