// The export of the frames of a session.
ghost use Rattle.std.specs.Prelude.{◌≡◌, IfErr, IfOk, IfSome, is_some};
ghost use Rattle.frame_session.specs.Exported.{IsExportFile};
ghost use Rattle.serve_program.specs.Endings.{IsExportFault, fault_by_cut, fault_by_export, fault_by_refusal};

use frame_session::{CutFault, Export, ExportFault, Refusal, Session};
use serve_arguments::{Fault, NotExported, Words};

/// A session after the last request, and the export of its frames if one is asked for.
#[derive(Drop)]
pub struct Answered {
    pub session: Session,
    pub export: Option<Export>,
}

/// The error of a frame that is refused, for the user.
fn refusal_fault(frame: u64, refusal: Refusal) -> Fault<'static>
    ensures { result ≡ fault_by_refusal frame refusal }
{
    match refusal {
        Refusal::Packet {
            source,
            place,
            cause,
        } => Fault::NotExported(NotExported::Broken {
            frame,
            source,
            place,
            cause,
        }),
        Refusal::CropOutside => Fault::NotExported(NotExported::CropOutside { frame }),
        _ => Fault::NoMemory,
    }
}

/// The error of packets that are not made, for the user.
fn cut_fault(fault: CutFault) -> Fault<'static>
    ensures { result ≡ fault_by_cut fault }
{
    match fault {
        CutFault::Full => Fault::NotExported(NotExported::Full),
        CutFault::Place | CutFault::Size | CutFault::TooLarge => {
            Fault::NotExported(NotExported::NoHold)
        }
        CutFault::NoMemory => Fault::NoMemory,
    }
}

/// The error of an export for the user.
fn export_fault(fault: ExportFault) -> Fault<'static>
    ensures { result ≡ fault_by_export fault }
{
    match fault {
        ExportFault::Frame { frame, refusal } => refusal_fault(frame, refusal),
        ExportFault::Changed { frame, node } => {
            Fault::NotExported(NotExported::Changed { frame, node })
        }
        ExportFault::Packets(fault) => cut_fault(fault),
    }
}

/// The export of the frames of a session.
#[tactic(auto, using(crate::proofs::Unexported::export_refused))]
fn export_of(session: &Session) -> Result<Export, Fault<'static>>
    ensures file { IfOk result (IsExportFile session.now.state) }
    ensures fault { IfErr result (IsExportFault session.now.state) }
{
    match session.export() {
        Ok(export) => Ok(export),
        Err(fault) => Err(export_fault(fault)),
    }
}

/// Exports the frames of a session, if the arguments ask for it. The session is as it was.
pub fn with_export(session: Session, words: Words<'_>) -> Result<Answered, Fault<'static>>
    ensures session { IfOk result (λ done. done.session ≡ session) }
    ensures asked { IfOk result (λ done. is_some done.export ≡ is_some words.entry.exported) }
    ensures file { IfOk result (λ done. IfSome done.export (IsExportFile session.state)) }
    ensures fault { IfErr result (IsExportFault session.state) }
{
    if words.exported.is_none() {
        return Ok(Answered {
            session,
            export: None,
        });
    }
    let export = export_of(&session)?;
    Ok(Answered {
        session,
        export: Some(export),
    })
}
