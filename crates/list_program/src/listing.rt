// The packets of a file, as lines or as JSON.
ghost use Rattle.std.specs.Prelude.{◌≡◌, IfErr, IfOk, OnOk};
ghost use Rattle.std.specs.Io.KnownBytes.{Appends};
ghost use Rattle.std.specs.Rc.{rc_slice_items};
ghost use Rattle.stream_sources.specs.Sources.{IsSource};
ghost use Rattle.list_program.specs.Lists.{ArePlaces, IsListed, IsListFault, listed_text};

use crate::fault::Fault;
use macroblock_lists::Form;
use std::alloc::{AllocError, Global};
use std::io::Write;
use std::rc::RcSlice;
use stream_facts::{Places, write_listing, write_objects};
use stream_files::{Packet, WriteFault};
use stream_sources::{Source, source_share};

/// Where the packets of a file are.
fn places_of(alloc: Global, bytes: &[u8], source: &Source) -> Result<Places, AllocError>
    requires { IsSource bytes.now source.now }
    ensures { IfOk result (ArePlaces bytes.now source.now.media) }
{
    match &source.media {
        None => Ok(Places::of_ivf(bytes)),
        Some(media) => {
            let begins = media.packet_places(alloc)?;
            Ok(Places::Listed(begins))
        }
    }
}

/// Writes a list of packets in this form.
fn write_form<O: Write>(
    output: &mut O,
    form: Form,
    places: &Places,
    packets: &[Packet],
) -> Result<(), WriteFault>
    ensures { OnOk result (Appends (O.contents output.old) (O.contents output.new) (listed_text form places.now packets.now)) }
{
    match form {
        Form::Lines => write_listing(output, places, packets),
        Form::Objects => write_objects(output, places, packets),
    }
}

/// Writes the list of the packets of a file, a line or a JSON object for each, and flushes the writer.
///
/// `NoMemory` if memory runs out: nothing is written then. `CannotWrite` if the writer returns an error.
pub fn list_to<O: Write>(
    alloc: Global,
    form: Form,
    bytes: &RcSlice<u8>,
    output: &mut O,
) -> Result<(), Fault<'static>>
    ensures listed { OnOk result (IsListed form (rc_slice_items bytes.now) (O.contents output.old) (O.contents output.new)) }
    ensures fault { IfErr result (IsListFault (rc_slice_items bytes.now) (O.contents output.old) (O.contents output.new)) }
{
    let source = match source_share(alloc, bytes) {
        Ok(source) => source,
        Err(fault) => return Err(Fault::Input(fault)),
    };
    let Ok(places) = places_of(alloc, bytes.as_slice(), &source) else {
        return Err(Fault::NoMemory);
    };
    let Ok(()) = write_form(output, form, &places, source.stream.packets.as_slice()) else {
        return Err(Fault::CannotWrite);
    };
    let Ok(()) = output.flush() else {
        return Err(Fault::CannotWrite);
    };
    Ok(())
}
