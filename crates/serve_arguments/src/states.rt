// What a cached picture takes.
ghost use Rattle.std.specs.Prelude.{◌≡◌, ◌<◌, ◌≤◌, ◌^◌, IfErr, IfOk, OnOk};
ghost use Rattle.std.specs.Io.KnownBytes.{Appends};
ghost use Rattle.stream_sources.specs.Sources.{IsStream};
ghost use Rattle.stream_files.specs.declared.streams.Stream.{Stream};
ghost use Rattle.stream_facts.specs.Facts.{first_key_size};
ghost use Rattle.serve_arguments.specs.CachedStates.{cache_report, cache_text, picture_bytes, planes_bytes};
ghost use Rattle.stream_steps.specs.PlaneBytes.{plane_bytes};

use crate::capacities::Capacity;
use crate::fault::Fault;
use pixel_planes::macroblocks;
use std::alloc::Global;
use std::io::{self, ErrorKind, Write};
use stream_facts::first_key_size;
use stream_files::FileBytes;
use stream_sources::{StreamFault, stream_read_from};

/// The number of samples around a plane at each side.
const BORDER: u64 = 32;

/// The bytes of a plane of these sides with its border.
fn plane_bytes(width: u64, height: u64) -> u64
    requires { (width ≤ 65536) × (height ≤ 65536) }
    ensures value { result ≡ plane_bytes width height }
    ensures some { 0 < result }
    ensures few { result < 2 ^ 33 }
{
    (width + 2 * BORDER) * (height + 2 * BORDER)
}

/// The bytes of the three planes of so many macroblocks.
fn planes_bytes(columns: u64, rows: u64) -> u64
    requires { (columns ≤ 4096) × (rows ≤ 4096) }
    ensures value { result ≡ planes_bytes columns rows }
    ensures some { 0 < result }
{
    plane_bytes(16 * columns, 16 * rows) + 2 * plane_bytes(8 * columns, 8 * rows)
}

/// The bytes of a picture of this shown width and height: three planes of whole macroblocks, each with a border of 32 samples.
fn picture_bytes(size: (u16, u16)) -> u64
    ensures value { result ≡ picture_bytes size }
    ensures some { 0 < result }
{
    planes_bytes(macroblocks(size.0) as u64, macroblocks(size.1) as u64)
}

/// The size of the first key packet of a file that has one. `None` too if the bytes are no stream; `NoMemory`.
fn key_size_in<B: FileBytes>(
    alloc: Global,
    stream: &B,
) -> Result<Option<(u16, u16)>, Fault<'static>>
    ensures size { IfOk result (λ size. (file : Stream) → IsStream (B.bytes stream.now) file → size ≡ first_key_size file.packets) }
    ensures fault { IfErr result (λ fault. fault ≡ Fault.NoMemory) }
{
    match stream_read_from(alloc, stream) {
        Ok(file) => Ok(first_key_size(file.packets.as_slice())),
        Err(fault) => match fault {
            StreamFault::NoMemory => Err(Fault::NoMemory),
            _ => Ok(None),
        },
    }
}

/// Reports what a state takes, if as many steps were decoded as states are cached.
fn write_cache<E: Write>(
    states: u16,
    size: Option<(u16, u16)>,
    decoded: u64,
    errors: &mut E,
) -> io::Result<()>
    ensures { OnOk result (Appends (E.contents errors.old) (E.contents errors.new) (cache_text states size decoded)) }
{
    match size {
        Some(size) if u64::from(states) <= decoded => writeln!(
            errors,
            "cache: {states} states of {} bytes each",
            picture_bytes(size)
        ),
        _ => Ok(()),
    }
}

/// Reports what the picture of a cached state takes after a run that made as many decoding steps as states are cached, if IN has these
/// bytes, borrowed or shared, and the capacity is a number of states.
///
/// An error of `errors`, or out of memory for the packets of IN.
pub fn report_cache<B: FileBytes, E: Write>(
    alloc: Global,
    capacity: Capacity,
    stream: &B,
    decoded: u64,
    errors: &mut E,
) -> io::Result<()>
    ensures { OnOk result ((file : Stream) → IsStream (B.bytes stream.now) file → Appends (E.contents errors.old) (E.contents errors.new) (cache_report capacity (first_key_size file.packets) decoded)) }
{
    let Capacity::States(states) = capacity else {
        return Ok(());
    };
    let Ok(size) = key_size_in(alloc, stream) else {
        return Err(ErrorKind::OutOfMemory.into());
    };
    write_cache(states, size, decoded, errors)
}
