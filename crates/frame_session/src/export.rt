// The frames of a session as an IVF file.
ghost use Rattle.std.specs.Prelude.{◌≡◌, ◌≤◌, IfOk, OnOk, length, map, not};
ghost use Rattle.std.specs.Io.KnownBytes.{Appends};
ghost use Rattle.std.specs.List.{count_by};
ghost use Rattle.frame_header.specs.Tags.{is_shown};
ghost use Rattle.stream_files.specs.Texts.{record_text, records_text, written_text};
ghost use Rattle.frame_session.specs.ExportSizes.{padded_packet, record_bytes, saved_bytes};

use frame_header::{ends_empty, is_shown};
use std::io::Write;
use stream_files::{Head, Packet, Packets, WriteFault, ivf_packet, ivf_padded_packet, ivf_start};

/// The frames of a session as a file: its packets with their time stamps, and its head, which has the rate and scale of
/// source 0 and the size of the first frame, 0x0 if there is none.
#[derive(Debug, Drop)]
pub struct Export {
    pub head: Head,
    pub packets: Packets,
    ghost few: { length packets ≤ 1048576 },
}

/// The number of bytes of the record of a packet, padded if its last token partition is empty.
fn record_bytes(packet: &Packet) -> u64
    ensures { result ≡ record_bytes packet.now }
{
    let bytes = packet.bytes.as_slice();
    let added = if ends_empty(bytes) { 13 } else { 12 };
    (bytes.len() as u64).saturating_add(added)
}

/// The number of bytes of an IVF file of packets.
fn saved_bytes(packets: &[Packet]) -> u64
    ensures { result ≡ saved_bytes packets.now }
{
    let mut size: u64 = 32;
    for packet in packets {
        size = size.saturating_add(record_bytes(packet));
    }
    size
}

/// Writes the record of a packet, padded if its last token partition is empty.
fn write_record<W: Write>(w: &mut W, packet: &Packet) -> Result<(), WriteFault>
    ensures { OnOk result (Appends (W.contents w.old) (W.contents w.new) (record_text (padded_packet packet.now))) }
{
    let bytes = packet.bytes.as_slice();
    if ends_empty(bytes) {
        ivf_padded_packet(w, packet.stamp, bytes)
    } else {
        ivf_packet(w, packet.stamp, bytes)
    }
}

/// Writes the records of packets in sequence.
fn write_records<W: Write>(w: &mut W, packets: &[Packet]) -> Result<(), WriteFault>
    ensures { OnOk result (Appends (W.contents w.old) (W.contents w.new) (records_text (map padded_packet packets.now))) }
{
    for packet in packets {
        write_record(w, packet)?;
    }
    Ok(())
}

impl Export {
    /// The number of packets.
    pub fn len(&self) -> usize
        ensures { result ≡ length self.now.packets }
    {
        self.packets.len()
    }

    /// The number of hidden packets.
    pub fn hidden(&self) -> usize
        ensures { result ≡ count_by (λ packet. not (is_shown packet.bytes)) self.now.packets }
    {
        self.packets
            .as_slice()
            .iter()
            .filter(|packet| !is_shown(packet.bytes.as_slice()))
            .count()
    }

    /// The number of bytes of the file, at most 18,446,744,073,709,551,615, with its packets padded.
    pub fn bytes(&self) -> u64
        ensures { result ≡ saved_bytes self.now.packets }
    {
        saved_bytes(self.packets.as_slice())
    }

    /// Writes the file, with a byte 00 after each packet whose last token partition is empty, as by
    /// [`Session::save_padded`](crate::Session::save_padded): players that use libvpx do not show such a packet without the byte.
    /// No memory is taken.
    ///
    /// `Write` if the writer returns an error; part of the file may have been written.
    pub fn save<W: Write>(&self, w: &mut W) -> Result<(), WriteFault>
        ensures { OnOk result (Appends (W.contents w.old) (W.contents w.new) (written_text self.now.head (map padded_packet self.now.packets))) }
    {
        ivf_start(w, self.head, self.packets.len() as u32)?;
        write_records(w, self.packets.as_slice())
    }
}
