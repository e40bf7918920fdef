ghost use Rattle.std.specs.Prelude.{◌≡◌, ◌≤◌, false, length, IsTrue, IsSome, IfOk};
ghost use Rattle.std.specs.Option.{option_copied};
ghost use Rattle.frame_header.specs.Start.{key_start, later_start, start_of};
ghost use Rattle.frame_header.specs.Tags.{has_key_tag};

use crate::cause::Cause;
use crate::context::Context;
use crate::tag_fields::Tag;
use crate::tags::{has_start_code, size_of, tag};

/// The facts about a frame before its first partition is read.
#[derive(Clone, Copy)]
pub(crate) struct Start {
    pub(crate) tag: Tag,
    pub(crate) place: usize,
    pub(crate) width: u16,
    pub(crate) height: u16,
}

fn key_start(tag: Tag, packet: &[u8]) -> Result<Start, Cause>
    requires { 10 ≤ length packet.now }
    ensures value { result ≡ key_start tag packet.now }
    ensures tag { IfOk result (λ start. start.tag ≡ tag) }
    ensures place { IfOk result (λ start. start.place ≡ 10) }
    ensures wide { IfOk result (λ start. (1 ≤ start.width) × (start.width ≤ 16383)) }
    ensures high { IfOk result (λ start. (1 ≤ start.height) × (start.height ≤ 16383)) }
{
    if !has_start_code(packet) {
        return Err(Cause::StartCode);
    }
    let (width, height) = size_of(packet);
    if width == 0 || height == 0 {
        return Err(Cause::Size);
    }
    Ok(Start {
        tag,
        place: 10,
        width,
        height,
    })
}

fn later_start(tag: Tag, context: Option<&Context>) -> Result<Start, Cause>
    ensures value { result ≡ later_start tag (option_copied context.entry) }
    ensures place { IfOk result (λ start. start.place ≡ 3) }
    ensures following { IfOk result (λ start. IsSome (option_copied context.entry)) }
    ensures tag { IfOk result (λ start. start.tag ≡ tag) }
{
    if context.is_none() {
        return Err(Cause::NoKeyFrame);
    }
    Ok(Start {
        tag,
        place: 3,
        width: 0,
        height: 0,
    })
}

/// The facts about a frame before its first partition is read, or the first of the causes from
/// `ShortPacket` to `NoKeyFrame`.
pub(crate) fn start_of(context: Option<&Context>, packet: &[u8]) -> Result<Start, Cause>
    ensures value { result ≡ start_of (option_copied context.entry) packet.now }
    ensures following { IfOk result (λ start. start.place ≤ length packet.now) }
    ensures key { IfOk result (λ start. start.tag.key ≡ has_key_tag packet.now) }
    ensures whole { IfOk result (λ start. IsTrue start.tag.key → 10 ≤ length packet.now) }
    ensures context { IfOk result (λ start. start.tag.key ≡ false → IsSome (option_copied context.entry)) }
    ensures wide { IfOk result (λ start. IsTrue start.tag.key → (1 ≤ start.width) × (start.width ≤ 16383)) }
    ensures high { IfOk result (λ start. IsTrue start.tag.key → (1 ≤ start.height) × (start.height ≤ 16383)) }
{
    let tag = tag(packet).ok_or(Cause::ShortPacket)?;
    if tag.key && packet.len() < 10 {
        return Err(Cause::ShortPacket);
    }
    if tag.version > 3 {
        return Err(Cause::Version);
    }
    if tag.key {
        key_start(tag, packet)
    } else {
        later_start(tag, context)
    }
}
