//! Texts that calls leave in an engine: the reply to a request line, why it was refused, and the file of the packets.
ghost use Rattle.std.specs.Prelude.{◌≡◌, IfSome, Some};
ghost use Rattle.wokureti_c.specs.Calls.{IsAnswered, IsExplained, IsSaved};

use crate::engine::{Engine, RefusedLine};
use crate::statuses::{LOST, MEMORY, OK};
use explanations::{detail_of, write_refused};
use frame_session::{Refusal, answer_line};
use std::alloc::Global;
use std::io::sink;

/// Room for the longest reply to an edit or a frame.
const REPLY_ROOM: usize = 96;

/// A line that was refused, if it was and there is memory for a copy of it.
fn kept(alloc: Global, number: u64, line: &[u8], refusal: Option<Refusal>) -> Option<RefusedLine>
    ensures { IfSome result (λ kept. (kept.number ≡ number) × (kept.line.items ≡ line.now) × (refusal ≡ Some kept.refusal)) }
{
    let refusal = refusal?;
    let Ok(line) = Vec::from_slice(alloc, line) else {
        return None;
    };
    Some(RefusedLine {
        number,
        line,
        refusal,
    })
}

/// Answers a request line. Its reply is the text afterwards; the bytes of a frame are not kept.
pub fn answer(alloc: Global, engine: &mut Engine, line: &[u8]) -> u32
    ensures answered { result ≡ 0 → IsAnswered engine.old line.now engine.new }
    ensures memory { result ≡ 3 → engine.new ≡ engine.old }
{
    let Ok(mut text) = Vec::with_capacity(alloc, REPLY_ROOM) else {
        return MEMORY;
    };
    engine.answered = engine.answered.saturating_add(1);
    engine.refused = None;
    match answer_line(&mut engine.session, line, &mut sink(), &mut text) {
        Ok(refusal) => {
            engine.refused = kept(alloc, engine.answered, line, refusal);
            engine.text = text;
            OK
        }
        Err(_) => LOST,
    }
}

/// Writes why the last line was refused, which is the text afterwards: nothing if it was not.
pub fn explain(alloc: Global, engine: &mut Engine) -> u32
    ensures explained { result ≡ 0 → IsExplained engine.old engine.new }
    ensures memory { result ≡ 3 → engine.new ≡ engine.old }
{
    let mut text = Vec::new(alloc);
    if let Some(asked) = &engine.refused {
        let line = asked.line.as_slice();
        let detail = detail_of(&engine.session, line, asked.refusal);
        if write_refused(&mut text, asked.number, line, detail, asked.refusal).is_err() {
            return MEMORY;
        }
    }
    engine.text = text;
    OK
}

/// Writes the file of the packets of source 0, which is the text afterwards.
pub fn save(alloc: Global, engine: &mut Engine, pads: bool) -> u32
    ensures saved { result ≡ 0 → IsSaved engine.old pads engine.new }
    ensures memory { result ≡ 3 → engine.new ≡ engine.old }
{
    let mut text = Vec::new(alloc);
    let saved = if pads {
        engine.session.save_padded(&mut text)
    } else {
        engine.session.save(&mut text)
    };
    match saved {
        Ok(()) => {
            engine.text = text;
            OK
        }
        Err(_) => MEMORY,
    }
}
