//! The state that packets leave for the packets after them (RFC 6386, section 9).

ghost use Rattle.std.specs.Prelude.{◌≡◌, IfOk, IsTrue, ◌↔◌};
ghost use Rattle.reference_frames.specs.States.{HasMap, HaveOneSize, IsState};

use crate::comparison::{same_bytes, same_context};
use crate::references::References;
use frame_header::Context;
use pixel_planes::{NoMemory, Recycled};
use std::alloc::Global;
use std::marker::Model;
use std::rc::Rc;

/// The state that packets leave for the packets after them: the context of the last header, the
/// segment of each macroblock, and the references, which all have the size of the frames to come.
#[derive(Debug, Drop)]
pub struct State {
    context: Context,
    segment_map: Rc<Vec<u8>>,
    references: References,
}

impl Model for State {
    ghost use Rattle.reference_frames.specs.States.{StateValue, IsState};

    ghost Value = { StateValue };

    ghost view = { λ s. record { context = s.context; segment_map = s.segment_map.value.items; references = s.references } };

    ghost invariant = { λ s. IsState (record { context = s.context; segment_map = s.segment_map.value.items; references = s.references }) };
}

impl State {
    /// The state that a frame leaves.
    pub(crate) fn new(
        alloc: Global,
        context: Context,
        segment_map: Vec<u8>,
        references: References,
    ) -> Result<State, NoMemory>
        requires { IsState (record { context = context; segment_map = segment_map.items; references = references }) }
        ensures { IfOk result (λ s. s ≡ record { context = context; segment_map = segment_map.items; references = references }) }
    {
        Ok(State {
            context,
            segment_map: Rc::new(alloc, segment_map)?,
            references,
        })
    }

    /// The context that the last header left.
    pub fn context(&self) -> &Context
        ensures { result.now ≡ self.now.context }
    {
        &self.context
    }

    /// The segment of each macroblock, in raster order.
    pub fn segment_map(&self) -> &[u8]
        ensures value { result.now ≡ self.now.segment_map }
        ensures whole { HasMap self.now }
    {
        &self.segment_map
    }

    /// The references.
    pub fn references(&self) -> &References
        ensures value { result.now ≡ self.now.references }
        ensures one_size { HaveOneSize result.now }
    {
        &self.references
    }

    /// A second share of the same state, which takes no memory. `NoMemory` if the share count of
    /// one of its parts is at its maximum.
    pub fn again(&self) -> Result<State, NoMemory>
        ensures { IfOk result (λ s. s ≡ self.now) }
    {
        Ok(State {
            context: self.context,
            segment_map: self.segment_map.clone()?,
            references: self.references.again()?,
        })
    }

    /// Drops the state. Planes of its references that no other picture shares are recycled, of at most
    /// two pictures.
    pub fn drop_into(self, recycled: &mut Recycled) {
        let State {
            context: _,
            segment_map,
            references,
        } = self;
        drop(segment_map);
        let References {
            last,
            golden,
            altref,
        } = references;
        recycled.put(last);
        recycled.put(golden);
        recycled.put(altref);
    }
}

/// Whether two states are the same in every field and every sample of every reference.
pub fn same_state(a: &State, b: &State) -> bool
    ensures { IsTrue result ↔ (a.now ≡ b.now) }
{
    same_context(&a.context, &b.context)
        && same_bytes(&a.segment_map, &b.segment_map)
        && a.references.same(&b.references)
}
