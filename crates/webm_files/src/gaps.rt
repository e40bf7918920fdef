// Gaps of a file, and the elements that are kept whole.
ghost use Rattle.std.specs.Prelude.{◌≡◌, ◌++◌, ◌↔◌, ◌∷◌, [], drop, IfOk, IsTrue, OnOk, if◌then◌else◌};
ghost use Rattle.webm_files.specs.Clusters.{timeless_at, waits_after};
ghost use Rattle.webm_files.specs.Gaps.{HasGaps};
ghost use Rattle.webm_files.specs.Kept.{gap_between, is_kept};

use super::elements::Element;
use super::ids::{CLUSTER, TIMESTAMP, is_block, is_kept};
use super::walks::{is_cut, next_element};
use std::alloc::{AllocError, Global};

/// A gap of a file: the positions where bytes that are read as no element begin and end.
#[derive(Clone, Copy, Debug, PartialEq, Eq)]
pub struct Gap {
    pub start: usize,
    pub end: usize,
}

/// The gaps of a file and the number of bytes in them, the elements that are kept whole, the clusters without a time, and
/// whether the end of the file cuts an element.
#[derive(Drop)]
pub(crate) struct Gaps {
    pub(crate) gaps: Vec<Gap>,
    pub(crate) parts: Vec<Element>,
    pub(crate) timeless: Vec<usize>,
    pub(crate) spare: u64,
    pub(crate) is_cut: bool,
}

/// Adds the bytes between two positions, if there are any.
fn push_gap(gaps: &mut Vec<Gap>, start: usize, end: usize) -> Result<(), AllocError>
    ensures { OnOk result (gaps.new.items ≡ gaps.old.items ++ gap_between start end) }
{
    if start < end {
        gaps.push(Gap { start, end })?;
    }
    Ok(())
}

/// Adds an element if it is kept.
fn push_part(parts: &mut Vec<Element>, element: Element) -> Result<(), AllocError>
    ensures { OnOk result (parts.new.items ≡ parts.old.items ++ (if is_kept element.id then element ∷ [] else [])) }
{
    if is_kept(element.id) {
        parts.push(element)?;
    }
    Ok(())
}

/// Where the cluster begins whose time may still come.
fn waits_after(waits: Option<usize>, element: &Element) -> Option<usize>
    ensures { result ≡ waits_after waits element.now }
{
    if element.id == CLUSTER {
        return Some(element.place);
    }
    if element.id == TIMESTAMP || is_block(element.id) {
        return None;
    }
    waits
}

/// Adds the cluster whose time may still come if a block comes first.
fn push_timeless(
    timeless: &mut Vec<usize>,
    waits: Option<usize>,
    element: &Element,
) -> Result<(), AllocError>
    ensures { OnOk result (timeless.new.items ≡ timeless.old.items ++ timeless_at waits element.now) }
{
    if let Some(place) = waits {
        if is_block(element.id) {
            timeless.push(place)?;
        }
    }
    Ok(())
}

/// Reads the gaps of a file, the elements that are kept whole, and the clusters without a time.
pub(crate) fn read_gaps(alloc: Global, bytes: &[u8]) -> Result<Gaps, AllocError>
    ensures { IfOk result (HasGaps bytes.now) }
{
    let mut gaps = Vec::new(alloc);
    let mut parts = Vec::new(alloc);
    let mut timeless = Vec::new(alloc);
    let mut waits = None;
    let mut spare = 0;
    let mut at = 0;
    'elements: while let Some(element) = next_element(bytes, at) {
        push_gap(&mut gaps, at, element.place)?;
        push_part(&mut parts, element)?;
        push_timeless(&mut timeless, waits, &element)?;
        waits = waits_after(waits, &element);
        spare += (element.place - at) as u64;
        at = element.end;
    }
    push_gap(&mut gaps, at, bytes.len())?;
    spare += (bytes.len() - at) as u64;
    Ok(Gaps {
        gaps,
        parts,
        timeless,
        spare,
        is_cut: is_cut(&bytes[at..]),
    })
}
