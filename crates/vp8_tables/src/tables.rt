ghost use Rattle.std.specs.Prelude.{◌≡◌, ◌<◌, length, slice_index};
ghost use Rattle.vp8_tables.specs.Rfc.{rfc_entries};
ghost use Rattle.vp8_tables.specs.Tables.{flat_entries, entries_of, coefficient_index, key_sub_index, key_sub_nodes_of};

use crate::fault::TableFault;
use crate::rfc;
use std::marker::Model;

const COEFFICIENTS: usize = 1056;

const KEY_SUBS: usize = 900;

/// The default coefficient probabilities and the coefficient update probabilities, each of
/// 4 kinds, 8 bands, 3 contexts and 11 nodes (RFC 6386, section 13), and the key frame sub mode
/// probabilities of 10 modes above, 10 modes to the left and 9 nodes (section 11).
#[derive(Clone, Drop)]
pub struct Tables {
    coefficients: [u8; 1056],
    updates: [u8; 1056],
    key_subs: [u8; 900],
}

impl Model for Tables {
    ghost use Rattle.vp8_tables.specs.Tables.{TableEntries};

    ghost Value = { TableEntries };

    ghost view = { λ t. record { coefficients = t.coefficients; updates = t.updates; key_subs = t.key_subs } };
}

impl Tables {
    /// Tables whose every entry is 128.
    pub fn flat() -> Tables
        ensures { result ≡ flat_entries }
    {
        Tables {
            coefficients: [128; COEFFICIENTS],
            updates: [128; COEFFICIENTS],
            key_subs: [128; KEY_SUBS],
        }
    }

    /// The tables that RFC 6386 prints, in sections 13.5, 13.4 and 11.5.
    #[tactic(auto, unfolding(crate::specs::Rfc::rfc_entries))]
    pub fn rfc() -> Tables
        ensures { result ≡ rfc_entries }
    {
        Tables {
            coefficients: rfc::COEFFICIENTS,
            updates: rfc::UPDATES,
            key_subs: rfc::KEY_SUBS,
        }
    }

    /// The tables whose entries are the bytes of a text, in index order: coefficients, updates, key
    /// sub modes. `Length` if it does not have 3,012 bytes.
    pub fn read(bytes: &[u8]) -> Result<Tables, TableFault>
        ensures { result ≡ entries_of bytes.now }
    {
        if bytes.len() != 2 * COEFFICIENTS + KEY_SUBS {
            return Err(TableFault::Length);
        }
        let (first, rest) = bytes.split_at(COEFFICIENTS);
        let (second, third) = rest.split_at(COEFFICIENTS);
        let mut coefficients = [0; COEFFICIENTS];
        coefficients.copy_from_slice(first);
        let mut updates = [0; COEFFICIENTS];
        updates.copy_from_slice(second);
        let mut key_subs = [0; KEY_SUBS];
        key_subs.copy_from_slice(third);
        Ok(Tables {
            coefficients,
            updates,
            key_subs,
        })
    }

    /// The default probability of a token node: `kind` below 4, `band` below 8, `context` below 3
    /// and `node` below 11 (RFC 6386, section 13.5).
    pub fn coefficient(&self, kind: usize, band: usize, context: usize, node: usize) -> u8
        requires kind { kind < 4 }
        requires band { band < 8 }
        requires context { context < 3 }
        requires node { node < 11 }
        ensures { result ≡ slice_index self.now.coefficients (coefficient_index kind band context node) }
    {
        self.coefficients[((kind * 8 + band) * 3 + context) * 11 + node]
    }

    /// The probability that a frame updates the probability of a token node: ranges as in
    /// `coefficient` (RFC 6386, section 13.4).
    pub fn update(&self, kind: usize, band: usize, context: usize, node: usize) -> u8
        requires kind { kind < 4 }
        requires band { band < 8 }
        requires context { context < 3 }
        requires node { node < 11 }
        ensures { result ≡ slice_index self.now.updates (coefficient_index kind band context node) }
    {
        self.updates[((kind * 8 + band) * 3 + context) * 11 + node]
    }

    /// The probability of a node of the sub mode tree in a key frame: `above` and `left`, the
    /// modes there, below 10, and `node` below 9 (RFC 6386, section 11.5).
    pub fn key_sub(&self, above: usize, left: usize, node: usize) -> u8
        requires above { above < 10 }
        requires left { left < 10 }
        requires node { node < 9 }
        ensures { result ≡ slice_index self.now.key_subs (key_sub_index above left node) }
    {
        self.key_subs[(above * 10 + left) * 9 + node]
    }

    /// All default coefficient probabilities in index order: kind by band by context by node
    /// (RFC 6386, section 13.5).
    pub fn coefficients(&self) -> &[u8; 1056]
        ensures { result.now ≡ self.now.coefficients }
    {
        &self.coefficients
    }

    /// All coefficient update probabilities in index order: kind by band by context by node
    /// (RFC 6386, section 13.4).
    pub fn updates(&self) -> &[u8; 1056]
        ensures { result.now ≡ self.now.updates }
    {
        &self.updates
    }

    /// All key frame sub mode probabilities in index order: mode above by mode to the left by node
    /// (RFC 6386, section 11.5).
    pub fn key_subs(&self) -> &[u8; 900]
        ensures { result.now ≡ self.now.key_subs }
    {
        &self.key_subs
    }

    /// The 9 probabilities of the sub mode tree in a key frame, one for each node: `above` and
    /// `left`, the modes there, below 10 (RFC 6386, section 11.5).
    #[inline]
    pub fn key_sub_nodes(&self, above: usize, left: usize) -> &[u8]
        requires above { above < 10 }
        requires left { left < 10 }
        ensures value { result.now ≡ key_sub_nodes_of self.now above left }
        ensures len { length result.now ≡ 9 }
    {
        let start = (above * 10 + left) * 9;
        &self.key_subs[start..start + 9]
    }
}
