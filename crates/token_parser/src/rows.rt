//! The probabilities of tokens as bits are read with them.

ghost use Rattle.std.specs.Prelude.{◌≡◌, ◌+◌, ◌<◌, ◌≤◌, length, map, slice_index, slice_range};
ghost use Rattle.bool_coder.specs.Odds.{odds_of};
ghost use Rattle.bool_coder.specs.Reader.{read};
ghost use Rattle.token_parser.specs.Rows.{row_of};
ghost use Rattle.token_parser.specs.Tokens.{nodes_at};

use crate::places::row_start;
use bool_coder::{Decoder, Odds};
use std::marker::Model;

/// The odds of the 11 nodes of the token tree. Contracts see their probabilities.
#[derive(Drop)]
pub(crate) struct Nodes<'a> {
    odds: &'a [Odds; 11],
}

impl<'a> Model for Nodes<'a> {
    ghost use Rattle.std.specs.Prelude.{◌≡◌, ℕ, List, length, map};
    ghost use Rattle.std.specs.List.{All};
    ghost use Rattle.bool_coder.specs.Odds.{AreOdds, prob_in};

    ghost Value = { List ℕ };

    ghost view = { λ nodes. map prob_in nodes.odds.now };

    ghost invariant = { λ nodes. (length nodes.odds.now ≡ 11) × All AreOdds nodes.odds.now };
}

impl<'a> Nodes<'a> {
    /// Reads the bit of a node.
    #[inline(always)]
    pub(crate) fn bit(&self, reader: &mut Decoder, node: usize) -> bool
        requires { node < 11 }
        ensures { read (slice_index self.now node) reader.old ≡ (result, reader.new) }
    {
        reader.bit_by(self.odds[node])
    }
}

/// The odds of the nodes in a context.
#[derive(Clone, Copy)]
struct Context {
    odds: [Odds; 11],
}

/// Those in the 3 contexts of an index of a kind of block.
#[derive(Clone, Copy)]
struct Row {
    contexts: [Context; 3],
}

/// The odds of the probabilities of tokens, which are made once a frame: a row for each of the 16 indices of each
/// of the 4 kinds of blocks. Contracts see the probabilities.
#[derive(Drop)]
pub struct Rows {
    probs: [u8; 1056],
    rows: [Row; 64],
}

impl Model for Rows {
    ghost use Rattle.std.specs.Prelude.{ℕ, List};
    ghost use Rattle.bool_coder.specs.Chains.{AreProbabilities};
    ghost use Rattle.token_parser.specs.Rows.{AreRows};

    ghost Value = { List ℕ };

    ghost view = { λ rows. rows.probs };

    ghost invariant = { λ rows. AreProbabilities rows.probs × AreRows 64 rows.probs rows.rows };
}

/// The odds of the 11 probabilities from `start` on.
#[inline]
fn context_at(probs: &[u8; 1056], start: usize) -> Context
    requires { start + 11 ≤ 1056 }
    ensures { result.odds ≡ map odds_of (slice_range probs.now start (start + 11)) }
{
    let mut odds = [Odds::of(0); 11];
    for node in 0..11usize {
        odds[node] = Odds::of(probs[start + node]);
    }
    Context { odds }
}

/// Row `row`: the odds at index `row % 16` of a block of kind `row / 16`.
#[inline]
fn row_of(probs: &[u8; 1056], row: usize) -> Row
    requires { row < 64 }
    ensures { result ≡ row_of probs.now row }
{
    let start = row_start(row / 16, row % 16);
    Row {
        contexts: [
            context_at(probs, start),
            context_at(probs, start + 11),
            context_at(probs, start + 22),
        ],
    }
}

impl Rows {
    /// The rows of these probabilities: 4 kinds by 8 bands by 3 contexts by 11 nodes.
    pub fn of(probabilities: &[u8; 1056]) -> Rows
        ensures { result ≡ probabilities.now }
    {
        let mut rows = [row_of(probabilities, 0); 64];
        for row in 1..64usize {
            rows[row] = row_of(probabilities, row);
        }
        Rows {
            probs: *probabilities,
            rows,
        }
    }

    /// The nodes at an index of a kind of block. `context` is 0, 1 or 2 by the last token.
    #[inline(always)]
    pub(crate) fn nodes_at(&self, kind: usize, place: usize, context: usize) -> Nodes<'_>
        requires kind { kind < 4 }
        requires place { place < 16 }
        requires context { context < 3 }
        ensures { result ≡ nodes_at self.now kind place context }
    {
        Nodes {
            odds: &self.rows[kind * 16 + place].contexts[context].odds,
        }
    }
}
