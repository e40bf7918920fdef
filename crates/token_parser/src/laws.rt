//! Laws that show that the definitions have their intended meaning.

ghost use Rattle.std.specs.Prelude.{◌≡◌, ◌<◌, ◌≤◌, ℕ, ℤ, pos, negsuc, true, false, [], ◌∷◌, ◌++◌, List, Bool, replicate, slice_set};
ghost use Rattle.bool_coder.specs.Chains.{IsChain};
ghost use Rattle.bool_coder.specs.Reader.{Reader};
ghost use Rattle.token_parser.specs.declared.places.TheConstants.{BANDS, ZIGZAG};
ghost use Rattle.token_parser.specs.declared.tokens.Tokens.{Tokens};
ghost use Rattle.token_parser.specs.TokenTree.{end_of_block, token, size_in, size_of};
ghost use Rattle.token_parser.specs.Tokens.{tokens_from};
ghost use Rattle.token_parser.specs.Blocks.{place_of, block, macroblock, cleared, no_tokens, skipped, has_tokens};
ghost use Rattle.token_parser.specs.Ends.{EndsHold};
ghost use Rattle.token_parser.specs.Worked.{entry_after, reader_of, even_odds, three_tokens, HasSameY2};

/// The bits of each token, as RFC 6386, section 13.2 lists them with its tree.
pub fn worked_tree()
    ensures end_of_block { entry_after 0 (false ∷ []) ≡ negsuc 10 }
    ensures zero { entry_after 0 (true ∷ false ∷ []) ≡ pos 0 }
    ensures one { entry_after 0 (true ∷ true ∷ false ∷ []) ≡ negsuc 0 }
    ensures two { entry_after 0 (true ∷ true ∷ true ∷ false ∷ false ∷ []) ≡ negsuc 1 }
    ensures three { entry_after 0 (true ∷ true ∷ true ∷ false ∷ true ∷ false ∷ []) ≡ negsuc 2 }
    ensures four { entry_after 0 (true ∷ true ∷ true ∷ false ∷ true ∷ true ∷ []) ≡ negsuc 3 }
    ensures category_1 { entry_after 0 (true ∷ true ∷ true ∷ true ∷ false ∷ false ∷ []) ≡ negsuc 4 }
    ensures category_2 { entry_after 0 (true ∷ true ∷ true ∷ true ∷ false ∷ true ∷ []) ≡ negsuc 5 }
    ensures category_3 { entry_after 0 (true ∷ true ∷ true ∷ true ∷ true ∷ false ∷ false ∷ []) ≡ negsuc 6 }
    ensures category_4 { entry_after 0 (true ∷ true ∷ true ∷ true ∷ true ∷ false ∷ true ∷ []) ≡ negsuc 7 }
    ensures category_5 { entry_after 0 (true ∷ true ∷ true ∷ true ∷ true ∷ true ∷ false ∷ []) ≡ negsuc 8 }
    ensures category_6 { entry_after 0 (true ∷ true ∷ true ∷ true ∷ true ∷ true ∷ true ∷ []) ≡ negsuc 9 }
{}

/// After a 0 no block ends, whatever the bits and the probabilities are, and every token is one of
/// the twelve.
pub fn tokens_are_leaves()
    ensures after_a_zero { (nodes : List ℕ) (r : Reader) → (token nodes true r).0 < end_of_block }
    ensures any { (nodes : List ℕ) (r : Reader) → (token nodes false r).0 ≤ end_of_block }
{}

/// The bands of the 16 indices and the zigzag order (RFC 6386, sections 13 and 13.3).
pub fn worked_places()
    ensures bands { BANDS ≡ 0 ∷ 1 ∷ 2 ∷ 3 ∷ 6 ∷ 4 ∷ 5 ∷ 6 ∷ 6 ∷ 6 ∷ 6 ∷ 6 ∷ 6 ∷ 6 ∷ 6 ∷ 7 ∷ [] }
    ensures zigzag { ZIGZAG ≡ 0 ∷ 1 ∷ 4 ∷ 8 ∷ 5 ∷ 2 ∷ 3 ∷ 6 ∷ 9 ∷ 12 ∷ 13 ∷ 10 ∷ 7 ∷ 11 ∷ 14 ∷ 15 ∷ [] }
{}

/// A block whose tokens are 2, 0, 4 and the end, the first with the sign minus: index 2 is the
/// first sample of the second row. After the last of 16 tokens nothing is read.
pub fn worked_block()
    ensures three { (tokens_from 16 even_odds 3 0 0 false (replicate 16 (pos 0)) (reader_of three_tokens)).0 ≡ (negsuc 1 ∷ pos 0 ∷ pos 0 ∷ pos 0 ∷ pos 4 ∷ replicate 11 (pos 0), 3) }
    ensures zeros { (tokens_from 16 even_odds 3 0 0 false (replicate 16 (pos 0)) (reader_of (true ∷ replicate 16 false))).0 ≡ (replicate 16 (pos 0), 16) }
    ensures after_y2 { (tokens_from 15 even_odds 0 1 0 false (replicate 16 (pos 0)) (reader_of three_tokens)).0 ≡ (pos 0 ∷ negsuc 1 ∷ pos 0 ∷ pos 0 ∷ pos 0 ∷ pos 0 ∷ pos 0 ∷ pos 0 ∷ pos 4 ∷ replicate 7 (pos 0), 4) }
{}

/// A block of only zeros has tokens, and its flags are set; one that ends immediately has none.
pub fn worked_flags()
    ensures zeros { (block even_odds (place_of false 1) no_tokens (reader_of (true ∷ replicate 16 false))).0 ≡ record no_tokens { above = slice_set no_tokens.above 0 true; left = slice_set no_tokens.left 0 true; ends = slice_set no_tokens.ends 0 16 } }
    ensures none { (block even_odds (place_of false 1) no_tokens (reader_of (false ∷ []))).0 ≡ no_tokens }
    ensures luma_after_y2 { (block even_odds (place_of true 1) no_tokens (reader_of (false ∷ []))).0 ≡ record no_tokens { ends = slice_set no_tokens.ends 0 1 } }
{}

/// A block whose end is past the index of its first token has one: luma after Y2 begins at index 1,
/// and all other blocks at index 0.
pub fn worked_tokens()
    ensures none { has_tokens false no_tokens ≡ false }
    ensures luma { has_tokens false (record no_tokens { ends = slice_set no_tokens.ends 15 1 }) ≡ true }
    ensures luma_after_y2 { has_tokens true (record no_tokens { ends = replicate 16 1 ++ replicate 9 0 }) ≡ false }
    ensures chroma { has_tokens true (record no_tokens { ends = slice_set no_tokens.ends 16 1 }) ≡ true }
    ensures y2 { has_tokens true (record no_tokens { ends = slice_set no_tokens.ends 24 1 }) ≡ true }
{}

/// A macroblock without Y2 leaves the flags, the coefficients and the end of Y2 unchanged, whatever
/// is read.
pub fn y2_waits()
    ensures read { (probs : List ℕ) (before : Tokens) (r : Reader) → HasSameY2 before (macroblock probs false before r).0 }
    ensures skipped { (before : Tokens) → HasSameY2 before (skipped false before) }
{}

/// A block that ends at index 1 or before has no coefficient after its first, whatever is read.
pub fn ends_hold()
    ensures { (probs : List ℕ) (has_y2 : Bool) (before : Tokens) (r : Reader) → EndsHold (macroblock probs has_y2 (cleared before) r).0 }
{}

/// The tokens of a macroblock are a chain of reads, so RFC 6386's reader reads the same tokens.
pub fn tokens_are_chains(probs: &[u8])
    ensures { (has_y2 : Bool) (before : Tokens) → IsChain (macroblock probs.now has_y2 before) }
{}
