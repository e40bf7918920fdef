//! Laws that show that the definitions have their intended meaning.

ghost use Rattle.std.specs.Prelude.{◌≡◌, ◌<◌, ◌≤◌, ◌+◌, ◌-◌, ◌*◌, ℕ, length, pos, negsuc, neg_ℤ, true, false, [], ◌∷◌, replicate, IsTrue};
ghost use Rattle.bool_coder.specs.Chains.{Chain, HasProbabilities, IsChain, and_then, run};
ghost use Rattle.bool_coder.specs.Reader.{Reader, text_start, started, read};
ghost use Rattle.bool_coder.specs.Reading.{Reading, give, flag, literal, signed};
ghost use Rattle.bool_coder.specs.Trees.{is_tree, leaf_below, leaf};
ghost use Rattle.bool_coder.specs.Uncut.{uncut_read, settled, bits_read};
ghost use Rattle.bool_coder.specs.Taken.{marked, taken_from, past_end};
ghost use Rattle.bool_coder.specs.Worked.{steps, even_bits};

/// The reader of a decoder, whose window is clamped to the range and whose bits end with the last
/// 1, reads the same bits as RFC 6386's reader, which is not clamped and has the whole bit string,
/// for every byte text and all probabilities (RFC 6386, section 7). Each single read does too, and
/// leaves a settled reader again, so every fold over reads has the same result with either.
pub fn uncut_reads_alike(bytes: &[u8], probs: &[u8])
    ensures bits { bits_read read probs.now (started bytes.now) ≡ bits_read uncut_read probs.now (text_start bytes.now) }
    ensures start { settled (text_start bytes.now) ≡ started bytes.now }
    ensures step { (prob : ℕ) → (r : Reader) → prob ≤ 255 → 2 ≤ r.range → read prob (settled r) ≡ ((uncut_read prob r).0, settled (uncut_read prob r).1) }
    ensures range { (prob : ℕ) → (r : Reader) → prob ≤ 255 → 2 ≤ r.range → 2 ≤ (uncut_read prob r).1.range }
{}

/// Every chain of reads returns the same value with either reader, for every byte text. Afterwards
/// the decoder's reader is again the settled form of RFC 6386's.
pub fn chains_read_alike<T>(bytes: &[u8])
    ensures value { (chain : Chain T) → HasProbabilities chain → (run read chain (started bytes.now)).0 ≡ (run uncut_read chain (text_start bytes.now)).0 }
    ensures reader { (chain : Chain T) → HasProbabilities chain → (r : Reader) → 2 ≤ r.range → run read chain (settled r) ≡ ((run uncut_read chain r).0, settled (run uncut_read chain r).1) }
{}

/// A value, a bit, and one chain of reads followed by another are chains of reads.
pub fn chains_are_composed<T, U>()
    ensures value { (value : T) → IsChain (give value) }
    ensures bit { (prob : ℕ) → prob < 256 → IsChain (read prob) }
    ensures next { (first : Reading T) (next : T → Reading U) → IsChain first → ((value : T) → IsChain (next value)) → IsChain (and_then first next) }
{}

/// Flags, numbers and leaves are chains of reads, so RFC 6386's reader reads the same values.
pub fn numbers_are_chains(tree: &[i8], probs: &[u8])
    ensures flag { IsChain flag }
    ensures literal { (count : ℕ) → IsChain (literal count) }
    ensures signed { (count : ℕ) → IsChain (signed count) }
    ensures leaf { IsChain (leaf tree.now probs.now) }
{}

/// A mark counts the bits that a chain of reads takes in: so many zero bytes after the text, and
/// then a byte 1. As long as the mark is not reached, the chain returns the value that it returns
/// without it, and the bits left are those of the text, the zero bytes and the mark, except for the
/// bits taken in. None are left if it takes in all of them or more.
pub fn marks_count_bits<T>(bytes: &[u8])
    ensures left { (chain : Chain T) (zeros : ℕ) → length (run read chain (started (marked zeros bytes.now))).1.rest ≡ 8 * (length bytes.now + zeros + 1) - taken_from chain bytes.now }
    ensures value { (chain : Chain T) (zeros : ℕ) → taken_from chain bytes.now < 8 * (length bytes.now + zeros + 1) → (run read chain (started (marked zeros bytes.now))).0 ≡ (run read chain (started bytes.now)).0 }
{}

/// Bits read past the end of a text: before the first bit is read, eight of an empty text and none
/// of one byte; after three even bits, 2 of one zero byte, and after nine of 0x80 it is 9.
pub fn worked_ends()
    ensures empty { past_end (even_bits 0) [] ≡ 8 }
    ensures first { past_end (even_bits 0) (0 ∷ []) ≡ 0 }
    ensures zeros { past_end (even_bits 3) (0 ∷ []) ≡ 2 }
    ensures ones { past_end (even_bits 9) (0x80 ∷ []) ≡ 9 }
    ensures inside { past_end (even_bits 8) (0x9F ∷ 0xC0 ∷ []) ≡ 0 }
    ensures last { past_end (even_bits 9) (0x9F ∷ 0xC0 ∷ []) ≡ 1 }
{}

/// The bits that a reader returns for texts that an encoder wrote, and for one whose window stays
/// clamped to the range.
pub fn worked_bits()
    ensures mixed { bits_read read (replicate 3 128) (started (0x9F ∷ 0xC0 ∷ [])) ≡ true ∷ false ∷ true ∷ [] }
    ensures zeros { bits_read read (replicate 20 128) (started []) ≡ replicate 20 false }
    ensures clamped_to_range { bits_read read (replicate 20 128) (started (replicate 4 255)) ≡ replicate 20 true }
    ensures unlikely { bits_read read (replicate 20 0) (started (replicate 4 255)) ≡ replicate 20 true }
    ensures likely { bits_read read (replicate 20 255) (started (replicate 4 255)) ≡ replicate 20 true }
{}

/// Numbers at the start of texts whose bits at even odds are 1, 0, 1; then 1, 1, 0; then 1 forever;
/// and 0 forever.
pub fn worked_numbers()
    ensures literal { (literal 3 (started (0x9F ∷ 0xC0 ∷ []))).0 ≡ 5 }
    ensures plus { (signed 1 (started (0xC0 ∷ []))).0 ≡ pos 1 }
    ensures minus { (signed 2 (started (replicate 4 255))).0 ≡ neg_ℤ (pos 3) }
    ensures absent { (signed 7 (started [])).0 ≡ pos 0 }
{}

/// The leaves of a tree, whose bit strings are 0, 10, 110 and 111, and lists that are not trees:
/// one without a probability for each pair, one that leads to its own pair, and one with an odd
/// node.
pub fn worked_leaves()
    ensures first { (leaf steps (128 ∷ 128 ∷ 128 ∷ []) (started [])).0 ≡ 0 }
    ensures second { (leaf steps (128 ∷ 128 ∷ 128 ∷ []) (started (0x9F ∷ 0xC0 ∷ []))).0 ≡ 1 }
    ensures third { (leaf steps (128 ∷ 128 ∷ 128 ∷ []) (started (0xC0 ∷ []))).0 ≡ 2 }
    ensures fourth { (leaf steps (128 ∷ 128 ∷ 128 ∷ []) (started (replicate 4 255))).0 ≡ 3 }
    ensures tree { IsTrue (is_tree steps (128 ∷ 128 ∷ 128 ∷ [])) }
    ensures short { is_tree steps (128 ∷ 128 ∷ []) ≡ false }
    ensures back { is_tree (pos 0 ∷ pos 2 ∷ pos 2 ∷ negsuc 0 ∷ []) (128 ∷ 128 ∷ []) ≡ false }
    ensures odd { is_tree (pos 0 ∷ pos 1 ∷ []) (128 ∷ []) ≡ false }
{}

/// A walk down a tree ends at a leaf: bits beyond the number that the tree's length allows are
/// never read.
pub fn leaves_are_reached(tree: &[i8], probs: &[u8])
    requires { IsTrue (is_tree tree.now probs.now) }
    ensures { (more : ℕ) → (r : Reader) → leaf_below (length tree.now + more) tree.now probs.now 0 r ≡ leaf tree.now probs.now r }
{}
