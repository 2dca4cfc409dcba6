//! What the blocks of a file are, and where a file is refused.

ghost use Rattle.std.specs.Prelude.{◌≡◌, ◌≤◌, ◌<◌, ◌+◌, ◌↔◌, ℕ, List, length, drop, take, Ok, Err, Some, None, IfOk, MatchOption, MatchResult};
ghost use Rattle.fund_base.specs.Cursor.{IsBytes};
ghost use Rattle.block_feed.specs.Block.{ChainBlock, Begins};
ghost use Rattle.block_feed.specs.BlockFile.{IsBlockFile};
ghost use Rattle.block_feed.specs.Blocks.{blocks_of};
ghost use Rattle.block_feed.specs.Digest.{HasTaken, IsDigest};
ghost use Rattle.block_feed.specs.Faults.{IsFeedFault};
ghost use Rattle.block_feed.specs.Feed.{FeedState, Digests, IsEnd, IsFirst, IsOutside, OfEachCall, StandsBefore, next_of};
ghost use Rattle.block_feed.specs.declared.fault.FeedFault.{FeedFault};
ghost use Rattle.block_feed.specs.declared.fault.FeedFault.TheVariants.{Limit};

/// That reading a file record by record gives exactly the blocks that it is made of, where it is within its limit, and
/// that the fault of the limit is that of a longer file alone. A call does nothing.
pub fn blocks_are()
    ensures found { (file hash : List ℕ) (height : ℕ) (blocks : List ChainBlock) → IsBytes file → blocks_of file hash height ≡ Ok blocks → IsBlockFile hash height blocks file × (length file ≤ 1_073_741_824) }
    ensures only { (file hash : List ℕ) (height : ℕ) (blocks : List ChainBlock) → IsBlockFile hash height blocks file → length file ≤ 1_073_741_824 → blocks_of file hash height ≡ Ok blocks }
    ensures limit { (file hash : List ℕ) (height : ℕ) → blocks_of file hash height ≡ Err Limit → 1_073_741_824 < length file }
{}

/// The law of what a file has where the feed stands: its end, a block, or a fault, each exactly where the file says
/// so. Of a file that is longer than 1,073,741,824 bytes only these are looked at. A call does nothing.
pub fn judges_records()
    ensures end { (file : List ℕ) (state : FeedState) → (next_of file state ≡ Ok None) ↔ IsEnd file state.place }
    ensures block { (file : List ℕ) (state : FeedState) (block : ChainBlock) (behind : ℕ) → IsBytes file → next_of file state ≡ Ok (Some (block, behind)) → Begins state.hash state.height block (drop state.place file) (drop behind file) }
    ensures read { (file rest : List ℕ) (state : FeedState) (block : ChainBlock) → Begins state.hash state.height block (drop state.place file) rest → length file ≤ 1_073_741_824 + length rest → (behind : ℕ) × (next_of file state ≡ Ok (Some (block, behind))) × (drop behind file ≡ rest) }
    ensures fault { (file : List ℕ) (state : FeedState) (fault : FeedFault) → IsBytes file → (next_of file state ≡ Err fault) ↔ IsFeedFault file state fault }
{}

/// The law of what a call of the feed gives, by what it comes to, as [`crate::Feed::next`] says it. A call does nothing.
pub fn gives_blocks()
    // The blocks that are given, in order, are those of the file, and each block of the file is given, memory and failed
    // reads aside.
    ensures before { OfEachCall (λ file old new result. IfOk result (λ o. StandsBefore file old new o)) }
    ensures first { OfEachCall (λ file old new result. (blocks : List ChainBlock) → IsBlockFile old.hash old.height blocks (drop old.place file) → length file ≤ 1_073_741_824 → MatchResult result (λ o. IsFirst file new blocks o) IsOutside) }

    // What is given is the block that the file holds there, and each block there is given, memory and failed reads aside;
    // and so is its end.
    ensures found { OfEachCall (λ file old new result. IfOk result (λ o. MatchOption o (IsEnd file old.place) (λ block. Begins old.hash old.height block (drop old.place file) (drop new.place file)))) }
    ensures only { OfEachCall (λ file old new result. (block : ChainBlock) (rest : List ℕ) → Begins old.hash old.height block (drop old.place file) rest → length file ≤ 1_073_741_824 + length rest → MatchResult result (λ o. (o ≡ Some block) × (drop new.place file ≡ rest)) IsOutside) }
    ensures end { OfEachCall (λ file old new result. IsEnd file old.place → MatchResult result (λ o. o ≡ None) IsOutside) }

    // The fault of the limit is that of a longer file alone.
    ensures limit { OfEachCall (λ file old new result. result ≡ Err Limit → 1_073_741_824 < length file) }
{}

/// The law of the digest: a feed that has taken a file's bytes before its place has taken those before its next place
/// behind a block, and has the digest of the whole file at its end. A call does nothing.
pub fn digests_files()
    ensures more { (file : List ℕ) (old new : FeedState) (block : ChainBlock) → Digests file old new (Ok (Some block)) → old.place ≤ new.place → HasTaken old.hasher (take old.place file) → HasTaken new.hasher (take new.place file) }
    ensures whole { (file : List ℕ) (old new : FeedState) → Digests file old new (Ok None) → HasTaken old.hasher (take old.place file) → IsDigest old.hasher file new.digest }
{}
