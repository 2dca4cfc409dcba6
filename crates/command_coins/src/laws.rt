//! What the files of a listing come to, in words of the files one by one.

ghost use Rattle.std.specs.Prelude.{◌≡◌, ℕ, List, Ok, Err};
ghost use Rattle.block_feed.specs.Block.{ChainBlock};
ghost use Rattle.wallet_text.specs.PlainWallet.{PlainWallet};
ghost use Rattle.fund_files.specs.Cause.{FileCause};
ghost use Rattle.fund_files.specs.Chain.{chain_from};
ghost use Rattle.fund_files.specs.Contents.{HasChain};
ghost use Rattle.fund_files.specs.Refusals.{IsChainMeant};
ghost use Rattle.command_end.specs.Names.{Sources};
ghost use Rattle.command_coins.specs.Outcome.{outcome_of, listing_in};

/// The law of what the files of a listing come to: a cause for a refusal which they mean is the one that they come to; and
/// they come to the listing of what they hold where they hold a wallet, blocks behind it, and coins that a book holds. A
/// call does nothing.
pub fn listings_are_due()
    ensures refused { (files : List ℕ → List ℕ) (s : Sources) (cause : FileCause) → IsChainMeant (files s.wallet) (files s.blocks) cause → outcome_of files s ≡ Err cause }
    ensures listed { (files : List ℕ → List ℕ) (s : Sources) (w : PlainWallet) (blocks : List ChainBlock) → HasChain (files s.wallet) (files s.blocks) w blocks → outcome_of files s ≡ Ok (listing_in (chain_from w blocks)) }
{}
