//! What files come to, in words of each file by itself.

ghost use Rattle.std.specs.Prelude.{◌≡◌, ℕ, List, Ok, Err};
ghost use Rattle.block_feed.specs.Block.{ChainBlock};
ghost use Rattle.request_text.specs.PlainRequest.{PlainRequest};
ghost use Rattle.wallet_text.specs.PlainWallet.{PlainWallet};
ghost use Rattle.fund_files.specs.Cause.{FileCause};
ghost use Rattle.fund_files.specs.Chain.{chain_from};
ghost use Rattle.fund_files.specs.Contents.{HasChain, HasRequest};
ghost use Rattle.fund_files.specs.Outcome.{asked_of, chain_of};
ghost use Rattle.fund_files.specs.Refusals.{IsAskedMeant, IsChainMeant};

/// The law of what files come to: a cause for the refusal of a wallet file and a block file which these mean is the one
/// that they come to; where they hold a wallet and blocks whose coins a book holds, they come to that wallet, that book and
/// the tip; and likewise of a request file. A call does nothing.
pub fn chains_are_due()
    ensures refused { (wallet blocks : List ℕ) (cause : FileCause) → IsChainMeant wallet blocks cause → chain_of wallet blocks ≡ Err cause }
    ensures held { (wallet blocks : List ℕ) (w : PlainWallet) (bs : List ChainBlock) → HasChain wallet blocks w bs → chain_of wallet blocks ≡ Ok (chain_from w bs) }
    ensures request_refused { (file : List ℕ) (cause : FileCause) → IsAskedMeant file cause → asked_of file ≡ Err cause }
    ensures asked { (file : List ℕ) (r : PlainRequest) → HasRequest file r → asked_of file ≡ Ok r }
{}
