//! What the words of faults and coins keep. A call of any of these laws does nothing. Each asks that the numbers of a
//! fault have 128 bits at most, and its hashes 32 bytes, as those of every fault do.

ghost use Rattle.std.specs.Prelude.{◌≡◌, ◌⊎◌, ℕ, List, Some, codes};
ghost use Rattle.block_feed.specs.declared.fault.FeedFault.{FeedFault};
ghost use Rattle.fee_bump.specs.declared.fault.BumpFault.{BumpFault};
ghost use Rattle.fund_base.specs.declared.outpoint.OutPoint.{OutPoint};
ghost use Rattle.fund_steps.specs.declared.fault.PlanFault.{PlanFault};
ghost use Rattle.fund_steps.specs.declared.fault.PlanFault.TheVariants.{TooMany};
ghost use Rattle.json_fields.specs.Fields.{IsHash, IsPoint, coin_in, hash_in};
ghost use Rattle.json_fields.specs.Rules.{IsCoinText};
ghost use Rattle.log_checker.specs.declared.fault.LogFault.{LogFault};
ghost use Rattle.psbt_codec.specs.declared.fault.PsbtFault.{PsbtFault};
ghost use Rattle.request_text.specs.Reported.{plain_fault};
ghost use Rattle.request_text.specs.declared.fault.RequestFault.{RequestFault};
ghost use Rattle.segwit_addr.specs.declared.fault.AddrFault.{AddrFault};
ghost use Rattle.tx_codec.specs.declared.fault.TxFault.{TxFault};
ghost use Rattle.wallet_text.specs.Reported.{refusal_of};
ghost use Rattle.wallet_text.specs.declared.fault.WalletFault.{WalletFault};
ghost use Rattle.command_end.specs.Coin.{coin_text, shown_hash};
ghost use Rattle.command_end.specs.Words.{address_fault_words, bump_fault_words, feed_fault_words, log_fault_words, plan_fault_words, psbt_fault_words, request_fault_words, tx_fault_words, wallet_fault_words};
ghost use Rattle.fault_laws.specs.Numbers.{HasBumpNumbers, HasFeedNumbers, HasLogNumbers, HasPlanNumbers, HasPsbtNumbers, HasRequestNumbers, HasTxNumbers, HasWalletNumbers};

/// The law of the words of a transaction's faults: two that are printed alike are the same, with the same field.
pub fn transaction_faults_are_told_apart()
    ensures { (a b : TxFault) → HasTxNumbers a → HasTxNumbers b → tx_fault_words a ≡ tx_fault_words b → a ≡ b }
{}

/// The law of the words of an address's faults: two that are printed alike are the same.
pub fn address_faults_are_told_apart()
    ensures { (a b : AddrFault) → address_fault_words a ≡ address_fault_words b → a ≡ b }
{}

/// The law of the words of a wallet file's faults: two that are printed alike are the same, with the same fields.
pub fn wallet_faults_are_told_apart()
    ensures { (a b : WalletFault) → HasWalletNumbers a → HasWalletNumbers b → wallet_fault_words a ≡ wallet_fault_words b → refusal_of a ≡ refusal_of b }
{}

/// The law of the words of a request file's faults: two that are printed alike are the same, with the same fields.
pub fn request_faults_are_told_apart()
    ensures { (a b : RequestFault) → HasRequestNumbers a → HasRequestNumbers b → request_fault_words a ≡ request_fault_words b → plain_fault a ≡ plain_fault b }
{}

/// The law of the words of a block file's faults: two that are printed alike are the same, with the same fields.
pub fn block_faults_are_told_apart()
    ensures { (a b : FeedFault) → HasFeedNumbers a → HasFeedNumbers b → feed_fault_words a ≡ feed_fault_words b → a ≡ b }
{}

/// The law of the words of a log's faults: two that are printed alike are the same, with the same place.
pub fn log_faults_are_told_apart()
    ensures { (a b : LogFault) → HasLogNumbers a → HasLogNumbers b → log_fault_words a ≡ log_fault_words b → a ≡ b }
{}

/// The law of the words of a PSBT's faults: two that are printed alike are the same, with the same field.
pub fn psbt_faults_are_told_apart()
    ensures { (a b : PsbtFault) → HasPsbtNumbers a → HasPsbtNumbers b → psbt_fault_words a ≡ psbt_fault_words b → a ≡ b }
{}

/// The law of the words of why a payment isn't replaced: two that are printed alike are the same, with the same fields.
pub fn bump_faults_are_told_apart()
    ensures { (a b : BumpFault) → HasBumpNumbers a → HasBumpNumbers b → bump_fault_words a ≡ bump_fault_words b → a ≡ b }
{}

/// The law of the words of a plan's faults: two that are printed alike are the same, with the same field, or both say
/// that a row has too many groups, whose words show neither the row nor the count.
pub fn plan_faults_are_told_apart()
    ensures apart { (a b : PlanFault) → HasPlanNumbers a → HasPlanNumbers b → plan_fault_words a ≡ plan_fault_words b → (a ≡ b) ⊎ ((plan_fault_words a ≡ codes "limit groups") × ((row : ℕ) × (count : ℕ) × (a ≡ TooMany row count)) × ((row : ℕ) × (count : ℕ) × (b ≡ TooMany row count))) }
    ensures groups { (row count : ℕ) → plan_fault_words (TooMany row count) ≡ codes "limit groups" }
{}

/// The law of the words of hashes and coins: each is read back, by the readers of wallet and request files, as the hash
/// or the coin whose words they are.
pub fn coins_are_read_back()
    ensures hash { (hash : List ℕ) → IsHash hash → hash_in (shown_hash hash) ≡ Some hash }
    ensures text { (coin : OutPoint) → IsPoint coin → IsCoinText (coin_text coin) coin }
    ensures coin { (coin : OutPoint) → IsPoint coin → coin_in (coin_text coin) ≡ Some coin }
{}
