//! Laws of files that are in order. A call of any of them does nothing.

ghost use Rattle.std.specs.Prelude.{◌≡◌, ℕ, List, All, Ok};
ghost use Rattle.block_feed.specs.Block.{ChainBlock};
ghost use Rattle.coin_candidates.specs.Candidates.{AreCandidates};
ghost use Rattle.fund_base.specs.Cursor.{IsBytes};
ghost use Rattle.request_text.specs.PlainRequest.{IsRequest, PlainRequest};
ghost use Rattle.request_text.specs.RequestText.{request_of};
ghost use Rattle.wallet_text.specs.PlainWallet.{PlainWallet};
ghost use Rattle.wallet_text.specs.WalletRules.{IsWallet};
ghost use Rattle.wallet_text.specs.WalletText.{wallet_of};
ghost use Rattle.payment_states.specs.BookOf.{IsBookOf};
ghost use Rattle.fund_files.specs.Chain.{chain_from, history_of};
ghost use Rattle.fund_files.specs.Contents.{HasChain};
ghost use Rattle.command_end.specs.Names.{Sources};
ghost use Rattle.desk_machine.specs.Runs.{Runs, Said};
ghost use Rattle.desk_machine.specs.State.{PlainDesk, candidates_at};
ghost use Rattle.desk_laws.specs.Claimed.{HaveBytes, IsBooked, IsClaimed};
ghost use Rattle.command_desk.specs.Calls.{Shows};
ghost use Rattle.command_desk.specs.Course.{Course};
ghost use Rattle.command_desk.specs.Script.{lines_of};
ghost use Rattle.command_desk.specs.Starts.{StartsFrom};

/// The law of files that are read: whatever the bytes of a file are, the wallet that they are keeps the rules of wallets, and the
/// request that they are those of requests. So what the laws of states, of candidates and of replacements ask for holds of
/// whatever a command reads.
pub fn inputs_keep_their_rules()
    ensures wallet { (bytes : List ℕ) (w : PlainWallet) → wallet_of bytes ≡ Ok w → IsWallet w }
    ensures request { (bytes : List ℕ) (r : PlainRequest) → request_of bytes ≡ Ok r → IsRequest r }
{}

/// The law of files that are in order: the wallet, its blocks and its book keep what the laws of books, of replacements and of
/// desks ask for. So do the coins that may be spent, with their prices at any rate.
pub fn chains_keep_their_rules()
    ensures booked { (wallet_file block_file : List ℕ) (w : PlainWallet) (blocks : List ChainBlock) → HasChain wallet_file block_file w blocks → IsBooked (chain_from w blocks) }
    ensures book { (wallet_file block_file : List ℕ) (w : PlainWallet) (blocks : List ChainBlock) → HasChain wallet_file block_file w blocks → IsBookOf w (history_of w blocks) }
    ensures candidates { (wallet_file block_file : List ℕ) (w : PlainWallet) (blocks : List ChainBlock) (rate : ℕ) → HasChain wallet_file block_file w blocks → AreCandidates (candidates_at (chain_from w blocks) rate) }
{}

/// The law of scripts' commits: the desk that a script starts from keeps what the laws of desks ask for. Of files that hold
/// bytes its lines are calls of the machine that are given bytes, and what each open job behind them was answered keeps what its
/// mark claims. So what the laws of desks say of what commits give out holds of every script.
pub fn scripts_keep_their_claims()
    ensures starts { (files : List ℕ → List ℕ) (s : Sources) (script text : List ℕ) (d : PlainDesk) → StartsFrom (Unit {0}) files s script text d → IsBooked d.held }
    ensures calls { (files : List ℕ → List ℕ) (lines : List (List ℕ)) (d new : PlainDesk) (printed : List ℕ) → ((name : List ℕ) → IsBytes (files name)) → Course files lines d printed new →
        (said : List Said) × Shows files lines said printed × Runs d said new × HaveBytes said }
    ensures claims { (files : List ℕ → List ℕ) (s : Sources) (script text : List ℕ) (d new : PlainDesk) (printed : List ℕ) → ((name : List ℕ) → IsBytes (files name)) →
        StartsFrom (Unit {0}) files s script text d → Course files (lines_of text) d printed new → All IsClaimed new.jobs }
    ensures held { (files : List ℕ → List ℕ) (s : Sources) (script text : List ℕ) (d new : PlainDesk) (printed : List ℕ) → ((name : List ℕ) → IsBytes (files name)) →
        StartsFrom (Unit {0}) files s script text d → Course files (lines_of text) d printed new → IsBooked new.held }
{}
