//! Why a file is refused.

use block_feed::FeedFault;
use fund_base::OutPoint;
use request_text::RequestFault;
use wallet_text::WalletFault;

/// A file that is read.
#[derive(Clone, Copy, PartialEq, Eq)]
pub enum File {
    Wallet,
    Blocks,
    Request,
}

/// Why a file is refused.
#[derive(Drop)]
pub enum FileRefusal {
    /// The file is longer than its limit: 16,777,216 bytes of a wallet, 1,073,741,824 of blocks, 1,048,576 of a request.
    TooLong(File),
    /// The wallet file isn't one: its first fault.
    BadWallet(WalletFault),
    /// The block file isn't one: its first fault.
    BadBlocks(FeedFault),
    /// This output is a confirmed coin twice.
    RepeatCoin(OutPoint),
    /// There are more than 100,000 coins.
    ManyCoins,
    /// The request file isn't one: its first fault.
    BadRequest(RequestFault),
}
