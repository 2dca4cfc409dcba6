//! What stops a command besides the faults of its files and of its plan.

ghost use Rattle.std.specs.Prelude.{◌≡◌};
ghost use Rattle.fault_lines.specs.Sentences.{stop_sentence};

/// What stops a command besides the faults of its files and of its plan.
#[derive(Clone, Copy, PartialEq, Eq)]
pub enum Stop {
    /// The words are no command.
    Usage,
    /// A file was not read.
    Read,
    /// The log was not written.
    Write,
    /// Jobs are not read or kept.
    Keep,
    /// The machine is out of memory.
    Memory,
    /// The wallet file is over its limit.
    WalletLimit,
    /// The block file is over its limit.
    BlocksLimit,
    /// The request file is over its limit.
    RequestLimit,
    /// There are too many coins.
    CoinsLimit,
    /// The report to be checked is over its limit.
    ReportLimit,
    /// The log to be checked, or that of a kept job, is over its limit.
    LogLimit,
    /// The script of a desk is over its limit.
    ScriptLimit,
    /// The keys file is over its limit.
    KeysLimit,
    /// The PSBT file is over its limit.
    PsbtLimit,
    /// The file of a signed transaction is over its limit.
    TxLimit,
    /// The file of a signed transaction is no hex.
    NotHex,
    /// A coin is made twice.
    RepeatCoin,
}

/// The sentence of a stop.
#[tactic(auto, unfolding(crate::specs::Sentences::stop_sentence))]
pub fn stop_sentence(stop: Stop) -> &'static str
    ensures { result.now ≡ stop_sentence stop }
{
    match stop {
        Stop::Usage => "These words are no command: the help shows the commands with examples.",
        Stop::Read =>
            "The file of this name was not read: it is missing, a folder, a pipe or closed to you; check the name, or write its bytes to a file.",
        Stop::Write =>
            "LOG was not written: its folder is missing or closed to you, or the disk is full; name a LOG in a folder of yours.",
        Stop::Keep =>
            "The file of jobs was not read or written: another command holds it, it is something else, or the disk is full; run it again.",
        Stop::Memory => "The machine has too little memory: try again with less beside it.",
        Stop::WalletLimit =>
            "The wallet file is above 16 MiB: leave out earlier transactions whose outputs are spent.",
        Stop::BlocksLimit =>
            "The block file is above 1 GiB, or above 64 MiB in a script: give the last blocks alone, raise height and hash, and put older transactions into earlier.",
        Stop::RequestLimit => "The request file is above 1 MiB: pay fewer recipients at once.",
        Stop::CoinsLimit =>
            "There are more than 100,000 coins, spent ones among them: leave out earlier transactions whose outputs are spent.",
        Stop::ReportLimit => "The report is above 64 MiB: give the report that was printed.",
        Stop::LogLimit =>
            "The log is above 64 MiB: give LOG as it was written, or where a job is gone on with, begin anew under another name.",
        Stop::ScriptLimit => "The script of the desk is above 16 MiB: cut it into several.",
        Stop::KeysLimit => "The keys file is above 16 MiB: leave out scripts that have no coins.",
        Stop::PsbtLimit => "The PSBT file is above 64 MiB: give the PSBT that was printed.",
        Stop::TxLimit =>
            "The file of the signed transaction is above 1 MiB: give the hex of one transaction, and nothing else.",
        Stop::NotHex =>
            "The file of the signed transaction is no hex, or a blank or quotes stand in it: give the hex alone, as finalizepsbt tells it.",
        Stop::RepeatCoin =>
            "A transaction stands in earlier and in a block too: leave it out of earlier.",
    }
}
