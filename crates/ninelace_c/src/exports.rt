//! Exports that list, check and sum up, and the version.

ghost use Rattle.std.specs.Prelude.{◌≡◌, [], Some, None};
ghost use Rattle.fund_calls.specs.Commands.{check_command, coins_command, settle_command, work_command};
ghost use Rattle.fund_calls.specs.Given.{no_files};
ghost use Rattle.fund_calls.specs.Results.{IsAccepted, IsListing, IsSettlement, IsWorked};
ghost use Rattle.ninelace_c.specs.Told.{Gives, Tells};

use crate::handing::tell;
use crate::sizes::NinelaceSizes;
use fund_calls::{Given, check_bytes, coins_bytes, settle_bytes, work_bytes};
use std::alloc::Global;

/// The version of this interface.
const ABI_VERSION: u32 = 1;

/// The version of this interface, which is 1.
#[unsafe(no_mangle)]
pub extern "C" fn ninelace_abi_version() -> u32
    ensures { result ≡ 1 }
{
    ABI_VERSION
}

/// Lists the payments and the coins of a wallet on its blocks, as `coins`.
#[unsafe(no_mangle)]
pub extern "C" fn ninelace_coins(
    alloc: Global,
    wallet: &[u8],
    blocks: &[u8],
    into: &mut [u8],
    sizes: &mut NinelaceSizes,
) -> u8
    ensures tells { Tells (Some coins_command) (record { wallet = wallet.now; blocks = blocks.now; request = []; report = []; log = []; tx = [] }) None result into.old into.new sizes.new }
    ensures done { result ≡ 0 → Gives (λ p. IsListing (record { wallet = wallet.now; blocks = blocks.now; request = []; report = []; log = []; tx = [] }) p.printed) into.old into.new sizes.new }
{
    let given = Given {
        wallet,
        blocks,
        request: &[],
        report: &[],
        log: &[],
        tx: &[],
    };
    tell(coins_bytes(alloc, &given), into, sizes)
}

/// Checks a report with its log, as `check`.
#[unsafe(no_mangle)]
pub extern "C" fn ninelace_check(
    alloc: Global,
    wallet: &[u8],
    blocks: &[u8],
    request: &[u8],
    report: &[u8],
    log: &[u8],
    into: &mut [u8],
    sizes: &mut NinelaceSizes,
) -> u8
    ensures tells { Tells (Some check_command) (record { wallet = wallet.now; blocks = blocks.now; request = request.now; report = report.now; log = log.now; tx = [] }) None result into.old into.new sizes.new }
    ensures done { result ≡ 0 → Gives (λ p. IsAccepted (record { wallet = wallet.now; blocks = blocks.now; request = request.now; report = report.now; log = log.now; tx = [] }) p.printed) into.old into.new sizes.new }
{
    let given = Given {
        wallet,
        blocks,
        request,
        report,
        log,
        tx: &[],
    };
    tell(check_bytes(alloc, &given), into, sizes)
}

/// Tells whether a signed transaction, in hex, is the payment of a report and pays the request's rate, as `settle`.
#[unsafe(no_mangle)]
pub extern "C" fn ninelace_settle(
    alloc: Global,
    wallet: &[u8],
    request: &[u8],
    report: &[u8],
    tx: &[u8],
    into: &mut [u8],
    sizes: &mut NinelaceSizes,
) -> u8
    ensures tells { Tells (Some settle_command) (record { wallet = wallet.now; blocks = []; request = request.now; report = report.now; log = []; tx = tx.now }) None result into.old into.new sizes.new }
    ensures done { result ≡ 0 → Gives (λ p. IsSettlement (record { wallet = wallet.now; blocks = []; request = request.now; report = report.now; log = []; tx = tx.now }) p.printed) into.old into.new sizes.new }
{
    let given = Given {
        wallet,
        blocks: &[],
        request,
        report,
        log: &[],
        tx,
    };
    tell(settle_bytes(alloc, &given), into, sizes)
}

/// Funds a payment from the workload of a number and a count of coins, and sums it up, as `work`.
#[unsafe(no_mangle)]
pub extern "C" fn ninelace_work(
    alloc: Global,
    number: u64,
    count: u32,
    into: &mut [u8],
    sizes: &mut NinelaceSizes,
) -> u8
    ensures tells { Tells (work_command number count) no_files None result into.old into.new sizes.new }
    ensures done { result ≡ 0 → Gives (λ p. IsWorked number count p.printed) into.old into.new sizes.new }
{
    tell(work_bytes(alloc, number, count), into, sizes)
}
