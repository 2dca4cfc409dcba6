//! Exports that make payments.

ghost use Rattle.std.specs.Prelude.{◌≡◌, [], Some, None};
ghost use Rattle.fund_calls.specs.Commands.{fund_command, resume_command, share_command, sweep_command, wide_command};
ghost use Rattle.fund_calls.specs.Results.{IsNoPayment, IsOpenPayment, IsPayment, IsResumed, IsShare, IsSweep, IsWide};
ghost use Rattle.ninelace_c.specs.Told.{Gives, Tells};

use crate::handing::tell;
use crate::sizes::NinelaceSizes;
use fund_calls::{Given, fund_bytes, resume_bytes, share_bytes, sweep_bytes, wide_bytes};
use std::alloc::Global;

/// Funds the payment of a request, as `fund` with a job.
#[unsafe(no_mangle)]
pub extern "C" fn ninelace_fund(
    alloc: Global,
    wallet: &[u8],
    blocks: &[u8],
    request: &[u8],
    into: &mut [u8],
    sizes: &mut NinelaceSizes,
) -> u8
    ensures tells { Tells (Some fund_command) (record { wallet = wallet.now; blocks = blocks.now; request = request.now; report = []; log = []; tx = [] }) None result into.old into.new sizes.new }
    ensures done { result ≡ 0 → Gives (λ p. IsPayment (record { wallet = wallet.now; blocks = blocks.now; request = request.now; report = []; log = []; tx = [] }) p.printed p.log) into.old into.new sizes.new }
    ensures none { result ≡ 11 → Gives (λ p. IsNoPayment (record { wallet = wallet.now; blocks = blocks.now; request = request.now; report = []; log = []; tx = [] }) p.printed p.log) into.old into.new sizes.new }
    ensures unfinished { result ≡ 10 → Gives (λ p. IsOpenPayment (record { wallet = wallet.now; blocks = blocks.now; request = request.now; report = []; log = []; tx = [] }) p.printed p.job) into.old into.new sizes.new }
{
    let given = Given {
        wallet,
        blocks,
        request,
        report: &[],
        log: &[],
        tx: &[],
    };
    tell(fund_bytes(alloc, &given), into, sizes)
}

/// Goes on with a packed job, as `resume`.
#[unsafe(no_mangle)]
pub extern "C" fn ninelace_resume(
    alloc: Global,
    wallet: &[u8],
    blocks: &[u8],
    request: &[u8],
    job: &[u8],
    into: &mut [u8],
    sizes: &mut NinelaceSizes,
) -> u8
    ensures tells { Tells (Some resume_command) (record { wallet = wallet.now; blocks = blocks.now; request = request.now; report = []; log = []; tx = [] }) (Some job.now) result into.old into.new sizes.new }
    ensures done { result ≡ 0 → Gives (λ p. IsResumed (record { wallet = wallet.now; blocks = blocks.now; request = request.now; report = []; log = []; tx = [] }) job.now p.printed p.log) into.old into.new sizes.new }
{
    let given = Given {
        wallet,
        blocks,
        request,
        report: &[],
        log: &[],
        tx: &[],
    };
    tell(resume_bytes(alloc, &given, job), into, sizes)
}

/// Funds the payment of a request without change by the wide search, as `wide`.
#[unsafe(no_mangle)]
pub extern "C" fn ninelace_wide(
    alloc: Global,
    wallet: &[u8],
    blocks: &[u8],
    request: &[u8],
    into: &mut [u8],
    sizes: &mut NinelaceSizes,
) -> u8
    ensures tells { Tells (Some wide_command) (record { wallet = wallet.now; blocks = blocks.now; request = request.now; report = []; log = []; tx = [] }) None result into.old into.new sizes.new }
    ensures done { result ≡ 0 → Gives (λ p. IsWide (record { wallet = wallet.now; blocks = blocks.now; request = request.now; report = []; log = []; tx = [] }) p.printed p.log) into.old into.new sizes.new }
{
    let given = Given {
        wallet,
        blocks,
        request,
        report: &[],
        log: &[],
        tx: &[],
    };
    tell(wide_bytes(alloc, &given), into, sizes)
}

/// Funds the payment of a request so that its recipients bear the fee, as `share`.
#[unsafe(no_mangle)]
pub extern "C" fn ninelace_share(
    alloc: Global,
    wallet: &[u8],
    blocks: &[u8],
    request: &[u8],
    into: &mut [u8],
    sizes: &mut NinelaceSizes,
) -> u8
    ensures tells { Tells (Some share_command) (record { wallet = wallet.now; blocks = blocks.now; request = request.now; report = []; log = []; tx = [] }) None result into.old into.new sizes.new }
    ensures done { result ≡ 0 → Gives (λ p. IsShare (record { wallet = wallet.now; blocks = blocks.now; request = request.now; report = []; log = []; tx = [] }) p.printed p.log) into.old into.new sizes.new }
{
    let given = Given {
        wallet,
        blocks,
        request,
        report: &[],
        log: &[],
        tx: &[],
    };
    tell(share_bytes(alloc, &given), into, sizes)
}

/// Pays all coins to the one recipient of a request, as `sweep`.
#[unsafe(no_mangle)]
pub extern "C" fn ninelace_sweep(
    alloc: Global,
    wallet: &[u8],
    blocks: &[u8],
    request: &[u8],
    into: &mut [u8],
    sizes: &mut NinelaceSizes,
) -> u8
    ensures tells { Tells (Some sweep_command) (record { wallet = wallet.now; blocks = blocks.now; request = request.now; report = []; log = []; tx = [] }) None result into.old into.new sizes.new }
    ensures done { result ≡ 0 → Gives (λ p. IsSweep (record { wallet = wallet.now; blocks = blocks.now; request = request.now; report = []; log = []; tx = [] }) p.printed) into.old into.new sizes.new }
{
    let given = Given {
        wallet,
        blocks,
        request,
        report: &[],
        log: &[],
        tx: &[],
    };
    tell(sweep_bytes(alloc, &given), into, sizes)
}
