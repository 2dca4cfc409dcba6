//! What the files of a payment hold.

ghost use Rattle.std.specs.Prelude.{◌≡◌, ◌≢◌, Err, IfErr, IfOk, IsSome, None, OnOk, Some};
ghost use Rattle.fee_bump.specs.declared.fault.BumpFault.TheVariants as bumps;
ghost use Rattle.fund_shelf.specs.Causes.{OnlyReads};
ghost use Rattle.fund_files.specs.Chain.{IsChain};
ghost use Rattle.fund_files.specs.declared.refusal.File.{File};
ghost use Rattle.command_end.specs.Names.{plain_sources};
ghost use Rattle.command_inputs.specs.Digest.{HasDigest, digest_in};
ghost use Rattle.command_inputs.specs.Outcome.{bump_fault_in, terms_for};
ghost use Rattle.command_inputs.specs.Inputs.{AreAsked, AsksInOrder, NoneBehind};
ghost use Rattle.command_inputs.specs.Names.{plain_job, plain_payment};
ghost use Rattle.command_inputs.specs.Stops.{StopsFor};

use crate::names::Payment;
use crate::refusal::Stop;
use command_end::Sources;
use fee_bump::{BumpFault, BumpTerms, known_terms};
use fund_files::{Chain, read_asked, read_asked_with_digest, read_chain, read_chain_with_digests};
use fund_shelf::Shelf;
use kept_job::job_digest;
use payment_states::known_states;
use request_text::Request;
use std::alloc::Global;

/// What the files of a payment hold.
#[derive(Drop)]
pub struct Inputs {
    /// The wallet, with the book of its coins.
    pub held: Chain,
    /// The request.
    pub request: Request,
    /// What a replacement of the payment that the request names is made from, if it names one.
    pub terms: Option<BumpTerms>,
}

/// What a replacement of the payment that the request names is made from, if it names one; or why that isn't replaced. Memory
/// comes only where it names one.
fn terms_for(alloc: Global, held: &Chain, request: &Request) -> Result<Option<BumpTerms>, BumpFault>
    requires { IsChain held.now }
    ensures terms { IfOk result (λ terms. terms ≡ terms_for held.now request.now) }
    ensures none { OnOk result (bump_fault_in held.now request.now ≡ None) }
    ensures fault { IfErr result (λ fault. fault ≢ bumps.Memory → bump_fault_in held.now request.now ≡ Some fault) }
    ensures short { result ≡ Err bumps.Memory → IsSome request.now.bump }
{
    if request.bump.is_none() {
        return Ok(None);
    }
    let book = held.book.known();
    let states = known_states(alloc, &book, &held.wallet)?;
    let terms = known_terms(
        alloc,
        &book,
        &held.wallet,
        &states,
        held.tip.height,
        request,
    )?;
    Ok(Some(terms))
}

/// What the files of a payment hold: the wallet, which is read first, then the blocks, then the request. A file that is
/// refused leaves those behind it unread. Then, where the request names a payment to be replaced, what its replacement is made
/// from, or why it isn't replaced.
pub fn read_inputs<H: Shelf>(
    alloc: Global,
    sources: &Sources,
    payment: &Payment,
    shelf: &mut H,
) -> Result<Inputs, Stop>
    ensures held { IfOk result (λ x. AreAsked H.tells (H.view shelf.old).files (plain_sources sources.now) (plain_payment payment.now) x.held x.request) }
    ensures terms { IfOk result (λ x. x.terms ≡ terms_for x.held x.request) }
    ensures frame { OnlyReads H.tells (H.view shelf.old) (H.view shelf.new) }
    ensures stop { IfErr result (StopsFor H.tells (plain_sources sources.now) (plain_payment payment.now) (H.view shelf.old) (H.view shelf.new)) }
    ensures asked { H.tells → AsksInOrder (plain_sources sources.now) (plain_payment payment.now) (H.view shelf.old) (H.view shelf.new) }
    ensures none_behind { H.tells → NoneBehind (plain_sources sources.now) (H.view shelf.old) (H.view shelf.new) }
    // A count of failed reads rises only where one of the three files wasn't read.
    ensures all_read { ((file : File) → result ≢ Err (Stop.Read file)) → (H.view shelf.new).reads ≡ (H.view shelf.old).reads }
{
    let held = read_chain(alloc, sources.wallet, sources.blocks, shelf)?;
    let request = read_asked(alloc, payment.request, shelf)?;
    let terms = terms_for(alloc, &held, &request)?;
    Ok(Inputs {
        held,
        request,
        terms,
    })
}

/// What [`read_inputs`] reads, and the digest of the job of these files, from the bytes that were read.
pub fn read_inputs_with_digest<H: Shelf>(
    alloc: Global,
    sources: &Sources,
    payment: &Payment,
    shelf: &mut H,
) -> Result<(Inputs, [u8; 32]), Stop>
    ensures held { IfOk result (λ r. AreAsked H.tells (H.view shelf.old).files (plain_sources sources.now) (plain_payment payment.now) r.0.held r.0.request) }
    ensures terms { IfOk result (λ r. r.0.terms ≡ terms_for r.0.held r.0.request) }
    ensures digest { H.tells → IfOk result (λ r. r.1 ≡ digest_in (H.view shelf.old).files (plain_sources sources.now) (plain_payment payment.now)) }
    ensures frame { OnlyReads H.tells (H.view shelf.old) (H.view shelf.new) }
    ensures stop { IfErr result (StopsFor H.tells (plain_sources sources.now) (plain_payment payment.now) (H.view shelf.old) (H.view shelf.new)) }
    ensures asked { H.tells → AsksInOrder (plain_sources sources.now) (plain_payment payment.now) (H.view shelf.old) (H.view shelf.new) }
    ensures none_behind { H.tells → NoneBehind (plain_sources sources.now) (H.view shelf.old) (H.view shelf.new) }
    // A count of failed reads rises only where one of the three files wasn't read.
    ensures all_read { ((file : File) → result ≢ Err (Stop.Read file)) → (H.view shelf.new).reads ≡ (H.view shelf.old).reads }
{
    let (held, chain) = read_chain_with_digests(alloc, sources.wallet, sources.blocks, shelf)?;
    let (request, asked) = read_asked_with_digest(alloc, payment.request, shelf)?;
    let terms = terms_for(alloc, &held, &request)?;
    let digest = job_digest(&chain.wallet, &chain.blocks, &asked);
    let inputs = Inputs {
        held,
        request,
        terms,
    };
    Ok((inputs, digest))
}

/// What [`read_inputs`] reads, and the digest of the job where one is named. Without a job nothing is hashed.
pub fn read_inputs_for<H: Shelf>(
    alloc: Global,
    sources: &Sources,
    payment: &Payment,
    job: Option<&str>,
    shelf: &mut H,
) -> Result<(Inputs, Option<[u8; 32]>), Stop>
    ensures held { IfOk result (λ r. AreAsked H.tells (H.view shelf.old).files (plain_sources sources.now) (plain_payment payment.now) r.0.held r.0.request) }
    ensures terms { IfOk result (λ r. r.0.terms ≡ terms_for r.0.held r.0.request) }
    ensures digest { IfOk result (λ r. HasDigest H.tells (H.view shelf.old).files (plain_sources sources.now) (plain_payment payment.now) (plain_job job.entry) r.1) }
    ensures frame { OnlyReads H.tells (H.view shelf.old) (H.view shelf.new) }
    ensures stop { IfErr result (StopsFor H.tells (plain_sources sources.now) (plain_payment payment.now) (H.view shelf.old) (H.view shelf.new)) }
    ensures asked { H.tells → AsksInOrder (plain_sources sources.now) (plain_payment payment.now) (H.view shelf.old) (H.view shelf.new) }
    ensures none_behind { H.tells → NoneBehind (plain_sources sources.now) (H.view shelf.old) (H.view shelf.new) }
    ensures all_read { ((file : File) → result ≢ Err (Stop.Read file)) → (H.view shelf.new).reads ≡ (H.view shelf.old).reads }
{
    match job {
        Some(_) => {
            let (inputs, digest) = read_inputs_with_digest(alloc, sources, payment, shelf)?;
            Ok((inputs, Some(digest)))
        }
        None => {
            let inputs = read_inputs(alloc, sources, payment, shelf)?;
            Ok((inputs, None))
        }
    }
}
