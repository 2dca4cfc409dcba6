//! Scripts that may be slips of those who pay to them.

ghost use Rattle.std.specs.Prelude.{◌≡◌, IfOk, option_copied, string_bytes};
ghost use Rattle.people_advice.specs.Scripts.{begins_with_return, burnt, has_address, payee_warning, slip_in, strange, warned, warnings_text};

use base58_addr::encode;
use fee_rates::is_program;
use fund_base::{Memory, Script, are_bytes};
use request_making::{Payee, Payment};
use std::alloc::Global;

/// Whether a script begins with OP_RETURN, so that nothing can spend an output with it.
fn begins_with_return(script: &[u8]) -> bool
    ensures { result ≡ begins_with_return script.now }
{
    match script {
        [] => false,
        [first, ..] => *first == 0x6a,
    }
}

/// Whether a script has an address: in base58, or as a witness program.
fn has_address(alloc: Global, script: &Script) -> Result<bool, Memory>
    ensures { IfOk result (λ has. has ≡ has_address script.now) }
{
    if is_program(script.bytes()) {
        return Ok(true);
    }
    let text = encode(alloc, script)?;
    Ok(text.is_some())
}

/// What is said of a script that nothing can spend.
#[tactic(auto, unfolding(crate::specs::Scripts::burnt))]
fn burnt() -> &'static str
    ensures { result.now ≡ burnt }
{
    "begins with OP_RETURN, so nobody can ever spend what is paid to it: pay 0, or to another script."
}

/// What is said of a script without an address.
#[tactic(auto, unfolding(crate::specs::Scripts::strange))]
fn strange() -> &'static str
    ensures { result.now ≡ strange }
{
    "is none that has an address: look whether it is a script at all, and no key or hash."
}

/// What may be wrong with paying this amount, in satoshi, to a script; none where nothing is.
fn slip_in(alloc: Global, script: &Script, amount: u64) -> Result<Option<&'static str>, Memory>
    ensures { IfOk result (λ slip. option_copied slip ≡ slip_in script.now amount) }
{
    if begins_with_return(script.bytes()) {
        if amount == 0 {
            return Ok(None);
        }
        return Ok(Some(burnt()));
    }
    let known = has_address(alloc, script)?;
    if known {
        return Ok(None);
    }
    Ok(Some(strange()))
}

/// The line of what may be wrong with a script; nothing where nothing is.
fn warned(alloc: Global, script: &Script, slip: Option<&'static str>) -> Result<String, Memory>
    ensures { IfOk result (λ text. string_bytes text ≡ warned script.now (option_copied slip.entry)) }
{
    match slip {
        None => Ok(String::new(alloc)),
        Some(slip) => {
            are_bytes(script.bytes());
            let shown = hex::encode(alloc, script.bytes())?;
            Ok(format!(in alloc; "warning The script {} {}\n", shown, slip)?)
        }
    }
}

/// The line of what may be wrong with paying this amount, in satoshi, to this payee: its script in hex, and that nobody can ever spend
/// the amount, or that it has no address. Nothing where nothing may be wrong. It refuses only when out of memory.
pub fn payee_warning(alloc: Global, to: &Payee, amount: u64) -> Result<String, Memory>
    ensures { IfOk result (λ text. string_bytes text ≡ payee_warning to.now amount) }
{
    match to {
        Payee::Address(_) => Ok(String::new(alloc)),
        Payee::Script(script) => {
            let slip = slip_in(alloc, script, amount)?;
            warned(alloc, script, slip)
        }
    }
}

/// The lines of what may be wrong with payments, in their order, as [`payee_warning`] says them. It refuses only when out of memory.
pub fn warnings_text(alloc: Global, payments: &[Payment]) -> Result<String, Memory>
    ensures { IfOk result (λ text. string_bytes text ≡ warnings_text payments.now) }
{
    let mut text = String::new(alloc);
    for payment in payments {
        let line = payee_warning(alloc, &payment.to, payment.amount)?;
        text.push_str(line.as_str())?;
    }
    Ok(text)
}
