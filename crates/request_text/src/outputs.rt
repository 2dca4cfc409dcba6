//! The outputs of recipients together, as far as a payment within its weight can have them.

ghost use Rattle.std.specs.Prelude.{◌≡◌, ◌≤◌, length, min, sum_by};
ghost use Rattle.fee_rates.specs.Output.{output_size_of};
ghost use Rattle.request_text.specs.declared.request.Recipient.{Recipient};

use crate::request::Recipient;
use fee_rates::output_size;

/// What counts for a greater sum of sizes and a greater number of recipients: no payment of so many is within its weight.
pub const MOST_COUNTED: u64 = 1_000_000_000;

/// The sizes of the recipients' outputs together, in bytes.
pub fn outputs_size(recipients: &[Recipient]) -> u64
    ensures value { result ≡ min (sum_by (λ (q : Recipient). output_size_of q.script) recipients.now) 1_000_000_000 }
    ensures most { result ≤ MOST_COUNTED }
{
    let mut size = 0;
    for recipient in recipients {
        size = output_size(&recipient.script)
            .saturating_add(size)
            .min(MOST_COUNTED);
    }
    size
}

/// The number of the recipients' outputs.
pub fn outputs_count(recipients: &[Recipient]) -> u64
    ensures value { result ≡ min (length recipients.now) 1_000_000_000 }
    ensures most { result ≤ MOST_COUNTED }
{
    (recipients.len() as u64).min(MOST_COUNTED)
}
