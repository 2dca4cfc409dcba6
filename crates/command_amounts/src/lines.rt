//! Lines of reports.

ghost use Rattle.std.specs.Prelude.{◌≡◌, ◌++◌, ◌∷◌, [], IfOk, OnOk, string_bytes};
ghost use Rattle.command_end.specs.LinesText.{lines_text};
ghost use Rattle.command_amounts.specs.Lines.{figure_lines, in_line, in_lines, psbt_line};

use coin_candidates::Candidate;
use command_end::coin_text;
use fee_rates::vsize;
use fund_base::Memory;
use std::alloc::Global;

/// The line of a coin that is spent.
#[tactic(auto, unfolding(crate::specs::Lines::in_line))]
fn in_line(alloc: Global, coin: &Candidate) -> Result<String, Memory>
    ensures { IfOk result (λ text. string_bytes text ≡ in_line coin.now ++ (10 ∷ [])) }
{
    let point = coin_text(alloc, &coin.coin)?;
    Ok(format!(in alloc; "in {} {}\n", point, coin.value)?)
}

/// Puts the lines of the coins that are spent after the text: of each its txid and index, and its value in satoshi. The error is
/// out of memory.
pub fn put_coins(alloc: Global, text: &mut String, coins: &[Candidate]) -> Result<(), Memory>
    ensures { OnOk result (string_bytes text.new ≡ string_bytes text.old ++ lines_text (in_lines coins.now)) }
{
    for coin in coins {
        let line = in_line(alloc, coin)?;
        text.push_str(line.as_str())?;
    }
    Ok(())
}

/// Puts the lines of the declared weight in weight units, the virtual size in virtual bytes and the fee in satoshi after the
/// text. The error is out of memory.
#[tactic(auto, unfolding(crate::specs::Lines::figure_lines))]
pub fn put_figures(alloc: Global, text: &mut String, weight: u64, fee: u64) -> Result<(), Memory>
    ensures { OnOk result (string_bytes text.new ≡ string_bytes text.old ++ lines_text (figure_lines weight fee)) }
{
    let lines = format!(in alloc; "weight {}\nvsize {}\nfee {}\n", weight, vsize(weight), fee)?;
    text.push_str(lines.as_str())?;
    Ok(())
}

/// Puts the line of the PSBT, which is its text, after the text. The error is out of memory.
pub fn put_psbt(text: &mut String, psbt: &str) -> Result<(), Memory>
    ensures { OnOk result (string_bytes text.new ≡ string_bytes text.old ++ lines_text (psbt_line psbt.now ∷ [])) }
{
    text.push_str("psbt ")?;
    text.push_str(psbt)?;
    text.push_str("\n")?;
    Ok(())
}
