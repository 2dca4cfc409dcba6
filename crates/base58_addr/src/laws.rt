//! Laws of addresses. A call of any of them does nothing.

ghost use Rattle.std.specs.Prelude.{ℕ, ◌≡◌, ◌↔◌, ◌≤◌, List, Ok, Err};
ghost use Rattle.std.specs.Int.Digits.{AllBelowBase};
ghost use Rattle.base58_addr.specs.Address.{IsAddress};
ghost use Rattle.base58_addr.specs.Judging.{Breaks};
ghost use Rattle.base58_addr.specs.Reading.{decode_of};
ghost use Rattle.base58_addr.specs.Rebasing.{rebased};
ghost use Rattle.base58_addr.specs.declared.fault.Base58Fault.{Base58Fault};

/// The law of unique addresses: two addresses of one script are equal, and a text is an address of one script at most.
#[tactic(auto, using(crate::proofs::Addresses::one_text))]
pub fn addresses_are_unique()
    ensures text { (first second script : List ℕ) → IsAddress first script → IsAddress second script → first ≡ second }
    ensures script { (text first second : List ℕ) → IsAddress text first → IsAddress text second → first ≡ second }
{}

/// The law of bases: a row of digits that is written in another base and back is as before, leading zeros included.
#[tactic(auto, using(crate::proofs::Rebased::rebased_back))]
pub fn rows_rebase()
    ensures { (from to : ℕ) (row : List ℕ) → 2 ≤ from → 2 ≤ to → AllBelowBase from row → rebased to from (rebased from to row) ≡ row }
{}

/// The law of [`decode`](crate::decode): it answers a script exactly where the text is an address of it, and each fault
/// exactly where its rule is the first that the text breaks.
pub fn judges_texts()
    ensures script { (text script : List ℕ) → decode_of text ≡ Ok script ↔ IsAddress text script }
    ensures fault { (text : List ℕ) (fault : Base58Fault) → decode_of text ≡ Err fault ↔ Breaks text fault }
{}
