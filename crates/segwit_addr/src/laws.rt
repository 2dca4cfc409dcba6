//! Laws of addresses. A call of any of them does nothing.

ghost use Rattle.std.specs.Prelude.{ℕ, ◌≡◌, ◌↔◌, ◌<◌, ◌^◌, List, ◌++◌, All, Ok, Err, IsFalse, length, map, slice_index};
ghost use Rattle.std.specs.Char.{to_ascii_lowercase};
ghost use Rattle.fund_base.specs.Cursor.{IsBytes};
ghost use Rattle.segwit_addr.specs.Address.{IsAddress, sum_in, sum_of, version_of};
ghost use Rattle.segwit_addr.specs.Judging.{Breaks};
ghost use Rattle.segwit_addr.specs.Reading.{decode_of, is_badly_padded};
ghost use Rattle.segwit_addr.specs.declared.fault.AddrFault.{AddrFault};
ghost use Rattle.segwit_addr.specs.Bech32.{checksum_of, expanded, polymod};
ghost use Rattle.segwit_addr.specs.Regrouping.{bytes_of, values_of};

/// The law of unique addresses: two addresses of one script differ in the case of letters alone, and a text is an
/// address of one script at most.
#[tactic(auto, using(crate::proofs::Addresses::one_text, crate::proofs::Addresses::one_script))]
pub fn addresses_are_unique()
    ensures text { (first second script : List ℕ) → IsAddress first script → IsAddress second script →
        map to_ascii_lowercase first ≡ map to_ascii_lowercase second }
    ensures script { (text first second : List ℕ) → IsAddress text first → IsAddress text second → first ≡ second }
{}

/// The law of whole addresses: the checksum of one is the constant of its version, that of bech32 at version 0, and
/// else that of bech32m.
#[tactic(auto, using(crate::proofs::Addresses::address_sum))]
pub fn addresses_check()
    ensures { (text script : List ℕ) → IsAddress text script →
        sum_in (map to_ascii_lowercase text) ≡ sum_of (version_of (slice_index script 0)) }
{}

/// The law of checksums: the six values of one give the whole row the constant that is asked for, and no other six do.
#[tactic(auto, using(crate::proofs::Sums::checksum_reaches, crate::proofs::Sums::checksum_found))]
pub fn checksums_are_unique()
    ensures reaches { (prefix values : List ℕ) (constant : ℕ) → constant < 2 ^ 30 →
        polymod (expanded prefix ++ (values ++ checksum_of prefix values constant)) ≡ constant }
    ensures only { (prefix values last : List ℕ) (constant : ℕ) → length last ≡ 6 → All (λ v. v < 32) last →
        polymod (expanded prefix ++ (values ++ last)) ≡ constant → checksum_of prefix values constant ≡ last }
{}

/// The law of regrouping: bytes regrouped into values of five bits are well padded, and regrouped back they are as
/// before; so are values that are well padded.
#[tactic(auto, using(crate::proofs::Regrouped::bytes_of_values, crate::proofs::Regrouped::values_of_bytes, crate::proofs::Regrouped::values_padded))]
pub fn programs_regroup()
    ensures bytes { (bytes : List ℕ) → IsBytes bytes → bytes_of (values_of bytes) ≡ bytes }
    ensures padding { (bytes : List ℕ) → IsFalse (is_badly_padded (values_of bytes)) }
    ensures values { (values : List ℕ) → All (λ v. v < 32) values → IsFalse (is_badly_padded values) → values_of (bytes_of values) ≡ values }
{}

/// The law of [`decode`](crate::decode): it answers a script exactly where the text is an address of it, and each fault
/// exactly where its rule is the first that the text breaks.
pub fn judges_texts()
    ensures script { (text script : List ℕ) → decode_of text ≡ Ok script ↔ IsAddress text script }
    ensures fault { (text : List ℕ) (fault : AddrFault) → decode_of text ≡ Err fault ↔ Breaks text fault }
{}
