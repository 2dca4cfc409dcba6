//! Laws of pools. A call of any of them does nothing.

ghost use Rattle.std.specs.Prelude.{◌≡◌, ◌≢◌, ◌<◌, ◌↔◌, ◌+◌, ◌+ℤ◌, ℕ, pos, true, List, Bool, All, Contains, IsTrue, filter, fold, length};
ghost use Rattle.std.specs.declared.cmp.Ordering.TheVariants.{Equal, Less};
ghost use Rattle.fee_rates.specs.Fee.{input_fee_of};
ghost use Rattle.coin_candidates.specs.Candidates.{AreCandidates};
ghost use Rattle.fund_base.specs.Outpoints.{outpoint_cmp};
ghost use Rattle.coin_candidates.specs.declared.candidate.Candidate.{Candidate};
ghost use Rattle.output_groups.specs.Counting.{kept_count};
ghost use Rattle.output_groups.specs.Forming.{IsGrouping, of_script, starts_with};
ghost use Rattle.output_groups.specs.Hundreds.{AreHundreds};
ghost use Rattle.output_groups.specs.Ladder.{GrowLaxer, IsLaxer, ladder_of};
ghost use Rattle.output_groups.specs.Measures.{IsGroup, is_useful, least_of, net_of, value_of};
ghost use Rattle.output_groups.specs.PlainPool.{PlainPool};
ghost use Rattle.output_groups.specs.Pool.{IsPool, CountsKept, group_cmp, keeps};
ghost use Rattle.output_groups.specs.PoolOf.{pool_of};
ghost use Rattle.output_groups.specs.Taken.{IsTaken};
ghost use Rattle.output_groups.specs.Part.{Part};
ghost use Rattle.output_groups.specs.declared.rows.Row.{Row};

/// Of one row, the same rates and the same candidates there is one pool: the order tells any two of its groups apart.
/// The number of groups that the row keeps is one too.
pub fn one_pool()
    ensures pool { (group : Bool) (row : Row) (rate long_term : ℕ) (cs : List Candidate) (p q : PlainPool) →
        AreCandidates cs → IsPool group row rate long_term cs p → IsPool group row rate long_term cs q → p ≡ q }
    ensures order { (group : Bool) (row : Row) (rate long_term : ℕ) (cs : List Candidate) (p : PlainPool) (g h : List Candidate) →
        AreCandidates cs → IsPool group row rate long_term cs p → Contains p.groups g → Contains p.groups h →
        group_cmp rate long_term g h ≡ Equal → g ≡ h }
    ensures count { (group : Bool) (row : Row) (rate : ℕ) (cs : List Candidate) (m n : ℕ) →
        CountsKept group row rate cs m → CountsKept group row rate cs n → m ≡ n }
{}

/// The pool of a row, as a function of the candidates, the row, the rates and the grouping, is the pool of that row, and
/// of candidates the only one.
pub fn pool_is_one()
    ensures pool { (group : Bool) (row : Row) (rate long_term : ℕ) (cs : List Candidate) →
        IsPool group row rate long_term cs (pool_of group row rate long_term cs) }
    ensures only { (group : Bool) (row : Row) (rate long_term : ℕ) (cs : List Candidate) (p : PlainPool) →
        AreCandidates cs → IsPool group row rate long_term cs p → p ≡ pool_of group row rate long_term cs }
{}

/// The value of a group is the sum of its coins' effective values less their prices. A coin brings something exactly where
/// the fee of its input and its price together are below its value.
pub fn values_are_effective()
    ensures value { (rate : ℕ) (g : List Candidate) → IsGroup rate g →
        pos (value_of rate g) ≡ fold (λ s (c : Candidate). s +ℤ net_of rate c) (pos 0) g }
    ensures useful { (rate : ℕ) (c : Candidate) → (is_useful rate c ≡ true) ↔ (input_fee_of rate c.weight + c.price < c.value) }
{}

/// How many groups a row keeps, counted script by script, is the number of the groups that it keeps, however they are
/// formed.
pub fn counts_kept()
    ensures { (group : Bool) (row : Row) (rate : ℕ) (cs : List Candidate) → CountsKept group row rate cs (kept_count group row rate cs) }
{}

/// With `group` the coins of each script, in their order, stand in groups of 1 to 100, each of 100 but the last; that one
/// is partial if it has fewer and another has 100. These words leave one way to form the groups of a list.
pub fn scripts_stand_in_hundreds()
    ensures groups { (cs : List Candidate) (parts : List Part) (script : List ℕ) → IsGrouping cs parts →
        AreHundreds (of_script script cs) (filter (λ (p : Part). starts_with script p.coins) parts) }
    ensures only { (cs : List Candidate) (parts others : List Part) → AreHundreds cs parts → AreHundreds cs others → parts ≡ others }
{}

/// A row keeps a group exactly where it takes it: by how deep each coin is, by its pending ancestors together and its
/// descendants each, by whether all are safe, and, of a partial one, by whether it takes these.
pub fn rows_take_groups()
    ensures { (row : Row) (p : Part) → 0 < length p.coins → (IsTrue (keeps row p) ↔ IsTaken row p) }
{}

/// The least outpoint of a group is that of one of its coins, and no coin of it has one before.
pub fn least_stands_first()
    ensures held { (g : List Candidate) → 0 < length g → (c : Candidate) × Contains g c × (c.coin ≡ least_of g) }
    ensures first { (g : List Candidate) → All (λ (c : Candidate). outpoint_cmp c.coin (least_of g) ≢ Less) g }
{}

/// Each row of a ladder is laxer than the one before it, and a laxer row keeps each group that the other keeps.
pub fn rows_grow_laxer()
    ensures rows { (zero_conf include_unsafe : Bool) → GrowLaxer (ladder_of zero_conf include_unsafe) }
    ensures kept { (a b : Row) (p : Part) → 0 < length p.coins → IsLaxer a b → IsTrue (keeps a p) → IsTrue (keeps b p) }
{}
