//! What holds of classes and totals, whatever the code does.

ghost use Rattle.std.specs.Prelude.{ℕ, ◌≡◌, ◌+◌, List, length, map, sum_by};
ghost use Rattle.wallet_text.specs.PlainWallet.{PlainWallet};
ghost use Rattle.coin_book.specs.History.{History};
ghost use Rattle.coin_book.specs.declared.coin.Coin.{Coin};
ghost use Rattle.payment_states.specs.Candidates.{is_candidate};
ghost use Rattle.coin_totals.specs.Classes.{class_of, is_spendable};
ghost use Rattle.coin_totals.specs.Totals.{count_of, held_classes, value_of};
ghost use Rattle.coin_totals.specs.declared.class.CoinClass.TheVariants as class;
ghost use Rattle.coin_totals.specs.declared.classes.ClassedCoin.{ClassedCoin};

/// The law of coins that may be spent: they are exactly those that are confirmed, wait safely, or may be taken back by a stranger. A call
/// does nothing.
pub fn classes_tell_candidates()
    ensures { (w : PlainWallet) (h : History) (tip : ℕ) (c : Coin) → is_candidate w h tip c ≡ is_spendable (class_of w h tip c) }
{}

/// The law of totals: each coin counts once. The numbers of the classes are together the number of the coins, and their values together
/// what all coins are worth. A call does nothing.
pub fn coins_count_once()
    ensures number { (coins : List ClassedCoin) → length coins ≡ sum_by (λ s. count_of s coins) held_classes + count_of class.Gone coins }
    ensures worth { (coins : List ClassedCoin) → sum_by (λ (c : ClassedCoin). c.value) coins ≡ sum_by (λ s. value_of s coins) held_classes + value_of class.Gone coins }
{}
