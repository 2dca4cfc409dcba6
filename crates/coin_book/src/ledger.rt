//! What is held of confirmed transactions.

ghost use Rattle.std.specs.Prelude.{◌≡◌, ◌++◌, ◌∷◌, [], ◌+◌, Err, IfOk, None, OnErr, OnOk, length, map, nat_lt, ◌&&◌, ◌||◌, if◌then◌else◌};
ghost use Rattle.std.specs.List.{list_any};
ghost use Rattle.std.specs.Map.{keys_of};
ghost use Rattle.fund_base.specs.Outpoints.{same_outpoint};
ghost use Rattle.fund_base.specs.declared.outpoint.OutPoint.{OutPoint};
ghost use Rattle.coin_book.specs.Places.{spends_in};
ghost use Rattle.coin_book.specs.Spends.{has_input};
ghost use Rattle.coin_book.specs.Faults.{fault_behind};
ghost use Rattle.coin_book.specs.Merging.{Meets, StopsShort, entry_of, held_point, is_new, is_spender};
ghost use Rattle.coin_book.specs.declared.coin.Spend.{Spend};
ghost use Rattle.coin_book.specs.declared.fault.BookFault.TheVariants.{Full, Memory as NoMemory, RepeatCoin};

use crate::coin::Spend;
use crate::fault::BookFault;
use crate::held::Held;
use crate::spends::Spends;
use crate::watched::Watched;
use fund_base::{Memory, OutPoint, Txid};
use indexmap::IndexMap;
use indexmap::map::Entry;
use std::alloc::Global;
use tx_codec::TxIn;

/// The most coins that a book has.
pub const MOST_COINS: usize = 100_000;

/// The listed scripts, each with the weight that is declared for an input which spends it, in weight units.
pub type Weights = IndexMap<Vec<u8>, u64>;

/// The coins of confirmed transactions in order, and so much as is watched of what these spend and of the height of the
/// first of each txid.
pub struct Ledger {
    /// The coins by outpoint, in order of creation.
    pub coins: IndexMap<OutPoint, Held>,
    /// What spends an outpoint, in chain order.
    pub spends: Spends,
    /// The height of the first transaction of a txid.
    pub heights: IndexMap<Txid, u32>,
}

/// One call, wherever it is dropped.
impl Drop for Ledger {
    fn drop(self) {
        let Ledger {
            coins: _,
            spends: _,
            heights: _,
        } = self;
    }
}

impl Ledger {
    /// A ledger of no transactions.
    pub fn new(alloc: Global) -> Ledger
        ensures coins { result.coins.entries ≡ [] }
        ensures spends { (o : OutPoint) → spends_in result.spends o ≡ [] }
        ensures heights { result.heights.entries ≡ [] }
    {
        Ledger {
            coins: IndexMap::new(alloc),
            spends: Spends::new(alloc),
            heights: IndexMap::new(alloc),
        }
    }

    /// A ledger of no transactions, with room for so many coins, and so many outpoints that are spent and heights.
    pub fn with_room(alloc: Global, coins: usize, others: usize) -> Result<Ledger, Memory>
        ensures coins { IfOk result (λ l. l.coins.entries ≡ []) }
        ensures spends { (o : OutPoint) → IfOk result (λ l. spends_in l.spends o ≡ []) }
        ensures heights { IfOk result (λ l. l.heights.entries ≡ []) }
    {
        let mut ledger = Ledger::new(alloc);
        ledger.make_room(coins, others)?;
        Ok(ledger)
    }

    /// Makes room for so many coins more, and for so many outpoints that are spent and heights.
    fn make_room(&mut self, coins: usize, others: usize) -> Result<(), Memory>
        ensures coins { self.new.coins.entries ≡ self.old.coins.entries }
        ensures spends { self.new.spends ≡ self.old.spends }
        ensures heights { self.new.heights.entries ≡ self.old.heights.entries }
    {
        self.coins.reserve(coins)?;
        self.spends.reserve(others)?;
        self.heights.reserve(others)?;
        Ok(())
    }
}

/// Whether a coin stands at this outpoint. Where there are none it isn't looked for.
fn is_there(coins: &IndexMap<OutPoint, Held>, point: &OutPoint) -> bool
    ensures { result ≡ list_any (same_outpoint point.now) (keys_of coins.now.entries) }
{
    if coins.is_empty() {
        return false;
    }
    coins.contains_key(point)
}

/// Whether a coin stands at this outpoint, in either of two maps.
fn stands(
    base: &IndexMap<OutPoint, Held>,
    coins: &IndexMap<OutPoint, Held>,
    point: &OutPoint,
) -> bool
    ensures { result ≡ (list_any (same_outpoint point.now) (keys_of base.now.entries) || list_any (same_outpoint point.now) (keys_of coins.now.entries)) }
{
    is_there(base, point) || is_there(coins, point)
}

/// Whether one coin more is within the most, where those of the two maps are there.
fn has_room(base: &IndexMap<OutPoint, Held>, coins: &IndexMap<OutPoint, Held>) -> bool
    ensures { result ≡ nat_lt (length base.now.entries + length coins.now.entries) 100_000 }
{
    base.len() < MOST_COINS && coins.len() < MOST_COINS - base.len()
}

fn point_of(held: &Held) -> OutPoint
    ensures { result ≡ held_point held.now }
{
    held.coin.coin
}

/// The fault of a coin at this outpoint, where there is no room for one more.
fn fault_beside(
    base: &IndexMap<OutPoint, Held>,
    coins: &IndexMap<OutPoint, Held>,
    point: OutPoint,
) -> BookFault
    ensures { result ≡ (if list_any (same_outpoint point) (keys_of base.now.entries) || list_any (same_outpoint point) (keys_of coins.now.entries) then RepeatCoin point else Full) }
{
    if stands(base, coins, &point) {
        BookFault::RepeatCoin(point)
    } else {
        BookFault::Full
    }
}

/// The fault of a coin at this outpoint that would stand after those of the two maps, if it has one.
pub fn point_fault(
    base: &IndexMap<OutPoint, Held>,
    coins: &IndexMap<OutPoint, Held>,
    point: OutPoint,
) -> Option<BookFault>
    ensures { result ≡ fault_behind (keys_of base.now.entries ++ keys_of coins.now.entries) (point ∷ []) }
{
    if !has_room(base, coins) {
        return Some(fault_beside(base, coins, point));
    }
    if stands(base, coins, &point) {
        return Some(BookFault::RepeatCoin(point));
    }
    None
}

/// Adds a coin after the others, which stand after those of `base`. RepeatCoin comes exactly where its outpoint
/// stands there, and Full where it doesn't and the coin would be number 100,001.
fn add_coin(
    coins: &mut IndexMap<OutPoint, Held>,
    base: &IndexMap<OutPoint, Held>,
    point: OutPoint,
    held: Held,
) -> Result<(), BookFault>
    requires { point ≡ held_point held }
    ensures added { OnOk result (coins.new.entries ≡ coins.old.entries ++ entry_of held ∷ []) }
    ensures exact { Meets result (fault_behind (keys_of base.now.entries ++ keys_of coins.old.entries) (held_point held ∷ [])) }
    ensures short { result ≡ Err NoMemory → fault_behind (keys_of base.now.entries ++ keys_of coins.old.entries) (held_point held ∷ []) ≡ None }
    ensures kept { OnErr result (coins.new.entries ≡ coins.old.entries) }
{
    if !has_room(base, coins) {
        return Err(fault_beside(base, coins, point));
    }
    if is_there(base, &point) {
        return Err(BookFault::RepeatCoin(point));
    }
    match coins.entry(point)? {
        Entry::Vacant(place) => {
            place.insert(held);
            Ok(())
        }
        Entry::Occupied(_) => Err(BookFault::RepeatCoin(point)),
    }
}

/// Adds coins after the others, which stand after those of `base`. RepeatCoin or Full comes exactly where an outpoint
/// would stand twice or a coin be number 100,001, by the first coin of which this is so. When out of memory, those
/// before one coin are added, and no coin up to that one is such a coin.
pub fn add_coins(
    coins: &mut IndexMap<OutPoint, Held>,
    base: &IndexMap<OutPoint, Held>,
    held: Vec<Held>,
) -> Result<(), BookFault>
    ensures added { OnOk result (coins.new.entries ≡ coins.old.entries ++ map entry_of held.items) }
    ensures exact { Meets result (fault_behind (keys_of base.now.entries ++ keys_of coins.old.entries) (map held_point held.items)) }
    ensures short { result ≡ Err NoMemory → StopsShort (keys_of base.now.entries ++ keys_of coins.old.entries) (map held_point held.items) (length coins.old.entries) (length coins.new.entries) }
{
    for one in held {
        match add_coin(coins, base, point_of(&one), one) {
            Ok(()) => {}
            Err(fault) => return Err(fault),
        }
    }
    Ok(())
}

/// Whether one of the spends is that of the transaction of this txid.
#[tactic(auto, unfolding(crate::specs::Merging::is_spender))]
fn is_spender(spends: &[Spend], txid: &Txid) -> bool
    ensures { result ≡ is_spender spends.now txid.now }
{
    spends.iter().any(|spend| spend.txid == *txid)
}

/// Whether a spend of the outpoint by the transaction of this txid is kept.
fn has_spender(spends: &Spends, point: &OutPoint, txid: &Txid) -> bool
    ensures { result ≡ is_spender (spends_in spends.now point.now) txid.now }
{
    is_spender(spends.at(point), txid)
}

/// Whether a spend of the outpoint by the transaction of this txid is to be kept: the outpoint is watched, and none is
/// kept of that transaction, here or in `base`.
fn is_new(watched: &Watched, base: &Spends, spends: &Spends, point: &OutPoint, txid: &Txid) -> bool
    ensures { result ≡ is_new watched.now base.now spends.now txid.now point.now }
{
    watched.has(point) && !(has_spender(base, point, txid) || has_spender(spends, point, txid))
}

/// Adds a spend of one outpoint where it is to be kept.
fn add_spend(
    alloc: Global,
    spends: &mut Spends,
    base: &Spends,
    watched: &Watched,
    point: &OutPoint,
    spend: &Spend,
) -> Result<(), Memory>
    ensures { (o : OutPoint) → OnOk result (spends_in spends.new o ≡ spends_in spends.old o ++ (if same_outpoint point.now o && is_new watched.now base.now spends.old spend.now.txid o then spend.now ∷ [] else [])) }
{
    if !is_new(watched, base, spends, point, &spend.txid) {
        return Ok(());
    }
    spends.put(alloc, point, spend)?;
    Ok(())
}

/// Adds the spend of each outpoint that some input spends, where it is to be kept: once, however many inputs spend it.
pub fn add_spends(
    alloc: Global,
    spends: &mut Spends,
    base: &Spends,
    watched: &Watched,
    inputs: &[TxIn],
    spend: &Spend,
) -> Result<(), Memory>
    ensures { (o : OutPoint) → OnOk result (spends_in spends.new o ≡ spends_in spends.old o ++ (if has_input o inputs.now && is_new watched.now base.now spends.old spend.now.txid o then spend.now ∷ [] else [])) }
{
    for input in inputs {
        add_spend(alloc, spends, base, watched, &input.prev, spend)?;
    }
    Ok(())
}
