//! What follows from the definitions. The functions do nothing: their contracts are the laws.

ghost use Rattle.std.specs.Prelude.{◌≡◌, ℕ, ◌↔◌, List, Some, IsTrue};
ghost use Rattle.std.specs.Map.{keys_of};
ghost use Rattle.om3_coeff.specs.declared.key.Key.{Key};
ghost use Rattle.om3_coeff.specs.declared.coef.Coef.{Coef};
ghost use Rattle.coefficient_cache.specs.declared.series_key.SeriesKey.{SeriesKey};
ghost use Rattle.coefficient_cache.specs.Pairs.{coefficient_at, holds};
ghost use Rattle.coefficient_cache.specs.Views.{AreDistinct, Gives, sent_and_held, looked_up, renewed};
ghost use Rattle.coefficient_cache.specs.Laws.{BothEndsKeepOneList, NeededKeysAreGiven, HeldKeysAreNotSent, OtherSeriesLoseTheLast};

/// A list holds a pair exactly where a look-up of its key gives its coefficient.
pub fn held_is_found()
    ensures { (pairs : List (SeriesKey × Coef)) (e : SeriesKey × Coef) →
        IsTrue (holds pairs e) ↔ (coefficient_at pairs e.0 ≡ Some e.1) }
{}

/// What is sent and what is held give the needed list back: a look-up among the sent pairs first and
/// then in the list gives each needed key its needed coefficient.
pub fn sent_and_held_give_the_needed()
    ensures { (pairs : List (SeriesKey × Coef)) (series : ℕ) (needed : List (Key × Coef)) →
        AreDistinct needed → Gives (sent_and_held pairs series needed) series needed }
{}

/// A client whose list is the server's, and that looks up the needed keys among the sent pairs and in
/// its list, has the needed list. Renewed by what it looked up, its list is again the server's.
pub fn both_ends_keep_one_list()
    ensures looked_up { (pairs : List (SeriesKey × Coef)) (series : ℕ) (needed : List (Key × Coef)) →
        AreDistinct needed →
        looked_up (sent_and_held pairs series needed) series (keys_of needed) ≡ needed }
    ensures renewed { BothEndsKeepOneList }
{}

/// After a view that needs at most as many keys as the capacity, the list holds each of them with its
/// coefficient, so the same view sends nothing then.
pub fn needed_keys_are_held()
    ensures given { NeededKeysAreGiven }
    ensures nothing_to_send { HeldKeysAreNotSent }
{}

/// Of the pairs of any other series a view takes only the least recently used ones: the first ones
/// stay, in their order and with their coefficients.
pub fn other_series_lose_the_last()
    ensures { OtherSeriesLoseTheLast }
{}
