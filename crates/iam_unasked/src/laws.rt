// Laws about the definitions, for the crates above.
ghost use Rattle.std.specs.Prelude.{◌≡◌, ◌↔◌, ℕ, List, [], ◌∷◌, All, false};
ghost use Rattle.std.specs.List.{list_any};
ghost use Rattle.iam_context.specs.Context.{ContextValue, has_key, joined, keys_of};
ghost use Rattle.iam_condition.specs.Entry.{EntryValue};
ghost use Rattle.iam_match.specs.Entry.{EntryHolds};
ghost use Rattle.iam_unasked.specs.Asks.{AgreeBut, entry_asks};

/// Conditions that ask for none of some keys hold in both of two contexts that agree on all other keys, or in neither; and contexts
/// whose third parts alone differ agree on all keys that neither of these has.
pub fn unasked_keys()
    ensures conditions { (keys : List (List ℕ)) (one other : ContextValue) (entries : List EntryValue) → AgreeBut keys one other
        → list_any (entry_asks keys) entries ≡ false → All (EntryHolds one) entries ↔ All (EntryHolds other) entries }
    ensures contexts { (keys : List (List ℕ)) (first second one other derived : ContextValue)
        → ((key : List ℕ) → has_key keys key ≡ false → (has_key (keys_of one) key ≡ false) × (has_key (keys_of other) key ≡ false))
        → AgreeBut keys (joined (first ∷ (second ∷ (one ∷ []))) derived) (joined (first ∷ (second ∷ (other ∷ []))) derived) }
{}
