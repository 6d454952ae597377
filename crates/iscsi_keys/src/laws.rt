ghost use Rattle.std.specs.Prelude.{◌≡◌, ℕ, List, ◌++◌};
ghost use Rattle.iscsi_keys.specs.Negotiations.{Offer, begun, after};
ghost use Rattle.iscsi_keys.specs.Parameters.{AreInRange};
ghost use Rattle.iscsi_keys.specs.Texts.{HasNo, Pair, item_bytes, first_item};
ghost use Rattle.iscsi_keys.specs.declared.answer.Terms.{Terms};

/// Law: whatever a login offers, what it agrees is in its ranges, and the first burst is no longer than a burst.
pub fn agreed_in_range()
    ensures { (terms : Terms) (offers : List Offer) → AreInRange (after (begun terms) offers).parameters }
{}

/// Law: a text that begins with an item has its key and its value at its front, and then the rest.
pub fn item_is_read()
    ensures { (key value rest : List ℕ) → HasNo 0 key → HasNo 61 key → HasNo 0 value → first_item (item_bytes key value ++ rest) ≡ Pair key value rest }
{}
