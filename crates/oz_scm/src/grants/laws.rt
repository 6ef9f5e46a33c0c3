//! What the bodies of the storage container manager's journal make, and which ids they grant.

ghost use Rattle.std.specs.Prelude.{◌≡◌, ◌<◌, ◌≤◌, ◌^◌, ◌++◌, ◌∷◌, [], ℕ, List, Option, Some, length, slice_get, true};
ghost use Rattle.oz_scm.specs.declared.grants.entry.Entry.TheVariants.{Nodes as Names, Granted as Says, Stepped as Goes};
ghost use Rattle.oz_scm.specs.declared.grants.entry.Entry.TheVariants.{Logged as Logs, Acked as Acks, Retired as Retires};
ghost use Rattle.oz_dellog.specs.declared.txn.Txn.{Txn as AnyTxn};
ghost use Rattle.std.specs.List.{AllByRecursion};
ghost use Rattle.oz_container.specs.declared.state.Event.{Event as AnyEvent};
ghost use Rattle.oz_scm.specs.declared.grants.entry.Grant.{Grant as AnyGrant};
ghost use Rattle.oz_scm.specs.declared.grants.limits.TheConstants.{FIRST_ID};
ghost use Rattle.oz_scm.specs.grants.Build.{Makes, FailsAt};
ghost use Rattle.oz_scm.specs.grants.Entries.{entry_bytes};
ghost use Rattle.oz_scm.specs.grants.Fresh.{AreFresh, grants_in};
ghost use Rattle.oz_scm.specs.grants.Made.{Made, MayGrant, MayStep, after_grant, after_step, begun, is_node_count, is_stripe};
ghost use Rattle.oz_scm.specs.grants.Made.{MayLog, MayAck, MayRetire, after_log, after_ack, after_retirement};
ghost use Rattle.oz_scm.specs.grants.Log.{IsOrdered};

/// Bodies make one thing, or are damaged at one place, and not both.
pub fn bodies_make_one_thing()
    ensures one_thing { (bodies : List (List ℕ)) (found other : Option Made) →
        Makes bodies found → Makes bodies other → found ≡ other }
    ensures not_both { (bodies : List (List ℕ)) (found : Option Made) (body at : ℕ) →
        Makes bodies found → FailsAt bodies body at → ⊥ }
    ensures one_fault { (bodies : List (List ℕ)) (body at other place : ℕ) →
        FailsAt bodies body at → FailsAt bodies other place → (body ≡ other) × (at ≡ place) }
    ensures within { (bodies : List (List ℕ)) (body at : ℕ) → FailsAt bodies body at →
        (bytes : List ℕ) × (slice_get bodies body ≡ Some bytes) × (at ≤ length bytes) }
{}

/// What is written is read again as one entry more.
pub fn an_entry_is_one_body_more()
    ensures first { (count : ℕ) → is_node_count count ≡ true →
        Makes (entry_bytes (Names count) ∷ []) (Some (begun count)) }
    ensures grant { (bodies : List (List ℕ)) (made : Made) (stripe : ℕ) (grant : AnyGrant) →
        Makes bodies (Some made) → is_stripe stripe ≡ true → MayGrant made grant →
        grant.container < 2 ^ 64 → grant.pipeline < 2 ^ 8 →
        Makes (bodies ++ entry_bytes (Says stripe grant) ∷ []) (Some (after_grant grant made)) }
    ensures step { (bodies : List (List ℕ)) (made : Made) (container : ℕ) (event : AnyEvent) →
        Makes bodies (Some made) → MayStep made container event → container < 2 ^ 64 →
        Makes (bodies ++ entry_bytes (Goes container event) ∷ []) (Some (after_step container event made)) }
    ensures log { (bodies : List (List ℕ)) (made : Made) (txn : AnyTxn) →
        Makes bodies (Some made) → MayLog made txn → txn.number < 2 ^ 64 → txn.container < 2 ^ 64 →
        AllByRecursion (λ local. local < 2 ^ 64) txn.locals →
        Makes (bodies ++ entry_bytes (Logs txn) ∷ []) (Some (after_log txn made)) }
    ensures ack { (bodies : List (List ℕ)) (made : Made) (number dn : ℕ) →
        Makes bodies (Some made) → MayAck made number dn → number < 2 ^ 64 → dn < 2 ^ 8 →
        Makes (bodies ++ entry_bytes (Acks number dn) ∷ []) (Some (after_ack number dn made)) }
    ensures retirement { (bodies : List (List ℕ)) (made : Made) (number : ℕ) →
        Makes bodies (Some made) → MayRetire made number → number < 2 ^ 64 →
        Makes (bodies ++ entry_bytes (Retires number) ∷ []) (Some (after_retirement number made)) }
{}

/// However often a journal is loaded and added to, no id stands in two of its grants, and the next one in none.
pub fn no_id_is_granted_twice()
    ensures { (bodies : List (List ℕ)) (made : Made) →
        Makes bodies (Some made) → AreFresh FIRST_ID (grants_in bodies) made.next_id }
{}

/// Transactions that bodies make have numbers up to the last one, and who acknowledged one is a member of its container.
pub fn what_is_logged_is_ordered()
    ensures { (bodies : List (List ℕ)) (made : Made) → Makes bodies (Some made) → IsOrdered made }
{}
