//! Orders of a thread before they reach a partition, and the names that it binds.
ghost use Rattle.std.specs.Prelude.{◌≡◌, [], ◌∷◌, None, Some, Ok, Err};
ghost use Rattle.pk_base.specs.declared.act.Act.TheVariants.{Mark};
ghost use Rattle.pk_base.specs.Blocks.{tag};
ghost use Rattle.pk_base.specs.declared.act.Reply.TheVariants.{Made, Done};
ghost use Rattle.pk_base.specs.declared.refusal.Refusal.TheVariants.{NoPartition, NotLocked, AlreadyLocked, LockOrder, NoName, InitialMark};
ghost use Rattle.script_text.specs.Walk.{refusal_of_order, bind_name, tag_of_operand};
ghost use Rattle.pk_laws.specs.WorkedOrders.{goto_in, holder_of, name_b, name_m, name_q, binding};
ghost use Rattle.script_text.specs.declared.script.Operand.TheVariants.{Named};
ghost use Rattle.script_text.specs.declared.script.Order.TheVariants.{End, Lock, On, Unlock};

/// Orders that are refused before they reach a partition, each with its refusal, and three that are
/// not, in a session of two partitions. The name `b` is bound to five tags, and `q` to none.
pub fn what_is_turned_away()
    ensures no_name { refusal_of_order 2 (holder_of (2 ∷ [])) (goto_in 2 (Named name_q 0))
        ≡ Some (NoName 1) }
    ensures past_the_list { refusal_of_order 2 (holder_of (2 ∷ [])) (goto_in 2 (Named name_b 5))
        ≡ Some (NoName 1) }
    ensures name_first { refusal_of_order 2 (holder_of []) (goto_in 3 (Named name_q 0))
        ≡ Some (NoName 1) }
    ensures no_partition { refusal_of_order 2 (holder_of (2 ∷ [])) (Lock 3) ≡ Some (NoPartition 3) }
    ensures not_locked { refusal_of_order 2 (holder_of []) (On 1 Mark [] None)
        ≡ Some (NotLocked 1) }
    ensures not_unlocked { refusal_of_order 2 (holder_of (2 ∷ [])) (Unlock 1) ≡ Some (NotLocked 1) }
    ensures already_locked { refusal_of_order 2 (holder_of (2 ∷ [])) (Lock 2)
        ≡ Some (AlreadyLocked 2) }
    ensures lock_order { refusal_of_order 2 (holder_of (2 ∷ [])) (Lock 1) ≡ Some (LockOrder 2) }
    ensures lock { refusal_of_order 2 (holder_of []) (Lock 2) ≡ None }
    ensures act { refusal_of_order 2 (holder_of (2 ∷ [])) (goto_in 2 (Named name_b 4)) ≡ None }
    ensures end { refusal_of_order 2 (holder_of (1 ∷ 2 ∷ [])) End ≡ None }
{}

/// What a name is bound to: the list of a reply that has one, and nothing new where it has none,
/// where the act is refused, or where the order has no name. A name that was bound twice has the
/// newest list.
pub fn what_a_name_is_bound_to()
    ensures list { bind_name (Some name_m) (Ok (Made (tag 70 ∷ []))) (binding name_b 65 ∷ [])
        ≡ binding name_m 70 ∷ binding name_b 65 ∷ [] }
    ensures no_list { bind_name (Some name_m) (Ok Done) (binding name_b 65 ∷ [])
        ≡ binding name_b 65 ∷ [] }
    ensures refused { bind_name (Some name_m) (Err InitialMark) (binding name_b 65 ∷ [])
        ≡ binding name_b 65 ∷ [] }
    ensures no_name { bind_name None (Ok (Made (tag 70 ∷ []))) (binding name_b 65 ∷ [])
        ≡ binding name_b 65 ∷ [] }
    ensures newest { tag_of_operand (binding name_m 71 ∷ binding name_m 70 ∷ []) (Named name_m 0)
        ≡ Some (tag 71) }
    ensures other { tag_of_operand (binding name_m 71 ∷ binding name_b 65 ∷ []) (Named name_b 0)
        ≡ Some (tag 65) }
{}
