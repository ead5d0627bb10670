//! Commands: the tag operands of an act, and the act with other ones.
ghost use Rattle.std.specs.Prelude.{◌≡◌, [], ◌∷◌};
ghost use Rattle.pk_base.specs.Blocks.{tag};
ghost use Rattle.pk_base.specs.declared.act.Act.TheVariants.{Mark};
ghost use Rattle.pk_command.specs.Operands.{act_on, operands_of};
ghost use Rattle.pk_laws.specs.WorkedJournals.{vertex_body};
ghost use Rattle.pk_laws.specs.WorkedCommands.{ring_move, upward_sweep};

/// The tag operands of a call with two, of one with a tag and a vector, and of a call and an act
/// with none; and the same with other tags in their places, from left to right, where all else
/// stays.
pub fn what_the_operands_are()
    ensures two { operands_of (ring_move 68 70) ≡ tag 68 ∷ tag 70 ∷ [] }
    ensures one { operands_of (upward_sweep 67 3) ≡ tag 67 ∷ [] }
    ensures none_of_call { operands_of (vertex_body 5) ≡ [] }
    ensures none_of_act { operands_of Mark ≡ [] }
    ensures on_two { act_on (ring_move 0 0) (tag 68 ∷ tag 70 ∷ []) ≡ ring_move 68 70 }
    ensures on_one { act_on (upward_sweep 0 3) (tag 67 ∷ []) ≡ upward_sweep 67 3 }
    ensures on_no_tags { act_on (vertex_body 5) [] ≡ vertex_body 5 }
    ensures on_no_fields { act_on Mark [] ≡ Mark }
{}
