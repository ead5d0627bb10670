ghost use Rattle.std.specs.Prelude.{◌≡◌, map, length, List, Some};
ghost use Rattle.pk_base.specs.declared.tag.Tag.{Tag};
ghost use Rattle.pk_base.specs.declared.act.Act.{Act};
ghost use Rattle.pk_command.specs.declared.verb.Verb.{Verb};
ghost use Rattle.pk_command.specs.Fields.{kind_of};
ghost use Rattle.pk_command.specs.Commands.{act_of, fields_of, kinds_of, verb_of, verb_of_word, word_of};
ghost use Rattle.pk_command.specs.Operands.{act_on, operands_of};

/// What the text of a command is: an act's fields are of its verb's kinds, its verb and fields make
/// just that act, and no two verbs have one word. Putting an act's own operands back gives the act,
/// and an act has the operands that were put.
pub fn what_a_command_is()
    ensures kinds { (a : Act) → map kind_of (fields_of a) ≡ kinds_of (verb_of a) }
    ensures made_again { (a : Act) → act_of (verb_of a) (fields_of a) ≡ Some a }
    ensures words { (v : Verb) → verb_of_word (word_of v) ≡ Some v }
    ensures put_back { (a : Act) → act_on a (operands_of a) ≡ a }
    ensures put { (a : Act) (tags : List Tag) → length tags ≡ length (operands_of a)
        → operands_of (act_on a tags) ≡ tags }
{}
