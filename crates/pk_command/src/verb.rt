ghost use Rattle.std.specs.Prelude.{◌≡◌, bytes_eq};
ghost use Rattle.pk_command.specs.Commands.{all_verbs, kinds_of, verb_of_word, word_of};

use crate::Kind;

/// What a command asks for: one verb for each call, and one for each other act.
#[derive(Clone, Copy, Debug, PartialEq, Eq)]
pub enum Verb {
    Mvfs,
    Mev,
    Mef,
    Mekr,
    Mfkrh,
    Kvfs,
    Kev,
    Kef,
    Kemr,
    Kfmrh,
    RingMove,
    Lamina,
    Block,
    Prism,
    Sweep,
    Move,
    Turn,
    Delete,
    SetAttr,
    DropAttr,
    Ask,
    Kids,
    Ring,
    Counts,
    Bodies,
    Mark,
    Goto,
    Unmark,
    Marks,
    Delta,
}

impl Verb {
    /// Its word, as scripts and reports have it.
    pub fn word(self) -> &'static str
        ensures { result.now ≡ word_of self }
    {
        match self {
            Verb::Mvfs => "mvfs",
            Verb::Mev => "mev",
            Verb::Mef => "mef",
            Verb::Mekr => "mekr",
            Verb::Mfkrh => "mfkrh",
            Verb::Kvfs => "kvfs",
            Verb::Kev => "kev",
            Verb::Kef => "kef",
            Verb::Kemr => "kemr",
            Verb::Kfmrh => "kfmrh",
            Verb::RingMove => "ringmove",
            Verb::Lamina => "lamina",
            Verb::Block => "block",
            Verb::Prism => "prism",
            Verb::Sweep => "sweep",
            Verb::Move => "move",
            Verb::Turn => "turn",
            Verb::Delete => "delete",
            Verb::SetAttr => "set",
            Verb::DropAttr => "drop",
            Verb::Ask => "ask",
            Verb::Kids => "kids",
            Verb::Ring => "ring",
            Verb::Counts => "counts",
            Verb::Bodies => "bodies",
            Verb::Mark => "mark",
            Verb::Goto => "goto",
            Verb::Unmark => "unmark",
            Verb::Marks => "marks",
            Verb::Delta => "delta",
        }
    }

    /// The kinds of its fields, in order.
    pub fn kinds(self) -> &'static [Kind]
        ensures { result.now ≡ kinds_of self }
    {
        match self {
            Verb::Mvfs => &[Kind::Point],
            Verb::Mev => &[Kind::Tag, Kind::Point],
            Verb::Mef => &[Kind::Tag, Kind::Tag],
            Verb::Mekr => &[Kind::Tag, Kind::Tag],
            Verb::Mfkrh => &[Kind::Tag],
            Verb::Kvfs => &[Kind::Tag],
            Verb::Kev => &[Kind::Tag],
            Verb::Kef => &[Kind::Tag],
            Verb::Kemr => &[Kind::Tag],
            Verb::Kfmrh => &[Kind::Tag, Kind::Tag],
            Verb::RingMove => &[Kind::Tag, Kind::Tag],
            Verb::Lamina => &[Kind::Number, Kind::Corners],
            Verb::Block => &[Kind::Point, Kind::Point],
            Verb::Prism => &[Kind::Number, Kind::Number, Kind::Corners],
            Verb::Sweep => &[Kind::Tag, Kind::Point],
            Verb::Move => &[Kind::Tag, Kind::Point],
            Verb::Turn => &[Kind::Tag, Kind::Axis, Kind::Number],
            Verb::Delete => &[Kind::Tag],
            Verb::SetAttr => &[Kind::Tag, Kind::Name, Kind::Number],
            Verb::DropAttr => &[Kind::Tag, Kind::Name],
            Verb::Ask => &[Kind::Tag],
            Verb::Kids => &[Kind::Tag],
            Verb::Ring => &[Kind::Tag],
            Verb::Counts => &[Kind::Tag],
            Verb::Bodies => &[],
            Verb::Mark => &[],
            Verb::Goto => &[Kind::Tag],
            Verb::Unmark => &[Kind::Tag],
            Verb::Marks => &[],
            Verb::Delta => &[Kind::Tag],
        }
    }

    /// The verb of this word; `None` exactly where no verb has it.
    pub fn of_word(word: &[u8]) -> Option<Verb>
        ensures { result ≡ verb_of_word word.now }
    {
        all().iter().copied().find(|verb| verb.has_word(word))
    }

    fn has_word(self, word: &[u8]) -> bool
        ensures { result ≡ bytes_eq (word_of self) word.now }
    {
        self.word().as_bytes() == word
    }
}

/// All verbs.
fn all() -> [Verb; 30]
    ensures { result ≡ all_verbs }
{
    [
        Verb::Mvfs,
        Verb::Mev,
        Verb::Mef,
        Verb::Mekr,
        Verb::Mfkrh,
        Verb::Kvfs,
        Verb::Kev,
        Verb::Kef,
        Verb::Kemr,
        Verb::Kfmrh,
        Verb::RingMove,
        Verb::Lamina,
        Verb::Block,
        Verb::Prism,
        Verb::Sweep,
        Verb::Move,
        Verb::Turn,
        Verb::Delete,
        Verb::SetAttr,
        Verb::DropAttr,
        Verb::Ask,
        Verb::Kids,
        Verb::Ring,
        Verb::Counts,
        Verb::Bodies,
        Verb::Mark,
        Verb::Goto,
        Verb::Unmark,
        Verb::Marks,
        Verb::Delta,
    ]
}
