ghost use Rattle.std.specs.Prelude.{ℤ, List};
ghost use Rattle.pk_base.specs.declared.tag.Tag.{Tag};
ghost use Rattle.pk_base.specs.declared.entity.Axis.{Axis};
ghost use Rattle.pk_base.specs.declared.entity.Name.{Name};
ghost use Rattle.pk_base.specs.declared.entity.Pair.{Pair};
ghost use Rattle.pk_base.specs.declared.entity.Triple.{Triple};
ghost use Rattle.pk_base.specs.declared.call.Call.TheVariants.{Mvfs, Mev, Mef, Mekr, Mfkrh, Kvfs, Kev, Kef, Kemr, Kfmrh, RingMove, Move, Turn, Delete, Lamina, Block, Prism, Sweep, SetAttr, DropAttr, Ask, Kids, Ring, Counts, Bodies};
ghost use Rattle.solid_sound.specs.Keeping.{KeepsSoundness, ChangesNothing};

/// The calls that make and kill whole bodies keep soundness.
pub fn bodies_keep_soundness()
    ensures mvfs { (at : Triple) → KeepsSoundness (Mvfs at) }
    ensures kvfs { (body : Tag) → KeepsSoundness (Kvfs body) }
    ensures delete { (body : Tag) → KeepsSoundness (Delete body) }
{}

/// The calls on attributes keep soundness.
pub fn attributes_keep_soundness()
    ensures set { (owner : Tag) (name : Name) (value : ℤ)
        → KeepsSoundness (SetAttr owner name value) }
    ensures drop { (owner : Tag) (name : Name) → KeepsSoundness (DropAttr owner name) }
{}

/// The calls that move and turn a body keep soundness.
pub fn motions_keep_soundness()
    ensures moves { (body : Tag) (by : Triple) → KeepsSoundness (Move body by) }
    ensures turns { (body : Tag) (axis : Axis) (turns : ℤ) → KeepsSoundness (Turn body axis turns) }
{}

/// The operators that give a loop to another face keep soundness.
pub fn rings_keep_soundness()
    ensures mfkrh { (ring : Tag) → KeepsSoundness (Mfkrh ring) }
    ensures kfmrh { (keep kill : Tag) → KeepsSoundness (Kfmrh keep kill) }
    ensures ringmove { (ring face : Tag) → KeepsSoundness (RingMove ring face) }
{}

/// The operators that make an edge keep soundness.
pub fn makes_keep_soundness()
    ensures mev { (end : Tag) (at : Triple) → KeepsSoundness (Mev end at) }
    ensures mef { (start end : Tag) → KeepsSoundness (Mef start end) }
    ensures mekr { (keep ring : Tag) → KeepsSoundness (Mekr keep ring) }
{}

/// The operators that kill an edge keep soundness.
pub fn kills_keep_soundness()
    ensures kev { (fin : Tag) → KeepsSoundness (Kev fin) }
    ensures kef { (fin : Tag) → KeepsSoundness (Kef fin) }
    ensures kemr { (fin : Tag) → KeepsSoundness (Kemr fin) }
{}

/// The calls that are carried out as rows one after another keep soundness.
pub fn folds_keep_soundness()
    ensures lamina { (z : ℤ) (corners : List Pair) → KeepsSoundness (Lamina z corners) }
    ensures sweep { (face : Tag) (by : Triple) → KeepsSoundness (Sweep face by) }
    ensures prism { (z h : ℤ) (corners : List Pair) → KeepsSoundness (Prism z h corners) }
    ensures block { (at size : Triple) → KeepsSoundness (Block at size) }
{}

/// The calls that ask keep soundness.
pub fn queries_keep_soundness()
    ensures ask { (t : Tag) → KeepsSoundness (Ask t) }
    ensures kids { (t : Tag) → KeepsSoundness (Kids t) }
    ensures ring { (ring : Tag) → KeepsSoundness (Ring ring) }
    ensures counts { (body : Tag) → KeepsSoundness (Counts body) }
    ensures bodies { KeepsSoundness Bodies }
{}

/// The calls that ask change nothing.
pub fn queries_change_nothing()
    ensures ask { (t : Tag) → ChangesNothing (Ask t) }
    ensures kids { (t : Tag) → ChangesNothing (Kids t) }
    ensures ring { (ring : Tag) → ChangesNothing (Ring ring) }
    ensures counts { (body : Tag) → ChangesNothing (Counts body) }
    ensures bodies { ChangesNothing Bodies }
{}
