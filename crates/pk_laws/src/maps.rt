//! Differences of maps.
ghost use Rattle.std.specs.Prelude.{◌≡◌, ◌≢◌, ◌↔◌, [], ◌∷◌, Some, IsSome, IsNone, Contains};
ghost use Rattle.std.specs.FinMap.{get};
ghost use Rattle.pk_base.specs.declared.tag.Tag.{Tag};
ghost use Rattle.pk_base.specs.declared.entity.Entity.{Entity};
ghost use Rattle.pk_model.specs.Tags.{TagsAscend};
ghost use Rattle.pk_model.specs.Maps.{EntityMap, diff};
ghost use Rattle.pk_laws.specs.WorkedMaps.{older, newer, lists};

/// What the difference of two maps is. A tag is fresh exactly where the map left has nothing at it
/// and the map reached has something, gone exactly the other way round, and changed exactly where
/// both have an entity there and these are different. Each of the three lists ascends by the
/// numbers of its tags, so none has a tag twice.
pub fn what_the_lists_are()
    ensures fresh { (left reached : EntityMap) (t : Tag) → Contains (diff left reached).fresh t
        ↔ (IsNone (get left t) × IsSome (get reached t)) }
    ensures gone { (left reached : EntityMap) (t : Tag) → Contains (diff left reached).gone t
        ↔ (IsSome (get left t) × IsNone (get reached t)) }
    ensures changed { (left reached : EntityMap) (t : Tag) → Contains (diff left reached).changed t
        ↔ ((a : Entity) × (b : Entity)
        × (get left t ≡ Some a) × (get reached t ≡ Some b) × (a ≢ b)) }
    ensures ascending { (left reached : EntityMap) → let d = diff left reached in
        TagsAscend d.fresh × TagsAscend d.gone × TagsAscend d.changed }
{}

/// A difference with a tag that is new, one that is gone, one that changed and one that stayed.
pub fn worked_difference()
    ensures { diff older newer ≡ lists (68 ∷ []) (65 ∷ []) (66 ∷ []) }
{}
