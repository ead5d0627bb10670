ghost use Rattle.std.specs.Prelude.{◌≡◌, ◌≤◌, ◌∷◌, length};
ghost use Rattle.entity_store.specs.NextTags.{left};
ghost use Rattle.solid_calls.specs.Pairs.{Takes};

use entity_store::Tags;
use pk_base::{Tag, TagListBuilder};

/// Takes the next tag, and lists it. It takes no memory.
pub fn take_tag(tags: &mut Tags<'_>, out: &mut TagListBuilder) -> Tag
    requires enough { 1 ≤ length (left tags.old) }
    requires spare { 1 ≤ out.old.spare }
    ensures tag { left tags.old ≡ result ∷ left tags.new }
    ensures takes { Takes 1 tags.old out.old tags.new out.new }
{
    let tag = tags.take();
    out.push(tag);
    tag
}
