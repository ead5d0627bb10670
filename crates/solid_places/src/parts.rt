ghost use Rattle.std.specs.Prelude.{◌≡◌, length, nat_lt};
ghost use Rattle.solid_model.specs.Owners.{has_rings as the_has_rings, parts_of_class};
ghost use Rattle.solid_model.specs.Shapes.{shape_of};
ghost use Rattle.solid_model.specs.Sound.{IsSound};

use entity_store::{Steps, Store};
use pk_base::{Class, Tag};
use std::sync::ledger::Ledger;

/// Whether a face has more than one loop. It takes no memory.
pub fn has_rings<L: Ledger>(store: &Store, face: Tag, steps: &mut Steps<L>) -> bool
    requires { IsSound store.now.state.map }
    ensures { result ≡ the_has_rings (shape_of store.now.state.map) face }
{
    has_more_parts(store, Class::Loop, face, 1, steps)
}

/// Whether an entity owns more than so many entities of a class. It looks no further than the first
/// one past them, and takes no memory.
pub fn has_more_parts<L: Ledger>(
    store: &Store,
    class: Class,
    owner: Tag,
    than: usize,
    steps: &mut Steps<L>,
) -> bool
    requires { IsSound store.now.state.map }
    ensures { result
        ≡ nat_lt than (length (parts_of_class class (shape_of store.now.state.map) owner)) }
{
    let mut kids = store.kids(owner);
    let mut count: usize = 0;
    while let Some((_, kid)) = kids.next(steps) {
        if kid.class() == class {
            if count == than {
                return true;
            }
            count += 1;
        }
    }
    false
}
