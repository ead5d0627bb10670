//! Loops that are given to another face, and shells of which q changes.
ghost use Rattle.std.specs.Prelude.{◌≡◌, ◌≢◌, [], ◌∷◌, pos, negsuc, ◌≤ℤ◌, option_map, IsTrue};
ghost use Rattle.std.specs.FinMap.{get};
ghost use Rattle.pk_model.specs.Tags.{owns};
ghost use Rattle.pk_model.specs.Maps.{with_entity};
ghost use Rattle.entity_store.specs.Recording.{HasRoomFor};
ghost use Rattle.entity_store.specs.Room.{PutsAmong};
ghost use Rattle.solid_edits.specs.Faces.{IsLoop, IsShell, of_face, with_more};

use entity_store::{Recorder, Steps};
use pk_base::{Entity, Tag};
use std::sync::ledger::Ledger;

/// Gives a loop to another face. It takes no memory.
pub fn give_loop<L: Ledger>(rec: &mut Recorder<'_>, ring: Tag, face: Tag, steps: &mut Steps<L>)
    requires is { IsLoop (get rec.old.store.now.state.map ring) }
    requires owned { IsTrue (owns rec.old.store.now.state.blocks ring) }
    requires face { IsTrue (owns rec.old.store.now.state.blocks face) }
    requires other { face ≢ ring }
    requires room { HasRoomFor rec.old.store.now.recording ring }
    ensures state { rec.new.store.now.state ≡ record rec.old.store.now.state {
      map = with_entity rec.old.store.now.state.map ring
          (option_map (of_face face) (get rec.old.store.now.state.map ring));
    } }
    ensures puts { PutsAmong (ring ∷ []) rec.old.store.now rec.new.store.now }
    ensures same_store { rec.new.store.ghost_name ≡ rec.old.store.ghost_name }
{
    let Some(Entity::Loop { first, lone, .. }) = rec.get(ring, steps) else {
        unreachable!()
    };
    let given = Entity::Loop {
        face,
        first: *first,
        lone: *lone,
    };
    rec.put(ring, Some(given), steps);
}

/// Adds to the q of a shell. It takes no memory.
pub fn add_q<L: Ledger>(rec: &mut Recorder<'_>, shell: Tag, by: i32, steps: &mut Steps<L>)
    requires is { IsShell (get rec.old.store.now.state.map shell) }
    requires low { negsuc 0 ≤ℤ by }
    requires high { by ≤ℤ pos 1 }
    requires room { HasRoomFor rec.old.store.now.recording shell }
    ensures state { rec.new.store.now.state ≡ record rec.old.store.now.state {
      map = with_entity rec.old.store.now.state.map shell
          (option_map (with_more by) (get rec.old.store.now.state.map shell));
    } }
    ensures puts { PutsAmong (shell ∷ []) rec.old.store.now rec.new.store.now }
    ensures same_store { rec.new.store.ghost_name ≡ rec.old.store.ghost_name }
{
    // Its clauses say that the blocks of the shell and of its body are owned.
    let _blocks = rec.view().blocks();
    let Some(Entity::Shell { body, q }) = rec.get(shell, steps) else {
        unreachable!()
    };
    let counted = Entity::Shell {
        body: *body,
        q: *q + by,
    };
    rec.put(shell, Some(counted), steps);
}
