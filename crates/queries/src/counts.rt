//! The counts of a body.
ghost use Rattle.std.specs.Prelude.{◌≡◌, ◌<◌, ◌≤◌, ◌^◌, ℕ, pos, Ok, IsOk, length};
ghost use Rattle.pk_base.specs.declared.act.Reply.TheVariants.{Counts};
ghost use Rattle.pk_base.specs.declared.call.Call.TheVariants.{Counts as CountsOf};
ghost use Rattle.solid_model.specs.Owners.{parts_of_class};
ghost use Rattle.solid_model.specs.Places.{body_at as the_body_at, q_at};
ghost use Rattle.solid_model.specs.Rows.{tells};
ghost use Rattle.solid_model.specs.Shapes.{shape_of};
ghost use Rattle.solid_model.specs.Sound.{IsSound};
ghost use Rattle.solid_calls.specs.Pairs.{NeedsAsRow, row_on};
ghost use Rattle.queries.specs.Formula.{rings_by_formula};

use entity_store::{Need, Steps, Store};
use pk_base::{Class, Counted, Entity, Refusal, Tag};
use solid_places::body_at;
use std::sync::ledger::Ledger;

/// What `counts_do` needs, or why it is refused. It takes no memory.
pub fn counts_need<L: Ledger>(
    store: &Store,
    body: Tag,
    steps: &mut Steps<L>,
) -> Result<Need, Refusal>
    requires { IsSound store.now.state.map }
    ensures { NeedsAsRow store.now.state.map (CountsOf body) result }
{
    body_at(store, body, steps)?;
    Ok(Need {
        tags: 0,
        changes: 0,
        list: 0,
    })
}

/// How many vertices, edges and faces a body has, how many loops more than faces, and its shell's q.
///
/// The loops are not counted. In every solid the vertices less the edges and with the faces, less
/// the loops that are more than the faces, are twice q (the formula of Euler and Poincaré): so the
/// other numbers tell how many loops more than faces there are.
///
/// Refuses, in this order: a tag that is not live (`NoSuchTag`), and one that is no body's
/// (`WrongClass`).
pub fn counts_do<L: Ledger>(store: &Store, body: Tag, steps: &mut Steps<L>) -> Counted
    requires sound { IsSound store.now.state.map }
    requires goes { IsOk (row_on store.now.state.map (CountsOf body)) }
    ensures { row_on store.now.state.map (CountsOf body) ≡ tells (Counts result) }
{
    // Its clauses say that the blocks own the tag of each entity, so there are few.
    let _blocks = store.blocks();
    let shell = body_at(store, body, steps).unwrap();
    let vertices = count_parts(store, Class::Vertex, body, steps);
    let edges = count_parts(store, Class::Edge, body, steps);
    let faces = count_parts(store, Class::Face, shell, steps);
    let q = q_of(store, shell, steps);
    let rings = rings_of(vertices, edges, faces, q);
    Counted {
        vertices,
        edges,
        faces,
        rings,
        q,
    }
}

/// How many loops more than faces a body has, by the formula of Euler and Poincaré.
fn rings_of(vertices: u32, edges: u32, faces: u32, q: i32) -> u32
    requires { (rings : ℕ) × (rings < 2 ^ 32)
        × (rings_by_formula vertices edges faces q ≡ pos rings) }
    ensures { pos result ≡ rings_by_formula vertices edges faces q }
{
    let rings = i64::from(vertices) - i64::from(edges) + i64::from(faces) - 2 * i64::from(q);
    rings as u32
}

/// How many entities of a class an entity owns.
fn count_parts<L: Ledger>(store: &Store, class: Class, owner: Tag, steps: &mut Steps<L>) -> u32
    requires { IsSound store.now.state.map }
    ensures parts { result
        ≡ length (parts_of_class class (shape_of store.now.state.map) owner) }
    ensures few { result ≤ 16777152 }
{
    // Its clauses say that the blocks own the tag of each entity, so there are few.
    let _blocks = store.blocks();
    let mut kids = store.kids(owner);
    let mut count: u32 = 0;
    while let Some((_, kid)) = kids.next(steps) {
        if kid.class() == class {
            count += 1;
        }
    }
    count
}

/// The q of a shell.
fn q_of<L: Ledger>(store: &Store, shell: Tag, steps: &mut Steps<L>) -> i32
    requires sound { IsSound store.now.state.map }
    requires shell { (body : Tag) × (the_body_at (shape_of store.now.state.map) body ≡ Ok shell) }
    ensures { result ≡ q_at (shape_of store.now.state.map) shell }
{
    let entity = store.get(shell, steps).unwrap();
    let Entity::Shell { q, .. } = entity else {
        unreachable!()
    };
    *q
}
