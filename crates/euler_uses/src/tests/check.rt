//! The ten facts of a sound solid, each read from the entities alone.
use super::reading::{MANY_FINS, class_at, face_at, fin_at, loop_at, shell_at, shell_of};
use entity_store::{Steps, Store};
use pk_base::{Class, Counted, Entity, Name, Point, Tag};
use std::process::Abort;
use std::sync::ledger::Ledger;

/// The greatest coordinate of a point; the least is its negative.
const MOST_COORDINATE: i32 = 1_048_576;

/// The entities by their tags, and a list of all that are live.
#[derive(Clone, Copy)]
pub struct Solids<'a> {
    pub store: &'a Store,
    pub live: &'a [(Tag, Entity)],
}

/// Each fact holds of each entity.
pub fn check<L: Ledger>(rt: &impl Abort, solids: Solids<'_>, step: u32, steps: &mut Steps<L>) {
    assert_eq!(rt;
        solids.store.len(),
        solids.live.len(),
        "live in step {step}"
    );
    for (tag, entity) in solids.live {
        check_parts(rt, solids, *tag, entity, step, steps);
        check_whole(rt, solids, *tag, entity, step, steps);
    }
}

fn check_parts<L: Ledger>(
    rt: &impl Abort,
    solids: Solids<'_>,
    tag: Tag,
    entity: &Entity,
    step: u32,
    steps: &mut Steps<L>,
) {
    let store = solids.store;
    assert!(rt;
        names_its_kind(store, entity, steps),
        "what {tag} names in step {step}"
    );
    assert!(rt;
        has_shell(solids, tag, entity, steps),
        "shell of {tag} in step {step}"
    );
    assert!(rt;
        is_linked(store, tag, entity, steps),
        "neighbours of {tag} in step {step}"
    );
    assert!(rt;
        is_ring(solids, tag, entity, steps),
        "ring of {tag} in step {step}"
    );
    assert!(rt;
        is_mated(store, tag, entity, steps),
        "mate of {tag} in step {step}"
    );
    assert!(rt;
        has_fins(solids, tag, entity, steps),
        "fins of {tag} in step {step}"
    );
    assert!(rt;
        follows_on(store, entity, steps),
        "start after {tag} in step {step}"
    );
}

fn check_whole<L: Ledger>(
    rt: &impl Abort,
    solids: Solids<'_>,
    tag: Tag,
    entity: &Entity,
    step: u32,
    steps: &mut Steps<L>,
) {
    let store = solids.store;
    assert!(rt;
        is_lone_if_bare(entity),
        "lone vertex of {tag} in step {step}"
    );
    assert!(rt;
        has_its_outer(store, tag, entity, steps),
        "outer loop of {tag} in step {step}"
    );
    assert!(rt;
        goes_round(solids, tag, entity, steps),
        "fins round {tag} in step {step}"
    );
    assert!(rt;
        is_in_one_body(store, tag, entity, steps),
        "body of {tag} in step {step}"
    );
    assert!(rt;
        has_a_host(solids, entity, steps),
        "owner of {tag} in step {step}"
    );
    assert!(rt;
        meets_formula(solids, tag, entity, steps),
        "formula of {tag} in step {step}"
    );
    assert!(rt; is_in_range(entity), "point of {tag} in step {step}");
}

// ---- 1: each named tag is live, and of the class that is asked for; a shell and its body name
// each other, and a body has a face

fn is_a<L: Ledger>(store: &Store, tag: Tag, class: Class, steps: &mut Steps<L>) -> bool {
    class_at(store, tag, steps) == Some(class)
}

/// Whether the tag, where there is one, is of the class.
fn is_no_other<L: Ledger>(
    store: &Store,
    tag: Option<Tag>,
    class: Class,
    steps: &mut Steps<L>,
) -> bool {
    match tag {
        None => true,
        Some(tag) => is_a(store, tag, class, steps),
    }
}

fn names_its_kind<L: Ledger>(store: &Store, entity: &Entity, steps: &mut Steps<L>) -> bool {
    match entity {
        Entity::Body { shell } => is_a(store, *shell, Class::Shell, steps),
        Entity::Shell { body, .. } => is_a(store, *body, Class::Body, steps),
        Entity::Face { shell, outer } => {
            is_a(store, *shell, Class::Shell, steps) && is_a(store, *outer, Class::Loop, steps)
        }
        Entity::Loop { face, first, lone } => {
            is_a(store, *face, Class::Face, steps)
                && is_no_other(store, *first, Class::Fin, steps)
                && is_no_other(store, *lone, Class::Vertex, steps)
        }
        Entity::Fin {
            loop_,
            next,
            prev,
            mate,
            edge,
            vertex,
        } => {
            is_a(store, *loop_, Class::Loop, steps)
                && is_a(store, *next, Class::Fin, steps)
                && is_a(store, *prev, Class::Fin, steps)
                && is_a(store, *mate, Class::Fin, steps)
                && is_a(store, *edge, Class::Edge, steps)
                && is_a(store, *vertex, Class::Vertex, steps)
        }
        Entity::Edge { body, fin } => {
            is_a(store, *body, Class::Body, steps) && is_a(store, *fin, Class::Fin, steps)
        }
        Entity::Vertex { body, .. } => is_a(store, *body, Class::Body, steps),
        Entity::Attr { .. } => true,
    }
}

fn has_shell<L: Ledger>(
    solids: Solids<'_>,
    tag: Tag,
    entity: &Entity,
    steps: &mut Steps<L>,
) -> bool {
    match entity {
        Entity::Body { shell } => {
            let its_body = shell_at(solids.store, *shell, steps).map(|shell| shell.0);
            its_body == Some(tag) && has_a_face(solids.live, *shell)
        }
        Entity::Shell { body, .. } => {
            let its_shell = Entity::Body { shell: tag };
            solids.store.get(*body, steps).copied() == Some(its_shell)
        }
        Entity::Face { .. }
        | Entity::Loop { .. }
        | Entity::Fin { .. }
        | Entity::Edge { .. }
        | Entity::Vertex { .. }
        | Entity::Attr { .. } => true,
    }
}

fn has_a_face(live: &[(Tag, Entity)], its_shell: Tag) -> bool {
    for (_, entity) in live {
        if let Entity::Face { shell, .. } = entity {
            if *shell == its_shell {
                return true;
            }
        }
    }
    false
}

// ---- 2: each fin stands in just one loop's cyclic list, once

/// A fin's neighbours know it, and are in its loop, which it does not stand before the first of.
fn is_linked<L: Ledger>(store: &Store, tag: Tag, entity: &Entity, steps: &mut Steps<L>) -> bool {
    let Entity::Fin {
        loop_,
        next,
        prev,
        ..
    } = entity
    else {
        return true;
    };
    let after = fin_at(store, *next, steps);
    let before = fin_at(store, *prev, steps);
    let first = loop_at(store, *loop_, steps).and_then(|ring| ring.1);
    after.map(|fin| (fin.prev, fin.loop_)) == Some((tag, *loop_))
        && before.map(|fin| (fin.next, fin.loop_)) == Some((tag, *loop_))
        && first.is_some_and(|first| first <= tag)
}

/// From a loop's first fin on, there come as many fins until the first one again as there are of
/// the loop. Each knows the one before it, so that none came twice.
fn is_ring<L: Ledger>(solids: Solids<'_>, tag: Tag, entity: &Entity, steps: &mut Steps<L>) -> bool {
    let Entity::Loop { first, .. } = entity else {
        return true;
    };
    let fins = count_fins_of(solids.live, tag);
    match first {
        None => fins == 0,
        Some(first) => length_from(solids.store, *first, tag, steps) == Some(fins),
    }
}

/// How many fins come from a fin on until it comes again; nothing where one of them is of another
/// loop.
fn length_from<L: Ledger>(
    store: &Store,
    first: Tag,
    ring: Tag,
    steps: &mut Steps<L>,
) -> Option<u32> {
    let mut at = first;
    for length in 1..MANY_FINS {
        let fin = fin_at(store, at, steps)?;
        if fin.loop_ != ring {
            return None;
        }
        at = fin.next;
        if at == first {
            return Some(length);
        }
    }
    None
}

/// How many fins name this loop.
pub fn count_fins_of(live: &[(Tag, Entity)], its_loop: Tag) -> u32 {
    let mut count = 0u32;
    for (_, entity) in live {
        if let Entity::Fin { loop_, .. } = entity {
            count = count.saturating_add(u32::from(*loop_ == its_loop));
        }
    }
    count
}

// ---- 3: mates are mutual and different; an edge has just two fins, which are mates, and names the
// lesser; no edge starts and ends at one vertex

fn is_mated<L: Ledger>(store: &Store, tag: Tag, entity: &Entity, steps: &mut Steps<L>) -> bool {
    let Entity::Fin {
        mate,
        edge,
        vertex,
        ..
    } = entity
    else {
        return true;
    };
    let Some(other) = fin_at(store, *mate, steps) else {
        return false;
    };
    *mate != tag && other.mate == tag && other.edge == *edge && other.vertex != *vertex
}

fn has_fins<L: Ledger>(
    solids: Solids<'_>,
    tag: Tag,
    entity: &Entity,
    steps: &mut Steps<L>,
) -> bool {
    let Entity::Edge { fin, .. } = entity else {
        return true;
    };
    let Some(lesser) = fin_at(solids.store, *fin, steps) else {
        return false;
    };
    lesser.edge == tag && *fin < lesser.mate && count_fins_with(solids.live, tag) == 2
}

fn count_fins_with(live: &[(Tag, Entity)], its_edge: Tag) -> u32 {
    let mut count = 0u32;
    for (_, entity) in live {
        if let Entity::Fin { edge, .. } = entity {
            count = count.saturating_add(u32::from(*edge == its_edge));
        }
    }
    count
}

// ---- 4: the fin after f starts where the mate of f starts

fn follows_on<L: Ledger>(store: &Store, entity: &Entity, steps: &mut Steps<L>) -> bool {
    let Entity::Fin { next, mate, .. } = entity else {
        return true;
    };
    let start = fin_at(store, *next, steps).map(|fin| fin.vertex);
    let end = fin_at(store, *mate, steps).map(|fin| fin.vertex);
    start.is_some() && start == end
}

// ---- 5: a loop has a lone vertex just where it has no first fin

fn is_lone_if_bare(entity: &Entity) -> bool {
    let Entity::Loop { first, lone, .. } = entity else {
        return true;
    };
    first.is_none() == lone.is_some()
}

// ---- 6: a face's outer loop is one of its loops

fn has_its_outer<L: Ledger>(
    store: &Store,
    tag: Tag,
    entity: &Entity,
    steps: &mut Steps<L>,
) -> bool {
    let Entity::Face { outer, .. } = entity else {
        return true;
    };
    loop_at(store, *outer, steps).map(|ring| ring.0) == Some(tag)
}

// ---- 7: the fins that start at a vertex go round it; where there are none, it is the lone vertex
// of just one loop, and else of none

fn goes_round<L: Ledger>(
    solids: Solids<'_>,
    tag: Tag,
    entity: &Entity,
    steps: &mut Steps<L>,
) -> bool {
    let Entity::Vertex { .. } = entity else {
        return true;
    };
    let alone = count_alone(solids.live, tag);
    match first_at(solids.live, tag) {
        None => alone == 1,
        Some(first) => {
            let fins = count_starts(solids.live, tag);
            alone == 0 && length_round(solids.store, first, tag, steps) == Some(fins)
        }
    }
}

/// How many fins come round a vertex until the first comes again; nothing where one of them starts
/// elsewhere.
fn length_round<L: Ledger>(
    store: &Store,
    first: Tag,
    vertex: Tag,
    steps: &mut Steps<L>,
) -> Option<u32> {
    let mut at = first;
    for length in 1..MANY_FINS {
        let mate = fin_at(store, at, steps)?.mate;
        at = fin_at(store, mate, steps)?.next;
        if fin_at(store, at, steps)?.vertex != vertex {
            return None;
        }
        if at == first {
            return Some(length);
        }
    }
    None
}

/// The least fin that starts at a vertex.
fn first_at(live: &[(Tag, Entity)], start: Tag) -> Option<Tag> {
    for (tag, entity) in live {
        if let Entity::Fin { vertex, .. } = entity {
            if *vertex == start {
                return Some(*tag);
            }
        }
    }
    None
}

fn count_starts(live: &[(Tag, Entity)], start: Tag) -> u32 {
    let mut count = 0u32;
    for (_, entity) in live {
        if let Entity::Fin { vertex, .. } = entity {
            count = count.saturating_add(u32::from(*vertex == start));
        }
    }
    count
}

fn count_alone(live: &[(Tag, Entity)], vertex: Tag) -> u32 {
    let mut count = 0u32;
    for (_, entity) in live {
        if let Entity::Loop { lone, .. } = entity {
            count = count.saturating_add(u32::from(*lone == Some(vertex)));
        }
    }
    count
}

// ---- 8: the fins of an edge, their loops, faces and vertices, and the edge are of one body; a
// lone vertex has the body of its loop

/// The body of the shell of a face.
fn body_of_face<L: Ledger>(store: &Store, face: Tag, steps: &mut Steps<L>) -> Option<Tag> {
    let (shell, _) = face_at(store, face, steps)?;
    let (body, _) = shell_at(store, shell, steps)?;
    Some(body)
}

pub fn body_of_loop<L: Ledger>(store: &Store, tag: Tag, steps: &mut Steps<L>) -> Option<Tag> {
    let (face, _, _) = loop_at(store, tag, steps)?;
    body_of_face(store, face, steps)
}

/// The body in which an entity stands that is no attribute.
fn body_of<L: Ledger>(
    store: &Store,
    tag: Tag,
    entity: &Entity,
    steps: &mut Steps<L>,
) -> Option<Tag> {
    match entity {
        Entity::Body { .. } => Some(tag),
        Entity::Shell { body, .. } | Entity::Edge { body, .. } | Entity::Vertex { body, .. } => {
            Some(*body)
        }
        Entity::Face { .. } => body_of_face(store, tag, steps),
        Entity::Loop { .. } => body_of_loop(store, tag, steps),
        Entity::Fin { loop_, .. } => body_of_loop(store, *loop_, steps),
        Entity::Attr { .. } => None,
    }
}

/// The body that an edge or a vertex names.
fn body_named<L: Ledger>(store: &Store, tag: Tag, steps: &mut Steps<L>) -> Option<Tag> {
    match store.get(tag, steps)? {
        Entity::Edge { body, .. } | Entity::Vertex { body, .. } => Some(*body),
        Entity::Body { .. }
        | Entity::Shell { .. }
        | Entity::Face { .. }
        | Entity::Loop { .. }
        | Entity::Fin { .. }
        | Entity::Attr { .. } => None,
    }
}

fn is_in_one_body<L: Ledger>(
    store: &Store,
    tag: Tag,
    entity: &Entity,
    steps: &mut Steps<L>,
) -> bool {
    match entity {
        Entity::Fin { edge, vertex, .. } => {
            let body = body_of(store, tag, entity, steps);
            body.is_some()
                && body_named(store, *edge, steps) == body
                && body_named(store, *vertex, steps) == body
        }
        Entity::Loop {
            lone: Some(vertex),
            ..
        } => {
            let body = body_of_loop(store, tag, steps);
            body.is_some() && body_named(store, *vertex, steps) == body
        }
        Entity::Loop { lone: None, .. }
        | Entity::Body { .. }
        | Entity::Shell { .. }
        | Entity::Face { .. }
        | Entity::Edge { .. }
        | Entity::Vertex { .. }
        | Entity::Attr { .. } => true,
    }
}

// ---- 9: an attribute's owner is live and no attribute, and has one attribute of each name

fn has_a_host<L: Ledger>(solids: Solids<'_>, entity: &Entity, steps: &mut Steps<L>) -> bool {
    let Entity::Attr { owner, name, .. } = entity else {
        return true;
    };
    let class = class_at(solids.store, *owner, steps);
    class.is_some_and(|class| class != Class::Attr) && count_named(solids.live, *owner, *name) == 1
}

fn count_named(live: &[(Tag, Entity)], its_owner: Tag, its_name: Name) -> u32 {
    let mut count = 0u32;
    for (_, entity) in live {
        if let Entity::Attr { owner, name, .. } = entity {
            count = count.saturating_add(u32::from(*owner == its_owner && *name == its_name));
        }
    }
    count
}

// ---- 10: v - e + f - (loops - f) = 2 q in each body, and coordinates are in range

/// How many parts a body has.
#[derive(Clone, Copy)]
struct Parts {
    vertices: u32,
    edges: u32,
    faces: u32,
    loops: u32,
}

impl Parts {
    /// With one part more of the class.
    fn and(self, class: Class) -> Parts {
        let Parts {
            vertices,
            edges,
            faces,
            loops,
        } = self;
        Parts {
            vertices: vertices.saturating_add(u32::from(class == Class::Vertex)),
            edges: edges.saturating_add(u32::from(class == Class::Edge)),
            faces: faces.saturating_add(u32::from(class == Class::Face)),
            loops: loops.saturating_add(u32::from(class == Class::Loop)),
        }
    }

    /// v - e + f - (loops - f)
    fn measure(self) -> i64 {
        let faces = i64::from(self.faces);
        let rings = i64::from(self.loops) - faces;
        i64::from(self.vertices) - i64::from(self.edges) + faces - rings
    }
}

fn count_parts<L: Ledger>(solids: Solids<'_>, body: Tag, steps: &mut Steps<L>) -> Parts {
    let mut parts = Parts {
        vertices: 0,
        edges: 0,
        faces: 0,
        loops: 0,
    };
    for (tag, entity) in solids.live {
        if body_of(solids.store, *tag, entity, steps) == Some(body) {
            parts = parts.and(entity.class());
        }
    }
    parts
}

/// How many parts a live body has, and its shell's q.
pub fn counted<L: Ledger>(solids: Solids<'_>, body: Tag, steps: &mut Steps<L>) -> Option<Counted> {
    let (_, q) = shell_of(solids.store, body, steps)?;
    let parts = count_parts(solids, body, steps);
    Some(Counted {
        vertices: parts.vertices,
        edges: parts.edges,
        faces: parts.faces,
        rings: parts.loops.saturating_sub(parts.faces),
        q,
    })
}

fn meets_formula<L: Ledger>(
    solids: Solids<'_>,
    tag: Tag,
    entity: &Entity,
    steps: &mut Steps<L>,
) -> bool {
    let Entity::Body { shell } = entity else {
        return true;
    };
    let Some((_, q)) = shell_at(solids.store, *shell, steps) else {
        return false;
    };
    count_parts(solids, tag, steps).measure() == 2 * i64::from(q)
}

fn is_coordinate(x: i32) -> bool {
    -MOST_COORDINATE <= x && x <= MOST_COORDINATE
}

fn is_in_range(entity: &Entity) -> bool {
    let Entity::Vertex { point, .. } = entity else {
        return true;
    };
    let Point { x, y, z } = *point;
    is_coordinate(x) && is_coordinate(y) && is_coordinate(z)
}
