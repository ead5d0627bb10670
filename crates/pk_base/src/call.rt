ghost use Rattle.std.specs.Prelude.{◌≡◌, IfOk};

use crate::{Axis, CornerList, Name, NoMemory, Tag, Triple};
use std::alloc::Global;

/// A call on the solids of a partition. The Euler operators are Mäntylä's (An Introduction to
/// Solid Modeling, 1988), in forms of this project's own; an entity takes its tags in the order
/// that is written here.
#[derive(Debug, Drop)]
pub enum Call {
    /// Makes a body of one vertex, with its shell, face and loop. Each coordinate is from
    /// -1,048,576 to 1,048,576; else it is refused `OutOfRange` with the first of x, y and z that
    /// is not. Takes body, shell, face, loop, vertex. `Kvfs` undoes it.
    Mvfs { at: Triple },
    /// Makes an edge to a new vertex, from where a fin starts or from the lone vertex of a loop
    /// without fins. Takes vertex, edge, the fin out and the fin back. `Kev` undoes it.
    Mev { end: Tag, at: Triple },
    /// Makes an edge between the starts of two fins of one loop, and so cuts a new face off. Takes
    /// face, loop, edge and the two fins. `Kef` undoes it.
    Mef { from: Tag, to: Tag },
    /// Makes an edge between two loops of one face, and so kills the ring. Each operand is a fin,
    /// or a loop with a lone vertex. Takes edge and the two fins. `Kemr` undoes it.
    Mekr { keep: Tag, ring: Tag },
    /// Makes a face whose outer loop is a ring of another face, and so fills a hole. Takes the
    /// face. `Kfmrh` undoes it.
    Mfkrh { ring: Tag },
    /// Kills a body of one vertex.
    Kvfs { body: Tag },
    /// Kills an edge that ends at a vertex with no other edge, and that vertex.
    Kev { fin: Tag },
    /// Kills an edge between two faces, and the face of this fin, which has no rings.
    Kef { fin: Tag },
    /// Kills an edge that has one loop on both sides, and so cuts a ring off. Takes the ring's
    /// loop.
    Kemr { fin: Tag },
    /// Kills a face, whose loop becomes a ring of another face of the body, and so makes a hole.
    Kfmrh { keep: Tag, kill: Tag },
    /// Moves a ring to another face of its body.
    RingMove { ring: Tag, to: Tag },
    /// Makes a flat body of 3 to 256 corners at height z. The corners form a simple polygon,
    /// counter-clockwise.
    Lamina { z: i64, corners: CornerList },
    /// Makes a block from a corner and its sizes, which are from 1 to 2,097,152.
    Block { at: Triple, size: Triple },
    /// Makes a prism of 3 to 256 corners, from height z to z + h.
    Prism { z: i64, h: i64, corners: CornerList },
    /// Sweeps a face without rings by a vector that points out of it.
    Sweep { face: Tag, by: Triple },
    /// Moves every vertex of a body by a vector.
    Move { body: Tag, by: Triple },
    /// Turns every vertex of a body about an axis by 1, 2 or 3 quarter turns.
    Turn { body: Tag, axis: Axis, turns: i64 },
    /// Kills a body with all that it owns.
    Delete { body: Tag },
    /// Gives an entity an attribute of this name and value. Takes the attribute where there is none
    /// of that name.
    SetAttr { owner: Tag, name: Name, value: i64 },
    /// Kills the attribute of this name.
    DropAttr { owner: Tag, name: Name },
    /// Asks for an entity.
    Ask { tag: Tag },
    /// Lists the live entities that an entity owns, ascending.
    Kids { tag: Tag },
    /// Lists a loop's fins from its first one.
    Ring { ring: Tag },
    /// Counts the parts of a body.
    Counts { body: Tag },
    /// Lists all live bodies, ascending.
    Bodies,
}

impl Call {
    /// An equal call. `NoMemory` comes only where an allocation fails.
    pub fn copy(&self, alloc: Global) -> Result<Call, NoMemory>
        ensures { IfOk result (λ c. c ≡ self.now) }
    {
        Ok(match self {
            Call::Mvfs { at } => Call::Mvfs { at: *at },
            Call::Mev { end, at } => Call::Mev { end: *end, at: *at },
            Call::Mef { from, to } => Call::Mef {
                from: *from,
                to: *to,
            },
            Call::Mekr { keep, ring } => Call::Mekr {
                keep: *keep,
                ring: *ring,
            },
            Call::Mfkrh { ring } => Call::Mfkrh { ring: *ring },
            Call::Kvfs { body } => Call::Kvfs { body: *body },
            Call::Kev { fin } => Call::Kev { fin: *fin },
            Call::Kef { fin } => Call::Kef { fin: *fin },
            Call::Kemr { fin } => Call::Kemr { fin: *fin },
            Call::Kfmrh { keep, kill } => Call::Kfmrh {
                keep: *keep,
                kill: *kill,
            },
            Call::RingMove { ring, to } => Call::RingMove {
                ring: *ring,
                to: *to,
            },
            Call::Lamina { z, corners } => Call::Lamina {
                z: *z,
                corners: corners.copy(alloc)?,
            },
            Call::Block { at, size } => Call::Block {
                at: *at,
                size: *size,
            },
            Call::Prism { z, h, corners } => Call::Prism {
                z: *z,
                h: *h,
                corners: corners.copy(alloc)?,
            },
            Call::Sweep { face, by } => Call::Sweep {
                face: *face,
                by: *by,
            },
            Call::Move { body, by } => Call::Move {
                body: *body,
                by: *by,
            },
            Call::Turn { body, axis, turns } => Call::Turn {
                body: *body,
                axis: *axis,
                turns: *turns,
            },
            Call::Delete { body } => Call::Delete { body: *body },
            Call::SetAttr { owner, name, value } => Call::SetAttr {
                owner: *owner,
                name: *name,
                value: *value,
            },
            Call::DropAttr { owner, name } => Call::DropAttr {
                owner: *owner,
                name: *name,
            },
            Call::Ask { tag } => Call::Ask { tag: *tag },
            Call::Kids { tag } => Call::Kids { tag: *tag },
            Call::Ring { ring } => Call::Ring { ring: *ring },
            Call::Counts { body } => Call::Counts { body: *body },
            Call::Bodies => Call::Bodies,
        })
    }
}
