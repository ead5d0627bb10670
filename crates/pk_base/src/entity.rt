ghost use Rattle.std.specs.Prelude.{◌≡◌, ◌↔◌, Some, IsTrue};
ghost use Rattle.pk_base.specs.Entity.{class_of, owner_of, same_entity, class_word};

use crate::Tag;
use std::fmt;

/// What kind of entity a tag names.
#[derive(Clone, Copy, Debug, PartialEq, Eq)]
pub enum Class {
    Body,
    Shell,
    Face,
    Loop,
    Fin,
    Edge,
    Vertex,
    Attr,
}

impl fmt::Display for Class {
    ghost output = { λ c. Some (class_word c) };

    fn fmt<W: fmt::Write>(&self, f: &mut fmt::Formatter<W>) -> fmt::Result {
        f.write_str(match self {
            Class::Body => "body",
            Class::Shell => "shell",
            Class::Face => "face",
            Class::Loop => "loop",
            Class::Fin => "fin",
            Class::Edge => "edge",
            Class::Vertex => "vertex",
            Class::Attr => "attr",
        })
    }
}

/// A point of the model, in its units of length. Calls make points whose coordinates are from
/// -1,048,576 to 1,048,576.
#[derive(Clone, Copy, Debug, PartialEq, Eq)]
pub struct Point {
    pub x: i32,
    pub y: i32,
    pub z: i32,
}

/// Three numbers as a caller gives them, before any test of their range.
#[derive(Clone, Copy, Debug, PartialEq, Eq)]
pub struct Triple {
    pub x: i64,
    pub y: i64,
    pub z: i64,
}

/// A corner of a polygon in its plane, as a caller gives it, before any test of its range.
#[derive(Clone, Copy, Debug, PartialEq, Eq)]
pub struct Pair {
    pub x: i64,
    pub y: i64,
}

/// An axis of space, about which a body is turned.
#[derive(Clone, Copy, Debug, PartialEq, Eq)]
pub enum Axis {
    X,
    Y,
    Z,
}

/// An attribute's name, of 1 to 16 bytes, padded with zeros. It may have any bytes, and need not be
/// UTF-8; it prints up to its first zero.
#[derive(Clone, Copy, Debug, PartialEq, Eq)]
pub struct Name(pub [u8; 16]);

/// What a tag stands for, in a half-edge structure (Mäntylä, An Introduction to Solid Modeling,
/// 1988). A fin is a half-edge: it starts at its `vertex`, and `next` and `prev` are its neighbours
/// in its loop. An edge names the lesser of its two fins, a loop its least fin, or its lone vertex
/// where it has no fins. The shell's `q` stands for s - h in `v - e + f = 2 (s - h) + r`.
#[derive(Clone, Copy, Debug, PartialEq, Eq)]
pub enum Entity {
    Body {
        shell: Tag,
    },
    Shell {
        body: Tag,
        q: i32,
    },
    Face {
        shell: Tag,
        outer: Tag,
    },
    Loop {
        face: Tag,
        first: Option<Tag>,
        lone: Option<Tag>,
    },
    Fin {
        loop_: Tag,
        next: Tag,
        prev: Tag,
        mate: Tag,
        edge: Tag,
        vertex: Tag,
    },
    Edge {
        body: Tag,
        fin: Tag,
    },
    Vertex {
        body: Tag,
        point: Point,
    },
    Attr {
        owner: Tag,
        name: Name,
        value: i64,
    },
}

impl Entity {
    /// The entity that this one is part of; `None` exactly for a body.
    pub fn owner(&self) -> Option<Tag>
        ensures { result ≡ owner_of self.now }
    {
        match self {
            Entity::Body { .. } => None,
            Entity::Shell { body, .. } => Some(*body),
            Entity::Face { shell, .. } => Some(*shell),
            Entity::Loop { face, .. } => Some(*face),
            Entity::Fin { loop_, .. } => Some(*loop_),
            Entity::Edge { body, .. } => Some(*body),
            Entity::Vertex { body, .. } => Some(*body),
            Entity::Attr { owner, .. } => Some(*owner),
        }
    }

    /// Which kind of entity it is.
    pub fn class(&self) -> Class
        ensures { result ≡ class_of self.now }
    {
        match self {
            Entity::Body { .. } => Class::Body,
            Entity::Shell { .. } => Class::Shell,
            Entity::Face { .. } => Class::Face,
            Entity::Loop { .. } => Class::Loop,
            Entity::Fin { .. } => Class::Fin,
            Entity::Edge { .. } => Class::Edge,
            Entity::Vertex { .. } => Class::Vertex,
            Entity::Attr { .. } => Class::Attr,
        }
    }

    /// Whether both are equal: of the same class, with the same fields.
    pub fn is_same(&self, other: &Entity) -> bool
        ensures value { result ≡ same_entity self.now other.now }
        ensures same { IsTrue result ↔ (self.now ≡ other.now) }
    {
        *self == *other
    }
}

/// How many parts a body has, and its shell's `q`.
#[derive(Clone, Copy, Debug, PartialEq, Eq)]
pub struct Counted {
    pub vertices: u32,
    pub edges: u32,
    pub faces: u32,
    pub rings: u32,
    pub q: i32,
}
