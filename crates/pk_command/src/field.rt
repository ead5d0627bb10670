ghost use Rattle.std.specs.Prelude.{◌≡◌, option_copied};
ghost use Rattle.pk_command.specs.Fields.{kind_of, the_axis, the_corners, the_name, the_number, the_point, the_tag};

use pk_base::{Axis, CornerList, Name, Tag, Triple};

/// A field of a command.
#[derive(Debug, Drop)]
pub enum Field {
    /// A tag operand.
    Tag(Tag),
    Number(i64),
    /// A point, a vector or a size.
    Point(Triple),
    Corners(CornerList),
    Axis(Axis),
    /// The name of an attribute.
    Name(Name),
}

/// What a field of a command may be.
#[derive(Clone, Copy, Debug, PartialEq, Eq)]
pub enum Kind {
    Tag,
    Number,
    Point,
    Corners,
    Axis,
    Name,
}

impl Field {
    /// Its kind.
    pub fn kind(&self) -> Kind
        ensures { result ≡ kind_of self.now }
    {
        match self {
            Field::Tag(_) => Kind::Tag,
            Field::Number(_) => Kind::Number,
            Field::Point(_) => Kind::Point,
            Field::Corners(_) => Kind::Corners,
            Field::Axis(_) => Kind::Axis,
            Field::Name(_) => Kind::Name,
        }
    }

    /// The tag, where it is a tag.
    pub fn tag(&self) -> Option<Tag>
        ensures { result ≡ the_tag self.now }
    {
        match self {
            Field::Tag(tag) => Some(*tag),
            Field::Number(_)
            | Field::Point(_)
            | Field::Corners(_)
            | Field::Axis(_)
            | Field::Name(_) => None,
        }
    }

    /// The number, where it is a number.
    pub fn number(&self) -> Option<i64>
        ensures { result ≡ the_number self.now }
    {
        match self {
            Field::Number(number) => Some(*number),
            Field::Tag(_) | Field::Point(_) | Field::Corners(_) | Field::Axis(_) | Field::Name(_) =>
                None,
        }
    }

    /// The point, where it is a point.
    pub fn point(&self) -> Option<Triple>
        ensures { result ≡ the_point self.now }
    {
        match self {
            Field::Point(point) => Some(*point),
            Field::Tag(_)
            | Field::Number(_)
            | Field::Corners(_)
            | Field::Axis(_)
            | Field::Name(_) => None,
        }
    }

    /// The corners, where it is corners.
    pub fn corners(&self) -> Option<&CornerList>
        ensures { option_copied result ≡ the_corners self.now }
    {
        match self {
            Field::Corners(corners) => Some(corners),
            Field::Tag(_) | Field::Number(_) | Field::Point(_) | Field::Axis(_) | Field::Name(_) =>
                None,
        }
    }

    /// The axis, where it is an axis.
    pub fn axis(&self) -> Option<Axis>
        ensures { result ≡ the_axis self.now }
    {
        match self {
            Field::Axis(axis) => Some(*axis),
            Field::Tag(_)
            | Field::Number(_)
            | Field::Point(_)
            | Field::Corners(_)
            | Field::Name(_) => None,
        }
    }

    /// The name, where it is a name.
    pub fn name(&self) -> Option<Name>
        ensures { result ≡ the_name self.now }
    {
        match self {
            Field::Name(name) => Some(*name),
            Field::Tag(_)
            | Field::Number(_)
            | Field::Point(_)
            | Field::Corners(_)
            | Field::Axis(_) => None,
        }
    }
}
