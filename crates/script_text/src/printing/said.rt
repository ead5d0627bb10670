//! What is said to a line.
ghost use Rattle.std.specs.Prelude.{◌≡◌, ◌++◌, OnOk};
ghost use Rattle.std.specs.List.{flat_map};
ghost use Rattle.script_text.specs.Text.{signed, tag_field, entity_fields, reply_text, refusal_fields, said_text, row_field};

use super::Text;
use super::fields::{
    write_lists, write_name, write_number, write_numbers, write_optional_tag, write_row,
    write_signed, write_tag, write_tags,
};
use crate::LineSaid;
use pk_base::{Counted, Entity, MarkRow, NoMemory, Point, Refusal, Reply, Tag};

/// The answer to a line.
pub(super) fn write_said(out: &mut Text, said: &LineSaid) -> Result<(), NoMemory>
    ensures { OnOk result (out.new ≡ out.old ++ said_text said.now) }
{
    match said {
        LineSaid::Locked => write!(out, "locked"),
        LineSaid::Unlocked => write!(out, "unlocked"),
        LineSaid::Ended(parts) => {
            write!(out, "ended")?;
            write_numbers(out, parts.as_slice())
        }
        LineSaid::Answer(reply) => write_reply(out, reply),
        LineSaid::Refused(refusal) => {
            write!(out, "refused")?;
            write_refusal(out, *refusal)
        }
    }
}

fn write_reply(out: &mut Text, reply: &Reply) -> Result<(), NoMemory>
    ensures { OnOk result (out.new ≡ out.old ++ reply_text reply.now) }
{
    match reply {
        Reply::Made(tags) => {
            write!(out, "made")?;
            write_tags(out, tags.as_slice())
        }
        Reply::Done => write!(out, "done"),
        Reply::Is(entity) => {
            write!(out, "is")?;
            write_entity(out, *entity)
        }
        Reply::List(tags) => {
            write!(out, "list")?;
            write_tags(out, tags.as_slice())
        }
        Reply::Counts(counted) => {
            let Counted {
                vertices,
                edges,
                faces,
                rings,
                q,
            } = *counted;
            write!(out, "counts {vertices} {edges} {faces} {rings} {q}")
        }
        Reply::Went(lists) => {
            write!(out, "went")?;
            write_lists(out, lists)
        }
        Reply::Marks { at, rows } => {
            let at = *at;
            write!(out, "marks at {at}")?;
            write_rows(out, rows.as_slice())
        }
        Reply::Delta(lists) => {
            write!(out, "delta")?;
            write_lists(out, lists)
        }
    }
}

fn write_rows(out: &mut Text, rows: &[MarkRow]) -> Result<(), NoMemory>
    ensures { OnOk result (out.new ≡ out.old ++ flat_map row_field rows.now) }
{
    for row in rows {
        write_row(out, row)?;
    }
    Ok(())
}

fn write_entity(out: &mut Text, entity: Entity) -> Result<(), NoMemory>
    ensures { OnOk result (out.new ≡ out.old ++ entity_fields entity) }
{
    match entity {
        Entity::Body { shell } => write!(out, " body shell {shell}"),
        Entity::Shell { body, q } => write_shell(out, body, q),
        Entity::Face { shell, outer } => write!(out, " face shell {shell} outer {outer}"),
        Entity::Loop { face, first, lone } => {
            write!(out, " loop face {face} first")?;
            write_optional_tag(out, first)?;
            write!(out, " lone")?;
            write_optional_tag(out, lone)
        }
        Entity::Fin {
            loop_,
            next,
            prev,
            mate,
            edge,
            vertex,
        } => {
            write!(out, " fin loop {loop_} next {next} prev {prev}")?;
            write!(out, " mate {mate} edge {edge} vertex {vertex}")
        }
        Entity::Edge { body, fin } => write!(out, " edge body {body} fin {fin}"),
        Entity::Vertex { body, point } => write_vertex(out, body, point),
        Entity::Attr { owner, name, value } => {
            write!(out, " attr owner {owner} name")?;
            write_name(out, name)?;
            write_signed(out, " value", value)
        }
    }
}

fn write_shell(out: &mut Text, body: Tag, q: i32) -> Result<(), NoMemory>
    ensures { OnOk result (out.new ≡ out.old ++ entity_fields (Entity.Shell body q)) }
{
    write!(out, " shell body {body} q {q}")
}

fn write_vertex(out: &mut Text, body: Tag, point: Point) -> Result<(), NoMemory>
    ensures { OnOk result (out.new ≡ out.old ++ entity_fields (Entity.Vertex body point)) }
{
    write!(out, " vertex body {body} at")?;
    write_point(out, point)
}

fn write_point(out: &mut Text, point: Point) -> Result<(), NoMemory>
    ensures { OnOk result (out.new
        ≡ out.old ++ (signed point.x ++ signed point.y ++ signed point.z)) }
{
    let Point { x, y, z } = point;
    write!(out, " {x} {y} {z}")
}

fn write_pair(out: &mut Text, word: &str, a: Tag, b: Tag) -> Result<(), NoMemory>
    ensures { OnOk result (out.new ≡ out.old ++ (word.now ++ tag_field a ++ tag_field b)) }
{
    write!(out, "{word} {a} {b}")
}

fn write_refusal(out: &mut Text, refusal: Refusal) -> Result<(), NoMemory>
    ensures { OnOk result (out.new ≡ out.old ++ refusal_fields refusal) }
{
    match refusal {
        Refusal::NoSuchTag(t) => write_tag(out, " 1 NoSuchTag", t),
        Refusal::WrongClass(t, class) => {
            write_tag(out, " 2 WrongClass", t)?;
            write!(out, " {class}")
        }
        Refusal::OutOfRange(v) => write_signed(out, " 3 OutOfRange", v),
        Refusal::NotOneLoop(a, b) => write_pair(out, " 4 NotOneLoop", a, b),
        Refusal::SameVertex(v) => write_tag(out, " 5 SameVertex", v),
        Refusal::NotStrut(f) => write_tag(out, " 6 NotStrut", f),
        Refusal::OneLoop(l) => write_tag(out, " 7 OneLoop", l),
        Refusal::TwoLoops(a, b) => write_pair(out, " 8 TwoLoops", a, b),
        Refusal::HasRings(f) => write_tag(out, " 9 HasRings", f),
        Refusal::IsOuter(l) => write_tag(out, " 10 IsOuter", l),
        Refusal::NotOneFace(a, b) => write_pair(out, " 11 NotOneFace", a, b),
        Refusal::NotOneBody(a, b) => write_pair(out, " 12 NotOneBody", a, b),
        Refusal::NotBare(t) => write_tag(out, " 13 NotBare", t),
        Refusal::CornerCount(n) => write_number(out, " 14 CornerCount", n),
        Refusal::BadPolygon(n) => write_number(out, " 15 BadPolygon", n),
        Refusal::FlatSweep => write!(out, " 16 FlatSweep"),
        Refusal::NoAttribute(o) => write_tag(out, " 17 NoAttribute", o),
        Refusal::NotOurs(t) => write_tag(out, " 18 NotOurs", t),
        Refusal::NotAMark(t) => write_tag(out, " 19 NotAMark", t),
        Refusal::MarkDeleted(t) => write_tag(out, " 20 MarkDeleted", t),
        Refusal::InitialMark => write!(out, " 21 InitialMark"),
        Refusal::TagsSpent(n) => write_number(out, " 22 TagsSpent", n),
        Refusal::NoPartition(p) => write_number(out, " 23 NoPartition", p.into()),
        Refusal::NotLocked(p) => write_number(out, " 24 NotLocked", p.into()),
        Refusal::AlreadyLocked(p) => write_number(out, " 25 AlreadyLocked", p.into()),
        Refusal::LockOrder(p) => write_number(out, " 26 LockOrder", p.into()),
        Refusal::NoName(i) => write_number(out, " 27 NoName", i.into()),
        Refusal::SameFace(f) => write_tag(out, " 28 SameFace", f),
    }
}
