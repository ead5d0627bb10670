//! The act of each verb, from its fields.
ghost use Rattle.std.specs.Prelude.{◌≡◌, IfOk, option_copied};
ghost use Rattle.pk_command.specs.Fields.{tag_in as the_tag_in, number_in as the_number_in, point_in as the_point_in, corners_in as the_corners_in, axis_in as the_axis_in, name_in as the_name_in};
ghost use Rattle.pk_command.specs.Commands.{act_of as act_by};

use crate::{Field, Verb};
use pk_base::{Act, Axis, Call, CornerList, Name, NoMemory, Tag, Triple};
use std::alloc::Global;

fn tag_in(fields: &[Field], i: usize) -> Option<Tag>
    ensures { result ≡ the_tag_in fields.now i }
{
    fields.get(i)?.tag()
}

fn number_in(fields: &[Field], i: usize) -> Option<i64>
    ensures { result ≡ the_number_in fields.now i }
{
    fields.get(i)?.number()
}

fn point_in(fields: &[Field], i: usize) -> Option<Triple>
    ensures { result ≡ the_point_in fields.now i }
{
    fields.get(i)?.point()
}

fn axis_in(fields: &[Field], i: usize) -> Option<Axis>
    ensures { result ≡ the_axis_in fields.now i }
{
    fields.get(i)?.axis()
}

fn name_in(fields: &[Field], i: usize) -> Option<Name>
    ensures { result ≡ the_name_in fields.now i }
{
    fields.get(i)?.name()
}

fn corners_in(fields: &[Field], i: usize) -> Option<&CornerList>
    ensures { option_copied result ≡ the_corners_in fields.now i }
{
    fields.get(i)?.corners()
}

fn mvfs(fields: &[Field]) -> Option<Act>
    ensures { result ≡ act_by Verb.Mvfs fields.now }
{
    Some(Act::Call(Call::Mvfs {
        at: point_in(fields, 0)?,
    }))
}

fn mev(fields: &[Field]) -> Option<Act>
    ensures { result ≡ act_by Verb.Mev fields.now }
{
    Some(Act::Call(Call::Mev {
        end: tag_in(fields, 0)?,
        at: point_in(fields, 1)?,
    }))
}

fn mef(fields: &[Field]) -> Option<Act>
    ensures { result ≡ act_by Verb.Mef fields.now }
{
    Some(Act::Call(Call::Mef {
        from: tag_in(fields, 0)?,
        to: tag_in(fields, 1)?,
    }))
}

fn mekr(fields: &[Field]) -> Option<Act>
    ensures { result ≡ act_by Verb.Mekr fields.now }
{
    Some(Act::Call(Call::Mekr {
        keep: tag_in(fields, 0)?,
        ring: tag_in(fields, 1)?,
    }))
}

fn mfkrh(fields: &[Field]) -> Option<Act>
    ensures { result ≡ act_by Verb.Mfkrh fields.now }
{
    Some(Act::Call(Call::Mfkrh {
        ring: tag_in(fields, 0)?,
    }))
}

fn kvfs(fields: &[Field]) -> Option<Act>
    ensures { result ≡ act_by Verb.Kvfs fields.now }
{
    Some(Act::Call(Call::Kvfs {
        body: tag_in(fields, 0)?,
    }))
}

fn kev(fields: &[Field]) -> Option<Act>
    ensures { result ≡ act_by Verb.Kev fields.now }
{
    Some(Act::Call(Call::Kev {
        fin: tag_in(fields, 0)?,
    }))
}

fn kef(fields: &[Field]) -> Option<Act>
    ensures { result ≡ act_by Verb.Kef fields.now }
{
    Some(Act::Call(Call::Kef {
        fin: tag_in(fields, 0)?,
    }))
}

fn kemr(fields: &[Field]) -> Option<Act>
    ensures { result ≡ act_by Verb.Kemr fields.now }
{
    Some(Act::Call(Call::Kemr {
        fin: tag_in(fields, 0)?,
    }))
}

fn kfmrh(fields: &[Field]) -> Option<Act>
    ensures { result ≡ act_by Verb.Kfmrh fields.now }
{
    Some(Act::Call(Call::Kfmrh {
        keep: tag_in(fields, 0)?,
        kill: tag_in(fields, 1)?,
    }))
}

fn ring_move(fields: &[Field]) -> Option<Act>
    ensures { result ≡ act_by Verb.RingMove fields.now }
{
    Some(Act::Call(Call::RingMove {
        ring: tag_in(fields, 0)?,
        to: tag_in(fields, 1)?,
    }))
}

fn lamina(alloc: Global, fields: &[Field]) -> Result<Option<Act>, NoMemory>
    ensures { IfOk result (λ a. a ≡ act_by Verb.Lamina fields.now) }
{
    let Some(z) = number_in(fields, 0) else {
        return Ok(None);
    };
    let Some(corners) = corners_in(fields, 1) else {
        return Ok(None);
    };
    Ok(Some(Act::Call(Call::Lamina {
        z,
        corners: corners.copy(alloc)?,
    })))
}

fn block(fields: &[Field]) -> Option<Act>
    ensures { result ≡ act_by Verb.Block fields.now }
{
    Some(Act::Call(Call::Block {
        at: point_in(fields, 0)?,
        size: point_in(fields, 1)?,
    }))
}

fn prism(alloc: Global, fields: &[Field]) -> Result<Option<Act>, NoMemory>
    ensures { IfOk result (λ a. a ≡ act_by Verb.Prism fields.now) }
{
    let Some(z) = number_in(fields, 0) else {
        return Ok(None);
    };
    let Some(h) = number_in(fields, 1) else {
        return Ok(None);
    };
    let Some(corners) = corners_in(fields, 2) else {
        return Ok(None);
    };
    Ok(Some(Act::Call(Call::Prism {
        z,
        h,
        corners: corners.copy(alloc)?,
    })))
}

fn sweep(fields: &[Field]) -> Option<Act>
    ensures { result ≡ act_by Verb.Sweep fields.now }
{
    Some(Act::Call(Call::Sweep {
        face: tag_in(fields, 0)?,
        by: point_in(fields, 1)?,
    }))
}

fn move_body(fields: &[Field]) -> Option<Act>
    ensures { result ≡ act_by Verb.Move fields.now }
{
    Some(Act::Call(Call::Move {
        body: tag_in(fields, 0)?,
        by: point_in(fields, 1)?,
    }))
}

fn turn(fields: &[Field]) -> Option<Act>
    ensures { result ≡ act_by Verb.Turn fields.now }
{
    Some(Act::Call(Call::Turn {
        body: tag_in(fields, 0)?,
        axis: axis_in(fields, 1)?,
        turns: number_in(fields, 2)?,
    }))
}

fn delete(fields: &[Field]) -> Option<Act>
    ensures { result ≡ act_by Verb.Delete fields.now }
{
    Some(Act::Call(Call::Delete {
        body: tag_in(fields, 0)?,
    }))
}

fn set_attr(fields: &[Field]) -> Option<Act>
    ensures { result ≡ act_by Verb.SetAttr fields.now }
{
    Some(Act::Call(Call::SetAttr {
        owner: tag_in(fields, 0)?,
        name: name_in(fields, 1)?,
        value: number_in(fields, 2)?,
    }))
}

fn drop_attr(fields: &[Field]) -> Option<Act>
    ensures { result ≡ act_by Verb.DropAttr fields.now }
{
    Some(Act::Call(Call::DropAttr {
        owner: tag_in(fields, 0)?,
        name: name_in(fields, 1)?,
    }))
}

fn ask(fields: &[Field]) -> Option<Act>
    ensures { result ≡ act_by Verb.Ask fields.now }
{
    Some(Act::Call(Call::Ask {
        tag: tag_in(fields, 0)?,
    }))
}

fn kids(fields: &[Field]) -> Option<Act>
    ensures { result ≡ act_by Verb.Kids fields.now }
{
    Some(Act::Call(Call::Kids {
        tag: tag_in(fields, 0)?,
    }))
}

fn ring(fields: &[Field]) -> Option<Act>
    ensures { result ≡ act_by Verb.Ring fields.now }
{
    Some(Act::Call(Call::Ring {
        ring: tag_in(fields, 0)?,
    }))
}

fn counts(fields: &[Field]) -> Option<Act>
    ensures { result ≡ act_by Verb.Counts fields.now }
{
    Some(Act::Call(Call::Counts {
        body: tag_in(fields, 0)?,
    }))
}

fn goto(fields: &[Field]) -> Option<Act>
    ensures { result ≡ act_by Verb.Goto fields.now }
{
    Some(Act::Goto(tag_in(fields, 0)?))
}

fn unmark(fields: &[Field]) -> Option<Act>
    ensures { result ≡ act_by Verb.Unmark fields.now }
{
    Some(Act::Unmark(tag_in(fields, 0)?))
}

fn delta(fields: &[Field]) -> Option<Act>
    ensures { result ≡ act_by Verb.Delta fields.now }
{
    Some(Act::Delta(tag_in(fields, 0)?))
}

/// The act that the verb makes of these fields; `None` exactly where they are not of its kinds.
/// Fields behind those of its kinds are not looked at. `NoMemory` comes only where an allocation
/// fails.
pub fn act_of(alloc: Global, verb: Verb, fields: &[Field]) -> Result<Option<Act>, NoMemory>
    ensures { IfOk result (λ a. a ≡ act_by verb fields.now) }
{
    match verb {
        Verb::Mvfs => Ok(mvfs(fields)),
        Verb::Mev => Ok(mev(fields)),
        Verb::Mef => Ok(mef(fields)),
        Verb::Mekr => Ok(mekr(fields)),
        Verb::Mfkrh => Ok(mfkrh(fields)),
        Verb::Kvfs => Ok(kvfs(fields)),
        Verb::Kev => Ok(kev(fields)),
        Verb::Kef => Ok(kef(fields)),
        Verb::Kemr => Ok(kemr(fields)),
        Verb::Kfmrh => Ok(kfmrh(fields)),
        Verb::RingMove => Ok(ring_move(fields)),
        Verb::Lamina => lamina(alloc, fields),
        Verb::Block => Ok(block(fields)),
        Verb::Prism => prism(alloc, fields),
        Verb::Sweep => Ok(sweep(fields)),
        Verb::Move => Ok(move_body(fields)),
        Verb::Turn => Ok(turn(fields)),
        Verb::Delete => Ok(delete(fields)),
        Verb::SetAttr => Ok(set_attr(fields)),
        Verb::DropAttr => Ok(drop_attr(fields)),
        Verb::Ask => Ok(ask(fields)),
        Verb::Kids => Ok(kids(fields)),
        Verb::Ring => Ok(ring(fields)),
        Verb::Counts => Ok(counts(fields)),
        Verb::Bodies => Ok(Some(Act::Call(Call::Bodies))),
        Verb::Mark => Ok(Some(Act::Mark)),
        Verb::Goto => Ok(goto(fields)),
        Verb::Unmark => Ok(unmark(fields)),
        Verb::Marks => Ok(Some(Act::Marks)),
        Verb::Delta => Ok(delta(fields)),
    }
}
