ghost use Rattle.std.specs.Prelude.{◌≡◌, ◌<◌, length, IfSome};
ghost use Rattle.owner_links.specs.Slots.{unlinked, with_owner, with_previous, with_next, Joins};

/// A slot: its owner, its neighbours among the owner's children, and the first of its own children.
#[derive(Clone, Copy)]
pub(crate) struct Slot {
    pub(crate) owner: Option<u32>,
    pub(crate) next: Option<u32>,
    pub(crate) previous: Option<u32>,
    pub(crate) first: Option<u32>,
}

impl Slot {
    /// A slot without links.
    pub(crate) fn unlinked() -> Slot
        ensures { result ≡ unlinked }
    {
        Slot {
            owner: None,
            next: None,
            previous: None,
            first: None,
        }
    }
}

/// Gives a slot this owner, or none.
pub(crate) fn set_owner(slots: &mut [Slot], slot: u32, owner: Option<u32>)
    requires { slot < length slots.old }
    ensures { slots.new ≡ with_owner slots.old slot owner }
{
    slots[slot as usize].owner = owner;
}

/// Makes two slots neighbours among the children of their owner. Without one before, the other is
/// the first of them; without one after, it is the last.
pub(crate) fn join(slots: &mut [Slot], owner: u32, before: Option<u32>, after: Option<u32>)
    requires owner { owner < length slots.old }
    requires before { IfSome before (λ n. n < length slots.old) }
    requires after { IfSome after (λ n. n < length slots.old) }
    ensures { Joins owner before after slots.old slots.new }
{
    set_previous(slots, after, before);
    set_next(slots, owner, before, after);
}

/// Sets the one before a slot, where there is such a slot.
fn set_previous(slots: &mut [Slot], slot: Option<u32>, before: Option<u32>)
    requires { IfSome slot (λ n. n < length slots.old) }
    ensures { slots.new ≡ with_previous slots.old slot before }
{
    if let Some(slot) = slot {
        slots[slot as usize].previous = before;
    }
}

/// Sets the one behind a slot; without a slot, the first child of the owner.
fn set_next(slots: &mut [Slot], owner: u32, slot: Option<u32>, after: Option<u32>)
    requires owner { owner < length slots.old }
    requires slot { IfSome slot (λ n. n < length slots.old) }
    ensures { slots.new ≡ with_next slots.old owner slot after }
{
    match slot {
        Some(slot) => slots[slot as usize].next = after,
        None => slots[owner as usize].first = after,
    }
}
