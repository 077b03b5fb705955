ghost use Rattle.std.specs.Prelude.{◌≡◌, IfOk, OnOk, ◌++◌};
ghost use Rattle.std.specs.List.{flat_map};
ghost use Rattle.space.specs.Claims.{if_own, if_other, counted, without_others, own_alone};

use crate::claims::{Claim, Space};
use crate::places::{Placed, Places};
use std::alloc::{AllocError, Global};

/// What counts as used beside the copies for one who asks for space.
#[derive(Drop)]
pub struct Counted {
    /// What the actor's own tickets hold.
    pub own: Places,
    /// What other actors' tickets hold.
    pub others: Places,
    /// What transactions free that aren't forced yet.
    pub freed: Places,
}

fn push_own(out: &mut Vec<Placed>, actor: u32, claim: &Claim) -> Result<(), AllocError>
    ensures { OnOk result (out.new.items ≡ out.old.items ++ if_own actor claim.now) }
{
    if claim.actor == actor {
        out.extend_from_slice(claim.places.as_slice())?;
    }
    Ok(())
}

fn push_other(out: &mut Vec<Placed>, actor: u32, claim: &Claim) -> Result<(), AllocError>
    ensures { OnOk result (out.new.items ≡ out.old.items ++ if_other actor claim.now) }
{
    if claim.actor != actor {
        out.extend_from_slice(claim.places.as_slice())?;
    }
    Ok(())
}

/// What the actor's own tickets hold.
pub fn own_places(alloc: Global, space: &Space, actor: u32) -> Result<Places, AllocError>
    ensures { IfOk result (λ places. places ≡ flat_map (λ t. if_own actor t.1) space.now.tickets) }
{
    let mut out = Vec::new(alloc);
    'tickets: for (_, claim) in space.tickets() {
        push_own(&mut out, actor, claim)?;
    }
    Ok(Places::new(out))
}

/// What other actors' tickets hold.
pub fn other_places(alloc: Global, space: &Space, actor: u32) -> Result<Places, AllocError>
    ensures { IfOk result (λ places. places ≡ flat_map (λ t. if_other actor t.1) space.now.tickets) }
{
    let mut out = Vec::new(alloc);
    'tickets: for (_, claim) in space.tickets() {
        push_other(&mut out, actor, claim)?;
    }
    Ok(Places::new(out))
}

fn freed_places(alloc: Global, space: &Space) -> Result<Places, AllocError>
    ensures { IfOk result (λ places. places ≡ flat_map (λ f. f.1) space.now.freed) }
{
    let mut out = Vec::new(alloc);
    'freed: for (_, places) in space.freed() {
        out.extend_from_slice(places.as_slice())?;
    }
    Ok(Places::new(out))
}

impl Counted {
    /// All that counts as used for this actor, beside the copies.
    pub fn new(alloc: Global, space: &Space, actor: u32) -> Result<Self, AllocError>
        ensures { IfOk result (λ c. c ≡ counted actor space.now) }
    {
        Ok(Counted {
            own: own_places(alloc, space, actor)?,
            others: other_places(alloc, space, actor)?,
            freed: freed_places(alloc, space)?,
        })
    }

    /// The same, but for the space of other actors' tickets.
    pub fn without_others(self, alloc: Global) -> Self
        ensures { result ≡ without_others self }
    {
        let Counted {
            own,
            others: _,
            freed,
        } = self;
        Counted {
            own,
            others: Places::new(Vec::new(alloc)),
            freed,
        }
    }

    /// The actor's own tickets' alone.
    pub fn own_alone(self, alloc: Global) -> Self
        ensures { result ≡ own_alone self }
    {
        let Counted {
            own,
            others: _,
            freed: _,
        } = self;
        Counted {
            own,
            others: Places::new(Vec::new(alloc)),
            freed: Places::new(Vec::new(alloc)),
        }
    }
}
