//! Publishing a control.

ghost use Rattle.std.specs.Prelude.{◌≡◌, ◌++◌, ◌∷◌, ◌<◌, [], drop, fold, length, IfErr, IfOk, MatchBool, MatchResult, OnErr, OnOk};
ghost use Rattle.mh_core.specs.Standing.{AreStanding};
ghost use Rattle.mh_site.specs.Worlds.{after};
ghost use Rattle.mh_live.specs.Limits.{most_controls};
ghost use Rattle.mh_live.specs.Offices.{CanShow};
ghost use Rattle.mh_live.specs.Rules.{Stands};
ghost use Rattle.mh_live.specs.Steps.{stepped};

use crate::front::{Front, Head, ListName};
use crate::published::Publication;
use crate::rule::{Sees, WorldWriter};
use core::mem::replace_with;
use mh_site::Control;
use std::alloc::AllocError;
use std::sync::Wait;

// The progress of a control whose publication failed.
#[derive(Clone, Copy, PartialEq, Eq)]
pub(crate) enum Halt {
    // No part of it remains.
    Before,
    // It is pending, so nothing more can be published.
    Midway,
}

// Publishes the pending steps, all at once.
fn publish<N: ListName, R: Wait>(
    writer: WorldWriter<N>,
    rt: &R,
) -> (WorldWriter<N>, Result<(), AllocError>)
    requires pending { CanShow N.book N.definition writer.desk.shown.value
        (drop writer.behind writer.log.items) }
    ensures shown { MatchResult result.1
        (λ _. (result.0.desk.shown.value
        ≡ fold stepped writer.desk.shown.value (drop writer.behind writer.log.items))
        × (drop result.0.behind result.0.log.items ≡ [])) (λ _. (result.0.desk.shown.value
        ≡ writer.desk.shown.value) × (drop result.0.behind result.0.log.items
        ≡ drop writer.behind writer.log.items)) }
{
    writer.publish_as::<Sees<N>, R>(rt)
}

// Makes a step pending, and returns whether there was memory for it.
fn append<N: ListName>(writer: &mut WorldWriter<N>, step: Publication) -> bool
    ensures desk { writer.new.desk ≡ writer.old.desk }
    ensures pending { MatchBool result (drop writer.new.behind writer.new.log.items
        ≡ drop writer.old.behind writer.old.log.items ++ step ∷ [])
        (drop writer.new.behind writer.new.log.items
        ≡ drop writer.old.behind writer.old.log.items) }
{
    match writer.append(step) {
        Ok(()) => true,
        Err(_) => false,
    }
}

// Adds a control to the list and to the published world.
pub(crate) fn show<N: ListName, R: Wait>(
    rt: &R,
    writer: &mut WorldWriter<N>,
    head: &Head<N>,
    front: &Front<N>,
    control: Control,
) -> Result<Front<N>, Halt>
    requires stands { Stands N.book N.definition writer.old.desk.shown.value }
    requires list { writer.old.desk.shown.value.past.log ≡ front.now }
    requires still { drop writer.old.behind writer.old.log.items ≡ [] }
    requires few { length front.now < most_controls }
    requires standing { AreStanding N.definition (after writer.old.desk.shown.value.world control) }
    ensures list { IfOk result (λ f. (f ≡ front.now ++ control ∷ [])
        × (writer.new.desk.shown.value.past.log ≡ f)) }
    ensures stands { Stands N.book N.definition writer.new.desk.shown.value }
    ensures still { OnOk result (drop writer.new.behind writer.new.log.items ≡ []) }
    ensures halted { OnErr result (writer.new.desk.shown.value ≡ writer.old.desk.shown.value) }
    ensures before { IfErr result (λ halt. halt ≡ Halt.Before
        → drop writer.new.behind writer.new.log.items ≡ []) }
    ensures midway { IfErr result (λ halt. halt ≡ Halt.Midway
        → 0 < length (drop writer.new.behind writer.new.log.items)) }
{
    let intent = front.intend(&control);
    if !append(writer, Publication::Change(control)) {
        return Err(Halt::Before);
    }
    let Some(longer) = front.with_control(head, intent) else {
        return Err(Halt::Midway);
    };
    if !append(writer, Publication::Stamp(longer.past())) {
        return Err(Halt::Midway);
    }
    match replace_with(writer, rt, publish::<N, R>) {
        Ok(()) => Ok(longer),
        Err(_) => Err(Halt::Midway),
    }
}
