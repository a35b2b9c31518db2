ghost use Rattle.std.specs.Prelude.{◌≡◌, ◌≢◌, ◌↔◌, ◌<◌, ℕ, IsTrue, IfSome, IfNone, true, false};
ghost use Rattle.nc_settle.specs.declared.place.Place.TheVariants.{Failed as FailedPlace, Misplaced as MisplacedPlace, Sealed as SealedPlace};
ghost use Rattle.nc_meta.specs.declared.meta.Meta.{Meta as MetaValue};
ghost use Rattle.nc_settle.specs.Views.{width_of};
ghost use Rattle.nc_settle.specs.Decisions.{AgreesIn, AgreesOn, DiffersIn, HasFailed, HasMisplaced, HasOther, HasSealed, IsConflict, IsFromElsewhere, IsLeastFailed, IsLeastMisplaced, SeesTop, NoConflict, NoneFailed, NoneMisplaced, SeesNone};
ghost use Rattle.nc_settle.specs.Tops.{IsBestOn, top_after};

use crate::place::Place;
use crate::view::View;
use nc_meta::{Meta, same_meta};

/// A metadata object that was sealed elsewhere.
#[derive(Clone, Copy, Debug, PartialEq, Eq)]
pub struct Misplaced {
    /// The cloud that it stands on.
    pub cloud: u8,
    /// The cloud that it was sealed for.
    pub said_cloud: u8,
    /// The width that it was sealed for.
    pub said_width: u8,
}

/// A sealed meta of the highest generation that was seen.
#[derive(Clone, Copy, Debug)]
pub struct Top<'a> {
    /// The least cloud that has one of this generation.
    pub cloud: u8,
    pub meta: &'a Meta,
}

/// Two sealed metas of the highest generation differ.
#[derive(Clone, Copy, Debug, PartialEq, Eq)]
pub struct Conflict {
    pub generation: u64,
    /// The least cloud that has a meta of this generation.
    pub a: u8,
    /// The least cloud that has another.
    pub b: u8,
}

impl View {
    /// The least cloud of which a place failed.
    pub fn failing(&self) -> Option<u8>
        ensures some { IfSome result (IsLeastFailed self.now) }
        ensures none { IfNone result (NoneFailed self.now) }
    {
        for cloud in 0..self.width() {
            if self.has_failed(cloud) {
                return Some(cloud);
            }
        }
        None
    }

    /// Whether a place of this cloud failed.
    pub fn has_failed(&self, cloud: u8) -> bool
        requires { cloud < width_of self.now }
        ensures { IsTrue result ↔ HasFailed self.now cloud }
    {
        is_failed(self.place(cloud, 0)) || is_failed(self.place(cloud, 1))
    }

    /// The least cloud on which a metadata object of another cloud or width stands. Where both slots have one, that of slot 0
    /// is told.
    pub fn misplaced(&self) -> Option<Misplaced>
        ensures some { IfSome result (λ m. IsLeastMisplaced self.now m.cloud m.said_cloud m.said_width) }
        ensures none { IfNone result (NoneMisplaced self.now) }
    {
        for cloud in 0..self.width() {
            if let Some(found) = self.misplaced_on(cloud) {
                return Some(found);
            }
        }
        None
    }

    fn misplaced_on(&self, cloud: u8) -> Option<Misplaced>
        requires { cloud < width_of self.now }
        ensures cloud { IfSome result (λ m. m.cloud ≡ cloud) }
        ensures some { IfSome result (λ m. IsFromElsewhere self.now cloud m.said_cloud m.said_width) }
        ensures none { IfNone result (HasMisplaced self.now cloud → ⊥) }
    {
        match said(cloud, self.place(cloud, 0)) {
            Some(found) => Some(found),
            None => said(cloud, self.place(cloud, 1)),
        }
    }

    /// The sealed meta of the highest generation, from the least cloud that has one of it.
    pub fn top(&self) -> Option<Top<'_>>
        ensures some { IfSome result (λ t. SeesTop self.now t.cloud t.meta.now) }
        ensures none { IfNone result (SeesNone self.now) }
    {
        let mut top = None;
        for cloud in 0..self.width() {
            top = higher(top, cloud, self.best_on(cloud));
        }
        top
    }

    /// A sealed meta of the highest generation that a cloud has.
    fn best_on(&self, cloud: u8) -> Option<&Meta>
        requires { cloud < width_of self.now }
        ensures some { IfSome result (λ m. IsBestOn self.now cloud m.now) }
        ensures none { IfNone result ((m : MetaValue) → HasSealed self.now cloud m → ⊥) }
    {
        match (sealed(self.place(cloud, 0)), sealed(self.place(cloud, 1))) {
            (Some(first), Some(second)) if first.generation() < second.generation() => Some(second),
            (None, second) => second,
            (first, _) => first,
        }
    }

    /// Whether sealed metas of the highest generation differ: the least cloud that has one, and the least that has another.
    pub fn conflict(&self) -> Option<Conflict>
        ensures some { IfSome result (λ k. IsConflict self.now k.generation k.a k.b) }
        ensures none { IfNone result (NoConflict self.now) }
    {
        match self.top() {
            Some(top) => self.conflict_with(top.cloud, top.meta),
            None => None,
        }
    }

    fn conflict_with(&self, a: u8, meta: &Meta) -> Option<Conflict>
        requires { SeesTop self.now a meta.now }
        ensures some { IfSome result (λ k. IsConflict self.now k.generation k.a k.b) }
        ensures none { IfNone result ((c : ℕ) → c < width_of self.now → AgreesOn self.now c meta.now) }
    {
        for b in 0..self.width() {
            if self.has_other(b, meta) {
                return Some(Conflict {
                    generation: meta.generation(),
                    a,
                    b,
                });
            }
        }
        None
    }

    fn has_other(&self, cloud: u8, meta: &Meta) -> bool
        requires { cloud < width_of self.now }
        ensures other { result ≡ true → HasOther self.now cloud meta.now }
        ensures agrees { result ≡ false → AgreesOn self.now cloud meta.now }
    {
        differs(self.place(cloud, 0), meta) || differs(self.place(cloud, 1), meta)
    }
}

/// The top, once one cloud more is looked at.
fn higher<'a>(top: Option<Top<'a>>, cloud: u8, found: Option<&'a Meta>) -> Option<Top<'a>>
    ensures { result ≡ top_after top.entry cloud found.entry }
{
    let Some(meta) = found else {
        return top;
    };
    match top {
        Some(top) if meta.generation() <= top.meta.generation() => Some(top),
        _ => Some(Top { cloud, meta }),
    }
}

fn sealed(place: &Place) -> Option<&Meta>
    ensures some { IfSome result (λ m. place.now ≡ SealedPlace m.now) }
    ensures none { IfNone result ((m : MetaValue) → place.now ≢ SealedPlace m) }
{
    match place {
        Place::Sealed(meta) => Some(meta),
        _ => None,
    }
}

/// Whether a place has another meta of the same generation.
fn differs(place: &Place, meta: &Meta) -> bool
    ensures differs { result ≡ true → DiffersIn place.now meta.now }
    ensures agrees { result ≡ false → AgreesIn place.now meta.now }
{
    match place {
        Place::Sealed(other) => other.generation() == meta.generation() && !same_meta(other, meta),
        _ => false,
    }
}

fn is_failed(place: &Place) -> bool
    ensures { IsTrue result ↔ (place.now ≡ FailedPlace) }
{
    matches!(place, Place::Failed)
}

/// What a place says, where it is misplaced.
fn said(cloud: u8, place: &Place) -> Option<Misplaced>
    ensures cloud { IfSome result (λ m. m.cloud ≡ cloud) }
    ensures some { IfSome result (λ m. place.now ≡ MisplacedPlace m.said_cloud m.said_width) }
    ensures none { IfNone result ((a b : ℕ) → place.now ≢ MisplacedPlace a b) }
{
    match place {
        Place::Misplaced {
            said_cloud,
            said_width,
        } => Some(Misplaced {
            cloud,
            said_cloud: *said_cloud,
            said_width: *said_width,
        }),
        _ => None,
    }
}
