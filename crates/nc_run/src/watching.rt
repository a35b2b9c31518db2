//! Who is shown the fleet while a run does its acts.
ghost use Rattle.std.specs.Prelude.{◌≡◌, ◌∷◌, true, false, List};

use nc_cloud::Fleet;

/// Is shown the fleet at the end of each act that was answered Ok, and tells whether the run goes on.
pub trait Watch<F: Fleet> {
    /// What it knows, from its state at the start of a run, once it let the run go on at some acts, which began at these
    /// fleets, the last of them first, and of which the last one left this fleet.
    ghost knows: { Self → Self → List F → F → Type 0 };

    /// Why it ends a run, by its state then and the fleet that the last act left.
    ghost why: { Self → F → Type 0 };

    /// An act was done, and left this fleet. At `false` the run does no other.
    fn act_done(&mut self, fleet: &F) -> bool
        ensures goes_on { result ≡ true → (start : Self) (earlier : List F) (last : F)
            → knows start self.old earlier last → knows start self.new (last ∷ earlier) fleet.now }
        ensures ends { result ≡ false → (start : Self) (earlier : List F) (last : F)
            → knows start self.old earlier last → knows start self.new earlier last }
        ensures why { result ≡ false → why self.new fleet.now };
}

/// Lets every run go on.
#[derive(Clone, Copy, Debug)]
pub struct Silent;

impl<F: Fleet> Watch<F> for Silent {
    ghost knows = { λ start now earlier last. Unit {0} };

    ghost why = { λ now fleet. ⊥ };

    fn act_done(&mut self, fleet: &F) -> bool {
        let _ = fleet;
        true
    }
}
