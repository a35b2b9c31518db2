ghost use Rattle.std.specs.Prelude.{◌≡◌, ◌<◌, ◌≤◌, IfSome, IfNone};
ghost use Rattle.nc_state.specs.Clouds.{count_of};
ghost use Rattle.nc_settle.specs.Views.{width_of};
ghost use Rattle.nc_settle.specs.Failing.{fails, FewFail, NamesFailing, TooManyFail};

use crate::view::View;

impl View {
    /// The least cloud of which a place failed, where three clouds did or more.
    pub fn too_many_failing(&self) -> Option<u8>
        ensures some { IfSome result (TooManyFail self.now) }
        ensures none { IfNone result (FewFail self.now) }
    {
        if self.failing_count() <= 2 {
            return None;
        }
        self.failing()
    }

    /// How many clouds have a place that failed.
    fn failing_count(&self) -> u8
        ensures { result ≡ count_of (width_of self.now) (fails self.now) }
    {
        let mut count = 0;
        for cloud in 0..self.width() {
            count += u8::from(self.has_failed(cloud));
        }
        count
    }

    /// The clouds of which a place failed.
    pub fn failed(&self) -> [bool; 10]
        ensures { NamesFailing self.now (width_of self.now) result }
    {
        let mut table = [false; 10];
        for cloud in 0..self.width() {
            table[cloud as usize] = self.has_failed(cloud);
        }
        table
    }
}
