//! Whether a code is MDS: whether the chunks of any all but two clouds give the file back (FAST 2012).
#![tactic(auto)]

mod checking;
mod laws;
mod pairs;
mod relations;
mod verdict;

pub use checking::check;
pub use laws::{check_striped, striped_is_mds};
pub use verdict::Verdict;

#[cfg(test)]
mod tests {
    use super::*;
    use nc_code::{Code, Plan, repaired, striped};

    // The pair of clouds at which the check says that a code fails.
    fn failing_pair(code: &Code) -> Option<(u8, u8)> {
        match check(code) {
            Verdict::Mds => None,
            Verdict::Fails { a, b, .. } => Some((a, b)),
        }
    }

    #[test]
    fn striped_codes_are_mds(rt: HostRuntime) {
        for width in 4..11u8 {
            assert_eq!(rt; failing_pair(&striped(width)), None, "at width {width}");
        }
    }

    #[test]
    fn a_code_fails_at_its_least_pair(rt: HostRuntime) {
        let one_stripe = Plan::new(
            &[0; 10],
            &[
                [0, 1, 2, 3, 0, 0, 0, 0, 0, 0],
                [0, 0, 1, 1, 0, 0, 0, 0, 0, 0],
            ],
        );
        assert_eq!(rt;
            failing_pair(&repaired(&striped(4), 0, &one_stripe)),
            Some((1, 2))
        );

        let choice = [0, 0, 1, 1, 0, 0, 0, 0, 0, 0];
        let second = Plan::new(
            &choice,
            &[
                [3, 0, 3, 1, 0, 0, 0, 0, 0, 0],
                [0, 0, 3, 1, 0, 0, 0, 0, 0, 0],
            ],
        );
        let first = Plan::new(
            &choice,
            &[
                [0, 2, 3, 2, 0, 0, 0, 0, 0, 0],
                [0, 1, 0, 3, 0, 0, 0, 0, 0, 0],
            ],
        );
        let last_alone = repaired(&repaired(&striped(4), 1, &second), 0, &first);
        assert_eq!(rt; failing_pair(&last_alone), Some((2, 3)));

        let rows_of_zeros = repaired(&striped(5), 4, &Plan::none());
        assert_eq!(rt; failing_pair(&rows_of_zeros), Some((0, 1)));
    }

    #[test]
    fn the_kernel_shows_which_natives_two_losses_leave_open(rt: HostRuntime) {
        match check(&repaired(&striped(4), 3, &Plan::none())) {
            Verdict::Mds => panic!(rt; "the code is not MDS"),
            Verdict::Fails { a, b, kernel } => {
                assert_eq!(rt; (a, b), (0, 1));
                assert_eq!(rt; (kernel[0], kernel[1]), (kernel[2], kernel[3]));
            }
        }
    }
}
