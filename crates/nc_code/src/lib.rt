//! Codes, repair plans and witnesses: which combination of a file's native chunks each cloud holds, and how the rows of a
//! lost cloud are made anew from one chunk of each survivor (F-MSR: Hu, Chen, Lee and Tang, FAST 2012).
#![tactic(auto)]

mod code;
mod plan;
mod repair;
mod stripes;
mod told;

pub use code::{Code, same_code};
pub use plan::{Plan, Witnesses, same_plan, same_witnesses};
pub use repair::{repaired, repairing_twice};
pub use stripes::striped;
pub use told::{told_row, told_rows};

#[cfg(test)]
mod tests {
    use super::*;

    fn worked_plan() -> Plan {
        let coefs = [
            [0, 1, 2, 3, 0, 0, 0, 0, 0, 0],
            [0, 0, 1, 1, 0, 0, 0, 0, 0, 0],
        ];
        Plan::new(&[0; 10], &coefs)
    }

    #[test]
    fn rows_of_stripes(rt: HostRuntime) {
        for (width, cloud, pair, row) in [
            (4, 0, 0, [1, 0, 0, 0, 0, 0, 0, 0, 0, 0, 0, 0, 0, 0, 0, 0]),
            (4, 1, 1, [0, 0, 0, 1, 0, 0, 0, 0, 0, 0, 0, 0, 0, 0, 0, 0]),
            (4, 2, 0, [1, 0, 1, 0, 0, 0, 0, 0, 0, 0, 0, 0, 0, 0, 0, 0]),
            (4, 3, 1, [0, 1, 0, 2, 0, 0, 0, 0, 0, 0, 0, 0, 0, 0, 0, 0]),
            (10, 7, 1, [0, 0, 0, 0, 0, 0, 0, 0, 0, 0, 0, 0, 0, 0, 0, 1]),
            (10, 8, 0, [1, 0, 1, 0, 1, 0, 1, 0, 1, 0, 1, 0, 1, 0, 1, 0]),
            (
                10,
                9,
                1,
                [0, 1, 0, 2, 0, 4, 0, 8, 0, 16, 0, 32, 0, 64, 0, 128],
            ),
        ] {
            assert_eq!(rt;
                striped(width).row(cloud, pair),
                row,
                "row {pair} of cloud {cloud} at width {width}"
            );
        }
    }

    #[test]
    fn a_repair_writes_the_rows_of_the_lost_cloud(rt: HostRuntime) {
        let code = striped(4);
        let again = repaired(&code, 0, &worked_plan());
        for (cloud, pair, row) in [
            (0, 0, [1, 0, 5, 0, 0, 0, 0, 0, 0, 0, 0, 0, 0, 0, 0, 0]),
            (0, 1, [0, 0, 3, 0, 0, 0, 0, 0, 0, 0, 0, 0, 0, 0, 0, 0]),
            (3, 0, code.row(3, 0)),
        ] {
            assert_eq!(rt; again.row(cloud, pair), row, "row {pair} of cloud {cloud}");
        }
        assert!(rt; !same_code(&again, &code));
        assert!(rt; same_code(&repaired(&again, 0, &worked_plan()), &again));
        assert_eq!(rt; repaired(&code, 3, &Plan::none()).row(3, 1), [0; 16]);
    }

    #[test]
    fn plans_are_compared(rt: HostRuntime) {
        let mut one = Witnesses {
            plans: [Plan::none(); 10],
        };
        let other = one;
        assert!(rt; same_witnesses(&one, &other));
        one.plans[9] = worked_plan();
        assert!(rt; !same_witnesses(&one, &other));
        assert!(rt; !same_plan(one.plan(9), &Plan::none()));
    }
}
