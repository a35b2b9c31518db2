//! Whether the next loss can be repaired too: plans that are witnesses of a loss, and codes with one for each loss.
#![tactic(auto)]

ghost use Rattle.std.specs.Prelude.{◌≡◌, ◌<◌};

mod good;
mod laws;
mod reading;
mod witness;

pub use good::{GoodCode, confirm};
pub use laws::{check_striped_repair, striped_has_no_witness};
pub use reading::{drawn_plan, plan_len, position};
pub use witness::{check_witness, first_witness};

#[cfg(test)]
mod tests {
    use super::*;
    use nc_code::{Code, Plan, Witnesses, repaired, same_code, striped};
    use nc_mds::Verdict;

    fn plan(lost: u8, bytes: &[u8; 7]) -> Plan
        requires { lost < 4 }
    {
        drawn_plan(4, lost, &[0; 10], bytes, 0)
    }

    // The striped code, with the rows of cloud 1 and then those of cloud 0 made anew.
    fn mixed() -> Code
        ensures { result.width ≡ 4 }
    {
        let once = repaired(&striped(4), 1, &plan(1, &[0, 5, 5, 2, 3, 5, 4]));
        repaired(&once, 0, &plan(0, &[2, 5, 1, 5, 1, 7, 4]))
    }

    fn planned() -> Witnesses {
        let mut plans = [Plan::none(); 10];
        plans[0] = plan(0, &[1, 3, 3, 7, 7, 6, 2]);
        plans[1] = plan(1, &[1, 0, 4, 7, 6, 6, 6]);
        plans[2] = plan(2, &[1, 3, 4, 6, 4, 6, 6]);
        plans[3] = plan(3, &[2, 5, 6, 3, 5, 0, 4]);
        Witnesses { plans }
    }

    #[test]
    fn a_plan_is_read_from_its_bytes(rt: HostRuntime) {
        let read = plan(0, &[18, 5, 1, 5, 1, 7, 4]);
        assert_eq!(rt; read.choice, [0, 0, 0, 1, 0, 0, 0, 0, 0, 0]);
        assert_eq!(rt; read.coefs[0], [0, 5, 1, 5, 0, 0, 0, 0, 0, 0]);
        assert_eq!(rt; read.coefs[1], [0, 1, 7, 4, 0, 0, 0, 0, 0, 0]);
        let turned = drawn_plan(
            4,
            2,
            &[1, 1, 0, 1, 0, 0, 0, 0, 0, 0],
            &[2, 0, 0, 9, 0, 0, 8],
            0,
        );
        assert_eq!(rt; turned.choice, [1, 1, 0, 0, 0, 0, 0, 0, 0, 0]);
        assert_eq!(rt; (turned.coefs[0][3], turned.coefs[1][3]), (9, 8));
    }

    #[test]
    fn the_first_try_that_is_a_witness_counts(rt: HostRuntime) {
        let tries = [
            0, 0, 0, 0, 0, 0, 0, 2, 5, 6, 3, 5, 0, 4, 0, 0, 0, 0, 0, 0, 0,
        ];
        match first_witness(&mixed(), 3, &[0; 10], &tries) {
            None => panic!(rt; "the second try is a witness"),
            Some(found) => {
                assert_eq!(rt; found.choice, [0, 0, 1, 0, 0, 0, 0, 0, 0, 0]);
                assert_eq!(rt; found.coefs[1], [5, 0, 4, 0, 0, 0, 0, 0, 0, 0]);
            }
        }
        assert!(rt; first_witness(&mixed(), 3, &[0; 10], &[0; 14]).is_none());
    }

    #[test]
    fn a_code_with_four_witnesses_is_good(rt: HostRuntime) {
        match confirm(&mixed(), &planned()) {
            None => panic!(rt; "the code is good"),
            Some(good) => {
                assert!(rt; same_code(good.code(), &mixed()));
                assert_eq!(rt; good.witnesses().plan(3).coefs[0][0], 5);
            }
        }
    }

    #[test]
    fn other_codes_and_plans_are_not_good(rt: HostRuntime) {
        assert!(rt; confirm(&striped(4), &planned()).is_none());
        let mut more = planned();
        more.plans[4] = Plan::new(&[1, 0, 0, 0, 0, 0, 0, 0, 0, 0], &[[0; 10]; 2]);
        assert!(rt; confirm(&mixed(), &more).is_none());
        assert!(rt;
            matches!(
                check_striped_repair(10, 9, &Plan::none()),
                Verdict::Fails { .. }
            )
        );
    }
}
