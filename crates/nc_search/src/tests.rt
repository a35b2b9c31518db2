//! The searches beside a plain filter, and beside what another program drew with the same keys.

ghost use Rattle.std.specs.Prelude.{◌≡◌, ◌*◌, ◌<◌, ◌≤◌, ℕ, [], slice_index, slice_index_or, IfSome};
ghost use Rattle.nc_code.specs.Codes.{IsBare};
ghost use Rattle.nc_gf256.specs.Width.{native_count};

use super::*;
use crate::drawing::fill;
use nc_code::{Code, Plan, Witnesses, repaired, same_code, same_plan, same_witnesses, striped};
use nc_mds::{Verdict, check};
use nc_name::Name;
use nc_nextloss::GoodCode;
use rand_chacha::ChaCha20Rng;
use rand_core::{Rng, SeedableRng};
use std::process::Abort;
use std::test::Fail;

// ---- a plain filter: it judges all candidates, and has nothing from the search but the check of a code

// A good candidate: the plan of the repair, the code, and a plan for each loss.
#[derive(Clone, Copy)]
struct Good {
    plan: Plan,
    code: Code,
    witnesses: Witnesses,
}

fn is_mds(code: &Code) -> bool {
    matches!(check(code), Verdict::Mds)
}

// The byte at a place.
fn byte(stream: &[u8], at: usize) -> u8 {
    if at < stream.len() { stream[at] } else { 0 }
}

fn plain_row(natives: usize, stream: &[u8], at: usize) -> [u8; 16]
    requires short { natives ≤ 16 }
    ensures { (k : ℕ) → natives ≤ k → slice_index result k ≡ 0 }
{
    let mut row = [0; 16];
    for k in 0..natives {
        row[k] = byte(stream, at.saturating_add(k));
    }
    row
}

fn plain_code(width: u8, stream: &[u8], at: usize) -> Code
    requires wide { 4 ≤ width }
    requires narrow { width ≤ 10 }
    ensures { result.width ≡ width }
{
    let natives = 2 * (width as usize - 2);
    let mut rows = [[0; 16]; 20];
    let mut here = at;
    for i in 0..2 * width as usize {
        rows[i] = plain_row(natives, stream, here);
        here = here.saturating_add(natives);
    }
    Code::new(width, &rows)
}

// The choices of the base, the one of the survivor at this position turned over.
fn plain_choices(width: u8, lost: u8, base: &[u8; 10], turned: u8) -> [u8; 10]
    requires narrow { width ≤ 10 }
    ensures { (t : ℕ) → slice_index result t < 2 }
{
    let mut choice = [0; 10];
    let mut position: u8 = 0;
    for t in 0..width {
        if t != lost {
            choice[t as usize] = u8::from((base[t as usize] == 1) != (position == turned));
            position = position.saturating_add(1);
        }
    }
    choice
}

fn plain_factors(width: u8, lost: u8, stream: &[u8], at: usize) -> [u8; 10]
    requires narrow { width ≤ 10 }
{
    let mut row = [0; 10];
    let mut here = at;
    for t in 0..width {
        if t != lost {
            row[t as usize] = byte(stream, here);
            here = here.saturating_add(1);
        }
    }
    row
}

fn plain_plan(width: u8, lost: u8, base: &[u8; 10], stream: &[u8], at: usize) -> Plan
    requires narrow { width ≤ 10 }
{
    let choice = plain_choices(width, lost, base, byte(stream, at) % 16);
    let zero = plain_factors(width, lost, stream, at.saturating_add(1));
    let one = plain_factors(width, lost, stream, at.saturating_add(width as usize));
    Plan::new(&choice, &[zero, one])
}

// The first of sixteen tries that is a witness.
fn plain_try(code: &Code, lost: u8, base: &[u8; 10], stream: &[u8], at: usize) -> Option<Plan>
    requires lost { lost < code.now.width }
{
    let width = code.width();
    let mut here = at;
    for _ in 0..16u8 {
        let plan = plain_plan(width, lost, base, stream, here);
        if is_mds(&repaired(code, lost, &plan)) {
            return Some(plan);
        }
        here = here.saturating_add(2 * width as usize - 1);
    }
    None
}

// A candidate with its code, where it is good: for cloud `own` this plan, for each other one the first try that is a witness.
fn plain_good(
    code: &Code,
    base: &[u8; 10],
    own: u8,
    plan: &Plan,
    stream: &[u8],
    at: usize,
) -> Option<Good> {
    let width = code.width();
    if !is_mds(code) {
        return None;
    }
    let mut plans = [Plan::none(); 10];
    let mut here = at;
    for lost in 0..width {
        if lost == own {
            plans[lost as usize] = *plan;
        } else {
            match plain_try(code, lost, base, stream, here) {
                Some(found) => plans[lost as usize] = found,
                None => return None,
            }
            here = here.saturating_add(16 * (2 * width as usize - 1));
        }
    }
    Some(Good {
        plan: *plan,
        code: *code,
        witnesses: Witnesses { plans },
    })
}

fn plain_start(width: u8, stream: &[u8], at: usize) -> Option<Good>
    requires wide { 4 ≤ width }
    requires narrow { width ≤ 10 }
{
    let code = plain_code(width, stream, at);
    let rows = 2 * width as usize * (2 * (width as usize - 2));
    let tries = at.saturating_add(rows);
    plain_good(&code, &[0; 10], 255, &Plan::none(), stream, tries)
}

// The choices turned over, but for the lost cloud's.
fn plain_turned(lost: u8, plan: &Plan) -> [u8; 10] {
    let mut base = [0; 10];
    for t in 0..10u8 {
        if t != lost {
            base[t as usize] = u8::from(plan.choice[t as usize] == 0);
        }
    }
    base
}

// The plan of a candidate for a repair, whose block begins at this place.
fn plain_repair_plan(
    width: u8,
    stored: Option<&Plan>,
    lost: u8,
    index: u16,
    stream: &[u8],
    at: usize,
) -> Plan
    requires narrow { width ≤ 10 }
{
    match stored {
        None => plain_plan(width, lost, &[0; 10], stream, at),
        Some(plan) => {
            if index == 0 {
                *plan
            } else {
                plain_plan(width, lost, &plan.choice, stream, at)
            }
        }
    }
}

fn plain_repair(code: &Code, lost: u8, plan: &Plan, stream: &[u8], at: usize) -> Option<Good>
    requires lost { lost < code.now.width }
{
    let width = code.width();
    let again = repaired(code, lost, plan);
    let tries = at.saturating_add(2 * width as usize - 1);
    plain_good(&again, &plain_turned(lost, plan), lost, plan, stream, tries)
}

// So many bytes of a key's stream, from its beginning on.
fn draw(key: &[u8; 32], stream: &mut [u8]) {
    let mut rng = ChaCha20Rng::from_seed(*key);
    rng.fill_bytes(stream);
}

// The first good one of all candidates for a new code. Their blocks take 480 bytes at width 4, and 3360 at width 10.
fn plain_first_start(width: u8, key: &[u8; 32], budget: u16, block: usize) -> Option<(u16, Good)>
    requires wide { 4 ≤ width }
    requires narrow { width ≤ 10 }
{
    let mut stream = [0; 53760];
    draw(key, &mut stream);
    let mut first = None;
    let mut at: usize = 0;
    for index in 0..budget {
        if let Some(good) = plain_start(width, &stream, at) {
            first = first.or(Some((index, good)));
        }
        at = at.saturating_add(block);
    }
    first
}

// The first good one of all candidates for a repair. Their blocks take 343 bytes at width 4, and 2755 at width 10; each
// begins at a whole word, which is a byte later.
fn plain_first_repair(
    code: &Code,
    stored: Option<&Plan>,
    lost: u8,
    key: &[u8; 32],
    budget: u16,
    block: usize,
) -> Option<(u16, Good)>
    requires lost { lost < code.now.width }
{
    let width = code.width();
    let mut stream = [0; 53760];
    draw(key, &mut stream);
    let mut first = None;
    let mut at: usize = 0;
    for index in 0..budget {
        let plan = plain_repair_plan(width, stored, lost, index, &stream, at);
        if let Some(good) = plain_repair(code, lost, &plan, &stream, at) {
            first = first.or(Some((index, good)));
        }
        at = at.saturating_add(block);
    }
    first
}

// ---- what the searches find

fn found_start(width: u8, fill: u8, budget: u16) -> Option<(u16, Plan, GoodCode)>
    requires wide { 4 ≤ width }
    requires narrow { width ≤ 10 }
    requires most { budget ≤ 4096 }
{
    match find_start(width, &[fill; 32], budget) {
        Start::Found { index, good } => Some((index, Plan::none(), good)),
        Start::Spent(_) => None,
    }
}

fn found_repair(
    code: &Code,
    stored: Option<&Plan>,
    lost: u8,
    fill: u8,
    budget: u16,
) -> Option<(u16, Plan, GoodCode)>
    requires lost { lost < code.now.width }
    requires bare { IfSome stored (λ plan. IsBare code.now.width lost plan.now) }
    requires most { budget ≤ 4096 }
{
    match find_repair(code, stored, lost, &[fill; 32], budget) {
        Mend::Found { index, plan, good } => Some((index, plan, good)),
        Mend::Spent(_) => None,
    }
}

// The search finds what the filter finds.
fn agree(rt: &impl Abort, found: Option<(u16, Plan, GoodCode)>, wanted: Option<(u16, Good)>) {
    match found {
        None => assert!(rt; wanted.is_none()),
        Some((index, plan, good)) => match wanted {
            None => panic!(rt; "the filter finds none"),
            Some((first, wanted)) => {
                assert_eq!(rt; index, first);
                assert!(rt; same_plan(&plan, &wanted.plan));
                assert!(rt; same_code(good.code(), &wanted.code));
                assert!(rt; same_witnesses(good.witnesses(), &wanted.witnesses));
            }
        },
    }
}

#[test]
fn a_search_finds_what_a_plain_filter_finds(rt: HostRuntime) {
    for fill in [22u8, 14, 19] {
        let key = [fill; 32];
        for budget in [1u16, 8] {
            agree(
                &rt,
                found_start(4, fill, budget),
                plain_first_start(4, &key, budget, 480),
            );
            agree(
                &rt,
                found_start(10, fill, budget),
                plain_first_start(10, &key, budget, 3360),
            );
        }
    }
}

// A code of ten clouds, and the plan that is stored for its cloud 7.
fn ten_clouds() -> Option<(Code, Plan)>
    ensures width { IfSome result (λ found. found.0.width ≡ 10) }
    ensures bare { IfSome result (λ found. IsBare 10 7 found.1) }
{
    match find_start(10, &[1; 32], 1) {
        Start::Spent(_) => None,
        Start::Found { good, .. } => {
            let code = *good.code();
            if code.width() == 10 {
                Some((code, *good.witnesses().plan(7)))
            } else {
                None
            }
        }
    }
}

#[test]
fn a_repair_is_what_a_plain_filter_finds(rt: HostRuntime) -> Result<(), Fail> {
    let (code, stored) = ten_clouds().ok_or("no code")?;
    for fill in [42u8, 48] {
        let key = [fill; 32];
        let plain = plain_first_repair(&code, None, 7, &key, 4, 2756);
        agree(&rt, found_repair(&code, None, 7, fill, 4), plain);
        let plain = plain_first_repair(&code, Some(&stored), 7, &key, 4, 2756);
        agree(&rt, found_repair(&code, Some(&stored), 7, fill, 4), plain);
    }
    let striped = striped(4);
    assert!(rt; plain_first_repair(&striped, None, 1, &[0; 32], 16, 344).is_none());
    assert!(rt;
        matches!(
            find_repair(&striped, None, 1, &[0; 32], 16),
            Mend::Spent(16)
        )
    );
    Ok(())
}

// ---- what another program drew

#[test]
fn the_first_good_candidate_counts(rt: HostRuntime) -> Result<(), Fail> {
    assert_eq!(rt; found_start(4, 14, 1).ok_or("none")?.0, 0);
    assert_eq!(rt; found_start(4, 22, 8).ok_or("none")?.0, 1);
    assert_eq!(rt; found_start(10, 14, 3).ok_or("none")?.0, 2);
    assert_eq!(rt; found_start(10, 19, 8).ok_or("none")?.0, 6);
    Ok(())
}

#[test]
fn a_search_is_spent_at_its_budget(rt: HostRuntime) {
    assert!(rt; matches!(find_start(4, &[22; 32], 1), Start::Spent(1)));
    assert!(rt; matches!(find_start(10, &[14; 32], 2), Start::Spent(2)));
    let code = striped(4);
    assert!(rt; matches!(find_repair(&code, None, 1, &[0; 32], 64), Mend::Spent(64)));
    assert!(rt; matches!(find_repair(&code, None, 1, &[0; 32], 1), Mend::Spent(1)));
}

#[test]
fn a_stored_plan_is_tried_first(rt: HostRuntime) -> Result<(), Fail> {
    let (code, stored) = ten_clouds().ok_or("no code")?;
    let first = found_repair(&code, Some(&stored), 7, 48, 16).ok_or("none")?;
    assert_eq!(rt; first.0, 0);
    assert_eq!(rt; first.1.coefs, stored.coefs);
    assert_eq!(rt;
        first.1.coefs[1],
        [139, 26, 195, 159, 84, 96, 44, 0, 60, 215]
    );
    assert_eq!(rt;
        first.2.witnesses().plan(9).choice,
        [1, 1, 1, 0, 1, 1, 1, 0, 1, 0]
    );
    assert_eq!(rt; first.2.witnesses().plan(7).coefs, stored.coefs);
    let later = found_repair(&code, Some(&stored), 7, 42, 16).ok_or("none")?;
    assert_eq!(rt; later.0, 3);
    assert_eq!(rt;
        later.1.coefs[0],
        [10, 219, 182, 36, 188, 155, 39, 0, 35, 85]
    );
    assert_eq!(rt;
        later.2.witnesses().plan(0).choice,
        [0, 1, 0, 1, 1, 1, 1, 0, 1, 1]
    );
    Ok(())
}

#[test]
fn without_a_stored_plan_the_first_one_is_drawn(rt: HostRuntime) -> Result<(), Fail> {
    let (code, _) = ten_clouds().ok_or("no code")?;
    let first = found_repair(&code, None, 7, 42, 16).ok_or("none")?;
    assert_eq!(rt; first.0, 0);
    assert_eq!(rt; first.1.choice, [0, 0, 0, 0, 0, 0, 0, 0, 0, 1]);
    assert_eq!(rt;
        first.2.code().rows[14],
        [
            86, 167, 40, 121, 164, 91, 118, 61, 39, 147, 150, 143, 216, 143, 117, 2
        ]
    );
    let later = found_repair(&code, None, 7, 48, 16).ok_or("none")?;
    assert_eq!(rt; later.0, 2);
    assert_eq!(rt;
        later.1.coefs[0],
        [30, 235, 98, 22, 74, 66, 193, 0, 99, 149]
    );
    assert_eq!(rt;
        later.2.witnesses().plan(0).coefs[1],
        [0, 134, 18, 6, 123, 190, 203, 128, 172, 232]
    );
    Ok(())
}

// ---- draws

#[test]
fn the_stream_begins_with_the_public_vector(rt: HostRuntime) {
    let mut out = [0; 18];
    fill(&[0; 32], 0, &mut out);
    assert_eq!(rt;
        out,
        [
            0x76, 0xb8, 0xe0, 0xad, 0xa0, 0xf1, 0x3d, 0x90, 0x40, 0x5d, 0x6a, 0xe5, 0x53, 0x86,
            0xbd, 0x28, 0xbd, 0xd2
        ]
    );
    let mut later = [0; 4];
    fill(&[0; 32], 3, &mut later);
    assert_eq!(rt; later, [0x53, 0x86, 0xbd, 0x28]);
}

#[test]
fn a_draw_key_is_a_digest(rt: HostRuntime) -> Result<(), Fail> {
    let key = draw_key(&[7; 32], &Name::read("a.txt")?, 258);
    let digest = [
        0x12, 0xc2, 0x52, 0xaf, 0x88, 0xf8, 0x39, 0xc0, 0xd9, 0xff, 0x20, 0x06, 0x45, 0xf6, 0xe5,
        0xc7, 0x94, 0xed, 0x50, 0x60, 0xbb, 0x0e, 0x83, 0x65, 0x41, 0x17, 0xd8, 0x35, 0x2f, 0x8e,
        0x03, 0xee,
    ];
    assert_eq!(rt; key, digest);
    Ok(())
}
