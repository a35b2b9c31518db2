ghost use Rattle.std.specs.Prelude.{◌≡◌, ◌+◌, ◌*◌, ◌<◌, ◌≤◌, ℕ, length, map, slice_index};
ghost use Rattle.std.specs.List.{range_with_len};
ghost use Rattle.nc_code.specs.Codes.{IsBare};
ghost use Rattle.nc_code.specs.Tries.{is_bare, position_of, choice_at, coef_at, coefs_at, plan_at, plan_len, from};

use nc_code::Plan;

/// The bytes of a plan at a width.
pub fn plan_len(width: u8) -> usize
    requires wide { 4 ≤ width }
    requires narrow { width ≤ 10 }
    ensures { result ≡ plan_len width }
{
    1 + 2 * (width as usize - 1)
}

/// The plan for a loss that drawn bytes, from place `at` on, give with a base. The first byte, modulo 16, is the position of the
/// survivor whose choice is that of the base turned over; then come the factors of the survivors, ascending, in the new
/// row 0 and then in row 1.
pub fn drawn_plan(width: u8, lost: u8, base: &[u8; 10], bytes: &[u8], at: usize) -> Plan
    requires wide { 4 ≤ width }
    requires narrow { width ≤ 10 }
    requires lost { lost < width }
    requires base { (t : ℕ) → slice_index base.now t < 2 }
    requires long { at + plan_len width ≤ length bytes.now }
    ensures plan { result ≡ plan_at width lost (slice_index base.now) (from at (slice_index bytes.now)) }
    ensures bare { IsBare width lost result }
{
    let choice = choices(width, lost, base, bytes[at]);
    let zero = coefs(width, lost, bytes, at, 0);
    let one = coefs(width, lost, bytes, at, 1);
    Plan::new(&choice, &[zero, one])
}

fn choices(width: u8, lost: u8, base: &[u8; 10], first: u8) -> [u8; 10]
    requires base { (t : ℕ) → slice_index base.now t < 2 }
    ensures { result ≡ map (choice_at width lost (slice_index base.now) (λ k. first)) (range_with_len 0 10) }
{
    let mut choice = [0; 10];
    for t in 0..10u8 {
        choice[t as usize] = choice_of(width, lost, base[t as usize], first, t);
    }
    choice
}

fn choice_of(width: u8, lost: u8, based: u8, first: u8, t: u8) -> u8
    requires { based < 2 }
    ensures { result ≡ choice_at width lost (λ k. based) (λ k. first) t }
{
    if t == lost || width <= t {
        0
    } else if position(lost, t) == first % 16 {
        1 - based
    } else {
        based
    }
}

fn coefs(width: u8, lost: u8, bytes: &[u8], at: usize, r: u8) -> [u8; 10]
    requires wide { 4 ≤ width }
    requires narrow { width ≤ 10 }
    requires lost { lost < width }
    requires pair { r < 2 }
    requires long { at + plan_len width ≤ length bytes.now }
    ensures { result ≡ coefs_at width lost (from at (slice_index bytes.now)) r }
{
    let mut row = [0; 10];
    for t in 0..10u8 {
        row[t as usize] = coef(width, lost, bytes, at, r, t);
    }
    row
}

fn coef(width: u8, lost: u8, bytes: &[u8], at: usize, r: u8, t: u8) -> u8
    requires wide { 4 ≤ width }
    requires narrow { width ≤ 10 }
    requires lost { lost < width }
    requires pair { r < 2 }
    requires long { at + plan_len width ≤ length bytes.now }
    ensures { result ≡ coef_at width lost (from at (slice_index bytes.now)) r t }
{
    if t == lost || width <= t {
        return 0;
    }
    bytes[at + 1 + r as usize * (width as usize - 1) + position(lost, t) as usize]
}

/// The position of a survivor among the clouds other than the lost one.
pub fn position(lost: u8, t: u8) -> u8
    ensures { result ≡ position_of lost t }
{
    if lost < t { t - 1 } else { t }
}
