ghost use Rattle.std.specs.Prelude.{◌≡◌, ◌*◌, ◌<◌, ◌≤◌, length, IsNone, IfSome};
ghost use Rattle.nc_code.specs.Parts.{IsCode};
ghost use Rattle.nc_search.specs.Starts.{rows_len, start_len, start_block, start_entry, start_row, start_code, IsGoodStart, IsStartOf};
ghost use Rattle.nc_search.specs.Searches.{IsStartSearch};

use crate::drawing::{fill, word_count};
use crate::tries::{first_try, tries_len};
use nc_code::{Code, Plan, Witnesses};
use nc_mds::{Verdict, check};
use nc_nextloss::GoodCode;

/// What the search for a new code found.
#[derive(Clone, Copy, Debug)]
pub enum Start {
    /// The first good candidate, with its index.
    Found { index: u16, good: GoodCode },
    /// None of so many candidates is good.
    Spent(u16),
}

/// The first good one of the candidates for a new code that are drawn with a key. Candidate `index` is block `index` of the
/// key's stream: the rows of the code, and then sixteen tries for the loss of each cloud. It is good where the code is MDS and
/// each loss has a try that is a witness; the first such tries are its witnesses.
pub fn find_start(width: u8, key: &[u8; 32], budget: u16) -> Start
    requires wide { 4 ≤ width }
    requires narrow { width ≤ 10 }
    requires most { budget ≤ 4096 }
    ensures { IsStartSearch width key.now budget result }
{
    for index in 0..budget {
        match try_start(width, key, index) {
            Some(good) => return Start::Found { index, good },
            None => {}
        }
    }
    Start::Spent(budget)
}

/// What candidate `index` gives, where it is good.
fn try_start(width: u8, key: &[u8; 32], index: u16) -> Option<GoodCode>
    requires wide { 4 ≤ width }
    requires narrow { width ≤ 10 }
    requires index { index < 4096 }
    ensures some { IfSome result (IsStartOf width (start_block width key.now index)) }
    ensures none { IsNone result → IsGoodStart width (start_block width key.now index) → ⊥ }
{
    let len = start_len(width);
    let mut whole = [0; 3360];
    let (block, _) = whole.split_at_mut(len);
    fill(key, u64::from(index) * word_count(len) as u64, block);
    good_start(width, block)
}

/// What the candidate of a block gives, where it is good.
fn good_start(width: u8, block: &[u8]) -> Option<GoodCode>
    requires wide { 4 ≤ width }
    requires narrow { width ≤ 10 }
    requires long { length block.now ≡ start_len width }
    ensures some { IfSome result (IsStartOf width block.now) }
    ensures none { IsNone result → IsGoodStart width block.now → ⊥ }
{
    let code = start_code(width, block);
    match check(&code) {
        Verdict::Mds => {}
        Verdict::Fails { .. } => return None,
    }
    let base = [0; 10];
    let mut plans = [Plan::none(); 10];
    for lost in 0..width {
        let at = rows_len(width) + lost as usize * tries_len(width);
        match first_try(&code, lost, &base, block, at) {
            Some(plan) => plans[lost as usize] = plan,
            None => return None,
        }
    }
    Some(GoodCode::new(&code, &Witnesses { plans }))
}

/// The code whose rows stand one after the other at the head of a block.
fn start_code(width: u8, block: &[u8]) -> Code
    requires wide { 4 ≤ width }
    requires narrow { width ≤ 10 }
    requires long { rows_len width ≤ length block.now }
    ensures code { result ≡ start_code width block.now }
    ensures width { result.width ≡ width }
    ensures kept { IsCode result }
{
    let mut rows = [[0; 16]; 20];
    for i in 0..20u8 {
        rows[i as usize] = start_row(width, block, i);
    }
    Code::new(width, &rows)
}

fn start_row(width: u8, block: &[u8], i: u8) -> [u8; 16]
    requires wide { 4 ≤ width }
    requires narrow { width ≤ 10 }
    requires row { i < 20 }
    requires long { rows_len width ≤ length block.now }
    ensures { result ≡ start_row width block.now i }
{
    let mut row = [0; 16];
    for k in 0..16u8 {
        row[k as usize] = start_entry(width, block, i, k);
    }
    row
}

fn start_entry(width: u8, block: &[u8], i: u8, k: u8) -> u8
    requires wide { 4 ≤ width }
    requires narrow { width ≤ 10 }
    requires row { i < 20 }
    requires native { k < 16 }
    requires long { rows_len width ≤ length block.now }
    ensures { result ≡ start_entry width block.now i k }
{
    let natives = 2 * (width - 2);
    if i < 2 * width && k < natives {
        block[i as usize * natives as usize + k as usize]
    } else {
        0
    }
}

/// The bytes of all rows at a width.
fn rows_len(width: u8) -> usize
    requires wide { 4 ≤ width }
    requires narrow { width ≤ 10 }
    ensures { result ≡ rows_len width }
{
    2 * (width as usize - 2) * (2 * width as usize)
}

/// The bytes of a start block at a width.
fn start_len(width: u8) -> usize
    requires wide { 4 ≤ width }
    requires narrow { width ≤ 10 }
    ensures len { result ≡ start_len width }
    ensures short { result ≤ 3360 }
{
    rows_len(width) + width as usize * tries_len(width)
}
