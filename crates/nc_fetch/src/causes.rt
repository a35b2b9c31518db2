ghost use Rattle.std.specs.Prelude.{◌≡◌, ◌<◌, ◌≤◌, ◌++◌, None, Some, if◌then◌else◌, length, option_to_list};
ghost use Rattle.nc_settle.specs.MetaWrites.{named};
ghost use Rattle.nc_fetch.specs.Whys.{AreMarkedWith, bad_with, bads, why_at};

use nc_download::{Bad, ShortList, Why};

/// A table that marks the clouds that `on` names with this cause, and no others.
pub fn marked_with(on: &[bool; 10], why: Why) -> [Option<Why>; 10]
    ensures { AreMarkedWith why 10 (named on.now) result }
{
    let mut whys = [None; 10];
    for cloud in 0..10 {
        whys[cloud] = mark_of(on[cloud], why);
    }
    whys
}

fn mark_of(on: bool, why: Why) -> Option<Why>
    ensures { result ≡ (if on then Some why else None) }
{
    if on { Some(why) } else { None }
}

/// The clouds that were found bad, each with its cause.
pub fn short_list(whys: &[Option<Why>; 10], width: u8) -> ShortList
    requires { width ≤ 10 }
    ensures { result ≡ bads whys.now 0 width }
{
    let mut list = ShortList::new();
    for cloud in 0..width {
        push_bad(&mut list, cloud, why_of(whys, cloud));
    }
    list
}

fn why_of(whys: &[Option<Why>; 10], cloud: u8) -> Option<Why>
    requires { cloud < 10 }
    ensures { result ≡ why_at whys.now cloud }
{
    whys[cloud as usize]
}

/// Adds a cloud, where it was found bad.
fn push_bad(list: &mut ShortList, cloud: u8, why: Option<Why>)
    requires { length list.old < 10 }
    ensures { list.new ≡ list.old ++ option_to_list (bad_with cloud why) }
{
    if let Some(why) = why {
        list.push(Bad { cloud, why });
    }
}
