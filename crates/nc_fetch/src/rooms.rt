//! Room for a large file is made while its chunks are asked for and judged.
ghost use Rattle.std.specs.Prelude.{◌≡◌, ◌≤◌, IfOk};
ghost use Rattle.std.specs.Thread.{IsSync};
ghost use Rattle.nc_cloud.specs.Deciding.{OnlyLooked};
ghost use Rattle.nc_cloud.specs.Stopping.{Stops};
ghost use Rattle.nc_meta.specs.Metas.{IsLive};
ghost use Rattle.nc_fetch.specs.Trying.{HasTriedAll};

use crate::trying::try_clouds;
use nc_cloud::Fleet;
use nc_download::Why;
use nc_meta::Live;
use nc_mix::{Piece, room_for};
use nc_name::{Memory, Name};
use std::alloc::Global;
use std::thread;
use std::thread::Threads;

// To begin a thread costs more than room for a file of fewer bytes.
const LARGE: u64 = 1_048_576;

/// Tries clouds, as `try_clouds` does. Where there are two workers or more, and the file is large, another thread makes room for it
/// meanwhile, in place of that which was there.
pub(crate) fn try_beside<R: Threads + Sync, F: Fleet>(
    rt: &R,
    alloc: Global,
    fleet: &mut F,
    name: &Name,
    live: &Live,
    whys: &mut [Option<Why>; 10],
    room: &mut Vec<u8>,
    workers: u8,
) -> Result<Vec<Piece>, Memory>
    requires ready { F.ready }
    requires wide { 4 ≤ F.clouds fleet.old }
    requires narrow { F.clouds fleet.old ≤ 10 }
    requires live { IsLive (F.clouds fleet.old) live.now }
    requires some_worker { 1 ≤ workers }
    ensures tried { IfOk result
        (λ pieces. HasTriedAll F.Fleet name.now live.now fleet.old fleet.new
        whys.old whys.new pieces.items) }
    ensures looked { OnlyLooked F.Fleet fleet.old fleet.new }
    ensures stops { Stops F.Fleet fleet.old fleet.new (λ G. G ≡ F.held fleet.old) }
{
    if workers < 2 || live.len < LARGE {
        let pieces = try_clouds(rt, alloc, fleet, name, live, whys, workers)?;
        return Ok(pieces);
    }
    let width = fleet.width() as u8;
    let len = live.len;
    let (made, pieces) = thread::join_mut(
        rt,
        &mut move || room_for(alloc, width, len),
        &mut ||
            requires sync { IsSync R.row }
            requires ready { F.ready }
            requires wide { 4 ≤ F.clouds fleet.now }
            requires narrow { F.clouds fleet.now ≤ 10 }
            requires live { IsLive (F.clouds fleet.now) live.now }
            requires some_worker { 1 ≤ workers }
            ensures tried { IfOk result
                (λ pieces. HasTriedAll F.Fleet name.entry.now live.entry.now
                fleet.entry.now fleet.exit.now whys.entry.now whys.exit.now pieces.items) }
            ensures looked { OnlyLooked F.Fleet fleet.entry.now fleet.exit.now }
            ensures stops { Stops F.Fleet fleet.entry.now fleet.exit.now
                (λ G. G ≡ F.held fleet.entry.now) }
        { try_clouds(rt, alloc, fleet, name, live, whys, workers) },
    );
    take_room(room, made);
    pieces
}

/// Takes the room that was made, where memory was found for it.
fn take_room(room: &mut Vec<u8>, made: Result<Vec<u8>, Memory>) {
    if let Ok(made) = made {
        *room = made;
    }
}
