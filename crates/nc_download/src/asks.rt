ghost use Rattle.std.specs.Prelude.{◌≡◌, ◌≤◌, ◌<◌, ◌+◌, ◌^◌, ◌++◌, ◌∷◌, [], OnOk, map};
ghost use Rattle.nc_name.specs.Keys.{Slots};
ghost use Rattle.nc_meta.specs.Metas.{IsLive};
ghost use Rattle.nc_cloud.specs.Fleet.{asked};
ghost use Rattle.nc_download.specs.Chunks.{ask_of, frame_len, wanted_of};

use crate::judging::Wanted;
use nc_cloud::{Answer, Ask};
use nc_meta::Live;
use nc_name::{Key, Memory, Name};
use nc_native::chunk_size;

/// The chunk of a row of a cloud that the metadata of a file tells of.
pub fn wanted(width: u8, name: &Name, live: &Live, row: u8, cloud: u8) -> Wanted
    requires wide { 4 ≤ width }
    requires narrow { width ≤ 10 }
    requires live { IsLive width live.now }
    requires row { row < 2 }
    requires cloud { cloud < width }
    ensures value { result ≡ wanted_of width name.now live.now row cloud }
    ensures slots { Slots result.key }
    ensures small { result.size ≤ 2 ^ 26 + 1 }
{
    Wanted {
        cloud,
        width,
        key: Key::Chunk {
            name: *name,
            slot: live.slots[cloud as usize],
            row,
        },
        size: chunk_size(live.len, width),
        mark: live.marks[2 * cloud as usize + row as usize],
    }
}

/// The bytes of its frame.
fn frame_len(wanted: &Wanted) -> u64
    requires slots { Slots wanted.now.key }
    requires small { wanted.now.size ≤ 2 ^ 26 + 1 }
    ensures { result ≡ frame_len wanted.now }
{
    48 + wanted.key.text().as_str().len() as u64 + wanted.size
}

/// Adds the ask for a chunk, up to the length of its frame.
pub fn push_ask(asks: &mut Vec<Ask>, wanted: &Wanted) -> Result<(), Memory>
    requires slots { Slots wanted.now.key }
    requires small { wanted.now.size ≤ 2 ^ 26 + 1 }
    ensures { OnOk result
        (map asked asks.new.items ≡ map asked asks.old.items ++ ask_of wanted.now ∷ []) }
{
    let ask = Ask {
        cloud: wanted.cloud,
        key: wanted.key,
        most: frame_len(wanted),
        answer: Answer::Waiting,
    };
    match asks.push(ask) {
        Ok(()) => Ok(()),
        Err(_) => Err(Memory),
    }
}
