ghost use Rattle.std.specs.Prelude.{◌≡◌, ◌<◌, ◌≤◌, false};
ghost use Rattle.nc_name.specs.Names.{IsName};
ghost use Rattle.nc_settle.specs.Judging.{is_starved, HasMetaOf, IsPlaceIn, Judges, JudgesPayload};

use crate::place::Place;
use nc_cloud::Answer;
use nc_frame::{Seen, open};
use nc_meta::Meta;
use nc_name::{Key, Name};

/// Whether an answer says nothing, for want of memory.
pub(crate) fn is_starved(answer: &Answer) -> bool
    ensures { result ≡ is_starved answer.now }
{
    matches!(answer, Answer::Waiting | Answer::Memory)
}

/// What an answer says of a place.
pub(crate) fn judge(cloud: u8, width: u8, name: &Name, slot: u8, answer: &Answer) -> Place
    requires wide { 4 ≤ width }
    requires narrow { width ≤ 10 }
    requires slot { slot < 2 }
    requires fed { is_starved answer.now ≡ false }
    ensures { Judges width name.now slot cloud answer.now result }
{
    told_name(name);
    match answer {
        Answer::Bytes(blob) => judge_bytes(cloud, width, name, slot, blob.bytes()),
        Answer::Absent => Place::Absent,
        Answer::Long => Place::Broken,
        Answer::Failed | Answer::Waiting | Answer::Memory => Place::Failed,
    }
}

/// What stands where these bytes are held.
fn judge_bytes(cloud: u8, width: u8, name: &Name, slot: u8, bytes: &[u8]) -> Place
    requires wide { 4 ≤ width }
    requires narrow { width ≤ 10 }
    requires slot { slot < 2 }
    ensures is { IsPlaceIn width name.now cloud slot bytes.now result }
    ensures meta { HasMetaOf width slot result }
{
    let key = Key::Meta { name: *name, slot };
    match open(cloud, width, &key, bytes) {
        Seen::Payload(payload) => judge_payload(width, slot, payload),
        Seen::Misplaced {
            said_cloud,
            said_width,
        } => Place::Misplaced {
            said_cloud,
            said_width,
        },
        Seen::Broken => Place::Broken,
    }
}

/// What stands where this payload is sealed.
fn judge_payload(width: u8, slot: u8, payload: &[u8]) -> Place
    requires wide { 4 ≤ width }
    requires narrow { width ≤ 10 }
    ensures { JudgesPayload width slot payload.now result }
{
    match Meta::read(width, payload) {
        Some(meta) => {
            if meta.generation() % 2 == slot as u64 {
                Place::Sealed(meta)
            } else {
                Place::Broken
            }
        }
        None => Place::Broken,
    }
}

/// Tells what the type of names keeps.
pub(crate) fn told_name(name: &Name)
    ensures { IsName name.now }
{
    let _bytes = name.bytes();
}
