//! Clouds that serve each round at the same time. A run over them ends as over a fleet that serves its entries in turn, and
//! leaves the same objects.
//!
//! The lines are those of other scenes, and `entry 18 call 5 of 1 leaving old`: over one fleet the entry of this number fails,
//! and beside it this call of cloud 1, which is the same.
ghost use Rattle.nc_frame.specs.Frames.{Whole};

use nc_cloud::{Cloud, Fanned, Fleet, Got};
use nc_frame::seal;
use nc_memory::{Damage, KeyFates, MemCloud, MemFleet, Torn};
use nc_name::{Blob, Key, read_key};
use nc_stage::{check_run, fate_of, keys, piece_bytes, place_frame};
use std::alloc::Global;
use std::mem;
use std::test::Fail;

/// More bytes than an object of a scene has.
const MANY: u64 = 1_048_576;

/// Scenes of the empty file, of two files with a repair, of damage with a restore and a scrub, and of clouds that fail in the
/// round of the metadata, after two looks and two chunks. Damaged are cloud 1, which is empty, and cloud 2, which holds chunks
/// of cloud 0.
static SCENES: &str = r#"
    clouds 4
    put a -> 0 Ok = generation:1
    get a -> 0 Ok
    stat a -> 0 Ok = "generation·1·length·0·witnesses·yes¶"
    lose 0
    lose 3
    get a -> 0 Ok
    ls -> 0 Ok = "0·a¶"
    rm a -> 0 Ok = generation:2
    get a -> 3 no such file

    clouds 4
    batch < "put·a·6162¶put·a·63¶get·a¶rm·a¶get·a¶" -> 3 line 5: no such file = generation:1 generation:2 "63¶" generation:3
    clouds 4
    entry 50 call 13 of 1 leaving broken
    --workers 2 batch < "put·a·6162¶put·a·63" -> 4 line 2: cloud 1 failed = generation:1

    # cloud 2 fails once as it is asked for its chunk
    clouds 4
    entry 79 call 20 of 2 leaving old
    put a < "abcdefgh" -> 0 Ok = generation:1
    put b < "0123456789" -> 0 Ok = generation:1
    lose 1
    repair 1 -> 4 after 0 names: cloud 2 failed
    repair 1 -> 0 Ok = "repaired·2¶"
    scrub -> 0 Ok
    lose 0
    lose 3
    get a -> 0 Ok = "abcdefgh"
    get b -> 0 Ok = "0123456789"

    # cloud 2 holds chunks of cloud 0
    clouds 4
    put a < "abcdefgh" -> 0 Ok = generation:1
    lose 1
    seal 2 as 0 of 4 c-61-0-0 442a
    seal 2 as 0 of 4 c-61-0-1 c758
    scrub -> 0 Ok = "cloud·1·meta·missing·a¶" "cloud·1·chunk·0·missing·a¶" "cloud·1·chunk·1·missing·a¶" "cloud·2·chunk·0·broken·a¶" "cloud·2·chunk·1·broken·a¶"
    repair 1 -> 10 after 0 names: cloud 2 row 0 is broken
    restore 1 2 -> 0 Ok = "restored·4¶"
    scrub -> 0 Ok
    get a -> 0 Ok = "abcdefgh"

    # cloud 1 fails in the round of the metadata, after two looks and two chunks
    clouds 4
    entry 18 call 5 of 1 leaving old
    put a < "abcdefgh" -> 4 cloud 1 failed
    clouds 4
    entry 18 call 5 of 1 leaving new
    put a < "abcdefgh" -> 4 cloud 1 failed
    clouds 4
    entry 18 call 5 of 1 leaving gone
    put a < "abcdefgh" -> 4 cloud 1 failed
    clouds 4
    entry 18 call 5 of 1 leaving broken
    put a < "abcdefgh" -> 4 cloud 1 failed
    get a -> 0 Ok = "abcdefgh"
    put a < "abc" -> 0 Ok = generation:2
    get a -> 0 Ok = "abc"

    # of several clouds that fail in one round, the least is told
    clouds 4
    entry 20 call 5 of 3 leaving gone
    entry 18 call 5 of 1 leaving broken
    entry 19 call 5 of 2 leaving old
    put a < "abcdefgh" -> 4 cloud 1 failed
    "#;

/// The same clouds twice: as one fleet, and each by itself.
#[derive(Drop)]
struct Twins {
    alloc: Global,
    keys: Vec<Key>,
    fleet: MemFleet,
    clouds: Vec<MemCloud>,
}

impl Twins {
    fn new(alloc: Global, width: usize) -> Result<Twins, Fail> {
        let mut clouds = Vec::new(alloc);
        for _ in 0..width {
            clouds.push(MemCloud::new(alloc))?;
        }
        Ok(Twins {
            alloc,
            keys: keys(alloc)?,
            fleet: MemFleet::new(alloc, width)?,
            clouds,
        })
    }

    /// Does a line without a run.
    fn change(&mut self, line: &str) -> Result<(), Fail> {
        let words: Vec<&str> = line.split_whitespace().collect(self.alloc)?;
        match *words {
            [] | ["#", ..] => Ok(()),
            ["clouds", width] => {
                self.check_same()?;
                *self = Twins::new(self.alloc, width.parse()?)?;
                Ok(())
            }
            ["lose", cloud] => self.lose(cloud.parse()?),
            ["seal", cloud, "as", said, "of", width, key, payload] => {
                self.seal(
                    cloud.parse()?,
                    (said.parse()?, width.parse()?),
                    key,
                    payload,
                )
            }
            ["entry", nth, "call", call, "of", cloud, "leaving", fate] => {
                let fate = fate_of(fate)?;
                self.fleet.refuse(nth.parse()?, fate)?;
                refuse(&mut self.clouds, cloud.parse()?, call.parse()?, fate)
            }
            _ => Err(Fail::new("no such line")),
        }
    }

    /// The clouds by themselves. None are left.
    fn take_clouds(&mut self) -> Vec<MemCloud> {
        mem::replace(&mut self.clouds, Vec::new(self.alloc))
    }

    /// A cloud loses all that it holds.
    fn lose(&mut self, cloud: u8) -> Result<(), Fail> {
        let damage = Damage {
            rest: Torn::Gone,
            except: KeyFates::new(self.alloc),
        };
        if usize::from(cloud) < self.fleet.width() {
            self.fleet.lose(cloud, &damage)?;
        }
        replace(
            &mut self.clouds,
            usize::from(cloud),
            MemCloud::new(self.alloc),
        )
    }

    /// Places the frame of a payload on a cloud, made for a cloud of so many.
    fn seal(&mut self, cloud: u8, said: (u8, u8), text: &str, payload: &str) -> Result<(), Fail> {
        let key = read_key(text).ok_or("no key")?;
        let payload = piece_bytes(self.alloc, payload)?;
        let payload = payload.as_slice();
        place_frame(self.alloc, &mut self.fleet, cloud, said, text, payload)?;
        let frame = seal(self.alloc, said.0, said.1, &key, payload)?;
        put_frame(&mut self.clouds, usize::from(cloud), &key, &frame)
    }

    /// Both hold the same. The gets are calls, so scenes go on with other clouds.
    fn check_same(&mut self) -> Result<(), Fail> {
        let mut number = 0_u8;
        for cloud in self.clouds.iter_mut() {
            check_cloud(cloud, &self.fleet, number, &self.keys)?;
            number = number.saturating_add(1);
        }
        Ok(())
    }
}

/// This call of a cloud fails so.
fn refuse(clouds: &mut [MemCloud], cloud: usize, call: u64, fate: Torn) -> Result<(), Fail> {
    if cloud < clouds.len() {
        Ok(clouds[cloud].refuse(call, fate)?)
    } else {
        Err(Fail::new("no such cloud"))
    }
}

/// Another cloud stands in the place of this one.
fn replace(clouds: &mut [MemCloud], cloud: usize, new: MemCloud) -> Result<(), Fail> {
    if cloud < clouds.len() {
        clouds[cloud] = new;
        Ok(())
    } else {
        Err(Fail::new("no such cloud"))
    }
}

fn put_frame(clouds: &mut [MemCloud], cloud: usize, key: &Key, frame: &Blob) -> Result<(), Fail>
    requires { Whole frame.now }
{
    if cloud < clouds.len() && clouds[cloud].put(key, frame.bytes()).is_ok() {
        Ok(())
    } else {
        Err(Fail::new("no such put"))
    }
}

/// A cloud holds the same as that of this number of a fleet.
fn check_cloud(
    cloud: &mut MemCloud,
    fleet: &MemFleet,
    number: u8,
    keys: &[Key],
) -> Result<(), Fail> {
    for key in keys {
        if !holds(cloud, key, fleet.object(number, key))? {
            return Err(Fail::new(format_args!("an object of cloud {number}")));
        }
    }
    Ok(())
}

/// Whether a cloud holds these bytes under a key, or nothing.
fn holds(cloud: &mut MemCloud, key: &Key, wanted: Option<&[u8]>) -> Result<bool, Fail> {
    match cloud.get(key, MANY) {
        Ok(Got::Bytes(found)) => Ok(wanted == Some(found.bytes())),
        Ok(Got::Absent) => Ok(wanted.is_none()),
        _ => Err(Fail::new("no answer")),
    }
}

#[test]
fn clouds_at_once_end_as_a_fleet_does(rt: HostRuntime) -> Result<(), Fail> {
    let mut twins = Twins::new(rt.alloc(), 0)?;
    for line in SCENES.lines() {
        if let Some((run, end)) = line.trim().split_once(" -> ") {
            check_run(&rt, &mut twins.fleet, run, end)?;
            let mut fanned = Fanned::new(rt, rt.alloc(), twins.take_clouds())?;
            check_run(&rt, &mut fanned, run, end)?;
            twins.clouds = fanned.into_clouds()?;
        } else {
            twins.change(line)?;
        }
    }
    twins.check_same()
}
